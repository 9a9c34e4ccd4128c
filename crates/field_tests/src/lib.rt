// Examples of the arithmetic of the byte field and of the half-byte field.
#![tactic(auto)]

#[cfg(test)]
mod tests {
    use field::byte::ByteField;
    use field::half_byte::HalfByteField;
    use field::{Field, NumberSystem, power, sub};

    #[test]
    fn products(rt: HostRuntime) {
        assert_eq!(rt; ByteField::mul(0x80, 0x80), 0x13);
        assert_eq!(rt; ByteField::mul(0x80, 0), 0);
        assert_eq!(rt; HalfByteField::mul(8, 8), 0xC);
        assert_eq!(rt; HalfByteField::mul(8, 0), 0);
    }

    #[test]
    fn sums_and_differences(rt: HostRuntime) {
        assert_eq!(rt; ByteField::add(0x53, 0xCA), 0x99);
        assert_eq!(rt; sub::<ByteField>(0x53, 0xCA), 0x99);
        assert_eq!(rt; HalfByteField::add(6, 5), 3);
    }

    #[test]
    fn powers(rt: HostRuntime) {
        assert_eq!(rt; power::<ByteField>(2, 8), 0x1D);
        assert_eq!(rt; power::<ByteField>(2, 255), 1);
        assert_eq!(rt; power::<HalfByteField>(2, 4), 3);
        assert_eq!(rt; power::<HalfByteField>(2, 15), 1);
    }

    #[test]
    fn inverses(rt: HostRuntime) {
        assert_eq!(rt; ByteField::inv(0x02), 0x8E);
        assert_eq!(rt; HalfByteField::inv(2), 9);
        assert_eq!(rt; ByteField::inv(0), 0);
        assert_eq!(rt; HalfByteField::inv(0), 0);
    }

    #[test]
    fn every_inverse(rt: HostRuntime) {
        for x in 1..=255u8 {
            assert_eq!(rt; ByteField::mul(x, ByteField::inv(x)), 1);
        }
        for x in 1..16u8 {
            assert_eq!(rt; HalfByteField::mul(x, HalfByteField::inv(x)), 1);
        }
    }

    // A code of 16 or more counts as its remainder modulo 16.
    #[test]
    fn half_bytes_of_large_codes(rt: HostRuntime) {
        assert_eq!(rt; HalfByteField::add(0xF6, 0x15), 3);
        assert_eq!(rt; HalfByteField::mul(0x18, 0xA8), 0xC);
        assert_eq!(rt; HalfByteField::neg(0x37), 7);
        assert_eq!(rt; HalfByteField::inv(0x42), 9);
    }
}
