// Examples of layouts and identifications: known bytes, and which bits are judged.
#![tactic(auto)]

#[cfg(test)]
mod tests {
    use block::identification::{id_parity, is_right, make_id};
    use block::layout::Layout;
    use std::process::Abort;

    const BITS: [u8; 8] = [0x80, 0x40, 0x20, 0x10, 0x08, 0x04, 0x02, 0x01];

    // Whether a row of pair 5 takes an identification with some bits of ID0 and ID1 turned, and an IDP that agrees.
    fn takes(layout: Layout, row: usize, turned0: u8, turned1: u8) -> bool {
        let [id0, id1, _] = make_id(layout, 5, row);
        let read0 = id0 ^ turned0;
        let read1 = id1 ^ turned1;
        is_right(layout, 5, row, [read0, read1, id_parity(read0, read1)])
    }

    // The judged bits of ID0 and ID1 are those of two masks.
    fn judges(rt: &impl Abort, layout: Layout, row: usize, judged0: u8, judged1: u8) {
        assert!(rt; takes(layout, row, 0, 0));
        for bit in BITS {
            assert_eq!(rt; takes(layout, row, bit, 0), judged0 & bit == 0);
            assert_eq!(rt; takes(layout, row, 0, bit), judged1 & bit == 0);
        }
    }

    #[test]
    fn known_parities(rt: HostRuntime) {
        assert_eq!(rt; id_parity(0x20, 0x00), 0x2A);
        assert_eq!(rt; id_parity(0x00, 0x02), 0x0A);
        assert_eq!(rt; id_parity(0x24, 0xA8), 0x6C);
        // Each bit, and IDP of ID0 and of ID1 with that bit alone.
        for (bit, upper, lower) in [
            (0x80, 0xA8, 0x8A),
            (0x40, 0x54, 0x45),
            (0x20, 0x2A, 0xA0),
            (0x10, 0x15, 0x50),
            (0x08, 0x88, 0x28),
            (0x04, 0x44, 0x14),
            (0x02, 0x22, 0x0A),
            (0x01, 0x11, 0x05),
        ] {
            assert_eq!(rt; id_parity(bit, 0), upper);
            assert_eq!(rt; id_parity(0, bit), lower);
        }
    }

    #[test]
    fn known_identifications(rt: HostRuntime) {
        assert_eq!(rt; make_id(Layout::Audio, 5, 0), [0x05, 0x02, 0x5F]);
        assert_eq!(rt; make_id(Layout::Audio, 5, 9), [0x25, 0x0B, 0x58]);
        assert_eq!(rt; make_id(Layout::Video, 11, 148), [0x2B, 0xA7, 0xA0]);
    }

    #[test]
    fn judged_bits(rt: HostRuntime) {
        judges(&rt, Layout::Audio, 0, 0x0F, 0xFF);
        judges(&rt, Layout::Audio, 9, 0xEF, 0xFF);
        judges(&rt, Layout::Video, 137, 0x0F, 0xFF);
        judges(&rt, Layout::Video, 138, 0xEF, 0xFF);
        judges(&rt, Layout::Subcode, 11, 0x00, 0x0F);
    }

    #[test]
    fn every_parity_bit_is_judged(rt: HostRuntime) {
        assert!(rt; is_right(Layout::Audio, 5, 0, [0x05, 0x02, 0x5F]));
        for bit in BITS {
            assert!(rt; !is_right(Layout::Audio, 5, 0, [0x05, 0x02, 0x5F ^ bit]));
        }
    }
}
