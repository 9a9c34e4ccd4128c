// Codewords with known check symbols, and what each call answers on lists that it cannot take.
#![tactic(auto)]

#[cfg(test)]
mod tests {
    use code::correct::{Verdict, correct};
    use code::error::CodeError;
    use code::fill::{encode, fill};
    use code::syndrome::is_codeword;
    use field::byte::ByteField;
    use field::half_byte::HalfByteField;

    // Ten half-bytes and their four check symbols.
    const ONE: [u8; 14] = [0, 0, 0, 0, 0, 0, 0, 0, 0, 1, 15, 3, 1, 12];

    const ONE_TO_FIVE: [u8; 14] = [0, 1, 0, 2, 0, 3, 0, 4, 0, 5, 4, 8, 7, 10];

    // Nine bytes and their five check symbols.
    const COLUMN: [u8; 14] = [0, 0, 0, 0, 0, 0, 0, 0, 0x01, 0x1F, 0xC6, 0x3F, 0x93, 0x74];

    #[test]
    fn half_bytes_are_encoded(rt: HostRuntime) {
        let mut s = [0, 0, 0, 0, 0, 0, 0, 0, 0, 1, 0, 0, 0, 0];
        assert_eq!(rt; encode::<HalfByteField>(&mut s, 4), Ok(()));
        assert_eq!(rt; s, ONE);
        let mut t = [0, 1, 0, 2, 0, 3, 0, 4, 0, 5, 9, 9, 9, 9];
        assert_eq!(rt; encode::<HalfByteField>(&mut t, 4), Ok(()));
        assert_eq!(rt; t, ONE_TO_FIVE);
        assert!(rt; is_codeword::<HalfByteField>(&t, 4));
        assert!(rt; !is_codeword::<HalfByteField>(&t, 5));
    }

    #[test]
    fn bytes_are_encoded(rt: HostRuntime) {
        let mut s = [0; 85];
        s[76] = 1;
        assert_eq!(rt; encode::<ByteField>(&mut s, 8), Ok(()));
        let mut row = [0; 85];
        row[76..85].copy_from_slice(&[0x01, 0xFF, 0x0B, 0x51, 0x36, 0xEF, 0xAD, 0xC8, 0x18]);
        assert_eq!(rt; s, row);
        let mut t = [0, 0, 0, 0, 0, 0, 0, 0, 1, 0, 0, 0, 0, 0];
        assert_eq!(rt; encode::<ByteField>(&mut t, 5), Ok(()));
        assert_eq!(rt; t, COLUMN);
    }

    #[test]
    fn one_symbol_is_corrected(rt: HostRuntime) {
        let mut s = [0, 0, 0, 0, 0, 0, 0, 0, 0, 1, 15, 3, 1, 0];
        assert_eq!(rt;
            correct::<HalfByteField>(&mut s, 4),
            Ok(Verdict::Corrected(13))
        );
        assert_eq!(rt; s, ONE);
        assert_eq!(rt; correct::<HalfByteField>(&mut s, 4), Ok(Verdict::Clean));
        assert_eq!(rt; s, ONE);
    }

    #[test]
    fn two_wrong_symbols_are_left(rt: HostRuntime) {
        let mut s = [0, 0, 0, 0, 0, 0, 0, 0, 0, 1, 15, 3, 0, 0];
        assert_eq!(rt;
            correct::<HalfByteField>(&mut s, 4),
            Ok(Verdict::OutOfReach)
        );
        assert_eq!(rt; s, [0, 0, 0, 0, 0, 0, 0, 0, 0, 1, 15, 3, 0, 0]);
    }

    #[test]
    fn five_unknown_symbols_are_filled(rt: HostRuntime) {
        let mut s = [7, 0, 0, 7, 0, 0, 0, 0, 7, 0x1F, 7, 0x3F, 0x93, 7];
        let mut unknown = [false; 14];
        unknown[0] = true;
        unknown[3] = true;
        unknown[8] = true;
        unknown[10] = true;
        unknown[13] = true;
        assert_eq!(rt; fill::<ByteField>(&mut s, &unknown, 5), Ok(()));
        assert_eq!(rt; s, COLUMN);
        unknown[5] = true;
        assert_eq!(rt;
            fill::<ByteField>(&mut s, &unknown, 5),
            Err(CodeError::TooManyUnknown)
        );
        assert_eq!(rt; s, COLUMN);
    }

    #[test]
    fn wrong_known_symbols_are_not_filled(rt: HostRuntime) {
        let mut s = [1, 0, 0, 0, 0, 0, 0, 0, 0, 0, 0, 0, 0, 7];
        let mut unknown = [false; 14];
        unknown[13] = true;
        assert_eq!(rt;
            fill::<ByteField>(&mut s, &unknown, 5),
            Err(CodeError::NoCodeword)
        );
        assert_eq!(rt; s, [1, 0, 0, 0, 0, 0, 0, 0, 0, 0, 0, 0, 0, 7]);
    }

    #[test]
    fn unfit_lists_are_refused(rt: HostRuntime) {
        let mut s = [7; 256];
        assert_eq!(rt; encode::<ByteField>(&mut s, 8), Err(CodeError::TooLong));
        assert_eq!(rt; correct::<ByteField>(&mut s, 8), Err(CodeError::TooLong));
        assert_eq!(rt;
            fill::<ByteField>(&mut s, &[true; 256], 8),
            Err(CodeError::TooLong)
        );
        assert_eq!(rt;
            fill::<ByteField>(&mut s, &[true; 255], 8),
            Err(CodeError::UnequalLengths)
        );
        assert_eq!(rt; s, [7; 256]);
        let mut t = [7; 14];
        assert_eq!(rt;
            encode::<HalfByteField>(&mut t, 15),
            Err(CodeError::TooManyChecks)
        );
        assert_eq!(rt;
            correct::<HalfByteField>(&mut t, 15),
            Err(CodeError::TooManyChecks)
        );
        assert_eq!(rt;
            correct::<HalfByteField>(&mut t, 1),
            Err(CodeError::TooFewChecks)
        );
        assert_eq!(rt; t, [7; 14]);
    }

    #[test]
    fn empty_lists_have_answers(rt: HostRuntime) {
        let mut s: [u8; 0] = [];
        assert!(rt; is_codeword::<ByteField>(&s, 3));
        assert_eq!(rt; encode::<ByteField>(&mut s, 0), Ok(()));
        assert_eq!(rt;
            encode::<ByteField>(&mut s, 1),
            Err(CodeError::TooManyChecks)
        );
        assert_eq!(rt;
            correct::<ByteField>(&mut s, 0),
            Err(CodeError::TooFewChecks)
        );
        assert_eq!(rt;
            correct::<ByteField>(&mut s, 2),
            Err(CodeError::TooManyChecks)
        );
        assert_eq!(rt; fill::<ByteField>(&mut s, &[], 0), Ok(()));
        assert_eq!(rt;
            fill::<ByteField>(&mut s, &[], 3),
            Err(CodeError::TooManyChecks)
        );
        assert_eq!(rt;
            fill::<ByteField>(&mut s, &[true], 3),
            Err(CodeError::UnequalLengths)
        );
    }
}
