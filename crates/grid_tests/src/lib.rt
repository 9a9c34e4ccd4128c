// Examples of packed symbols and of the row code and the column code on many rows.
#![tactic(auto)]

#[cfg(test)]
mod tests {
    use code::correct::Verdict;
    use code::error::CodeError;
    use field::Field;
    use field::byte::ByteField;
    use field::half_byte::HalfByteField;
    use grid::columns::{column_syndromes, encode_columns, fill_rows};
    use grid::packing::{pack, symbol_at, unpack};
    use grid::rows::{codeword_rows, correct_row, encode_rows};
    use grid::shape::Shape;
    use relabelled::RelabelledField;
    use std::test::Fail;

    fn shape(data_rows: usize, check_rows: usize, data_bytes: usize, check_bytes: usize) -> Shape {
        Shape {
            data_rows,
            check_rows,
            data_bytes,
            check_bytes,
        }
    }

    // One row of 5 data bytes, with its 2 check bytes.
    fn coded<F: Field>(data: [u8; 5]) -> Result<[u8; 7], CodeError> {
        let mut row = [0; 7];
        row[..5].copy_from_slice(&data);
        encode_rows::<F>(&shape(1, 0, 5, 2), &mut row)?;
        Ok(row)
    }

    // Writes 0, 1, 2 and so on, and 0 again after 250.
    fn count_up(bytes: &mut [u8]) {
        for (byte, n) in bytes.iter_mut().zip((0..251u8).cycle()) {
            *byte = n;
        }
    }

    // A grid of 14 rows of 85 bytes with its check rows and check bytes.
    fn coded_grid() -> Result<[u8; 1190], CodeError> {
        let mut grid = [0u8; 1190];
        count_up(&mut grid);
        encode_columns::<ByteField>(&shape(9, 5, 77, 8), &mut grid)?;
        encode_rows::<ByteField>(&shape(9, 5, 77, 8), &mut grid)?;
        Ok(grid)
    }

    // Overwrites the marked rows of such a grid.
    fn spoil(grid: &mut [u8; 1190], lost: &[bool; 14]) {
        for (row, &is_lost) in grid.chunks_mut(85).zip(lost) {
            if is_lost {
                row.fill(0xA5);
            }
        }
    }

    #[test]
    fn half_byte_rows(rt: HostRuntime) -> Result<(), Fail> {
        assert_eq!(rt;
            coded::<HalfByteField>([0, 0, 0, 0, 1])?,
            [0, 0, 0, 0, 1, 0xF3, 0x1C]
        );
        assert_eq!(rt;
            coded::<HalfByteField>([1, 2, 3, 4, 5])?,
            [1, 2, 3, 4, 5, 0x48, 0x7A]
        );
        assert_eq!(rt;
            coded::<HalfByteField>([0xFF; 5])?,
            [0xFF, 0xFF, 0xFF, 0xFF, 0xFF, 0x18, 0x18]
        );
        let mut row = [0, 0, 0, 0, 1, 0xF3, 0x10];
        assert_eq!(rt;
            correct_row::<HalfByteField>(&mut row, 2)?,
            Verdict::Corrected(13)
        );
        assert_eq!(rt; row, [0, 0, 0, 0, 1, 0xF3, 0x1C]);
        assert_eq!(rt; correct_row::<HalfByteField>(&mut row, 2)?, Verdict::Clean);
        let mut far = [0, 0, 0, 0, 1, 0xF3, 0];
        assert_eq!(rt;
            correct_row::<HalfByteField>(&mut far, 2)?,
            Verdict::OutOfReach
        );
        assert_eq!(rt; far, [0, 0, 0, 0, 1, 0xF3, 0]);
        Ok(())
    }

    // The sum of the relabelled field is no xor.
    #[test]
    fn relabelled_rows(rt: HostRuntime) -> Result<(), Fail> {
        let sent = coded::<RelabelledField>([0x12, 0x34, 0x56, 0x78, 0x9A])?;
        assert_ne!(rt;
            sent,
            coded::<HalfByteField>([0x12, 0x34, 0x56, 0x78, 0x9A])?
        );
        let mut row = sent;
        row[2] = 0x5B;
        assert_eq!(rt;
            correct_row::<RelabelledField>(&mut row, 2)?,
            Verdict::Corrected(5)
        );
        assert_eq!(rt; row, sent);
        row[6] = row[6] ^ 0x80;
        assert_eq!(rt;
            correct_row::<RelabelledField>(&mut row, 2)?,
            Verdict::Corrected(12)
        );
        assert_eq!(rt; row, sent);
        Ok(())
    }

    #[test]
    fn byte_rows(rt: HostRuntime) -> Result<(), Fail> {
        let mut unit = [0u8; 85];
        unit[76] = 1;
        encode_rows::<ByteField>(&shape(1, 0, 77, 8), &mut unit)?;
        assert_eq!(rt;
            &unit[77..85],
            [0xFF, 0x0B, 0x51, 0x36, 0xEF, 0xAD, 0xC8, 0x18].as_slice()
        );
        let mut counting = [0u8; 85];
        count_up(&mut counting);
        encode_rows::<ByteField>(&shape(1, 0, 77, 8), &mut counting)?;
        assert_eq!(rt;
            &counting[77..85],
            [0xE1, 0x4F, 0xD9, 0x0C, 0xD6, 0xB5, 0x77, 0x23].as_slice()
        );
        Ok(())
    }

    #[test]
    fn byte_columns(rt: HostRuntime) -> Result<(), Fail> {
        let mut short = [0u8; 14];
        short[8] = 1;
        encode_columns::<ByteField>(&shape(9, 5, 1, 0), &mut short)?;
        assert_eq!(rt;
            short,
            [0, 0, 0, 0, 0, 0, 0, 0, 1, 0x1F, 0xC6, 0x3F, 0x93, 0x74]
        );
        let mut long = [0xFFu8; 149];
        encode_columns::<ByteField>(&shape(138, 11, 1, 0), &mut long)?;
        assert_eq!(rt;
            &long[138..149],
            [
                0xBD, 0x38, 0x78, 0xA7, 0x42, 0xE7, 0xDF, 0x29, 0x88, 0x2A, 0xAB,
            ]
            .as_slice()
        );
        Ok(())
    }

    #[test]
    fn lost_rows(rt: HostRuntime) -> Result<(), Fail> {
        let grid = coded_grid()?;
        let audio = shape(9, 5, 77, 8);
        let mut flags = [false; 14];
        codeword_rows::<ByteField>(&audio, &grid, &mut flags)?;
        assert_eq!(rt; flags, [true; 14]);
        let mut syndromes = [1u8; 385];
        column_syndromes::<ByteField>(&audio, &grid, &mut syndromes)?;
        assert_eq!(rt; syndromes, [0u8; 385]);
        let mut lost = [false; 14];
        lost[0] = true;
        lost[3] = true;
        lost[4] = true;
        lost[9] = true;
        lost[13] = true;
        let mut spoiled = grid;
        spoil(&mut spoiled, &lost);
        assert_ne!(rt; spoiled, grid);
        fill_rows::<ByteField>(&audio, &mut spoiled, &lost)?;
        encode_rows::<ByteField>(&audio, &mut spoiled)?;
        assert_eq!(rt; spoiled, grid);
        Ok(())
    }

    #[test]
    fn rows_that_stay_lost(rt: HostRuntime) -> Result<(), Fail> {
        let audio = shape(9, 5, 77, 8);
        let mut lost = [
            false, true, true, true, true, true, true, false, false, false, false, false, false,
            false,
        ];
        let mut spoiled = coded_grid()?;
        spoil(&mut spoiled, &lost);
        let before = spoiled;
        assert_eq!(rt;
            fill_rows::<ByteField>(&audio, &mut spoiled, &lost),
            Err(CodeError::TooManyUnknown)
        );
        assert_eq!(rt; spoiled, before);
        lost[6] = false;
        lost[5] = false;
        assert_eq!(rt;
            fill_rows::<ByteField>(&audio, &mut spoiled, &lost),
            Err(CodeError::NoCodeword)
        );
        assert_eq!(rt; spoiled, before);
        Ok(())
    }

    #[test]
    fn packed_symbols(rt: HostRuntime) -> Result<(), Fail> {
        let bytes = [0x1F, 0xA0];
        let mut symbols = [0u8; 4];
        unpack::<HalfByteField>(&bytes, &mut symbols)?;
        assert_eq!(rt; symbols, [1, 0xF, 0xA, 0]);
        assert_eq!(rt; symbol_at::<HalfByteField>(&bytes, 2), 0xA);
        assert_eq!(rt; symbol_at::<HalfByteField>(&bytes, 4), 0);
        let mut packed = [0xFFu8; 2];
        pack::<HalfByteField>(&symbols, &mut packed)?;
        assert_eq!(rt; packed, bytes);
        pack::<HalfByteField>(&[0x51, 0xFF, 0x1A, 0x20], &mut packed)?;
        assert_eq!(rt; packed, bytes);
        let mut whole = [0u8; 2];
        unpack::<ByteField>(&bytes, &mut whole)?;
        assert_eq!(rt; whole, bytes);
        Ok(())
    }

    #[test]
    fn refused_calls(rt: HostRuntime) {
        let unequal = Err(CodeError::UnequalLengths);
        let long = Err(CodeError::TooLong);
        let mut three = [7u8; 3];
        assert_eq!(rt; unpack::<HalfByteField>(&[1, 2], &mut three), unequal);
        assert_eq!(rt;
            pack::<HalfByteField>(&[1, 2, 3, 4, 5], &mut three),
            unequal
        );
        assert_eq!(rt;
            encode_rows::<ByteField>(&shape(1, 0, 1, 1), &mut three),
            unequal
        );
        assert_eq!(rt;
            encode_columns::<ByteField>(&shape(1, 1, 1, 1), &mut three),
            unequal
        );
        assert_eq!(rt;
            encode_columns::<HalfByteField>(&shape(13, 3, 0, 0), &mut three),
            long
        );
        assert_eq!(rt;
            encode_rows::<HalfByteField>(&shape(0, 0, 6, 2), &mut three),
            long
        );
        assert_eq!(rt;
            encode_rows::<ByteField>(&shape(usize::MAX, 2, 1, 1), &mut three),
            long
        );
        assert_eq!(rt;
            column_syndromes::<ByteField>(&shape(1, 1, 1, 1), &[1, 2, 3, 4], &mut three),
            unequal
        );
        assert_eq!(rt;
            fill_rows::<ByteField>(&shape(2, 1, 1, 0), &mut three, &[true]),
            unequal
        );
        let mut flags = [true, false];
        assert_eq!(rt;
            codeword_rows::<ByteField>(&shape(1, 0, 1, 2), &three, &mut flags),
            unequal
        );
        assert_eq!(rt; flags, [true, false]);
        assert_eq!(rt;
            correct_row::<HalfByteField>(&mut three, 4),
            Err(CodeError::TooManyChecks)
        );
        assert_eq!(rt;
            correct_row::<HalfByteField>(&mut three, 0),
            Err(CodeError::TooFewChecks)
        );
        assert_eq!(rt; three, [7; 3]);
        let mut eight = [7u8; 8];
        assert_eq!(rt;
            correct_row::<HalfByteField>(&mut eight, 2),
            Err(CodeError::TooLong)
        );
        assert_eq!(rt; eight, [7; 8]);
        assert_eq!(rt;
            encode_rows::<ByteField>(&shape(0, 0, 0, 0), &mut []),
            Ok(())
        );
        assert_eq!(rt;
            fill_rows::<ByteField>(&shape(0, 0, 3, 1), &mut [], &[]),
            Ok(())
        );
        assert_eq!(rt;
            correct_row::<ByteField>(&mut [], 0),
            Err(CodeError::TooFewChecks)
        );
    }
}
