// The row code on many rows in one call.
ghost use Rattle.std.specs.Prelude.{◌≡◌, length, MatchResult};
ghost use Rattle.grid.specs.Grids.{fitting, RowsEncoded, RowsJudged};
ghost use Rattle.grid.specs.Answers.{flags_reply, RowCorrection};

use super::LONGEST;
use super::lines::Line;
use super::shape::Shape;
use code::correct::Verdict;
use code::error::CodeError;
use field::{Field, NumberSystem};

/// Writes the check bytes of every row.
pub fn encode_rows<F: Field>(shape: &Shape, bytes: &mut [u8]) -> Result<(), CodeError>
    ensures reply { result ≡ fitting F.NumberSystem.system shape.now (length bytes.old) }
    ensures after { MatchResult result (λ _. RowsEncoded F.NumberSystem.system shape.now bytes.old bytes.new) (λ _. bytes.new ≡ bytes.old) }
{
    let grid = shape.measure::<F>(bytes.len())?;
    let mut room = [0u8; LONGEST];
    for r in 0..grid.rows {
        grid.row(r).encode::<F>(bytes, &mut room);
    }
    Ok(())
}

/// Says of every row whether it is a codeword.
pub fn codeword_rows<F: NumberSystem>(
    shape: &Shape,
    bytes: &[u8],
    flags: &mut [bool],
) -> Result<(), CodeError>
    ensures reply { result ≡ flags_reply F.NumberSystem.system shape.now (length bytes.now) (length flags.old) }
    ensures after { MatchResult result (λ _. RowsJudged F.NumberSystem.system shape.now bytes.now flags.new) (λ _. flags.new ≡ flags.old) }
{
    let grid = shape.measure::<F>(bytes.len())?;
    if flags.len() != grid.rows {
        return Err(CodeError::UnequalLengths);
    }
    let mut room = [0u8; LONGEST];
    for (r, flag) in flags.iter_mut().enumerate() {
        *flag = grid.row(r).is_codeword::<F>(bytes, &mut room);
    }
    Ok(())
}

/// Puts in place of a row's bytes the only codeword that differs from its symbols in at most one, if there is one.
pub fn correct_row<F: Field>(row: &mut [u8], check_bytes: usize) -> Result<Verdict, CodeError>
    ensures { RowCorrection F.NumberSystem.system check_bytes row.old row.new result }
{
    let m = F::PER_BYTE;
    if check_bytes > row.len() {
        return Err(CodeError::TooManyChecks);
    }
    if row.len() > (usize::from(F::Q) - 1) / m {
        return Err(CodeError::TooLong);
    }
    let line = Line {
        start: 0,
        step: 1,
        len: row.len() * m,
        checks: check_bytes * m,
    };
    line.correct::<F>(row)
}
