// The column code on many rows in one call.
ghost use Rattle.std.specs.Prelude.{◌≡◌, ◌≤◌, length, MatchResult};
ghost use Rattle.code.specs.Codewords.{count};
ghost use Rattle.grid.specs.Grids.{fitting, ColumnsEncoded, SyndromesOf};
ghost use Rattle.grid.specs.Answers.{syndromes_reply, loss_reply, LossAnswer};
ghost use Rattle.grid.specs.Measures.{Sized, AllFillable};

use super::LONGEST;
use super::shape::{Grid, Shape};
use code::error::CodeError;
use code::fill::count_unknown;
use code::syndrome::write_syndromes;
use field::{Field, NumberSystem};

/// Writes the data bytes of the check rows. Their check bytes stay as they were: encode the rows after it.
pub fn encode_columns<F: Field>(shape: &Shape, bytes: &mut [u8]) -> Result<(), CodeError>
    ensures reply { result ≡ fitting F.NumberSystem.system shape.now (length bytes.old) }
    ensures after { MatchResult result (λ _. ColumnsEncoded F.NumberSystem.system shape.now bytes.old bytes.new) (λ _. bytes.new ≡ bytes.old) }
{
    let grid = shape.measure::<F>(bytes.len())?;
    let mut room = [0u8; LONGEST];
    // the lines are others than in `encode_rows`, and so is the relation that is kept
    for j in 0..grid.data_columns {
        grid.column(j).encode::<F>(bytes, &mut room);
    }
    Ok(())
}

/// Writes the syndromes of all columns, packed as the data bytes are, into a byte for each data byte of a row and each check
/// row: row i of them has, at the place of each column, its syndrome i.
pub fn column_syndromes<F: NumberSystem>(
    shape: &Shape,
    bytes: &[u8],
    syndromes: &mut [u8],
) -> Result<(), CodeError>
    ensures reply { result ≡ syndromes_reply F.NumberSystem.system shape.now (length bytes.now) (length syndromes.old) }
    ensures after { MatchResult result (λ _. SyndromesOf F.NumberSystem.system shape.now bytes.now syndromes.new) (λ _. syndromes.new ≡ syndromes.old) }
{
    let grid = shape.measure::<F>(bytes.len())?;
    if syndromes.len() != shape.check_rows * shape.data_bytes {
        return Err(CodeError::UnequalLengths);
    }
    let mut room = [0u8; LONGEST];
    let mut sums = [0u8; LONGEST];
    let word = &mut room[..grid.rows];
    let part = &mut sums[..grid.check_rows];
    for j in 0..grid.data_columns {
        grid.column(j).gather::<F>(bytes, word);
        write_syndromes::<F>(word, part);
        grid.syndromes(j).scatter::<F>(syndromes, part);
    }
    Ok(())
}

// Whether the lost rows can be filled in every column. A loop and no `all`: the test needs the bound on the column's number, which a
// closure does not know.
fn columns_are_fillable<F: Field>(
    shape: &Shape,
    grid: &Grid,
    bytes: &[u8],
    lost: &[bool],
    room: &mut [u8],
) -> bool
    requires sized { Sized F.NumberSystem.system shape.now (length bytes.now) grid.now }
    requires marks { (length lost.now ≡ grid.now.rows) × (count lost.now ≤ grid.now.check_rows) }
    requires room { LONGEST ≤ length room.old }
    ensures { AllFillable F.NumberSystem.system shape.now lost.now bytes.now result }
{
    for j in 0..grid.data_columns {
        if !grid.column(j).is_fillable::<F>(bytes, lost, room) {
            return false;
        }
    }
    true
}

// Flags and no `Option`s for the lost rows: a refused call leaves them as they were.

/// Fills the data bytes of the lost rows with the only ones that make every column a codeword. Their check bytes stay as they
/// were: encode the rows after it. Every column is looked at before any is written, so that a refusal leaves the bytes alone.
pub fn fill_rows<F: Field>(shape: &Shape, bytes: &mut [u8], lost: &[bool]) -> Result<(), CodeError>
    ensures { LossAnswer F.NumberSystem.system shape.now lost.now bytes.old bytes.new (loss_reply F.NumberSystem.system shape.now (length bytes.old) lost.now) result }
{
    let grid = shape.measure::<F>(bytes.len())?;
    if lost.len() != grid.rows {
        return Err(CodeError::UnequalLengths);
    }
    if count_unknown(lost) > grid.check_rows {
        return Err(CodeError::TooManyUnknown);
    }
    let mut room = [0u8; LONGEST];
    if !columns_are_fillable::<F>(shape, &grid, bytes, lost, &mut room) {
        return Err(CodeError::NoCodeword);
    }
    for j in 0..grid.data_columns {
        grid.column(j).fill::<F>(bytes, lost, &mut room);
    }
    Ok(())
}
