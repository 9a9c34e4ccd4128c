// The shape of a grid of symbols kept in bytes.
ghost use Rattle.std.specs.Prelude.{◌≡◌, ◌+◌, ◌<◌, ◌≤◌, IfOk, IfErr};

use super::lines::Line;
use code::error::CodeError;
use field::NumberSystem;

/// Data rows and then check rows, one after another; each row has data bytes and then check bytes.
#[derive(Clone, Copy, PartialEq, Eq, Debug)]
pub struct Shape {
    pub data_rows: usize,
    pub check_rows: usize,
    pub data_bytes: usize,
    pub check_bytes: usize,
}

// A grid of symbols that fits its field: the last `check_rows` of its rows and the columns from `data_columns` on are checks.
#[derive(Drop)]
pub(crate) struct Grid {
    pub(crate) rows: usize,
    pub(crate) check_rows: usize,
    pub(crate) columns: usize,
    pub(crate) data_columns: usize,
    ghost few: { rows < 256 },
    ghost short: { columns < 256 },
    ghost row_part: { check_rows ≤ rows },
    ghost column_part: { data_columns ≤ columns },
}

impl Grid {
    ghost use Rattle.grid.specs.Measures.{IsRow, IsColumn, IsSyndromes};

    // The symbols of row `r`.
    pub(crate) fn row(&self, r: usize) -> Line
        requires { r < self.now.rows }
        ensures { IsRow self.now r result }
    {
        Line {
            start: r * self.columns,
            step: 1,
            len: self.columns,
            checks: self.columns - self.data_columns,
        }
    }

    // The symbols at place `j` of all rows.
    pub(crate) fn column(&self, j: usize) -> Line
        requires { j < self.now.columns }
        ensures { IsColumn self.now j result }
    {
        Line {
            start: j,
            step: self.columns,
            len: self.rows,
            checks: self.check_rows,
        }
    }

    // The syndromes of column `j`, kept in rows as long as the data.
    pub(crate) fn syndromes(&self, j: usize) -> Line
        requires { j < self.now.data_columns }
        ensures { IsSyndromes self.now j result }
    {
        Line {
            start: j,
            step: self.data_columns,
            len: self.check_rows,
            checks: 0,
        }
    }
}

// The sum, if it is at most so many.
fn sum_up_to(a: usize, b: usize, most: usize) -> Result<usize, CodeError>
    ensures ok { IfOk result (λ sum. (sum ≡ a + b) × (sum ≤ most)) }
    ensures err { IfErr result (λ e. (e ≡ CodeError.TooLong) × (most < a + b)) }
{
    a.checked_add(b)
        .filter(|sum| *sum <= most)
        .ok_or(CodeError::TooLong)
}

impl Shape {
    ghost use Rattle.grid.specs.Measures.{Measured};

    // The grid of this shape, or why so many bytes cannot be one.
    pub(crate) fn measure<F: NumberSystem>(&self, bytes: usize) -> Result<Grid, CodeError>
        ensures { Measured F.NumberSystem.system self.now bytes result }
    {
        let most = usize::from(F::Q) - 1;
        let m = F::PER_BYTE;
        let rows = sum_up_to(self.data_rows, self.check_rows, most)?;
        let width = sum_up_to(self.data_bytes, self.check_bytes, most / m)?;
        if rows * width != bytes {
            return Err(CodeError::UnequalLengths);
        }
        Ok(Grid {
            rows,
            check_rows: self.check_rows,
            columns: width * m,
            data_columns: self.data_bytes * m,
        })
    }
}
