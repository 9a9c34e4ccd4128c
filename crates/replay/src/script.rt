// The calls of a run, and what they tell.
ghost use Rattle.std.specs.Prelude.{Some};

use block::condition::Condition;
use std::fmt;

/// One row to be written before the close.
#[derive(Clone, Copy, PartialEq, Eq, Debug)]
pub struct RowWrite<'a> {
    pub row: usize,
    pub bytes: &'a [u8],
}

impl fmt::Display for RowWrite<'_> {
    ghost use Rattle.replay.specs.Printed.{write_text};

    ghost output = { λ x. Some (write_text x) };

    fn fmt<W: fmt::Write>(&self, f: &mut fmt::Formatter<W>) -> fmt::Result {
        write!(f, "write row {}", self.row)
    }
}

/// One call on a closed sector. Reads write to parts of a memory that belongs to the run.
#[derive(Clone, Copy, PartialEq, Eq, Debug)]
pub enum Call<'a> {
    /// puts a whole block, right or wrong, at a row's place
    PutBlock { row: usize, block: &'a [u8] },
    /// blanks a row's place
    Erase { row: usize },
    /// asks for a row's condition
    Check { row: usize },
    /// reads a data row into the bytes of the memory from one place up to another; no bytes where there is no such part
    // A part of the run's memory and no buffer of the call's own, since reads may name the same bytes; two numbers and no `Range`, which
    // is not copied.
    Read { row: usize, from: usize, to: usize },
    /// restores every row
    Repair,
}

impl fmt::Display for Call<'_> {
    ghost use Rattle.replay.specs.Printed.{call_text};

    ghost output = { λ c. Some (call_text c) };

    fn fmt<W: fmt::Write>(&self, f: &mut fmt::Formatter<W>) -> fmt::Result {
        match self {
            Call::PutBlock { row, .. } => write!(f, "put a block at row {row}"),
            Call::Erase { row } => write!(f, "erase row {row}"),
            Call::Check { row } => write!(f, "check row {row}"),
            Call::Read { row, .. } => write!(f, "read row {row}"),
            Call::Repair => f.write_str("repair"),
        }
    }
}

/// What a call that is taken tells.
#[derive(Clone, Copy, PartialEq, Eq, Debug)]
pub enum Outcome {
    /// no more than that
    Done,
    /// the condition of a row
    Found(Condition),
    /// how many rows a repair wrote
    Repaired(usize),
}

impl fmt::Display for Outcome {
    ghost use Rattle.replay.specs.Printed.{outcome_text};

    ghost output = { λ o. Some (outcome_text o) };

    fn fmt<W: fmt::Write>(&self, f: &mut fmt::Formatter<W>) -> fmt::Result {
        match self {
            Outcome::Done => f.write_str("done"),
            Outcome::Found(condition) => write!(f, "{condition}"),
            Outcome::Repaired(n) => write!(f, "rows written: {n}"),
        }
    }
}
