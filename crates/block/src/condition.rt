// What a row's place is found to hold.
ghost use Rattle.std.specs.Prelude.{◌≡◌, Some};
ghost use Rattle.block.specs.Conditions.{condition_number, is_lost, is_clean};

use code::correct::Verdict;
use std::fmt;

/// What a row's place is found to hold: the first of these that is true.
#[derive(Clone, Copy, PartialEq, Eq, Debug)]
pub enum Condition {
    /// nothing
    Blank,
    /// a block whose identification is not that of the row
    WrongId,
    /// a codeword
    Clean,
    /// no codeword, but one is had by changing the symbol at this position
    Corrected(usize),
    /// no codeword within one symbol
    OutOfReach,
}

impl Condition {
    /// The number of the condition, 1 to 5.
    // No conversion into `u8`: that would drop the position of a corrected symbol.
    pub fn number(self) -> u8
        ensures { result ≡ condition_number self }
    {
        match self {
            Condition::Blank => 1,
            Condition::WrongId => 2,
            Condition::Clean => 3,
            Condition::Corrected(_) => 4,
            Condition::OutOfReach => 5,
        }
    }

    /// Whether the place gives nothing to rely on.
    pub fn is_lost(self) -> bool
        ensures { result ≡ is_lost self }
    {
        !matches!(self, Condition::Clean | Condition::Corrected(_))
    }

    /// Whether the place holds a codeword.
    pub fn is_clean(self) -> bool
        ensures { result ≡ is_clean self }
    {
        matches!(self, Condition::Clean)
    }
}

impl From<Verdict> for Condition {
    ghost use Rattle.block.specs.Conditions.{condition_of};

    ghost from_gives = { λ verdict condition. condition ≡ condition_of verdict };

    fn from(verdict: Verdict) -> Condition {
        match verdict {
            Verdict::Clean => Condition::Clean,
            Verdict::Corrected(position) => Condition::Corrected(position),
            Verdict::OutOfReach => Condition::OutOfReach,
        }
    }
}

impl fmt::Display for Condition {
    ghost use Rattle.block.specs.Conditions.{condition_text};

    ghost output = { λ condition. Some (condition_text condition) };

    fn fmt<W: fmt::Write>(&self, f: &mut fmt::Formatter<W>) -> fmt::Result {
        match self {
            Condition::Blank => f.write_str("blank"),
            Condition::WrongId => f.write_str("wrong ID"),
            Condition::Clean => f.write_str("whole"),
            Condition::Corrected(position) => write!(f, "mended at symbol {position}"),
            Condition::OutOfReach => f.write_str("no word"),
        }
    }
}
