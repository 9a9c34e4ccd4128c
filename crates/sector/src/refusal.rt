// Why a call on a sector is refused.
ghost use Rattle.std.specs.Prelude.{◌≡◌};
ghost use Rattle.sector.specs.Answers.{refusal_of, answer_number};

use std::fmt;

/// The refusals, in the order in which they are tested; 3 to 10.
#[derive(Clone, Copy, PartialEq, Eq, Debug)]
pub enum Refusal {
    /// 3: the track pair is above 11
    Pair,
    /// 4: the store has fewer places than the sector has rows
    Places,
    /// 5: the store's width is not that of the layout's blocks
    Width,
    /// 6: the field has too few symbols: q - 1 is below the rows, or below the symbols of a body
    Symbols,
    /// 7: no such row, or, of a write or a read, no such data row
    Row,
    /// 8: data, block or buffer of another length
    Length,
    /// 9: more rows are lost than there are check rows; how many are lost
    Lost(usize),
    /// 10: no contents of the lost rows make every column a codeword
    NoContents,
}

impl Refusal {
    /// The refusal's number, 3 to 10.
    // A method and no conversion: how many rows are lost is not in it.
    pub fn number(self) -> u8
        ensures { result ≡ answer_number (refusal_of self) }
    {
        match self {
            Refusal::Pair => 3,
            Refusal::Places => 4,
            Refusal::Width => 5,
            Refusal::Symbols => 6,
            Refusal::Row => 7,
            Refusal::Length => 8,
            Refusal::Lost(_) => 9,
            Refusal::NoContents => 10,
        }
    }
}

impl fmt::Display for Refusal {
    ghost use Rattle.std.specs.Prelude.{Some};
    ghost use Rattle.sector.specs.Answers.{refusal_of, answer_text};

    ghost output = { λ e. Some (answer_text (refusal_of e)) };

    fn fmt<W: fmt::Write>(&self, f: &mut fmt::Formatter<W>) -> fmt::Result {
        match self {
            Refusal::Lost(n) => write!(f, "refused ({}), rows lost: {n}", self.number()),
            _ => write!(f, "refused ({})", self.number()),
        }
    }
}
