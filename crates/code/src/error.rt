/// Why a call on a list of symbols is refused.
#[derive(Clone, Copy, PartialEq, Eq, Debug)]
pub enum CodeError {
    /// two slices that go together, or a grid and its shape, have different lengths
    UnequalLengths,
    /// more symbols than q - 1, the number of different locators
    TooLong,
    /// fewer checks than twice the symbols to be corrected
    TooFewChecks,
    /// more check symbols than symbols
    TooManyChecks,
    /// more unknown symbols than checks
    TooManyUnknown,
    /// no symbols at the unknown places make a codeword
    NoCodeword,
}
