// Reed-Solomon codes over any field, on lists of symbols: syndromes, encoding, correction of one symbol, filling of unknown
// symbols (erasures). Each contract says what the result is, as the only codeword that fits, and rests on the laws of the field
// alone. A code of q or more counts as its remainder modulo q; a symbol that a call does not write keeps the code it had.
#![tactic(auto)]

pub mod correct;
pub mod error;
pub mod fill;
pub mod laws;
mod sizes;
mod solve;
pub mod syndrome;

// The most symbols that a list has, since q is at most 256.
const LONGEST: usize = 255;
