// Grids of symbols kept in bytes: how symbols are packed, and the row code and the column code on many rows in one call. Each
// contract says what the bytes hold afterwards, by the codewords of the rows or columns, and nothing of how it is worked out.
#![tactic(auto)]

pub mod columns;
mod lines;
pub mod packing;
pub mod rows;
pub mod shape;

// The most symbols that a row or a column has, since q is at most 256.
const LONGEST: usize = 255;
