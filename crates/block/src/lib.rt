// Blocks of a sector: the layouts, the identification bytes, and what a block is found to be.
#![tactic(auto)]

pub mod condition;
pub mod identification;
pub mod laws;
pub mod layout;
