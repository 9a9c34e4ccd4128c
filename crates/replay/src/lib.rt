// Whole runs over a sector: a list of writes, the close, and a list of calls.
#![tactic(auto)]

pub mod run;
pub mod script;
