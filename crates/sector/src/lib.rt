// Sectors of a track over any field and any block store: open while rows are written, closed when they are read.
#![tactic(auto)]

pub mod closed;
mod fitted;
mod gather;
mod judge;
pub mod open;
pub mod refusal;
mod rows;
pub mod terms;

// The most rows of a sector.
const MOST_ROWS: usize = 149;

// The most bytes of a body.
const MOST_BODY: usize = 85;

// The most bytes of all bodies of a sector.
const MOST_BYTES: usize = 12665;
