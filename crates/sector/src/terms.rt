// The terms of a sector.
use block::layout::Layout;

/// What a sector was opened with, besides its field and its store.
#[derive(Clone, Copy, PartialEq, Eq, Debug)]
pub struct Terms {
    pub layout: Layout,
    /// the track pair, 0 to 11
    pub pair: u8,
}
