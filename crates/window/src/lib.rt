// A block store that is some places in a row of another one, which it holds by value.
// A window that would reach past the end of the store below has no places.
#![tactic(auto)]

ghost use Rattle.std.specs.Prelude.{◌≡◌, ◌<◌, ◌≤◌, MatchResult};
ghost use Rattle.window.specs.Window.{window_places, windowed, Below};

use std::marker::Model;
use store::{BlockStore, StoreRefusal};

/// The places from `first` on of the store below, `count` of them.
#[derive(Drop)]
pub struct Window<S> {
    inner: S,
    first: usize,
    count: usize,
}

// Callers see the store below, and which of its places the window shows.
impl<S> Model for Window<S> {
    ghost use Rattle.window.specs.WindowView.{WindowView};

    ghost Value = { WindowView S };

    ghost view = { λ w. record { inner = w.inner; first = w.first; count = w.count } };
}

// How many of `places` places a window has.
fn window_places(first: usize, count: usize, places: usize) -> usize
    ensures { result ≡ window_places first count places }
{
    if first <= places && count <= places - first {
        count
    } else {
        0
    }
}

impl<S: BlockStore> Window<S> {
    /// The window on `count` places of `inner`, the first of which is `first`.
    pub fn new(inner: S, first: usize, count: usize) -> Window<S>
        ensures fields { (result.inner ≡ inner) × (result.first ≡ first) × (result.count ≡ count) }
        ensures store { windowed result.first result.count (S.BlockStore.store result.inner) ≡ windowed first count (S.BlockStore.store inner) }
    {
        Self {
            inner,
            first,
            count,
        }
    }

    /// The store below, as the window leaves it.
    pub fn into_inner(self) -> S
        ensures { result ≡ self.inner }
    {
        let Window { inner, .. } = self;
        inner
    }

    // The place below of a place of the window.
    fn below(&self, place: usize) -> Result<usize, StoreRefusal>
        ensures { MatchResult result (λ k. Below self.now.first self.now.count (S.BlockStore.store self.now.inner).places place k) (λ e. (e ≡ StoreRefusal.Place) × (window_places self.now.first self.now.count (S.BlockStore.store self.now.inner).places ≤ place)) }
    {
        let places = self.inner.place_count();
        if place < window_places(self.first, self.count, places) {
            Ok(self.first + place)
        } else {
            Err(StoreRefusal::Place)
        }
    }
}

impl<S: BlockStore> BlockStore for Window<S> {
    ghost store = { λ s. windowed s.first s.count (S.BlockStore.store s.inner) };

    fn place_count(&self) -> usize {
        window_places(self.first, self.count, self.inner.place_count())
    }

    fn block_width(&self) -> usize {
        self.inner.block_width()
    }

    fn put(&mut self, place: usize, block: &[u8]) -> Result<(), StoreRefusal> {
        let place = self.below(place)?;
        self.inner.put(place, block)
    }

    fn clear(&mut self, place: usize) -> Result<(), StoreRefusal> {
        let place = self.below(place)?;
        self.inner.clear(place)
    }

    fn get(&self, place: usize, buffer: &mut [u8]) -> Result<bool, StoreRefusal> {
        let place = self.below(place)?;
        self.inner.get(place, buffer)
    }
}
