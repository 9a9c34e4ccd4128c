// A block store over another one, which it holds by value: the store below holds each block byte by
// byte under a fixed sequence of bytes, and a get gives the plain block. The sequence comes from a
// preset of seven bits, by the recurrence s(t + 7) = (s(t + 3) + s(t)) mod 2, and begins anew with
// each block.
#![tactic(auto)]

mod sequence;

ghost use Rattle.std.specs.Prelude.{◌≡◌};
ghost use Rattle.randomizer.specs.Sequence.{sequence_of};
ghost use Rattle.randomizer.specs.Plain.{good_preset, plain_store};

pub use sequence::{randomize, sequence_of};
use std::marker::Model;
use store::{BlockStore, MOST_WIDTH, StoreRefusal};

/// The store below with plain blocks; a preset that is not 1 to 127 gives no places.
#[derive(Drop)]
pub struct Randomizer<S> {
    inner: S,
    preset: u8,
    sequence: [u8; MOST_WIDTH],
}

// Callers see the store below and the preset, which tells the sequence.
impl<S> Model for Randomizer<S> {
    ghost use Rattle.std.specs.Prelude.{◌≡◌};
    ghost use Rattle.randomizer.specs.Sequence.{sequence_of};
    ghost use Rattle.randomizer.specs.RandomizerView.{RandomizerView};

    ghost Value = { RandomizerView S };

    ghost view = { λ r. record { inner = r.inner; preset = r.preset } };

    ghost invariant = { λ r. r.sequence ≡ sequence_of r.preset };
}

// Whether `preset` has a sequence.
fn is_preset(preset: u8) -> bool
    ensures { result ≡ good_preset preset }
{
    (1..=127).contains(&preset)
}

impl<S: BlockStore> Randomizer<S> {
    /// The plain blocks of `inner`, under the sequence of `preset`.
    pub fn new(inner: S, preset: u8) -> Randomizer<S>
        ensures fields { (result.inner ≡ inner) × (result.preset ≡ preset) }
        ensures store { plain_store (good_preset result.preset) (sequence_of result.preset) (S.BlockStore.store result.inner) ≡ plain_store (good_preset preset) (sequence_of preset) (S.BlockStore.store inner) }
    {
        let sequence = sequence_of(preset);
        Randomizer {
            inner,
            preset,
            sequence,
        }
    }

    /// The store below, with its randomized blocks.
    pub fn into_inner(self) -> S
        ensures { result ≡ self.inner }
    {
        let Randomizer { inner, .. } = self;
        inner
    }
}

// Each call tests for itself: of a test shared through the trait its proof learns nothing.
impl<S: BlockStore> BlockStore for Randomizer<S> {
    ghost store = { λ s. plain_store (good_preset s.preset) (sequence_of s.preset) (S.BlockStore.store s.inner) };

    fn place_count(&self) -> usize {
        if is_preset(self.preset) {
            self.inner.place_count()
        } else {
            0
        }
    }

    fn block_width(&self) -> usize {
        self.inner.block_width()
    }

    fn put(&mut self, place: usize, block: &[u8]) -> Result<(), StoreRefusal> {
        if place >= self.place_count() {
            return Err(StoreRefusal::Place);
        }
        if block.len() != self.inner.block_width() {
            return Err(StoreRefusal::Length);
        }
        let mut bytes = [0u8; MOST_WIDTH];
        let part = &mut bytes[..block.len()];
        part.copy_from_slice(block);
        randomize(&self.sequence, part);
        self.inner.put(place, part)
    }

    fn clear(&mut self, place: usize) -> Result<(), StoreRefusal> {
        if !is_preset(self.preset) {
            return Err(StoreRefusal::Place);
        }
        self.inner.clear(place)
    }

    fn get(&self, place: usize, buffer: &mut [u8]) -> Result<bool, StoreRefusal> {
        if !is_preset(self.preset) {
            return Err(StoreRefusal::Place);
        }
        let held = self.inner.get(place, buffer)?;
        if held {
            randomize(&self.sequence, buffer);
        }
        Ok(held)
    }
}
