// A block store that keeps its blocks, with their places, in the order in which the places first
// came. The table's memory is taken once, when the spool is made: there is then room for each place,
// and none has two entries.
#![tactic(auto)]

mod entry;

ghost use Rattle.std.specs.Prelude.{◌≡◌, ℕ, ◌<◌, ◌≤◌, true, ◌||◌, [], length, take, position, IfOk, All, nat_eq, ◌==◌};
ghost use Rattle.std.specs.List.{IsDistinct};
ghost use Rattle.byte_string.specs.Bytes.{Bytes};
ghost use Rattle.store.specs.Store.{Sound, good_width, put_reply, put_after, clear_reply, clear_after};
ghost use Rattle.spool.specs.Order.{apart};
ghost use Rattle.spool.specs.Table.{is_of, places_of, spool_places, order_put, blank};

use entry::Entry;
use std::alloc::{AllocError, Global};
use std::marker::Model;
use store::{BlockStore, MOST_PLACES, MOST_WIDTH, StoreRefusal, is_width};

/// Blocks and their places, in order of first arrival.
#[derive(Drop)]
pub struct Spool {
    places: usize,
    width: usize,
    // a list and no map: the order of arrival is promised, and the memory is taken once
    table: Vec<Entry>,
    ghost distinct: { apart places (places_of table.items) ≡ true },
    ghost narrow: { (places == 0 || good_width width) ≡ true },
}

// Callers see the store, and the places in their order.
impl Model for Spool {
    ghost use Rattle.spool.specs.SpoolView.{SpoolView};

    ghost Value = { SpoolView };

    ghost use Rattle.spool.specs.Table.{spool_store, places_of};
    ghost use Rattle.spool.specs.Kept.{Kept};

    ghost view = { λ s. record { store = spool_store s.places s.width s.table.items; order = places_of s.table.items; distinct = s.distinct; narrow = s.narrow } };

    ghost invariant = { Kept };
}

// The places of a spool that is to have `places`, of blocks of `width` bytes.
fn places_for(places: usize, width: usize) -> usize
    ensures { result ≡ spool_places places width }
{
    if places <= MOST_PLACES && is_width(width) {
        places
    } else {
        0
    }
}

// `block`, and zeros up to the widest.
fn padded(block: &[u8]) -> [u8; MOST_WIDTH]
    requires { length block.now ≤ 88 }
    ensures front { take (length block.now) result ≡ block.now }
    ensures bytes { Bytes result }
{
    let mut bytes = [0u8; MOST_WIDTH];
    bytes[..block.len()].copy_from_slice(block);
    bytes
}

// Where the entry of `place` stands.
fn position_of(table: &[Entry], place: usize) -> Option<usize>
    ensures { result ≡ position (is_of place) table.now }
{
    table.iter().position(|e| e.place == place)
}

impl Spool {
    /// A blank spool, with its memory; one of more than 169 places, or of a width that is not 1 to 88,
    /// has no places.
    #[tactic(auto, using(crate::proofs::Table::apart_none, crate::proofs::Table::narrow_places, crate::proofs::Table::narrow_new, crate::proofs::Table::distinct_new, crate::proofs::Table::below_new))]
    pub fn new(heap: Global, places: usize, width: usize) -> Result<Spool, AllocError>
        ensures store { IfOk result (λ s. s.store ≡ blank (spool_places places width) width) }
        ensures order { IfOk result (λ s. s.order ≡ []) }
    {
        let places = places_for(places, width);
        let table = Vec::with_capacity(heap, places)?;
        Ok(Spool {
            places,
            width,
            table,
        })
    }
}

impl BlockStore for Spool {
    ghost store = { λ s. s.store };

    fn place_count(&self) -> usize
        ensures places { result ≡ self.now.store.places }
        ensures sound { Sound self.now.store }
        ensures distinct { IsDistinct nat_eq self.now.order }
        ensures below { All (λ p. p < self.now.store.places) self.now.order }
    {
        self.places
    }

    fn block_width(&self) -> usize {
        self.width
    }

    fn put(&mut self, place: usize, block: &[u8]) -> Result<(), StoreRefusal>
        ensures reply { result ≡ put_reply self.old.store place block.now }
        ensures after { self.new.store ≡ put_after self.old.store place block.now }
        ensures order { self.new.order ≡ order_put self.old.store self.old.order place block.now }
        ensures distinct { IsDistinct nat_eq self.new.order }
        ensures below { All (λ p. p < self.new.store.places) self.new.order }
    {
        // each call tests for itself: of a test shared through the trait its proof learns nothing
        if place >= self.places {
            return Err(StoreRefusal::Place);
        }
        if block.len() != self.width {
            return Err(StoreRefusal::Length);
        }
        let entry = Entry {
            place,
            block: Some(padded(block)),
        };
        match position_of(&self.table, place) {
            Some(i) => self.table[i] = entry,
            None => self.table.push_reserved(entry),
        }
        Ok(())
    }

    fn clear(&mut self, place: usize) -> Result<(), StoreRefusal>
        ensures reply { result ≡ clear_reply self.old.store place }
        ensures after { self.new.store ≡ clear_after self.old.store place }
        ensures order { self.new.order ≡ self.old.order }
        ensures distinct { IsDistinct nat_eq self.new.order }
        ensures below { All (λ p. p < self.new.store.places) self.new.order }
    {
        if place >= self.places {
            return Err(StoreRefusal::Place);
        }
        if let Some(i) = position_of(&self.table, place) {
            self.table[i] = Entry { place, block: None };
        }
        Ok(())
    }

    fn get(&self, place: usize, buffer: &mut [u8]) -> Result<bool, StoreRefusal> {
        if place >= self.places {
            return Err(StoreRefusal::Place);
        }
        if buffer.len() != self.width {
            return Err(StoreRefusal::Length);
        }
        let Some(i) = position_of(&self.table, place) else {
            return Ok(false);
        };
        let Some(block) = &self.table[i].block else {
            return Ok(false);
        };
        buffer.copy_from_slice(&block[..self.width]);
        Ok(true)
    }
}
