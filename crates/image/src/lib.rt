// A block store over memory that it is handed: cells of two bytes more than the width.
// A cell that begins 01h 00h holds a block in its other bytes; any other pair of first bytes means
// blank. Each call changes at most the bytes of one cell, and the contract says what the whole memory
// holds afterwards.
#![tactic(auto)]

ghost use Rattle.std.specs.Prelude.{◌≡◌, ◌+◌, ◌*◌, ◌≤◌, length, is_some, MatchResult};
ghost use Rattle.std.specs.Option.{unwrap_or};
ghost use Rattle.byte_string.specs.Bytes.{Bytes};
ghost use Rattle.store.specs.Store.{put_reply, put_after, clear_reply, clear_after};
ghost use Rattle.image.specs.Cells.{block_of, marked, unmarked};
ghost use Rattle.image.specs.Image.{places_in, image_store, Cell, memory_put, memory_clear};

use std::marker::Model;
use std::ops::Range;
use store::{BlockStore, MOST_PLACES, StoreRefusal, is_width};

/// Memory seen as cells, each with a mark of two bytes and a block.
#[derive(Drop)]
pub struct Image<'a> {
    memory: &'a mut [u8],
    width: usize,
}

// Callers see the bytes of the memory.
impl<'a> Model for Image<'a> {
    ghost use Rattle.image.specs.ImageView.{ImageView};

    ghost Value = { ImageView };

    ghost view = { λ i. record { width = i.width; memory = i.memory.now } };
}

// How many places there are in `memory`, all of whose entries are bytes.
fn places_in(memory: &[u8], width: usize) -> usize
    ensures places { result ≡ places_in (length memory.now) width }
    ensures bytes { Bytes memory.now }
{
    if is_width(width) {
        (memory.len() / (width + 2)).min(MOST_PLACES)
    } else {
        0
    }
}

// Writes the mark and the block.
fn write_cell(cell: &mut [u8], block: &[u8])
    requires { length cell.old ≡ length block.now + 2 }
    ensures { cell.new ≡ marked block.now }
{
    let (mark, bytes) = cell.split_at_mut(2);
    mark.copy_from_slice(&[1, 0]);
    bytes.copy_from_slice(block);
}

// Writes 00h 00h over the mark, and leaves the block's bytes.
fn clear_cell(cell: &mut [u8])
    requires { 2 ≤ length cell.old }
    ensures { cell.new ≡ unmarked cell.old }
{
    cell[..2].fill(0);
}

// Copies the block of a cell that has one, and says whether it has: what `get` does, whose caller owns the buffer.
fn read_cell(cell: &[u8], buffer: &mut [u8]) -> bool
    requires { length cell.now ≡ length buffer.old + 2 }
    ensures held { result ≡ is_some (block_of cell.now) }
    ensures after { buffer.new ≡ unwrap_or (block_of cell.now) buffer.old }
{
    let [1, 0, block @ ..] = cell else {
        return false;
    };
    buffer.copy_from_slice(block);
    true
}

impl<'a> Image<'a> {
    /// The image of blocks of `width` bytes in `memory`, with whatever the memory holds.
    pub fn new(memory: &'a mut [u8], width: usize) -> Image<'a>
        ensures width { result.width ≡ width }
        ensures memory { result.memory ≡ memory.old }
        ensures store { image_store result.width result.memory ≡ image_store width memory.old }
    {
        Image { memory, width }
    }

    // The bytes of the cell of `place`.
    fn cell(&self, place: usize) -> Result<Range<usize>, StoreRefusal>
        ensures { MatchResult result (λ r. Cell (length self.now.memory) self.now.width place r) (λ e. (e ≡ StoreRefusal.Place) × (places_in (length self.now.memory) self.now.width ≤ place)) }
    {
        if place >= self.place_count() {
            return Err(StoreRefusal::Place);
        }
        let start = place * (self.width + 2);
        Ok(start..start + self.width + 2)
    }
}

// Each call tests for itself: of a test shared through the trait its proof learns nothing.
impl<'a> BlockStore for Image<'a> {
    ghost store = { λ s. image_store s.width s.memory };

    fn place_count(&self) -> usize {
        places_in(self.memory, self.width)
    }

    fn block_width(&self) -> usize {
        self.width
    }

    fn put(&mut self, place: usize, block: &[u8]) -> Result<(), StoreRefusal>
        ensures reply { result ≡ put_reply (image_store self.old.width self.old.memory) place block.now }
        ensures after { image_store self.new.width self.new.memory ≡ put_after (image_store self.old.width self.old.memory) place block.now }
        ensures memory { self.new.memory ≡ memory_put self.old.width self.old.memory place block.now }
    {
        let cell = self.cell(place)?;
        if block.len() != self.width {
            return Err(StoreRefusal::Length);
        }
        write_cell(&mut self.memory[cell], block);
        Ok(())
    }

    fn clear(&mut self, place: usize) -> Result<(), StoreRefusal>
        ensures reply { result ≡ clear_reply (image_store self.old.width self.old.memory) place }
        ensures after { image_store self.new.width self.new.memory ≡ clear_after (image_store self.old.width self.old.memory) place }
        ensures memory { self.new.memory ≡ memory_clear self.old.width self.old.memory place }
    {
        let cell = self.cell(place)?;
        clear_cell(&mut self.memory[cell]);
        Ok(())
    }

    fn get(&self, place: usize, buffer: &mut [u8]) -> Result<bool, StoreRefusal> {
        let cell = self.cell(place)?;
        if buffer.len() != self.width {
            return Err(StoreRefusal::Length);
        }
        Ok(read_cell(&self.memory[cell], buffer))
    }
}
