// The blocks of rows, as they are written to a store. These are no methods of `Fitted`, which borrows a store to read it: a second
// struct that borrows it to write would say the same facts again.
ghost use Rattle.std.specs.Prelude.{◌≡◌, ℕ, ◌*◌, ◌<◌, ◌≤◌, length, take, Some, None};
ghost use Rattle.byte_string.specs.Bytes.{Bytes};
ghost use Rattle.grid.specs.Grids.{row_symbols};
ghost use Rattle.store.specs.Store.{at, with_at};
ghost use Rattle.block.specs.Layouts.{shape_of, row_count, data_bytes, body_bytes, block_width};
ghost use Rattle.sector.specs.Bodies.{Body, block_of};
ghost use Rattle.sector.specs.Opening.{SameFrom};
ghost use Rattle.sector.specs.Recovery.{RowsWritten};

use super::terms::Terms;
use block::identification::make_id;
use block::layout::Layout;
use field::{Field, NumberSystem};
use grid::rows::encode_rows;
use grid::shape::Shape;
use store::{BlockStore, MOST_WIDTH};

// Says that what a slice of bytes holds is below 256, which is known of a parameter but not of a part of a local array. It
// computes nothing.
pub(crate) fn are_bytes(bytes: &[u8])
    ensures { Bytes bytes.now }
{
    let _ = bytes.first();
}

// The bytes of all bodies of a sector.
pub(crate) fn all_bytes(layout: Layout) -> usize
    ensures many { result ≡ row_count layout * body_bytes layout }
    ensures few { result ≤ 12665 }
{
    layout.rows() * layout.body_bytes()
}

// Writes a row's block: its identification and a body.
fn write_block(terms: &Terms, row: usize, body: &[u8], block: &mut [u8])
    requires { (length body.now ≡ body_bytes terms.now.layout) × (length block.old ≡ block_width terms.now.layout) }
    ensures { block.new ≡ block_of terms.now.layout terms.now.pair row body.now }
{
    let id = make_id(terms.layout, terms.pair, row);
    block[0..3].copy_from_slice(&id);
    block[3..].copy_from_slice(body);
}

// Puts a body at its row's place, under its identification.
pub(crate) fn put_row<S: BlockStore>(terms: &Terms, store: &mut S, row: usize, body: &[u8])
    requires { (row < row_count terms.now.layout) × ((row_count terms.now.layout ≤ (S.BlockStore.store store.old).places) × (((S.BlockStore.store store.old).width ≡ block_width terms.now.layout) × (length body.now ≡ body_bytes terms.now.layout))) }
    ensures { S.BlockStore.store store.new ≡ with_at (S.BlockStore.store store.old) row (Some (block_of terms.now.layout terms.now.pair row body.now)) }
{
    let width = terms.layout.width();
    let mut room = [0u8; MOST_WIDTH];
    let block = &mut room[0..width];
    write_block(terms, row, body, block);
    let _ = store.put(row, block);
}

// Writes a data row's body: its data bytes and the check bytes that make it a codeword.
pub(crate) fn make_body<F: Field>(layout: Layout, bytes: &[u8], body: &mut [u8])
    requires { (length bytes.now ≡ data_bytes layout) × ((length body.old ≡ body_bytes layout) × ((row_count layout < F.NumberSystem.system.order) × (row_symbols F.NumberSystem.system (shape_of layout) < F.NumberSystem.system.order))) }
    ensures is { Body F.NumberSystem.system layout body.new }
    ensures front { take (data_bytes layout) body.new ≡ bytes.now }
{
    let shape = layout.shape();
    let one = Shape {
        data_rows: 1,
        check_rows: 0,
        data_bytes: shape.data_bytes,
        check_bytes: shape.check_bytes,
    };
    body[0..bytes.len()].copy_from_slice(bytes);
    are_bytes(body);
    let _ = encode_rows::<F>(&one, body);
}

// Puts the bodies of the rows that are flagged; the bodies of all rows lie one after another in `bodies`.
pub(crate) fn put_rows<S: BlockStore>(terms: &Terms, store: &mut S, bodies: &[u8], flags: &[bool])
    requires fits { (row_count terms.now.layout ≤ (S.BlockStore.store store.old).places) × ((S.BlockStore.store store.old).width ≡ block_width terms.now.layout) }
    requires sized { length (S.BlockStore.store store.old).contents ≡ (S.BlockStore.store store.old).places }
    requires room { (length bodies.now ≡ row_count terms.now.layout * body_bytes terms.now.layout) × (length flags.now ≡ row_count terms.now.layout) }
    ensures { RowsWritten terms.now bodies.now flags.now (S.BlockStore.store store.old) (S.BlockStore.store store.new) }
{
    let n = terms.layout.body_bytes();
    // by number, which is the row's place in the store too: over `chunks` and a `zip` the loop's invariant speaks of what the
    // iterator has yielded, and is no plainer
    for (r, flag) in flags.iter().enumerate() {
        if *flag {
            let start = r * n;
            put_row(terms, store, r, &bodies[start..start + n]);
        }
    }
}

// Makes the places of all rows blank.
pub(crate) fn clear_rows<S: BlockStore>(layout: Layout, store: &mut S)
    requires { (row_count layout ≤ (S.BlockStore.store store.old).places) × (length (S.BlockStore.store store.old).contents ≡ (S.BlockStore.store store.old).places) }
    ensures blank { (r : ℕ) → r < row_count layout → at (S.BlockStore.store store.new) r ≡ None }
    ensures same { SameFrom (row_count layout) (S.BlockStore.store store.old) (S.BlockStore.store store.new) }
{
    for r in 0..layout.rows() {
        let _ = store.clear(r);
    }
}
