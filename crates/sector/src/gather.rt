// The data bytes of an open sector's rows, collected for closing it. They ask for a store's places and width, and for no field, so
// they are no methods of `Fitted`.
ghost use Rattle.std.specs.Prelude.{◌≡◌, ℕ, ◌*◌, ◌<◌, ◌≤◌, cond, length, take, drop};
ghost use Rattle.store.specs.Store.{at};
ghost use Rattle.block.specs.Layouts.{row_count, data_rows, data_bytes, body_bytes, block_width};
ghost use Rattle.sector.specs.Opening.{filler, data_in, open_data};

use block::layout::Layout;
use store::{BlockStore, MOST_WIDTH};

// Copies a row's data bytes from its place to `out` if it was written, and filler if it was not or its place is blank.
fn load_row<S: BlockStore>(layout: Layout, store: &S, row: usize, is_marked: bool, out: &mut [u8])
    requires { (row < (S.BlockStore.store store.now).places) × (((S.BlockStore.store store.now).width ≡ block_width layout) × (length out.old ≡ data_bytes layout)) }
    ensures { out.new ≡ cond is_marked (data_in layout (at (S.BlockStore.store store.now) row)) (filler layout) }
{
    let mut room = [0xffu8; MOST_WIDTH];
    let block = &mut room[0..layout.width()];
    if is_marked {
        let _ = store.get(row, block);
    }
    out.copy_from_slice(&block[3..3 + out.len()]);
}

// Copies the data bytes of all data rows to the bodies that lie one after another in `flat`.
pub(crate) fn gather_rows<S: BlockStore>(layout: Layout, store: &S, marks: &[bool], flat: &mut [u8])
    requires { (row_count layout ≤ (S.BlockStore.store store.now).places) × (((S.BlockStore.store store.now).width ≡ block_width layout) × ((data_rows layout ≤ length marks.now) × (length flat.old ≡ row_count layout * body_bytes layout))) }
    ensures { (r : ℕ) → r < data_rows layout → take (data_bytes layout) (drop (r * body_bytes layout) flat.new) ≡ open_data layout marks.now (at (S.BlockStore.store store.now)) r }
{
    let rows = layout.shape().data_rows;
    let some = layout.shape().data_bytes;
    let n = layout.body_bytes();
    // by number, since a proof keeps no write that is made through `chunks_mut`
    for (r, mark) in marks[..rows].iter().enumerate() {
        let start = r * n;
        load_row(layout, store, r, *mark, &mut flat[start..start + some]);
    }
}
