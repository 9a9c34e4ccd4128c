// Open sectors: data rows are written, and then the sector is closed or discarded.
ghost use Rattle.std.specs.Prelude.{◌≡◌, ◌*◌, ◌<◌, ◌≤◌, Bool, true, false, List, length, replicate, slice_set};
ghost use Rattle.store.specs.Store.{Sound, at};
ghost use Rattle.block.specs.Layouts.{row_count, data_rows, data_bytes, body_bytes};
ghost use Rattle.sector.specs.Answers.{answer_done};
ghost use Rattle.sector.specs.Terms.{fits};
ghost use Rattle.sector.specs.Opening.{RowStored, Writing, Written, Closes, Discards, open_data};

use super::closed::ClosedSector;
use super::fitted::fit;
use super::gather::gather_rows;
use super::refusal::Refusal;
use super::rows::{all_bytes, are_bytes, clear_rows, make_body, put_row, put_rows};
use super::terms::Terms;
use super::{MOST_BODY, MOST_BYTES, MOST_ROWS};
use block::layout::Layout;
use field::{Field, NumberSystem};
use grid::columns::encode_columns;
use grid::rows::encode_rows;
use std::marker::Model;
use store::BlockStore;

/// Owed for an open sector: closing or discarding the sector takes it, and nothing else does. It is no `Drop`, so it cannot be let go.
pub struct CloseToken {
    owed: (),
}

impl CloseToken {
    fn spend(self) {
        let CloseToken { owed: _ } = self;
    }
}

/// A sector whose data rows are being written; it knows which ones were.
pub struct OpenSector<F, S> {
    terms: Terms,
    field: F,
    store: S,
    marks: [bool; MOST_ROWS],
}

impl<F, S> Model for OpenSector<F, S> {
    ghost use Rattle.sector.specs.Sectors.{OpenView};

    ghost Value = { OpenView F S };

    ghost view = { λ a. record { terms = a.terms; field = a.field; store = a.store; marks = a.marks } };
}

/// Opens a sector, of which no row is written, and gives the token that is owed for it.
// Layout and track pair come one by one, as a caller has them; from here on they are `Terms`.
pub fn open<F: Field, S: BlockStore>(
    layout: Layout,
    pair: u8,
    field: F,
    store: S,
) -> (OpenSector<F, S>, CloseToken)
    ensures terms { (result.0.terms.layout ≡ layout) × (result.0.terms.pair ≡ pair) }
    ensures field { result.0.field ≡ field }
    ensures store { result.0.store ≡ store }
    ensures marks { result.0.marks ≡ replicate 149 false }
{
    (
        OpenSector {
            terms: Terms { layout, pair },
            field,
            store,
            marks: [false; MOST_ROWS],
        },
        CloseToken { owed: () },
    )
}

// Writes a data row that fits: makes its body and puts it at its place. It writes to the store, so it is no method of `Fitted`.
fn write_row<F: Field, S: BlockStore>(terms: &Terms, store: &mut S, row: usize, bytes: &[u8])
    requires fits { fits F.NumberSystem.system terms.now (S.BlockStore.store store.old) ≡ true }
    requires row { row < data_rows terms.now.layout }
    requires long { length bytes.now ≡ data_bytes terms.now.layout }
    ensures { (marks : List Bool) → RowStored F.NumberSystem.system terms.now row bytes.now (S.BlockStore.store store.old) (S.BlockStore.store store.new) marks (slice_set marks row true) }
{
    let n = terms.layout.body_bytes();
    let mut room = [0u8; MOST_BODY];
    let body = &mut room[0..n];
    make_body::<F>(terms.layout, bytes, body);
    put_row(terms, store, row, body);
}

// Closes a sector that fits: collects the data rows, encodes the columns and then the rows, and puts every row. It writes to the
// store, so it is no method of `Fitted`.
fn close_rows<F: Field, S: BlockStore>(terms: &Terms, marks: &[bool], store: &mut S)
    requires fits { fits F.NumberSystem.system terms.now (S.BlockStore.store store.old) ≡ true }
    requires sound { Sound (S.BlockStore.store store.old) }
    requires marks { data_rows terms.now.layout ≤ length marks.now }
    ensures { Written F.NumberSystem.system terms.now (open_data terms.now.layout marks.now (at (S.BlockStore.store store.old))) (S.BlockStore.store store.old) (S.BlockStore.store store.new) }
{
    let layout = terms.layout;
    let shape = layout.shape();
    let n = all_bytes(layout);
    let mut room = [0u8; MOST_BYTES];
    let flat = &mut room[0..n];
    gather_rows(layout, store, marks, flat);
    are_bytes(flat);
    let _ = encode_columns::<F>(&shape, flat);
    let _ = encode_rows::<F>(&shape, flat);
    are_bytes(flat);
    let every = [true; MOST_ROWS];
    put_rows(terms, store, flat, &every[0..layout.rows()]);
}

// A write tests its row and its length itself, so that the order of its refusals is read there.
impl<F: Field, S: BlockStore> OpenSector<F, S> {
    /// Writes the data bytes of a data row: puts its block at its place, over what was there, and marks the row.
    pub fn write(&mut self, row: usize, bytes: &[u8]) -> Result<(), Refusal>
        ensures after { Writing F.NumberSystem.system self.old.terms row bytes.now (S.BlockStore.store self.old.store) (S.BlockStore.store self.new.store) self.old.marks self.new.marks (answer_done result) }
        ensures terms { self.new.terms ≡ self.old.terms }
        ensures field { self.new.field ≡ self.old.field }
        ensures sound { Sound (S.BlockStore.store self.old.store) }
        ensures long { length self.old.marks ≡ 149 }
    {
        fit::<F, S>(&self.terms, &self.store)?;
        let shape = self.terms.layout.shape();
        if row >= shape.data_rows {
            return Err(Refusal::Row);
        }
        if bytes.len() != shape.data_bytes {
            return Err(Refusal::Length);
        }
        write_row::<F, S>(&self.terms, &mut self.store, row, bytes);
        self.marks[row] = true;
        Ok(())
    }

    /// Closes the sector: rows that were not written become filler, the check rows are made, and every row is put at its place.
    pub fn close(self, token: CloseToken) -> ClosedSector<F, S>
        ensures after { Closes F.NumberSystem.system self.terms self.marks (S.BlockStore.store self.store) (S.BlockStore.store result.store) }
        ensures terms { result.terms ≡ self.terms }
        ensures field { result.field ≡ self.field }
    {
        token.spend();
        let OpenSector {
            terms,
            field,
            mut store,
            marks,
        } = self;
        if fit::<F, S>(&terms, &store).is_ok() {
            close_rows::<F, S>(&terms, &marks, &mut store);
        }
        ClosedSector {
            terms,
            field,
            store,
        }
    }
}

impl<F: Field + Drop, S: BlockStore> OpenSector<F, S> {
    /// Gives the sector up: the places of all its rows become blank.
    pub fn discard(self, token: CloseToken) -> S
        ensures { Discards F.NumberSystem.system self.terms (S.BlockStore.store self.store) (S.BlockStore.store result) }
    {
        token.spend();
        let OpenSector {
            terms,
            field: _,
            mut store,
            marks: _,
        } = self;
        if fit::<F, S>(&terms, &store).is_ok() {
            clear_rows(terms.layout, &mut store);
        }
        store
    }
}
