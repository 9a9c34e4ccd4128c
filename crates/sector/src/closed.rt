// Closed sectors: rows are read, checked and repaired.
ghost use Rattle.std.specs.Prelude.{◌≡◌, [], Some, None};
ghost use Rattle.byte_string.specs.Bytes.{Bytes};
ghost use Rattle.sector.specs.Answers.{answer_done, answer_condition, answer_count, taken};
ghost use Rattle.sector.specs.Terms.{row_guards, block_guards};
ghost use Rattle.sector.specs.Closing.{stored, check_answer, Reading, Repairing};

use super::fitted::fit;
use super::refusal::Refusal;
use super::rows::{all_bytes, are_bytes, put_rows};
use super::terms::Terms;
use super::{MOST_BODY, MOST_BYTES, MOST_ROWS};
use block::condition::Condition;
use block::layout::Layout;
use code::fill::count_unknown;
use field::{Field, NumberSystem};
use grid::rows::encode_rows;
use std::marker::Model;
use store::BlockStore;

/// A sector whose rows lie in its store under their identifications, each with its check bytes, and the check rows behind the data rows.
#[derive(Drop)]
pub struct ClosedSector<F, S> {
    pub(crate) terms: Terms,
    pub(crate) field: F,
    pub(crate) store: S,
}

impl<F, S> Model for ClosedSector<F, S> {
    ghost use Rattle.sector.specs.Sectors.{ClosedView};

    ghost Value = { ClosedView F S };

    ghost view = { λ a. record { terms = a.terms; field = a.field; store = a.store } };
}

/// Takes a store that holds a closed sector, as it came from elsewhere.
// Layout and track pair come one by one, as a caller has them.
pub fn adopt<F: Field, S: BlockStore>(
    layout: Layout,
    pair: u8,
    field: F,
    store: S,
) -> ClosedSector<F, S>
    ensures terms { (result.terms.layout ≡ layout) × (result.terms.pair ≡ pair) }
    ensures field { result.field ≡ field }
    ensures store { result.store ≡ store }
{
    ClosedSector {
        terms: Terms { layout, pair },
        field,
        store,
    }
}

// Each call tests its row and its length itself, so that the order of its refusals is read there.
impl<F: Field, S: BlockStore> ClosedSector<F, S> {
    /// Puts a whole block at a row's place, right or wrong, over what was there.
    pub fn put_block(&mut self, row: usize, block: &[u8]) -> Result<(), Refusal>
        ensures reply { answer_done result ≡ block_guards F.NumberSystem.system self.old.terms (S.BlockStore.store self.old.store) row block.now }
        ensures after { S.BlockStore.store self.new.store ≡ stored F.NumberSystem.system self.old.terms (answer_done result) (S.BlockStore.store self.old.store) row (Some block.now) }
        ensures bytes { Bytes block.now }
        ensures terms { self.new.terms ≡ self.old.terms }
        ensures field { self.new.field ≡ self.old.field }
    {
        fit::<F, S>(&self.terms, &self.store)?;
        if row >= self.terms.layout.rows() {
            return Err(Refusal::Row);
        }
        if block.len() != self.terms.layout.width() {
            return Err(Refusal::Length);
        }
        let _ = self.store.put(row, block);
        Ok(())
    }

    /// Makes a row's place blank.
    pub fn erase(&mut self, row: usize) -> Result<(), Refusal>
        ensures reply { answer_done result ≡ row_guards F.NumberSystem.system self.old.terms (S.BlockStore.store self.old.store) row (taken []) }
        ensures after { S.BlockStore.store self.new.store ≡ stored F.NumberSystem.system self.old.terms (answer_done result) (S.BlockStore.store self.old.store) row None }
        ensures terms { self.new.terms ≡ self.old.terms }
        ensures field { self.new.field ≡ self.old.field }
    {
        fit::<F, S>(&self.terms, &self.store)?;
        if row >= self.terms.layout.rows() {
            return Err(Refusal::Row);
        }
        let _ = self.store.clear(row);
        Ok(())
    }

    /// Says what is found at a row's place.
    pub fn check(&self, row: usize) -> Result<Condition, Refusal>
        ensures { answer_condition result ≡ check_answer F.NumberSystem.system self.now.terms (S.BlockStore.store self.now.store) row }
    {
        let fitted = fit::<F, S>(&self.terms, &self.store)?;
        if row >= self.terms.layout.rows() {
            return Err(Refusal::Row);
        }
        let n = self.terms.layout.body_bytes();
        let mut room = [0u8; MOST_BODY];
        Ok(fitted.examine(row, &mut room[0..n]))
    }

    /// Reads the data bytes of a data row, also of a lost one if the other rows tell them.
    pub fn read(&self, row: usize, buffer: &mut [u8]) -> Result<(), Refusal>
        ensures { Reading F.NumberSystem.system self.now.terms (S.BlockStore.store self.now.store) row buffer.old buffer.new (answer_done result) }
    {
        let fitted = fit::<F, S>(&self.terms, &self.store)?;
        let shape = self.terms.layout.shape();
        if row >= shape.data_rows {
            return Err(Refusal::Row);
        }
        if buffer.len() != shape.data_bytes {
            return Err(Refusal::Length);
        }
        fitted.read(row, buffer)
    }

    /// Restores every row: those that are not whole are put anew, as closing would, and counted; or says why not, and then
    /// nothing is written.
    pub fn repair(&mut self) -> Result<usize, Refusal>
        ensures after { Repairing F.NumberSystem.system self.old.terms (S.BlockStore.store self.old.store) (S.BlockStore.store self.new.store) (answer_count result) }
        ensures terms { self.new.terms ≡ self.old.terms }
        ensures field { self.new.field ≡ self.old.field }
    {
        let fitted = fit::<F, S>(&self.terms, &self.store)?;
        let layout = self.terms.layout;
        let mut room = [0u8; MOST_BYTES];
        let mut marks = [false; MOST_ROWS];
        let bodies = &mut room[0..all_bytes(layout)];
        let broken = &mut marks[0..layout.rows()];
        fitted.recover(bodies, broken)?;
        let _ = encode_rows::<F>(&layout.shape(), bodies);
        are_bytes(bodies);
        put_rows(&self.terms, &mut self.store, bodies, broken);
        Ok(count_unknown(broken))
    }
}

impl<F: Field + Drop, S: BlockStore> ClosedSector<F, S> {
    /// The store, as the sector leaves it.
    pub fn into_store(self) -> S
        ensures { result ≡ self.store }
    {
        let ClosedSector {
            terms: _,
            field: _,
            store,
        } = self;
        store
    }
}
