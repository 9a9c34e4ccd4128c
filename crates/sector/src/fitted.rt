// A sector's terms with a store that fits them, and what is read of it.
ghost use Rattle.std.specs.Prelude.{◌≡◌, [], ◌*◌, ◌<◌, true, length, IfOk};
ghost use Rattle.store.specs.Store.{at, Sound};
ghost use Rattle.block.specs.Layouts.{row_count, data_rows, data_bytes, body_bytes};
ghost use Rattle.sector.specs.Answers.{answered, answer_done, taken};
ghost use Rattle.sector.specs.Terms.{Fits, fitted};
ghost use Rattle.sector.specs.Judgements.{RowJudged};
ghost use Rattle.sector.specs.Fillings.{lost_at};
ghost use Rattle.sector.specs.Recovery.{Surveyed, Recovered};
ghost use Rattle.sector.specs.Closing.{Reads};

use super::judge::judge;
use super::refusal::Refusal;
use super::rows::all_bytes;
use super::terms::Terms;
use super::{MOST_BODY, MOST_BYTES, MOST_ROWS};
use block::condition::Condition;
use code::fill::count_unknown;
use field::{Field, NumberSystem};
use grid::columns::fill_rows;
use std::marker::PhantomData;
use store::{BlockStore, MOST_WIDTH};

// Terms, and a store that fits them and the field.
#[derive(Drop)]
pub(crate) struct Fitted<'a, F: NumberSystem, S: BlockStore> {
    pub(crate) terms: &'a Terms,
    field: PhantomData<F>,
    pub(crate) store: &'a S,
    ghost fits: { Fits F.NumberSystem.system terms.now (S.BlockStore.store store.now) },
}

// Tests the terms, as every call does first; and what is true of every store.
pub(crate) fn fit<'a, F: NumberSystem, S: BlockStore>(
    terms: &'a Terms,
    store: &'a S,
) -> Result<Fitted<'a, F, S>, Refusal>
    ensures reply { answered (λ _. []) result ≡ fitted F.NumberSystem.system terms.now (S.BlockStore.store store.now) (taken []) }
    ensures same { IfOk result (λ f. (f.terms.now ≡ terms.now) × (f.store.now ≡ store.now)) }
    ensures sound { Sound (S.BlockStore.store store.now) }
{
    let places = store.place_count();
    let layout = terms.layout;
    let rows = layout.rows();
    if terms.pair > 11 {
        return Err(Refusal::Pair);
    }
    if places < rows {
        return Err(Refusal::Places);
    }
    if store.block_width() != layout.width() {
        return Err(Refusal::Width);
    }
    let q = usize::from(F::Q);
    let m = F::PER_BYTE;
    if rows >= q {
        return Err(Refusal::Symbols);
    }
    if layout.body_bytes() > (q - 1) / m {
        return Err(Refusal::Symbols);
    }
    Ok(Fitted {
        terms,
        field: PhantomData,
        store,
    })
}

impl<'a, F: Field, S: BlockStore> Fitted<'a, F, S> {
    // What is found at a row's place; the body of a row that is not lost is copied, corrected if one symbol has to change.
    pub(crate) fn examine(&self, row: usize, body: &mut [u8]) -> Condition
        requires { (row < row_count self.now.terms.now.layout) × (length body.old ≡ body_bytes self.now.terms.now.layout) }
        ensures { RowJudged F.NumberSystem.system self.now.terms.now row (at (S.BlockStore.store self.now.store.now) row) body.new result }
    {
        let mut room = [0u8; MOST_WIDTH];
        let block = &mut room[0..self.terms.layout.width()];
        let Ok(held) = self.store.get(row, block) else {
            return Condition::Blank;
        };
        if held {
            judge::<F>(self.terms, row, block, body)
        } else {
            Condition::Blank
        }
    }

    // Looks at every row: says which rows are lost and which are not whole, and copies the codewords that the others stand for.
    // These are two lists of flags, as filling rows takes the one and putting rows the other.
    fn survey(&self, bodies: &mut [u8], lost: &mut [bool], broken: &mut [bool])
        requires room { length bodies.old ≡ row_count self.now.terms.now.layout * body_bytes self.now.terms.now.layout }
        requires flags { (length lost.old ≡ row_count self.now.terms.now.layout) × (length broken.old ≡ row_count self.now.terms.now.layout) }
        ensures { Surveyed F.NumberSystem.system self.now.terms.now (at (S.BlockStore.store self.now.store.now)) (row_count self.now.terms.now.layout) bodies.new lost.new broken.new }
    {
        let n = self.terms.layout.body_bytes();
        // by number, since a proof keeps no write that is made through `chunks_mut` or a `zip` of `iter_mut`
        for (r, is_lost) in lost.iter_mut().enumerate() {
            let start = r * n;
            let condition = self.examine(r, &mut bodies[start..start + n]);
            *is_lost = condition.is_lost();
            broken[r] = !condition.is_clean();
        }
    }

    // Copies the codewords that the rows stand for, with the data of the lost rows filled in, and says which rows are not whole.
    pub(crate) fn recover(&self, bodies: &mut [u8], broken: &mut [bool]) -> Result<(), Refusal>
        requires room { length bodies.old ≡ row_count self.now.terms.now.layout * body_bytes self.now.terms.now.layout }
        requires flags { length broken.old ≡ row_count self.now.terms.now.layout }
        ensures { Recovered F.NumberSystem.system self.now.terms.now (at (S.BlockStore.store self.now.store.now)) bodies.new broken.new result }
    {
        let shape = self.terms.layout.shape();
        let rows = self.terms.layout.rows();
        let mut marks = [false; MOST_ROWS];
        let lost = &mut marks[0..rows];
        self.survey(bodies, lost, broken);
        let count = count_unknown(lost);
        if count > shape.check_rows {
            return Err(Refusal::Lost(count));
        }
        fill_rows::<F>(&shape, bodies, lost).map_err(|_| Refusal::NoContents)
    }

    // Reads a data row that is lost: its part of the contents that make every column a codeword.
    fn read_lost(&self, row: usize, buffer: &mut [u8]) -> Result<(), Refusal>
        requires row { (row < data_rows self.now.terms.now.layout) × (length buffer.old ≡ data_bytes self.now.terms.now.layout) }
        requires lost { lost_at F.NumberSystem.system self.now.terms.now (at (S.BlockStore.store self.now.store.now)) row ≡ true }
        ensures { Reads F.NumberSystem.system self.now.terms.now (S.BlockStore.store self.now.store.now) row buffer.old buffer.new (answer_done result) }
    {
        let rows = self.terms.layout.rows();
        let all = all_bytes(self.terms.layout);
        let mut room = [0u8; MOST_BYTES];
        let mut marks = [false; MOST_ROWS];
        let bodies = &mut room[0..all];
        self.recover(bodies, &mut marks[0..rows])?;
        let start = row * self.terms.layout.body_bytes();
        let end = start + buffer.len();
        buffer.copy_from_slice(&bodies[start..end]);
        Ok(())
    }

    // Reads a data row.
    pub(crate) fn read(&self, row: usize, buffer: &mut [u8]) -> Result<(), Refusal>
        requires { (row < data_rows self.now.terms.now.layout) × (length buffer.old ≡ data_bytes self.now.terms.now.layout) }
        ensures { Reads F.NumberSystem.system self.now.terms.now (S.BlockStore.store self.now.store.now) row buffer.old buffer.new (answer_done result) }
    {
        let n = self.terms.layout.body_bytes();
        let mut room = [0u8; MOST_BODY];
        let body = &mut room[0..n];
        if self.examine(row, body).is_lost() {
            return self.read_lost(row, buffer);
        }
        let end = buffer.len();
        buffer.copy_from_slice(&body[0..end]);
        Ok(())
    }
}
