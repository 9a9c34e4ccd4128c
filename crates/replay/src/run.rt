// Runs of calls over a sector.
ghost use Rattle.std.specs.Prelude.{◌≡◌, true, false, map, length, take, drop};
ghost use Rattle.sector.specs.Answers.{answer_done};
ghost use Rattle.sector.specs.Terms.{fits};
ghost use Rattle.replay.specs.Answers.{answer_of};
ghost use Rattle.replay.specs.Runs.{Applied, Ran, WritingAll, ReadPart};
ghost use Rattle.replay.specs.Promise.{Promise, Unfit, terms_of, shared};

use crate::script::{Call, Outcome, RowWrite};
use block::layout::Layout;
use field::Field;
use sector::closed::ClosedSector;
use sector::open::{OpenSector, open};
use sector::refusal::Refusal;
use store::BlockStore;

// Reads a data row into a part of the memory, or into no bytes where there is no such part.
fn read_part<F: Field, S: BlockStore>(
    sector: &ClosedSector<F, S>,
    row: usize,
    from: usize,
    to: usize,
    memory: &mut [u8],
) -> Result<(), Refusal>
    ensures { ReadPart F.NumberSystem.system sector.now.terms (S.BlockStore.store sector.now.store) memory.old row from to (answer_done result) memory.new }
{
    if from <= to && to <= memory.len() {
        sector.read(row, &mut memory[from..to])
    } else {
        sector.read(row, &mut [])
    }
}

/// Makes one call, and says what it answered.
pub fn apply<F: Field, S: BlockStore>(
    sector: &mut ClosedSector<F, S>,
    call: &Call<'_>,
    memory: &mut [u8],
) -> Result<Outcome, Refusal>
    ensures applied { Applied F.NumberSystem.system sector.old.terms (S.BlockStore.store sector.old.store) memory.old call.now (answer_of result) (S.BlockStore.store sector.new.store) memory.new }
    ensures terms { sector.new.terms ≡ sector.old.terms }
{
    match *call {
        Call::PutBlock { row, block } => sector.put_block(row, block).map(|()| Outcome::Done),
        Call::Erase { row } => sector.erase(row).map(|()| Outcome::Done),
        Call::Check { row } => sector.check(row).map(Outcome::Found),
        Call::Read { row, from, to } => {
            read_part(sector, row, from, to, memory).map(|()| Outcome::Done)
        }
        Call::Repair => sector.repair().map(Outcome::Repaired),
    }
}

// Makes the calls that there is room to reply to in turn, and puts down each reply at the call's place.
fn run_calls<F: Field, S: BlockStore>(
    sector: &mut ClosedSector<F, S>,
    calls: &[Call<'_>],
    replies: &mut [Result<Outcome, Refusal>],
    memory: &mut [u8],
)
    ensures ran { Ran F.NumberSystem.system sector.old.terms (S.BlockStore.store sector.old.store) memory.old (take (shared calls.now replies.old) calls.now) (map answer_of (take (shared calls.now replies.old) replies.new)) (S.BlockStore.store sector.new.store) memory.new }
    ensures rest { drop (shared calls.now replies.old) replies.new ≡ drop (shared calls.now replies.old) replies.old }
    ensures terms { sector.new.terms ≡ sector.old.terms }
{
    let n = calls.len().min(replies.len());
    // by index, since a proof keeps no write that is made through a `zip` of `iter_mut`
    for (i, call) in calls[..n].iter().enumerate() {
        replies[i] = apply(sector, call, memory);
    }
}

// Writes the rows that there is room to reply to in turn, and puts down each reply at the write's place. It is no instance of one
// function with `run_calls`: the sector's type, the call and the relation that is kept are others.
fn write_all<F: Field, S: BlockStore>(
    sector: &mut OpenSector<F, S>,
    writes: &[RowWrite<'_>],
    replies: &mut [Result<Outcome, Refusal>],
)
    requires { length sector.old.marks ≡ 149 }
    ensures marks { WritingAll F.NumberSystem.system sector.old.terms (take (shared writes.now replies.old) writes.now) (S.BlockStore.store sector.old.store) (S.BlockStore.store sector.new.store) sector.old.marks sector.new.marks (map answer_of (take (shared writes.now replies.old) replies.new)) }
    ensures rest { drop (shared writes.now replies.old) replies.new ≡ drop (shared writes.now replies.old) replies.old }
    ensures terms { sector.new.terms ≡ sector.old.terms }
{
    let n = writes.len().min(replies.len());
    // by index, since a proof keeps no write that is made through a `zip` of `iter_mut`
    for (i, write) in writes[..n].iter().enumerate() {
        replies[i] = sector.write(write.row, write.bytes).map(|()| Outcome::Done);
    }
}

/// A whole run: opens a sector over the store, writes the rows, closes it, makes the calls, and gives back the store. As many writes
/// and calls are made as there is room for their replies.
// The replies stand in slices of their own, since no memory is taken to give them back in. Layout and track pair are as `open` has them.
pub fn run<F: Field + Copy, S: BlockStore>(
    layout: Layout,
    pair: u8,
    field: F,
    store: S,
    writes: &[RowWrite<'_>],
    write_replies: &mut [Result<Outcome, Refusal>],
    calls: &[Call<'_>],
    replies: &mut [Result<Outcome, Refusal>],
    memory: &mut [u8],
) -> S
    ensures promise { fits F.NumberSystem.system (terms_of layout pair) (S.BlockStore.store store) ≡ true → Promise F.NumberSystem.system (terms_of layout pair) (take (shared writes.now write_replies.old) writes.now) (take (shared calls.now replies.old) calls.now) (S.BlockStore.store store) (S.BlockStore.store result) memory.old memory.new (take (shared writes.now write_replies.old) write_replies.new) (take (shared calls.now replies.old) replies.new) }
    ensures unfit { fits F.NumberSystem.system (terms_of layout pair) (S.BlockStore.store store) ≡ false → Unfit F.NumberSystem.system (terms_of layout pair) (S.BlockStore.store store) (S.BlockStore.store result) memory.old memory.new (take (shared writes.now write_replies.old) write_replies.new) (take (shared calls.now replies.old) replies.new) }
    ensures rest { (drop (shared writes.now write_replies.old) write_replies.new ≡ drop (shared writes.now write_replies.old) write_replies.old) × (drop (shared calls.now replies.old) replies.new ≡ drop (shared calls.now replies.old) replies.old) }
{
    let (mut sector, token) = open(layout, pair, field, store);
    write_all(&mut sector, writes, write_replies);
    let mut closed = sector.close(token);
    run_calls(&mut closed, calls, replies, memory);
    closed.into_store()
}
