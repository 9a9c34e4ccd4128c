// Lines of symbols in a byte string: rows and columns of a grid are such lines. A line is copied out, worked on there, and
// copied back.
ghost use Rattle.std.specs.Prelude.{◌≡◌, ◌*◌, ◌<◌, ◌≤◌, length};
ghost use Rattle.code.specs.Codewords.{Codeword, Tells, count, symbols as symbols_of};
ghost use Rattle.code.specs.Filling.{Encoded};
ghost use Rattle.grid.specs.Answers.{is_corrected, BytesCorrected};
ghost use Rattle.grid.specs.Fillable.{Fillable, FilledIf};

use super::LONGEST;
use super::packing::{set_symbol, symbol_at};
use code::correct::{Verdict, correct};
use code::error::CodeError;
use code::fill::{encode, fill};
use code::syndrome::is_codeword;
use field::{Field, NumberSystem};

// So many symbols: the first at place `start`, and each `step` places after the one before. The last `checks` of them are
// check symbols. A line holds no byte string: that it lies within one is asked where it is written.
#[derive(Drop)]
pub(crate) struct Line {
    pub(crate) start: usize,
    pub(crate) step: usize,
    pub(crate) len: usize,
    pub(crate) checks: usize,
    ghost near: { start < 65536 },
    ghost apart: { 0 < step },
    ghost close: { step < 256 },
    ghost short: { len < 256 },
    ghost room: { checks ≤ len },
}

impl Line {
    ghost use Rattle.grid.specs.Line.{on, Within, Written, Redone};

    // Copies the line to `out`.
    #[inline(always)]
    pub(crate) fn gather<F: NumberSystem>(&self, bytes: &[u8], out: &mut [u8])
        requires { length out.old ≡ self.now.len }
        ensures { out.new ≡ on F.NumberSystem.system self.now bytes.now }
    {
        for (i, symbol) in out.iter_mut().enumerate() {
            *symbol = symbol_at::<F>(bytes, i * self.step + self.start);
        }
    }

    // Copies `word` to the line.
    #[inline(always)]
    pub(crate) fn scatter<F: NumberSystem>(&self, bytes: &mut [u8], word: &[u8])
        requires long { length word.now ≡ self.now.len }
        requires within { Within F.NumberSystem.system self.now (length bytes.old) }
        ensures { Written F.NumberSystem.system self.now self.now.len word.now bytes.old bytes.new }
    {
        for (i, symbol) in word.iter().enumerate() {
            set_symbol::<F>(bytes, i * self.step + self.start, *symbol);
        }
    }

    // The next four methods work on a copy in `room`, which the caller keeps from line to line: a room of its own would be cleared for
    // each. As a line may be short, they are inlined into the callers' loops, and so are the two above.
    //
    // Encoding and filling differ in a step on the copy, and so do the two tests. A function that takes the step as a closure has
    // more lines of contract than it spares here, and its proof does not close.

    // Encodes the line.
    #[inline(always)]
    pub(crate) fn encode<F: Field>(&self, bytes: &mut [u8], room: &mut [u8])
        requires within { Within F.NumberSystem.system self.now (length bytes.old) }
        requires room { LONGEST ≤ length room.old }
        ensures { Redone F.NumberSystem.system self.now (Encoded F.NumberSystem.system self.now.checks) bytes.old bytes.new }
    {
        let word = &mut room[..self.len];
        self.gather::<F>(bytes, word);
        let _ = encode::<F>(word, self.checks);
        self.scatter::<F>(bytes, word);
    }

    // Whether the line is a codeword.
    #[inline(always)]
    pub(crate) fn is_codeword<F: NumberSystem>(&self, bytes: &[u8], room: &mut [u8]) -> bool
        requires room { LONGEST ≤ length room.old }
        ensures { Tells result (Codeword F.NumberSystem.system self.now.checks (symbols_of F.NumberSystem.system (on F.NumberSystem.system self.now bytes.now))) }
    {
        let word = &mut room[..self.len];
        self.gather::<F>(bytes, word);
        is_codeword::<F>(word, self.checks)
    }

    // Whether the unknown symbols of the line can be filled.
    #[inline(always)]
    pub(crate) fn is_fillable<F: Field>(
        &self,
        bytes: &[u8],
        unknown: &[bool],
        room: &mut [u8],
    ) -> bool
        requires room { LONGEST ≤ length room.old }
        requires few { self.now.len < F.NumberSystem.system.order }
        requires marks { (length unknown.now ≡ self.now.len) × (count unknown.now ≤ self.now.checks) }
        ensures { Tells result (Fillable F.NumberSystem.system self.now.checks unknown.now (on F.NumberSystem.system self.now bytes.now)) }
    {
        let word = &mut room[..self.len];
        self.gather::<F>(bytes, word);
        fill::<F>(word, unknown, self.checks).is_ok()
    }

    // Fills the unknown symbols of the line, where they can be filled.
    #[inline(always)]
    pub(crate) fn fill<F: Field>(&self, bytes: &mut [u8], unknown: &[bool], room: &mut [u8])
        requires room { LONGEST ≤ length room.old }
        requires within { Within F.NumberSystem.system self.now (length bytes.old) }
        requires marks { (length unknown.now ≡ self.now.len) × (count unknown.now ≤ self.now.checks) }
        ensures { Redone F.NumberSystem.system self.now (FilledIf F.NumberSystem.system self.now.checks unknown.now) bytes.old bytes.new }
    {
        let word = &mut room[..self.len];
        self.gather::<F>(bytes, word);
        let _ = fill::<F>(word, unknown, self.checks);
        self.scatter::<F>(bytes, word);
    }

    // Corrects one symbol of the line, which is the whole byte string.
    pub(crate) fn correct<F: Field>(&self, bytes: &mut [u8]) -> Result<Verdict, CodeError>
        requires within { Within F.NumberSystem.system self.now (length bytes.old) }
        requires whole { (self.now.start ≡ 0) × (self.now.step ≡ 1) × (self.now.len ≡ length bytes.old * F.NumberSystem.system.per) }
        ensures { BytesCorrected F.NumberSystem.system self.now.checks bytes.old bytes.new result }
    {
        let mut room = [0u8; LONGEST];
        let word = &mut room[..self.len];
        self.gather::<F>(bytes, word);
        let verdict = correct::<F>(word, self.checks);
        if is_corrected(&verdict) {
            self.scatter::<F>(bytes, word);
        }
        verdict
    }
}

// Whether a symbol was corrected.
fn is_corrected(verdict: &Result<Verdict, CodeError>) -> bool
    ensures { result ≡ is_corrected verdict.now }
{
    matches!(verdict, Ok(Verdict::Corrected(_)))
}
