// Erasures: unknown symbols are filled with the only ones that make a codeword. Encoding fills the last symbols.
ghost use Rattle.std.specs.Prelude.{◌≡◌, ℕ, ◌<◌, ◌≤◌, length, slice_index};
ghost use Rattle.code.specs.Codewords.{symbols as symbols_of, count, syndrome_of};
ghost use Rattle.code.specs.Erasures.{picked, blanked, merged, locators as locators_of, Completed};
ghost use Rattle.code.specs.Filling.{Filling, Encoding};
ghost use Rattle.field.specs.Systems.{opposite_of};

use super::LONGEST;
use super::error::CodeError;
use super::sizes::test_sizes;
use super::solve::solve;
use super::syndrome::{locator, syndromes_vanish, write_syndromes};
use field::{Field, NumberSystem};

/// How many places are unknown.
pub fn count_unknown(unknown: &[bool]) -> usize
    ensures { result ≡ count unknown.now }
{
    unknown.iter().map(|&u| usize::from(u)).sum()
}

// Writes 0 for the unknown symbols.
fn blank(unknown: &[bool], symbols: &mut [u8])
    requires { length symbols.old ≡ length unknown.now }
    ensures { symbols.new ≡ blanked 0 unknown.now symbols.old }
{
    // by index, since a proof keeps no write that is made through a `zip` of `iter_mut`
    for (p, symbol) in symbols.iter_mut().enumerate() {
        if unknown[p] {
            *symbol = 0;
        }
    }
}

// Writes the locators of the unknown places. Behind each of them are the places that are left once it is found.
fn write_locators<F: NumberSystem>(unknown: &[bool], out: &mut [u8])
    requires { length out.old ≡ count unknown.now }
    ensures { symbols_of F.NumberSystem.system out.new ≡ picked unknown.now (locators_of F.NumberSystem.system (length unknown.now)) }
{
    let mut left = unknown.iter();
    for place in out.iter_mut() {
        if left.any(|&u| u) {
            *place = locator::<F>(left.len());
        }
    }
}

// Writes the sums that the unknown symbols have to add to the syndromes of the known ones.
fn write_wanted<F: NumberSystem>(known: &[u8], out: &mut [u8])
    ensures { (i : ℕ) → i < length out.new → slice_index out.new i ≡ opposite_of F.NumberSystem.system (syndrome_of F.NumberSystem.system i known.now) }
{
    write_syndromes::<F>(known, out);
    for s in out.iter_mut() {
        *s = F::neg(*s);
    }
}

// Writes the values, in their order, at the unknown places.
fn put_values(unknown: &[bool], values: &[u8], out: &mut [u8])
    requires { length out.old ≡ length unknown.now }
    ensures { out.new ≡ merged unknown.now out.old values.now }
{
    let mut left = values.iter();
    // by index, since a proof keeps no write that is made through a `zip` of `iter_mut`
    for (p, symbol) in out.iter_mut().enumerate() {
        if unknown[p]
            && let Some(&value) = left.next()
        {
            *symbol = value;
        }
    }
}

// Copies the symbols, with the unknown ones such that as many syndromes are 0; the last two slices are room for one number for
// each unknown symbol.
// That the lengths agree, and are short, is asked as it stands: a struct of these slices would be made anew for each call.
fn complete_in<F: Field>(
    symbols: &[u8],
    unknown: &[bool],
    out: &mut [u8],
    locators: &mut [u8],
    values: &mut [u8],
)
    requires fits { (length unknown.now ≡ length symbols.now) × (length out.old ≡ length symbols.now) }
    requires room { (length locators.old ≡ count unknown.now) × (length values.old ≡ count unknown.now) }
    requires short { length symbols.now < F.NumberSystem.system.order }
    ensures { Completed F.NumberSystem.system unknown.now symbols.now out.new }
{
    out.copy_from_slice(symbols);
    blank(unknown, out);
    write_locators::<F>(unknown, locators);
    write_wanted::<F>(out, values);
    solve::<F>(locators, values);
    put_values(unknown, values, out);
}

// Copies the symbols, with the unknown ones such that as many syndromes are 0. The lengths are asked as they stand, as above.
#[tactic(auto, using(crate::proofs::Marks::count_at_most))]
fn complete<F: Field>(symbols: &[u8], unknown: &[bool], out: &mut [u8])
    requires fits { (length unknown.now ≡ length symbols.now) × (length out.old ≡ length symbols.now) }
    requires room { length symbols.now ≤ LONGEST }
    requires short { length symbols.now < F.NumberSystem.system.order }
    ensures { Completed F.NumberSystem.system unknown.now symbols.now out.new }
{
    let r = count_unknown(unknown);
    let mut locators = [0u8; LONGEST];
    let mut values = [0u8; LONGEST];
    complete_in::<F>(
        symbols,
        unknown,
        out,
        &mut locators[0..r],
        &mut values[0..r],
    );
}

// Flags and no `Option`s for the unknown symbols: a refused call leaves them as they were.

/// Fills the unknown symbols with the only ones that make a codeword of so many checks.
pub fn fill<F: Field>(symbols: &mut [u8], unknown: &[bool], checks: usize) -> Result<(), CodeError>
    ensures { Filling F.NumberSystem.system checks unknown.now symbols.old symbols.new result }
{
    let n = symbols.len();
    if unknown.len() != n {
        return Err(CodeError::UnequalLengths);
    }
    test_sizes::<F>(n, 0, checks)?;
    let r = count_unknown(unknown);
    if r > checks {
        return Err(CodeError::TooManyUnknown);
    }
    let mut room = [0u8; LONGEST];
    let word = &mut room[0..n];
    complete::<F>(symbols, unknown, word);
    if !syndromes_vanish::<F>(word, r, checks) {
        return Err(CodeError::NoCodeword);
    }
    symbols.copy_from_slice(word);
    Ok(())
}

/// Writes the last symbols, `checks` of them, so that the list is a codeword of so many checks.
pub fn encode<F: Field>(symbols: &mut [u8], checks: usize) -> Result<(), CodeError>
    ensures { Encoding F.NumberSystem.system checks symbols.old symbols.new result }
{
    let n = symbols.len();
    test_sizes::<F>(n, 0, checks)?;
    let mut marks = [false; LONGEST];
    let mut room = [0u8; LONGEST];
    let unknown = &mut marks[0..n];
    let word = &mut room[0..n];
    unknown[n - checks..].fill(true);
    complete::<F>(symbols, unknown, word);
    symbols.copy_from_slice(word);
    Ok(())
}
