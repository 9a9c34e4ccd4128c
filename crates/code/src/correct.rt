// Correction of one symbol.
ghost use Rattle.std.specs.Prelude.{◌≡◌, ℕ, ◌<◌, ◌≤◌, length, slice_index};
ghost use Rattle.code.specs.Codewords.{Tells};
ghost use Rattle.code.specs.Acceptance.{Geometric, Position, Located, Judged, Correction};

use super::LONGEST;
use super::error::CodeError;
use super::sizes::test_sizes;
use super::syndrome::write_syndromes;
use field::{Field, NumberSystem, sub};

/// What a received list of symbols was found to be.
#[derive(Clone, Copy, PartialEq, Eq, Debug)]
pub enum Verdict {
    /// a codeword as it stood
    Clean,
    /// one symbol, at this position, was changed to give the only codeword in reach
    Corrected(usize),
    /// no codeword is within one symbol
    OutOfReach,
}

fn all_zero(list: &[u8]) -> bool
    ensures { Tells result ((i : ℕ) → i < length list.now → slice_index list.now i ≡ 0) }
{
    list.iter().all(|&symbol| symbol == 0)
}

// Whether each syndrome is the one before times `x`. All of them are tested.
fn is_geometric<F: NumberSystem>(syndromes: &[u8], x: u8) -> bool
    ensures { Tells result (Geometric F.NumberSystem.system x syndromes.now) }
{
    syndromes
        .windows(2)
        .all(|pair| pair[1] == F::mul(pair[0], x))
}

// The place, of `n`, whose locator is `x`.
fn position_of<F: NumberSystem>(n: usize, x: u8) -> Option<usize>
    ensures { Position F.NumberSystem.system n x result }
{
    let mut l = 1;
    for p in (0..n).rev() {
        if l == x {
            return Some(p);
        }
        l = F::mul(l, F::ALPHA);
    }
    None
}

// The place, of `n`, at which one wrong symbol leaves such syndromes, not all of them 0.
fn locate<F: Field>(n: usize, syndromes: &[u8]) -> Option<usize>
    requires two { 2 ≤ length syndromes.now }
    requires small { (i : ℕ) → i < length syndromes.now → slice_index syndromes.now i < F.NumberSystem.system.order }
    requires some { ((i : ℕ) → i < length syndromes.now → slice_index syndromes.now i ≡ 0) → ⊥ }
    ensures { Located F.NumberSystem.system n syndromes.now result }
{
    let x = F::mul(syndromes[1], F::inv(syndromes[0]));
    if !is_geometric::<F>(syndromes, x) {
        return None;
    }
    position_of::<F>(n, x)
}

// The same as `correct`, with room for the syndromes, one for each check. That the list is short is asked as it stands: a struct of
// the list would be made for this call.
fn correct_in<F: Field>(symbols: &mut [u8], syndromes: &mut [u8]) -> Verdict
    requires { (length symbols.old < F.NumberSystem.system.order) × (2 ≤ length syndromes.old) }
    ensures { Judged F.NumberSystem.system (length syndromes.old) symbols.old symbols.new result }
{
    write_syndromes::<F>(symbols, syndromes);
    if all_zero(syndromes) {
        return Verdict::Clean;
    }
    match locate::<F>(symbols.len(), syndromes) {
        Some(p) => {
            symbols[p] = sub::<F>(symbols[p], syndromes[0]);
            Verdict::Corrected(p)
        }
        None => Verdict::OutOfReach,
    }
}

/// Changes at most one symbol, so that the list is the only codeword of so many checks within one symbol, if there is one.
pub fn correct<F: Field>(symbols: &mut [u8], checks: usize) -> Result<Verdict, CodeError>
    ensures { Correction F.NumberSystem.system checks symbols.old symbols.new result }
{
    test_sizes::<F>(symbols.len(), 2, checks)?;
    let mut room = [0u8; LONGEST];
    Ok(correct_in::<F>(symbols, &mut room[0..checks]))
}
