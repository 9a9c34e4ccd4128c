// Syndromes, and the test for a codeword: these need a number system alone.
ghost use Rattle.std.specs.Prelude.{◌≡◌, ℕ, ◌<◌, length, slice_index};
ghost use Rattle.code.specs.Codewords.{locator as locator_of, Codeword, Tells, Vanish, symbols as symbols_of, syndrome_of};

use field::{NumberSystem, power};

/// The locator of a symbol that so many others follow: α to that power.
pub fn locator<F: NumberSystem>(behind: usize) -> u8
    ensures { result ≡ (locator_of F.NumberSystem.system behind).code }
{
    power::<F>(F::ALPHA, behind)
}

/// Syndrome `i` of the symbols.
pub fn syndrome<F: NumberSystem>(symbols: &[u8], i: usize) -> u8
    ensures { result ≡ syndrome_of F.NumberSystem.system i symbols.now }
{
    let x = locator::<F>(i);
    symbols.iter().fold(0, |r, &s| F::add(F::mul(r, x), s))
}

// Whether the syndromes from one number up to another are all 0.
pub(crate) fn syndromes_vanish<F: NumberSystem>(symbols: &[u8], from: usize, to: usize) -> bool
    ensures { Tells result (Vanish F.NumberSystem.system from to (symbols_of F.NumberSystem.system symbols.now)) }
{
    (from..to).all(|i| syndrome::<F>(symbols, i) == 0)
}

/// Whether the symbols are a codeword of so many checks.
pub fn is_codeword<F: NumberSystem>(symbols: &[u8], checks: usize) -> bool
    ensures { Tells result (Codeword F.NumberSystem.system checks (symbols_of F.NumberSystem.system symbols.now)) }
{
    syndromes_vanish::<F>(symbols, 0, checks)
}

/// Syndrome i of the symbols, at each place i of `out`.
pub fn write_syndromes<F: NumberSystem>(symbols: &[u8], out: &mut [u8])
    ensures { (i : ℕ) → i < length out.new → slice_index out.new i ≡ syndrome_of F.NumberSystem.system i symbols.now }
{
    for (i, s) in out.iter_mut().enumerate() {
        *s = syndrome::<F>(symbols, i);
    }
}
