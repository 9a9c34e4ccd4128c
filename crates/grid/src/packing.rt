// Symbols in bytes: m of them in each, the upper part of a byte first.
ghost use Rattle.std.specs.Prelude.{◌≡◌, ℕ, ◌-◌, ◌*◌, ◌%◌, ◌^◌, ◌<◌, List, map, length, MatchResult, ◌==◌, ◌≢◌};
ghost use Rattle.byte_string.specs.Bytes.{Bytes};
ghost use Rattle.grid.specs.Packing.{part, symbol_at, unpacked, length_reply, SymbolsTellBytes};

use code::error::CodeError;
use field::NumberSystem;

// What part `k` of a byte counts by: q to the number of parts below it.
fn weight<F: NumberSystem>(k: usize) -> u16
    requires { k < F.NumberSystem.system.per }
    ensures { result ≡ F.NumberSystem.system.order ^ (F.NumberSystem.system.per - 1 - k) }
{
    F::Q.pow((F::PER_BYTE - 1 - k) as u32) // `as` here and below: the number fits, and `try_from` would want an answer that never comes
}

// Part `k` of a byte.
fn part_of<F: NumberSystem>(b: u8, k: usize) -> u8
    requires { k < F.NumberSystem.system.per }
    ensures { result ≡ part F.NumberSystem.system b k }
{
    (u16::from(b) / weight::<F>(k) % F::Q) as u8
}

// The byte with `v` for its part `k`.
fn replace_part<F: NumberSystem>(b: u8, k: usize, v: u8) -> u8
    requires { k < F.NumberSystem.system.per }
    ensures this { part F.NumberSystem.system result k ≡ v % F.NumberSystem.system.order }
    ensures others { (j : ℕ) → j < F.NumberSystem.system.per → (j ≢ k) → part F.NumberSystem.system result j ≡ part F.NumberSystem.system b j }
{
    let q = F::Q;
    let w = weight::<F>(k);
    let b = u16::from(b);
    let v = u16::from(v) % q;
    (b / (w * q) * (w * q) + v * w + b % w) as u8
}

/// Symbol `p` of a byte string, and 0 past its end.
pub fn symbol_at<F: NumberSystem>(bytes: &[u8], p: usize) -> u8
    ensures { result ≡ symbol_at F.NumberSystem.system bytes.now p }
{
    let m = F::PER_BYTE;
    match bytes.get(p / m) {
        Some(b) => part_of::<F>(*b, p % m),
        None => 0,
    }
}

// Writes `v` as symbol `p` of a byte string.
pub(crate) fn set_symbol<F: NumberSystem>(bytes: &mut [u8], p: usize, v: u8)
    requires { p < length bytes.old * F.NumberSystem.system.per }
    ensures this { symbol_at F.NumberSystem.system bytes.new p ≡ v % F.NumberSystem.system.order }
    ensures others { (i : ℕ) → (i ≢ p) → symbol_at F.NumberSystem.system bytes.new i ≡ symbol_at F.NumberSystem.system bytes.old i }
{
    let m = F::PER_BYTE;
    let byte = &mut bytes[p / m];
    *byte = replace_part::<F>(*byte, p % m, v);
}

// Whether there are m symbols for each byte.
fn go_together<F: NumberSystem>(symbols: usize, bytes: usize) -> bool
    ensures { result ≡ (symbols == bytes * F.NumberSystem.system.per) }
{
    bytes.checked_mul(F::PER_BYTE) == Some(symbols)
}

/// Writes the symbols of the bytes to `symbols`, which has m places for each byte.
pub fn unpack<F: NumberSystem>(bytes: &[u8], symbols: &mut [u8]) -> Result<(), CodeError>
    ensures reply { result ≡ length_reply F.NumberSystem.system (length symbols.old) (length bytes.now) }
    ensures after { MatchResult result (λ _. symbols.new ≡ unpacked F.NumberSystem.system bytes.now) (λ _. symbols.new ≡ symbols.old) }
{
    if !go_together::<F>(symbols.len(), bytes.len()) {
        return Err(CodeError::UnequalLengths);
    }
    for (p, symbol) in symbols.iter_mut().enumerate() {
        *symbol = symbol_at::<F>(bytes, p);
    }
    Ok(())
}

/// Writes the bytes that have these symbols, m in each byte; a code of q or more counts as its remainder modulo q.
pub fn pack<F: NumberSystem>(symbols: &[u8], bytes: &mut [u8]) -> Result<(), CodeError>
    ensures reply { result ≡ length_reply F.NumberSystem.system (length symbols.now) (length bytes.old) }
    ensures after { MatchResult result (λ _. unpacked F.NumberSystem.system bytes.new ≡ map (λ x. x % F.NumberSystem.system.order) symbols.now) (λ _. bytes.new ≡ bytes.old) }
    ensures undoes { MatchResult result (λ _. (b : List ℕ) → Bytes b → unpacked F.NumberSystem.system b ≡ symbols.now → bytes.new ≡ b) (λ _. bytes.new ≡ bytes.old) }
{
    if !go_together::<F>(symbols.len(), bytes.len()) {
        return Err(CodeError::UnequalLengths);
    }
    for (p, symbol) in symbols.iter().enumerate() {
        set_symbol::<F>(bytes, p, *symbol);
    }
    Ok(())
}

/// Byte strings with the same symbols are equal. It computes nothing: its contract is the theorem.
pub fn symbols_tell_bytes<F: NumberSystem>()
    ensures { SymbolsTellBytes F.NumberSystem.system }
{}
