ghost use Rattle.std.specs.Prelude.{◌≡◌, ℕ, ◌+◌, ◌-◌, ◌/◌, ◌%◌, ◌^◌, ◌<◌, List};
ghost use Rattle.randomizer.specs.Sequence.{moved, after, packed, bit_at, sequence_of, mixed};

use store::MOST_WIDTH;

// The register after one move.
fn step(register: u8) -> u8
    ensures { result ≡ moved register }
{
    (register % 64) * 2 + (register / 8 + register / 64) % 2
}

// The next eight bits, the first on top, and the register after them.
fn next_byte(register: u8) -> (u8, u8)
    requires { register < 128 }
    ensures byte { result.0 ≡ packed (λ i. after register i / 64) 8 }
    ensures register { result.1 ≡ after register 8 }
{
    let mut byte = 0;
    let mut moving = register;
    for _i in 0..8usize {
        byte = byte * 2 + moving / 64;
        moving = step(moving);
    }
    (byte, moving)
}

/// The bytes of the sequence for the widest block.
pub fn sequence_of(preset: u8) -> [u8; MOST_WIDTH]
    ensures bytes { result ≡ sequence_of preset }
    ensures starts { preset < 128 → (t : ℕ) → t < 7 → bit_at preset t ≡ preset / 2 ^ (6 - t) % 2 }
    ensures recurs { (t : ℕ) → bit_at preset (t + 7) ≡ (bit_at preset (t + 3) + bit_at preset t) % 2 }
{
    let mut bytes = [0; MOST_WIDTH];
    let mut register = preset % 128;
    for byte in bytes.iter_mut() {
        (*byte, register) = next_byte(register);
    }
    bytes
}

/// Puts each byte of `block` under the byte of `sequence` that stands beside it; a second time takes
/// it off again.
pub fn randomize(sequence: &[u8], block: &mut [u8])
    ensures mixed { block.new ≡ mixed sequence.now block.old }
    ensures twice { (b : List ℕ) → mixed sequence.now (mixed sequence.now b) ≡ b }
{
    // by index, since a proof keeps no write that is made through a `zip` of `iter_mut`
    for i in 0..block.len().min(sequence.len()) {
        block[i] ^= sequence[i];
    }
}
