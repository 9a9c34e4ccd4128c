ghost use Rattle.std.specs.Prelude.{◌≡◌, List, ℕ, length, Some};
ghost use Rattle.byte_string.specs.Bytes.{Bytes};

use store::MOST_WIDTH;

// What came for one place: a block, in the first bytes, or that it was cleared.
#[derive(Clone, Copy)]
pub struct Entry {
    pub place: usize,
    pub block: Option<[u8; MOST_WIDTH]>,
    ghost long: { (b : List ℕ) → block ≡ Some b → length b ≡ 88 },
    ghost bytes: { (b : List ℕ) → block ≡ Some b → Bytes b },
}
