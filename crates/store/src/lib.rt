// Block stores: a number of places, a width, and at each place a block of that width or nothing.
// The trait says, for every call, what it answers and what the store holds afterwards, in one record
// of the whole store. A refused call changes nothing, and no call is refused but for its place or its
// length.
#![tactic(auto)]

ghost use Rattle.std.specs.Prelude.{◌≡◌};
ghost use Rattle.store.specs.Refusals.{number_of};
ghost use Rattle.store.specs.Store.{Store, Sound, good_width, put_reply, put_after, clear_reply, clear_after, get_reply, get_after};

/// The most places of a store that keeps its blocks itself.
pub const MOST_PLACES: usize = 169;

/// The widest block.
pub const MOST_WIDTH: usize = 88;

/// Whether a store with places can have blocks of `width` bytes: 1 to 88.
pub fn is_width(width: usize) -> bool
    ensures { result ≡ good_width width }
{
    (1..=MOST_WIDTH).contains(&width)
}

/// Why a store refuses a call.
#[derive(Clone, Copy, PartialEq, Eq, Debug)]
pub enum StoreRefusal {
    /// The place is not below the store's places.
    Place,
    /// The length differs from the store's width.
    Length,
}

impl StoreRefusal {
    /// The refusal's number: 1 for the place, 2 for the length.
    pub fn number(self) -> u8
        ensures { result ≡ number_of self }
    {
        self as u8 + 1
    }
}

/// A store of blocks of one width, at numbered places.
pub trait BlockStore {
    ghost store: { Self → Store };

    /// How many places there are; and what is true of every store.
    // A clause and no law: a law would speak of any value of the type, in which a byte may be any number.
    fn place_count(&self) -> usize
        ensures places { result ≡ (store self.now).places }
        ensures sound { Sound (store self.now) };

    /// The length of every block.
    fn block_width(&self) -> usize
        ensures { result ≡ (store self.now).width };

    /// Puts `block` at `place`, in place of what was there.
    fn put(&mut self, place: usize, block: &[u8]) -> Result<(), StoreRefusal>
        ensures reply { result ≡ put_reply (store self.old) place block.now }
        ensures after { store self.new ≡ put_after (store self.old) place block.now };

    /// Makes `place` blank.
    fn clear(&mut self, place: usize) -> Result<(), StoreRefusal>
        ensures reply { result ≡ clear_reply (store self.old) place }
        ensures after { store self.new ≡ clear_after (store self.old) place };

    /// Copies the block at `place` into `buffer`, and says whether there was one; a blank place leaves
    /// `buffer` as it was.
    // A flag and the caller's buffer: no call takes memory for a block.
    fn get(&self, place: usize, buffer: &mut [u8]) -> Result<bool, StoreRefusal>
        ensures reply { result ≡ get_reply (store self.now) place buffer.old }
        ensures after { buffer.new ≡ get_after (store self.now) place buffer.old };
}
