// The three identification bytes of a block: ID0, ID1 and their parity IDP.
ghost use Rattle.std.specs.Prelude.{◌≡◌, ◌<◌, All};
ghost use Rattle.block.specs.Identification.{parity, id_parity, written_id0, written_id1, id_of, judged_right, right_id};

use crate::layout::Layout;

// The parity of some bits of `c`: 1 if an odd number of them are 1. It sums them: a count of those that are 1 would branch at each.
fn parity_of(c: u16, bits: &[u16]) -> u8
    requires { All (λ i. i < 16) bits.now }
    ensures { result ≡ parity c bits.now }
{
    let ones: usize = bits.iter().map(|&i| usize::from((c >> i) % 2)).sum();
    u8::from(ones % 2 == 1)
}

// For each bit of IDP, from the top, the bits of ID0 and ID1 (15 down to 0) whose parity it is.
const PARITY_BITS: [&[u16]; 8] = [
    &[15, 11, 7, 5],
    &[14, 10, 6, 4],
    &[15, 13, 9, 5, 3],
    &[14, 12, 8, 4, 2],
    &[15, 13, 11, 7, 3, 1],
    &[14, 12, 10, 6, 2, 0],
    &[13, 9, 7, 1],
    &[12, 8, 6, 0],
];

/// IDP of ID0 and ID1: each of its bits is the parity of some of the sixteen bits of the two.
pub fn id_parity(id0: u8, id1: u8) -> u8
    ensures { result ≡ id_parity id0 id1 }
{
    let c = u16::from_be_bytes([id0, id1]);
    let mut idp = 0;
    for bits in PARITY_BITS {
        idp = 2 * idp + parity_of(c, bits);
    }
    idp
}

// Layout and track pair are given one by one: what holds them together belongs to the sector above.

// ID0 as it is written: the track pair in the low four bits, and 001 on top in check rows; 0 in subcode.
fn written_id0(layout: Layout, pair: u8, row: usize) -> u8
    ensures { result ≡ written_id0 layout pair row }
{
    match layout {
        Layout::Subcode => 0,
        Layout::Audio | Layout::Video => {
            if row < layout.shape().data_rows {
                pair % 16
            } else {
                pair % 16 + 32
            }
        }
    }
}

// ID1 as it is written: the block number.
fn written_id1(layout: Layout, row: usize) -> u8
    ensures { result ≡ written_id1 layout row }
{
    ((layout.first_block() + row % 256) % 256) as u8 // below 256, where `try_from` would want an answer that never comes
}

/// The identification of a row as it is written: ID0, ID1 and IDP.
pub fn make_id(layout: Layout, pair: u8, row: usize) -> [u8; 3]
    ensures { result ≡ id_of layout pair row }
{
    let id0 = written_id0(layout, pair, row);
    let id1 = written_id1(layout, row);
    [id0, id1, id_parity(id0, id1)]
}

// Whether the judged bits of ID0 and ID1 are those due.
fn is_judged_right(layout: Layout, pair: u8, row: usize, id0: u8, id1: u8) -> bool
    ensures { result ≡ judged_right layout pair row id0 id1 }
{
    let due = written_id1(layout, row);
    match layout {
        Layout::Subcode => id1 % 16 == due % 16,
        Layout::Audio | Layout::Video => {
            id1 == due && id0 % 16 == pair % 16 && (row < layout.shape().data_rows || id0 / 32 == 1)
        }
    }
}

/// Whether an identification is right for a row: IDP agrees with ID0 and ID1 as read, and every judged bit is the one due.
pub fn is_right(layout: Layout, pair: u8, row: usize, id: [u8; 3]) -> bool
    ensures { result ≡ right_id layout pair row id }
{
    let [id0, id1, idp] = id;
    idp == id_parity(id0, id1) && is_judged_right(layout, pair, row, id0, id1)
}
