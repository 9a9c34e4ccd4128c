// The program: it takes one subcode row through the row code, and the block that holds it through a stack of stores, and says
// what it did.
#![tactic(auto)]

use code::correct::Verdict;
use code::error::CodeError;
use field::half_byte::HalfByteField;
use grid::rows::{correct_row, encode_rows};
use grid::shape::Shape;
use image::Image;
use randomizer::Randomizer;
use std::{fmt, io};
use store::{BlockStore, StoreRefusal};
use window::Window;

// One row of the subcode sector: five data bytes and two check bytes.
const SUBCODE_ROW: Shape = Shape {
    data_rows: 1,
    check_rows: 0,
    data_bytes: 5,
    check_bytes: 2,
};

// Bytes as they are printed, in hexadecimal: a slice has no `Display` of its own.
#[derive(Drop)]
struct Hex<'a>(&'a [u8]);

impl fmt::Display for Hex<'_> {
    fn fmt<W: fmt::Write>(&self, f: &mut fmt::Formatter<W>) -> fmt::Result {
        for b in self.0 {
            write!(f, " {b:02X}")?;
        }
        Ok(())
    }
}

// The row with its check bytes.
fn with_checks(data: &[u8; 5]) -> Result<[u8; 7], CodeError> {
    let mut body = [0; 7];
    body[..5].copy_from_slice(data);
    encode_rows::<HalfByteField>(&SUBCODE_ROW, &mut body)?;
    Ok(body)
}

// Corrects the row, and says what was found.
fn show_correction(rt: &HostRuntime, body: &mut [u8; 7]) -> io::Result<()> {
    match correct_row::<HalfByteField>(body, SUBCODE_ROW.check_bytes) {
        Ok(Verdict::Clean) => println!(rt; "it is a codeword"),
        Ok(Verdict::Corrected(p)) => println!(rt; "corrected at symbol {p}:{}", Hex(body)),
        Ok(Verdict::OutOfReach) => println!(rt; "no codeword within one symbol"),
        Err(e) => println!(rt; "not corrected: {e:?}"),
    }
}

// Adds the check bytes of a row, damages a symbol and corrects it; the row with its check bytes is handed on.
fn show_row(rt: &HostRuntime) -> io::Result<[u8; 7]> {
    let data = [0x00, 0x00, 0x00, 0x00, 0x01];
    println!(rt; "subcode row:{}", Hex(&data))?;
    let body = match with_checks(&data) {
        Ok(body) => body,
        Err(e) => {
            println!(rt; "not encoded: {e:?}")?;
            [0; 7]
        }
    };
    println!(rt; "with its check bytes:{}", Hex(&body))?;
    let mut damaged = body;
    damaged[2] ^= 0x70;
    println!(rt; "with one symbol damaged:{}", Hex(&damaged))?;
    show_correction(rt, &mut damaged)?;
    Ok(body)
}

// Puts a block, gets it again, and clears its place.
fn put_and_get<S: BlockStore>(store: &mut S, block: &[u8; 10]) -> Result<[u8; 10], StoreRefusal> {
    let mut again = [0u8; 10];
    store.put(1, block)?;
    store.get(1, &mut again)?;
    Ok(again)
}

// Takes a block through a randomizer over a window over an image.
fn show_stores(rt: &HostRuntime, body: &[u8; 7]) -> io::Result<()> {
    let mut block = [0u8; 10];
    block[3..10].copy_from_slice(body);
    println!(rt; "block:{}", Hex(&block))?;
    let mut memory = [0u8; 48];
    let mut store = Randomizer::new(Window::new(Image::new(&mut memory, 10), 2, 2), 127);
    match put_and_get(&mut store, &block) {
        Ok(again) => println!(rt; "read through randomizer, window and image:{}", Hex(&again))?,
        Err(e) => println!(rt; "refused: {e:?}")?,
    }
    drop(store);
    println!(rt;
        "as it lies in the fourth cell of the memory:{}",
        Hex(&memory[36..48])
    )
}

fn main(rt: HostRuntime) -> io::Result<()> {
    let body = show_row(&rt)?;
    show_stores(&rt, &body)
}
