// A program that takes one audio sector through a whole run over an image: nine rows are written, the sector is closed, rows are
// damaged and lost, and what is read back is held to what was written. It says what each call answered.
#![tactic(auto)]

use block::layout::Layout;
use field::byte::ByteField;
use image::Image;
use replay::run::run;
use replay::script::{Call, Outcome, RowWrite};
use sector::refusal::Refusal;
use std::{array, fmt, io};

// How many data rows there are, and how many bytes each has.
const ROWS: usize = 9;

const BYTES: usize = 77;

// How many bytes a block has.
const WIDTH: usize = 88;

// A write of each row, and one of a row that is no data row.
fn writes(source: &[[u8; BYTES]; ROWS]) -> [RowWrite<'_>; ROWS + 1] {
    array::from_fn(|row| RowWrite {
        row,
        bytes: &source[row % ROWS],
    })
}

// The call that reads row `row` into its part of the memory.
fn read<'a>(row: u8) -> Call<'a> {
    let row = usize::from(row);
    Call::Read {
        row,
        from: row * BYTES,
        to: row * BYTES + BYTES,
    }
}

// The block of row 0, whose data are all 0: the identification of audio row 0 under pair 5, and a body of zeros.
fn block_of_zeros() -> [u8; WIDTH] {
    let mut block = [0u8; WIDTH];
    block[..3].copy_from_slice(&[0x05, 0x02, 0x5F]);
    block
}

// The calls: row 0 is damaged in three ways, four more rows are lost and all are read and repaired, and then six rows are lost.
// They are written out, to be read line by line beside what is printed.
fn calls<'a>(
    one_changed: &'a [u8],
    two_changed: &'a [u8],
    other_parity: &'a [u8],
) -> [Call<'a>; 31] {
    [
        Call::Check { row: 0 },
        Call::PutBlock {
            row: 0,
            block: one_changed,
        },
        Call::Check { row: 0 },
        Call::PutBlock {
            row: 0,
            block: two_changed,
        },
        Call::Check { row: 0 },
        Call::PutBlock {
            row: 0,
            block: other_parity,
        },
        Call::Check { row: 0 },
        Call::Erase { row: 2 },
        Call::Erase { row: 4 },
        Call::Erase { row: 8 },
        Call::Erase { row: 9 },
        Call::Check { row: 2 },
        read(0),
        read(1),
        read(2),
        read(3),
        read(4),
        read(5),
        read(6),
        read(7),
        read(8),
        Call::Repair,
        Call::Check { row: 0 },
        Call::Erase { row: 0 },
        Call::Erase { row: 1 },
        Call::Erase { row: 2 },
        Call::Erase { row: 3 },
        Call::Erase { row: 4 },
        Call::Erase { row: 5 },
        read(0),
        Call::Repair,
    ]
}

// Prints each write or call with its reply.
fn tell<T: fmt::Display>(
    rt: &HostRuntime,
    asked: &[T],
    replies: &[Result<Outcome, Refusal>],
) -> io::Result<()> {
    for (entry, reply) in asked.iter().zip(replies) {
        match reply {
            Ok(outcome) => println!(rt; "{entry}: {outcome}")?,
            Err(refusal) => println!(rt; "{entry}: {refusal}")?,
        }
    }
    Ok(())
}

// Whether the memory holds the rows, one after another.
fn holds(memory: &[u8], source: &[[u8; BYTES]; ROWS]) -> bool {
    memory
        .chunks(BYTES)
        .zip(source)
        .all(|(read, written)| read == written.as_slice())
}

fn main(rt: HostRuntime) -> io::Result<()> {
    let mut source = [[0u8; BYTES]; ROWS];
    for (r, row) in (0u8..).zip(source.iter_mut()) {
        for (j, byte) in (31u8..).zip(row.iter_mut()) {
            *byte = r.wrapping_mul(j);
        }
    }
    let writes = writes(&source);
    let mut write_replies = [Ok(Outcome::Repaired(0)); ROWS + 1];
    let mut one_changed = block_of_zeros();
    one_changed[43] = 0x01;
    let mut two_changed = one_changed;
    two_changed[44] = 0x01;
    let mut other_parity = block_of_zeros();
    other_parity[2] = 0x5E;
    let calls = calls(&one_changed, &two_changed, &other_parity);
    let mut replies = [Ok(Outcome::Repaired(0)); 31];
    let mut memory = [0u8; ROWS * BYTES];
    let mut tape = [0u8; 14 * 90];
    let store = run(
        Layout::Audio,
        5,
        ByteField,
        Image::new(&mut tape, WIDTH),
        &writes,
        &mut write_replies,
        &calls,
        &mut replies,
        &mut memory,
    );
    drop(store);
    tell(&rt, &writes, &write_replies)?;
    tell(&rt, &calls, &replies)?;
    if holds(&memory, &source) {
        println!(rt; "what was read is what was written")
    } else {
        println!(rt; "what was read is not what was written")
    }
}
