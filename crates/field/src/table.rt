// Tables of bytes in rows of eight.
ghost use Rattle.field.specs.Tables.{Entry};

/// The entry number `i` of a table, and 0 past its end.
pub fn entry(table: &[[u8; 8]], i: u8) -> u8
    ensures { Entry table.now i result }
{
    // `as` and no `usize::from`, which is a call of its own to the proof
    match table.get(i as usize / 8) {
        Some(row) => row[i as usize % 8],
        None => 0,
    }
}
