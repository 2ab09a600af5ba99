// Tables of words: records of four words put into one that has room for them, or not.
ghost use Rattle.std.specs.Prelude.{◌≤◌};

use std::io::{Result, Write};

// Puts some records, one behind the other, and answers what the last one did.
fn put_some(table: &mut [u32], count: usize) -> usize
    requires { count ≤ 64 }
{
    let mut answer = 0;
    for i in 0..count {
        answer = tables::put_words(table, i, &[1, 2, 3, 4]);
    }
    answer
}

// Puts the words of a record.
fn put_record<W: Write>(out: &mut W, record: &[u32]) -> Result<()> {
    for word in record {
        write!(out, " {word}")?;
    }
    Ok(())
}

// Puts the words of a table, ` /` where a record begins.
fn put_table<W: Write>(out: &mut W, table: &[u32]) -> Result<()> {
    for record in table.chunks(4) {
        out.write_all(b" /")?;
        put_record(out, record)?;
    }
    Ok(())
}

// A case of a table: its words, how many records of four words to put. The answer: what the last one answered, and the table.
pub fn put<W: Write>(out: &mut W, s: &[u8]) -> Result<()> {
    let (room, rest) = notation::number(s);
    let (count, _) = notation::number(rest);
    let mut space = [9u32; 64];
    let table = output::front_mut(&mut space, room as usize);
    let answer = put_some(table, (count as usize).min(64));
    write!(out, "{answer}")?;
    put_table(out, table)
}
