// The listing program: reads a document from standard input, in UTF-8 or in UTF-16, and writes what was read (docs/FORMAT.md, The listing
// program).
#![tactic(auto)]

ghost use Rattle.std.specs.Prelude.{◌<◌};

use document::Counts;
use output::Sink;
use output::failure::Failure;
use std::io::{Result, Write};

// Puts a word in decimal digits, and what follows it. Byte by byte and not by `write!`, which takes twice as long: most of a listing is words.
fn put_word<W: Write>(out: &mut Sink<W>, word: u32, end: u8) -> Result<()> {
    let mut digits = [0u8; 20];
    let n = io::decimal(u64::from(word), &mut digits);
    for digit in &digits[..n] {
        out.put(*digit)?;
    }
    out.put(end)
}

// Puts words as a line.
fn put_line<W: Write>(out: &mut Sink<W>, words: &[u32]) -> Result<()> {
    if let Some((last, before)) = words.split_last() {
        for word in before {
            put_word(out, *word, b' ')?;
        }
        put_word(out, *last, b'\n')?;
    }
    Ok(())
}

// Puts words, a line for each `width`.
fn put_table<W: Write>(out: &mut Sink<W>, words: &[u32], width: usize) -> Result<()>
    requires { 0 < width }
{
    for record in words.chunks(width) {
        put_line(out, record)?;
    }
    Ok(())
}

// The counts of rows, text bytes and warnings, then the rows and the warnings.
fn put_accepted<W: Write>(
    out: &mut Sink<W>,
    rows: &[u32],
    warnings: &[u32],
    counts: Counts,
) -> Result<()> {
    let r = counts.rows;
    let t = counts.text;
    let w = counts.warnings;
    writeln!(out, "ok {r} {t} {w}")?;
    put_table(out, output::front(rows, r.min(1024) * 16), 16)?;
    put_table(out, output::front(warnings, w.min(4096) * 4), 4)
}

// Reads a document, and puts what was read.
fn put_listing<W: Write>(out: &mut Sink<W>, document: &[u8]) -> Result<()> {
    let mut rows = [0u32; 16384];
    let mut warnings = [0u32; 16384];
    let mut text = [0u8; 65536];
    let mut decoded = [0u8; 65536];
    let reading = reader::read(document, &mut rows, &mut warnings, &mut text, &mut decoded);
    match reading.verdict {
        Err(refusal) => {
            let number = refusal.number;
            let place = refusal.place;
            writeln!(out, "refused {number} {place}")
        }
        Ok(counts) => put_accepted(out, &rows, &warnings, counts),
    }
}

// Puts what a file is read as; one of more bytes than the program takes is over-long.
fn put_answer<W: Write>(out: &mut Sink<W>, document: &[u8]) -> Result<()> {
    if 65536 < document.len() {
        return writeln!(out, "refused 2 65536");
    }
    put_listing(out, document)
}

// Writes what a file is read as.
fn write_answer<P: Print>(to: &P, document: &[u8]) -> Result<()> {
    let mut out = Sink::new(std::io::writer(to));
    put_answer(&mut out, document)?;
    out.flush()
}

// Lists what the buffer can hold of standard input.
fn list(rt: &HostRuntime, document: &mut [u8]) -> std::result::Result<(), Failure> {
    let end = output::input::read_all(&mut rt.stdin(), document)?;
    write_answer(rt, &document[..end]).map_err(Failure::Writing)
}

fn main(rt: HostRuntime) {
    let mut document = [0u8; 65537];
    if let Err(failure) = list(&rt, &mut document) {
        failure.tell(&rt.stderr(), b"listing");
    }
}
