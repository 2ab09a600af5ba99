// Runs the cases on standard input, one to a line, and writes a line for each: crates/part_cases/stdin says how a case is written.
#![tactic(auto)]

use output::Sink;
use std::io;
use std::io::{Read, Result, Write};

mod said;
mod words;

// A case: the operation, a space, what it is given.
fn case<W: Write>(out: &mut W, s: &[u8], text: &mut [u8]) -> Result<()> {
    let space = s.iter().position(|b| *b == b' ').unwrap_or(s.len());
    let given = output::after(&s[space..], 1);
    match &s[..space] {
        b"words" => words::put(out, given),
        operation => {
            let count = notation::text::expand(text, given);
            said::put(out, operation, output::front(text, count))
        }
    }
}

// A line: a comment is copied, a case is answered.
fn line<W: Write>(out: &mut W, s: &[u8], text: &mut [u8]) -> Result<()> {
    if notation::is_comment(s) {
        out.write_all(s)?;
    } else {
        case(out, s, text)?;
    }
    out.write_all(b"\n")
}

// All lines.
fn lines<W: Write>(out: &mut W, s: &[u8], text: &mut [u8]) -> Result<()> {
    for ended in s.split_inclusive(|b| *b == b'\n') {
        line(out, ended.strip_suffix(b"\n").unwrap_or(ended), text)?;
    }
    Ok(())
}

// Reads the cases and answers those that came, where a read fails too; the longest text is one byte too long for the library.
fn run<R: Read, P: Print>(reader: &mut R, to: &P, text: &mut [u8; 1048577]) -> Result<()> {
    let mut input = [0u8; 65536];
    let count = output::input::read_all(reader, &mut input).unwrap_or_else(|stopped| stopped.count);
    let mut out = Sink::new(io::writer(to));
    lines(&mut out, &input[..count], text)?;
    out.flush()
}

fn main(rt: HostRuntime) {
    let mut text = [0u8; 1048577];
    let _ = run(&mut rt.stdin(), &rt, &mut text);
}
