// The cleaning program: reads a document from standard input, in UTF-8 or in UTF-16, and writes its whole tree on standard output, or the message of
// its refusal on standard error (docs/FORMAT.md, The cleaning program).
#![tactic(auto)]

use document::{Excerpt, Refusal, Verdict};
use messages::{Told, Wide};
use output::failure::Failure;
use std::io;
use tables::Triple;

// An excerpt as a message's triple. No `From`, since whether it is shown is told beside it.
fn wide(x: Excerpt, is_shown: bool) -> Wide {
    Wide::from(Triple {
        source: u32::from(is_shown),
        start: x.at,
        len: x.len,
    })
}

// A refusal with what its message shows. No `From`, since only this program needs it: the crate of messages knows no refusal of a document.
fn told_of(x: Refusal) -> Told {
    let shown = document::shown_by(x.number);
    Told {
        number: u64::from(x.number),
        key: u64::from(x.key),
        first: wide(x.first, 0 < shown),
        second: wide(x.second, 1 < shown),
    }
}

// The message of a refusal on standard error, as a line. Where that cannot be told, there is nobody to tell.
fn tell(rt: &HostRuntime, document: &[u8], refusal: Refusal, space: &mut [u8]) {
    if let Ok(n) = messages::message(document, told_of(refusal), space) {
        let _ = rt.stderr().write_all(output::front(space, n));
        let _ = rt.stderr().write_all(b"\n");
    }
}

// Writes the tree of the rows that were read.
fn put_tree(
    rt: &HostRuntime,
    document: &[u8],
    text: &[u8],
    rows: &[u32],
    claimed: usize,
    space: &mut [u8],
) -> io::Result<()> {
    match trees::write_tree(document, text, rows, claimed, 0, space) {
        Ok(n) => rt.write_all(output::front(space, n)),
        Err(fault) => {
            tell(rt, document, Refusal::from(fault), space);
            Ok(())
        }
    }
}

// The tree of a document that was read, or why it is refused.
fn put_verdict(
    rt: &HostRuntime,
    document: &[u8],
    text: &[u8],
    rows: &[u32],
    verdict: Verdict,
    space: &mut [u8],
) -> io::Result<()> {
    match verdict {
        Ok(counts) => {
            let shown = output::front(text, counts.text);
            put_tree(rt, document, shown, rows, counts.rows, space)
        }
        Err(refusal) => {
            tell(rt, document, refusal, space);
            Ok(())
        }
    }
}

// Reads a document, and writes its tree or why it is refused; of a file in UTF-16 the document is what was decoded.
fn put_clean(rt: &HostRuntime, file: &[u8], space: &mut [u8]) -> io::Result<()> {
    let mut rows = [0u32; 16384];
    let mut warnings = [0u32; 16384];
    let mut text = [0u8; 65536];
    let mut decoded = [0u8; 65536];
    let reading = reader::read(file, &mut rows, &mut warnings, &mut text, &mut decoded);
    let document = if reading.decoded == 0 {
        file
    } else {
        output::front(&decoded, reading.decoded)
    };
    put_verdict(rt, document, &text, &rows, reading.verdict, space)
}

// Cleans what the buffer can hold of standard input; more than the program takes is over-long. The space is for what is written: 6 bytes for each
// of a document, which is the most that escaping makes of one, and the tags of 1,024 rows.
fn clean(rt: &HostRuntime, file: &mut [u8]) -> Result<(), Failure> {
    let end = output::input::read_all(&mut rt.stdin(), file)?;
    let mut space: [u8; 524288] = output::filled(0);
    if 65536 < end {
        tell(rt, b"", document::bare(2, 65536), &mut space);
        return Ok(());
    }
    put_clean(rt, &file[..end], &mut space).map_err(Failure::Writing)
}

fn main(rt: HostRuntime) {
    let mut file = [0u8; 65537];
    if let Err(failure) = clean(&rt, &mut file) {
        failure.tell(&rt.stderr(), b"clean");
    }
}
