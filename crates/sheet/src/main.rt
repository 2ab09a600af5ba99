// The sheet program: reads names of files from standard input, reads each file, and writes what came of them, added up (docs/FORMAT.md, The sheet program).
#![tactic(auto)]

ghost use Rattle.std.specs.Prelude.{◌≤◌, false, length, take, IfOk, IfErr};
ghost use Rattle.sheets.specs.Sheet.{unreadable};
ghost use Rattle.sheets.specs.Counts.{Adds};
ghost use Rattle.sheets.specs.Files.{document_outcome, file_outcome, AddsFile, AddsName, Sums, PrintsList};

use output::failure::Failure;
use sheets::Counts;
use std::io::{Error, ErrorKind, Read, Result};
use std::rt::Files;
use std::{fs, str};

// Reads a file's bytes, and adds what came of them.
fn add_document(counts: &mut Counts, document: &[u8])
    ensures { Adds (document_outcome document.now) counts.old counts.new }
{
    let mut rows: [u32; 16384] = output::filled(0);
    let mut warnings: [u32; 16384] = output::filled(0);
    let mut text: [u8; 65536] = output::filled(0);
    let mut decoded: [u8; 65536] = output::filled(0);
    let reading = reader::read(document, &mut rows, &mut warnings, &mut text, &mut decoded);
    counts.add(reading.verdict, &rows, &warnings);
}

// Adds a file that was read; one of more bytes than the program takes is over-long.
#[tactic(auto, using(sheets::proofs::Filing::filing), unfolding(sheets::specs::Files::file_outcome))]
fn add_read(counts: &mut Counts, document: &[u8])
    ensures { Adds (file_outcome false document.now) counts.old counts.new }
{
    if 65536 < document.len() {
        counts.add_refused(2);
    } else {
        add_document(counts, document);
    }
}

// Reads what the buffer can hold of a file, if it could be opened.
fn read<F: Read + Drop>(file: Result<F>, document: &mut [u8]) -> Result<usize>
    ensures { IfOk result (λ n. n ≤ length document.old) }
{
    let mut file = file?;
    output::input::read_all(&mut file, document).map_err(|stopped| stopped.why)
}

// Adds a file of which so many bytes are in the buffer, or which could not be read.
#[tactic(auto, using(sheets::proofs::Filing::filing))]
fn add_came(counts: &mut Counts, document: &[u8], came: Result<usize>)
    requires { IfOk came (λ n. n ≤ length document.now) }
    ensures read { IfOk came (λ n. Adds (file_outcome false (take n document.now)) counts.old
        counts.new) }
    ensures failed { IfErr came (λ e. Adds unreadable counts.old counts.new) }
    ensures either { AddsFile counts.old counts.new }
{
    match came {
        Err(_) => counts.add_unreadable(),
        Ok(end) => add_read(counts, &document[..end]),
    }
}

// Adds what came of a file. The buffer has room for one byte more than the program takes.
#[tactic(auto, using(sheets::proofs::Filing::filing))]
fn add_file<F: Read + Drop>(counts: &mut Counts, file: Result<F>)
    ensures { AddsFile counts.old counts.new }
{
    let mut document: [u8; 65537] = output::filled(0);
    let came = read(file, &mut document);
    add_came(counts, &document, came);
}

// Opens the file of a name, which std takes as text alone.
fn open<R: Files>(rt: &R, name: &[u8]) -> Result<R::File> {
    let name = str::from_utf8(name).map_err(|_| Error::from(ErrorKind::InvalidFilename))?;
    fs::open(rt, name)
}

// Adds the file of a name.
fn add_name<R: Files>(rt: &R, counts: &mut Counts, name: &[u8])
    ensures { AddsName name.now counts.old counts.new }
{
    if sheets::file_names::is_openable(name) {
        add_file(counts, open(rt, name));
    } else {
        counts.add_unreadable();
    }
}

// Adds the files of the first 512 names, and answers whether there are more.
fn add_names<R: Files>(rt: &R, counts: &mut Counts, list: &[u8]) -> bool
    ensures { Sums list.now counts.old counts.new result }
{
    let mut rest = list;
    let mut names: usize = 0;
    // A cursor and not `for`: what is left of the list begins where the name that was found ends.
    while let Some((name, after)) = sheets::file_names::next(rest) {
        if names == 512 {
            return true;
        }
        add_name(rt, counts, name);
        names += 1;
        rest = after;
    }
    false
}

// Puts the sheet of the files named in a list.
fn put_sheet<R: Files>(rt: &R, out: &mut [u8], list: &[u8]) -> usize
    requires room { 8192 ≤ length out.old }
    requires short { length list.now ≤ 262144 }
    ensures { PrintsList list.now out.new result }
{
    let mut counts = Counts::new();
    let more = add_names(rt, &mut counts, list);
    sheets::lines::put_sheet(out, &counts, more)
}

// The same of any list; of one that is over-long no file is opened.
fn put_answer<R: Files>(rt: &R, out: &mut [u8], list: &[u8]) -> usize
    requires { 8192 ≤ length out.old }
    ensures { PrintsList list.now out.new result }
{
    if 262144 < list.len() {
        return sheets::lines::put_long(out);
    }
    put_sheet(rt, out, list)
}

// Writes the sheet of the names on standard input, of which the buffer holds as many bytes as it has room for.
fn run(rt: &HostRuntime, list: &mut [u8]) -> std::result::Result<(), Failure> {
    let end = output::input::read_all(&mut rt.stdin(), list)?;
    let mut out: [u8; 65536] = output::filled(0);
    let n = put_answer(rt, &mut out, &list[..end]);
    rt.write_all(output::front(&out, n))
        .map_err(Failure::Writing)
}

// The buffer has room for one byte more than a list may have.
fn main(rt: HostRuntime) {
    let mut list: [u8; 262145] = output::filled(0);
    if let Err(failure) = run(&rt, &mut list) {
        failure.tell(&rt.stderr(), b"sheet");
    }
}
