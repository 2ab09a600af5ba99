// Scanning: the table of classes, white space, names, and what is ignorable between tags.
#![tactic(auto)]

ghost use Rattle.std.specs.Prelude.{◌≡◌, suc, pred, ◌+◌, ◌^◌, ◌≤◌, ◌<◌, eqb, length, get_or};
ghost use Rattle.slices.specs.Bytes.{if};
ghost use Rattle.slices.specs.Run.{Run};
ghost use Rattle.scan.specs.Classes.{white, nc_name_byte};
ghost use Rattle.scan.specs.Colons.{Scanned};
ghost use Rattle.scan.specs.Ignorable.{Mode, Scans, Ignores, Marks, quote, ends, seek, declaration_in, declared, ignorable};

mod table;

use faults::Fault;
pub use table::{ClassTable, classes};

// What begins at a `<`: a tag, or what is ignored, and where that ends.
// Not an Option: a tag is something that is found too, and a fault is the `Err` beside the two.
#[derive(Clone, Copy)]
pub enum Markup {
    Tag,
    Ignored(usize),
}

// The places of a name's first and last colon.
#[derive(Clone, Copy)]
pub struct Colons {
    pub first: usize,
    pub last: usize,
}

// A name: its end, and its colons, if it has any.
#[derive(Clone, Copy)]
pub struct Name {
    pub end: usize,
    pub colons: Option<Colons>,
}

// The end of the white space from a place on.
pub fn space_end(s: &[u8], classes: &ClassTable, from: usize) -> usize
    requires { from ≤ length s.now }
    ensures { Run white s.now from result }
{
    slices::run_end(s, from, |b| classes.is_white(b))
}

// The end of the part of a name from a place on that has no colon.
fn nc_name_end(s: &[u8], classes: &ClassTable, from: usize) -> usize
    requires { from ≤ length s.now }
    ensures { Run nc_name_byte s.now from result }
{
    slices::run_end(s, from, |b| classes.is_nc_name(b))
}

// A name from its first colon on.
#[tactic(auto, using(crate::proofs::Prefixes::named))]
fn prefixed(s: &[u8], classes: &ClassTable, first: usize) -> Name
    requires inside { first < length s.now }
    requires colon { get_or s.now first 0 ≡ 58 }
    ensures { Scanned s.now first result }
{
    let mut last = first;
    let mut end = nc_name_end(s, classes, first + 1);
    // The next place is what the call found, so no range gives it.
    while end < s.len() && s[end] == b':' {
        last = end;
        end = nc_name_end(s, classes, last + 1);
    }
    Name {
        end,
        colons: Some(Colons { first, last }),
    }
}

// The name from a place on.
#[tactic(auto, using(crate::proofs::Prefixes::named))]
pub fn name_at(s: &[u8], classes: &ClassTable, from: usize) -> Name
    requires { from ≤ length s.now }
    ensures { Scanned s.now from result }
{
    let end = nc_name_end(s, classes, from);
    if end < s.len() && s[end] == b':' {
        return prefixed(s, classes, end);
    }
    Name { end, colons: None }
}

// Past the first place of the key, or a fault where the search began.
#[tactic(auto, using(crate::proofs::Seek::seeks))]
pub fn until(s: &[u8], from: usize, key: &[u8], number: u32) -> Result<usize, Fault>
    requires in_bounds { from ≤ length s.now }
    requires nonempty { 0 < length key.now }
    requires short { length key.now < 256 }
    ensures { Scans (seek number key.now from) s.now from result }
{
    let first = key[0];
    let mut at = slices::find(s, from, first);
    // The next place is what the call found, so no range gives it.
    while at < s.len() {
        if slices::starts_at(s, at, key) {
            return Ok(at + key.len());
        }
        at = slices::find(s, at + 1, first);
    }
    Err(Fault::new(number, from))
}

pub fn is_quote(b: u8) -> bool
    ensures { result ≡ quote b }
{
    b == b'"' || b == b'\''
}

// How many brackets are open after a byte that is no quote.
fn nesting(depth: usize, b: u8) -> usize
    requires { depth < 2 ^ 63 }
    ensures { result ≡ if (eqb b 91) (suc depth) (if (eqb b 93) (pred depth) depth) }
{
    match b {
        b'[' => depth + 1,
        b']' => depth.saturating_sub(1),
        _ => depth,
    }
}

// Whether a byte outside of quotes ends the declaration.
fn is_end(depth: usize, b: u8) -> bool
    ensures { result ≡ ends (Mode.bare depth) b }
{
    depth == 0 && b == b'>'
}

// From past `<!` to past the `>` outside of quotes and brackets.
#[tactic(auto, using(crate::proofs::Declarations::declares))]
fn declaration(s: &[u8], from: usize) -> Result<usize, Fault>
    requires { from ≤ length s.now }
    ensures { Scans (declaration_in (Mode.bare 0)) s.now from result }
{
    let mut at = from;
    let mut depth = 0;
    // A quote moves the place by what the call found, so no range gives it.
    while at < s.len() {
        let b = s[at];
        if is_quote(b) {
            let inner = at + 1;
            let close = slices::find(s, inner, b);
            if s.len() <= close {
                return Err(Fault::new(25, inner));
            }
            at = close + 1;
        } else {
            if is_end(depth, b) {
                return Ok(at + 1);
            }
            depth = nesting(depth, b);
            at += 1;
        }
    }
    Err(Fault::new(25, at))
}

// What begins with `<!` at a place: comment first, then CDATA section, then declaration.
#[tactic(auto, using(crate::proofs::Ignoring::pieces))]
fn declared_at(s: &[u8], at: usize) -> Result<usize, Fault>
    requires { at + 2 ≤ length s.now }
    ensures { Ignores declared s.now at result }
{
    let inner = at + 2;
    if slices::starts_at(s, inner, b"--") {
        return until(s, at + 4, b"-->", 22);
    }
    if slices::starts_at(s, inner, b"[CDATA[") {
        return until(s, at + 9, b"]]>", 23);
    }
    declaration(s, inner)
}

// What begins at a `<`.
#[tactic(auto, using(crate::proofs::Ignoring::pieces))]
pub fn markup_at(s: &[u8], at: usize) -> Result<Markup, Fault>
    requires { at < length s.now }
    ensures { Marks s.now at result }
{
    let next = at + 1;
    if s.len() <= next {
        return Ok(Markup::Tag);
    }
    match s[next] {
        b'!' => Ok(Markup::Ignored(declared_at(s, at)?)),
        b'?' => Ok(Markup::Ignored(until(s, at + 2, b"?>", 24)?)),
        _ => Ok(Markup::Tag),
    }
}

// Past what is ignorable: the place of the next tag's `<`, or the length, as the definition answers.
#[tactic(auto, using(crate::proofs::Ignoring::ignores))]
pub fn ignorable(s: &[u8], from: usize) -> Result<usize, Fault>
    requires { from ≤ length s.now }
    ensures { Scans ignorable s.now from result }
{
    let mut at = slices::find_near(s, from, b'<');
    // The next place is what the call found, so no range gives it.
    while at < s.len() {
        match markup_at(s, at)? {
            Markup::Tag => return Ok(at),
            Markup::Ignored(next) => at = slices::find(s, next, b'<'),
        }
    }
    Ok(at)
}
