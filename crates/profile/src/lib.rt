// The strict profile's rules that look at bytes alone: characters, names, comments, values, what follows the root.
#![tactic(auto)]

ghost use Rattle.std.specs.Prelude.{◌≡◌, ◌+◌, ◌≤◌, ◌<◌, length, drop};
ghost use Rattle.utf8.specs.WellFormed.{ill_formed};
ghost use Rattle.profile.specs.Places.{first_place, found};
ghost use Rattle.profile.specs.Names.{name_start_char, name_more, name_char};
ghost use Rattle.profile.specs.Profile.{char_fault, name_fault, hyphens, comment_fault, raw, value_fault};
ghost use Rattle.profile.specs.Steps.{no_char, Doubts, Clear, Free, Reads};
ghost use Rattle.profile.specs.After.{space, instruction, comment, misc, after_fault, Closes, Tells};

use faults::Fault;

// A character: its code point, and how many bytes it takes.
#[derive(Clone, Copy)]
struct Character {
    code: u32,
    size: usize,
}

// Whether what begins at a place is no Char.
#[tactic(auto, using(crate::proofs::NoChars::places))]
fn no_char(s: &[u8], at: usize) -> bool
    requires { at < length s.now }
    ensures { result ≡ no_char (drop at s.now) }
{
    let b = s[at];
    if b < 0x20 {
        return !matches!(b, b'\t' | b'\n' | b'\r');
    }
    if b == 0xef && 3 <= s.len() - at && s[at + 1] == 0xbf {
        let last = s[at + 2];
        return 0xbe <= last && last <= 0xbf;
    }
    false
}

// Whether a byte is 0xef or a control but LF: what begins with any other is a Char.
// To let tab and CR through as well would keep the compiler from making vectors of the loop below.
#[tactic(auto, using(crate::proofs::NoChars::doubts))]
fn doubt(b: u8) -> bool
    ensures { Doubts b result }
{
    if b < 0x20 { b != b'\n' } else { b == 0xef }
}

// Whether one of the 32 bytes from a place is such a byte.
fn doubtful(s: &[u8], from: usize) -> bool
    requires { from + 32 ≤ length s.now }
    ensures { Clear s.now from 32 result }
{
    // Every byte is looked at, with no way out, so that the compiler makes vectors of the loop.
    let mut hit = false;
    for i in 0..32 {
        if doubt(s[from + i]) {
            hit = true;
        }
    }
    hit
}

// Past whole blocks in which all is a Char.
fn blocks(s: &[u8], from: usize) -> usize
    requires { from ≤ length s.now }
    ensures { Free no_char s.now from result }
{
    slices::blocks(s, from, 32, |at| !doubtful(s, at))
}

// Past whole blocks in which `doubt` is false of each byte, and then to the first byte of which it is true, or the length, where the scan ends.
// Not `slices::run_end`: it wants a test that tells a class of bytes, and `doubt` says only what holds where it is false.
fn next_doubt(s: &[u8], from: usize) -> usize
    requires { from ≤ length s.now }
    ensures { Free no_char s.now from result }
{
    let start = blocks(s, from);
    (start..s.len()).find(|&at| doubt(s[at])).unwrap_or(s.len())
}

// The place of the first byte at which a character begins that is no Char.
#[tactic(auto, using(crate::proofs::Going::goings))]
fn first_no_char(s: &[u8]) -> Option<usize>
    ensures { result ≡ found (length s.now) (first_place no_char s.now) }
{
    let mut at = next_doubt(s, 0);
    // The next place is what the call found, so no range gives it.
    while at < s.len() {
        if no_char(s, at) {
            return Some(at);
        }
        at = next_doubt(s, at + 1);
    }
    None
}

// The place of the first character of a text that is no Char.
#[tactic(auto, using(crate::proofs::NoChars::chars))]
pub fn char_fault(s: &[u8]) -> Option<usize>
    requires { ill_formed s.now ≡ length s.now }
    ensures { result ≡ found (length s.now) (char_fault s.now) }
{
    first_no_char(s)
}

// Whether a hyphen stands at a place, and after it another, or nothing.
#[tactic(auto, using(crate::proofs::Marks::marks))]
fn is_hyphens(s: &[u8], at: usize) -> bool
    requires { at < length s.now }
    ensures { result ≡ hyphens (drop at s.now) }
{
    s[at] == b'-' && (s.len() - at == 1 || s[at + 1] == b'-')
}

// The place of the first hyphen of a comment's inside that stands before another, or at the end.
#[tactic(auto, using(crate::proofs::Marks::comments))]
pub fn comment_fault(s: &[u8]) -> Option<usize>
    ensures { result ≡ found (length s.now) (comment_fault s.now) }
{
    let mut at = slices::find(s, 0, b'-');
    // The next place is what the call found, so no range gives it.
    while at < s.len() {
        if is_hyphens(s, at) {
            return Some(at);
        }
        at = slices::find(s, at + 1, b'-');
    }
    None
}

// Whether `<` or `&#X` stands at a place.
#[tactic(auto, using(crate::proofs::Marks::marks))]
fn is_raw(s: &[u8], at: usize) -> bool
    requires { at < length s.now }
    ensures { result ≡ raw (drop at s.now) }
{
    s[at] == b'<' || slices::starts_at(s, at, b"&#X")
}

// The place of the first `<` or `&#X` of a value.
pub fn value_fault(s: &[u8]) -> Option<usize>
    ensures { result ≡ found (length s.now) (value_fault s.now) }
{
    (0..s.len()).find(|&at| is_raw(s, at))
}

// Whether a name may begin with a character.
#[tactic(auto, unfolding(crate::specs::Names::name_start_char))]
fn name_start(c: u32) -> bool
    ensures { result ≡ name_start_char c }
{
    matches!(
        c,
        0x3a | 0x41..=0x5a
            | 0x5f
            | 0x61..=0x7a
            | 0xc0..=0xd6
            | 0xd8..=0xf6
            | 0xf8..=0x2ff
            | 0x370..=0x37d
            | 0x37f..=0x1fff
            | 0x200c..=0x200d
            | 0x2070..=0x218f
            | 0x2c00..=0x2fef
            | 0x3001..=0xd7ff
            | 0xf900..=0xfdcf
            | 0xfdf0..=0xfffd
            | 0x10000..=0xeffff
    )
}

// Whether a character is one of those that may stand in a name, and at its start may not.
#[tactic(auto, unfolding(crate::specs::Names::name_more))]
fn name_more(c: u32) -> bool
    ensures { result ≡ name_more c }
{
    matches!(c, 0x2d | 0x2e | 0x30..=0x39 | 0xb7 | 0x300..=0x36f | 0x203f..=0x2040)
}

// Whether a character may stand in a name after the first.
#[tactic(auto, using(crate::proofs::Ranges::names))]
fn name_char(c: u32) -> bool
    ensures { result ≡ name_char c }
{
    name_start(c) || name_more(c)
}

// The character at a place where one begins.
#[tactic(auto, using(crate::proofs::Points::points))]
fn character_at(s: &[u8], at: usize) -> Character
    requires inside { at < length s.now }
    requires formed { ill_formed (drop at s.now) ≡ length (drop at s.now) }
    ensures { Reads s.now at result }
{
    let a = s[at];
    if a < 0x80 {
        return Character {
            code: a as u32,
            size: 1,
        };
    }
    let b = s[at + 1];
    if a < 0xe0 {
        return Character {
            code: utf8::point2(a, b),
            size: 2,
        };
    }
    let c = s[at + 2];
    if a < 0xf0 {
        return Character {
            code: utf8::point3(a, b, c),
            size: 3,
        };
    }
    Character {
        code: utf8::point4(a, b, c, s[at + 3]),
        size: 4,
    }
}

// The place of the first character of a name that may not stand there.
#[tactic(auto, using(crate::proofs::Naming::naming))]
pub fn name_fault(s: &[u8]) -> Option<usize>
    requires { ill_formed s.now ≡ length s.now }
    ensures { result ≡ found (length s.now) (name_fault s.now) }
{
    if s.len() == 0 {
        return None;
    }
    let first = character_at(s, 0);
    if !name_start(first.code) {
        return Some(0);
    }
    let mut at = first.size;
    // The next place is what the call found, so no range gives it.
    while at < s.len() {
        let next = character_at(s, at);
        if !name_char(next.code) {
            return Some(at);
        }
        at += next.size;
    }
    None
}

// Whether a byte is white space, [3] S.
fn is_space(b: u8) -> bool
    ensures { result ≡ space b }
{
    matches!(b, b' ' | b'\t' | b'\r' | b'\n')
}

// The end of what stands at a place, by the first key from another place on; where there is none, the fault is at the place.
fn end_of(s: &[u8], at: usize, from: usize, key: &[u8]) -> Result<usize, Fault>
    requires ordered { at < from }
    requires in_bounds { from ≤ length s.now }
    requires nonempty { 0 < length key.now }
    requires short { length key.now < 256 }
    ensures { Closes key.now s.now at from result }
{
    scan::until(s, from, key, 29).map_err(|_| Fault::new(29, at))
}

// The end of the instruction at a place, or the fault.
#[tactic(auto, using(crate::proofs::Afters::closes))]
fn instruction_at(s: &[u8], at: usize) -> Result<usize, Fault>
    requires { at + 2 ≤ length s.now }
    ensures { Tells instruction s.now at result }
{
    end_of(s, at, at + 2, b"?>")
}

// The end of the comment at a place, or the fault.
#[tactic(auto, using(crate::proofs::Afters::closes))]
fn comment_at(s: &[u8], at: usize) -> Result<usize, Fault>
    requires { at + 4 ≤ length s.now }
    ensures { Tells comment s.now at result }
{
    let inner = at + 4;
    let end = end_of(s, at, inner, b"-->")?;
    match comment_fault(&s[inner..end - 3]) {
        Some(p) => Err(Fault::new(29, inner + p)),
        None => Ok(end),
    }
}

// The end of what stands at a place: a comment, an instruction, or white space; or the fault.
#[tactic(auto, using(crate::proofs::Afters::miscs))]
fn misc_at(s: &[u8], at: usize) -> Result<usize, Fault>
    requires { at < length s.now }
    ensures { Tells misc s.now at result }
{
    if slices::starts_at(s, at, b"<!--") {
        return comment_at(s, at);
    }
    if slices::starts_at(s, at, b"<?") {
        return instruction_at(s, at);
    }
    if is_space(s[at]) {
        return Ok(at + 1);
    }
    Err(Fault::new(29, at))
}

// The place of the first breach from a place on, where nothing but comments, instructions and white space may stand.
#[tactic(auto, using(crate::proofs::Afters::afters))]
pub fn after_fault(s: &[u8], from: usize) -> Option<usize>
    requires { from ≤ length s.now }
    ensures { result ≡ found (length s.now) (after_fault (drop from s.now) from) }
{
    let mut at = from;
    // The next place is what the call found, so no range gives it.
    while at < s.len() {
        match misc_at(s, at) {
            Ok(end) => at = end,
            Err(fault) => return Some(fault.place),
        }
    }
    None
}
