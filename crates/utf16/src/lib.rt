// Documents in UTF-16 that begin with a byte order mark, decoded to UTF-8 in a lent buffer.
// Bytes, place and byte order are parameters and no struct: the laws are over the list of bytes, and buffer and count change beside it.
#![tactic(auto)]

ghost use Rattle.std.specs.Prelude.{◌≡◌, ◌+◌, ◌*◌, ◌<◌, ◌≤◌, length};
ghost use Rattle.answers.specs.Text.{Makes};
ghost use Rattle.utf16.specs.Entry.{ordered, told};
ghost use Rattle.utf16.specs.Outcome.{IsUnit, Characters, Decodes, Exceeds, Limited, low_byte, Block, IsAscii, Steps, PutsAll};
ghost use Rattle.utf16.specs.Promises.{DecodesWhole};

use answers::TextAnswer;
use faults::Fault;

// A scalar value, and the place after it.
#[derive(Clone, Copy)]
struct Scalar {
    code: u32,
    next: usize,
}

// The place and the count after some units.
#[derive(Clone, Copy)]
struct Step {
    next: usize,
    count: usize,
}

// The unit of two bytes, the most significant first.
fn joined(a: u8, b: u8) -> u32
    ensures { (result ≡ a * 256 + b) × (result < 65536) }
{
    a as u32 * 256 + b as u32
}

// The unit at a place: two cases with a value each, by the byte order. Which byte order it is, is a value that a document tells, and the
// definitions speak of it; as a parameter of the type it would make each function twice.
fn unit(raw: &[u8], at: usize, big: bool) -> u32
    requires { at + 1 < length raw.now }
    ensures { IsUnit big raw.now at result }
{
    let a = raw[at];
    let b = raw[at + 1];
    if big {
        return joined(a, b);
    }
    joined(b, a)
}

// The scalar value that begins with the unit u at a place; none where that is a surrogate that has no partner.
#[tactic(auto, using(crate::proofs::Units::characters))]
fn character(raw: &[u8], at: usize, big: bool, u: u32) -> Option<Scalar>
    requires inside { at + 1 < length raw.now }
    requires unit { IsUnit big raw.now at u }
    ensures { Characters big raw.now at result }
{
    let next = at + 2;
    if u < 0xd800 || 0xdfff < u {
        return Some(Scalar { code: u, next });
    }
    if 0xdbff < u || raw.len() <= next + 1 {
        return None;
    }
    let v = unit(raw, next, big);
    if v < 0xdc00 || 0xdfff < v {
        return None;
    }
    Some(Scalar {
        code: 0x10000 + (u - 0xd800) * 0x400 + (v - 0xdc00),
        next: at + 4,
    })
}

// Whether a byte was above its limit, or this one is.
fn exceeds(over: bool, b: u8, limit: u8) -> bool
    ensures { Exceeds over b limit result }
{
    over || limit < b
}

// Whether of 32 units from a place no first byte is above a limit, and no second byte above another.
fn within(raw: &[u8], from: usize, first: u8, second: u8) -> bool
    requires { from + 64 ≤ length raw.now }
    ensures { Limited raw.now from first second result }
{
    // Every byte is looked at, with no way out, so that the compiler makes vectors of the loop.
    let mut over = false;
    for i in 0..32 {
        let at = from + i * 2;
        let one = exceeds(over, raw[at], first);
        over = exceeds(one, raw[at + 1], second);
    }
    !over
}

// Whether 32 units stand at a place, all of them below 128. Three cases, each with an answer of its own: one condition would be no plainer.
#[tactic(auto, using(crate::proofs::Limits::asciis))]
fn is_ascii(raw: &[u8], at: usize, big: bool) -> bool
    requires { at < length raw.now }
    ensures { IsAscii big raw.now at result }
{
    if raw.len() - at < 64 {
        return false;
    }
    if big {
        return within(raw, at, 0, 127);
    }
    within(raw, at, 127, 0)
}

// The place of the less significant byte of the unit at a place.
fn low_byte(at: usize, big: bool) -> usize
    requires { at < 1048576 }
    ensures { (result ≡ low_byte big at) × (result ≤ at + 1) }
{
    if big { at + 1 } else { at }
}

// Puts 32 units that are below 128.
#[tactic(auto, using(crate::proofs::Decoding::blocks))]
fn put_block(raw: &[u8], at: usize, big: bool, out: &mut [u8], n: usize) -> usize
    requires block { Block big raw.now at }
    requires near { at < 1048576 }
    requires room { n < 4194304 }
    ensures { Decodes big raw.now at n out.old out.new (at + 64) result }
{
    let low = low_byte(at, big);
    let mut m = n;
    for i in 0..32 {
        m = tables::put_byte(out, m, raw[low + i * 2]);
    }
    m
}

// Puts what 32 units say, or as many as there are; or the place of a surrogate that has no partner.
#[tactic(auto, using(crate::proofs::Decoding::puts))]
fn put_units(
    raw: &[u8],
    from: usize,
    big: bool,
    out: &mut [u8],
    count: usize,
) -> Result<Step, usize>
    requires inside { from + 1 < length raw.now }
    requires short { length raw.now ≤ 1048576 }
    requires room { count < 4194304 }
    ensures { Steps big raw.now from count out.old out.new result }
{
    let mut at = from;
    let mut n = count;
    // A character moves the place by one unit or two, so no range gives it.
    while at + 1 < raw.len() {
        if from + 64 <= at {
            return Ok(Step { next: at, count: n });
        }
        let u = unit(raw, at, big);
        if u < 0x80 {
            n = tables::put_byte(out, n, u as u8);
            at += 2;
        } else {
            match character(raw, at, big, u) {
                Some(scalar) => {
                    n = answers::put::put_char(out, n, scalar.code);
                    at = scalar.next;
                }
                None => return Err(at),
            }
        }
    }
    Ok(Step { next: at, count: n })
}

// Puts what the units at a place say: 32 at once where they are below 128 and have room; or the place of a surrogate that has no partner.
fn put_some(raw: &[u8], at: usize, big: bool, out: &mut [u8], n: usize) -> Result<Step, usize>
    requires inside { at + 1 < length raw.now }
    requires short { length raw.now ≤ 1048576 }
    requires room { n < 4194304 }
    ensures { Steps big raw.now at n out.old out.new result }
{
    if n + 32 <= out.len() && is_ascii(raw, at, big) {
        let count = put_block(raw, at, big, out, n);
        return Ok(Step {
            next: at + 64,
            count,
        });
    }
    put_units(raw, at, big, out, n)
}

// Puts the decoded text where there is room, and counts it in any case; or the place of a surrogate that has no partner.
#[tactic(auto, using(crate::proofs::Decoding::steps))]
fn put_all(raw: &[u8], big: bool, out: &mut [u8]) -> Result<usize, usize>
    requires marked { 2 ≤ length raw.now }
    requires short { length raw.now ≤ 1048576 }
    ensures { PutsAll big raw.now out.old out.new result }
{
    let mut at = 2;
    let mut n = 0;
    // The next place is what the call found, so no range gives it.
    while at + 1 < raw.len() {
        let step = put_some(raw, at, big, out, n)?;
        at = step.next;
        n = step.count;
    }
    Ok(n)
}

// Decodes what follows the mark, in a byte order.
fn decode_ordered(raw: &[u8], big: bool, out: &mut [u8]) -> TextAnswer
    requires { 2 ≤ length raw.now }
    ensures { Makes (ordered big raw.now) out.old out.new result }
{
    if 1048576 < raw.len() {
        return answers::refuse(out, Fault::new(2, 1048576));
    }
    if raw.len() % 2 == 1 {
        return answers::refuse(out, Fault::new(26, raw.len()));
    }
    match put_all(raw, big, out) {
        Err(at) => answers::refuse(out, Fault::new(27, at)),
        Ok(n) => {
            if 1048576 < n {
                return answers::refuse(out, Fault::new(2, 1048576));
            }
            answers::finish(out, n, Fault::new(18, raw.len()))
        }
    }
}

// What is answered of a document that begins with a mark.
fn told(a: TextAnswer) -> Result<Option<usize>, Fault>
    ensures { result ≡ told a }
{
    Ok(Some(a?))
}

// Decodes a document that begins with FE FF or FF FE. One of more than 1,048,576 bytes is refused with 2, one of an odd number of bytes with
// 26 at its length, one with a surrogate that has no partner with 27 at its unit, one that decodes to more than 1,048,576 bytes with 2, and
// one that has no room with 18 at its length. Every byte of the buffer past the decoded text is zero, and all are where there is none.
// None where the document begins with neither mark.
pub fn decode(raw: &[u8], out: &mut [u8]) -> Result<Option<usize>, Fault>
    ensures { DecodesWhole raw.now out.old out.new result }
{
    if slices::starts_at(raw, 0, b"\xfe\xff") {
        return told(decode_ordered(raw, true, out));
    }
    if slices::starts_at(raw, 0, b"\xff\xfe") {
        return told(decode_ordered(raw, false, out));
    }
    tables::clear_bytes(out, 0);
    Ok(None)
}
