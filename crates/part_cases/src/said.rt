// What each operation says of a text.
use faults::Fault;
use std::io::{Result, Write};

// The place of the first ill-formed sequence, or `-`.
fn put_ill_formed<W: Write>(out: &mut W, t: &[u8]) -> Result<()> {
    let at = utf8::ill_formed(t);
    if at == t.len() {
        return out.write_all(b"-");
    }
    write!(out, "{at}")
}

// Where a text begins and ends once it is trimmed.
fn put_trimmed<W: Write>(out: &mut W, t: &[u8]) -> Result<()> {
    if utf8::ill_formed(t) != t.len() {
        return out.write_all(b"not UTF-8");
    }
    let trimmed = utf8::trim(t);
    let start = trimmed.start;
    let end = trimmed.end;
    write!(out, "{start} {end}")
}

// Where what may be passed over ends, or a fault.
fn put_ignorable<W: Write>(out: &mut W, t: &[u8]) -> Result<()> {
    match scan::ignorable(t, 0) {
        Err(Fault { number, place }) => write!(out, "refused {number} {place}"),
        Ok(at) => write!(out, "{at}"),
    }
}

fn put_answer<W: Write>(out: &mut W, answer: bool) -> Result<()> {
    let said: &[u8] = if answer { b"yes" } else { b"no" };
    out.write_all(said)
}

// Puts what an operation says.
pub fn put<W: Write>(out: &mut W, operation: &[u8], t: &[u8]) -> Result<()> {
    match operation {
        b"utf8" => put_ill_formed(out, t),
        b"trim" => put_trimmed(out, t),
        b"ignorable" => put_ignorable(out, t),
        b"interface" => put_answer(out, names::interface_name(t)),
        b"member" => put_answer(out, names::member_name(t)),
        b"property" => put_answer(out, names::property_name(t)),
        b"signature" => put_answer(out, names::signature(t)),
        b"basic" => put_answer(out, names::basic_signature(t)),
        _ => out.write_all(b"no such operation"),
    }
}
