// References in attribute values: unescape and escape.
#![tactic(auto)]

ghost use Rattle.std.specs.Prelude.{◌≡◌, ◌+◌, ◌*◌, ◌<◌, ◌^◌, length, drop, get_or, Ok};
ghost use Rattle.faults.specs.Fault.{fault};
ghost use Rattle.answers.specs.Text.{Makes};
ghost use Rattle.answers.specs.Puts.{Puts};
ghost use Rattle.references.specs.Escape.{escaped, escape};
ghost use Rattle.references.specs.Unescape.{of_number, reference, plain};
ghost use Rattle.references.specs.Outcome.{reference_of, Pieces, Checks, Shows};
ghost use Rattle.references.specs.Entries.{escaping, unescaping};
ghost use Rattle.references.specs.Admission.{Admits, Reads};

use answers::{TextAnswer, put};
use faults::Fault;
use scan::ClassTable;

mod digits;

// A place in a value, and one in the document.
#[derive(Clone, Copy)]
pub struct ValuePlace(pub usize);

#[derive(Clone, Copy)]
pub struct DocumentPlace(pub usize);

// What is shown: a byte, or a character by its code.
#[derive(Clone, Copy)]
pub enum Shown {
    Byte(u8),
    Char(u32),
}

// What stands at a place of a value, and the place after it.
#[derive(Clone, Copy)]
struct Piece {
    shown: Shown,
    next: usize,
}

// Why a value is refused: a fault's number, and its place in the value.
#[derive(Clone, Copy)]
pub struct ValueFault {
    pub number: u32,
    pub place: ValuePlace,
}

impl From<ValueFault> for Fault {
    ghost from_gives = { λ f r. r ≡ fault f.number f.place.0 };

    fn from(fault: ValueFault) -> Fault {
        Fault::new(fault.number, fault.place.0)
    }
}

// A place in a value as one in the document, where the value begins at an offset.
pub fn in_document(value_offset: usize, at: ValuePlace) -> DocumentPlace
    requires { value_offset + at.0 < 2 ^ 63 }
    ensures { result.0 ≡ value_offset + at.0 }
{
    DocumentPlace(value_offset + at.0)
}

// After `&#`: a character's code, or a fault's number; only the caller knows the place.
fn of_number(entity: &[u8]) -> Result<u32, u32>
    requires { 0 < length entity.now }
    ensures { reference_of result ≡ of_number (drop 1 entity.now) }
{
    if entity.len() <= 1 {
        return Err(11);
    }
    match entity[1] {
        b'x' | b'X' => digits::of_digits(entity, 2, 16),
        _ => digits::of_digits(entity, 1, 10),
    }
}

// What stands between `&` and `;`: a number after `#`, or the name of one of five entities.
#[tactic(auto, using(crate::proofs::Entities::entities))]
fn reference_of(entity: &[u8]) -> Result<u32, u32>
    ensures { reference_of result ≡ reference entity.now }
{
    match entity {
        [b'#', ..] => of_number(entity),
        b"amp" => Ok(38),
        b"lt" => Ok(60),
        b"gt" => Ok(62),
        b"quot" => Ok(34),
        b"apos" => Ok(39),
        _ => Err(10),
    }
}

// What stands at a `&`, or a fault's number.
#[tactic(auto, using(crate::proofs::Pieces::pieces))]
fn reference_at(v: &[u8], at: usize) -> Result<Piece, u32>
    requires inside { at < length v.now }
    requires ampersand { get_or v.now at 0 ≡ 38 }
    ensures { Pieces v.now at result }
{
    let from = at + 1;
    let end = slices::find(v, from, b';');
    if v.len() <= end {
        return Err(9);
    }
    let c = reference_of(&v[from..end])?;
    Ok(Piece {
        shown: Shown::Char(c),
        next: end + 1,
    })
}

// What stands at a CR: it is one line end with a LF after it.
#[tactic(auto, using(crate::proofs::Pieces::pieces))]
fn line_end(v: &[u8], at: usize) -> Piece
    requires inside { at < length v.now }
    requires cr { get_or v.now at 0 ≡ 13 }
    ensures { Pieces v.now at (Ok result) }
{
    let next = at + 1;
    let shown = Shown::Byte(b' ');
    if next < v.len() && v[next] == b'\n' {
        return Piece {
            shown,
            next: at + 2,
        };
    }
    Piece { shown, next }
}

// What stands at a place of a value, or a fault's number.
#[tactic(auto, using(crate::proofs::Pieces::pieces))]
fn piece_at(v: &[u8], at: usize) -> Result<Piece, u32>
    requires { at < length v.now }
    ensures { Pieces v.now at result }
{
    let next = at + 1;
    match v[at] {
        b'\r' => Ok(line_end(v, at)),
        b'&' => reference_at(v, at),
        b'\n' | b'\t' => Ok(Piece {
            shown: Shown::Byte(b' '),
            next,
        }),
        b => Ok(Piece {
            shown: Shown::Byte(b),
            next,
        }),
    }
}

// Whether a byte of a value shows itself.
fn is_plain(b: u8) -> bool
    ensures { result ≡ plain b }
{
    !matches!(b, b'&' | b'\t' | b'\n' | b'\r')
}

// Whether the references of a value are good. Writes nothing.
#[tactic(auto, using(crate::proofs::Values::checks))]
pub fn check(value: &[u8]) -> Result<(), ValueFault>
    ensures { Checks value.now result }
{
    let mut at = slices::find(value, 0, b'&');
    // The next place is what the call found, so no range gives it.
    while at < value.len() {
        match reference_at(value, at) {
            Ok(piece) => at = slices::find(value, piece.next, b'&'),
            Err(number) => {
                return Err(ValueFault {
                    number,
                    place: ValuePlace(at),
                });
            }
        }
    }
    Ok(())
}

// Puts the shown bytes of a value at a count, up to its first fault.
// The text and its count are passed apart, here and below: the count runs on past the room.
#[tactic(auto, using(crate::proofs::Values::shown))]
pub fn put_shown(value: &[u8], out: &mut [u8], n: usize) -> usize
    requires { n + length value.now < 2 ^ 62 }
    ensures { Shows value.now n out.old out.new result }
{
    let mut at = 0;
    let mut m = n;
    // The next place is what the call found, so no range gives it.
    while at < value.len() {
        let b = value[at];
        // A byte that shows itself is put at once: the answer of `piece_at` takes as long again to make and to read.
        if is_plain(b) {
            m = tables::put_byte(out, m, b);
            at += 1;
        } else {
            match piece_at(value, at) {
                Ok(piece) => {
                    m = match piece.shown {
                        Shown::Byte(b) => tables::put_byte(out, m, b),
                        Shown::Char(c) => put::put_char(out, m, c),
                    };
                    at = piece.next;
                }
                Err(_) => return m,
            }
        }
    }
    m
}

// A byte as it is escaped.
fn put_reference(out: &mut [u8], n: usize, b: u8) -> usize
    requires { n + 6 < 2 ^ 62 }
    ensures { Puts (escaped b) n out.old out.new result }
{
    match b {
        b'&' => put::put_bytes(out, n, b"&amp;"),
        b'<' => put::put_bytes(out, n, b"&lt;"),
        b'>' => put::put_bytes(out, n, b"&gt;"),
        b'"' => put::put_bytes(out, n, b"&quot;"),
        b'\'' => put::put_bytes(out, n, b"&apos;"),
        b'\t' => put::put_bytes(out, n, b"&#9;"),
        b'\n' => put::put_bytes(out, n, b"&#10;"),
        b'\r' => put::put_bytes(out, n, b"&#13;"),
        _ => tables::put_byte(out, n, b),
    }
}

// Puts the escaped bytes of a value at a count.
pub fn put_escaped(value: &[u8], classes: &ClassTable, out: &mut [u8], n: usize) -> usize
    requires { n + 6 * length value.now < 2 ^ 62 }
    ensures { Puts (escape value.now) n out.old out.new result }
{
    let mut m = n;
    for &b in value {
        if classes.is_escapable(b) {
            m = put_reference(out, m, b);
        } else {
            m = tables::put_byte(out, m, b);
        }
    }
    m
}

// Whether a value is short enough and well-formed.
fn admit(value: &[u8]) -> Result<(), ValueFault>
    ensures { Admits value.now result }
{
    if 1048576 < value.len() {
        return Err(ValueFault {
            number: 2,
            place: ValuePlace(1048576),
        });
    }
    let at = utf8::ill_formed(value);
    if at < value.len() {
        return Err(ValueFault {
            number: 1,
            place: ValuePlace(at),
        });
    }
    Ok(())
}

// Whether a value is short enough and well-formed, and its references good.
#[tactic(auto, using(crate::proofs::Answers::steps))]
fn admit_shown(value: &[u8]) -> Result<(), ValueFault>
    ensures { Reads value.now result }
{
    admit(value)?;
    check(value)
}

// Escapes a value. A value of more than 1,048,576 bytes is refused with 2, an ill-formed one with 1, one that has no room with 21 and the
// bytes needed.
pub fn escape(value: &[u8], out: &mut [u8]) -> TextAnswer
    ensures { Makes (escaping value.now) out.old out.new result }
{
    match admit(value) {
        Err(fault) => answers::refuse(out, Fault::from(fault)),
        Ok(()) => {
            let classes = scan::classes();
            let n = put_escaped(value, &classes, out, 0);
            answers::finish(out, n, Fault::new(21, n))
        }
    }
}

// Unescapes a value. Refused as for `escape` with 2 and 1, then with 9 to 11 at a reference, and with 18 where there is no room.
pub fn unescape(value: &[u8], out: &mut [u8]) -> TextAnswer
    ensures { Makes (unescaping value.now) out.old out.new result }
{
    match admit_shown(value) {
        Err(fault) => answers::refuse(out, Fault::from(fault)),
        Ok(()) => {
            let n = put_shown(value, out, 0);
            answers::finish(out, n, Fault::new(18, value.len()))
        }
    }
}
