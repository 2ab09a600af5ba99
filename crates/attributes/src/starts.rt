// The start of an attribute: the class of its name, and where its value begins.
ghost use Rattle.std.specs.Prelude.{◌≡◌, ◌+◌, ◌-◌, ◌≤◌, length, drop, IfSome, IfNone};
ghost use Rattle.scan.specs.Colons.{Scanned};
ghost use Rattle.document.specs.Tags.{absent, attribute, is_tp_type};
ghost use Rattle.attributes.specs.One.{part};
ghost use Rattle.attributes.specs.Slots.{class_of, Opened, Four, Key};

use crate::{Known, Start, is_tp_type_at};
use scan::{ClassTable, Name};

// Four bytes as a number, the first byte the lowest: 0x656d616e is `name` read backwards.
fn four(s: &[u8], at: usize) -> u32
    requires { at + 4 ≤ length s.now }
    ensures { Four s.now «at» result }
{
    s[at] as u32
        + 256 * (s[at + 1] as u32)
        + 65536 * (s[at + 2] as u32)
        + 16777216 * (s[at + 3] as u32)
}

// The first four bytes of the usual five names, and the second four of `direction`, as numbers.
const NAME: u32 = 0x656d616e;

const TYPE: u32 = 0x65707974;

const VALUE_START: u32 = 0x756c6176;

const ACCESS_START: u32 = 0x65636361;

const DIRECTION_START: u32 = 0x65726964;

const DIRECTION_NEXT: u32 = 0x6f697463;

// The rest of `direction`, `value` or `access`, whose first four bytes are the number.
#[tactic(auto, using(crate::proofs::Starting::knows))]
fn longer(doc: &[u8], at: usize, w: u32) -> Option<Known>
    requires inside { at + 9 ≤ length doc.now }
    requires four { Four doc.now «at» w }
    ensures { IfSome result (Key doc.now «at») }
{
    if w == DIRECTION_START && four(doc, at + 4) == DIRECTION_NEXT && doc[at + 8] == b'n' {
        return Some(Known { class: 4, len: 9 });
    }
    if w == VALUE_START && doc[at + 4] == b'e' {
        return Some(Known { class: 2, len: 5 });
    }
    if w == ACCESS_START && doc[at + 4] == b's' && doc[at + 5] == b's' {
        return Some(Known { class: 3, len: 6 });
    }
    None
}

// The name that bytes at a place begin with, where it is one of the usual five.
#[tactic(auto, using(crate::proofs::Starting::knows))]
fn known(doc: &[u8], at: usize) -> Option<Known>
    requires { at + 9 ≤ length doc.now }
    ensures { IfSome result (Key doc.now «at») }
{
    let w = four(doc, at);
    if w == NAME {
        return Some(Known { class: 0, len: 4 });
    }
    if w == TYPE {
        return Some(Known { class: 1, len: 4 });
    }
    longer(doc, at, w)
}

// The usual form: a space, a known name, `=` and `"`.
#[tactic(auto, using(crate::proofs::Starting::quickly))]
fn quick(doc: &[u8], at: usize) -> Option<Start>
    requires inside { at ≤ length doc.now }
    requires small { length doc.now ≤ 1048576 }
    ensures { IfSome result (Opened doc.now «at») }
{
    if doc.len() < at + 16 || doc[at] != b' ' {
        return None;
    }
    let k = known(doc, at + 1)?;
    let end = at + 1 + k.len;
    let open = end + 1;
    if doc[end] != b'=' || doc[open] != b'"' {
        return None;
    }
    Some(Start {
        class: k.class,
        value: open + 1,
        quote: b'"',
    })
}

// The class of a name, which is a tp type's or not: 6 is a tp type's, and 7 any other name's.
// A class is the index of its slot in few.rt and nothing else: hence a number, and no enum.
#[tactic(auto, using(crate::proofs::Classes::classes))]
fn class_of(name: &[u8], tp: bool) -> usize
    requires { tp ≡ is_tp_type name.now }
    ensures { result ≡ class_of name.now }
{
    if tp {
        return 6;
    }
    match name {
        b"name" => 0,
        b"type" => 1,
        b"value" => 2,
        b"access" => 3,
        b"direction" => 4,
        b"suffix" => 5,
        _ => 7,
    }
}

// The class of the name that begins at a place.
fn class_at(doc: &[u8], at: usize, name: Name) -> usize
    requires scanned { Scanned doc.now «at» name }
    requires small { length doc.now ≤ 1048576 }
    ensures { result ≡ class_of (part doc.now «at» (name.end - «at»)) }
{
    let end = name.end;
    let tp = is_tp_type_at(doc, at, name);
    class_of(&doc[at..end], tp)
}

// Any form.
#[tactic(auto, using(crate::proofs::Starting::opens))]
fn opened(doc: &[u8], classes: &ClassTable, from: usize) -> Option<Start>
    requires inside { from ≤ length doc.now }
    requires small { length doc.now ≤ 1048576 }
    ensures some { IfSome result (Opened doc.now from) }
    ensures none { IfNone result (attribute (drop from doc.now) from ≡ absent) }
{
    let name = scan::space_end(doc, classes, from);
    if name <= from {
        return None;
    }
    let scanned = scan::name_at(doc, classes, name);
    let end = scanned.end;
    if end <= name {
        return None;
    }
    let equals = scan::space_end(doc, classes, end);
    if doc.len() <= equals || doc[equals] != b'=' {
        return None;
    }
    let at = scan::space_end(doc, classes, equals + 1);
    if doc.len() <= at {
        return None;
    }
    let quote = doc[at];
    if scan::is_quote(quote) {
        return Some(Start {
            class: class_at(doc, name, scanned),
            value: at + 1,
            quote,
        });
    }
    None
}

// At the white space before a name.
pub fn start_at(doc: &[u8], classes: &ClassTable, at: usize) -> Option<Start>
    requires inside { at ≤ length doc.now }
    requires small { length doc.now ≤ 1048576 }
    ensures some { IfSome result (Opened doc.now «at») }
    ensures none { IfNone result (attribute (drop «at» doc.now) «at» ≡ absent) }
{
    quick(doc, at).or_else(|| opened(doc, classes, at))
}
