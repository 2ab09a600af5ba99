// The attributes of a start tag: gathered, checked one by one, and looked up. `attributes` is the entry.
#![tactic(auto)]

ghost use Rattle.std.specs.Prelude.{◌≡◌, ◌+◌, ◌-◌, ◌≤◌, [], length, take, drop, IfSome, IfNone};
ghost use Rattle.slices.specs.Bytes.{other, past};
ghost use Rattle.scan.specs.Colons.{Scanned};
ghost use Rattle.references.specs.Unescape.{special};
ghost use Rattle.document.specs.Tags.{attribute, equals, open_quote, is_tp_type};
ghost use Rattle.attributes.specs.One.{Quotes, Named, Finds};
ghost use Rattle.attributes.specs.Outcome.{References};

use document::{Form, Values};
use faults::Fault;
use scan::{ClassTable, Name};

mod asked;
mod few;
mod gathered;
mod many;
mod some;
mod starts;

pub use few::attributes;

// An attribute: places and lengths of its name and its raw value; the form of the value; whether it is a tp type; `twin` false says that no
// attribute before it has its name, true says nothing. No other field depends on `tp` or `twin`, so neither is an Option of one.
#[derive(Clone, Copy)]
pub struct Attribute {
    pub name: u32,
    pub name_len: u32,
    pub value: u32,
    pub value_len: u32,
    pub form: Form,
    pub tp: bool,
    pub twin: bool,
}

impl Attribute {
    // No attribute: what stands in an array where none was put.
    const BLANK: Attribute = Attribute {
        name: 0,
        name_len: 0,
        value: 0,
        value_len: 0,
        form: Form::Absent,
        tp: false,
        twin: true,
    };
}

// An attribute, and the place after it.
#[derive(Clone, Copy)]
pub struct Located {
    pub attribute: Attribute,
    pub end: usize,
}

// Where a value ends, and its form.
#[derive(Clone, Copy)]
struct ValueEnd {
    end: usize,
    form: Form,
}

// A name's class, the place of the value, and the quote before it.
#[derive(Clone, Copy)]
pub struct Start {
    pub class: usize,
    pub value: usize,
    pub quote: u8,
}

// One of the usual names: its class and its length.
#[derive(Clone, Copy)]
struct Known {
    class: usize,
    len: usize,
}

// The place after the attributes of a tag, and their values.
#[derive(Clone, Copy)]
pub struct TagValues {
    pub end: usize,
    pub values: Values,
}

// `&`, tab, LF, CR.
fn is_special(b: u8) -> bool
    ensures { result ≡ special b }
{
    b <= b'&' && matches!(b, b'&' | b'\t' | b'\n' | b'\r')
}

// The end of a value, where a quote closes it.
#[tactic(auto, using(crate::proofs::Found::quote_none))]
fn quoted(doc: &[u8], from: usize, quote: u8) -> Option<ValueEnd>
    requires inside { from ≤ length doc.now }
    ensures some { IfSome result (Quotes «quote» doc.now from) }
    ensures none { IfNone result (past (other «quote») (drop from doc.now) ≡ []) }
{
    let mut form = Form::Plain;
    // Not a search for the quote alone: the form is found on the way to it.
    for at in from..doc.len() {
        let b = doc[at];
        if b == quote {
            return Some(ValueEnd { end: at, form });
        }
        if is_special(b) {
            form = Form::Changed;
        }
    }
    None
}

// At the opening quote of the value, after a name and `=`.
#[tactic(auto, using(crate::proofs::Found::values))]
fn quoted_value(doc: &[u8], name: usize, n: usize, tp: bool, at: usize) -> Option<Located>
    requires { Named doc.now name n tp at }
    ensures { Finds (open_quote name (take n (drop name doc.now))) doc.now at result }
{
    if doc.len() <= at {
        return None;
    }
    let q = doc[at];
    if scan::is_quote(q) {
        let value = at + 1;
        let v = quoted(doc, value, q)?;
        let end = v.end;
        let a = Attribute {
            name: name as u32,
            name_len: n as u32,
            value: value as u32,
            value_len: (end - value) as u32,
            form: v.form,
            tp,
            twin: true,
        };
        return Some(Located {
            attribute: a,
            end: end + 1,
        });
    }
    None
}

// At the `=` after a name.
fn equals_at(
    doc: &[u8],
    classes: &ClassTable,
    name: usize,
    n: usize,
    tp: bool,
    at: usize,
) -> Option<Located>
    requires { Named doc.now name n tp at }
    ensures { Finds (equals name (take n (drop name doc.now))) doc.now at result }
{
    if doc.len() <= at {
        return None;
    }
    if doc[at] == b'=' {
        let open = scan::space_end(doc, classes, at + 1);
        return quoted_value(doc, name, n, tp, open);
    }
    None
}

// Whether the name that begins at a place is a tp type's: a prefix that is not empty, the first colon, then exactly `type`.
#[tactic(auto, using(crate::proofs::Keys::prefixes))]
fn is_tp_type_at(doc: &[u8], at: usize, name: Name) -> bool
    requires scanned { Scanned doc.now «at» name }
    requires small { length doc.now ≤ 1048576 }
    ensures { result ≡ is_tp_type (take (name.end - «at») (drop «at» doc.now)) }
{
    match name.colons {
        None => false,
        Some(colons) => {
            let next = colons.first + 1;
            colons.first != at && slices::equal(&doc[next..name.end], b"type")
        }
    }
}

// At the white space before a name.
#[tactic(auto, using(crate::proofs::Found::finds))]
pub fn attribute_at(doc: &[u8], classes: &ClassTable, from: usize) -> Option<Located>
    requires inside { from ≤ length doc.now }
    requires small { length doc.now ≤ 1048576 }
    ensures { Finds attribute doc.now from result }
{
    let start = scan::space_end(doc, classes, from);
    if start <= from {
        return None;
    }
    let name = scan::name_at(doc, classes, start);
    let end = name.end;
    if end <= start {
        return None;
    }
    let tp = is_tp_type_at(doc, start, name);
    let at = scan::space_end(doc, classes, end);
    equals_at(doc, classes, start, end - start, tp, at)
}

// Whether the references of a raw value are good.
#[tactic(auto, using(crate::proofs::Shown::shown))]
fn references_of(doc: &[u8], at: usize, n: usize) -> Result<(), Fault>
    requires named { at + n ≤ length doc.now }
    requires small { length doc.now ≤ 1048576 }
    ensures { References doc.now at n result }
{
    references::check(&doc[at..at + n]).map_err(|f| Fault::new(
        f.number,
        references::in_document(at, f.place).0,
    ))
}
