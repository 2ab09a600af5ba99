// What a start tag needs: the row of each kind of element, or the tag's first fault.
// A function takes the parts of a `Reader` that it needs and not all of it: then no clause has to say that the other parts stay as they are.
// That a parent is small is a clause of its own: the parent is no part of what `Ready` speaks of, and of the root it is 0.
#![tactic(auto)]

ghost use Rattle.std.specs.Prelude.{◌≡◌, ◌≤◌, ◌<◌, ◌+◌, ◌^◌};
ghost use Rattle.names.specs.Names.{member_name};
ghost use Rattle.document.specs.Kinds as kinds;
ghost use Rattle.document.specs.Outcome.{Lies, Ready, Opening};
ghost use Rattle.elements.specs.Outcome.{Accesses, Demands, DemandsGood, Directs, NamedKind, TypedKind, UntypedKind};

use document::{Excerpt, Fill, Refusal, StartTag, Value, kinds};
use rows::Head;

// The bytes of a value.
fn excerpt(v: Value) -> Excerpt
    ensures { result ≡ record { at = v.at; len = v.len } }
{
    Excerpt {
        at: v.at,
        len: v.len,
    }
}

// An attribute is there, or refusal 12, whose `key` says which one is missing: 1 name, 2 type, 3 access, 4 value.
fn demand(c: &StartTag, v: Value, key: u32) -> Result<(), Refusal>
    requires { c.now.at + c.now.len < 2 ^ 32 }
    ensures { Demands c.now v key result }
{
    if v.is_absent() {
        let name = Excerpt::new(c.at, c.len);
        return Err(Refusal {
            key,
            ..document::showing(12, c.at, name)
        });
    }
    Ok(())
}

// An attribute is there, or refusal 12 with its key, as above; and it is good, or refusal `number`.
fn demand_good<P: Fn(&[u8], Value) -> bool>(
    doc: &[u8],
    c: &StartTag,
    v: Value,
    key: u32,
    number: u32,
    good: P,
) -> Result<(), Refusal>
    requires small { c.now.at + c.now.len < 2 ^ 32 }
    requires callable { P.pre good doc v }
    ensures { DemandsGood (P.post good doc.entry v) doc.now c.now v key number result }
{
    demand(c, v, key)?;
    if good(doc, v) {
        return Ok(());
    }
    Err(document::bare(number, c.at))
}

// The number of a property's access; refusal 12 where it has none, 15 where it is none of the three.
fn access_word(doc: &[u8], c: &StartTag) -> Result<u32, Refusal>
    requires small { c.now.at + c.now.len < 2 ^ 32 }
    requires lies { Lies doc.now c.now.values.access }
    ensures { Accesses doc.now c.now result }
{
    let v = c.values.access;
    demand(c, v, 3)?;
    match shown::access(doc, v) {
        0 => Err(document::showing(15, c.end, excerpt(v))),
        word => Ok(word),
    }
}

// The number of an arg's direction, 0 where it has none, as the row's word has it; refusal 16 where it is neither `in` nor `out`.
fn direction_word(doc: &[u8], c: &StartTag) -> Result<u32, Refusal>
    requires { Lies doc.now c.now.values.direction }
    ensures { Directs doc.now c.now result }
{
    let v = c.values.direction;
    if v.is_absent() {
        return Ok(0);
    }
    match shown::direction(doc, v) {
        0 => Err(document::showing(16, c.end, excerpt(v))),
        word => Ok(word),
    }
}

// An interface: name there, name good.
#[tactic(auto, using(crate::proofs::Rows::elements))]
pub fn interface_row(
    doc: &[u8],
    rows: &mut [u32],
    text: &mut [u8],
    c: &StartTag,
    parent: usize,
    f: Fill,
) -> Result<Fill, Refusal>
    requires ready { Ready doc.now c.now f }
    requires parent_small { parent ≤ 1048576 }
    ensures { Opening doc.now kinds.interface c.now parent f rows.old rows.new
        text.old text.new result }
{
    let name = c.values.name;
    demand_good(doc, c, name, 1, 13, shown::interface_name)?;
    let head = Head::new(kinds::INTERFACE, parent, c.at);
    Ok(rows::put_row(doc, rows, text, head, name, Value::ABSENT, Value::ABSENT, f))
}

// A method or a signal: name there, name good.
#[tactic(auto, using(crate::proofs::Rows::elements))]
pub fn callable_row(
    doc: &[u8],
    rows: &mut [u32],
    text: &mut [u8],
    c: &StartTag,
    kind: u32,
    parent: usize,
    f: Fill,
) -> Result<Fill, Refusal>
    requires ready { Ready doc.now c.now f }
    requires parent_small { parent ≤ 1048576 }
    requires of_kind { NamedKind member_name kind }
    ensures { Opening doc.now kind c.now parent f rows.old rows.new
        text.old text.new result }
{
    let name = c.values.name;
    demand_good(doc, c, name, 1, 13, shown::member_name)?;
    let head = Head::new(kind, parent, c.at);
    Ok(rows::put_row(doc, rows, text, head, name, Value::ABSENT, Value::ABSENT, f))
}

// An annotation: name, value.
#[tactic(auto, using(crate::proofs::Rows::elements))]
pub fn annotation_row(
    doc: &[u8],
    rows: &mut [u32],
    text: &mut [u8],
    c: &StartTag,
    parent: usize,
    f: Fill,
) -> Result<Fill, Refusal>
    requires ready { Ready doc.now c.now f }
    requires parent_small { parent ≤ 1048576 }
    ensures { Opening doc.now kinds.annotation c.now parent f rows.old rows.new
        text.old text.new result }
{
    let v = c.values;
    demand(c, v.name, 1)?;
    demand(c, v.value, 4)?;
    let head = Head::new(kinds::ANNOTATION, parent, c.at);
    Ok(rows::put_row(doc, rows, text, head, v.name, v.value, Value::ABSENT, f))
}

// A simple-type or an enum: name and type, which may be missing.
#[tactic(auto, using(crate::proofs::Rows::elements))]
pub fn typed_row(
    doc: &[u8],
    rows: &mut [u32],
    text: &mut [u8],
    c: &StartTag,
    kind: u32,
    parent: usize,
    f: Fill,
) -> Result<Fill, Refusal>
    requires ready { Ready doc.now c.now f }
    requires parent_small { parent ≤ 1048576 }
    requires of_kind { TypedKind kind }
    ensures { Opening doc.now kind c.now parent f rows.old rows.new
        text.old text.new result }
{
    let v = c.values;
    let head = Head::new(kind, parent, c.at);
    Ok(rows::put_row(doc, rows, text, head, v.name, v.ty, Value::ABSENT, f))
}

// A node, a struct or a mapping: its name may be missing.
#[tactic(auto, using(crate::proofs::Rows::elements))]
pub fn untyped_row(
    doc: &[u8],
    rows: &mut [u32],
    text: &mut [u8],
    c: &StartTag,
    kind: u32,
    parent: usize,
    f: Fill,
) -> Result<Fill, Refusal>
    requires ready { Ready doc.now c.now f }
    requires parent_small { parent ≤ 1048576 }
    requires of_kind { UntypedKind kind }
    ensures { Opening doc.now kind c.now parent f rows.old rows.new
        text.old text.new result }
{
    let v = c.values;
    let head = Head::new(kind, parent, c.at);
    Ok(rows::put_row(
        doc,
        rows,
        text,
        head,
        v.name,
        Value::ABSENT,
        Value::ABSENT,
        f,
    ))
}

// An enumvalue: suffix and value, which may be missing.
#[tactic(auto, using(crate::proofs::Rows::elements))]
pub fn enumvalue_row(
    doc: &[u8],
    rows: &mut [u32],
    text: &mut [u8],
    c: &StartTag,
    parent: usize,
    f: Fill,
) -> Result<Fill, Refusal>
    requires ready { Ready doc.now c.now f }
    requires parent_small { parent ≤ 1048576 }
    ensures { Opening doc.now kinds.enumvalue c.now parent f rows.old rows.new
        text.old text.new result }
{
    let v = c.values;
    let head = Head::new(kinds::ENUMVALUE, parent, c.at);
    Ok(rows::put_row(doc, rows, text, head, v.suffix, v.value, Value::ABSENT, f))
}

// A member of a struct or a mapping: name, type and tp type, which may be missing.
#[tactic(auto, using(crate::proofs::Rows::elements))]
pub fn member_row(
    doc: &[u8],
    rows: &mut [u32],
    text: &mut [u8],
    c: &StartTag,
    parent: usize,
    f: Fill,
) -> Result<Fill, Refusal>
    requires ready { Ready doc.now c.now f }
    requires parent_small { parent ≤ 1048576 }
    ensures { Opening doc.now kinds.member c.now parent f rows.old rows.new
        text.old text.new result }
{
    let v = c.values;
    let head = Head::new(kinds::MEMBER, parent, c.at);
    Ok(rows::put_row(doc, rows, text, head, v.name, v.ty, v.tp, f))
}

// A property: name there, name good, type there, signature good, access there, access good.
#[tactic(auto, using(crate::proofs::Rows::elements))]
pub fn property_row(
    doc: &[u8],
    rows: &mut [u32],
    text: &mut [u8],
    c: &StartTag,
    parent: usize,
    f: Fill,
) -> Result<Fill, Refusal>
    requires ready { Ready doc.now c.now f }
    requires parent_small { parent ≤ 1048576 }
    ensures { Opening doc.now kinds.property c.now parent f rows.old rows.new
        text.old text.new result }
{
    let v = c.values;
    demand_good(doc, c, v.name, 1, 13, shown::property_name)?;
    demand_good(doc, c, v.ty, 2, 14, shown::signature)?;
    let head = Head {
        word: access_word(doc, c)?,
        ..Head::new(kinds::PROPERTY, parent, c.at)
    };
    Ok(rows::put_row(doc, rows, text, head, v.name, v.ty, v.tp, f))
}

// An arg: type, signature, direction.
#[tactic(auto, using(crate::proofs::Rows::elements))]
pub fn arg_row(
    doc: &[u8],
    rows: &mut [u32],
    text: &mut [u8],
    c: &StartTag,
    parent: usize,
    f: Fill,
) -> Result<Fill, Refusal>
    requires ready { Ready doc.now c.now f }
    requires parent_small { parent ≤ 1048576 }
    ensures { Opening doc.now kinds.arg c.now parent f rows.old rows.new
        text.old text.new result }
{
    let v = c.values;
    demand_good(doc, c, v.ty, 2, 14, shown::signature)?;
    let head = Head {
        word: direction_word(doc, c)?,
        ..Head::new(kinds::ARG, parent, c.at)
    };
    Ok(rows::put_row(doc, rows, text, head, v.name, v.ty, v.tp, f))
}
