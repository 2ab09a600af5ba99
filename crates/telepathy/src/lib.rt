// Telepathy's type definitions: simple-type, enum, struct, mapping, with enumvalues and members as parts.
// One incomplete part drops the whole definition, with its rows and text, and leaves one warning.
// Which kinds come is said in clauses: a kind goes on in its start tag, and an enum of four kinds would go on beside it.
// That a parent is small is a clause of its own, as in `elements`: the parent is no part of what `Ready` speaks of.
#![tactic(auto)]

ghost use Rattle.std.specs.Prelude.{◌+◌, ◌≤◌, ◌<◌, true, [], length};
ghost use Rattle.document.specs.Outcome.{Lies, Ready, Bounded, Begins, Opening, Keeps, lent_to};
ghost use Rattle.telepathy.specs.Outcome.{DefinitionKind, PartKind, Holds, Unseen, Completes, Noted, Breaks, Keyed, More, TagTold, PartsTold, Told, Child, Body, Content, Judging, Judged, Rest};

use children::{Element, contents};
use document::{Fill, Next, Reader, Refusal, StartTag, kinds};
use tags::step;

// What was seen of a definition's parts: how many, whether one was incomplete, whether the first one's type is basic. No other field
// depends on the two answers, so neither is an Option of one.
#[derive(Clone, Copy)]
struct Parts {
    count: usize,
    broken: bool,
    basic: bool,
}

// What was read of a definition's content: where it ended, and its parts.
#[derive(Clone, Copy)]
struct Inner {
    fill: Fill,
    parts: Parts,
}

// An enumvalue and a member hold docstrings alone.
struct InPart;

impl Element for InPart {
    ghost held = { [] };

    ghost docs = { true };

    #[tactic(auto, using(crate::proofs::Sorts::part_children))]
    fn child(r: &mut Reader, c: &StartTag, i: usize, f: Fill) -> Result<Fill, Refusal> {
        skip::docstring_or_skip(r.doc, r.classes, &mut *r.rows, &mut *r.warnings, c, i, f)
    }
}

// The row of an enumvalue or a member.
fn part_row(
    doc: &[u8],
    rows: &mut [u32],
    text: &mut [u8],
    c: &StartTag,
    parent: usize,
    f: Fill,
) -> Result<Fill, Refusal>
    requires ready { Ready doc.now c.now f }
    requires parent_small { parent ≤ 1048576 }
    requires of_kind { PartKind c.now.kind }
    ensures { Opening doc.now c.now.kind c.now parent f rows.old rows.new
        text.old text.new result }
{
    if c.kind == kinds::ENUMVALUE {
        return elements::enumvalue_row(doc, rows, text, c, parent, f);
    }
    elements::member_row(doc, rows, text, c, parent, f)
}

// An enumvalue or a member of the definition with row i.
fn part(r: &mut Reader, c: &StartTag, i: usize, f: Fill) -> Result<Fill, Refusal>
    requires ready { Ready r.old.doc.now c.now f }
    requires owner { i < f.rows }
    requires of_kind { PartKind c.now.kind }
    ensures keeps { Keeps r.old r.new }
    ensures is { Begins r.old.doc.now c.now.kind c.now (i + 1) f
        (lent_to r.old)
        (lent_to r.new) result }
{
    let g = part_row(r.doc, &mut *r.rows, &mut *r.text, c, i + 1, f)?;
    contents::<InPart>(r, c, f.rows, g)
}

// Whether an enumvalue or a member is complete.
fn complete(doc: &[u8], c: &StartTag) -> bool
    requires lies { Lies doc.now c.now.values.ty }
    requires of_kind { PartKind c.now.kind }
    ensures { Completes doc.now c.now result }
{
    let v = c.values;
    if c.kind == kinds::ENUMVALUE {
        return !v.suffix.is_absent() && !v.value.is_absent();
    }
    !v.name.is_absent() && !v.ty.is_absent() && shown::some_signature(doc, v.ty)
}

// Whether a part was incomplete, with this one.
fn broken(doc: &[u8], c: &StartTag, p: Parts) -> bool
    requires lies { Lies doc.now c.now.values.ty }
    requires of_kind { PartKind c.now.kind }
    ensures { Breaks doc.now c.now p result }
{
    p.broken || !complete(doc, c)
}

// Whether the first part's type is basic, with this one.
fn keyed(doc: &[u8], c: &StartTag, p: Parts) -> bool
    requires { Lies doc.now c.now.values.ty }
    ensures { Keyed doc.now c.now p result }
{
    if p.count != 0 {
        return p.basic;
    }
    if c.values.ty.is_absent() {
        return false;
    }
    shown::basic_signature(doc, c.values.ty)
}

// The parts with one more.
fn one_more(doc: &[u8], c: &StartTag, p: Parts) -> Parts
    requires lies { Lies doc.now c.now.values.ty }
    requires of_kind { PartKind c.now.kind }
    requires few { p.count < 1048576 }
    ensures { More doc.now c.now p result }
{
    let b = broken(doc, c, p);
    let k = keyed(doc, c, p);
    Parts {
        count: p.count + 1,
        broken: b,
        basic: k,
    }
}

// No parts yet.
fn no_parts() -> Parts
    ensures { Unseen result }
{
    Parts {
        count: 0,
        broken: false,
        basic: false,
    }
}

// Whether a definition holds parts of a kind.
fn holds(kind: u32, part: u32) -> bool
    requires { DefinitionKind kind }
    ensures { Holds kind part result }
{
    match kind {
        kinds::SIMPLE_TYPE => false,
        kinds::ENUM => part == kinds::ENUMVALUE,
        _ => part == kinds::MEMBER,
    }
}

// A part of the definition with row i, when these parts were seen before.
fn noted_part(r: &mut Reader, c: &StartTag, i: usize, p: Parts, f: Fill) -> Result<Inner, Refusal>
    requires ready { Ready r.old.doc.now c.now f }
    requires owner { i < f.rows }
    requires of_kind { PartKind c.now.kind }
    requires few { p.count < f.at }
    ensures keeps { Keeps r.old r.new }
    ensures is { Noted r.old.doc.now c.now i p f
        (lent_to r.old)
        (lent_to r.new) result }
{
    let q = one_more(r.doc, c, p);
    let fill = part(r, c, i, f)?;
    Ok(Inner { fill, parts: q })
}

// A child of the definition with row i, when these parts were seen before.
fn definition_child(
    r: &mut Reader,
    kind: u32,
    c: &StartTag,
    i: usize,
    p: Parts,
    f: Fill,
) -> Result<Inner, Refusal>
    requires ready { Ready r.old.doc.now c.now f }
    requires owner { i < f.rows }
    requires of_kind { DefinitionKind kind }
    requires few { p.count < f.at }
    ensures keeps { Keeps r.old r.new }
    ensures is { Child r.old.doc.now kind i c.now p f
        (lent_to r.old)
        (lent_to r.new) result }
{
    if holds(kind, c.kind) {
        return noted_part(r, c, i, p, f);
    }
    let fill = skip::docstring_or_skip(r.doc, r.classes, &mut *r.rows, &mut *r.warnings, c, i, f)?;
    Ok(Inner { fill, parts: p })
}

// The children of the definition with row i, whose name stands at a place.
fn definition_children(
    r: &mut Reader,
    kind: u32,
    at: usize,
    len: usize,
    i: usize,
    f: Fill,
) -> Result<Inner, Refusal>
    requires bounded { Bounded r.old.doc.now f }
    requires owner { i < f.rows }
    requires of_kind { DefinitionKind kind }
    requires named { «at» + len ≤ length r.old.doc.now }
    ensures keeps { Keeps r.old r.new }
    ensures is { Body r.old.doc.now kind «at» len i f
        (lent_to r.old)
        (lent_to r.new) result }
{
    let doc = r.doc;
    let classes = r.classes;
    let mut g = f;
    let mut p = no_parts();
    // A loop, since the next child begins where the one before ends; and one beside `children::children`, since each child may also change
    // the parts seen.
    loop {
        match step(doc, classes, g.at, at, len)? {
            Next::Close(closing) => {
                return Ok(Inner {
                    fill: g.moved(closing.end),
                    parts: p,
                });
            }
            Next::Start(c) => {
                let h = g.moved(c.end);
                let read = definition_child(r, kind, &c, i, p, h)?;
                g = read.fill;
                p = read.parts;
            }
        }
    }
}

// The content of the definition with row i, from after its start tag on.
fn content(r: &mut Reader, c: &StartTag, i: usize, f: Fill) -> Result<Inner, Refusal>
    requires bounded { Bounded r.old.doc.now f }
    requires owner { i < f.rows }
    requires of_kind { DefinitionKind c.now.kind }
    requires named { c.now.at + c.now.len ≤ length r.old.doc.now }
    ensures keeps { Keeps r.old r.new }
    ensures is { Content r.old.doc.now c.now i f
        (lent_to r.old)
        (lent_to r.new) result }
{
    if c.closes {
        return Ok(Inner {
            fill: f,
            parts: no_parts(),
        });
    }
    definition_children(r, c.kind, c.at, c.len, i, f)
}

// Why a definition is dropped by its tag alone, or 0 as the definitions have it.
fn tag_reason(doc: &[u8], c: &StartTag) -> u32
    requires lies { Lies doc.now c.now.values.ty }
    requires of_kind { DefinitionKind c.now.kind }
    ensures { TagTold doc.now c.now result }
{
    let v = c.values;
    if v.name.is_absent() {
        return 2;
    }
    if matches!(c.kind, kinds::STRUCT | kinds::MAPPING) {
        return 0;
    }
    if v.ty.is_absent() {
        return 3;
    }
    if shown::some_signature(doc, v.ty) {
        return 0;
    }
    4
}

// Why a definition is dropped by its parts, or 0 as the definitions have it.
fn parts_reason(kind: u32, p: Parts) -> u32
    ensures { PartsTold kind p result }
{
    match kind {
        kinds::ENUM if p.broken => 5,
        _ if p.broken => 6,
        kinds::STRUCT if p.count == 0 => 7,
        kinds::MAPPING if p.count != 2 => 8,
        kinds::MAPPING if !p.basic => 9,
        _ => 0,
    }
}

// Why a definition is dropped, or 0 as the definitions have it; only the first reason is told.
fn reason(doc: &[u8], c: &StartTag, p: Parts) -> u32
    requires lies { Lies doc.now c.now.values.ty }
    requires of_kind { DefinitionKind c.now.kind }
    ensures { Told doc.now c.now p result }
{
    let why = tag_reason(doc, c);
    if why != 0 {
        return why;
    }
    parts_reason(c.kind, p)
}

// Where reading goes on after a definition that began at f and ended at h: a dropped one's rows and text are given back.
fn judge(doc: &[u8], warnings: &mut [u32], c: &StartTag, p: Parts, f: Fill, h: Fill) -> Fill
    requires judging { Judging doc.now c.now f h }
    requires of_kind { DefinitionKind c.now.kind }
    ensures { Judged doc.now c.now p f h warnings.old warnings.new result }
{
    let why = reason(doc, c, p);
    if why == 0 {
        return h;
    }
    let back = Fill {
        rows: f.rows,
        text: f.text,
        ..h
    };
    rows::put_warning(warnings, why, c.at, c.len, back)
}

// The row of a definition.
#[tactic(auto, using(crate::proofs::Judgement::definition_rows))]
fn definition_row(
    doc: &[u8],
    rows: &mut [u32],
    text: &mut [u8],
    c: &StartTag,
    parent: usize,
    f: Fill,
) -> Result<Fill, Refusal>
    requires ready { Ready doc.now c.now f }
    requires parent_small { parent ≤ 1048576 }
    requires of_kind { DefinitionKind c.now.kind }
    ensures { Opening doc.now c.now.kind c.now parent f rows.old rows.new
        text.old text.new result }
{
    if c.kind == kinds::STRUCT || c.kind == kinds::MAPPING {
        return elements::untyped_row(doc, rows, text, c, c.kind, parent, f);
    }
    elements::typed_row(doc, rows, text, c, c.kind, parent, f)
}

// The rest of a definition that began at f and whose row is put: its content, then whether it is dropped.
fn rest(r: &mut Reader, c: &StartTag, f: Fill, g: Fill) -> Result<Fill, Refusal>
    requires judging { Judging r.old.doc.now c.now f g }
    requires of_kind { DefinitionKind c.now.kind }
    ensures keeps { Keeps r.old r.new }
    ensures is { Rest r.old.doc.now c.now f g
        (lent_to r.old)
        (lent_to r.new) result }
{
    let doc = r.doc;
    let inner = content(r, c, f.rows, g)?;
    Ok(judge(doc, &mut *r.warnings, c, inner.parts, f, inner.fill))
}

// A definition, from after its start tag on.
pub fn definition(r: &mut Reader, c: &StartTag, parent: usize, f: Fill) -> Result<Fill, Refusal>
    requires ready { Ready r.old.doc.now c.now f }
    requires parent_small { parent ≤ 1048576 }
    requires of_kind { DefinitionKind c.now.kind }
    ensures keeps { Keeps r.old r.new }
    ensures is { Begins r.old.doc.now c.now.kind c.now parent f
        (lent_to r.old)
        (lent_to r.new) result }
{
    let g = definition_row(r.doc, &mut *r.rows, &mut *r.text, c, parent, f)?;
    rest(r, c, f, g)
}
