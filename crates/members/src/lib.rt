// Members: annotation, arg, property, method, signal.
// That a parent is small is a clause of its own, as in `elements`: the parent is no part of what `Ready` speaks of.
#![tactic(auto)]

ghost use Rattle.std.specs.Prelude.{◌+◌, ◌≤◌, ◌<◌, [], true, false};
ghost use Rattle.document.specs.Kinds as kinds;
ghost use Rattle.document.specs.Outcome.{lent_to, Keeps, Ready, Begins};
ghost use Rattle.members.specs.Kinds.{CallableKind};

use children::{Element, contents};
use document::{Fill, Reader, Refusal, StartTag, kinds};
use skip::{docstring_or_skip, skip_unsupported};

// An annotation holds nothing.
struct InAnnotation;

impl Element for InAnnotation {
    ghost held = { [] };

    ghost docs = { false };

    #[tactic(auto, using(crate::proofs::Members::bare_children))]
    fn child(r: &mut Reader, c: &StartTag, i: usize, f: Fill) -> Result<Fill, Refusal> {
        skip_unsupported(r.doc, r.classes, &mut *r.warnings, c, f)
    }
}

// An annotation.
#[tactic(auto, using(crate::proofs::Members::elements))]
pub fn annotation(r: &mut Reader, c: &StartTag, parent: usize, f: Fill) -> Result<Fill, Refusal>
    requires ready { Ready r.old.doc.now c.now f }
    requires parent_small { parent ≤ 1048576 }
    ensures keeps { Keeps r.old r.new }
    ensures is { Begins r.old.doc.now kinds.annotation c.now parent f (lent_to r.old) (lent_to r.new) result }
{
    let g = elements::annotation_row(r.doc, &mut *r.rows, &mut *r.text, c, parent, f)?;
    contents::<InAnnotation>(r, c, f.rows, g)
}

// A property and an arg hold annotations.
struct InValue;

impl Element for InValue {
    ghost held = { kinds.in_value };

    ghost docs = { true };

    #[tactic(auto, using(crate::proofs::Members::children))]
    fn child(r: &mut Reader, c: &StartTag, i: usize, f: Fill) -> Result<Fill, Refusal> {
        match c.kind {
            kinds::ANNOTATION => annotation(r, c, i + 1, f),
            _ => docstring_or_skip(r.doc, r.classes, &mut *r.rows, &mut *r.warnings, c, i, f),
        }
    }
}

// An arg.
#[tactic(auto, using(crate::proofs::Members::elements))]
fn arg(r: &mut Reader, c: &StartTag, parent: usize, f: Fill) -> Result<Fill, Refusal>
    requires ready { Ready r.old.doc.now c.now f }
    requires parent_small { parent ≤ 1048576 }
    ensures keeps { Keeps r.old r.new }
    ensures is { Begins r.old.doc.now kinds.arg c.now parent f (lent_to r.old) (lent_to r.new) result }
{
    let g = elements::arg_row(r.doc, &mut *r.rows, &mut *r.text, c, parent, f)?;
    contents::<InValue>(r, c, f.rows, g)
}

// A property.
#[tactic(auto, using(crate::proofs::Members::elements))]
pub fn property(r: &mut Reader, c: &StartTag, parent: usize, f: Fill) -> Result<Fill, Refusal>
    requires ready { Ready r.old.doc.now c.now f }
    requires parent_small { parent ≤ 1048576 }
    ensures keeps { Keeps r.old r.new }
    ensures is { Begins r.old.doc.now kinds.property c.now parent f (lent_to r.old) (lent_to r.new) result }
{
    let g = elements::property_row(r.doc, &mut *r.rows, &mut *r.text, c, parent, f)?;
    contents::<InValue>(r, c, f.rows, g)
}

// A method and a signal hold args and annotations.
struct InCallable;

impl Element for InCallable {
    ghost held = { kinds.in_callable };

    ghost docs = { true };

    #[tactic(auto, using(crate::proofs::Members::children))]
    fn child(r: &mut Reader, c: &StartTag, i: usize, f: Fill) -> Result<Fill, Refusal> {
        match c.kind {
            kinds::ARG => arg(r, c, i + 1, f),
            kinds::ANNOTATION => annotation(r, c, i + 1, f),
            _ => docstring_or_skip(r.doc, r.classes, &mut *r.rows, &mut *r.warnings, c, i, f),
        }
    }
}

// A method or a signal.
#[tactic(auto, using(crate::proofs::Members::callables))]
pub fn callable(
    r: &mut Reader,
    c: &StartTag,
    kind: u32,
    parent: usize,
    f: Fill,
) -> Result<Fill, Refusal>
    requires ready { Ready r.old.doc.now c.now f }
    requires parent_small { parent ≤ 1048576 }
    requires of_kind { CallableKind kind }
    ensures keeps { Keeps r.old r.new }
    ensures is { Begins r.old.doc.now kind c.now parent f (lent_to r.old) (lent_to r.new) result }
{
    let g = elements::callable_row(r.doc, &mut *r.rows, &mut *r.text, c, kind, parent, f)?;
    contents::<InCallable>(r, c, f.rows, g)
}
