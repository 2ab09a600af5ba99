// Interfaces: the children of one, and which of them are definitions.
#![tactic(auto)]

ghost use Rattle.std.specs.Prelude.{◌+◌, ◌≤◌, ◌<◌, true};
ghost use Rattle.document.specs.Kinds as kinds;
ghost use Rattle.document.specs.Outcome.{lent_to, Keeps, Ready, Begins};
ghost use Rattle.interfaces.specs.Among.{Among};

use children::{Element, contents};
use document::{Fill, Reader, Refusal, StartTag, kinds};
use members::{annotation, callable, property};
use skip::docstring_or_skip;
use telepathy::definition;

// Whether an element of this kind is a definition: simple-type, enum, struct or mapping. Beside order's function of this name: that one's clause
// speaks of a row, by order's definition of a type definition.
#[tactic(auto, using(crate::proofs::Interfaces::kinds))]
pub fn is_definition(kind: u32) -> bool
    ensures { Among kind kinds.definitions result }
{
    matches!(
        kind,
        kinds::SIMPLE_TYPE | kinds::ENUM | kinds::STRUCT | kinds::MAPPING
    )
}

// What an interface holds.
struct InInterface;

impl Element for InInterface {
    ghost held = { kinds.in_interface };

    ghost docs = { true };

    #[tactic(auto, using(crate::proofs::Interfaces::interfaces))]
    fn child(r: &mut Reader, c: &StartTag, i: usize, f: Fill) -> Result<Fill, Refusal> {
        match c.kind {
            kinds::METHOD => callable(r, c, kinds::METHOD, i + 1, f),
            kinds::PROPERTY => property(r, c, i + 1, f),
            kinds::SIGNAL => callable(r, c, kinds::SIGNAL, i + 1, f),
            kinds::ANNOTATION => annotation(r, c, i + 1, f),
            kind => {
                if is_definition(kind) {
                    return definition(r, c, i + 1, f);
                }
                docstring_or_skip(r.doc, r.classes, &mut *r.rows, &mut *r.warnings, c, i, f)
            }
        }
    }
}

// An interface.
#[tactic(auto, using(members::proofs::Members::elements))]
pub fn interface(r: &mut Reader, c: &StartTag, parent: usize, f: Fill) -> Result<Fill, Refusal>
    requires ready { Ready r.old.doc.now c.now f }
    requires parent_small { parent ≤ 1048576 }
    ensures keeps { Keeps r.old r.new }
    ensures is { Begins r.old.doc.now kinds.interface c.now parent f (lent_to r.old) (lent_to r.new) result }
{
    let g = elements::interface_row(r.doc, &mut *r.rows, &mut *r.text, c, parent, f)?;
    contents::<InInterface>(r, c, f.rows, g)
}
