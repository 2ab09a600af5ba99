// All that follows the row of an element: the loop over its children, whatever a child of it is read as.
#![tactic(auto)]

ghost use Rattle.std.specs.Prelude.{ℕ, ◌+◌, ◌≤◌, ◌<◌, List, Bool, length};
ghost use Rattle.document.specs.Outcome.{lent_to, Keeps, Bounded, Ready, Child, Children, Contents};

use document::{Fill, Next, Reader, Refusal, StartTag};
use tags::step;

// An element that is read with its children: the kinds of elements that it holds, whether it holds docstrings, and how a child is read.
pub trait Element {
    ghost held: { List ℕ };

    ghost docs: { Bool };

    // Reads a child of the element with row i, from after the child's start tag on.
    fn child(r: &mut Reader, c: &StartTag, i: usize, f: Fill) -> Result<Fill, Refusal>
        requires ready { Ready r.old.doc.now c.now f }
        requires owner { i < f.rows }
        ensures keeps { Keeps r.old r.new }
        ensures is { Child r.old.doc.now held docs c.now i f (lent_to r.old) (lent_to r.new) result };
}

// The children of the element with row i, whose name stands at a place with a length, up to its end.
#[tactic(auto, using(crate::proofs::Loop::looping))]
fn children<E: Element>(
    r: &mut Reader,
    at: usize,
    len: usize,
    i: usize,
    f: Fill,
) -> Result<Fill, Refusal>
    requires bounded { Bounded r.old.doc.now f }
    requires owner { i < f.rows }
    requires named { at + len ≤ length r.old.doc.now }
    ensures keeps { Keeps r.old r.new }
    ensures is { Children r.old.doc.now E.held E.docs at len i f
        (lent_to r.old) (lent_to r.new) result }
{
    let doc = r.doc;
    let classes = r.classes;
    let mut g = f;
    // The next child begins where the one before ends.
    loop {
        match step(doc, classes, g.at, at, len)? {
            Next::Close(closing) => return Ok(g.moved(closing.end)),
            Next::Start(c) => {
                let h = g.moved(c.end);
                g = E::child(r, &c, i, h)?;
            }
        }
    }
}

// All that follows the row of such an element, which is row i, up to the element's end.
#[tactic(auto, using(crate::proofs::Loop::all))]
pub fn contents<E: Element>(
    r: &mut Reader,
    c: &StartTag,
    i: usize,
    f: Fill,
) -> Result<Fill, Refusal>
    requires bounded { Bounded r.old.doc.now f }
    requires owner { i < f.rows }
    requires named { c.now.at + c.now.len ≤ length r.old.doc.now }
    ensures keeps { Keeps r.old r.new }
    ensures is { Contents r.old.doc.now E.held E.docs c.now i f (lent_to r.old) (lent_to r.new) result }
{
    if c.closes {
        return Ok(f);
    }
    children::<E>(r, c.at, c.len, i, f)
}
