// The whole tree of a row: the element of the row with all under it, written in groups (docs/FORMAT.md, Trees).
// A buffer and a count are passed, and no `Writer`: each clause would also have to say that it holds the same borrow, as a `&mut [u8]` does by itself.
#![tactic(auto)]

ghost use Rattle.std.specs.Prelude.{length};
ghost use Rattle.trees.specs.Writing.{WritesTree};
ghost use Rattle.trees.specs.Steps.{Held};
ghost use Rattle.trees.specs.Walk.{Writable, WritesSound};

use answers::TextAnswer;
use document::kinds;
use faults::Fault;

mod children;
mod elements;
mod lent;
mod walk;

// Whether rows of a kind are written by themselves: all but the parts of a definition.
fn is_writable(kind: u32) -> bool
    ensures { Writable kind result }
{
    !matches!(kind, kinds::ENUMVALUE | kinds::MEMBER)
}

// The tree of a row of sound rows, or why it is not written.
#[tactic(auto, using(crate::proofs::Entry::rows))]
fn write_sound<'a>(
    document: &'a [u8],
    text: &'a [u8],
    rows: &[u32],
    claimed: usize,
    row: usize,
    out: &mut [u8],
) -> TextAnswer
    requires { Held document.now text.now rows.now claimed }
    ensures { WritesSound document.now text.now rows.now claimed row out.old out.new result }
{
    if claimed <= row || !is_writable(items::word(rows, row, 0)) {
        return answers::refuse(out, Fault::new(20, row));
    }
    match walk::put_tree(document, text, rows, claimed, row, out) {
        Err(place) => answers::refuse(out, Fault::new(7, place)),
        Ok(n) => answers::finish(out, n, Fault::new(21, n)),
    }
}

// Writes the element of a row with all under it: any row but an enumvalue or a member. Refused with 2 for a document or a text of more than
// 1,048,576 bytes, with 19 for rows that are not sound, with 20 for no such row or one that is a part of a definition, with 7 at the first row, as
// written, that would be the 1,025th open node, and with 21 and the bytes needed where there is no room.
// Beside `writers::write`: what is shared is a match of two lines.
#[tactic(auto, using(crate::proofs::Entry::entry))]
pub fn write_tree<'a>(
    document: &'a [u8],
    text: &'a [u8],
    rows: &[u32],
    claimed: usize,
    row: usize,
    out: &mut [u8],
) -> TextAnswer
    ensures { WritesTree document.now text.now rows.now claimed row
        (length out.old) out.new result }
{
    match soundness::admit(document, text, rows, claimed) {
        Err(fault) => answers::refuse(out, fault),
        Ok(()) => write_sound(document, text, rows, claimed, row, out),
    }
}
