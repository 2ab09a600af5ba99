// Passing over elements: skipped ones, and docstrings.
// A function takes the parts of a `Reader` that it needs and not all of it: then no clause has to say that the other parts stay as they are.
#![tactic(auto)]

ghost use Rattle.std.specs.Prelude.{◌≡◌, ◌+◌, ◌-◌, ◌≤◌, ◌<◌, length, take, drop};
ghost use Rattle.utf8.specs.WellFormed.{ill_formed};
ghost use Rattle.document.specs.Outcome.{Passes, Ready, Ignores, Captures, Others};
ghost use Rattle.skip.specs.Outcome.{Puts};

use document::{Closing, Fill, Next, Refusal, StartTag, kinds};
use scan::ClassTable;
use tags::step;

// Passes over the rest of an element whose name stands at a place. `depth`: how many of the skipped elements are open, this one among them.
#[tactic(auto, using(crate::proofs::Passing::deep))]
fn skip_element(
    doc: &[u8],
    classes: &ClassTable,
    from: usize,
    at: usize,
    len: usize,
    depth: usize,
) -> Result<Closing, Refusal>
    requires inside { from ≤ length doc.now }
    requires named { at + len ≤ length doc.now }
    requires small { length doc.now ≤ 1048576 }
    requires deep { depth ≤ 1024 }
    ensures { Passes doc.now from at len depth result }
{
    let mut here = from;
    // The next tag begins where the one before ends.
    loop {
        match step(doc, classes, here, at, len)? {
            Next::Close(closing) => return Ok(closing),
            Next::Start(t) => {
                if t.closes {
                    here = t.end;
                } else {
                    if depth == 1024 {
                        return Err(document::bare(7, t.end));
                    }
                    let inner = skip_element(doc, classes, t.end, t.at, t.len, depth + 1)?;
                    here = inner.end;
                }
            }
        }
    }
}

// An element that its parent does not hold: its warning, then its content.
pub fn skip_unsupported(
    doc: &[u8],
    classes: &ClassTable,
    warnings: &mut [u32],
    c: &StartTag,
    f: Fill,
) -> Result<Fill, Refusal>
    requires ready { Ready doc.now c.now f }
    ensures { Ignores doc.now c.now f warnings.old warnings.new result }
{
    let g = rows::put_warning(warnings, 1, c.at, c.len, f);
    if c.closes {
        return Ok(g);
    }
    let closing = skip_element(doc, classes, c.end, c.at, c.len, 1)?;
    Ok(g.moved(closing.end))
}

// Puts the trimmed content between two places into row i, unless it is empty.
#[tactic(auto, using(crate::proofs::Captured::capturing))]
fn capture(doc: &[u8], rows: &mut [u32], from: usize, lt: usize, i: usize)
    requires ordered { from ≤ lt }
    requires within { lt ≤ length doc.now }
    requires small { length doc.now ≤ 1048576 }
    requires row_small { i < 1048576 }
    requires formed { ill_formed (take (lt - from) (drop from doc.now))
        ≡ length (take (lt - from) (drop from doc.now)) }
    ensures { Puts doc.now from lt i rows.old rows.new }
{
    let s = utf8::trim(&doc[from..lt]);
    let start = s.start;
    let end = s.end;
    if start < end {
        tables::put_docstring(rows, i, (from + start) as u32, (end - start) as u32);
    }
}

// A docstring for row i.
#[tactic(auto, using(crate::proofs::Captured::documents))]
fn docstring(
    doc: &[u8],
    classes: &ClassTable,
    rows: &mut [u32],
    c: &StartTag,
    i: usize,
    f: Fill,
) -> Result<Fill, Refusal>
    requires ready { Ready doc.now c.now f }
    requires owner { i < f.rows }
    ensures { Captures doc.now c.now i f rows.old rows.new result }
{
    if c.closes {
        return Ok(f);
    }
    let from = c.end;
    let closing = skip_element(doc, classes, from, c.at, c.len, 1)?;
    capture(doc, rows, from, closing.lt, i);
    Ok(f.moved(closing.end))
}

// A docstring for row i, or an element that its parent does not hold.
pub fn docstring_or_skip(
    doc: &[u8],
    classes: &ClassTable,
    rows: &mut [u32],
    warnings: &mut [u32],
    c: &StartTag,
    i: usize,
    f: Fill,
) -> Result<Fill, Refusal>
    requires ready { Ready doc.now c.now f }
    requires owner { i < f.rows }
    ensures { Others doc.now c.now i f rows.old rows.new warnings.old
        warnings.new result }
{
    if c.kind == kinds::DOCSTRING {
        return docstring(doc, classes, rows, c, i, f);
    }
    skip_unsupported(doc, classes, warnings, c, f)
}
