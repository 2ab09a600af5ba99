// What a message shows, and words around it.
ghost use Rattle.std.specs.Prelude.{◌≡◌, ◌<◌, length, IfSome, IfNone};
ghost use Rattle.answers.specs.Text.{text, wrong};
ghost use Rattle.messages.specs.Message.{is_shown, excerpt_of, or_unsound, unescaped_of, framed};
ghost use Rattle.references.specs.Unescape.{unescape};
ghost use Rattle.messages.specs.Steps.{Fills, Around, Unescaped, Mismatched, Unexpected};

use crate::Wide;
use crate::parts::{Frame, Part};
use answers::{TextAnswer, put};
use faults::Fault;

// Whether a triple shows something: its source is 1, it is inside the document, and what it shows is UTF-8.
#[tactic(auto, using(crate::proofs::Excerpts::excerpts))]
fn is_shown(document: &[u8], t: Wide) -> bool
    ensures { result ≡ is_shown document.now t }
{
    let most = document.len() as u64;
    if t.source != 1 || most < t.start || most - t.start < t.len {
        return false;
    }
    let start = t.start as usize;
    let end = start + t.len as usize;
    utf8::ill_formed(&document[start..end]) == end - start
}

// What a triple shows, if it shows something.
#[tactic(auto, using(crate::proofs::Excerpts::excerpts))]
fn excerpt(document: Part, t: Wide) -> Option<Part>
    ensures some { IfSome result (λ s. excerpt_of document.entry.bytes.now t ≡ text s.bytes.now) }
    ensures none { IfNone result (excerpt_of document.entry.bytes.now t ≡ wrong 19 0) }
{
    if is_shown(document.bytes, t) {
        let start = t.start as usize;
        let end = start + t.len as usize;
        return Some(Part {
            bytes: &document.bytes[start..end],
        });
    }
    None
}

// Words alone.
#[tactic(auto, using(crate::proofs::Framed::framing))]
pub fn plain(words: &[u8], out: &mut [u8]) -> TextAnswer
    requires { length words.now < 1024 }
    ensures { Fills (text words.now) out.old out.new result }
{
    let n = put::put_bytes(out, 0, words);
    answers::finish(out, n, Fault::new(21, n))
}

// Puts a part of a document, with words around it.
fn put_framed(part: Part, frame: Frame, out: &mut [u8]) -> usize
    ensures { Around frame.entry.before.now part.entry.bytes.now frame.entry.after.now
        0 out.old out.new result }
{
    let opened = put::put_bytes(out, 0, frame.before);
    let shown = put::put_bytes(out, opened, part.bytes);
    put::put_bytes(out, shown, frame.after)
}

// Words around a part of a document.
fn framed(part: Part, frame: Frame, out: &mut [u8]) -> TextAnswer
    ensures { Fills
        (framed frame.entry.before.now (text part.entry.bytes.now) frame.entry.after.now)
        out.old out.new result }
{
    let n = put_framed(part, frame, out);
    answers::finish(out, n, Fault::new(21, n))
}

// Words around what a triple shows.
pub fn named(document: Part, t: Wide, frame: Frame, out: &mut [u8]) -> TextAnswer
    ensures { Fills
        (framed frame.entry.before.now (excerpt_of document.entry.bytes.now t) frame.entry.after.now)
        out.old out.new result }
{
    match excerpt(document, t) {
        Some(shown) => framed(shown, frame, out),
        None => answers::refuse(out, Fault::new(19, 0)),
    }
}

// Puts what a raw value shows, with words around it.
fn put_unescaped(value: Part, frame: Frame, out: &mut [u8]) -> usize
    ensures { Unescaped frame.entry.before.now value.entry.bytes.now frame.entry.after.now
        out.old out.new result }
{
    let opened = put::put_bytes(out, 0, frame.before);
    let shown = references::put_shown(value.bytes, out, opened);
    put::put_bytes(out, shown, frame.after)
}

// Words around what a raw value shows.
fn unescaped(value: Part, frame: Frame, out: &mut [u8]) -> TextAnswer
    ensures { Fills
        (framed frame.entry.before.now (or_unsound (unescape value.entry.bytes.now)) frame.entry.after.now)
        out.old out.new result }
{
    match references::check(value.bytes) {
        Err(_) => answers::refuse(out, Fault::new(19, 0)),
        Ok(()) => {
            let n = put_unescaped(value, frame, out);
            answers::finish(out, n, Fault::new(21, n))
        }
    }
}

// Words around the raw value at a triple, unescaped.
// Not one function with `named`: both share a match of two lines, and what differs would be handed over with clauses of its own.
pub fn valued(document: Part, t: Wide, frame: Frame, out: &mut [u8]) -> TextAnswer
    ensures { Fills
        (framed frame.entry.before.now (unescaped_of (excerpt_of document.entry.bytes.now t))
        frame.entry.after.now)
        out.old out.new result }
{
    match excerpt(document, t) {
        Some(value) => unescaped(value, frame, out),
        None => answers::refuse(out, Fault::new(19, 0)),
    }
}

// 6, where both names are there.
fn mismatched(closing: Part, element: Part, out: &mut [u8]) -> TextAnswer
    ensures { Mismatched closing.entry.bytes.now element.entry.bytes.now
        (length out.old) out.new result }
{
    let tag = Frame {
        before: b"unexpected `</",
        after: b">` while parsing `<",
    };
    let first = put_framed(closing, tag, out);
    let second = put::put_bytes(out, first, element.bytes);
    let n = put::put_bytes(out, second, b">`");
    answers::finish(out, n, Fault::new(21, n))
}

// 6: the closing tag's name, and the open element's.
#[tactic(auto, using(crate::proofs::Framed::framing))]
pub fn unexpected(document: Part, closing: Wide, element: Wide, out: &mut [u8]) -> TextAnswer
    ensures { Unexpected document.entry.bytes.now closing element (length out.old)
        out.new result }
{
    // The second name is looked at only where the first is there: its bytes are gone through.
    let Some(tag) = excerpt(document, closing) else {
        return answers::refuse(out, Fault::new(19, 0));
    };
    match excerpt(document, element) {
        Some(name) => mismatched(tag, name, out),
        None => answers::refuse(out, Fault::new(19, 0)),
    }
}
