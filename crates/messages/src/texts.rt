// The texts of messages: which words stand around what is shown.
ghost use Rattle.std.specs.Prelude.{length, IfSome, IfNone};
ghost use Rattle.messages.specs.Steps.{PlainText, NoText, Plainly, Missing, NoKey, Lacking, Turned, Malformed, NoReason, Warned};

use crate::parts::{Frame, Part};
use crate::{Told, Wide, shown};
use answers::TextAnswer;
use faults::Fault;

// The text of a number that shows nothing, if it has one.
#[tactic(auto, using(crate::proofs::Numbers::texts))]
fn plain_text(number: u64) -> Option<&'static [u8]>
    ensures some { IfSome result (λ s. PlainText number s.now) }
    ensures none { IfNone result (NoText number) }
{
    match number {
        1 => Some(b"not UTF-8"),
        2 => Some(b"over-long"),
        3 => Some(b"missing root element"),
        4 | 22..=25 => Some(b"malformed markup"),
        7 => Some(b"maximum element nesting depth exceeded"),
        9 => Some(b"unterminated entity reference"),
        13 => Some(b"bad name"),
        14 => Some(b"bad signature"),
        17 => Some(b"too many attributes"),
        18 => Some(b"no room in a lent table"),
        19 => Some(b"unsound rows"),
        20 => Some(b"not writable"),
        21 => Some(b"output short"),
        26 => Some(b"odd number of bytes"),
        27 => Some(b"lone surrogate"),
        28 => Some(b"circular types"),
        29 => Some(b"profile breach"),
        30 => Some(b"too many rows"),
        _ => None,
    }
}

// Numbers that show nothing.
#[tactic(auto, using(crate::proofs::Numbers::cutting))]
pub fn plainly(number: u64, out: &mut [u8]) -> TextAnswer
    ensures { Plainly number (length out.old) out.new result }
{
    match plain_text(number) {
        Some(text) => shown::plain(text, out),
        None => answers::refuse(out, Fault::new(19, 0)),
    }
}

// What 12 says before the element's name, by the key that is missing.
fn missing(key: u64) -> Option<&'static [u8]>
    ensures some { IfSome result (λ s. Missing key s.now) }
    ensures none { IfNone result (NoKey key) }
{
    match key {
        1 => Some(b"missing attribute `name` on `<"),
        2 => Some(b"missing attribute `type` on `<"),
        3 => Some(b"missing attribute `access` on `<"),
        4 => Some(b"missing attribute `value` on `<"),
        _ => None,
    }
}

// 12: the key that is missing, and the element's name.
#[tactic(auto, using(crate::proofs::Numbers::cutting))]
fn lacking(document: Part, name: Wide, key: u64, out: &mut [u8]) -> TextAnswer
    ensures { Lacking document.entry.bytes.now name key (length out.old) out.new result }
{
    match missing(key) {
        Some(before) => shown::named(document, name, Frame::new(before, b">`"), out),
        None => answers::refuse(out, Fault::new(19, 0)),
    }
}

// A refusal.
pub fn told(document: Part, told: Told, out: &mut [u8]) -> TextAnswer
    ensures { Turned document.entry.bytes.now told (length out.old) out.new result }
{
    let number = told.number;
    let first = told.first;
    let second = told.second;
    match number {
        5 => shown::named(document, first, Frame::new(b"missing `</", b">`"), out),
        6 => shown::unexpected(document, first, second, out),
        8 => shown::named(
            document,
            first,
            Frame::new(b"duplicate attribute `", b"`"),
            out,
        ),
        10 => shown::named(document, first, Frame::new(b"unknown entity `", b"`"), out),
        11 => shown::named(
            document,
            first,
            Frame::new(b"invalid character reference `", b"`"),
            out,
        ),
        12 => lacking(document, first, told.key, out),
        15 => shown::valued(
            document,
            first,
            Frame::new(b"invalid property access `", b"`"),
            out,
        ),
        16 => shown::valued(
            document,
            first,
            Frame::new(b"invalid argument direction `", b"`"),
            out,
        ),
        _ => plainly(number, out),
    }
}

// What a warning says after the name of a malformed element, by its reason.
#[tactic(auto, using(crate::proofs::Numbers::texts), unfolding(crate::specs::Message::framed))]
fn malformed(reason: u32) -> Option<&'static [u8]>
    ensures some { IfSome result (λ s. Malformed reason s.now) }
    ensures none { IfNone result (NoReason reason) }
{
    match reason {
        2 => Some(b">` ignored: missing attribute `name`"),
        3 => Some(b">` ignored: missing attribute `type`"),
        4 => Some(b">` ignored: invalid signature in `type`"),
        5 => Some(b">` ignored: an enumvalue is missing its `suffix` or `value` attribute"),
        6 => Some(
            b">` ignored: a member is missing its `name` or `type` attribute, or has an invalid signature",
        ),
        7 => Some(b">` ignored: no members"),
        8 => Some(b">` ignored: expected exactly 2 members"),
        9 => Some(b">` ignored: the key is not a basic type"),
        _ => None,
    }
}

// A warning's reason, and the element's name.
#[tactic(auto, using(crate::proofs::Numbers::cutting))]
pub fn warned(document: Part, reason: u32, name: Wide, out: &mut [u8]) -> TextAnswer
    ensures { Warned document.entry.bytes.now reason name (length out.old) out.new result }
{
    if reason == 1 {
        return shown::named(
            document,
            name,
            Frame::new(b"unsupported element `<", b">` ignored"),
            out,
        );
    }
    match malformed(reason) {
        Some(after) => shown::named(
            document,
            name,
            Frame::new(b"malformed element `<", after),
            out,
        ),
        None => answers::refuse(out, Fault::new(19, 0)),
    }
}
