// The usual tag: each value goes straight into the slot of its name's class. A tag with two names of a class, or a value that is changed or
// not closed, is gathered by `some`.
ghost use Rattle.std.specs.Prelude.{◌≤◌, ◌<◌, length, IfSome};
ghost use Rattle.attributes.specs.Outcome.{Gathers};
ghost use Rattle.attributes.specs.Slots.{High, Plain};

use crate::starts::start_at;
use crate::{TagValues, is_special, some};
use document::{Form, Value, Values};
use faults::Fault;
use scan::ClassTable;

// Of the 8 bytes from a place on, how many come before the first below 40, as quotes and special bytes are; 0 where fewer than 8 are left.
fn high(doc: &[u8], at: usize) -> usize
    requires inside { at < length doc.now }
    requires small { length doc.now ≤ 1048576 }
    ensures { High doc.now «at» result }
{
    if doc.len() < at + 8 {
        return 0;
    }
    slices::first_below(doc, at, 40)
}

// The end of a value that is shown as it stands: none where there is a special byte, or no quote closes it.
#[tactic(auto, using(crate::proofs::Starting::plains))]
fn plain_end(doc: &[u8], from: usize, quote: u8) -> Option<usize>
    requires inside { from ≤ length doc.now }
    requires small { length doc.now ≤ 1048576 }
    requires quote { «quote» ≤ 39 }
    ensures { IfSome result (Plain «quote» doc.now from) }
{
    let mut at = from;
    // Not a `for`: the next place is what `high` counted.
    while at < doc.len() {
        let k = high(doc, at);
        at += k;
        if k < 8 {
            let b = doc[at];
            if b == quote {
                return Some(at);
            }
            if is_special(b) {
                return None;
            }
            at += 1;
        }
    }
    None
}

// The attributes from a place on, and their values: 17 at one too many; then, one by one, duplicate before reference.
#[tactic(auto, using(crate::proofs::Slots::slotting))]
pub fn attributes(doc: &[u8], classes: &ClassTable, from: usize) -> Result<TagValues, Fault>
    requires inside { from ≤ length doc.now }
    requires small { length doc.now ≤ 1048576 }
    ensures { Gathers doc.now from result }
{
    // slots[7] is there so that two names of no meaning go to `some`, which compares them.
    let mut slots = [Value::ABSENT; 8];
    let mut at = from;
    // Not a `for`: where the next attribute begins is what was found.
    loop {
        let Some(s) = start_at(doc, classes, at) else {
            let v = Values {
                name: slots[0],
                ty: slots[1],
                value: slots[2],
                access: slots[3],
                direction: slots[4],
                suffix: slots[5],
                tp: slots[6],
            };
            return Ok(TagValues { end: at, values: v });
        };
        let class = s.class;
        let value = s.value;
        let Some(end) = plain_end(doc, value, s.quote) else {
            return some::gather(doc, classes, from);
        };
        let before = slots[class];
        if !before.is_absent() {
            return some::gather(doc, classes, from);
        }
        slots[class] = Value {
            at: value as u32,
            len: (end - value) as u32,
            form: Form::Plain,
        };
        at = end + 1;
    }
}
