// A tag of no more than 16 attributes: an array of that many.
ghost use Rattle.std.specs.Prelude.{◌≤◌, length};
ghost use Rattle.attributes.specs.Outcome.{Gathers};

use crate::{Attribute, TagValues, attribute_at, gathered, many};
use faults::Fault;
use scan::ClassTable;

// The attributes from a place on. Where there is one more they are gathered once more, in a larger array.
pub fn gather(doc: &[u8], classes: &ClassTable, from: usize) -> Result<TagValues, Fault>
    requires inside { from ≤ length doc.now }
    requires small { length doc.now ≤ 1048576 }
    ensures { Gathers doc.now from result }
{
    // An array and a count, and no ArrayVec: what is gathered goes on as a slice.
    let mut attrs = [Attribute::BLANK; 16];
    let mut n = 0;
    let mut at = from;
    // Not a `for`: where the next attribute begins is what was found.
    loop {
        match attribute_at(doc, classes, at) {
            None => {
                return gathered::finish(doc, &attrs[..n], at);
            }
            Some(found) => {
                let a = found.attribute;
                if 16 <= n {
                    return many::gather(doc, classes, from);
                }
                attrs[n] = a;
                n += 1;
                at = found.end;
            }
        }
    }
}
