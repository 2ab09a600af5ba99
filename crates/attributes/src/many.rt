// A tag of more than 16 attributes: an array of 256, which is the limit. An attribute is compared with those before it only where the entry
// of its name's hash is taken.
ghost use Rattle.std.specs.Prelude.{◌≡◌, ◌+◌, ◌≤◌, length};
ghost use Rattle.attributes.specs.Twins.{EntryIs, mark};
ghost use Rattle.attributes.specs.Outcome.{Gathers};

use crate::{Attribute, TagValues, attribute_at, gathered};
use faults::Fault;
use scan::ClassTable;

// The entry of a name, n bytes from a place on.
#[tactic(auto, using(crate::proofs::Marking::entries))]
fn entry(doc: &[u8], at: u32, n: u32) -> usize
    requires named { «at» + n ≤ length doc.now }
    requires small { length doc.now ≤ 1048576 }
    ensures { EntryIs doc.now «at» n result }
{
    let from = at as usize;
    let to = from + n as usize;
    slices::hash(&doc[from..to]) as usize % 4096
}

// The attribute with a mark.
fn marked(a: Attribute, twin: bool) -> Attribute
    ensures { result ≡ mark a «twin» }
{
    Attribute { twin, ..a }
}

// The attributes from a place on: 17 where there is one more than the limit.
// Not one function with some's `gather`: this one marks each attribute by a table, and answers one too many with a fault.
pub fn gather(doc: &[u8], classes: &ClassTable, from: usize) -> Result<TagValues, Fault>
    requires inside { from ≤ length doc.now }
    requires small { length doc.now ≤ 1048576 }
    ensures { Gathers doc.now from result }
{
    // An array and a count, and no ArrayVec: what is gathered goes on as a slice.
    let mut attrs = [Attribute::BLANK; 256];
    let mut seen = [false; 4096];
    let mut n = 0;
    let mut at = from;
    // Not a `for`: where the next attribute begins is what was found.
    loop {
        match attribute_at(doc, classes, at) {
            None => {
                return gathered::finish(doc, &attrs[..n], at);
            }
            Some(found) => {
                let a = found.attribute;
                if 256 <= n {
                    return Err(Fault::new(17, a.name as usize));
                }
                let e = entry(doc, a.name, a.name_len);
                attrs[n] = marked(a, seen[e]);
                seen[e] = true;
                n += 1;
                at = found.end;
            }
        }
    }
}
