// Messages: a refusal or a warning, with its document, as the bytes that the Rust's `message()` gives.
#![tactic(auto)]

ghost use Rattle.std.specs.Prelude.{◌≡◌};
ghost use Rattle.answers.specs.Text.{Makes};
ghost use Rattle.messages.specs.Message.{message_of, warning_message_of, widened};

use answers::TextAnswer;
use faults::Fault;
use parts::Part;
use tables::Triple;

mod parts;
mod shown;
mod texts;

// A triple of whatever words: source, start, length. Not `tables::Triple`: the words of the interface for C are of 64 bits.
#[derive(Clone, Copy)]
pub struct Wide {
    pub source: u64,
    pub start: u64,
    pub len: u64,
}

impl From<Triple> for Wide {
    ghost from_gives = { λ t w. w ≡ widened t };

    fn from(t: Triple) -> Wide {
        Wide {
            source: u64::from(t.source),
            start: u64::from(t.start),
            len: u64::from(t.len),
        }
    }
}

// A refusal as it was told: its number, the key, and two triples.
#[derive(Clone, Copy)]
pub struct Told {
    pub number: u64,
    pub key: u64,
    pub first: Wide,
    pub second: Wide,
}

// The message of a refusal. A document of more than 1,048,576 bytes is refused with 2, unless that is the number told; what has no message
// with 19, and one that has no room with 21 and the bytes needed.
pub fn message(document: &[u8], told: Told, out: &mut [u8]) -> TextAnswer
    ensures { Makes (message_of document.now told) out.old out.new result }
{
    let number = told.number;
    if number == 2 {
        return texts::plainly(number, out);
    }
    if 1048576 < document.len() {
        return answers::refuse(out, Fault::new(2, 1048576));
    }
    texts::told(Part { bytes: document }, told, out)
}

// The message of a warning: its reason, and where the element's name stands in the document. Refused as for `message`.
#[tactic(auto, using(crate::proofs::Entries::entries))]
pub fn warning_message(
    document: &[u8],
    reason: u32,
    start: u32,
    len: u32,
    out: &mut [u8],
) -> TextAnswer
    ensures { Makes (warning_message_of document.now reason start len)
        out.old out.new result }
{
    if 1048576 < document.len() {
        return answers::refuse(out, Fault::new(2, 1048576));
    }
    let name = Wide::from(Triple {
        source: 1,
        start,
        len,
    });
    texts::warned(Part { bytes: document }, reason, name, out)
}
