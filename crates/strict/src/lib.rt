// The strict entry: a file is read as ever, and one that is accepted and has a breach of the strict profile is refused.
#![tactic(auto)]

ghost use Rattle.std.specs.Prelude.{length};
ghost use Rattle.document.specs.Whole.{room_of};
ghost use Rattle.breaches.specs.Outcome.{Accepted};
ghost use Rattle.strict.specs.Strict.{ReadsStrictly};
ghost use Rattle.strict.specs.Entry.{Judges};

use document::{Counts, Verdict};
use files::Reading;

// The verdict on a document that is accepted with these counts, and the buffers that go with it.
fn judge(
    document: &[u8],
    rows: &mut [u32],
    warnings: &mut [u32],
    text: &mut [u8],
    counts: Counts,
) -> Verdict
    requires { Accepted document.now }
    ensures { Judges document.now counts rows.old rows.new
        warnings.old warnings.new text.old text.new result }
{
    match breaches::least_breach(document) {
        None => Ok(counts),
        Some(place) => {
            let refusal = document::bare(29, place);
            reader::refuse(rows, warnings, text, refusal)
        }
    }
}

// Reads a file of the strict profile into the tables lent, as `reader::read` does. Both are entries, so the parameters stand in each.
pub fn read_strict(
    document: &[u8],
    rows: &mut [u32],
    warnings: &mut [u32],
    text: &mut [u8],
    decoded: &mut [u8],
) -> Reading
    ensures { ReadsStrictly document.now
        (room_of rows.old warnings.old text.old) (length decoded.old)
        rows.new warnings.new text.new decoded.new result }
{
    let reading = reader::read(document, rows, warnings, text, decoded);
    let end = reading.decoded;
    let verdict = match reading.verdict {
        Err(refusal) => Err(refusal),
        Ok(counts) => {
            if end == 0 {
                judge(document, rows, warnings, text, counts)
            } else {
                judge(&decoded[..end], rows, warnings, text, counts)
            }
        }
    };
    Reading {
        verdict,
        decoded: end,
    }
}
