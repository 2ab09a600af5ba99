// Whether the rows of a lent table are sound (docs/FORMAT.md, Sound rows).
#![tactic(auto)]

ghost use Rattle.std.specs.Prelude.{◌+◌, ◌*◌, ◌≤◌, ◌<◌, length};
ghost use Rattle.soundness.specs.Outcome.{Placed, Texts, RowGood, RowSound, Prepared, FirstBad, Judges, Admits};

mod ends;
mod kinds;
mod lent;
mod members;
pub mod order;
mod tally;
mod texts;

use ends::Look;
use faults::Fault;
use lent::{Buffer, Table};
use tally::Tally;

// Row 0 is a node with parent 0; any other row's parent comes before it and may hold its kind.
#[tactic(auto, using(crate::proofs::Rows::places))]
fn is_placed(rows: &[u32], i: usize) -> bool
    requires { i * 16 + 16 ≤ length rows.now }
    ensures { Placed rows.now i result }
{
    let kind = items::word(rows, i, 0);
    let parent = items::word(rows, i, 1) as usize;
    if i == 0 {
        return kind == document::kinds::NODE && parent == 0;
    }
    0 < parent && parent <= i && kinds::may_hold(items::word(rows, parent - 1, 0), kind)
}

// Words 2-13 of row i: the name, the value, the tp type and the docstring that its kind wants or may have.
#[tactic(auto, using(crate::proofs::Rows::texts))]
fn good_texts(table: &Table, i: usize) -> bool
    requires { i < table.now.n }
    ensures { Texts table.now.document.bytes.now table.now.text.bytes.now
        table.now.rows.now i result }
{
    let kind = items::word(table.rows, i, 0);
    texts::good_name(table, kind, items::triple(table.rows, i, 2))
        && texts::good_value(table, kind, items::triple(table.rows, i, 5))
        && texts::good_tp(table, kind, items::triple(table.rows, i, 8))
        && texts::good_doc(table, kind, items::triple(table.rows, i, 11))
}

// Whether row i is good, but for how many members it has.
#[tactic(auto, using(crate::proofs::Rows::whole))]
fn good_row(table: &Table, i: usize) -> bool
    requires { i < table.now.n }
    ensures { RowGood table.now.document.bytes.now table.now.text.bytes.now
        table.now.rows.now i result }
{
    is_placed(table.rows, i)
        && good_texts(table, i)
        && kinds::valid_word(
            items::word(table.rows, i, 0),
            items::word(table.rows, i, 14),
        )
        && (items::word(table.rows, i, 15) as usize) < table.document.bytes.len()
}

// Whether row i is sound; where the rows are not in document order there are tallies.
#[tactic(auto, using(crate::proofs::Rows::sound_rows))]
fn sound_row(table: &Table, tallies: Option<&[Tally]>, i: usize) -> bool
    requires inside { i < table.now.n }
    requires prepared { Prepared table.now.document.bytes.now table.now.text.bytes.now
        table.now.rows.now table.now.n tallies }
    ensures { RowSound table.now.document.bytes.now table.now.text.bytes.now
        table.now.rows.now table.now.n i result }
{
    if !good_row(table, i) {
        return false;
    }
    match tallies {
        None => members::is_counted(table, i),
        Some(counts) => tally::is_counted(table.rows, i, counts[i]),
    }
}

// How many bytes the triples of row i say that they lead to.
fn row_bytes(rows: &[u32], i: usize) -> usize
    requires { i * 16 + 16 ≤ length rows.now }
    ensures { result ≤ 17179869180 }
{
    let front = items::word(rows, i, 4) as usize + items::word(rows, i, 7) as usize;
    front + items::word(rows, i, 10) as usize + items::word(rows, i, 13) as usize
}

// How many bytes the triples of all rows say that they lead to.
fn bytes_told(table: &Table) -> usize {
    (0..table.n).map(|i| row_bytes(table.rows, i)).sum()
}

// Whether it is worth finding out how much of both buffers is UTF-8: the rows show more bytes than these have, or are many.
fn is_worth(table: &Table, bytes: usize) -> bool {
    32768 <= table.n || bytes < bytes_told(table)
}

// The first row that is not sound, if there is one, of buffers of which something may be known.
#[tactic(auto, using(crate::proofs::Rows::checks))]
fn first_known(table: &Table, tallies: Option<&[Tally]>) -> Result<(), usize>
    requires { Prepared table.now.document.bytes.now table.now.text.bytes.now
        table.now.rows.now table.now.n tallies }
    ensures { FirstBad table.now.document.bytes.now table.now.text.bytes.now
        table.now.rows.now table.now.n result }
{
    // `for` and not `find`: that a row is sound is used of the rows after it.
    for i in 0..table.n {
        if !sound_row(table, tallies, i) {
            return Err(i);
        }
    }
    Ok(())
}

// The first row that is not sound, if there is one, of buffers of which nothing is known yet. Before the texts are checked, so much at the
// beginning of both buffers is found to be UTF-8: all that is, where there is much to check; the ASCII alone, where there is a row for each
// 64 bytes; else nothing.
#[tactic(auto, using(crate::proofs::Rows::checks))]
fn first_unsound(table: &Table, tallies: Option<&[Tally]>) -> Result<(), usize>
    requires { Prepared table.now.document.bytes.now table.now.text.bytes.now
        table.now.rows.now table.now.n tallies }
    ensures { FirstBad table.now.document.bytes.now table.now.text.bytes.now
        table.now.rows.now table.now.n result }
{
    let document = table.document.bytes;
    let text = table.text.bytes;
    let bytes = document.len() + text.len();
    let look = if is_worth(table, bytes) {
        Look::Whole
    } else if bytes / 64 <= table.n {
        Look::Ascii
    } else {
        Look::Nothing
    };
    let looked = Table {
        document: Buffer {
            bytes: document,
            known: ends::known(document, look),
        },
        text: Buffer {
            bytes: text,
            known: ends::known(text, look),
        },
        rows: table.rows,
        n: table.n,
    };
    first_known(&looked, tallies)
}

// The first row that is not sound, if there is one, by tallies in room for N rows.
#[tactic(auto, using(crate::proofs::Rows::ways))]
fn first_by_tally<const N: usize>(table: &Table) -> Result<(), usize>
    requires room { table.now.n ≤ N }
    requires small { N ≤ 262144 }
    ensures { FirstBad table.now.document.bytes.now table.now.text.bytes.now
        table.now.rows.now table.now.n result }
{
    let mut tallies = [Tally::Empty; N];
    tally::count_all(table, &mut tallies);
    first_unsound(table, Some(&tallies))
}

// The first row that is not sound, if there is one, of rows in any order; tallies take little room where the rows are few.
#[tactic(auto, using(crate::proofs::Rows::ways))]
fn first_bad(table: &Table) -> Result<(), usize>
    ensures { FirstBad table.now.document.bytes.now table.now.text.bytes.now
        table.now.rows.now table.now.n result }
{
    if order::in_document_order(table.rows, table.n) {
        return first_unsound(table, None);
    }
    if table.n <= 4096 {
        return first_by_tally::<4096>(table);
    }
    first_by_tally::<262144>(table)
}

// Whether the first `claimed` rows of a table are sound; if not, the place of refusal 19.
#[tactic(auto, using(crate::proofs::Rows::judges))]
fn check<'a>(document: &'a [u8], text: &'a [u8], rows: &[u32], claimed: usize) -> Result<(), usize>
    ensures { Judges document.now text.now rows.now claimed result }
{
    if 262144 < claimed {
        return Err(262144);
    }
    let held = rows.len() / 16;
    if held < claimed {
        return Err(held);
    }
    let table = Table {
        document: Buffer {
            bytes: document,
            known: 0,
        },
        text: Buffer {
            bytes: text,
            known: 0,
        },
        rows,
        n: claimed,
    };
    first_bad(&table)
}

// Whether a document, a text and the first `claimed` rows of a table are admitted: refused with 2 for a document or a text of more than
// 1,048,576 bytes, with 19 for rows that are not sound.
// It answers no struct of the four: writers, trees and order put them into their own at the next step, each with what it knows of the rows.
pub fn admit<'a>(
    document: &'a [u8],
    text: &'a [u8],
    rows: &[u32],
    claimed: usize,
) -> Result<(), Fault>
    ensures { Admits document.now text.now rows.now claimed result }
{
    if 1048576 < document.len() || 1048576 < text.len() {
        return Err(Fault::new(2, 1048576));
    }
    check(document, text, rows, claimed).map_err(|place| Fault::new(19, place))
}
