// The library for C: the public entries, each answer written into the array that is lent last (include/introspection.h). Its functions are
// exported by introspection_c.
#![tactic(auto)]

ghost use Rattle.std.specs.Prelude.{◌≡◌, length};
ghost use Rattle.tables.specs.declared.Triple.{Triple};
ghost use Rattle.columns.specs.Entries.{to_columns, to_rows};
ghost use Rattle.references.specs.Entries.{escaping, unescaping};
ghost use Rattle.document.specs.Whole.{room_of};
ghost use Rattle.items.specs.Several.{several_writing, several_ends};
ghost use Rattle.items.specs.Writing.{writing};
ghost use Rattle.trees.specs.Writing.{tree_writing};
ghost use Rattle.introspection.specs.Words.{verdict_words, answer_words, columns_words, part_words, Reads, ReadsStrictly, MakesText, MakesWords, MakesOrder, MakesItems, lookup_words, message_by, warning_message_by, refusal_words, order_words};
ghost use Rattle.order.specs.Ordering as order;

use answers::TextAnswer;
use document::{Refusal, Verdict};
use faults::Fault;
use messages::{Told, Wide};
use order::Ordered;
use tables::Triple;

// What a refusal's message shows goes with it, each excerpt as a triple; then how many bytes were decoded.
fn refusal_words(x: Refusal, decoded: usize) -> [u64; 16]
    ensures { result ≡ refusal_words x decoded }
{
    let shown = document::shown_by(x.number);
    [
        x.number as u64,
        x.place as u64,
        0,
        0,
        0,
        u64::from(0 < shown),
        x.first.at as u64,
        x.first.len as u64,
        u64::from(1 < shown),
        x.second.at as u64,
        x.second.len as u64,
        x.key as u64,
        decoded as u64,
        0,
        0,
        0,
    ]
}

// What reading says of a file: the counts of those accepted, or the refusal; then how many bytes were decoded.
fn verdict_words(v: Verdict, decoded: usize) -> [u64; 16]
    ensures { result ≡ verdict_words v decoded }
{
    match v {
        Err(refusal) => refusal_words(refusal, decoded),
        Ok(counts) => [
            0,
            0,
            counts.rows as u64,
            counts.text as u64,
            counts.warnings as u64,
            0,
            0,
            0,
            0,
            0,
            0,
            0,
            decoded as u64,
            0,
            0,
            0,
        ],
    }
}

// Number, place, bytes written: of a text that was made, or why none was.
fn answer_words(a: TextAnswer) -> [u64; 3]
    ensures { result ≡ answer_words a }
{
    match a {
        Ok(written) => [0, 0, written as u64],
        Err(fault) => [fault.number as u64, fault.place as u64, 0],
    }
}

// Number and place: of a copy between rows and columns, both 0 where it was made.
fn columns_words(a: Result<(), Fault>) -> [u64; 2]
    ensures { result ≡ columns_words a }
{
    match a {
        Ok(()) => [0, 0],
        Err(fault) => [fault.number as u64, fault.place as u64],
    }
}

// Number, place, definitions, members whose tp type no row defines.
fn order_words(a: Result<Ordered, Fault>) -> [u64; 4]
    ensures { result ≡ order_words a }
{
    match a {
        Ok(ordered) => [0, 0, ordered.definitions as u64, ordered.unnamed as u64],
        Err(fault) => [fault.number as u64, fault.place as u64, 0, 0],
    }
}

// Whether the part lies in what was lent, as 1 or 0; then its source, start and length.
fn part_words(yes: bool, t: Triple) -> [u64; 4]
    ensures { result ≡ part_words yes t }
{
    [
        u64::from(yes),
        t.source as u64,
        t.start as u64,
        t.len as u64,
    ]
}

// Reads a file into the tables lent; one in UTF-16 is decoded into the fourth buffer.
pub fn introspection_read(
    document: &[u8],
    rows: &mut [u32],
    warnings: &mut [u32],
    text: &mut [u8],
    decoded: &mut [u8],
    answer: &mut [u64; 16],
)
    ensures { Reads document.now
        (room_of rows.old warnings.old text.old) (length decoded.old)
        rows.new warnings.new text.new decoded.new answer.new }
{
    let r = reader::read(document, rows, warnings, text, decoded);
    let v = r.verdict;
    *answer = verdict_words(v, r.decoded);
}

// Reads a file of the strict profile, as `introspection_read` does. Both are functions for C, so the parameters stand in each.
pub fn introspection_read_strict(
    document: &[u8],
    rows: &mut [u32],
    warnings: &mut [u32],
    text: &mut [u8],
    decoded: &mut [u8],
    answer: &mut [u64; 16],
)
    ensures { ReadsStrictly document.now
        (room_of rows.old warnings.old text.old) (length decoded.old)
        rows.new warnings.new text.new decoded.new answer.new }
{
    let reading = strict::read_strict(document, rows, warnings, text, decoded);
    let verdict = reading.verdict;
    *answer = verdict_words(verdict, reading.decoded);
}

// The message of a refusal, by the words of a reader's answer, or of whatever content.
pub fn introspection_message(
    document: &[u8],
    refusal: &[u64; 16],
    output: &mut [u8],
    answer: &mut [u64; 3],
)
    ensures { MakesText (message_by document.now refusal.now)
        output.old output.new answer.new }
{
    let first = Wide {
        source: refusal[5],
        start: refusal[6],
        len: refusal[7],
    };
    let second = Wide {
        source: refusal[8],
        start: refusal[9],
        len: refusal[10],
    };
    let told = Told {
        number: refusal[0],
        key: refusal[11],
        first,
        second,
    };
    let a = messages::message(document, told, output);
    *answer = answer_words(a);
}

// The message of a warning, by its words, or of whatever content.
pub fn introspection_warning_message(
    document: &[u8],
    warning: &[u32; 4],
    output: &mut [u8],
    answer: &mut [u64; 3],
)
    ensures { MakesText (warning_message_by document.now warning.now)
        output.old output.new answer.new }
{
    let a = messages::warning_message(document, warning[0], warning[2], warning[3], output);
    *answer = answer_words(a);
}

// Escapes a value.
pub fn introspection_escape(value: &[u8], output: &mut [u8], answer: &mut [u64; 3])
    ensures { MakesText (escaping value.now)
        output.old output.new answer.new }
{
    let a = references::escape(value, output);
    *answer = answer_words(a);
}

// Unescapes a value.
pub fn introspection_unescape(value: &[u8], output: &mut [u8], answer: &mut [u64; 3])
    ensures { MakesText (unescaping value.now)
        output.old output.new answer.new }
{
    let a = references::unescape(value, output);
    *answer = answer_words(a);
}

// Writes the item of a row.
pub fn introspection_write<'a>(
    document: &'a [u8],
    text: &'a [u8],
    rows: &[u32],
    claimed: u64,
    row: u64,
    output: &mut [u8],
    answer: &mut [u64; 3],
)
    ensures { MakesText (writing document.now text.now rows.now claimed row)
        output.old output.new answer.new }
{
    let a = writers::write(document, text, rows, claimed as usize, row as usize, output);
    *answer = answer_words(a);
}

// Writes the element of a row with all under it.
pub fn introspection_write_tree<'a>(
    document: &'a [u8],
    text: &'a [u8],
    rows: &[u32],
    claimed: u64,
    row: u64,
    output: &mut [u8],
    answer: &mut [u64; 3],
)
    ensures { MakesText (tree_writing document.now text.now rows.now claimed row)
        output.old output.new answer.new }
{
    let a = trees::write_tree(document, text, rows, claimed as usize, row as usize, output);
    *answer = answer_words(a);
}

// The part that a triple leads to.
pub fn introspection_lookup(
    document: &[u8],
    text: &[u8],
    source: u32,
    start: u32,
    len: u32,
    answer: &mut [u64; 4],
)
    ensures { answer.new ≡ lookup_words document.now text.now
        (record { source = source; start = start; len = len }) }
{
    let t = Triple { source, start, len };
    let yes = tables::is_inside(document, text, t);
    let part = tables::resolve(document, text, t);
    *answer = part_words(yes, part);
}

// Puts rows down as columns.
pub fn introspection_columns(rows: &[u32], count: u64, columns: &mut [u32], answer: &mut [u64; 2])
    ensures { MakesWords (to_columns count rows.now)
        columns.old columns.new answer.new }
{
    let a = columns::columns(rows, count, columns);
    *answer = columns_words(a);
}

// Puts columns down as rows again.
pub fn introspection_rows(columns: &[u32], count: u64, rows: &mut [u32], answer: &mut [u64; 2])
    ensures { MakesWords (to_rows count columns.now)
        rows.old rows.new answer.new }
{
    let a = columns::rows(columns, count, rows);
    *answer = columns_words(a);
}

// Gives out the type definitions in an order where each comes after those that it uses.
pub fn introspection_order<'a>(
    document: &'a [u8],
    text: &'a [u8],
    rows: &[u32],
    claimed: u64,
    work: &mut [u32],
    output: &mut [u32],
    answer: &mut [u64; 4],
)
    ensures { MakesOrder (order.ordering document.now text.now rows.now claimed)
        output.old work.old output.new work.new answer.new }
{
    let a = order::order_types(document, text, rows, claimed as usize, work, output);
    *answer = order_words(a);
}

// Writes the items of several rows after one check.
pub fn introspection_write_items<'a>(
    document: &'a [u8],
    text: &'a [u8],
    rows: &[u32],
    claimed: u64,
    asked: &[u32],
    output: &mut [u8],
    ends: &mut [u32],
    answer: &mut [u64; 3],
)
    ensures { MakesItems
        (several_writing document.now text.now rows.now claimed asked.now)
        (several_ends document.now text.now rows.now claimed asked.now)
        output.old ends.old output.new ends.new answer.new }
{
    let a = writers::write_items(document, text, rows, claimed as usize, asked, output, ends);
    *answer = answer_words(a);
}
