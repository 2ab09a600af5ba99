// Rows and warnings in the tables that a caller lends.
// A function takes the parts of a `Reader` that it needs and not all of it: then no clause has to say that the other parts stay as they are.
#![tactic(auto)]

ghost use Rattle.std.specs.Prelude.{◌≡◌, ◌*◌, ◌<◌, ◌≤◌};
ghost use Rattle.tables.specs.Table.{Put};
ghost use Rattle.document.specs.Outcome.{Lies};
ghost use Rattle.rows.specs.Outcome.{Places, placed, RowFits, RowPut, WarningFits, WarningPut};

use document::{Fill, Form, Value};

// A row's kind, its parent's row plus one, its word 14, and the place of the element's name, after `<`.
#[derive(Clone, Copy)]
pub struct Head {
    pub kind: u32,
    pub parent: usize,
    pub word: u32,
    pub at: usize,
}

impl Head {
    // The head of a row whose word 14 is 0.
    pub fn new(kind: u32, parent: usize, at: usize) -> Head
        ensures { result ≡ record { kind = kind; parent = parent; word = 0; at = at } }
    {
        Head {
            kind,
            parent,
            word: 0,
            at,
        }
    }
}

// The triple of a value, and how many bytes of text there are after it. No `Triple` in it: its three words go into the row one by one.
#[derive(Clone, Copy)]
struct Placed {
    source: u32,
    start: u32,
    len: u32,
    text: usize,
}

// The triple of a value; a changed one's shown bytes go into the text.
fn place(doc: &[u8], text: &mut [u8], v: Value, n: usize) -> Placed
    requires lies { Lies doc.now v }
    requires few { n ≤ 5 * 1048576 }
    ensures { Places doc.now v n text.old text.new result }
{
    match v.form {
        Form::Absent => Placed {
            source: 0,
            start: 0,
            len: 0,
            text: n,
        },
        Form::Plain => Placed {
            source: 1,
            start: v.at,
            len: v.len,
            text: n,
        },
        Form::Changed => {
            let m = references::put_shown(document::raw(doc, v), text, n);
            Placed {
                source: 2,
                start: n as u32,
                len: (m - n) as u32,
                text: m,
            }
        }
    }
}

// Adds the words of a row where a whole one has room, and counts it in any case.
fn put_placed(rows: &mut [u32], n: usize, head: Head, a: Placed, b: Placed, c: Placed) -> usize
    requires few { n < 1048576 }
    requires parent_small { head.parent ≤ 1048576 }
    requires after { 0 < head.at }
    requires place { head.at ≤ 1048576 }
    ensures { Put 16 (placed head a b c) n rows.old rows.new result }
{
    let row = [
        head.kind,
        head.parent as u32,
        a.source,
        a.start,
        a.len,
        b.source,
        b.start,
        b.len,
        c.source,
        c.start,
        c.len,
        0,
        0,
        0,
        head.word,
        (head.at - 1) as u32,
    ];
    tables::put_words(rows, n, &row)
}

// Adds a row where a whole one has room, and the text of its changed values; counts in any case.
// Inlined: the counts would be copied once more on the way back, and reading takes longer.
#[inline(always)]
pub fn put_row(
    doc: &[u8],
    rows: &mut [u32],
    text: &mut [u8],
    head: Head,
    name: Value,
    second: Value,
    tp: Value,
    f: Fill,
) -> Fill
    requires { RowFits doc.now head name second tp f }
    ensures { RowPut doc.now head name second tp f rows.old rows.new
        text.old text.new result }
{
    let a = place(doc, text, name, f.text);
    let b = place(doc, text, second, a.text);
    let c = place(doc, text, tp, b.text);
    Fill {
        rows: put_placed(rows, f.rows, head, a, b, c),
        text: c.text,
        ..f
    }
}

// Adds a warning where a whole one has room, and counts it in any case; `at` is the place of the element's name, after `<`.
pub fn put_warning(warnings: &mut [u32], reason: u32, at: usize, len: usize, f: Fill) -> Fill
    requires { WarningFits «at» len f }
    ensures { WarningPut reason «at» len f warnings.old warnings.new result }
{
    let words = [reason, (at - 1) as u32, at as u32, len as u32];
    Fill {
        warnings: tables::put_words(warnings, f.warnings, &words),
        ..f
    }
}
