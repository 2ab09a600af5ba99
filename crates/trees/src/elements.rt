// The bytes of one element: its start tag up to its end, its docstring, its closing tag.
ghost use Rattle.std.specs.Prelude.{◌≡◌, true, ◌+◌, ◌≤◌, ◌<◌, ◌^◌, length};
ghost use Rattle.items.specs.Sound.{valid_word};
ghost use Rattle.items.specs.Written.{pairs};
ghost use Rattle.writer.specs.Counts.{CountFits};
ghost use Rattle.trees.specs.Written.{tag_of, name_key, value_key, word_pairs};
ghost use Rattle.trees.specs.Steps.{StartPut, DocstringPut, ClosePut, keyed, NamePut, GivenHeld, GivenPut, AttributePut, AttributesPut, TaggedPut, WordHeld, WordPut};

use crate::lent::Table;
use answers::put::put_bytes;
use document::kinds;
use scan::ClassTable;

// The name of the tag of a kind.
#[tactic(auto, unfolding(crate::specs::Written::tag_of))]
fn tag_name(kind: u32) -> &'static [u8]
    ensures is { result.now ≡ tag_of kind }
    ensures short { length result.now ≤ 20 }
{
    match kind {
        kinds::NODE => b"node",
        kinds::INTERFACE => b"interface",
        kinds::METHOD => b"method",
        kinds::PROPERTY => b"property",
        kinds::SIGNAL => b"signal",
        kinds::ANNOTATION => b"annotation",
        kinds::ARG => b"arg",
        kinds::SIMPLE_TYPE => b"tp:simple-type",
        kinds::ENUM => b"tp:enum",
        kinds::ENUMVALUE => b"tp:enumvalue",
        kinds::STRUCT => b"tp:struct",
        kinds::MEMBER => b"tp:member",
        _ => b"tp:mapping",
    }
}

// The name of the tag of a kind, after some bytes.
#[tactic(auto, using(crate::proofs::Texts::names))]
fn put_name(kind: u32, before: &[u8], out: &mut [u8], n: usize) -> usize
    requires { CountFits (n + length before.now) 20 }
    ensures { NamePut kind before.now n out.old out.new result }
{
    let begun = put_bytes(out, n, before);
    put_bytes(out, begun, tag_name(kind))
}

// An attribute of a value, after its space, key, `=` and quote.
#[tactic(auto, using(crate::proofs::Texts::givens))]
fn put_given(value: &[u8], before: &[u8], classes: &ClassTable, out: &mut [u8], n: usize) -> usize
    requires { GivenHeld value.now before.now n }
    ensures { GivenPut value.now before.now n out.old out.new result }
{
    let put = writer::put_value(out, n, before, value, classes);
    put_bytes(out, put, b"\"")
}

// An attribute whose value is the triple from word k on of row i, if it is there.
#[tactic(auto, using(crate::proofs::Texts::attribute))]
fn put_attribute(
    table: &Table,
    i: usize,
    k: usize,
    before: &[u8],
    out: &mut [u8],
    n: usize,
) -> usize
    requires within { i < table.now.n }
    requires room { n + 6291520 < 2 ^ 62 }
    requires word { k ≤ 11 }
    requires short { length before.now ≤ 20 }
    ensures { AttributePut table.now.document.now table.now.text.now table.now.rows.now i k
        before.now n out.old out.new result }
{
    let t = items::triple(table.rows, i, k);
    if items::is_absent(t) {
        return n;
    }
    let value = tables::lookup(table.document, table.text, t);
    put_given(value, before, &table.classes, out, n)
}

// What stands before the value of words 2-4, and of words 5-7. Two functions, for they share no text.
fn name_before(kind: u32) -> &'static [u8]
    ensures is { result.now ≡ keyed (name_key kind) }
    ensures short { length result.now ≤ 20 }
{
    match kind {
        kinds::ENUMVALUE => b" suffix=\"",
        _ => b" name=\"",
    }
}

fn value_before(kind: u32) -> &'static [u8]
    ensures is { result.now ≡ keyed (value_key kind) }
    ensures short { length result.now ≤ 20 }
{
    match kind {
        kinds::ANNOTATION | kinds::ENUMVALUE => b" value=\"",
        _ => b" type=\"",
    }
}

// Word 14 of a property or an arg, as an attribute, if there is one.
#[tactic(auto, using(crate::proofs::Parts::words))]
fn word_text(kind: u32, word: u32) -> &'static [u8]
    requires { valid_word kind word ≡ true }
    ensures is { result.now ≡ pairs (word_pairs kind word) }
    ensures short { length result.now ≤ 20 }
{
    match kind {
        kinds::PROPERTY => match word {
            1 => b" access=\"read\"",
            2 => b" access=\"write\"",
            _ => b" access=\"readwrite\"",
        },
        kinds::ARG => match word {
            0 => b"",
            1 => b" direction=\"in\"",
            _ => b" direction=\"out\"",
        },
        _ => b"",
    }
}

// Word 14 of row i as an attribute, if there is one.
#[tactic(auto, using(crate::proofs::Texts::told))]
fn put_word(rows: &[u32], i: usize, kind: u32, out: &mut [u8], n: usize) -> usize
    requires { WordHeld rows.now i kind n }
    ensures { WordPut rows.now i kind n out.old out.new result }
{
    put_bytes(out, n, word_text(kind, items::word(rows, i, 14)))
}

// The attributes of row i but for word 14.
#[tactic(auto, using(crate::proofs::Texts::attributes_of))]
fn put_attributes(table: &Table, i: usize, kind: u32, out: &mut [u8], n: usize) -> usize
    requires within { i < table.now.n }
    requires room { n + 18875000 < 2 ^ 62 }
    ensures { AttributesPut table.now.document.now table.now.text.now table.now.rows.now i kind n
        out.old out.new result }
{
    let named = put_attribute(table, i, 2, name_before(kind), out, n);
    let valued = put_attribute(table, i, 5, value_before(kind), out, named);
    put_attribute(table, i, 8, b" tp:type=\"", out, valued)
}

// The start tag of row i up to word 14.
#[tactic(auto, using(crate::proofs::Texts::tagging))]
fn put_tagged(table: &Table, i: usize, kind: u32, out: &mut [u8], n: usize) -> usize
    requires within { i < table.now.n }
    requires room { n + 18876000 < 2 ^ 62 }
    ensures { TaggedPut table.now.document.now table.now.text.now table.now.rows.now i kind n
        out.old out.new result }
{
    let tagged = put_name(kind, b"<", out, n);
    put_attributes(table, i, kind, out, tagged)
}

// The start tag of row i, up to its end.
#[tactic(auto, using(crate::proofs::Texts::starts))]
pub fn put_start(table: &Table, i: usize, out: &mut [u8], put: usize) -> usize
    requires within { i < table.now.n }
    requires room { put + 33554432 < 2 ^ 62 }
    ensures { StartPut table.now.document.now table.now.text.now table.now.rows.now i put
        out.old out.new result }
{
    let kind = items::word(table.rows, i, 0);
    let told = put_tagged(table, i, kind, out, put);
    put_word(table.rows, i, kind, out, told)
}

// The docstring of row i, unless it is empty.
#[tactic(auto, using(crate::proofs::Texts::docs))]
pub fn put_docstring(table: &Table, i: usize, out: &mut [u8], put: usize) -> usize
    requires within { i < table.now.n }
    requires room { put + 33554432 < 2 ^ 62 }
    ensures { DocstringPut table.now.document.now table.now.text.now table.now.rows.now i put
        out.old out.new result }
{
    let t = items::triple(table.rows, i, 11);
    if t.len == 0 {
        return put;
    }
    let begun = put_bytes(out, put, b"<tp:docstring>");
    let shown = tables::lookup(table.document, table.text, t);
    let told = put_bytes(out, begun, shown);
    put_bytes(out, told, b"</tp:docstring>")
}

// The closing tag of a kind.
#[tactic(auto, using(crate::proofs::Texts::names))]
pub fn put_close(kind: u32, out: &mut [u8], put: usize) -> usize
    requires { put + 33554432 < 2 ^ 62 }
    ensures { ClosePut kind put out.old out.new result }
{
    let named = put_name(kind, b"</", out, put);
    put_bytes(out, named, b">")
}
