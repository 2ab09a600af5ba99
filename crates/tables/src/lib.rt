// The tables that a caller lends: rows of 16 words, warnings of 4, text; and the triples that rows are made of.
// They are lent, here and in all crates, since the library has no heap.
#![tactic(auto)]

ghost use Rattle.std.specs.Prelude.{◌≡◌, [], ◌∷◌, ◌+◌, ◌<◌, ◌≤◌, ◌^◌, length};
ghost use Rattle.tables.specs.Table.{Put, Documented, Filled, Wiped};
ghost use Rattle.tables.specs.Copied.{Copied};
ghost use Rattle.tables.specs.Triple.{inside, resolved, shown};
ghost use Rattle.tables.specs.Place.{Inside, place};

// Source 1 is the document, 2 the text buffer.
#[derive(Clone, Copy)]
pub struct Triple {
    pub source: u32,
    pub start: u32,
    pub len: u32,
}

// Stores the words from a place on.
fn copy_words(table: &mut [u32], base: usize, words: &[u32])
    requires { base + length words.now ≤ length table.old }
    ensures { Copied base words.now table.old table.new }
{
    // Not `copy_from_slice`: what this promises of the table does not follow from what that promises of the part.
    for i in 0..words.len() {
        table[base + i] = words[i];
    }
}

// Adds a row where a whole one has room, and counts it in any case.
// The table and its count are passed apart, here and below: the count runs on past the room.
#[tactic(auto, using(crate::proofs::Tables::tables))]
pub fn put_words(table: &mut [u32], n: usize, words: &[u32]) -> usize
    requires few_rows { n < 1048576 }
    requires nonempty { 0 < length words.now }
    requires within_row { length words.now ≤ 16 }
    ensures { Put (length words.now) words.now n table.old table.new result }
{
    let count = n + 1;
    let base = n * words.len();
    let end = base + words.len();
    if end <= table.len() {
        copy_words(table, base, words);
    }
    count
}

// Adds a byte where there is room, and counts it in any case.
pub fn put_byte(text: &mut [u8], n: usize, b: u8) -> usize
    requires { n < 2 ^ 62 }
    ensures { Put 1 (b ∷ []) n text.old text.new result }
{
    if n < text.len() {
        text[n] = b;
    }
    n + 1
}

// Puts a docstring into row i, where a whole row has room there.
pub fn put_docstring(rows: &mut [u32], i: usize, start: u32, len: u32)
    requires { i < 1048576 }
    ensures { Documented i start len rows.old rows.new }
{
    let base = i * 16;
    if base + 16 <= rows.len() {
        rows[base + 11] = 1;
        rows[base + 12] = start;
        rows[base + 13] = len;
    }
}

// Puts a value at each place from a place on.
#[tactic(auto, using(crate::proofs::Tables::tables))]
fn fill<T: Copy>(table: &mut [T], from: usize, value: T)
    ensures { Filled value from table.old table.new }
{
    // Not std's `fill`: what this promises of the table does not follow from what that promises of the part.
    for i in from..table.len() {
        table[i] = value;
    }
}

// Puts 0 at each word from a place on.
#[tactic(auto, using(crate::proofs::Tables::wiped))]
pub fn clear_words(table: &mut [u32], from: usize)
    ensures { Wiped from table.old table.new }
{
    fill(table, from, 0)
}

// Puts 0 at each byte from a place on.
#[tactic(auto, using(crate::proofs::Tables::wiped))]
pub fn clear_bytes(text: &mut [u8], from: usize)
    ensures { Wiped from text.old text.new }
{
    fill(text, from, 0)
}

// Whether a triple leads to a part of its buffer.
pub fn is_inside(document: &[u8], text: &[u8], t: Triple) -> bool
    ensures { result ≡ inside document.now text.now t }
{
    let end = t.start as usize + t.len as usize;
    match t.source {
        1 => end <= document.len(),
        2 => end <= text.len(),
        _ => false,
    }
}

// The triple, or the document's empty beginning where it leads to no part.
pub fn resolve(document: &[u8], text: &[u8], t: Triple) -> Triple
    ensures { result ≡ resolved document.now text.now t }
{
    if is_inside(document, text, t) {
        return t;
    }
    Triple {
        source: 1,
        start: 0,
        len: 0,
    }
}

// The part that a triple inside its buffer leads to.
#[tactic(auto, using(crate::proofs::Triples::triples))]
fn part_of<'a>(document: &'a [u8], text: &'a [u8], t: Triple) -> &'a [u8]
    requires { Inside document.now text.now t }
    ensures bytes { result.now ≡ shown document.now text.now t }
    ensures place { result.ref_ptr ≡ place document.entry.ref_ptr text.entry.ref_ptr
        (resolved document.now text.now t) }
{
    let from = t.start as usize;
    let to = from + t.len as usize;
    if t.source == 1 {
        return &document[from..to];
    }
    &text[from..to]
}

// The part of the document or of the text that a triple leads to, never a copy.
#[tactic(auto, using(crate::proofs::Triples::triples))]
pub fn lookup<'a>(document: &'a [u8], text: &'a [u8], t: Triple) -> &'a [u8]
    ensures bytes { result.now ≡ shown document.now text.now t }
    ensures place { result.ref_ptr ≡ place document.entry.ref_ptr text.entry.ref_ptr
        (resolved document.now text.now t) }
{
    if is_inside(document, text, t) {
        return part_of(document, text, t);
    }
    &document[..0]
}
