// Rows of 16 words put down as columns, each word less the one above it, and the inverse.
#![tactic(auto)]

ghost use Rattle.std.specs.Prelude.{◌≡◌, ℕ, ◌+◌, ◌*◌, ◌<◌, ◌≤◌, List, length};
ghost use Rattle.tables.specs.Table.{Rep};
ghost use Rattle.columns.specs.Words.{in_rows, in_columns, difference, restored, columns_of, rows_of};
ghost use Rattle.columns.specs.Put.{Roomy, Block, Puts, word_above, restored_above, Below, Lays};
ghost use Rattle.columns.specs.Entries.{checked, refused, to_columns, to_rows, Says, Makes, Finishes, Checks};
ghost use Rattle.columns.specs.Places.{lays_columns, lays_rows};

use faults::Fault;

// Word k of the row above row r, and 0 above row 0.
fn word_above(rows: &[u32], k: usize, r: usize) -> u32
    requires word { k < 16 }
    requires held { r * 16 ≤ length rows.now }
    requires few { r ≤ 262144 }
    ensures { result ≡ word_above rows.now k r }
{
    if r == 0 { 0 } else { rows[(r - 1) * 16 + k] }
}

// Puts column k of a block: each word less the one above it.
#[tactic(auto, using(crate::proofs::Putting::putting))]
fn put_column(rows: &[u32], count: usize, k: usize, from: usize, to: usize, out: &mut [u32])
    requires word { k < 16 }
    requires block { Block from to count }
    requires room { Roomy count rows.now out.old }
    ensures { Puts (in_columns count) (difference rows.now) k (k + 1) from to out.old
        out.new }
{
    let start = k * count;
    let mut above = word_above(rows, k, from);
    for r in from..to {
        let word = rows[r * 16 + k];
        let less = word.wrapping_sub(above);
        out[start + r] = less;
        above = word;
    }
}

// Puts word k of each row of a block: the word above it plus the column's word.
// Not one with `put_column`, which takes the word above from its source, and this from what it put.
#[tactic(auto, using(crate::proofs::Putting::putting))]
fn put_words(columns: &[u32], count: usize, k: usize, from: usize, to: usize, out: &mut [u32])
    requires word { k < 16 }
    requires block { Block from to count }
    requires room { Roomy count columns.now out.old }
    requires above { word_above out.old k from ≡ restored_above count columns.now k from }
    ensures { Puts in_rows (restored count columns.now) k (k + 1) from to out.old
        out.new }
{
    let start = k * count;
    let mut above = word_above(out, k, from);
    for r in from..to {
        above = above.wrapping_add(columns[start + r]);
        out[r * 16 + k] = above;
    }
}

// A way of putting words down: where word k of row r goes among `count` rows, which word it is, and all the words.
trait Way {
    ghost place: { ℕ → ℕ → ℕ → ℕ };

    ghost word: { ℕ → List ℕ → ℕ → ℕ → ℕ };

    ghost words: { ℕ → List ℕ → List ℕ };

    // Puts word k of each row of a block, below the rows that are put.
    fn put(source: &[u32], count: usize, k: usize, from: usize, to: usize, out: &mut [u32])
        requires word { k < 16 }
        requires block { Block from to count }
        requires room { Roomy count source.now out.old }
        requires below { Below (place count) (word count source.now) from out.old }
        ensures { Puts (place count) (word count source.now) k (k + 1) from to
            out.old out.new };

    // Each word has a place of its own, and together they are all the words.
    ghost lays: { Lays place word words };
}

struct ToColumns;

impl Way for ToColumns {
    ghost place = { in_columns };

    ghost word = { λ _. difference };

    ghost words = { columns_of };

    ghost lays = { lays_columns };

    fn put(source: &[u32], count: usize, k: usize, from: usize, to: usize, out: &mut [u32]) {
        put_column(source, count, k, from, to, out);
    }
}

struct ToRows;

impl Way for ToRows {
    ghost place = { λ _. in_rows };

    ghost word = { restored };

    ghost words = { rows_of };

    ghost lays = { lays_rows };

    #[tactic(auto, using(crate::proofs::Putting::putting))]
    fn put(source: &[u32], count: usize, k: usize, from: usize, to: usize, out: &mut [u32]) {
        put_words(source, count, k, from, to, out);
    }
}

// Puts the rows of a block, a word of each at a time, below those that are put.
#[tactic(auto, using(crate::proofs::Filling::filling))]
fn put_block<W: Way>(source: &[u32], count: usize, from: usize, to: usize, out: &mut [u32])
    requires block { Block from to count }
    requires room { Roomy count source.now out.old }
    requires below { Below (W.place count) (W.word count source.now) from out.old }
    ensures { Puts (W.place count) (W.word count source.now) 0 16 from to out.old
        out.new }
{
    for k in 0..16 {
        W::put(source, count, k, from, to, out);
    }
}

// Where the block from a row on ends: 16 rows further on, or at the last.
fn block_end(from: usize, count: usize) -> usize
    requires { from < count }
    ensures { (from < result) × (result ≤ count) }
{
    if count - from < 16 {
        return count;
    }
    from + 16
}

// Puts the words of all rows, a block at a time.
// A cursor and not `step_by`, and `block_end` not by `min`: by either columns of small tables take longer.
#[tactic(auto, using(crate::proofs::Filling::filling))]
fn put_all<W: Way>(source: &[u32], count: usize, out: &mut [u32])
    requires { Roomy count source.now out.old }
    ensures { Rep 16 out.new count (W.words count source.now) }
{
    let mut from = 0;
    while from < count {
        let to = block_end(from, count);
        put_block::<W>(source, count, from, to, out);
        from = to;
    }
}

// How many rows there are, if they are few enough and both buffers long enough.
#[tactic(auto, using(crate::proofs::Answers::steps))]
fn check(held: usize, room: usize, count: u64) -> Result<usize, Fault>
    ensures { Checks count held room result }
{
    if 262144 < count {
        return Err(Fault::new(30, 262144));
    }
    let n = count as usize;
    if held < n * 16 || room < n * 16 {
        return Err(Fault::new(18, n));
    }
    Ok(n)
}

// Leaves zeros. Not one with order's `refuse`: answer and clause differ in type.
#[tactic(auto, using(crate::proofs::Answers::steps))]
fn refuse(out: &mut [u32], fault: Fault) -> Result<(), Fault>
    ensures { Says (refused fault.number fault.place) (length out.old) out.new
        result }
{
    tables::clear_words(out, 0);
    Err(fault)
}

// Leaves the words of n rows and zeros after them.
#[tactic(auto, using(crate::proofs::Answers::steps))]
fn finish(out: &mut [u32], n: usize) -> Result<(), Fault>
    requires { n ≤ 262144 }
    ensures { Finishes n out.old out.new result }
{
    tables::clear_words(out, n * 16);
    Ok(())
}

// Puts words down in a way, or refuses them.
#[tactic(auto, using(crate::proofs::Answers::entries))]
fn put_down<W: Way>(source: &[u32], count: u64, out: &mut [u32]) -> Result<(), Fault>
    ensures { Says
        (checked count (length source.now) (length out.old) (W.words count source.now))
        (length out.old) out.new result }
{
    match check(source.len(), out.len(), count) {
        Ok(n) => {
            put_all::<W>(source, n, out);
            finish(out, n)
        }
        Err(fault) => refuse(out, fault),
    }
}

// Puts rows down as columns. More than 262,144 rows are refused with 30, and then a source or an output of fewer than 16 times `count` words
// with 18.
pub fn columns(rows: &[u32], count: u64, out: &mut [u32]) -> Result<(), Fault>
    ensures { Makes (to_columns count rows.now) out.old out.new result }
{
    put_down::<ToColumns>(rows, count, out)
}

// Puts columns down as rows again. Refused as for `columns`.
pub fn rows(columns: &[u32], count: u64, out: &mut [u32]) -> Result<(), Fault>
    ensures { Makes (to_rows count columns.now) out.old out.new result }
{
    put_down::<ToRows>(columns, count, out)
}
