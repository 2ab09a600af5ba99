// An index of type definitions by a hash of their names, and looking names up in it. A word for each bucket stands for its first row, a word
// for each definition for the next row of its bucket: the row plus one in the low 19 bits, the first 13 bits of its name's hash in the others;
// 0 for none, since a word lent for work holds a number alone. Each chain of rows ascends. The bits of the hash spare most looks at rows of
// other names.
ghost use Rattle.std.specs.Prelude.{◌+◌, ◌*◌, ◌≤◌, ◌<◌, length};
ghost use Rattle.slices.specs.Hash.{HashIs};
ghost use Rattle.order.specs.Table.{of, over, shown_rows};
ghost use Rattle.order.specs.Steps.{HasName, FirstNamed, Target};
ghost use Rattle.order.specs.Index.{HashAt, Spread, WordIs, RowOf, Tagged, IndexedFrom, Indexed, Built};

use super::definitions;
use super::table::Table;

// An index of a table: a word for each bucket, and a word for each row.
#[derive(Clone, Copy)]
pub struct Index<'a, 't> {
    pub table: &'a Table<'t>,
    pub heads: &'a [u32],
    pub work: &'a [u32],
    ghost indexed: { over Indexed table.now heads.now work.now },
}

// The hash of the name of row i.
#[tactic(auto, using(crate::proofs::Indexing::hashes))]
fn hash_at(table: &Table, i: usize) -> u32
    requires { i * 16 + 16 ≤ length table.now.rows.now }
    ensures { of HashAt table.now i result }
{
    slices::hash(tables::lookup(table.document, table.text, items::triple(table.rows, i, 2)))
}

// The bucket of a hash, of so many.
fn bucket(f: u32, buckets: usize) -> usize
    requires { 0 < buckets }
    ensures { Spread f buckets result }
{
    f as usize % buckets
}

// The word for row k, whose name has hash f.
fn word_for(k: usize, f: u32) -> u32
    requires { k < 262144 }
    ensures { WordIs k f result }
{
    k as u32 + 1 + f / 524288 * 524288
}

// Puts row k before the rows of its bucket, if it is a type definition.
fn enter(table: &Table, heads: &mut [u32], work: &mut [u32], k: usize)
    requires member { k < table.now.n }
    requires indexed { over IndexedFrom table.now (k + 1) heads.old work.old }
    ensures { over Built table.now k heads.old work.old heads.new work.new }
{
    if definitions::is_definition(table, k) {
        let f = hash_at(table, k);
        let h = bucket(f, heads.len());
        work[k] = heads[h];
        heads[h] = word_for(k, f);
    }
}

// Makes the index of n rows, from the last one down. Of the words lent for work the first n may be written.
#[tactic(auto, using(crate::proofs::Indexing::building))]
pub fn build(table: &Table, heads: &mut [u32], work: &mut [u32])
    requires some_heads { 0 < length heads.old }
    requires work_room { table.now.n ≤ length work.old }
    ensures { over Built table.now 0 heads.old work.old heads.new work.new }
{
    tables::clear_words(heads, 0);
    for k in (0..table.n).rev() {
        enter(table, heads, work, k);
    }
}

// The row that a word stands for.
#[tactic(auto, using(crate::proofs::Indexing::standing))]
fn row_of(word: u32) -> Option<usize>
    ensures { RowOf word result }
{
    (word as usize % 524288).checked_sub(1)
}

// Whether row k is a type definition of a name, of hash f: the hash bits in the row's word rule out most rows of other names.
#[tactic(auto, using(crate::proofs::Indexing::tags))]
fn is_named(table: &Table, k: usize, word: u32, f: u32, name: &[u8]) -> bool
    requires held { k * 16 + 16 ≤ length table.now.rows.now }
    requires tagged { of Tagged table.now k word }
    requires hashed { HashIs name.now f }
    ensures { of HasName table.now k name.now result }
{
    if word / 524288 != f / 524288 {
        return false;
    }
    definitions::has_name(table, k, name)
}

// The first row that is a type definition of a name: along the rows of the name's bucket.
#[tactic(auto, using(crate::proofs::Indexing::follows))]
fn first_named(by_name: &Index, name: &[u8]) -> Option<usize>
    ensures { FirstNamed (shown_rows by_name.now.table.now) name.now by_name.now.table.now.n result }
{
    let f = slices::hash(name);
    let h = bucket(f, by_name.heads.len());
    let mut word = by_name.heads[h];
    // A cursor: the next row is the one that the word of this one stands for.
    while let Some(k) = row_of(word) {
        if is_named(by_name.table, k, word, f, name) {
            return Some(k);
        }
        word = by_name.work[k];
    }
    None
}

// The row that the tp type of row m names, as it is or less the `[]` at its end.
// Beside definitions' `find_target` it shares `name_sought`; a trait over the two searches would be longer than the two lines here.
// Inlined: the order of a small table takes longer by a call for each member.
#[inline(always)]
#[tactic(auto, using(crate::proofs::Finding::targets))]
pub fn find_target(by_name: &Index, less: bool, m: usize) -> Option<usize>
    requires { m * 16 + 16 ≤ length by_name.now.table.now.rows.now }
    ensures { over Target by_name.now.table.now less m result }
{
    let name = definitions::name_sought(by_name.table, less, m)?;
    first_named(by_name, name)
}
