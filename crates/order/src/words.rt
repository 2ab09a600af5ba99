// Words lent for work, read and written with no demand on places, and edges in them (candidate.rt says what an edge is).
// They are lent, since the library has no heap. The words and n are no struct: certificate.rt and index.rt, whose contracts speak of a slice,
// are given the same words.
ghost use Rattle.std.specs.Prelude.{◌≤◌, ◌<◌};
ghost use Rattle.order.specs.Table.{over};
ghost use Rattle.order.specs.Certificate.{Got, Kept, IsParent, MemberOf, LessOf};

use super::table::Table;

// One more if that is a word, else 0. No Option here and in `double`: no table has so many rows that the 0 is answered.
pub fn more(x: usize) -> usize
    ensures { result ≤ 4294967295 }
{
    if x < 4294967295 {
        return x + 1;
    }
    0
}

// Twice as much if that is a word, else 0.
pub fn double(x: usize) -> usize
    ensures { result ≤ 4294967295 }
{
    if x < 2147483648 {
        return x + x;
    }
    0
}

// Word k, or 0 past the end: no Option, since `get_or`, which the laws are over, answers so.
pub fn get(work: &[u32], k: usize) -> usize
    ensures { Got work.now k result }
{
    if k < work.len() {
        return work[k] as usize;
    }
    0
}

// Puts v at word k, if both fit.
pub fn put(work: &mut [u32], k: usize, v: usize)
    ensures { Kept k work.old work.new }
{
    if k < work.len() && v <= 4294967295 {
        work[k] = v as u32;
    }
}

// The words of a row past its first.
#[derive(Clone, Copy)]
pub enum Word {
    Second,
    Third,
}

// The place of the second or third word of row r, of n rows.
fn place(n: usize, word: Word, r: usize) -> usize
    ensures { n ≤ result }
{
    if 4294967296 <= r || 262144 < n {
        return n;
    }
    match word {
        Word::Second => n + r,
        Word::Third => n + n + r,
    }
}

// The second or third word of row r, of n rows.
pub fn get_at(work: &[u32], n: usize, word: Word, r: usize) -> usize
    ensures { result ≤ 4294967295 }
{
    get(work, place(n, word, r))
}

// Puts v at the second or third word of row r, of n rows, if it fits.
pub fn put_at(work: &mut [u32], n: usize, word: Word, r: usize, v: usize)
    ensures { Kept n work.old work.new }
{
    put(work, place(n, word, r), v);
}

// The row that row m is in.
#[tactic(auto, using(crate::proofs::Keeping::parents))]
pub fn parent(table: &Table, m: usize) -> Option<usize>
    ensures { over IsParent table.now m result }
{
    if table.n <= m {
        return None;
    }
    let up = (items::word(table.rows, m, 1) as usize).checked_sub(1)?;
    if up < table.n { Some(up) } else { None }
}

// The member of an edge.
pub fn member(e: usize) -> usize
    ensures { MemberOf e result }
{
    if e == 0 {
        return 0;
    }
    (e - 1) / 2
}

// Whether an edge is of what stands before `[]`.
pub fn is_less(e: usize) -> bool
    ensures { LessOf e result }
{
    e % 2 == 0
}

// Where the edge that comes after edge e in its list stands among the words of its member.
fn link_of(e: usize) -> Word {
    if is_less(e) {
        return Word::Third;
    }
    Word::Second
}

// The edge that comes after edge e in its list.
pub fn after(work: &[u32], n: usize, e: usize) -> usize
    ensures { result ≤ 4294967295 }
{
    get_at(work, n, link_of(e), member(e))
}

// Puts edge v after edge e.
pub fn put_after(work: &mut [u32], n: usize, e: usize, v: usize)
    ensures { Kept n work.old work.new }
{
    put_at(work, n, link_of(e), member(e), v);
}

// Calls f for each edge of a list, from its first on, with no demand on how the list goes on: 2n edges at most.
pub fn for_each_edge<F: FnMut(&mut [u32], usize)>(
    work: &mut [u32],
    n: usize,
    first: usize,
    mut f: F,
)
    requires few { n ≤ 262144 }
    requires callable { F.IsAlwaysCallable f }
{
    let mut e = first;
    for _ in 0..2 * n {
        if e == 0 {
            return;
        }
        let next = after(work, n, e);
        f(work, e);
        e = next;
    }
}
