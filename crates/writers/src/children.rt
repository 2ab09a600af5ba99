// The children of a row: whether there are some, where the next one is, where their own children end.
ghost use Rattle.std.specs.Prelude.{◌≡◌, true, ◌*◌, ◌+◌, ◌≤◌, ◌<◌, length};
ghost use Rattle.items.specs.Words.{Word};
ghost use Rattle.writers.specs.Rows.{Child, SomeChild, SomeChildren, NextChild, Stray, Held, Ordered, ChildOf, Last, RunEnd, Reach};
ghost use Rattle.soundness.specs.Outcome as outcome;

use document::kinds;

// The parent's row of row i, plus one.
fn parent_at(rows: &[u32], i: usize) -> usize
    requires few { i < 262144 }
    requires held { i * 16 + 16 ≤ length rows.now }
    ensures { Word rows.now i 1 result }
{
    items::word(rows, i, 1) as usize
}

// Whether row i is of a kind, and its parent's row plus one is p.
pub fn is_child(rows: &[u32], i: usize, kind: u32, p: usize) -> bool
    requires few { i < 262144 }
    requires held { i * 16 + 16 ≤ length rows.now }
    ensures { Child rows.now kind p i result }
{
    items::word(rows, i, 0) == kind && parent_at(rows, i) == p
}

// Whether a row from one on up to another is of a kind, and its parent's row plus one is p.
pub fn has_child(rows: &[u32], from: usize, to: usize, kind: u32, p: usize) -> bool
    requires onward { from ≤ to }
    requires few { to ≤ 262144 }
    requires held { to * 16 ≤ length rows.now }
    ensures { SomeChild rows.now kind p from to result }
{
    (from..to).any(|k| is_child(rows, k, kind, p))
}

// Whether an arg or an annotation of row p less one is among the rows from row p on up to another.
pub fn has_children(rows: &[u32], p: usize, to: usize) -> bool
    requires onward { p ≤ to }
    requires few { to ≤ 262144 }
    requires held { to * 16 ≤ length rows.now }
    ensures { SomeChildren rows.now p to result }
{
    has_child(rows, p, to, kinds::ARG, p) || has_child(rows, p, to, kinds::ANNOTATION, p)
}

// The first row from one on up to another whose parent's row plus one is p, or the other.
// Not an Option: callers want where a range of rows ends, and with no such row that is the other.
pub fn next_child(rows: &[u32], from: usize, to: usize, p: usize) -> usize
    requires onward { from ≤ to }
    requires few { to ≤ 262144 }
    requires held { to * 16 ≤ length rows.now }
    ensures { NextChild rows.now p from to result }
{
    (from..to).find(|&k| parent_at(rows, k) == p).unwrap_or(to)
}

// Whether a row whose parent's row plus one is q stands in a child of row p less one that is not the last.
fn is_stray(rows: &[u32], p: usize, last: usize, q: usize) -> bool
    requires few { q ≤ 262144 }
    requires last { last < 262144 }
    requires held { q * 16 ≤ length rows.now }
    ensures { Stray rows.now p last q result }
{
    p < q && parent_at(rows, q - 1) == p && q != last + 1
}

// Whether what stands in a child of row i stands before the next child.
pub fn is_ordered(rows: &[u32], n: usize, i: usize) -> bool
    requires rows { Held rows.now n }
    requires within { i < n }
    ensures { Ordered rows.now n i result }
{
    let p = i + 1;
    let mut last = i;
    for k in p..n {
        let q = parent_at(rows, k);
        if q == p {
            last = k;
        } else if is_stray(rows, p, last, q) {
            return false;
        }
    }
    true
}

// Where the children of row j end, itself a child of row p less one.
// Not an Option, as above; `ordered` is a bool, for no value goes with that answer.
pub fn last_child(rows: &[u32], n: usize, j: usize, p: usize, ordered: bool) -> usize
    requires rows { Held rows.now n }
    requires within { j < n }
    requires child { ChildOf rows.now n p j ordered }
    ensures last { Last rows.now n j result }
    ensures next { ordered ≡ true → NextChild rows.now p (j + 1) n result }
{
    if ordered {
        next_child(rows, j + 1, n, p)
    } else {
        n
    }
}

// The first row after row i whose parent stands before row i, or n: where what stands in row i ends, in document order.
// Not an Option: a range of rows ends at n too. Not one with `next_child`: the tests differ, and each has its clause.
fn run_end(rows: &[u32], n: usize, i: usize) -> usize
    requires rows { Held rows.now n }
    requires within { i < n }
    ensures { RunEnd rows.now n i result }
{
    (i + 1..n).find(|&k| parent_at(rows, k) <= i).unwrap_or(n)
}

// A row from which on no row stands in row i, nor in what stands in row i. It is near i where the rows are in document order, else it is n.
// Not an Option: a range of rows ends at n too.
pub fn reach(rows: &[u32], n: usize, i: usize, ordered: bool) -> usize
    requires rows { Held rows.now n }
    requires within { i < n }
    requires order { outcome.Orders rows.now n ordered }
    ensures past { Reach rows.now n i result }
    ensures own { ordered ≡ true → RunEnd rows.now n i result }
{
    if ordered { run_end(rows, n, i) } else { n }
}
