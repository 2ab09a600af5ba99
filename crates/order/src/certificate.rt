// A check of what candidate.rt and components.rt leave: a number for each definition, an order, or a circle. What it says is proved.
// For n rows: work[n + r] is the number of row r. work[2n + r] is an edge of row r (candidate.rt): on a circle the one that leads on, in an
// order the one that the row waited for last, 0 for none (a word holds a number alone); then work[n + m] of that edge's member m is where the
// run of smaller rows begins that stands before row r.
ghost use Rattle.std.specs.Prelude.{◌+◌, ◌≤◌, ◌<◌, true, false};
ghost use Rattle.order.specs.Table.{over, shown_rows};
ghost use Rattle.order.specs.Steps.{Within};
ghost use Rattle.order.specs.Certificate.{EdgeFalls, RowFalls, Members, Follows, IsCircle, RunIs, Runs, RunBefore, Above, IsNoted, IsNext, PlacedBefore, IsAscending, IsPlaced, ArePlaced, IsOrder};

use super::index::Index;
use super::table::Table;
use super::{counts, definitions, index, words};
use document::kinds;

// ---- numbers

// Whether edge e of row i, if it leads to a row, leads to a smaller number, or to an equal one where i is p or greater. Where p is n, the edge
// that is noted for row i also has to lead to a row no place before the run of row i.
fn edge_falls(n: usize, work: &[u32], p: usize, i: usize, e: usize, target: Option<usize>) -> bool
    requires few { n ≤ 262144 }
    requires row { i < n }
    requires target { Within target n }
    ensures { EdgeFalls n work.now p i e target result }
{
    let noted = words::get(work, n + n + i);
    let Some(j) = target else {
        return noted != e;
    };
    let below = words::get(work, n + j);
    let own = words::get(work, n + i);
    if p < n {
        return below < own || (p <= i && below == own);
    }
    below < own && (noted != e || run(work, n, i) <= below + 1)
}

// Whether row m is a member whose tp type no row defines; or none, if it is a member and an edge of it leads otherwise than
// `edge_falls` asks for.
#[tactic(auto, using(crate::proofs::Checking::row_falling))]
fn row_falls(by_name: &Index, p: usize, m: usize) -> Option<bool>
    requires { m < by_name.now.table.now.n }
    ensures { over RowFalls by_name.now.table.now by_name.now.work.now p m result }
{
    if items::word(by_name.table.rows, m, 0) != kinds::MEMBER {
        return Some(false);
    }
    let i = words::parent(by_name.table, m)?;
    let whole = index::find_target(by_name, false, m);
    let less = index::find_target(by_name, true, m);
    if !edge_falls(by_name.table.n, by_name.work, p, i, m + m + 1, whole) {
        return None;
    }
    if !edge_falls(by_name.table.n, by_name.work, p, i, m + m + 2, less) {
        return None;
    }
    Some(counts::bears_none(by_name.table, m, whole, less))
}

// The number of members whose tp type no row defines, if the numbers are as said.
#[tactic(auto, using(crate::proofs::Checking::fallings))]
pub fn check_members(by_name: &Index, p: usize) -> Option<usize>
    ensures { over Members by_name.now.table.now by_name.now.work.now p result }
{
    let mut count = 0;
    // `for` and not `try_fold`: `add` needs a fact of the turns before, that the count is no greater than the row.
    for m in 0..by_name.table.n {
        let unnamed = row_falls(by_name, p, m)?;
        count = counts::add(count, unnamed);
    }
    Some(count)
}

// ---- a circle

// The row to which the edge of row r leads.
fn follow(by_name: &Index, r: usize) -> Option<usize>
    requires { r < by_name.now.table.now.n }
    ensures { Follows (shown_rows by_name.now.table.now) by_name.now.table.now.n r result }
{
    let e = words::get(by_name.work, by_name.table.n + by_name.table.n + r);
    let m = words::member(e);
    if m < by_name.table.n && definitions::is_member(by_name.table, r, m) {
        index::find_target(by_name, words::is_less(e), m)
    } else {
        None
    }
}

// Whether the edges lead from row p to itself.
pub fn is_circle(by_name: &Index, p: usize) -> bool
    requires { p < by_name.now.table.now.n }
    ensures { IsCircle (shown_rows by_name.now.table.now) p result }
{
    let mut r = p;
    for _ in 0..by_name.table.n {
        match follow(by_name, r) {
            Some(next) if next == p => return true,
            Some(next) => r = next,
            None => return false,
        }
    }
    false
}

// ---- an order

// Where the run of smaller rows before row r begins, as it is noted: at the first place if no edge is.
#[tactic(auto, using(crate::proofs::Keeping::runs))]
pub fn run(work: &[u32], n: usize, r: usize) -> usize
    requires few { n ≤ 262144 }
    requires word { r ≤ 4294967295 }
    ensures { RunIs n work.now r result }
{
    let e = words::get(work, n + n + r);
    if e == 0 {
        return 0;
    }
    words::get(work, n + words::member(e))
}

// Where the run of rows before place k that are smaller than row r begins.
#[tactic(auto, using(crate::proofs::Checking::rising))]
pub fn run_before(work: &[u32], n: usize, out: &[u32], k: usize, r: usize) -> usize
    requires { n ≤ 262144 }
    ensures { RunBefore n work.now out.now k r result }
{
    let mut j = k;
    // A cursor: the next place is where the run of the row before this one begins.
    while 0 < j {
        let x = words::get(out, j - 1);
        // Two tests and not one: the run of a row that is not smaller is not read.
        if r <= x {
            return j;
        }
        let next = run(work, n, x);
        if j <= next {
            return j;
        }
        j = next;
    }
    0
}

// Whether the rows from a place on to place k are smaller than row r.
fn is_above(work: &[u32], n: usize, out: &[u32], k: usize, r: usize, from: usize) -> bool
    requires few { n ≤ 262144 }
    requires runs { Runs n work.now out.now k }
    ensures { Above out.now k r from result }
{
    run_before(work, n, out, k, r) <= from
}

// Whether the edge that is noted for row r is one of its own, if its run does not begin at the first place.
fn is_noted(table: &Table, work: &[u32], r: usize, from: usize) -> bool
    requires { r < table.now.n }
    ensures { over IsNoted table.now work.now r from result }
{
    let m = words::member(words::get(work, table.n + table.n + r));
    from == 0 || (m < table.n && definitions::is_member(table, r, m))
}

// Whether the row at place k is a definition, has the place's number, and could not be given out before a greater one.
fn is_next(table: &Table, work: &[u32], out: &[u32], k: usize) -> bool
    requires { over PlacedBefore table.now work.now out.now k }
    ensures { over IsNext table.now work.now out.now k result }
{
    let r = words::get(out, k);
    if table.n <= r || !definitions::is_definition(table, r) || words::get(work, table.n + r) != k {
        return false;
    }
    let from = run(work, table.n, r);
    is_noted(table, work, r, from) && is_above(work, table.n, out, k, r, from)
}

// Whether the row at each place is a definition, has the place's number, and could not be given out before a greater one.
fn is_ascending(table: &Table, work: &[u32], out: &[u32]) -> bool
    ensures { over IsAscending table.now work.now out.now result }
{
    // `for` and not `all`: each place is judged where the places before it are in order.
    for k in 0..out.len() {
        if !is_next(table, work, out, k) {
            return false;
        }
    }
    true
}

// Whether row r stands at the place of its number, if it is a definition.
fn is_placed(table: &Table, work: &[u32], out: &[u32], r: usize) -> bool
    requires { r < table.now.n }
    ensures { IsPlaced (shown_rows table.now) table.now.n work.now out.now r result }
{
    let k = words::get(work, table.n + r);
    !definitions::is_definition(table, r) || (k < out.len() && words::get(out, k) == r)
}

// Whether each row that is a definition stands at the place of its number.
fn are_placed(table: &Table, work: &[u32], out: &[u32]) -> bool
    ensures { ArePlaced (shown_rows table.now) table.now.n work.now out.now result }
{
    (0..table.n).all(|r| is_placed(table, work, out, r))
}

// Whether these rows are the order.
pub fn is_order(table: &Table, work: &[u32], out: &[u32]) -> bool
    ensures { over IsOrder table.now work.now out.now result }
{
    are_placed(table, work, out) && is_ascending(table, work, out)
}
