// The first row on a circle, by a search from each row.
ghost use Rattle.std.specs.Prelude.{◌≤◌, ◌<◌};
ghost use Rattle.order.specs.Table.{over, shown_rows};
ghost use Rattle.order.specs.Steps.{Within, Unmarked, RowReached, MemberReached, ReachedIn, TargetsReached, IsReached, NextReached, OnCircle, Clear, CircleFound};

use super::definitions;
use super::table::Table;

// What a search says of a row: it is not reached; it is reached; or it is followed, so that all rows that it uses are reached too.
#[derive(Clone, Copy)]
enum Mark {
    Unreached,
    Reached,
    Followed,
}

// Marks a row, if there is one, as reached.
#[tactic(auto, using(crate::proofs::Reaching::reach))]
fn reach(marks: &mut [Mark; 262144], row: Option<usize>)
    requires { Within row 262144 }
    ensures { RowReached row marks.old marks.new }
{
    if let Some(j) = row
        && matches!(marks[j], Mark::Unreached)
    {
        marks[j] = Mark::Reached;
    }
}

// Marks the rows that member m refers to as reached.
#[tactic(auto, using(crate::proofs::Reaching::reach_members))]
fn reach_member(table: &Table, marks: &mut [Mark; 262144], m: usize)
    requires { m < table.now.n }
    ensures { over MemberReached table.now m marks.old marks.new }
{
    let whole = definitions::find_target(table, false, m);
    let less = definitions::find_target(table, true, m);
    reach(marks, whole);
    reach(marks, less);
}

// Marks the rows that row m refers to as reached, if it is a member of row i.
fn reach_in(table: &Table, marks: &mut [Mark; 262144], i: usize, m: usize)
    requires row { i < table.now.n }
    requires member { m < table.now.n }
    ensures { over ReachedIn table.now i m marks.old marks.new }
{
    if definitions::is_member(table, i, m) {
        reach_member(table, marks, m);
    }
}

// Marks the rows that row i uses as reached.
fn reach_targets(table: &Table, marks: &mut [Mark; 262144], i: usize)
    requires { i < table.now.n }
    ensures { TargetsReached (shown_rows table.now) i marks.old marks.new }
{
    for k in 0..table.n {
        reach_in(table, marks, i, k);
    }
}

// Whether row k is reached and not followed.
#[tactic(auto, using(crate::proofs::Reaching::reached_rows))]
fn is_reached(marks: &[Mark; 262144], k: usize) -> bool
    requires { k < 262144 }
    ensures { IsReached marks.now k result }
{
    matches!(marks[k], Mark::Reached)
}

// The first of n rows that is reached and not followed.
fn next_reached(marks: &[Mark; 262144], n: usize) -> Option<usize>
    requires { n ≤ 262144 }
    ensures { NextReached marks.now n result }
{
    (0..n).find(|&k| is_reached(marks, k))
}

// Whether a chain of uses leads from row p to itself.
#[tactic(auto, using(crate::proofs::Reaching::searching))]
fn search(table: &Table, marks: &mut [Mark; 262144], p: usize) -> bool
    requires unmarked { Unmarked marks.old }
    requires row { p < table.now.n }
    ensures { OnCircle (shown_rows table.now) p result }
{
    reach_targets(table, marks, p);
    // No range: each turn marks more rows, and the next one is sought anew.
    while let Some(k) = next_reached(marks, table.n) {
        marks[k] = Mark::Followed;
        reach_targets(table, marks, k);
    }
    !matches!(marks[p], Mark::Unreached)
}

// The marks before a search: no row is reached.
fn unmarked() -> [Mark; 262144]
    ensures { Unmarked result }
{
    [Mark::Unreached; 262144]
}

// Whether a chain of uses leads from row p to itself, by a search with marks of its own.
fn is_on_circle(table: &Table, p: usize) -> bool
    requires { p < table.now.n }
    ensures { OnCircle (shown_rows table.now) p result }
{
    let mut marks = unmarked();
    search(table, &mut marks, p)
}

// Whether a chain of uses leads from row p to itself, with no search if it was given out: then none does.
fn is_left_on_circle(table: &Table, given: &[bool; 262144], p: usize) -> bool
    requires clear { Clear (shown_rows table.now) given.now }
    requires row { p < table.now.n }
    ensures { OnCircle (shown_rows table.now) p result }
{
    definitions::is_definition(table, p) && !given[p] && is_on_circle(table, p)
}

// The first row on a circle.
pub fn first_on_circle(table: &Table, given: &[bool; 262144]) -> Option<usize>
    requires { Clear (shown_rows table.now) given.now }
    ensures { CircleFound (shown_rows table.now) result }
{
    (0..table.n).find(|&p| is_left_on_circle(table, given, p))
}
