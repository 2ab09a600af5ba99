// The plain form: it needs no words lent for work, and for each row given out it seeks among all definitions the first that is ready.
ghost use Rattle.std.specs.Prelude.{◌+◌, ◌≤◌, ◌<◌, [], ◌∷◌};
ghost use Rattle.tables.specs.Table.{Put};
ghost use Rattle.order.specs.Table.{over, shown_rows};
ghost use Rattle.order.specs.Steps.{Within, IsLeft, MemberWaits, WaitsIn, Waits, IsReady, NextReady, Blank, Marks, GivenOut};

use super::definitions;
use super::table::Table;

// Whether there is a row, and it is not given out.
#[tactic(auto, using(crate::proofs::Waiting::lefts))]
fn is_left(given: &[bool; 262144], row: Option<usize>) -> bool
    requires { Within row 262144 }
    ensures { IsLeft given.now row result }
{
    match row {
        Some(i) => !given[i],
        None => false,
    }
}

// Whether member m refers to a row that is not given out.
#[tactic(auto, using(crate::proofs::Waiting::members))]
fn member_waits(table: &Table, given: &[bool; 262144], m: usize) -> bool
    requires { m < table.now.n }
    ensures { over MemberWaits table.now given.now m result }
{
    is_left(given, definitions::find_target(table, false, m))
        || is_left(given, definitions::find_target(table, true, m))
}

// Whether row k is a member of row i and refers to a row that is not given out.
fn waits_in(table: &Table, given: &[bool; 262144], i: usize, k: usize) -> bool
    requires row { i < table.now.n }
    requires member { k < table.now.n }
    ensures { over WaitsIn table.now given.now i k result }
{
    definitions::is_member(table, i, k) && member_waits(table, given, k)
}

// Whether row i uses a row that is not given out.
fn waits(table: &Table, given: &[bool; 262144], i: usize) -> bool
    requires { i < table.now.n }
    ensures { over Waits table.now given.now i result }
{
    (0..table.n).any(|k| waits_in(table, given, i, k))
}

// Whether row i is a definition that is not given out and is ready.
#[tactic(auto, using(crate::proofs::Waiting::readiness))]
fn is_ready(table: &Table, given: &[bool; 262144], i: usize) -> bool
    requires { i < table.now.n }
    ensures { over IsReady table.now given.now i result }
{
    definitions::is_definition(table, i) && !given[i] && !waits(table, given, i)
}

// The first row that is a definition, is not given out and is ready.
fn next_ready(table: &Table, given: &[bool; 262144]) -> Option<usize>
    ensures { NextReady (shown_rows table.now) table.now.n given.now result }
{
    (0..table.n).find(|&k| is_ready(table, given, k))
}

// Adds a row's number where there is room, and counts it in any case.
fn put_row(out: &mut [u32], count: usize, row: usize) -> usize
    requires few { count ≤ 262144 }
    requires row { row ≤ 262144 }
    ensures { Put 1 (row ∷ []) count out.old out.new result }
{
    if count < out.len() {
        out[count] = row as u32;
    }
    count + 1
}

// Marks a row as given out.
fn mark(given: &mut [bool; 262144], row: usize)
    requires { row < 262144 }
    ensures { Marks row given.old given.new }
{
    given[row] = true;
}

// The marks before any row is given out.
pub fn blank() -> [bool; 262144]
    ensures { Blank result }
{
    [false; 262144]
}

// Gives out the rows that come to be ready, always the first, and says how many.
#[tactic(auto, using(crate::proofs::Giving::giving))]
pub fn give_out(table: &Table, given: &mut [bool; 262144], out: &mut [u32]) -> usize
    requires { Blank given.old }
    ensures { GivenOut (shown_rows table.now) given.new out.new result }
{
    let mut count = 0;
    // No range: each turn makes more rows ready, and the first one is sought anew.
    while let Some(row) = next_ready(table, given) {
        count = put_row(out, count, row);
        mark(given, row);
    }
    count
}
