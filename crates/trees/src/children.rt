// What stands in a row: its groups, the next child of a group, and whether there is a child at all.
ghost use Rattle.std.specs.Prelude.{◌≡◌, true, ◌+◌, ◌*◌, ◌≤◌, ◌<◌, length};
ghost use Rattle.trees.specs.Steps.{group_of, Stands, Next, HasChild, RowsHeld, RowKept, Late, LastNode, NodesStand, Asked, Child, Past, RunPast, GroupPast};

use crate::lent::Table;
use document::kinds;

// How the rows stand: in document order; and so that no node stands between a row that is no node and the node that it is in. In document
// order that says that no other child of a node follows a node in it.
// Two bools: no value goes with either answer.
#[derive(Clone, Copy)]
pub struct Standing {
    pub ordered: bool,
    pub last: bool,
}

// The group in which rows of a kind are written: 0 types, 1 args, 2 members, 3 annotations, 4 nodes.
pub fn group_of(kind: u32) -> u32
    ensures { result ≡ group_of kind }
{
    match kind {
        kinds::NODE => 4,
        kinds::ANNOTATION => 3,
        kinds::ARG => 1,
        kinds::SIMPLE_TYPE | kinds::ENUM | kinds::STRUCT | kinds::MAPPING => 0,
        _ => 2,
    }
}

// Whether row k is no node and stands in a node that is not the last node before it.
#[tactic(auto, using(crate::proofs::Standing::lates))]
fn stands_late(rows: &[u32], k: usize, node: usize) -> bool
    requires { RowKept rows.now k }
    ensures { Late rows.now k node result }
{
    if items::word(rows, k, 0) == kinds::NODE {
        return false;
    }
    let above = (items::word(rows, k, 1) as usize) - 1;
    items::word(rows, above, 0) == kinds::NODE && above != node
}

// The last node up to row k, if `node` is the last before it.
fn last_node(rows: &[u32], k: usize, node: usize) -> usize
    requires { RowKept rows.now k }
    ensures { LastNode rows.now k node result }
{
    match items::word(rows, k, 0) {
        kinds::NODE => k,
        _ => node,
    }
}

// Whether no node stands between a row that is no node and the node that it is in: then that node is the last one before the row.
#[tactic(auto, using(crate::proofs::Standing::lasts))]
fn nodes_stand_last(rows: &[u32], n: usize) -> bool
    requires { RowsHeld rows.now n }
    ensures { NodesStand rows.now n result }
{
    let mut node = 0;
    for k in 1..n {
        if stands_late(rows, k, node) {
            return false;
        }
        node = last_node(rows, k, node);
    }
    true
}

// How n rows stand.
pub fn rows_stand(rows: &[u32], n: usize) -> Standing
    requires { RowsHeld rows.now n }
    ensures { Stands rows.now n result }
{
    Standing {
        ordered: soundness::order::in_document_order(rows, n),
        last: nodes_stand_last(rows, n),
    }
}

// Whether rows in document order have no child of row i at row k or after it, as far as row k says it.
#[tactic(auto, using(crate::proofs::Standing::runs))]
fn ends_run(rows: &[u32], i: usize, k: usize, s: Standing) -> bool
    requires after { i < k }
    requires held { k * 16 + 16 ≤ length rows.now }
    ensures { RunPast rows.now i k s result }
{
    s.ordered && items::word(rows, k, 1) as usize <= i
}

// The same of a group but nodes, where row k is a node and nodes stand last.
#[tactic(auto, using(crate::proofs::Standing::pasts))]
fn ends_group(rows: &[u32], i: usize, group: u32, k: usize, s: Standing) -> bool
    requires { Asked rows.now i group k }
    ensures { GroupPast rows.now i group k s result }
{
    s.last
        && items::word(rows, k, 1) as usize == i + 1
        && items::word(rows, k, 0) == kinds::NODE
        && items::word(rows, i, 0) == kinds::NODE
        && group < 4
}

// Whether no child of row i in a group stands at row k or after it, as far as row k says it.
#[tactic(auto, using(crate::proofs::Standing::either_past))]
fn is_past(rows: &[u32], i: usize, group: u32, k: usize, s: Standing) -> bool
    requires { Asked rows.now i group k }
    ensures { Past rows.now i group k s result }
{
    ends_run(rows, i, k, s) || ends_group(rows, i, group, k, s)
}

// Whether row k is a child of row i in a group.
#[tactic(auto, using(crate::proofs::Standing::childs))]
fn is_child(rows: &[u32], i: usize, group: u32, k: usize) -> bool
    requires { Asked rows.now i group k }
    ensures { Child rows.now i group k result }
{
    items::word(rows, k, 1) as usize == i + 1 && group_of(items::word(rows, k, 0)) == group
}

// The first child of row i in a group from a row on, or else where the search ended.
// Not an Option: the walk goes on from where the search ended.
// `for` and not `find`: a turn may find the child, or end the search without one.
#[tactic(auto, using(crate::proofs::Standing::looks))]
pub fn next_child(table: &Table, i: usize, group: u32, from: usize) -> Result<usize, usize>
    requires after { i < from }
    requires within { from ≤ table.now.n }
    requires group { group < 5 }
    ensures { Next table.now.rows.now table.now.n i group from table.now.standing result }
{
    // Taken out of the table first: read through the reference at each turn, a long search takes half as long again.
    let rows = table.rows;
    let standing = table.standing;
    for k in from..table.n {
        if is_child(rows, i, group, k) {
            return Ok(k);
        }
        if is_past(rows, i, group, k, standing) {
            return Err(k);
        }
    }
    Err(table.n)
}

// Whether row i has a child; in document order the next row is one, or there is none.
#[tactic(auto, using(crate::proofs::Standing::haves))]
pub fn has_child(table: &Table, i: usize) -> bool
    requires { i < table.now.n }
    ensures { HasChild table.now.rows.now table.now.n i result }
{
    let p = i + 1;
    let rows = table.rows;
    if table.standing.ordered {
        return p < table.n && items::word(rows, p, 1) as usize == p;
    }
    (p..table.n).any(|k| items::word(rows, k, 1) as usize == p)
}
