// The walk over a tree, from element to element in the order of writing. No function calls itself, and nothing is kept but the row that is
// open: parents say the way back.
ghost use Rattle.std.specs.Prelude.{◌+◌, ◌≤◌, ◌<◌, ◌^◌, ◌≡◌};
ghost use Rattle.trees.specs.Steps.{Held, NextAt, NoNext};
ghost use Rattle.trees.specs.Walk.{inside_of, OpenIs, IsDeep, AmongOpen, IsAround, Resumes, Opens, Begins, Going, Walking, Enters, Leaves, Turns, TopOpen, Walks};

use crate::children::Standing;
use crate::lent::Table;
use crate::{children, elements};
use answers::put::put_bytes;
use document::kinds;
use std::ops::ControlFlow;

// In row `row` children of a group are sought from row `from` on; so many nodes are open, so many bytes put, and so many turns left at most.
// The group is a number and no enum: the walk goes on to the next group by adding one.
// No ghost field says that a walk is under way: that is a fact of the buffer too, and each function would have to say that the walk it answers
// speaks of the buffer it has written.
#[derive(Clone, Copy)]
pub struct Walk {
    pub row: usize,
    pub group: u32,
    pub from: usize,
    pub nodes: usize,
    pub put: usize,
    pub left: usize,
}

// The start of an element: it is closed at once, or it is open, its docstring put. Either has the bytes put.
// Not an Option: both are ways to start, and a start too deep is the `Err` beside them.
#[derive(Clone, Copy)]
pub enum Start {
    Closed(usize),
    Opened(usize),
}

// Whether something follows the attributes of row i.
#[tactic(auto, using(crate::proofs::Opening::opening))]
fn is_open(table: &Table, i: usize) -> bool
    requires { i < table.now.n }
    ensures { OpenIs table.now.document.now table.now.text.now table.now.rows.now table.now.n i
        result }
{
    items::word(table.rows, i, 13) != 0 || children::has_child(table, i)
}

// Whether a row of a kind would be the 1,025th open node.
#[tactic(auto, using(crate::proofs::Opening::counting))]
fn is_deep(kind: u32, nodes: usize) -> bool
    ensures { IsDeep kind nodes result }
{
    kind == kinds::NODE && 1024 <= nodes
}

// How many nodes are open inside an element of a kind.
fn inside(kind: u32, nodes: usize) -> usize
    requires { nodes ≤ 1024 }
    ensures { result ≡ inside_of kind nodes }
{
    match kind {
        kinds::NODE => nodes + 1,
        _ => nodes,
    }
}

// And around it.
#[tactic(auto, using(crate::proofs::Opening::counting))]
fn around(kind: u32, nodes: usize) -> usize
    requires { AmongOpen kind nodes }
    ensures { IsAround kind nodes result }
{
    match kind {
        kinds::NODE => nodes - 1,
        _ => nodes,
    }
}

// Row i, of which something follows the attributes, from the end of its start tag up to its first child; or row i, which is too deep.
#[tactic(auto, using(crate::proofs::Opening::openings))]
fn put_open(
    table: &Table,
    i: usize,
    nodes: usize,
    out: &mut [u8],
    put: usize,
) -> Result<usize, usize>
    requires within { i < table.now.n }
    requires room { put + 33554440 < 2 ^ 62 }
    ensures { Opens table.now.document.now table.now.text.now table.now.rows.now i nodes put
        out.old out.new result }
{
    if is_deep(items::word(table.rows, i, 0), nodes) {
        return Err(i);
    }
    let opened = put_bytes(out, put, b">");
    Ok(elements::put_docstring(table, i, out, opened))
}

// Row i up to its first child, or row i, which is too deep.
#[tactic(auto, using(crate::proofs::Opening::beginning))]
fn put_begin(
    table: &Table,
    i: usize,
    nodes: usize,
    out: &mut [u8],
    put: usize,
) -> Result<Start, usize>
    requires within { i < table.now.n }
    requires room { put + 67108864 < 2 ^ 62 }
    ensures { Begins table.now.document.now table.now.text.now table.now.rows.now table.now.n i
        nodes put out.old out.new result }
{
    let tagged = elements::put_start(table, i, out, put);
    if !is_open(table, i) {
        return Ok(Start::Closed(put_bytes(out, tagged, b"/>")));
    }
    let opened = put_open(table, i, nodes, out, tagged)?;
    Ok(Start::Opened(opened))
}

// Child k of the row that is open.
#[tactic(auto, using(crate::proofs::Walking::entering))]
fn enter(table: &Table, k: usize, w: Walk, out: &mut [u8]) -> Result<Walk, usize>
    requires going { Going w }
    requires child { NextAt table.now.rows.now table.now.n w.row w.group w.from
        table.now.standing k }
    ensures { Enters table.now.document.now table.now.text.now table.now.rows.now
        table.now.n table.now.standing w out.old out.new result }
{
    match put_begin(table, k, w.nodes, out, w.put)? {
        Start::Closed(put) => Ok(Walk {
            from: k + 1,
            put,
            left: w.left - 1,
            ..w
        }),
        Start::Opened(put) => Ok(Walk {
            row: k,
            group: 0,
            from: k + 1,
            nodes: inside(items::word(table.rows, k, 0), w.nodes),
            put,
            left: w.left - 1,
        }),
    }
}

// Where the search for a further child of the parent begins after row i is closed; in document order the rows up to `end` stand in row i.
#[tactic(auto, using(crate::proofs::Opening::resuming))]
fn resume(s: Standing, i: usize, end: usize) -> usize
    requires { i + 1 < 2 ^ 62 }
    ensures { Resumes s i end result }
{
    if s.ordered { end } else { i + 1 }
}

// Row i is closed, of which no group has a further child; then its parent is open, or the bytes put are all.
#[tactic(auto, using(crate::proofs::Walking::closing))]
fn close(table: &Table, top: usize, w: Walk, end: usize, out: &mut [u8]) -> ControlFlow<usize, Walk>
    requires walking { Walking table.now.document.now table.now.text.now table.now.rows.now
        table.now.n top table.now.standing w out.old }
    requires no_more { NoNext table.now.rows.now table.now.n w.row w.group w.from
        table.now.standing end }
    requires last { 4 ≤ w.group }
    ensures { Leaves table.now.document.now table.now.text.now table.now.rows.now
        table.now.n top table.now.standing w out.new result }
{
    let i = w.row;
    let kind = items::word(table.rows, i, 0);
    let put = elements::put_close(kind, out, w.put);
    if i == top {
        return ControlFlow::Break(put);
    }
    ControlFlow::Continue(Walk {
        row: (items::word(table.rows, i, 1) as usize) - 1,
        group: children::group_of(kind),
        from: resume(table.standing, i, end),
        nodes: around(kind, w.nodes),
        put,
        left: w.left - 1,
    })
}

// The group has no further child: the next group, or the closing tag, after which the parent is open.
#[tactic(auto, using(crate::proofs::Walking::leaving))]
fn leave(table: &Table, top: usize, w: Walk, end: usize, out: &mut [u8]) -> ControlFlow<usize, Walk>
    requires walking { Walking table.now.document.now table.now.text.now table.now.rows.now
        table.now.n top table.now.standing w out.old }
    requires no_more { NoNext table.now.rows.now table.now.n w.row w.group w.from
        table.now.standing end }
    ensures { Leaves table.now.document.now table.now.text.now table.now.rows.now
        table.now.n top table.now.standing w out.new result }
{
    if w.group < 4 {
        return ControlFlow::Continue(Walk {
            group: w.group + 1,
            from: w.row + 1,
            left: w.left - 1,
            ..w
        });
    }
    close(table, top, w, end, out)
}

// One turn: the walk goes on, or it ends with the bytes put; or the row that is too deep.
#[tactic(auto, using(crate::proofs::Walking::turning))]
fn one_turn(
    table: &Table,
    top: usize,
    w: Walk,
    out: &mut [u8],
) -> Result<ControlFlow<usize, Walk>, usize>
    requires walking { Walking table.now.document.now table.now.text.now table.now.rows.now
        table.now.n top table.now.standing w out.old }
    ensures { Turns table.now.document.now table.now.text.now table.now.rows.now
        table.now.n top table.now.standing w out.new result }
{
    match children::next_child(table, w.row, w.group, w.from) {
        Ok(k) => {
            let next = enter(table, k, w, out)?;
            Ok(ControlFlow::Continue(next))
        }
        Err(end) => Ok(leave(table, top, w, end, out)),
    }
}

// From a walk on to its end, which comes within the turns left.
// `while` and not `for`: the turns left are a part of the walk, by which its clauses bound the bytes put.
#[tactic(auto, using(crate::proofs::Walking::looping))]
fn walk_on(table: &Table, top: usize, begun: Walk, out: &mut [u8]) -> Result<usize, usize>
    requires walking { Walking table.now.document.now table.now.text.now table.now.rows.now
        table.now.n top table.now.standing begun out.old }
    ensures { Walks table.now.document.now table.now.text.now table.now.rows.now
        table.now.n top out.new result }
{
    let mut w = begun;
    while 0 < w.left {
        match one_turn(table, top, w, out)? {
            ControlFlow::Break(put) => {
                return Ok(put);
            }
            ControlFlow::Continue(next) => {
                w = next;
            }
        }
    }
    Ok(w.put)
}

// The tree of row `top`, from its first child on.
#[tactic(auto, using(crate::proofs::Walking::tops))]
fn walk_top(table: &Table, top: usize, out: &mut [u8], put: usize) -> Result<usize, usize>
    requires opened { TopOpen table.now.document.now table.now.text.now table.now.rows.now
        table.now.n top put out.old }
    ensures { Walks table.now.document.now table.now.text.now table.now.rows.now
        table.now.n top out.new result }
{
    let nodes = inside(items::word(table.rows, top, 0), 0);
    let w = Walk {
        row: top,
        group: 0,
        from: top + 1,
        nodes,
        put,
        left: 6 * table.n,
    };
    walk_on(table, top, w, out)
}

// The tree of row `top`, where it is known how the rows stand.
#[tactic(auto, using(crate::proofs::Walking::topping))]
fn put_from(table: &Table, top: usize, out: &mut [u8]) -> Result<usize, usize>
    requires { top < table.now.n }
    ensures { Walks table.now.document.now table.now.text.now table.now.rows.now
        table.now.n top out.new result }
{
    match put_begin(table, top, 0, out, 0)? {
        Start::Closed(put) => Ok(put),
        Start::Opened(put) => walk_top(table, top, out, put),
    }
}

// The bytes put of the tree of row `top`, or the row that is too deep.
#[tactic(auto, using(crate::proofs::Walking::treeing))]
pub fn put_tree<'a>(
    document: &'a [u8],
    text: &'a [u8],
    rows: &[u32],
    n: usize,
    top: usize,
    out: &mut [u8],
) -> Result<usize, usize>
    requires held { Held document.now text.now rows.now n }
    requires within { top < n }
    ensures { Walks document.now text.now rows.now n top out.new result }
{
    let table = Table {
        document,
        text,
        rows,
        n,
        standing: children::rows_stand(rows, n),
        classes: scan::classes(),
    };
    put_from(&table, top, out)
}
