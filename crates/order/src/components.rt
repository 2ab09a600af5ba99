// Numbers for rows that are not given out because of circles, the first row on a circle, and the edges of one circle through it. Nothing is
// proved of them but that this is safe and ends: certificate.rt checks what it leaves.
// Rows that use each other get one number, and a row's number is greater than those of the other rows that it uses: strongly connected
// components by Pearce's form of Tarjan's algorithm, over the lists of edges that lead to a row.
// The words for work, of a definition in row r (a word holds a number alone, so rows are kept plus one where 0 is for none):
// - work[r]: 0; while it is searched from, its index, or that of the row to which it leads back; then its component's number.
// - work[n + r]: the first edge that leads to it; for the check, its component's number.
// - work[2n + r]: while it is searched from, twice the edge by which the search came to it, and one more where it leads back;
//   then the next row of the stack plus one; for the check, its edge on the circle, 0 for none.
// Of a member m, work[m] is for the search the row plus one that it came from by the member's edge, and for the circle the next row of the
// stack plus one.
ghost use Rattle.std.specs.Prelude.{◌+◌, ◌*◌, ◌<◌};

use super::table::Table;
use super::words::Word;
use super::{definitions, words};
use std::ops::ControlFlow;

// Where the search is: a row, the next edge to look at, the next index, the next number, the top of the stack plus one.
// 0 is no edge and an empty stack, as in the words lent for work that both are taken from and put into.
#[derive(Clone, Copy)]
struct Walk {
    row: usize,
    edge: usize,
    index: usize,
    number: usize,
    top: usize,
}

// Comes to row u by edge e from the row where the search is; from none if e is 0 (and then word 0 is written, which no definition has).
fn enter(work: &mut [u32], n: usize, w: Walk, u: usize, e: usize) -> Walk {
    words::put(work, u, w.index);
    words::put_at(work, n, Word::Third, u, words::double(e));
    words::put(work, words::member(e), words::more(w.row));
    Walk {
        row: u,
        edge: words::get_at(work, n, Word::Second, u),
        index: words::more(w.index),
        ..w
    }
}

// Row u leads back to where row r leads, if that is further.
fn lead(work: &mut [u32], n: usize, r: usize, u: usize) {
    let a = words::get(work, u);
    if a < words::get(work, r) {
        words::put(work, r, a);
        let c = words::get_at(work, n, Word::Third, r);
        if c % 2 == 0 {
            words::put_at(work, n, Word::Third, r, words::more(c));
        }
    }
}

// Looks at an edge.
fn look(table: &Table, work: &mut [u32], w: Walk) -> Walk {
    let e = w.edge;
    if let Some(u) = words::parent(table, words::member(e)) {
        if words::get(work, u) == 0 {
            return enter(work, table.n, w, u, e);
        }
        lead(work, table.n, w.row, u);
    }
    Walk {
        edge: words::after(work, table.n, e),
        ..w
    }
}

// Gives the rows of the stack that are of row r's component its number, and says what is left of the stack.
fn pop(work: &mut [u32], n: usize, r: usize, number: usize, stack: usize) -> usize {
    let own = words::get(work, r);
    let mut top = stack;
    for _ in 0..n {
        if top == 0 || words::get(work, top - 1) < own {
            return top;
        }
        let next = words::get_at(work, n, Word::Third, top - 1);
        words::put(work, top - 1, number);
        top = next;
    }
    top
}

// All edges of the row are looked at: its component is complete, or it goes on the stack.
fn close(work: &mut [u32], n: usize, w: Walk) -> Walk {
    let r = w.row;
    if words::get_at(work, n, Word::Third, r) % 2 == 0 {
        let top = pop(work, n, r, w.number, w.top);
        words::put(work, r, w.number);
        return Walk {
            edge: 0,
            number: w.number.saturating_sub(1),
            top,
            ..w
        };
    }
    words::put_at(work, n, Word::Third, r, w.top);
    Walk {
        edge: 0,
        top: words::more(r),
        ..w
    }
}

// Goes back to the row from which the search came to this one; if it came from none, that was the last step.
fn leave(work: &mut [u32], n: usize, w: Walk) -> ControlFlow<Walk, Walk> {
    let e = words::get_at(work, n, Word::Third, w.row) / 2;
    let done = close(work, n, w);
    let from = words::get(work, words::member(e));
    if e == 0 || from == 0 {
        return ControlFlow::Break(done);
    }
    lead(work, n, from - 1, w.row);
    ControlFlow::Continue(Walk {
        row: from - 1,
        edge: words::after(work, n, e),
        ..done
    })
}

// One step of the search.
fn advance(table: &Table, work: &mut [u32], w: Walk) -> ControlFlow<Walk, Walk> {
    if w.edge == 0 {
        return leave(work, table.n, w);
    }
    ControlFlow::Continue(look(table, work, w))
}

// Searches from row r.
fn search(table: &Table, work: &mut [u32], start: Walk, r: usize) -> Walk {
    let mut w = enter(work, table.n, start, r, 0);
    for _ in 0..4 * table.n + 4 {
        match advance(table, work, w) {
            ControlFlow::Continue(next) => w = next,
            ControlFlow::Break(last) => return last,
        }
    }
    w
}

// Searches from row r, if it is a definition that is not numbered.
fn search_row(table: &Table, work: &mut [u32], w: Walk, r: usize) -> Walk
    requires { r < table.now.n }
{
    if !definitions::is_definition(table, r) || words::get(work, r) != 0 {
        return w;
    }
    search(table, work, w, r)
}

// Searches from each row that is a definition and is not numbered.
fn search_all(table: &Table, work: &mut [u32]) {
    let mut w = Walk {
        row: 0,
        edge: 0,
        index: 2,
        number: 2 * table.n + 2,
        top: 0,
    };
    for r in 0..table.n {
        w = search_row(table, work, w, r);
    }
}

// ---- the first row on a circle

// Whether a row of row r's own component uses it. Not by `for_each_edge`: it ends early, and only looks at the words.
fn is_used(table: &Table, work: &[u32], r: usize) -> bool {
    let own = words::get(work, r);
    let mut e = words::get_at(work, table.n, Word::Second, r);
    for _ in 0..2 * table.n {
        if e == 0 {
            return false;
        }
        match words::parent(table, words::member(e)) {
            Some(u) if words::get(work, u) == own => return true,
            _ => e = words::after(work, table.n, e),
        }
    }
    false
}

// Whether row r is a definition that was not given out.
fn is_left(table: &Table, work: &[u32], r: usize) -> bool
    requires { r < table.now.n }
{
    definitions::is_definition(table, r) && words::get(work, r) != 1
}

// Whether row r is on a circle.
fn is_on_circle(table: &Table, work: &[u32], r: usize) -> bool
    requires { r < table.now.n }
{
    is_left(table, work, r) && is_used(table, work, r)
}

// The first row that is on a circle.
fn first_on_circle(table: &Table, work: &[u32]) -> Option<usize> {
    (0..table.n).find(|&r| is_on_circle(table, work, r))
}

// ---- a circle through it

// Comes to row u by edge e, and says what the top of the stack is.
fn reach(work: &mut [u32], n: usize, own: usize, u: usize, e: usize, top: usize) -> usize {
    if words::get(work, u) != own || words::get_at(work, n, Word::Third, u) != 0 {
        return top;
    }
    words::put_at(work, n, Word::Third, u, e);
    words::put(work, words::member(e), top);
    words::more(u)
}

// Comes to each row of the component from which an edge leads to row x, and says what the top of the stack is.
fn reach_all(table: &Table, work: &mut [u32], own: usize, x: usize, stack: usize) -> usize {
    let mut top = stack;
    let first = words::get_at(work, table.n, Word::Second, x);
    words::for_each_edge(work, table.n, first, |work, e| {
        if let Some(u) = words::parent(table, words::member(e)) {
            top = reach(work, table.n, own, u, e, top);
        }
    });
    top
}

// What comes after row x on the stack.
fn below(work: &[u32], n: usize, x: usize) -> usize {
    let e = words::get_at(work, n, Word::Third, x);
    if e == 0 {
        return 0;
    }
    words::get(work, words::member(e))
}

// Leaves in work[2n + r] of each row r on a circle through row p the edge to the next.
fn note_circle(table: &Table, work: &mut [u32], p: usize) {
    let own = words::get(work, p);
    let mut top = words::more(p);
    for _ in 0..table.n {
        if top == 0 || words::get_at(work, table.n, Word::Third, p) != 0 {
            return;
        }
        let x = top - 1;
        let next = below(work, table.n, x);
        top = reach_all(table, work, own, x, next);
    }
}

// ---- what is left for the check

// Calls f for each definition that was not given out.
fn for_each_left<F: Fn(&mut [u32], usize)>(table: &Table, work: &mut [u32], f: F)
    requires { F.IsAlwaysCallable f }
{
    for r in 0..table.n {
        if is_left(table, work, r) {
            f(work, r);
        }
    }
}

// Numbers the rows that are not given out, notes a circle through the first row on one, and says which that is. Of the
// rows that are not given out, only those on that circle have an edge noted; each row's number stands where the check looks for it.
pub fn number(table: &Table, work: &mut [u32]) -> Option<usize> {
    search_all(table, work);
    let circled = first_on_circle(table, work);
    let n = table.n;
    for_each_left(
        table,
        work,
        |work, r| words::put_at(work, n, Word::Third, r, 0),
    );
    if let Some(p) = circled {
        note_circle(table, work, p);
    }
    for_each_left(table, work, |work, r| {
        let own = words::get(work, r);
        words::put_at(work, n, Word::Second, r, own);
    });
    circled
}
