// A candidate order of type definitions. Nothing is proved of it but that it is safe and ends: certificate.rt checks what it leaves.
// An edge is 2 * member + which + 1; `which` is 0 for the member's tp type as it is, 1 for what stands before its `[]`; 0 is no edge, since a
// word lent for work holds a number alone.
// The words for work, of a definition in row r:
// - work[r]: 0; 1 once it is given out.
// - work[n + r]: the first edge that leads to it; once it is given out, its number.
// - work[2n + r]: how many edges it waits for; once it is ready, the last of them.
// Of a member in row r:
// - work[r]: the row that it is in.
// - work[n + r]: the edge that comes after its first edge in the list that this is in; for the check, where a row's run begins.
// - work[2n + r]: the edge that comes after its second edge in the list that this is in.
ghost use Rattle.std.specs.Prelude.{◌+◌, ◌*◌, ◌≤◌, ◌<◌, IfSome};
ghost use Rattle.order.specs.Table.{over};
ghost use Rattle.order.specs.Certificate.{Kept};
ghost use Rattle.order.specs.Index.{Indexed};

use super::index::Index;
use super::table::Table;
use super::words::Word;
use super::{certificate, definitions, index, words};
use document::kinds;

// ---- rows that are ready

// Rows that are ready: a bit each; a bit for each of those words that is not 0; and a bit for each of these.
#[derive(Drop)]
struct Ready {
    rows: [u64; 4096],
    words: [u64; 64],
    top: u64,
}

// The number of zeros below the lowest bit, at most 63.
fn lowest(x: u64) -> usize
    ensures { result < 64 }
{
    x.trailing_zeros() as usize % 64
}

// All but the lowest bit.
fn dropped(x: u64) -> u64 {
    x & x.wrapping_sub(1)
}

impl Ready {
    // No row.
    fn new() -> Ready {
        Ready {
            rows: [0; 4096],
            words: [0; 64],
            top: 0,
        }
    }

    // Marks row r.
    fn mark(&mut self, r: usize) {
        if r < 262144 {
            let low = r / 64;
            let high = low / 64;
            self.rows[low] |= 1 << (r % 64);
            self.words[high] |= 1 << (low % 64);
            self.top |= 1 << high;
        }
    }

    // The first row that is marked, which then is not.
    fn take(&mut self) -> Option<usize>
        ensures { IfSome result (λ r. r < 262144) }
    {
        if self.top == 0 {
            return None;
        }
        let high = lowest(self.top);
        let low = high * 64 + lowest(self.words[high]);
        let row = low * 64 + lowest(self.rows[low]);
        self.rows[low] = dropped(self.rows[low]);
        if self.rows[low] == 0 {
            self.words[high] = dropped(self.words[high]);
            if self.words[high] == 0 {
                self.top = dropped(self.top);
            }
        }
        Some(row)
    }
}

// ---- edges

// Adds edge e of row i to the list of the row that it leads to, if there is one.
fn link(work: &mut [u32], n: usize, i: usize, target: Option<usize>, e: usize)
    ensures { Kept n work.old work.new }
{
    let Some(j) = target else {
        return;
    };
    let head = words::get_at(work, n, Word::Second, j);
    words::put_after(work, n, e, head);
    words::put_at(work, n, Word::Second, j, e);
    let waits = words::get_at(work, n, Word::Third, i);
    words::put_at(work, n, Word::Third, i, words::more(waits));
}

// Adds the edges of row m, if it is a member.
// It is given no `Index`: words for work are written between the lookups of two members, so one has to be made anew for each.
fn link_member(table: &Table, heads: &[u32], work: &mut [u32], m: usize)
    requires member { m < table.now.n }
    requires indexed { over Indexed table.now heads.now work.old }
    ensures { Kept table.now.n work.old work.new }
{
    if items::word(table.rows, m, 0) != kinds::MEMBER {
        return;
    }
    let Some(i) = words::parent(table, m) else {
        return;
    };
    let by_name = Index {
        table: &*table,
        heads: &*heads,
        work: &*work,
    };
    let whole = index::find_target(&by_name, false, m);
    let less = index::find_target(&by_name, true, m);
    link(work, table.n, i, whole, m + m + 1);
    link(work, table.n, i, less, m + m + 2);
}

// Adds the edges of all members.
fn link_all(table: &Table, heads: &[u32], work: &mut [u32])
    requires { over Indexed table.now heads.now work.old }
{
    for m in 0..table.n {
        link_member(table, heads, work, m);
    }
}

// ---- giving out

// Row r is not given out; marks it if it is a definition that waits for nothing.
fn start_row(table: &Table, work: &mut [u32], ready: &mut Ready, r: usize)
    requires { r < table.now.n }
{
    if definitions::is_definition(table, r) {
        words::put(work, r, 0);
        if words::get_at(work, table.n, Word::Third, r) == 0 {
            ready.mark(r);
        }
    } else if let Some(i) = words::parent(table, r) {
        words::put(work, r, i);
    }
}

// Notes of each row that it is not given out, and marks the definitions that wait for nothing.
fn start(table: &Table, work: &mut [u32], ready: &mut Ready) {
    for r in 0..table.n {
        start_row(table, work, ready, r);
    }
}

// What row u waits for with edge e is given out.
fn release(work: &mut [u32], n: usize, ready: &mut Ready, u: usize, e: usize) {
    let waits = words::get_at(work, n, Word::Third, u);
    if waits == 1 {
        words::put_at(work, n, Word::Third, u, e);
        ready.mark(u);
        return;
    }
    if 1 < waits {
        words::put_at(work, n, Word::Third, u, waits - 1);
    }
}

// What the rows wait for with the edges of a list is given out.
fn release_all(table: &Table, work: &mut [u32], ready: &mut Ready, first: usize) {
    words::for_each_edge(work, table.n, first, |work, e| {
        let u = words::get(work, words::member(e));
        release(work, table.n, ready, u, e);
    });
}

// Gives out row r as the k-th.
fn give(table: &Table, work: &mut [u32], ready: &mut Ready, out: &mut [u32], k: usize, r: usize) {
    let first = words::get_at(work, table.n, Word::Second, r);
    words::put(work, r, 1);
    words::put_at(work, table.n, Word::Second, r, k);
    words::put(out, k, r);
    release_all(table, work, ready, first);
}

// Gives out rows while some are ready, always the first, and says how many.
fn give_out(table: &Table, work: &mut [u32], ready: &mut Ready, out: &mut [u32]) -> usize {
    for k in 0..table.n {
        match ready.take() {
            Some(r) if r < table.n => give(table, work, ready, out, k, r),
            _ => return k,
        }
    }
    table.n
}

// ---- runs of smaller rows

// Notes where the run before place k begins.
fn note_run(work: &mut [u32], n: usize, out: &[u32], k: usize)
    requires { n ≤ 262144 }
{
    let r = words::get(out, k);
    let e = words::get_at(work, n, Word::Third, r);
    if e == 0 {
        return;
    }
    let from = certificate::run_before(work, n, out, k, r);
    words::put_at(work, n, Word::Second, words::member(e), from);
}

// Notes for each place where the run before it begins.
fn note_runs(work: &mut [u32], n: usize, out: &[u32])
    requires { n ≤ 262144 }
{
    for k in 0..out.len() {
        note_run(work, n, out, k);
    }
}

// ---- the candidate

// Gives out the rows that come to be ready, and says how many.
pub fn order(table: &Table, heads: &[u32], work: &mut [u32], out: &mut [u32]) -> usize
    requires { over Indexed table.now heads.now work.old }
{
    let mut ready = Ready::new();
    tables::clear_words(work, table.n);
    link_all(table, heads, work);
    start(table, work, &mut ready);
    let count = give_out(table, work, &mut ready, out);
    if count <= out.len() {
        note_runs(work, table.n, &out[..count]);
    }
    count
}
