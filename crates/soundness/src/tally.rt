// Members counted by parent, in one pass over rows that are not in document order: a tally for each row.
ghost use Rattle.std.specs.Prelude.{◌+◌, ◌*◌, ◌≤◌, ◌<◌, length};
ghost use Rattle.soundness.specs.Outcome.{More, Tallied, ByTally};

use super::lent::Table;
use super::members;
use document::kinds;

// The members of a row: none; one, which shows a basic signature; another one; two, of which the first shows it; any others.
#[derive(Clone, Copy)]
pub enum Tally {
    Empty,
    Key,
    Other,
    Pair,
    Many,
}

// What a tally becomes with member k.
#[tactic(auto, using(crate::proofs::Tallies::mores))]
fn more(table: &Table, k: usize, tally: Tally) -> Tally
    requires { k < table.now.n }
    ensures { More table.now.document.bytes.now table.now.text.bytes.now
        table.now.rows.now k tally result }
{
    match tally {
        Tally::Empty if members::is_basic(table, k) => Tally::Key,
        Tally::Empty => Tally::Other,
        Tally::Key => Tally::Pair,
        _ => Tally::Many,
    }
}

// Counts row k, if it is a member of one of the rows.
#[tactic(auto, using(crate::proofs::Tallies::tallying))]
fn count(table: &Table, tallies: &mut [Tally], k: usize)
    requires inside { k < table.now.n }
    requires counted { Tallied table.now.document.bytes.now table.now.text.bytes.now
        table.now.rows.now table.now.n k tallies.old }
    ensures { Tallied table.now.document.bytes.now table.now.text.bytes.now
        table.now.rows.now table.now.n (k + 1) tallies.new }
{
    if items::word(table.rows, k, 0) != kinds::MEMBER {
        return;
    }
    let parent = items::word(table.rows, k, 1) as usize;
    if parent == 0 || table.n < parent {
        return;
    }
    let i = parent - 1;
    tallies[i] = more(table, k, tallies[i]);
}

// Counts the members among the rows.
#[tactic(auto, using(crate::proofs::Tallies::tallied))]
pub fn count_all(table: &Table, tallies: &mut [Tally])
    requires { Tallied table.now.document.bytes.now table.now.text.bytes.now
        table.now.rows.now table.now.n 0 tallies.old }
    ensures { Tallied table.now.document.bytes.now table.now.text.bytes.now
        table.now.rows.now table.now.n table.now.n tallies.new }
{
    for k in 0..table.n {
        count(table, tallies, k);
    }
}

// Whether row i has the members that its kind needs, by its tally.
#[tactic(auto, using(crate::proofs::Tallies::by_tally))]
pub fn is_counted(rows: &[u32], i: usize, tally: Tally) -> bool
    requires { i * 16 + 16 ≤ length rows.now }
    ensures { ByTally rows.now i tally result }
{
    match items::word(rows, i, 0) {
        kinds::STRUCT => !matches!(tally, Tally::Empty),
        kinds::MAPPING => matches!(tally, Tally::Pair),
        _ => true,
    }
}
