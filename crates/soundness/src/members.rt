// The members that a struct and a mapping need, of rows in document order.
ghost use Rattle.std.specs.Prelude.{◌≡◌, ◌+◌, ◌*◌, ◌≤◌, ◌<◌, length};
ghost use Rattle.items.specs.Order.{DocumentOrder};
ghost use Rattle.soundness.specs.Outcome.{Member, NextMember, Basic, Keyed, Counted};

use super::lent::{self, Table};
use document::kinds;

// Whether row k is a member of the definition in row i. Beside order's function of this name: its clause speaks of soundness' definition of a
// member.
#[tactic(auto, using(crate::proofs::Definitions::members))]
fn is_member(rows: &[u32], i: usize, k: usize) -> bool
    requires after { i < k }
    requires held { k * 16 + 16 ≤ length rows.now }
    ensures { Member rows.now i k result }
{
    items::word(rows, k, 0) == kinds::MEMBER && items::word(rows, k, 1) as usize == i + 1
}

// The first member of the definition in row i from a row on: none comes after a row whose parent's row plus one is at most i.
// `for` and not `find`: a turn may find the member, or end the search without one.
#[tactic(auto, using(crate::proofs::Definitions::seeks))]
fn next_member(table: &Table, i: usize, from: usize) -> Option<usize>
    requires after { i < from }
    requires ordered { DocumentOrder table.now.rows.now table.now.n }
    ensures { NextMember table.now.rows.now table.now.n i from result }
{
    for k in from..table.n {
        if is_member(table.rows, i, k) {
            return Some(k);
        }
        if items::word(table.rows, k, 1) as usize <= i {
            return None;
        }
    }
    None
}

// Whether row k, a member, shows a basic signature.
#[tactic(auto, using(crate::proofs::Definitions::basics))]
pub fn is_basic(table: &Table, k: usize) -> bool
    requires { k < table.now.n }
    ensures { Basic table.now.document.bytes.now table.now.text.bytes.now
        table.now.rows.now k result }
{
    names::basic_signature(lent::shown(table, items::triple(table.rows, k, 5)))
}

// Whether the mapping in row i has exactly two members, of which the first has a basic signature.
#[tactic(auto, using(crate::proofs::Definitions::keys))]
fn is_keyed(table: &Table, i: usize) -> bool
    requires inside { i < table.now.n }
    requires ordered { DocumentOrder table.now.rows.now table.now.n }
    ensures { Keyed table.now.document.bytes.now table.now.text.bytes.now
        table.now.rows.now table.now.n i result }
{
    let Some(key) = next_member(table, i, i + 1) else {
        return false;
    };
    let Some(value) = next_member(table, i, key + 1) else {
        return false;
    };
    next_member(table, i, value + 1).is_none() && is_basic(table, key)
}

// Whether row i has the members that its kind needs.
#[tactic(auto, using(crate::proofs::Definitions::counts))]
pub fn is_counted(table: &Table, i: usize) -> bool
    requires inside { i < table.now.n }
    requires ordered { DocumentOrder table.now.rows.now table.now.n }
    ensures { Counted table.now.document.bytes.now table.now.text.bytes.now
        table.now.rows.now table.now.n i result }
{
    match items::word(table.rows, i, 0) {
        kinds::STRUCT => next_member(table, i, i + 1).is_some(),
        kinds::MAPPING => is_keyed(table, i),
        _ => true,
    }
}
