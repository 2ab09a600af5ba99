// Type definitions and members of a table, and looking names up.
ghost use Rattle.std.specs.Prelude.{◌+◌, ◌*◌, ◌≤◌, length, IfSome, IfNone};
ghost use Rattle.order.specs.Table.{of, over, shown_rows};
ghost use Rattle.order.specs.Steps.{Defines, HasName, MemberIn, FirstNamed, LastTwo, IsArray, ElementIs, Before, NoArray, IsSought, NoneSought, Target};

use super::table::Table;
use document::kinds;

// Whether row i is a type definition.
pub fn is_definition(table: &Table, i: usize) -> bool
    requires { i * 16 + 16 ≤ length table.now.rows.now }
    ensures { of Defines table.now i result }
{
    matches!(
        items::word(table.rows, i, 0),
        kinds::SIMPLE_TYPE | kinds::ENUM | kinds::STRUCT | kinds::MAPPING
    )
}

// Whether row i is a type definition of a name.
pub fn has_name(table: &Table, i: usize, name: &[u8]) -> bool
    requires { i * 16 + 16 ≤ length table.now.rows.now }
    ensures { of HasName table.now i name.now result }
{
    is_definition(table, i)
        && slices::equal(
            name,
            tables::lookup(table.document, table.text, items::triple(table.rows, i, 2)),
        )
}

// The first row that is a type definition of a name.
fn first_named(table: &Table, name: &[u8]) -> Option<usize>
    ensures { FirstNamed (shown_rows table.now) name.now table.now.n result }
{
    (0..table.n).find(|&k| has_name(table, k, name))
}

// Where the last two bytes of a type begin.
fn last_two(tp: &[u8]) -> usize
    ensures { LastTwo tp.now result }
{
    if tp.len() < 2 {
        return 0;
    }
    tp.len() - 2
}

// Whether a type ends in `[]`.
#[tactic(auto, using(crate::proofs::Finding::parts))]
fn is_array(tp: &[u8], end: usize) -> bool
    requires { LastTwo tp.now end }
    ensures { IsArray tp.now result }
{
    slices::starts_at(tp, end, b"[]")
}

// A type less its last two bytes.
fn element<'a>(tp: &'a [u8], end: usize) -> &'a [u8]
    requires { LastTwo tp.now end }
    ensures { ElementIs tp.now result.now }
{
    &tp[..end]
}

// What stands before the `[]` at the end of a type that ends so.
fn before_brackets<'a>(tp: &'a [u8]) -> Option<&'a [u8]>
    ensures some { IfSome result (λ s. Before tp.now s.now) }
    ensures none { IfNone result (NoArray tp.now) }
{
    let end = last_two(tp);
    if is_array(tp, end) {
        Some(element(tp, end))
    } else {
        None
    }
}

// The name that the tp type of row m is looked up by, as it is or less the `[]` at its end.
#[tactic(auto, using(crate::proofs::Finding::tps))]
pub fn name_sought<'a>(table: &Table<'a>, less: bool, m: usize) -> Option<&'a [u8]>
    requires { m * 16 + 16 ≤ length table.now.rows.now }
    ensures some { IfSome result (λ s. of IsSought table.now less m s.now) }
    ensures none { IfNone result (of NoneSought table.now less m) }
{
    let tp = items::triple(table.rows, m, 8);
    if items::is_absent(tp) {
        return None;
    }
    let name = tables::lookup(table.document, table.text, tp);
    if less {
        before_brackets(name)
    } else {
        Some(name)
    }
}

// The row that the tp type of row m names, as it is or less the `[]` at its end. Beside index's function of this name: each is two lines
// over its own search for a name.
#[tactic(auto, using(crate::proofs::Finding::targets))]
pub fn find_target(table: &Table, less: bool, m: usize) -> Option<usize>
    requires { m * 16 + 16 ≤ length table.now.rows.now }
    ensures { over Target table.now less m result }
{
    let name = name_sought(table, less, m)?;
    first_named(table, name)
}

// Whether row m is a member of the definition in row i. Beside soundness' function of this name: its clause speaks of order's
// definition of a member.
pub fn is_member(table: &Table, i: usize, m: usize) -> bool
    requires few { i ≤ 262144 }
    requires held { m * 16 + 16 ≤ length table.now.rows.now }
    ensures { of MemberIn table.now i m result }
{
    items::word(table.rows, m, 0) == kinds::MEMBER
        && items::word(table.rows, m, 1) as usize == i + 1
}
