// How many type definitions there are, and how many members have a tp type that no row defines.
ghost use Rattle.std.specs.Prelude.{◌*◌, ◌+◌, ◌≤◌, ◌<◌, true, false, length};
ghost use Rattle.order.specs.Table.{over, shown_rows};
ghost use Rattle.order.specs.Steps.{Target, BearsNone, IsUndefined, Adds, CountsUndefined, CountsDefinitions};

use super::definitions;
use super::table::Table;
use document::kinds;

// One more, if b says so.
pub fn add(count: usize, b: bool) -> usize
    requires { count ≤ 262144 }
    ensures { Adds count b result }
{
    count + usize::from(b)
}

// The number of type definitions.
pub fn count_definitions(table: &Table) -> usize
    ensures { CountsDefinitions (shown_rows table.now) result }
{
    (0..table.n)
        .filter(|&k| definitions::is_definition(table, k))
        .count()
}

// Whether row m has a tp type that no row defines, as the rows tell that it names.
#[tactic(auto, using(crate::proofs::Counting::bearing))]
pub fn bears_none(table: &Table, m: usize, whole: Option<usize>, less: Option<usize>) -> bool
    requires held { m * 16 + 16 ≤ length table.now.rows.now }
    requires whole { over Target table.now false m whole }
    requires less { over Target table.now true m less }
    ensures { over BearsNone table.now m result }
{
    !items::is_absent(items::triple(table.rows, m, 8)) && whole.is_none() && less.is_none()
}

// Whether row m is a member with a tp type that no row defines.
#[tactic(auto, using(crate::proofs::Counting::undefineds))]
fn is_undefined(table: &Table, m: usize) -> bool
    requires { m < table.now.n }
    ensures { over IsUndefined table.now m result }
{
    if items::word(table.rows, m, 0) != kinds::MEMBER {
        return false;
    }
    // The second name is looked up only where the first is not found: each look-up is a pass over the rows.
    let whole = definitions::find_target(table, false, m);
    match whole {
        Some(_) => false,
        None => bears_none(table, m, whole, definitions::find_target(table, true, m)),
    }
}

// The number of members whose tp type no row defines.
pub fn count_undefined(table: &Table) -> usize
    ensures { CountsUndefined (shown_rows table.now) result }
{
    (0..table.n).filter(|&k| is_undefined(table, k)).count()
}
