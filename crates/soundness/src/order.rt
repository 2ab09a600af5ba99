// Whether rows are in document order: each row's parent is the row before it, or above that.
ghost use Rattle.std.specs.Prelude.{◌≡◌, ◌+◌, ◌*◌, ◌≤◌, length};
ghost use Rattle.items.specs.Order.{DocumentOrder};
ghost use Rattle.soundness.specs.Outcome.{Follows, Orders};

// Whether row k's parent is the row before it or a row above that one, or row k has none.
#[tactic(auto, using(crate::proofs::Definitions::walks))]
fn follows(rows: &[u32], k: usize) -> bool
    requires held { k * 16 + 16 ≤ length rows.now }
    requires ordered { DocumentOrder rows.now k }
    ensures { Follows rows.now k result }
{
    let parent = items::word(rows, k, 1) as usize;
    let mut up = k;
    // A cursor and not `for`: the next row is the parent of the one before.
    while parent < up {
        up = items::word(rows, up - 1, 1) as usize;
    }
    up == parent
}

// Whether the first n rows are in document order.
#[tactic(auto, using(crate::proofs::Definitions::orders))]
pub fn in_document_order(rows: &[u32], n: usize) -> bool
    requires { n * 16 ≤ length rows.now }
    ensures { Orders rows.now n result }
{
    // `for` and not `all`: each row is judged where the rows before it are in order.
    for k in 0..n {
        if !follows(rows, k) {
            return false;
        }
    }
    true
}
