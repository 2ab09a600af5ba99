// The words of a row of a lent table. specs/ has the definitions of sound rows, of an item's written content and of its bytes, and of what
// the writers answer.
#![tactic(auto)]

ghost use Rattle.std.specs.Prelude.{◌≡◌, ◌+◌, ◌*◌, ◌≤◌, ◌<◌, length};
ghost use Rattle.items.specs.Words.{Word, TripleIs, absent};

use tables::Triple;

// Word k of row i. Words go by their numbers, as in docs/FORMAT.md and in the definitions.
pub fn word(rows: &[u32], i: usize, k: usize) -> u32
    requires inside { k < 16 }
    requires held { i * 16 + 16 ≤ length rows.now }
    ensures { Word rows.now i k result }
{
    rows[i * 16 + k]
}

// The triple from word k on of row i.
pub fn triple(rows: &[u32], i: usize, k: usize) -> Triple
    requires inside { k ≤ 11 }
    requires held { i * 16 + 16 ≤ length rows.now }
    ensures { TripleIs rows.now i k result }
{
    Triple {
        source: word(rows, i, k),
        start: word(rows, i, k + 1),
        len: word(rows, i, k + 2),
    }
}

// Three zeros. Three tests: a pattern of a triple takes a line for each word, and a derived `==` would want a constant of three zeros.
pub fn is_absent(t: Triple) -> bool
    ensures { result ≡ absent t }
{
    t.source == 0 && t.start == 0 && t.len == 0
}
