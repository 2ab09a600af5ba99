// How cases are written (crates/part_cases/stdin): numbers and comments here, texts in `text`.
#![tactic(auto)]

pub mod text;

// The number that a text begins with, cut off past 32 bits, and what follows the byte that ends it.
pub fn number(s: &[u8]) -> (u64, &[u8]) {
    let mut value = 0u64;
    let mut rest = s;
    // A cursor and not `for`: what is left of the text is answered too.
    while let Some((b, after)) = rest.split_first() {
        rest = after;
        if !b.is_ascii_digit() || 4294967295 < value {
            return (value, rest);
        }
        value = value * 10 + u64::from(*b - b'0');
    }
    (value, rest)
}

// Whether a line is copied as it stands.
pub fn is_comment(s: &[u8]) -> bool {
    matches!(s, [] | [b'#', ..])
}
