// The texts of cases: `\xx` is a byte, `\(N:piece)` a piece N times.
ghost use Rattle.std.specs.Prelude.{◌<◌, length, IfSome};

// A room that is filled from its beginning on, and how many bytes there are.
#[derive(Drop)]
struct Filled<'a> {
    room: &'a mut [u8],
    count: usize,
}

impl<'a> Filled<'a> {
    // Puts a byte, where there is room. Not by `write`, which takes three times as long for a byte.
    fn put(&mut self, b: u8) {
        if self.count < self.room.len() {
            self.room[self.count] = b;
            self.count += 1;
        }
    }
}

// The value of a hexadecimal digit.
fn nibble(b: u8) -> u8
    ensures { result < 16 }
{
    match b {
        b'0'..=b'9' => b - b'0',
        b'a'..=b'f' => b - b'a' + 10,
        _ => 0,
    }
}

// The byte that a text begins with, itself or `\xx`, and the rest of the text.
fn byte(s: &[u8]) -> Option<(u8, &[u8])>
    ensures { IfSome result (λ r. length r.1.now < length s.now) }
{
    match s {
        [] => None,
        [b'\\', high, low, rest @ ..] => Some((nibble(*high) * 16 + nibble(*low), rest)),
        [b, rest @ ..] => Some((*b, rest)),
    }
}

// The repeat that a text begins with: how often, what, and the rest of the text.
fn repeat(s: &[u8]) -> Option<(u64, &[u8], &[u8])>
    ensures { IfSome result (λ r. length r.2.now < length s.now) }
{
    let body = s.strip_prefix(b"\\(")?;
    let close = body.iter().position(|b| *b == b')')?;
    let (times, piece) = crate::number(&body[..close]);
    Some((times, piece, &body[close + 1..]))
}

// Puts a text that has no repeats, as far as there is room.
fn put_plain(to: &mut Filled, s: &[u8]) {
    let mut rest = s;
    // A cursor and not `for`: a byte is written with one character or with three.
    while let Some((b, after)) = byte(rest) {
        to.put(b);
        rest = after;
    }
}

// Puts it some times.
fn put_times(to: &mut Filled, s: &[u8], times: u64) {
    for _ in 0..times {
        put_plain(to, s);
    }
}

// Puts what a text begins with, a repeat or a byte, and answers the rest of the text.
fn step<'s>(to: &mut Filled, s: &'s [u8]) -> Option<&'s [u8]>
    ensures { IfSome result (λ r. length r.now < length s.now) }
{
    if let Some((times, piece, rest)) = repeat(s) {
        put_times(to, piece, times);
        return Some(rest);
    }
    let (b, rest) = byte(s)?;
    to.put(b);
    Some(rest)
}

// Expands a text as far as there is room, and answers how many bytes it came to.
pub fn expand(out: &mut [u8], s: &[u8]) -> usize {
    let mut filled = Filled {
        room: out,
        count: 0,
    };
    let mut rest = s;
    // A cursor and not `for`: the next step begins where this one ends.
    while let Some(after) = step(&mut filled, rest) {
        rest = after;
    }
    filled.count
}
