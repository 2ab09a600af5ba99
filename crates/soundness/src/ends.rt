// Whether a part of a buffer is UTF-8. In a beginning that is known to be UTF-8 the bytes at its two ends decide.
ghost use Rattle.std.specs.Prelude.{◌≡◌, ◌+◌, ◌-◌, ◌≤◌, ◌<◌, length, take, drop};
ghost use Rattle.utf8.specs.WellFormed.{well_formed};
ghost use Rattle.soundness.specs.Outcome.{Knows, edge};

use super::lent::Buffer;

// Whether a place is the end of the known beginning, or has a byte that continues no character.
#[inline(always)]
#[tactic(auto, unfolding(crate::specs::Outcome::edge))]
fn is_edge(buffer: &Buffer, at: usize) -> bool
    requires { at ≤ buffer.now.known }
    ensures { result ≡ edge buffer.now.bytes.now buffer.now.known at }
{
    at == buffer.known || !matches!(buffer.bytes[at], 128..=191)
}

// Whether the bytes from a place up to another are UTF-8, by all of them; one byte is if it is below 128.
#[tactic(auto, using(crate::proofs::Known::checked))]
fn is_checked(s: &[u8], from: usize, end: usize) -> bool
    requires some { from < end }
    requires inside { end ≤ length s.now }
    ensures { result ≡ well_formed (take (end - from) (drop from s.now)) }
{
    if end - from == 1 {
        return s[from] < 128;
    }
    utf8::ill_formed(&s[from..end]) == end - from
}

// Whether `len` bytes of a buffer from a place on are UTF-8.
#[inline(always)]
#[tactic(auto, using(crate::proofs::Known::parts))]
pub fn is_formed(buffer: &Buffer, from: usize, len: usize) -> bool
    requires { from + len ≤ length buffer.now.bytes.now }
    ensures { result ≡ well_formed (take len (drop from buffer.now.bytes.now)) }
{
    if len == 0 {
        return true;
    }
    let end = from + len;
    if buffer.known < end {
        return is_checked(buffer.bytes, from, end);
    }
    is_edge(buffer, from) && is_edge(buffer, end)
}

// How much of a buffer is looked through, before the texts in it: all before the first ill-formed sequence; what stands before the first byte
// from 128 on, which costs little; or nothing.
#[derive(Clone, Copy)]
pub enum Look {
    Whole,
    Ascii,
    Nothing,
}

// How many bytes of a buffer are then known to be UTF-8.
#[tactic(auto, using(crate::proofs::Known::looks))]
pub fn known(s: &[u8], look: Look) -> usize
    ensures { Knows look s.now result }
{
    match look {
        Look::Whole => utf8::ill_formed(s),
        Look::Ascii => utf8::ascii_start(s),
        Look::Nothing => 0,
    }
}
