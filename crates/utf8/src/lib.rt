// Well-formed UTF-8, and White_Space at both ends of a text.
#![tactic(auto)]

ghost use Rattle.std.specs.Prelude.{◌≡◌, [], ◌∷◌, ◌+◌, ◌≤◌, ◌<◌, length, drop};
ghost use Rattle.slices.specs.Run.{Run};
ghost use Rattle.utf8.specs.WellFormed.{to, begins, sequence, ill_formed};
ghost use Rattle.utf8.specs.WhiteSpace.{code_point, white_space, Trims};
ghost use Rattle.utf8.specs.Sequence.{continuation, taken};
ghost use Rattle.utf8.specs.Ascii.{AtMost, Ascii, ascii};
ghost use Rattle.utf8.specs.Trim.{Boundary, Start, Last, Starts, Ends, white};

// Where a text begins and ends once it is trimmed.
#[derive(Clone, Copy)]
pub struct Trimmed {
    pub start: usize,
    pub end: usize,
}

// The largest of the n bytes from a place.
fn largest(s: &[u8], from: usize, n: usize) -> u8
    requires { from + n ≤ length s.now }
    ensures { AtMost s.now from n result }
{
    let mut m = 0u8;
    for &b in &s[from..from + n] {
        m = m.max(b);
    }
    m
}

// Past whole blocks of n bytes below 128.
fn blocks(s: &[u8], from: usize, n: usize) -> usize
    requires in_bounds { from ≤ length s.now }
    requires nonempty { 0 < n }
    requires short { n ≤ 128 }
    ensures { Ascii s.now from result }
{
    slices::blocks(s, from, n, |at| largest(s, at, n) <= 127)
}

// The end of the run of bytes below 128 from a place on.
fn ascii_run(s: &[u8], from: usize) -> usize
    requires { from ≤ length s.now }
    ensures { Run ascii s.now from result }
{
    slices::run_end(s, blocks(s, from, 32), |b| b < 128)
}

// Whether a byte of a range stands at a place.
fn continues(s: &[u8], at: usize, low: u8, high: u8) -> bool
    ensures { result ≡ begins (to low high ∷ []) (drop at s.now) }
{
    at < s.len() && low <= s[at] && s[at] <= high
}

// 3 if a byte of a range stands at a place and a continuation byte after it, or 0, as the definition answers.
#[tactic(auto, using(crate::proofs::Follows::takes))]
fn three(s: &[u8], at: usize, low: u8, high: u8) -> usize
    requires { at ≤ length s.now }
    ensures { result ≡ taken (to low high ∷ continuation ∷ []) (drop at s.now) }
{
    if continues(s, at, low, high) && continues(s, at + 1, 0x80, 0xbf) {
        return 3;
    }
    0
}

// 4 if a byte of a range stands at a place and two continuation bytes after it, or 0. One function of a count would be a loop for each character.
#[tactic(auto, using(crate::proofs::Follows::takes))]
fn four(s: &[u8], at: usize, low: u8, high: u8) -> usize
    requires { at ≤ length s.now }
    ensures { result ≡ taken (to low high ∷ continuation ∷ continuation ∷ []) (drop at s.now) }
{
    if continues(s, at, low, high) && three(s, at + 1, 0x80, 0xbf) == 3 {
        return 4;
    }
    0
}

// The length of the well-formed sequence at a place, or 0, as the definition answers.
#[tactic(auto, using(crate::proofs::Follows::firsts))]
fn sequence(s: &[u8], at: usize) -> usize
    requires { at < length s.now }
    ensures { result ≡ sequence (drop at s.now) }
{
    match s[at] {
        0x00..=0x7f => 1,
        0xc2..=0xdf => {
            if continues(s, at + 1, 0x80, 0xbf) {
                2
            } else {
                0
            }
        }
        0xe0 => three(s, at + 1, 0xa0, 0xbf),
        0xed => three(s, at + 1, 0x80, 0x9f),
        0xe1..=0xef => three(s, at + 1, 0x80, 0xbf),
        0xf0 => four(s, at + 1, 0x90, 0xbf),
        0xf1..=0xf3 => four(s, at + 1, 0x80, 0xbf),
        0xf4 => four(s, at + 1, 0x80, 0x8f),
        _ => 0,
    }
}

// How many bytes from the beginning on are below 128: they are UTF-8.
pub fn ascii_start(s: &[u8]) -> usize
    ensures run { Run ascii s.now 0 result }
    ensures start { Start s.now result }
{
    ascii_run(s, blocks(s, 0, 128))
}

// The place of the first ill-formed sequence, or the length, as the definition answers.
#[tactic(auto, using(crate::proofs::Finding::finds))]
pub fn ill_formed(s: &[u8]) -> usize
    ensures { result ≡ ill_formed s.now }
{
    let mut at = ascii_start(s);
    // The next place is what the call found, so no range gives it.
    while at < s.len() {
        let n = sequence(s, at);
        if n == 0 {
            return at;
        }
        at = ascii_run(s, at + n);
    }
    at
}

// Whether a code point is White_Space.
fn white_space(c: u32) -> bool
    ensures { result ≡ white_space c }
{
    matches!(
        c,
        0x9..=0xd
            | 0x20
            | 0x85
            | 0xa0
            | 0x1680
            | 0x2000..=0x200a
            | 0x2028
            | 0x2029
            | 0x202f
            | 0x205f
            | 0x3000
    )
}

// The code point of a sequence of two bytes.
pub fn point2(a: u8, b: u8) -> u32
    requires le_a { 0xc0 ≤ a }
    requires le_b { 0x80 ≤ b }
    ensures { result ≡ code_point (a ∷ b ∷ []) }
{
    (a as u32 - 0xc0) * 64 + (b as u32 - 0x80)
}

// The code point of a sequence of three bytes.
pub fn point3(a: u8, b: u8, c: u8) -> u32
    requires le_a { 0xe0 ≤ a }
    requires le_b { 0x80 ≤ b }
    requires le_c { 0x80 ≤ c }
    ensures { result ≡ code_point (a ∷ b ∷ c ∷ []) }
{
    (a as u32 - 0xe0) * 4096 + (b as u32 - 0x80) * 64 + (c as u32 - 0x80)
}

// The code point of a sequence of four bytes.
pub fn point4(a: u8, b: u8, c: u8, d: u8) -> u32
    requires le_a { 0xf0 ≤ a }
    requires le_b { 0x80 ≤ b }
    requires le_c { 0x80 ≤ c }
    requires le_d { 0x80 ≤ d }
    ensures { result ≡ code_point (a ∷ b ∷ c ∷ d ∷ []) }
{
    (a as u32 - 0xf0) * 262144
        + (b as u32 - 0x80) * 4096
        + (c as u32 - 0x80) * 64
        + (d as u32 - 0x80)
}

// The length of the White_Space character at a place, or 0, as the definition answers.
#[tactic(auto, using(crate::proofs::Points::points))]
fn white(s: &[u8], at: usize) -> usize
    requires boundary { Boundary s.now at }
    requires at_in_bounds { at < length s.now }
    ensures { result ≡ white (drop at s.now) }
{
    let b = s[at];
    if b < 0x80 {
        if white_space(b as u32) {
            return 1;
        }
        return 0;
    }
    if b < 0xe0 {
        if white_space(point2(b, s[at + 1])) {
            return 2;
        }
        return 0;
    }
    if b < 0xf0 {
        if white_space(point3(b, s[at + 1], s[at + 2])) {
            return 3;
        }
    }
    0
}

// The first place that is not White_Space, or the length: the text begins there in either case.
#[tactic(auto, using(crate::proofs::Trims::trims))]
fn trim_start(s: &[u8]) -> usize
    requires { ill_formed s.now ≡ length s.now }
    ensures { Starts s.now result }
{
    let mut at = 0;
    // The next place is what the call found, so no range gives it.
    while at < s.len() {
        let n = white(s, at);
        if n == 0 {
            return at;
        }
        at += n;
    }
    at
}

// The start of the character that ends at a place.
fn back(s: &[u8], end: usize) -> usize
    requires boundary { Boundary s.now end }
    requires end_nonzero { 0 < end }
    ensures { Last s.now end result }
{
    (1..end)
        .rev()
        .find(|&at| !matches!(s[at], 0x80..=0xbf))
        .unwrap_or(0)
}

// The end of the last character that is not White_Space, or 0: the text ends there in either case.
#[tactic(auto, using(crate::proofs::Ends::ends))]
fn trim_end(s: &[u8]) -> usize
    requires { ill_formed s.now ≡ length s.now }
    ensures { Ends s.now result }
{
    let mut end = s.len();
    // The next place is what the call found, so no range gives it.
    while 0 < end {
        let at = back(s, end);
        if white(s, at) == 0 {
            return end;
        }
        end = at;
    }
    end
}

// Where a well-formed text begins and ends once White_Space is trimmed from both ends.
pub fn trim(s: &[u8]) -> Trimmed
    requires { ill_formed s.now ≡ length s.now }
    ensures { Trims s.now result }
{
    let start = trim_start(s);
    let end = start + trim_end(&s[start..]);
    Trimmed { start, end }
}
