// Byte slices: the first place of a byte, whether a key stands at a place, whether two slices are equal, a hash.
#![tactic(auto)]

ghost use Rattle.std.specs.Prelude.{◌≡◌, ℕ, ◌+◌, ◌*◌, ◌<◌, ◌≤◌, ◌⊎◌, Bool, false, length, drop};
ghost use Rattle.slices.specs.Bytes.{other, same, starts};
ghost use Rattle.slices.specs.Hash.{mixed, HashIs};
ghost use Rattle.slices.specs.Run.{Blocks, Run, Sought, Tells, Told, Without};
ghost use Rattle.slices.specs.Word.{Agrees, Below, Byte, Equal, Leads, Word, word_of};

// The byte at a place, as a number of 64 bits.
fn byte(s: &[u8], at: usize) -> u64
    requires { at < length s.now }
    ensures { Byte s.now «at» result }
{
    s[at] as u64
}

// The 8 bytes from a place as one number, the first the lowest. Not `u64::from_le_bytes`: making the array that it takes from a part of a slice
// has a case of too few bytes, which cannot come.
#[tactic(auto, using(crate::proofs::Words::worded))]
fn word(s: &[u8], at: usize) -> u64
    requires { at + 8 ≤ length s.now }
    ensures { Word s.now «at» result }
{
    byte(s, at)
        + byte(s, at + 1) * 0x100
        + byte(s, at + 2) * 0x10000
        + byte(s, at + 3) * 0x1000000
        + byte(s, at + 4) * 0x100000000
        + byte(s, at + 5) * 0x10000000000
        + byte(s, at + 6) * 0x1000000000000
        + byte(s, at + 7) * 0x100000000000000
}

// How many of the 8 bytes of a number, the lowest first, come before the first that is below n.
fn leading(x: u64, n: u64) -> usize
    requires { n ≤ 128 }
    ensures { (f : ℕ → ℕ) → ((i : ℕ) → f i < 256) → x ≡ word_of 8 f → Leads f n 8 result }
{
    let z = x.wrapping_sub(n * 0x0101010101010101) & !x & 0x8080808080808080;
    (z.trailing_zeros() / 8) as usize
}

// How many of the 8 bytes from a place come before the first that is below n: 8 where none is.
pub fn first_below(s: &[u8], at: usize, n: u64) -> usize
    requires inside { at + 8 ≤ length s.now }
    requires small { n ≤ 128 }
    ensures { Below s.now «at» n result }
{
    leading(word(s, at), n)
}

// The end of the run from a place on of bytes of which the test is true.
pub fn run_end<F: Fn(u8) -> bool>(s: &[u8], from: usize, test: F) -> usize
    requires in_bounds { from ≤ length s.now }
    requires callable { F.IsAlwaysCallable test }
    ensures { (p : ℕ → Bool) → Tells (F.post test) p → Run p s.now from result }
{
    (from..s.len()).find(|&at| !test(s[at])).unwrap_or(s.len())
}

// Past whole blocks of n bytes, of whose places the test is true, up to one of which it is false, or where fewer than n bytes are left.
pub fn blocks<F: Fn(usize) -> bool>(s: &[u8], from: usize, n: usize, test: F) -> usize
    requires in_bounds { from ≤ length s.now }
    requires nonempty { 0 < n }
    requires callable { (at : ℕ) → at + n ≤ length s.now → F.pre test at }
    ensures passed { Blocks (F.post test) s.now from n result }
    ensures stops { (length s.now < result + n) ⊎ F.post test result false }
{
    let mut at = from;
    // By `step_by` no line would be shorter.
    while n <= s.len() - at {
        if !test(at) {
            return at;
        }
        at += n;
    }
    at
}

// Whether one of the 32 bytes from a place is b.
fn has(s: &[u8], from: usize, b: u8) -> bool
    requires { from + 32 ≤ length s.now }
    ensures { Told s.now from 32 b result }
{
    s[from..from + 32].contains(&b)
}

// Past whole blocks without b.
fn past_blocks(s: &[u8], from: usize, b: u8) -> usize
    requires { from ≤ length s.now }
    ensures { Without s.now b from result }
{
    blocks(s, from, 32, |at| !has(s, at, b))
}

// How many of the 8 bytes from a place come before the first that is b: 8 where none is.
fn first_equal(s: &[u8], at: usize, b: u8) -> usize
    requires { at + 8 ≤ length s.now }
    ensures { Equal s.now «at» b result }
{
    leading(word(s, at) ^ ((b as u64) * 0x0101010101010101), 1)
}

// Past n words without b, or to b in one of them.
#[tactic(auto, using(crate::proofs::Skips::skips))]
fn by_words(s: &[u8], from: usize, n: usize, b: u8) -> usize
    requires { from + 8 * n ≤ length s.now }
    ensures { Sought s.now b from (from + 8 * n) result }
{
    for i in 0..n {
        let at = from + 8 * i;
        let k = first_equal(s, at, b);
        if k < 8 {
            return at + k;
        }
    }
    from + 8 * n
}

// The first place of b from `from` on, or the length: callers go on from there in either case.
pub fn find(s: &[u8], from: usize, b: u8) -> usize
    requires { from ≤ length s.now }
    ensures { Run (other b) s.now from result }
{
    let start = past_blocks(s, from, b);
    let near = by_words(s, start, (s.len() - start) / 8, b);
    run_end(s, near, |x| x != b)
}

// The same for a byte that is near as a rule: 4 words first. By `find`, which looks at whole blocks first, reading takes longer.
#[tactic(auto, using(crate::proofs::Skips::finds))]
pub fn find_near(s: &[u8], from: usize, b: u8) -> usize
    requires { from ≤ length s.now }
    ensures { Run (other b) s.now from result }
{
    if s.len() - from < 32 {
        return find(s, from, b);
    }
    let at = by_words(s, from, 4, b);
    if at < from + 32 {
        return at;
    }
    find(s, at, b)
}

// Whether the key stands at a place. Not by std's `starts_with`, nor `equal` by `==`: reading takes more instructions a byte with them.
#[tactic(auto, using(crate::proofs::Runs::matches))]
pub fn starts_at(s: &[u8], from: usize, key: &[u8]) -> bool
    requires { from ≤ length s.now }
    ensures { result ≡ starts key.now (drop from s.now) }
{
    if s.len() - from < key.len() {
        return false;
    }
    for i in 0..key.len() {
        if s[from + i] != key[i] {
            return false;
        }
    }
    true
}

// Whether two slices hold the same bytes.
#[tactic(auto, using(crate::proofs::Runs::equals))]
pub fn equal(a: &[u8], b: &[u8]) -> bool
    ensures { result ≡ same a.now b.now }
{
    a.len() == b.len() && starts_at(a, 0, b)
}

// How many bytes of two slices of one length agree, by words.
fn agreed(a: &[u8], b: &[u8]) -> usize
    requires { length a.now ≡ length b.now }
    ensures { Agrees a.now b.now result }
{
    blocks(b, 0, 8, |at| word(a, at) == word(b, at))
}

// Whether two slices hold the same bytes, where they may be long: by words first.
// By `equal`, documents whose names have a long beginning in common take longer to read.
#[tactic(auto, using(crate::proofs::Words::agrees))]
pub fn equal_long(a: &[u8], b: &[u8]) -> bool
    ensures { result ≡ same a.now b.now }
{
    if a.len() != b.len() {
        return false;
    }
    let at = agreed(a, b);
    starts_at(&a[at..], 0, &b[at..])
}

// The hash with one more byte.
fn mix(h: u32, b: u8) -> u32
    ensures { result ≡ mixed h b }
{
    ((h as u64 * 16777619 + b as u64) % 4294967296) as u32
}

// The hash of bytes.
#[tactic(auto, using(crate::proofs::Hashing::hashing))]
pub fn hash(s: &[u8]) -> u32
    ensures { HashIs s.now result }
{
    let mut h: u32 = 0;
    for &b in s {
        h = mix(h, b);
    }
    h
}
