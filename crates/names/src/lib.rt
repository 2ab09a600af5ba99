// Names and signatures, by the D-Bus Specification.
// What is a name is in specs/Names.antt, what is a signature in specs/Types.antt and specs/Signature.antt.
#![tactic(auto)]

ghost use Rattle.std.specs.Prelude.{◌≡◌, ◌≤◌, length};
ghost use Rattle.slices.specs.Bytes.{digit};
ghost use Rattle.names.specs.Names.{element_byte, interface_name, member_name, property_name};
ghost use Rattle.names.specs.Signature.{basic_code, basic_signature, signature};
ghost use Rattle.names.specs.Checks.{Element, Typed, Fielded, Entered};

// A digit.
fn is_digit(b: u8) -> bool
    ensures { result ≡ digit b }
{
    b.is_ascii_digit()
}

// A letter, a digit or `_`.
fn is_element_byte(b: u8) -> bool
    ensures { result ≡ element_byte b }
{
    b == b'_' || b.is_ascii_digit() || b.is_ascii_alphabetic()
}

// The end of the element of a name at a place; the place itself where there is none.
fn element(s: &[u8], from: usize) -> usize
    requires { from ≤ length s.now }
    ensures { Element s.now from result }
{
    if s.len() <= from || is_digit(s[from]) {
        return from;
    }
    slices::run_end(s, from, |b| is_element_byte(b))
}

// One element.
#[tactic(auto, using(crate::proofs::Names::members))]
pub fn member_name(s: &[u8]) -> bool
    ensures { result ≡ member_name s.now }
{
    let n = s.len();
    n != 0 && n <= 255 && element(s, 0) == n
}

// Two or more elements, which dots separate.
#[tactic(auto, using(crate::proofs::Names::name_loops))]
pub fn interface_name(s: &[u8]) -> bool
    ensures { result ≡ interface_name s.now }
{
    let n = s.len();
    if 255 < n {
        return false;
    }
    let mut at = 0;
    // A loop, since the next place is what the call found. That there was a dot has no value beside it that an Option could hold.
    let mut dotted = false;
    loop {
        let e = element(s, at);
        if e == at {
            return false;
        }
        if e == n {
            return dotted;
        }
        if s[e] != b'.' {
            return false;
        }
        dotted = true;
        at = e + 1;
    }
}

// 1 to 255 bytes.
pub fn property_name(s: &[u8]) -> bool
    ensures { result ≡ property_name s.now }
{
    matches!(s.len(), 1..=255)
}

// The code of a basic type.
fn basic(b: u8) -> bool
    ensures { result ≡ basic_code b }
{
    matches!(
        b,
        b'y' | b'b' | b'n' | b'q' | b'i' | b'u' | b'x' | b't' | b'd' | b'h' | b's' | b'o' | b'g'
    )
}

// The end of the dict entry whose key stands at a place.
#[cycle(complete_entry_fields)]
#[tactic(auto, using(crate::proofs::Checks::entries))]
fn entry(s: &[u8], key: usize, arrays: u32, parens: u32) -> Option<usize>
    ensures { Entered s.now key arrays parens result }
{
    // Four tests and not two with `||`, over which the proof does not close.
    if s.len() <= key {
        return None;
    }
    if !basic(s[key]) {
        return None;
    }
    let e = complete(s, key + 1, arrays, parens)?;
    if s.len() <= e {
        return None;
    }
    if s[e] != b'}' {
        return None;
    }
    Some(e + 1)
}

// The end of a struct's fields, past the `)`: one field or more.
#[cycle(complete_entry_fields)]
#[tactic(auto, using(crate::proofs::Checks::field_lists))]
fn fields(s: &[u8], from: usize, arrays: u32, parens: u32) -> Option<usize>
    ensures { Fielded s.now from arrays parens result }
{
    let e = complete(s, from, arrays, parens)?; // no field
    if s.len() <= e {
        return None;
    }
    if s[e] == b')' {
        return Some(e + 1);
    }
    fields(s, e, arrays, parens)
}

// The end of the complete type at a place, with so many arrays and parentheses open.
#[cycle(complete_entry_fields)]
#[tactic(auto, using(crate::proofs::Checks::types))]
fn complete(s: &[u8], at: usize, arrays: u32, parens: u32) -> Option<usize>
    ensures { Typed s.now at arrays parens result }
{
    if s.len() <= at {
        return None;
    }
    let b = s[at];
    if basic(b) || b == b'v' {
        return Some(at + 1);
    }
    if b == b'(' {
        if 32 <= parens {
            return None;
        }
        return fields(s, at + 1, arrays, parens + 1);
    }
    if b != b'a' || 32 <= arrays {
        return None;
    }
    let next = at + 1;
    if s.len() <= next {
        return None;
    }
    if s[next] == b'{' {
        return entry(s, next + 1, arrays + 1, parens);
    }
    complete(s, next, arrays + 1, parens)
}

// Complete types one after another; at most 255 bytes.
// A call of its own, so that `signature` is short enough to tell the usual type, of one byte, where it is asked for.
#[inline(never)]
#[tactic(auto, using(crate::proofs::Checks::signatures))]
fn are_types(s: &[u8]) -> bool
    ensures { result ≡ signature s.now }
{
    if 255 < s.len() {
        return false;
    }
    let mut at = 0;
    // The next place is what the call found, so no range gives it.
    while at < s.len() {
        match complete(s, at, 0, 0) {
            None => return false,
            Some(e) => at = e,
        }
    }
    true
}

// Complete types one after another; at most 255 bytes. One byte is looked at here.
#[inline]
#[tactic(auto, using(crate::proofs::Checks::signatures))]
pub fn signature(s: &[u8]) -> bool
    ensures { result ≡ signature s.now }
{
    if s.len() == 1 {
        return s[0] == b'v' || basic(s[0]);
    }
    are_types(s)
}

// A signature of one basic type.
pub fn basic_signature(s: &[u8]) -> bool
    ensures { result ≡ basic_signature s.now }
{
    s.len() == 1 && basic(s[0])
}
