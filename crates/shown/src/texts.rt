// Tests on a text: a signature that is not empty, an access, a direction.
ghost use Rattle.std.specs.Prelude.{◌≡◌};
ghost use Rattle.document.specs.Elements.{access_of, direction_of, some_signature};

#[tactic(auto, using(crate::proofs::Tests::texts))]
pub fn some_signature(s: &[u8]) -> bool
    ensures { result ≡ some_signature s.now }
{
    !s.is_empty() && names::signature(s)
}

// The number of an access, or 0: so the definition and the row's word have it.
#[tactic(auto, using(crate::proofs::Tests::texts))]
pub fn access(s: &[u8]) -> u32
    ensures { result ≡ access_of s.now }
{
    match s {
        b"read" => 1,
        b"write" => 2,
        b"readwrite" => 3,
        _ => 0,
    }
}

// The number of a direction, or 0: so the definition and the row's word have it.
#[tactic(auto, using(crate::proofs::Tests::texts))]
pub fn direction(s: &[u8]) -> u32
    ensures { result ≡ direction_of s.now }
{
    match s {
        b"in" => 1,
        b"out" => 2,
        _ => 0,
    }
}
