// What is asked of an attribute: that its name is a key, or that it is a tp type.
ghost use Rattle.std.specs.Prelude.{◌≡◌};
ghost use Rattle.attributes.specs.Lookup.{part_is, keyed, wanted_at};

// What is sought: a name, or a tp type.
#[derive(Clone, Copy)]
pub enum Sought<'a> {
    Named(&'a [u8]),
    TpType,
}

// Whether the n bytes from a place on are the key: length first, then bytes.
#[tactic(auto, using(crate::proofs::Keys::keys))]
fn is_key(doc: &[u8], at: u32, n: u32, key: &[u8]) -> bool
    ensures { result ≡ part_is (keyed key.now) doc.now «at» n }
{
    if n as usize != key.len() {
        return false;
    }
    let from = at as usize;
    let to = from + n as usize;
    if doc.len() < to {
        return false;
    }
    slices::equal_long(&doc[from..to], key)
}

// Whether an attribute is what is sought: its name is n bytes from a place on, and it is a tp type or not.
pub fn is_wanted(doc: &[u8], at: u32, n: u32, is_tp: bool, sought: Sought<'_>) -> bool
    ensures { result ≡ wanted_at sought.entry doc.now «at» n is_tp }
{
    match sought {
        Sought::Named(key) => is_key(doc, at, n, key),
        Sought::TpType => is_tp,
    }
}
