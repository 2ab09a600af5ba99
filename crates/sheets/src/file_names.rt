// The names of a list of files: a line each.
ghost use Rattle.std.specs.Prelude.{◌≡◌, [], ◌∷◌, IfSome, IfNone};
ghost use Rattle.sheets.specs.Names.{names_of, openable, Placed};

// The first name of a list, past empty lines, and what follows it.
#[tactic(auto, using(crate::proofs::Naming::seeking))]
pub fn next(list: &[u8]) -> Option<(&[u8], &[u8])>
    ensures some { IfSome result (λ r. names_of list.now ≡ r.0.now ∷ names_of r.1.now) }
    ensures places { IfSome result (λ r. Placed list.now r.0.now r.1.now) }
    ensures none { IfNone result (names_of list.now ≡ []) }
{
    let mut at = 0;
    // A cursor and not `for`: the next place is past the end of the line that was found.
    while at < list.len() {
        let end = slices::find(list, at, b'\n');
        if at < end {
            return Some((&list[at..end], &list[end..]));
        }
        at = end + 1;
    }
    None
}

// Whether a name is short enough, and has no zero byte.
#[tactic(auto, using(crate::proofs::Naming::opening))]
pub fn is_openable(name: &[u8]) -> bool
    ensures { result ≡ openable name.now }
{
    name.len() <= 255 && slices::find(name, 0, b'\0') == name.len()
}
