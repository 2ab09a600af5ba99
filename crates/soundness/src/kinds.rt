// Kinds of rows: what may stand in what, and which words a kind uses.
ghost use Rattle.std.specs.Prelude.{◌≡◌};
ghost use Rattle.document.specs.Kinds as kinds;
ghost use Rattle.document.specs.Elements.{may_hold};
ghost use Rattle.items.specs.Sound.{valid_name, valid_value, valid_word};
ghost use Rattle.soundness.specs.Outcome.{may_lack_name, uses_value, uses_tp};

use document::kinds;

// Whether a row of kind `c` may stand in a node.
#[tactic(auto, unfolding(document::specs::Elements::may_hold))]
fn node_holds(c: u32) -> bool
    ensures { result ≡ may_hold kinds.node c }
{
    matches!(
        c,
        kinds::NODE
            | kinds::INTERFACE
            | kinds::SIMPLE_TYPE
            | kinds::ENUM
            | kinds::STRUCT
            | kinds::MAPPING
    )
}

// Whether a row of kind `c` may stand in an interface.
#[tactic(auto, unfolding(document::specs::Elements::may_hold))]
fn interface_holds(c: u32) -> bool
    ensures { result ≡ may_hold kinds.interface c }
{
    matches!(
        c,
        kinds::METHOD
            | kinds::PROPERTY
            | kinds::SIGNAL
            | kinds::ANNOTATION
            | kinds::SIMPLE_TYPE
            | kinds::ENUM
            | kinds::STRUCT
            | kinds::MAPPING
    )
}

// Whether a row of kind `c` may stand in a method or a signal.
#[tactic(auto, unfolding(document::specs::Elements::may_hold))]
fn method_holds(c: u32) -> bool
    ensures { result ≡ may_hold kinds.method c }
{
    matches!(c, kinds::ANNOTATION | kinds::ARG)
}

// Whether a row of kind `c` may stand in one of kind `k`.
#[tactic(auto, unfolding(document::specs::Elements::may_hold))]
pub fn may_hold(k: u32, c: u32) -> bool
    ensures { result ≡ may_hold k c }
{
    match k {
        kinds::NODE => node_holds(c),
        kinds::INTERFACE => interface_holds(c),
        kinds::METHOD | kinds::SIGNAL => method_holds(c),
        kinds::PROPERTY | kinds::ARG => c == kinds::ANNOTATION,
        kinds::ENUM => c == kinds::ENUMVALUE,
        kinds::STRUCT | kinds::MAPPING => c == kinds::MEMBER,
        _ => false,
    }
}

// Whether the name may be missing.
#[tactic(auto, unfolding(crate::specs::Outcome::may_lack_name))]
pub fn may_lack_name(kind: u32) -> bool
    ensures { result ≡ may_lack_name kind }
{
    matches!(kind, kinds::NODE | kinds::ARG)
}

// Whether words 5-7 are used.
#[tactic(auto, unfolding(crate::specs::Outcome::uses_value))]
pub fn uses_value(kind: u32) -> bool
    ensures { result ≡ uses_value kind }
{
    matches!(
        kind,
        kinds::PROPERTY
            | kinds::ANNOTATION
            | kinds::ARG
            | kinds::SIMPLE_TYPE
            | kinds::ENUM
            | kinds::ENUMVALUE
            | kinds::MEMBER
    )
}

// Whether there may be a tp type.
#[tactic(auto, unfolding(crate::specs::Outcome::uses_tp))]
pub fn uses_tp(kind: u32) -> bool
    ensures { result ≡ uses_tp kind }
{
    matches!(kind, kinds::PROPERTY | kinds::ARG | kinds::MEMBER)
}

// Whether a text is a name that a kind may have.
pub fn valid_name(kind: u32, s: &[u8]) -> bool
    ensures { result ≡ valid_name kind s.now }
{
    match kind {
        kinds::INTERFACE => names::interface_name(s),
        kinds::METHOD | kinds::SIGNAL => names::member_name(s),
        kinds::PROPERTY => names::property_name(s),
        _ => true,
    }
}

// Whether a text is a value or a signature that a kind may have.
pub fn valid_value(kind: u32, s: &[u8]) -> bool
    ensures { result ≡ valid_value kind s.now }
{
    match kind {
        kinds::PROPERTY | kinds::ARG => names::signature(s),
        kinds::SIMPLE_TYPE | kinds::ENUM | kinds::MEMBER => shown::texts::some_signature(s),
        _ => true,
    }
}

// Word 14: the access of a property, the direction of an arg, 0 for any other.
pub fn valid_word(kind: u32, w: u32) -> bool
    ensures { result ≡ valid_word kind w }
{
    match kind {
        kinds::PROPERTY => matches!(w, 1..=3),
        kinds::ARG => w <= 2,
        _ => w == 0,
    }
}
