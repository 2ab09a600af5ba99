// Tests on the text that a value shows: names, signatures, an access, a direction. A text of more than 255 bytes passes none of them.
#![tactic(auto)]

ghost use Rattle.std.specs.Prelude.{List, ℕ};
ghost use Rattle.names.specs.Names.{interface_name, member_name, property_name};
ghost use Rattle.names.specs.Signature.{basic_signature, signature};
ghost use Rattle.document.specs.Elements.{access_of, direction_of, some_signature};
ghost use Rattle.document.specs.Outcome.{Lies};
ghost use Rattle.shown.specs.Outcome.{Changed, Says, Short, Tests};

pub mod texts;

use document::{Form, Value};

// Unescapes a changed value into a buffer of 256 bytes. The count of its bytes, or 256 where it has more than 255.
fn changed(doc: &[u8], v: Value, own: &mut [u8; 256]) -> usize
    requires { Lies doc.now v }
    ensures { Changed doc.now v own.new result }
{
    references::put_shown(document::raw(doc, v), own, 0).min(256)
}

// What a test says of the text that a value shows.
fn tested<R, P: Fn(&[u8]) -> R>(doc: &[u8], v: Value, test: P) -> R
    requires lies { Lies doc.now v }
    requires callable { P.IsAlwaysCallable test }
    ensures { (p : List ℕ → R) (d : R) → Says P.Fn test p → Short p d → Tests p doc.now v result }
{
    match v.form {
        Form::Plain => test(document::raw(doc, v)),
        _ => {
            let mut own = [0u8; 256];
            let n = changed(doc, v, &mut own);
            test(&own[..n])
        }
    }
}

// Whether a value shows an interface name.
pub fn interface_name(doc: &[u8], v: Value) -> bool
    requires { Lies doc.now v }
    ensures { Tests interface_name doc.now v result }
{
    tested(doc, v, names::interface_name)
}

// Whether a value shows a member name.
pub fn member_name(doc: &[u8], v: Value) -> bool
    requires { Lies doc.now v }
    ensures { Tests member_name doc.now v result }
{
    tested(doc, v, names::member_name)
}

// Whether a value shows a property name.
pub fn property_name(doc: &[u8], v: Value) -> bool
    requires { Lies doc.now v }
    ensures { Tests property_name doc.now v result }
{
    tested(doc, v, names::property_name)
}

// Whether a value shows a signature.
pub fn signature(doc: &[u8], v: Value) -> bool
    requires { Lies doc.now v }
    ensures { Tests signature doc.now v result }
{
    tested(doc, v, names::signature)
}

// Whether a value shows a signature that is not empty.
pub fn some_signature(doc: &[u8], v: Value) -> bool
    requires { Lies doc.now v }
    ensures { Tests some_signature doc.now v result }
{
    tested(doc, v, texts::some_signature)
}

// Whether a value shows the signature of a basic type.
pub fn basic_signature(doc: &[u8], v: Value) -> bool
    requires { Lies doc.now v }
    ensures { Tests basic_signature doc.now v result }
{
    tested(doc, v, names::basic_signature)
}

// The number of the access that a value shows, or 0, as the definition answers.
pub fn access(doc: &[u8], v: Value) -> u32
    requires { Lies doc.now v }
    ensures { Tests access_of doc.now v result }
{
    tested(doc, v, texts::access)
}

// The number of the direction that a value shows, or 0, as the definition answers.
pub fn direction(doc: &[u8], v: Value) -> u32
    requires { Lies doc.now v }
    ensures { Tests direction_of doc.now v result }
{
    tested(doc, v, texts::direction)
}
