// The attributes of a tag, gathered and lent as a slice: the first equal name, the values, and the check one by one.
ghost use Rattle.std.specs.Prelude.{◌≡◌, ◌≤◌, ◌<◌, length};
ghost use Rattle.attributes.specs.Lookup.{wanted, Picks, PicksAll};
ghost use Rattle.attributes.specs.One.{attr_of, Fit};
ghost use Rattle.attributes.specs.Outcome.{among, Checkable, Weighs, Judges, Checks, Finishes};

use crate::asked::{Sought, is_wanted};
use crate::{Attribute, TagValues, references_of};
use document::{Form, Value, Values};
use faults::Fault;

// The value of the first that is sought; absent where there is none.
#[tactic(auto, using(crate::proofs::First::seeking))]
fn first_named(doc: &[u8], attrs: &[Attribute], sought: Sought<'_>) -> Value
    ensures { Picks (wanted sought.entry doc.now) attrs.now result }
{
    for a in attrs {
        if is_wanted(doc, a.name, a.name_len, a.tp, sought) {
            return Value {
                at: a.value,
                len: a.value_len,
                form: a.form,
            };
        }
    }
    Value::ABSENT
}

// The values that mean something.
fn values(doc: &[u8], attrs: &[Attribute]) -> Values
    ensures { PicksAll doc.now attrs.now result }
{
    Values {
        name: first_named(doc, attrs, Sought::Named(b"name")),
        ty: first_named(doc, attrs, Sought::Named(b"type")),
        value: first_named(doc, attrs, Sought::Named(b"value")),
        access: first_named(doc, attrs, Sought::Named(b"access")),
        direction: first_named(doc, attrs, Sought::Named(b"direction")),
        suffix: first_named(doc, attrs, Sought::Named(b"suffix")),
        tp: first_named(doc, attrs, Sought::TpType),
    }
}

// One attribute, and the value of the first before it that has its name: duplicate, then reference.
#[tactic(auto, using(crate::proofs::Checking::weighs))]
fn weigh(doc: &[u8], a: Attribute, before: Value) -> Result<(), Fault>
    requires fits { Fit doc.now 0 (length doc.now) a }
    requires small { length doc.now ≤ 1048576 }
    ensures { Weighs doc.now a before result }
{
    if !before.is_absent() {
        return Err(Fault::new(8, a.name as usize));
    }
    match a.form {
        Form::Plain => Ok(()),
        _ => references_of(doc, a.value as usize, a.value_len as usize),
    }
}

// The bytes of an attribute's name.
fn name_of(doc: &[u8], a: Attribute) -> &[u8]
    requires { Fit doc.now 0 (length doc.now) a }
    ensures { result.now ≡ (attr_of doc.now a).name }
{
    let from = a.name as usize;
    &doc[from..from + a.name_len as usize]
}

// How many of the i before it an attribute's name is looked for among: none where no one has it.
fn until(twin: bool, i: usize) -> usize
    ensures { result ≡ among «twin» i }
{
    if twin {
        return i;
    }
    0
}

// One attribute after those before it.
fn judge(doc: &[u8], attrs: &[Attribute], i: usize) -> Result<(), Fault>
    requires held { i < length attrs.now }
    requires checkable { Checkable doc.now attrs.now }
    ensures { Judges doc.now attrs.now i result }
{
    let a = attrs[i];
    let m = until(a.twin, i);
    let before = first_named(doc, &attrs[..m], Sought::Named(name_of(doc, a)));
    weigh(doc, a, before)
}

// All, one by one.
fn check(doc: &[u8], attrs: &[Attribute]) -> Result<(), Fault>
    requires { Checkable doc.now attrs.now }
    ensures { Checks doc.now attrs.now result }
{
    for i in 0..attrs.len() {
        judge(doc, attrs, i)?;
    }
    Ok(())
}

// All, which end at a place: the check, then the values.
pub fn finish(doc: &[u8], attrs: &[Attribute], at: usize) -> Result<TagValues, Fault>
    requires { Checkable doc.now attrs.now }
    ensures { Finishes doc.now attrs.now «at» result }
{
    check(doc, attrs)?;
    Ok(TagValues {
        end: at,
        values: values(doc, attrs),
    })
}
