// Triples of a row: absent, or a text that its kind may have there.
ghost use Rattle.std.specs.Prelude.{◌≡◌};
ghost use Rattle.items.specs.Sound.{good_triple, name_use, value_use, tp_use, valid_name, valid_value, any_text};
ghost use Rattle.soundness.specs.Outcome.{is_part, is_text, good_doc};

use super::lent::{self, Buffer, Table};
use super::{ends, kinds};
use tables::Triple;

// Whether a triple leads to a part of a buffer that is UTF-8.
#[inline(always)]
#[tactic(auto, using(crate::proofs::Triples::in_buffers))]
fn is_part(buffer: &Buffer, t: Triple) -> bool
    ensures { result ≡ is_part buffer.now.bytes.now t }
{
    let from = t.start as usize;
    let len = t.len as usize;
    from + len <= buffer.bytes.len() && ends::is_formed(buffer, from, len)
}

// Whether a triple leads to a part of the buffer that it names, and the part is UTF-8. A look for each buffer, put in place here: where the
// buffer is chosen first, or the look is a call, the check of rows takes longer.
#[inline(always)]
#[tactic(auto, using(crate::proofs::Triples::in_buffers))]
fn is_text(table: &Table, t: Triple) -> bool
    ensures { result ≡ is_text table.now.document.bytes.now table.now.text.bytes.now t }
{
    match t.source {
        1 => is_part(&table.document, t),
        2 => is_part(&table.text, t),
        _ => false,
    }
}

// Words 2-4: the name that a kind must or may have.
#[tactic(auto, using(crate::proofs::Triples::named))]
pub fn good_name(table: &Table, kind: u32, t: Triple) -> bool
    ensures { result ≡ good_triple table.now.document.bytes.now table.now.text.bytes.now
        (name_use kind) (valid_name kind) t }
{
    if items::is_absent(t) {
        return kinds::may_lack_name(kind);
    }
    is_text(table, t) && kinds::valid_name(kind, lent::shown(table, t))
}

// Words 5-7: the value or signature of the kinds that have one.
#[tactic(auto, using(crate::proofs::Triples::valued))]
pub fn good_value(table: &Table, kind: u32, t: Triple) -> bool
    ensures { result ≡ good_triple table.now.document.bytes.now table.now.text.bytes.now
        (value_use kind) (valid_value kind) t }
{
    if !kinds::uses_value(kind) {
        return items::is_absent(t);
    }
    !items::is_absent(t) && is_text(table, t) && kinds::valid_value(kind, lent::shown(table, t))
}

// Words 8-10: the tp type of the kinds that may have one.
#[tactic(auto, using(crate::proofs::Triples::typed_texts))]
pub fn good_tp(table: &Table, kind: u32, t: Triple) -> bool
    ensures { result ≡ good_triple table.now.document.bytes.now table.now.text.bytes.now
        (tp_use kind) any_text t }
{
    items::is_absent(t) || kinds::uses_tp(kind) && is_text(table, t)
}

// Words 11-13: a docstring, which is in the document.
#[tactic(auto, using(crate::proofs::Triples::documented))]
pub fn good_doc(table: &Table, kind: u32, t: Triple) -> bool
    ensures { result ≡ good_doc table.now.document.bytes.now table.now.text.bytes.now kind t }
{
    items::is_absent(t)
        || kind != document::kinds::ANNOTATION && t.source == 1 && is_part(&table.document, t)
}
