// What is answered of a text that is put into a lent buffer, and how the buffer is left.
#![tactic(auto)]

ghost use Rattle.std.specs.Prelude.{length};
ghost use Rattle.answers.specs.Text.{wrong, Says, Finishes};

pub mod put;

use faults::Fault;

// How many bytes were written, or why none were.
pub type TextAnswer = Result<usize, Fault>;

// Leaves zeros.
#[tactic(auto, using(crate::proofs::Answers::steps))]
pub fn refuse(out: &mut [u8], fault: Fault) -> TextAnswer
    ensures { Says (wrong fault.number fault.place) (length out.old) out.new result }
{
    tables::clear_bytes(out, 0);
    Err(fault)
}

// Leaves n bytes and zeros after them, or, where they do not fit, zeros and the fault.
#[tactic(auto, using(crate::proofs::Answers::steps))]
pub fn finish(out: &mut [u8], n: usize, fault: Fault) -> TextAnswer
    ensures { Finishes n fault.number fault.place out.old out.new result }
{
    if out.len() < n {
        return refuse(out, fault);
    }
    tables::clear_bytes(out, n);
    Ok(n)
}
