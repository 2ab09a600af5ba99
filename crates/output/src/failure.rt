// What a program could not do, told on standard error.
use crate::input::Stopped;
use std::io::{Error, Write};

// What failed, and why.
#[derive(Clone, Copy)]
pub enum Failure {
    Reading(Error),
    Writing(Error),
}

impl From<Stopped> for Failure {
    fn from(stopped: Stopped) -> Failure {
        Failure::Reading(stopped.why)
    }
}

impl Failure {
    // Says so as a line that begins with the program's name.
    pub fn tell<P: Print>(self, to: &P, program: &[u8]) {
        match self {
            Failure::Reading(why) => put_line(to, program, b": cannot read standard input: ", why),
            Failure::Writing(why) => put_line(
                to,
                program,
                b": cannot write standard output: ",
                why,
            ),
        }
    }
}

// The text of an error without its number, which stands behind the system's reason as ` (os error 21)`.
fn reason(text: &[u8], why: Error) -> &[u8] {
    let number = why
        .raw_os_error()
        .and_then(|_| text.iter().rposition(|b| *b == b'('));
    match number {
        None => text,
        Some(at) => crate::front(text, at.saturating_sub(1)),
    }
}

// Puts the text of an error into a buffer, as far as there is room, and answers how many bytes there are.
// It is not written at once, since `reason` takes off its end.
fn put_text(text: &mut [u8], why: Error) -> usize {
    let room = text.len();
    let mut rest = text;
    let _ = write!(rest, "{why}");
    room.saturating_sub(rest.len())
}

// Where this cannot be told either, there is nobody to tell.
fn put_line<P: Print>(to: &P, program: &[u8], what: &[u8], why: Error) {
    let mut text = [0u8; 512];
    let n = put_text(&mut text, why);
    let _ = to.write_all(program);
    let _ = to.write_all(what);
    let _ = to.write_all(reason(crate::front(&text, n), why));
    let _ = to.write_all(b"\n");
}
