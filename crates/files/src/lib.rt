// A file: a document, or one in UTF-16 with a byte order mark. What reading it comes to is in specs/.
#![tactic(auto)]

use document::Verdict;

// What reading a file answers: the verdict, and how many bytes of its text were decoded; 0 of a file without a mark, and where decoding is
// refused. No Option: the definitions (`decoded_length`, `document_left`) answer and take a length, 0 for none, and the word for C is that.
#[derive(Clone, Copy)]
pub struct Reading {
    pub verdict: Verdict,
    pub decoded: usize,
}
