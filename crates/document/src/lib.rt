// The kinds of elements, the structs that the reader's functions share, and the raw bytes of a value. What a document means is in specs/.
#![tactic(auto)]

ghost use Rattle.std.specs.Prelude.{◌≡◌, ◌+◌, ◌<◌, ◌^◌};
ghost use Rattle.document.specs.Refusals.{bare, showing, shown_by};
ghost use Rattle.document.specs.declared.Excerpt.{Excerpt};
ghost use Rattle.document.specs.Outcome.{Lies, Raw, is_absent, moved};

pub mod kinds;

use faults::Fault;
use scan::ClassTable;

// Bytes of the document, by their place and how many they are.
#[derive(Clone, Copy)]
pub struct Excerpt {
    pub at: u32,
    pub len: u32,
}

impl Excerpt {
    // So many bytes at a place.
    pub fn new(at: usize, len: usize) -> Excerpt
        requires { at + len < 2 ^ 32 }
        ensures { result ≡ record { at = at; len = len } }
    {
        Excerpt {
            at: at as u32,
            len: len as u32,
        }
    }
}

// Why a document is refused: the place, the number, and what the message shows: the key of a missing attribute, and up to two
// excerpts. The number is no enum, since the interface for C tells it.
// Key 0 and `NOTHING` are zeros and no Option: the words of the interface for C are zeros where nothing is shown, and the definitions say so.
#[derive(Clone, Copy)]
pub struct Refusal {
    pub place: usize,
    pub number: u32,
    pub key: u32,
    pub first: Excerpt,
    pub second: Excerpt,
}

// Nothing is shown.
const NOTHING: Excerpt = Excerpt { at: 0, len: 0 };

// A refusal whose message shows nothing.
pub fn bare(number: u32, place: usize) -> Refusal
    ensures { result ≡ bare number place }
{
    Refusal {
        place,
        number,
        key: 0,
        first: NOTHING,
        second: NOTHING,
    }
}

// A refusal whose message shows one excerpt.
pub fn showing(number: u32, place: usize, first: Excerpt) -> Refusal
    ensures { result ≡ showing number place first }
{
    Refusal {
        place,
        number,
        key: 0,
        first,
        second: NOTHING,
    }
}

impl From<Fault> for Refusal {
    ghost from_gives = { λ f r. r ≡ bare f.number f.place };

    fn from(fault: Fault) -> Refusal {
        bare(fault.number, fault.place)
    }
}

// How many excerpts the message of a number shows.
pub fn shown_by(number: u32) -> u32
    ensures { result ≡ shown_by number }
{
    match number {
        6 => 2,
        5 | 8 | 10 | 11 | 12 | 15 | 16 => 1,
        _ => 0,
    }
}

// How many rows, text bytes and warnings were read.
#[derive(Clone, Copy)]
pub struct Counts {
    pub rows: usize,
    pub text: usize,
    pub warnings: usize,
}

// What was read of a document, or why it is refused.
pub type Verdict = Result<Counts, Refusal>;

// How the raw value of an attribute shows its text: as it stands, or changed; or there is no such attribute.
// No Option of a value: that takes four bytes more for each of a tag's seven values, by which reading takes longer.
#[derive(Clone, Copy)]
pub enum Form {
    Absent,
    Plain,
    Changed,
}

// The raw value of an attribute.
#[derive(Clone, Copy)]
pub struct Value {
    pub at: u32,
    pub len: u32,
    pub form: Form,
}

impl Value {
    // A value that is not there.
    pub const ABSENT: Value = Value {
        at: 0,
        len: 0,
        form: Form::Absent,
    };

    // Whether a value is not there. A function, so that tests in three crates have its clause.
    pub fn is_absent(self) -> bool
        ensures { result ≡ is_absent self }
    {
        matches!(self.form, Form::Absent)
    }
}

// The raw bytes of a value.
pub fn raw(doc: &[u8], v: Value) -> &[u8]
    requires { Lies doc.now v }
    ensures { Raw doc.now v result.now }
{
    let at = v.at as usize;
    let end = at + v.len as usize;
    &doc[at..end]
}

// The values of the attributes that mean something.
#[derive(Clone, Copy)]
pub struct Values {
    pub name: Value,
    pub ty: Value,
    pub value: Value,
    pub access: Value,
    pub direction: Value,
    pub suffix: Value,
    pub tp: Value,
}

// A start tag: the place and length of its name, the kind of that name, whether it is `/>`, the place after it, its values.
// `closes` is a bool, here and in other crates: no value goes with either answer.
#[derive(Clone, Copy)]
pub struct StartTag {
    pub at: usize,
    pub len: usize,
    pub kind: u32,
    pub closes: bool,
    pub end: usize,
    pub values: Values,
}

// A place in the document, and the counts so far. That they fit the document and a tag is said by clauses (`Ready`, `Bounded`) and by no
// ghost field: each of the three goes on alone, so no type holds them all.
#[derive(Clone, Copy)]
pub struct Fill {
    pub at: usize,
    pub rows: usize,
    pub warnings: usize,
    pub text: usize,
}

impl Fill {
    // The counts at another place.
    pub fn moved(self, at: usize) -> Fill
        ensures { result ≡ moved self «at» }
    {
        Fill { at, ..self }
    }
}

// A closing tag: the place of `<`, the place and length of its name, the place after it.
#[derive(Clone, Copy)]
pub struct ClosingTag {
    pub lt: usize,
    pub at: usize,
    pub len: usize,
    pub end: usize,
}

// A token: the end, a closing tag or a start tag. No Option: each of the three has a value of its own.
#[derive(Clone, Copy)]
pub enum Token {
    End(usize),
    Close(ClosingTag),
    Start(StartTag),
}

// Where the closing tag of an element stands: the place of `<`, and the place after it.
#[derive(Clone, Copy)]
pub struct Closing {
    pub lt: usize,
    pub end: usize,
}

// What comes next in an open element: its closing tag, or a start tag. No Option: each has a value of its own.
#[derive(Clone, Copy)]
pub enum Next {
    Close(Closing),
    Start(StartTag),
}

// What reading goes over and what it fills: the document, the classes of its bytes, and the buffers that the caller lends.
// They are lent, since the library has no heap.
// Functions that fill nothing take the document and the classes apart, and say in a clause that it is short: by a struct of the two, lent by
// reference, reading takes longer.
#[derive(Drop)]
pub struct Reader<'a, 'r> {
    pub doc: &'a [u8],
    pub classes: &'a ClassTable,
    pub rows: &'r mut [u32],
    pub warnings: &'r mut [u32],
    pub text: &'r mut [u8],
}
