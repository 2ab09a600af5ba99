// What is checked: a document, a text buffer and the rows of a lent table.
ghost use Rattle.std.specs.Prelude.{◌≡◌, ◌*◌, ◌≤◌, length, take};
ghost use Rattle.utf8.specs.WellFormed.{ill_formed};
ghost use Rattle.tables.specs.Triple.{shown};

use tables::Triple;

// A buffer, of which so many bytes at the beginning are known to be UTF-8.
#[derive(Clone, Copy)]
pub struct Buffer<'a> {
    pub bytes: &'a [u8],
    pub known: usize,
    pub ghost inside: { known ≤ length bytes.now },
    pub ghost formed: { ill_formed (take known bytes.now) ≡ known },
}

// A document, a text and the first n rows of a table.
#[derive(Clone, Copy)]
pub struct Table<'a, 'r> {
    pub document: Buffer<'a>,
    pub text: Buffer<'a>,
    pub rows: &'r [u32],
    pub n: usize,
    pub ghost held: { n * 16 ≤ length rows.now },
    pub ghost few: { n ≤ 262144 },
}

// The bytes that a triple shows.
pub fn shown<'a, 'r>(table: &Table<'a, 'r>, t: Triple) -> &'a [u8]
    ensures { result.now ≡ shown table.now.document.bytes.now table.now.text.bytes.now t }
{
    tables::lookup(table.document.bytes, table.text.bytes, t)
}
