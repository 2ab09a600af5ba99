// What is written from: a document, a text and the rows of a lent table.
ghost use Rattle.trees.specs.Steps.{Held, Stands};

use crate::children::Standing;
use scan::ClassTable;

// A document, a text and the first n rows of a table; how the rows stand; and the classes of bytes by which values are escaped.
#[derive(Drop)]
pub struct Table<'a, 'r> {
    pub document: &'a [u8],
    pub text: &'a [u8],
    pub rows: &'r [u32],
    pub n: usize,
    pub standing: Standing,
    pub classes: ClassTable,
    ghost held: { Held document.now text.now rows.now n },
    ghost stands: { ∥ Stands rows.now n standing ∥₁ },
}
