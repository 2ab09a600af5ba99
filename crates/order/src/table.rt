// A lent table of n rows, with the document and the text that its triples lead to.
ghost use Rattle.order.specs.Steps.{Held};

#[derive(Clone, Copy)]
pub struct Table<'a> {
    pub document: &'a [u8],
    pub text: &'a [u8],
    pub rows: &'a [u32],
    pub n: usize,
    ghost held: { Held rows.now n },
}
