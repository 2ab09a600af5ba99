// What a message is made of: a document's bytes, and the words around what is shown of them.
ghost use Rattle.std.specs.Prelude.{◌≡◌, ◌≤◌, ◌<◌, length};

// The bytes of a document that is not over-long, or a part of them.
#[derive(Clone, Copy)]
pub struct Part<'a> {
    pub bytes: &'a [u8],
    pub ghost small: { length bytes.now ≤ 1048576 },
}

// The words before what is shown, and after it.
#[derive(Clone, Copy)]
pub struct Frame<'a> {
    pub before: &'a [u8],
    pub after: &'a [u8],
    pub ghost short_before: { length before.now < 1024 },
    pub ghost short_after: { length after.now < 1024 },
}

impl<'a> Frame<'a> {
    pub fn new(before: &'a [u8], after: &'a [u8]) -> Frame<'a>
        requires short_before { length before.now < 1024 }
        requires short_after { length after.now < 1024 }
        ensures before { result.before.now ≡ before.now }
        ensures after { result.after.now ≡ after.now }
    {
        Frame { before, after }
    }
}
