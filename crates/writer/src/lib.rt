// A writer: the buffer that a caller lends, together with its fill count.
#![tactic(auto)]

ghost use Rattle.std.specs.Prelude.{◌≡◌, ◌++◌, ◌+◌, ◌*◌, ◌<◌, ◌^◌, length};
ghost use Rattle.answers.specs.Puts.{Puts};
ghost use Rattle.references.specs.Escape.{escape};
ghost use Rattle.writer.specs.Added.{Adds};

use scan::ClassTable;

#[derive(Drop)]
struct Writer<'a> {
    buf: &'a mut [u8],
    len: usize,
}

impl<'a> Writer<'a> {
    // The borrow goes into the writer, and the count with it.
    fn new(buf: &'a mut [u8], len: usize) -> Writer<'a>
        ensures { (result.buf ≡ buf.entry) × (result.len ≡ len) }
    {
        Writer { buf, len }
    }

    // Puts bytes as they are.
    fn put(&mut self, s: &[u8])
        requires { self.old.len + length s.now < 2 ^ 62 }
        ensures { Adds s.now self.old self.new }
    {
        let n = self.len;
        self.len = answers::put::put_bytes(&mut *self.buf, n, s);
    }

    // Puts the escaped bytes of a value.
    fn put_escaped(&mut self, value: &[u8], classes: &ClassTable)
        requires { self.old.len + 6 * length value.now < 2 ^ 62 }
        ensures { Adds (escape value.now) self.old self.new }
    {
        let n = self.len;
        self.len = references::put_escaped(value, classes, &mut *self.buf, n);
    }
}

// Puts bytes as they are, then the escaped bytes of a value. The contract says nothing of a writer.
pub fn put_value(
    out: &mut [u8],
    n: usize,
    before: &[u8],
    value: &[u8],
    classes: &ClassTable,
) -> usize
    requires { n + length before.now + 6 * length value.now < 2 ^ 62 }
    ensures { Puts (before.now ++ escape value.now) n out.old out.new result }
{
    let mut w = Writer::new(out, n);
    w.put(before);
    w.put_escaped(value, classes);
    w.len
}
