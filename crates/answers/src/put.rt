// Bytes put at a count into a lent text that may be full. The count runs on past the room, so it is no part of the text.
ghost use Rattle.std.specs.Prelude.{[], ◌∷◌, ◌+◌, ◌<◌, ◌^◌, length};
ghost use Rattle.utf8.specs.Encoding.{utf8};
ghost use Rattle.answers.specs.Puts.{Puts};

#[tactic(auto, using(crate::proofs::Putting::puts))]
pub fn put_bytes(out: &mut [u8], n: usize, bytes: &[u8]) -> usize
    requires { n + length bytes.now < 2 ^ 62 }
    ensures { Puts bytes.now n out.old out.new result }
{
    let mut m = n;
    for &b in bytes {
        m = tables::put_byte(out, m, b);
    }
    m
}

// Two bytes of a character: the last of its UTF-8.
#[tactic(auto, using(crate::proofs::Putting::puts))]
fn put_two(out: &mut [u8], n: usize, a: u8, b: u8) -> usize
    requires { n + 2 < 2 ^ 62 }
    ensures { Puts (a ∷ b ∷ []) n out.old out.new result }
{
    let m = tables::put_byte(out, n, a);
    tables::put_byte(out, m, b)
}

// The UTF-8 of a character.
#[tactic(auto, using(crate::proofs::Putting::puts))]
pub fn put_char(out: &mut [u8], n: usize, c: u32) -> usize
    requires character { c < 1114112 }
    requires room { n + 4 < 2 ^ 62 }
    ensures { Puts (utf8 c) n out.old out.new result }
{
    if c < 0x80 {
        return tables::put_byte(out, n, c as u8);
    }
    let last = (0x80 + c % 64) as u8;
    if c < 0x800 {
        return put_two(out, n, (0xc0 + c / 64) as u8, last);
    }
    let third = (0x80 + c / 64 % 64) as u8;
    if c < 0x10000 {
        let m = tables::put_byte(out, n, (0xe0 + c / 4096) as u8);
        return put_two(out, m, third, last);
    }
    let m = put_two(
        out,
        n,
        (0xf0 + c / 262144) as u8,
        (0x80 + c / 4096 % 64) as u8,
    );
    put_two(out, m, third, last)
}
