// The digits of a character reference, and the character that they write.
ghost use Rattle.std.specs.Prelude.{◌≡◌, true, ◌+◌, ◌*◌, ◌≤◌, ◌<◌, drop, min};
ghost use Rattle.slices.specs.Bytes.{digit};
ghost use Rattle.references.specs.Characters.{xml_char};
ghost use Rattle.references.specs.Unescape.{hex_digit, digit_value, of_digits};
ghost use Rattle.references.specs.Digits.{digit_in, Base};
ghost use Rattle.references.specs.Outcome.{reference_of};

// Whether XML allows a character.
#[tactic(auto, unfolding(crate::specs::Characters::xml_char))]
fn is_xml_char(c: u32) -> bool
    ensures { result ≡ xml_char c }
{
    matches!(c, 9 | 10 | 13 | 0x20..=0xd7ff | 0xe000..=0xfffd | 0x10000..=0x10ffff)
}

fn is_decimal(b: u8) -> bool
    ensures { result ≡ digit b }
{
    b.is_ascii_digit()
}

fn is_hex(b: u8) -> bool
    ensures { result ≡ hex_digit b }
{
    b.is_ascii_hexdigit()
}

// Whether a byte is a digit: of base 16, or of 10.
fn is_digit(base: u32, b: u8) -> bool
    ensures { result ≡ digit_in base b }
{
    if base == 16 {
        return is_hex(b);
    }
    is_decimal(b)
}

// The value of a digit of base 16; those of 10 are among them. Three ranges, each with its own offset: the letters of either case go on from 10.
fn digit_value(b: u8) -> u32
    requires { hex_digit b ≡ true }
    ensures { result ≡ digit_value b }
{
    if b <= 57 {
        return (b - 48) as u32;
    }
    if b <= 70 {
        return (b - 55) as u32;
    }
    (b - 87) as u32
}

// What a number and a digit after it write, or 0x110000 where that is more: no character has that number.
fn extended(n: u32, base: u32, d: u32) -> u32
    requires bounded { n ≤ 0x110000 }
    requires base { Base base }
    requires byte { d < 256 }
    ensures { result ≡ min (n * base + d) 0x110000 }
{
    (n * base + d).min(0x110000)
}

// The code of the character that the digits from a place on write, with any number of zeros before them, or a fault's number.
// `Err` holds the number alone: only the caller knows the place.
#[tactic(auto, using(crate::proofs::Numbers::numbers))]
pub fn of_digits(s: &[u8], from: usize, base: u32) -> Result<u32, u32>
    requires { Base base }
    ensures { reference_of result ≡ of_digits base (digit_in base) (drop from s.now) }
{
    if s.len() <= from {
        return Err(11);
    }
    let mut n = 0u32;
    for &b in &s[from..] {
        if !is_digit(base, b) {
            return Err(11);
        }
        n = extended(n, base, digit_value(b));
    }
    if is_xml_char(n) { Ok(n) } else { Err(11) }
}
