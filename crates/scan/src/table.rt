// The class of each byte.
ghost use Rattle.std.specs.Prelude.{◌≡◌};
ghost use Rattle.scan.specs.Classes.{Classes, white, escapable, nc_name_byte};

// The classes of all bytes, to be copied once and lent.
#[derive(Clone, Copy)]
pub struct ClassTable {
    bytes: [u8; 256],
    pub ghost classes: { Classes bytes },
}

// 1 for white space, 2 for a name's byte other than the colon, 4 for what is escaped, added up.
const CLASSES: [u8; 256] = [
    2, 2, 2, 2, 2, 2, 2, 2, 2, 5, 5, 2, 1, 5, 2, 2, 2, 2, 2, 2, 2, 2, 2, 2, 2, 2, 2, 2, 2, 2, 2, 2,
    1, 2, 6, 2, 2, 2, 6, 6, 2, 2, 2, 2, 2, 2, 2, 0, 2, 2, 2, 2, 2, 2, 2, 2, 2, 2, 0, 2, 4, 0, 4, 2,
    2, 2, 2, 2, 2, 2, 2, 2, 2, 2, 2, 2, 2, 2, 2, 2, 2, 2, 2, 2, 2, 2, 2, 2, 2, 2, 2, 2, 2, 2, 2, 2,
    2, 2, 2, 2, 2, 2, 2, 2, 2, 2, 2, 2, 2, 2, 2, 2, 2, 2, 2, 2, 2, 2, 2, 2, 2, 2, 2, 2, 2, 2, 2, 2,
    2, 2, 2, 2, 2, 2, 2, 2, 2, 2, 2, 2, 2, 2, 2, 2, 2, 2, 2, 2, 2, 2, 2, 2, 2, 2, 2, 2, 2, 2, 2, 2,
    2, 2, 2, 2, 2, 2, 2, 2, 2, 2, 2, 2, 2, 2, 2, 2, 2, 2, 2, 2, 2, 2, 2, 2, 2, 2, 2, 2, 2, 2, 2, 2,
    2, 2, 2, 2, 2, 2, 2, 2, 2, 2, 2, 2, 2, 2, 2, 2, 2, 2, 2, 2, 2, 2, 2, 2, 2, 2, 2, 2, 2, 2, 2, 2,
    2, 2, 2, 2, 2, 2, 2, 2, 2, 2, 2, 2, 2, 2, 2, 2, 2, 2, 2, 2, 2, 2, 2, 2, 2, 2, 2, 2, 2, 2, 2, 2,
];

// The table of the classes.
pub fn classes() -> ClassTable {
    ClassTable { bytes: CLASSES }
}

impl ClassTable {
    pub fn is_white(&self, b: u8) -> bool
        ensures { result ≡ white b }
    {
        self.bytes[b as usize] % 2 == 1
    }

    // Whether a byte may stand in a name, and is no colon.
    pub fn is_nc_name(&self, b: u8) -> bool
        ensures { result ≡ nc_name_byte b }
    {
        self.bytes[b as usize] / 2 % 2 == 1
    }

    pub fn is_escapable(&self, b: u8) -> bool
        ensures { result ≡ escapable b }
    {
        self.bytes[b as usize] / 4 % 2 == 1
    }
}
