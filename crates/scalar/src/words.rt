// What the bits of operands say: whether both are small, whether one is a character, and a number's magnitude.
ghost use Rattle.std.specs.Prelude.{◌≡◌};
ghost use Rattle.scalar.specs.Parts.{Unpacked, both_small, one_character};

use crate::reading;

// A magnitude of sig * 2^exp units of 2^-150.
#[derive(Clone, Copy)]
pub struct Parts {
    pub sig: u64,
    pub exp: u32,
}

// Both words have bits 30-23 clear: of two scalars, both are integers.
pub fn both_small(a: u32, b: u32) -> bool
    ensures { result ≡ both_small a b }
{
    a / 0x80_0000 % 0x100 == 0 && b / 0x80_0000 % 0x100 == 0
}

pub fn one_character(a: u32, b: u32) -> bool
    ensures { result ≡ one_character a b }
{
    reading::is_character(a) || reading::is_character(b)
}

// The magnitude of a number.
pub fn unpack(w: u32) -> Parts
    ensures { Unpacked w result.sig result.exp }
{
    if w / 0x4000_0000 % 2 == 1 {
        return Parts {
            sig: (0x40_0000 + w % 0x40_0000) as u64,
            exp: w / 0x40_0000 % 0x100,
        };
    }
    let m = w % 0x80_0000;
    if m == 0 {
        return Parts { sig: 0, exp: 0 };
    }
    let z = u32::leading_zeros(m);
    Parts {
        sig: (m << (z - 9)) as u64,
        exp: 159 - z,
    }
}
