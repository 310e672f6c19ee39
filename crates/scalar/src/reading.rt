// How a scalar is read: as a character, as a whole number, as zero or one.
ghost use Rattle.std.specs.Prelude.{◌≡◌, ◌*◌, ◌^◌, ◌<◌, ◌≤◌};
ghost use Rattle.descriptor.specs.Fields.{is_character};
ghost use Rattle.descriptor.specs.Kinds.{bit};
ghost use Rattle.scalar.specs.Reading as S;

use crate::{Truth, Whole};
use descriptor::Descriptor;

pub fn is_character(w: u32) -> bool
    ensures { result ≡ is_character w }
{
    w / 0x100_0000 % 0x80 == Descriptor::TYPE_CHARACTER
}

pub fn whole(w: u32) -> Whole
    ensures { result ≡ S.whole_of w }
{
    if is_character(w) {
        return Whole::Character;
    }
    let negative = w / 0x8000_0000 == 1;
    if w / 0x4000_0000 % 2 == 1 {
        return whole_float(negative, 0x40_0000 + w % 0x40_0000, w / 0x40_0000 % 0x100);
    }
    let m = w % 0x80_0000;
    if m == 0 {
        return Whole::Number {
            negative: false,
            magnitude: 0,
        };
    }
    Whole::Number {
        negative,
        magnitude: m,
    }
}

// A float of sig * 2^exp units: whole from 2^23 on, a fraction below 1, and else whole if no bit stands below one.
fn whole_float(negative: bool, sig: u32, exp: u32) -> Whole
    requires { (2 ^ 22 ≤ sig) × (sig < 2 ^ 23) × (exp < 256) }
    ensures { result ≡ S.whole_units (bit negative) (sig * 2 ^ exp) }
{
    if 150 < exp {
        return Whole::Number {
            negative,
            magnitude: 0x80_0000,
        };
    }
    if exp < 128 {
        return Whole::Fraction;
    }
    let k = 150 - exp;
    let n = sig >> k;
    if n << k == sig {
        Whole::Number {
            negative,
            magnitude: n,
        }
    } else {
        Whole::Fraction
    }
}

pub fn truth(w: u32) -> Truth
    ensures { result ≡ S.truth_of w }
{
    if is_character(w) {
        return Truth::Character;
    }
    if w / 0x4000_0000 % 2 == 1 {
        if w == 0x6000_0000 {
            return Truth::Value(true);
        }
        return Truth::Other;
    }
    let m = w % 0x80_0000;
    if m == 0 {
        return Truth::Value(false);
    }
    if m == 1 && w / 0x8000_0000 == 0 {
        return Truth::Value(true);
    }
    Truth::Other
}
