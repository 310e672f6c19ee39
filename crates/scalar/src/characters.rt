// The operators that tell characters from numbers, and make one of the other.
ghost use Rattle.std.specs.Prelude.{◌≡◌};
ghost use Rattle.scalar.specs.Operators as S;

use crate::{Whole, reading};
use descriptor::Descriptor;
use trap::Trap;

pub fn test_number(a: u32) -> Result<u32, Trap>
    ensures { result ≡ S.test_number a }
{
    Ok(!reading::is_character(a) as u32)
}

pub fn convert(a: u32) -> Result<u32, Trap>
    ensures { result ≡ S.convert a }
{
    match reading::whole(a) {
        Whole::Character => Ok(a % 0x100),
        Whole::Fraction => Err(Trap::DOMAIN_ERROR),
        Whole::Number {
            negative,
            magnitude,
        } => character(negative, magnitude),
    }
}

// The character whose code is a whole number.
fn character(negative: bool, magnitude: u32) -> Result<u32, Trap>
    ensures { result ≡ S.character_of negative magnitude }
{
    if negative || 0xff < magnitude {
        return Err(Trap::DOMAIN_ERROR);
    }
    Ok(Descriptor::character(magnitude as u8).word())
}
