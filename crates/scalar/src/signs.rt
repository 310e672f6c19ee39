// The operators that keep a number or change its sign.
ghost use Rattle.std.specs.Prelude.{◌≡◌, ◌<◌};
ghost use Rattle.scalar.specs.Operators as S;

use crate::reading;
use trap::Trap;

pub fn identity(a: u32) -> Result<u32, Trap>
    ensures { result ≡ S.identity a }
{
    if reading::is_character(a) {
        return Err(Trap::TYPE_ERROR);
    }
    Ok(a)
}

pub fn negative(a: u32) -> Result<u32, Trap>
    ensures { result ≡ S.negative a }
{
    if reading::is_character(a) {
        return Err(Trap::TYPE_ERROR);
    }
    if a / 0x8000_0000 == 0 {
        return with_sign(1, a);
    }
    with_sign(0, a)
}

pub fn magnitude(a: u32) -> Result<u32, Trap>
    ensures { result ≡ S.magnitude_of a }
{
    if reading::is_character(a) {
        return Err(Trap::TYPE_ERROR);
    }
    with_sign(0, a)
}

// The number of a with the sign s; zero, which is no float, has none.
fn with_sign(s: u32, a: u32) -> Result<u32, Trap>
    requires { s < 2 }
    ensures { result ≡ S.with_sign s a }
{
    if a / 0x4000_0000 % 2 == 0 && a % 0x80_0000 == 0 {
        return Ok(0);
    }
    Ok(s * 0x8000_0000 + a % 0x8000_0000)
}
