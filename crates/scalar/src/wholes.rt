// FLOOR and CEILING.
ghost use Rattle.std.specs.Prelude.{◌≡◌, ◌*◌, ◌^◌, ◌<◌};
ghost use Rattle.scalar.specs.Operators as S;

use crate::{reading, results, words};
use trap::Trap;

pub fn floor(a: u32) -> Result<u32, Trap>
    ensures { result ≡ S.floor a }
{
    if reading::is_character(a) {
        return Err(Trap::TYPE_ERROR);
    }
    whole_near((a / 0x8000_0000) as u64, a)
}

pub fn ceiling(a: u32) -> Result<u32, Trap>
    ensures { result ≡ S.ceiling a }
{
    if reading::is_character(a) {
        return Err(Trap::TYPE_ERROR);
    }
    whole_near((1 - a / 0x8000_0000) as u64, a)
}

// The whole number next to a, its magnitude not larger if up is 0 and else not smaller.
fn whole_near(up: u64, a: u32) -> Result<u32, Trap>
    requires { up < 2 }
    ensures { result ≡ S.whole_near up a }
{
    if a / 0x4000_0000 % 2 == 0 {
        return results::integer(a / 0x8000_0000, (a % 0x80_0000) as u64);
    }
    let p = words::unpack(a);
    if 150 < p.exp {
        return Ok(a);
    }
    results::integer(a / 0x8000_0000, ones(up, p.sig, p.exp))
}

// sig * 2^exp units as a whole number of ones.
fn ones(up: u64, sig: u64, exp: u32) -> u64
    requires { (sig < 2 ^ 23) × (exp < 151) × (up < 2) }
    ensures { result ≡ S.ones up (sig * 2 ^ exp) }
{
    if sig == 0 {
        return 0;
    }
    if exp < 128 {
        return up;
    }
    let k = 150 - exp;
    if up == 0 {
        sig >> k
    } else {
        (sig + ((1u64 << k) - 1)) >> k
    }
}
