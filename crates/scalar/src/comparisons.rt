// LESS and EQUAL, by the exact values of two numbers.
ghost use Rattle.std.specs.Prelude.{◌≡◌};
ghost use Rattle.scalar.specs.Operators as S;

use crate::order::{as_float, is_below, is_level};
use crate::reading::is_character;
use crate::words;
use trap::Trap;

pub fn less(a: u32, b: u32) -> Result<u32, Trap>
    ensures { result ≡ S.less a b }
{
    if words::both_small(a, b) {
        return Ok(is_below(a, b) as u32);
    }
    if words::one_character(a, b) {
        return Err(Trap::TYPE_ERROR);
    }
    Ok(is_below(as_float(a), as_float(b)) as u32)
}

pub fn equal(a: u32, b: u32) -> Result<u32, Trap>
    ensures { result ≡ S.equal a b }
{
    if words::both_small(a, b) {
        return Ok(is_level(a, b) as u32);
    }
    if is_character(a) {
        return Ok((is_character(b) && a % 0x100 == b % 0x100) as u32);
    }
    if is_character(b) {
        return Ok(0);
    }
    Ok(is_level(as_float(a), as_float(b)) as u32)
}
