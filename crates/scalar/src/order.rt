// The order of numbers by their words: two integers, and two floats, lie as their words do, read as a sign and a magnitude of
// 31 bits. Any number can be had as a float.
ghost use Rattle.std.specs.Prelude.{◌≡◌, ◌+◌, ◌%◌, ◌^◌, ◌==◌, nat_lt};
ghost use Rattle.scalar.specs.Parts.{AsFloat, word_place};

use crate::words;
use std::num::{wrapping_add_u32, wrapping_sub_u32};

// Of two integers, or of two floats: the first lies below the second; both are the same number.
pub fn is_below(x: u32, y: u32) -> bool
    ensures { result ≡ nat_lt (word_place x) (word_place y) }
{
    place(x) < place(y)
}

pub fn is_level(x: u32, y: u32) -> bool
    ensures { result ≡ (word_place x == word_place y) }
{
    place(x) == place(y)
}

// 2^31 plus the word without its sign, or minus it. In arithmetic that wraps, so that the compiler needs no branch.
fn place(w: u32) -> u32
    ensures { result ≡ word_place w }
{
    wrapping_add_u32(0x8000_0000, signed(w))
}

// The word without its sign, or its negative, modulo 2^32.
fn signed(w: u32) -> u32
    ensures { (2 ^ 31 + result) % 2 ^ 32 ≡ word_place w }
{
    let m = w % 0x8000_0000;
    if w < 0x8000_0000 {
        m
    } else {
        wrapping_sub_u32(0, m)
    }
}

// The float that a number is: an integer has no more digits than a float holds. Zero stays integer 0.
pub fn as_float(w: u32) -> u32
    ensures { AsFloat w result }
{
    if w / 0x4000_0000 % 2 == 1 {
        return w;
    }
    let p = words::unpack(w);
    if p.sig == 0 {
        return 0;
    }
    w / 0x8000_0000 * 0x8000_0000 + 0x4000_0000 + p.exp * 0x40_0000 + (p.sig as u32 - 0x40_0000)
}
