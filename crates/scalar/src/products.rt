// PRODUCT and QUOTIENT.
ghost use Rattle.std.specs.Prelude.{◌≡◌, ◌*◌, ◌^◌, ◌<◌, ◌≤◌};
ghost use Rattle.descriptor.specs.Fields.{magnitude};
ghost use Rattle.scalar.specs.Value.{one, units};
ghost use Rattle.scalar.specs.Results as R;
ghost use Rattle.scalar.specs.Operators as S;
ghost use Rattle.scalar.specs.Parts.{Normal};

use crate::{results, words};
use trap::Trap;

pub fn product(a: u32, b: u32) -> Result<u32, Trap>
    ensures { result ≡ S.product a b }
{
    if words::both_small(a, b) {
        return integer_product(a, b);
    }
    if words::one_character(a, b) {
        return Err(Trap::TYPE_ERROR);
    }
    times(a, b)
}

// The product of two numbers.
fn times(a: u32, b: u32) -> Result<u32, Trap>
    ensures { result ≡ S.times a b }
{
    if a / 0x4000_0000 % 2 == 0 && b / 0x4000_0000 % 2 == 0 {
        return integer_product(a, b);
    }
    float_product(a, b)
}

fn integer_product(a: u32, b: u32) -> Result<u32, Trap>
    ensures { result ≡ R.integer (S.product_sign a b) (magnitude a * magnitude b) }
{
    results::integer(
        (a / 0x8000_0000 + b / 0x8000_0000) % 2,
        (a % 0x80_0000) as u64 * (b % 0x80_0000) as u64,
    )
}

fn float_product(a: u32, b: u32) -> Result<u32, Trap>
    ensures { result ≡ R.rounded (S.product_sign a b) (units a * units b) one }
{
    let p = words::unpack(a);
    let q = words::unpack(b);
    results::rounded(
        (a / 0x8000_0000 + b / 0x8000_0000) % 2,
        p.sig * q.sig,
        p.exp + q.exp,
    )
}

pub fn quotient(a: u32, b: u32) -> Result<u32, Trap>
    ensures { result ≡ S.quotient a b }
{
    if words::one_character(a, b) {
        return Err(Trap::TYPE_ERROR);
    }
    let p = words::unpack(a);
    let q = words::unpack(b);
    if q.sig == 0 {
        return Err(Trap::ZERO_DIVISOR);
    }
    ratio(
        (a / 0x8000_0000 + b / 0x8000_0000) % 2,
        p.sig,
        p.exp,
        q.sig,
        q.exp,
    )
}

// g 2^e / (d 2^f), with a last bit that says whether anything is left over.
fn ratio(s: u32, g: u64, e: u32, d: u64, f: u32) -> Result<u32, Trap>
    requires { (s < 2) × (g < 2 ^ 23) × (0 < g → 2 ^ 22 ≤ g) × (e < 256) × Normal d f }
    ensures { result ≡ R.rounded s (g * 2 ^ e * one) (d * 2 ^ f) }
{
    let n = g * 0x100_0000_0000;
    let h = n / d;
    if n % d == 0 {
        results::rounded(s, h * 2, e + 259 - f)
    } else {
        results::rounded(s, h * 2 + 1, e + 259 - f)
    }
}
