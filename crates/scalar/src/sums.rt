// SUM and DIFFERENCE: exact sums of signed magnitudes.
ghost use Rattle.std.specs.Prelude.{◌≡◌, ℕ, ◌-◌, ◌*◌, ◌^◌, ◌<◌, ◌≤◌, true, false};
ghost use Rattle.descriptor.specs.Fields.{sign, magnitude};
ghost use Rattle.scalar.specs.Value.{one, units, one_float};
ghost use Rattle.scalar.specs.Operators as S;
ghost use Rattle.scalar.specs.Parts.{SignedSum, signed_place, distance_of};

use crate::{results, words};
use trap::Trap;

// A sum's sign and magnitude.
#[derive(Clone, Copy)]
struct Signed {
    sign: u32,
    size: u64,
}

pub fn sum(a: u32, b: u32) -> Result<u32, Trap>
    ensures { result ≡ S.sum a b }
{
    if words::both_small(a, b) {
        return integer_sum(
            a / 0x8000_0000,
            a % 0x80_0000,
            b / 0x8000_0000,
            b % 0x80_0000,
        );
    }
    if words::one_character(a, b) {
        return Err(Trap::TYPE_ERROR);
    }
    plus(a / 0x8000_0000, a, b / 0x8000_0000, b)
}

pub fn difference(a: u32, b: u32) -> Result<u32, Trap>
    ensures { result ≡ S.difference a b }
{
    if words::both_small(a, b) {
        return integer_difference(a, b);
    }
    if words::one_character(a, b) {
        return Err(Trap::TYPE_ERROR);
    }
    minus(a, b)
}

// The difference of two numbers.
fn minus(a: u32, b: u32) -> Result<u32, Trap>
    ensures { result ≡ S.minus a b }
{
    plus(a / 0x8000_0000, a, 1 - b / 0x8000_0000, b)
}

// The difference of two integers.
fn integer_difference(a: u32, b: u32) -> Result<u32, Trap>
    ensures { result ≡ S.plus false (sign a) (magnitude a * one) (1 - sign b) (magnitude b * one) }
{
    integer_sum(
        a / 0x8000_0000,
        a % 0x80_0000,
        1 - b / 0x8000_0000,
        b % 0x80_0000,
    )
}

// The sum of two integers.
fn integer_sum(s: u32, n: u32, t: u32, m: u32) -> Result<u32, Trap>
    requires { (s < 2) × (t < 2) × (n < 2 ^ 23) × (m < 2 ^ 23) }
    ensures { result ≡ S.plus false s (n * one) t (m * one) }
{
    let x = add_signed(s, n as u64, t, m as u64);
    results::integer(x.sign, x.size)
}

// The numbers of a and b, with the signs s and t in place of theirs.
fn plus(s: u32, a: u32, t: u32, b: u32) -> Result<u32, Trap>
    requires { (s < 2) × (t < 2) }
    ensures { result ≡ S.plus (one_float a b) s (units a) t (units b) }
{
    if a / 0x4000_0000 % 2 == 0 && b / 0x4000_0000 % 2 == 0 {
        return integer_sum(s, a % 0x80_0000, t, b % 0x80_0000);
    }
    float_sum(s, a, t, b)
}

fn float_sum(s: u32, a: u32, t: u32, b: u32) -> Result<u32, Trap>
    requires { (s < 2) × (t < 2) }
    ensures { result ≡ S.plus true s (units a) t (units b) }
{
    let p = words::unpack(a);
    let q = words::unpack(b);
    if p.sig == 0 {
        return results::rounded(t, q.sig, q.exp + 150);
    }
    if q.sig == 0 {
        return results::rounded(s, p.sig, p.exp + 150);
    }
    let e = p.exp.min(q.exp);
    let d = p.exp - e;
    let f = q.exp - e;
    if 38 < d {
        return far_sum(s, p.sig, t, p.exp);
    }
    if 38 < f {
        return far_sum(t, q.sig, s, q.exp);
    }
    near_sum(s, p.sig << d, t, q.sig << f, e)
}

// s n 2^e + t m 2^e units.
fn near_sum(s: u32, n: u64, t: u32, m: u64, e: u32) -> Result<u32, Trap>
    requires { (s < 2) × (t < 2) × (n < 2 ^ 62) × (m < 2 ^ 62) × (e < 256) }
    ensures { result ≡ S.plus true s (n * 2 ^ e) t (m * 2 ^ e) }
{
    let x = add_signed(s, n, t, m);
    results::rounded(x.sign, x.size, e + 150)
}

// s n 2^e plus any magnitude of sign t that is above 0 and far below: three more digits, the last of them sticky.
fn far_sum(s: u32, n: u64, t: u32, e: u32) -> Result<u32, Trap>
    requires { (s < 2) × (2 ^ 22 ≤ n) × (n < 2 ^ 23) × (e < 256) }
    ensures { (m : ℕ) → 0 < m → m * 4 < 2 ^ e → result ≡ S.plus true s (n * 2 ^ e) t m }
{
    if s == t {
        results::rounded(s, n * 8 + 1, e + 147)
    } else {
        results::rounded(s, n * 8 - 1, e + 147)
    }
}

// A signed sum with no branch on a sign: both numbers are put on a line around 2^62, so that their sum lies around 2^63.
fn add_signed(s: u32, n: u64, t: u32, m: u64) -> Signed
    requires { (s < 2) × (t < 2) × (n < 2 ^ 62) × (m < 2 ^ 62) }
    ensures { SignedSum s n t m result.sign result.size }
{
    let x = place(s, n) + place(t, m);
    Signed {
        sign: 1 - (x / 0x8000_0000_0000_0000) as u32,
        size: distance(x),
    }
}

fn place(s: u32, n: u64) -> u64
    requires { n < 2 ^ 62 }
    ensures { result ≡ signed_place (2 ^ 62) s n }
{
    if s == 0 {
        0x4000_0000_0000_0000 + n
    } else {
        0x4000_0000_0000_0000 - n
    }
}

fn distance(x: u64) -> u64
    ensures { result ≡ distance_of x }
{
    if x < 0x8000_0000_0000_0000 {
        0x8000_0000_0000_0000 - x
    } else {
        x - 0x8000_0000_0000_0000
    }
}
