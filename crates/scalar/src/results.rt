// Answers from exact results: an integer, or the nearest float.
ghost use Rattle.std.specs.Prelude.{◌≡◌, ◌*◌, ◌^◌, ◌<◌};
ghost use Rattle.std.specs.Float.Ieee.Nearest.{closest};
ghost use Rattle.scalar.specs.Value.{one};
ghost use Rattle.scalar.specs.Results as S;

use descriptor::Descriptor;
use trap::Trap;

// The integer of magnitude n; zero has no sign.
pub fn integer(s: u32, n: u64) -> Result<u32, Trap>
    requires { s < 2 }
    ensures { result ≡ S.integer s n }
{
    if n == 0 {
        return Ok(0);
    }
    if n <= Descriptor::INTEGER_LIMIT as u64 {
        Ok(s * 0x8000_0000 + n as u32)
    } else {
        Err(Trap::INTEGER_OVERFLOW)
    }
}

// The float nearest to q * 2^e / 2^150 units. The top bit of q is brought to bit 63.
pub fn rounded(s: u32, q: u64, e: u32) -> Result<u32, Trap>
    requires { (s < 2) × (e < 1024) }
    ensures { result ≡ S.rounded s (q * 2 ^ e) one }
{
    if q == 0 {
        return Ok(0);
    }
    let z = u64::leading_zeros(q);
    if e < z + 109 {
        return Err(Trap::UNDERFLOW);
    }
    let x = (e - (z + 109)) as u64;
    let m = nearest(q << z);
    let b = x * 0x40_0000 + (m - 0x40_0000);
    if b < 0x4000_0000 {
        Ok(s * 0x8000_0000 + 0x4000_0000 + b as u32)
    } else {
        Err(Trap::OVERFLOW)
    }
}

// n / 2^41 to the nearest whole number, a tie to the even one.
fn nearest(n: u64) -> u64
    ensures { result ≡ closest n (2 ^ 41) }
{
    let h = n / 0x200_0000_0000;
    h + (n % 0x200_0000_0000 + 0xff_ffff_ffff + h % 2) / 0x200_0000_0000
}
