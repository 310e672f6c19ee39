// Shapes of results: conformity of two operands, and the lengths that RESHAPE takes.
ghost use Rattle.std.specs.Prelude.{◌≡◌, ◌≤◌, min, length, take};
ghost use Rattle.scalar.specs.Reading.{whole_of};
ghost use Rattle.segment.specs.Blocks as layout;
ghost use Rattle.manual.specs.Values as values;
ghost use Rattle.elements.specs.Answers.{results, shape_named, lengths_of};

use crate::{Side, kinds};
use scalar::{Whole, reading};
use trap::Trap;

// The shape of a result, from the operands' shapes and numbers of elements, m and n.
pub fn conform(a: &[u32], m: usize, b: &[u32], n: usize) -> Result<Side, Trap>
    ensures { shape_named result a.now b.now ≡ values.conform a.now m b.now n }
{
    match (m, n) {
        (1, 1) if b.len() < a.len() => Ok(Side::First),
        (1, _) => Ok(Side::Second),
        (_, 1) => Ok(Side::First),
        _ if a.len() != b.len() => Err(Trap::RANK_ERROR),
        _ if a == b => Ok(Side::First),
        _ => Err(Trap::LENGTH_ERROR),
    }
}

// The lengths that a ravel's numbers are. The characters among them are judged before the other faults.
pub fn lengths(ravel: &[u32], out: &mut [u32]) -> Result<(), Trap>
    requires { length ravel.now ≤ length out.old }
    ensures { results result (take (length ravel.now) out.new) ≡ lengths_of ravel.now }
{
    if kinds::any_character(ravel) {
        return Err(Trap::TYPE_ERROR);
    }
    shorts(ravel, out)
}

fn shorts(ravel: &[u32], out: &mut [u32]) -> Result<(), Trap>
    requires { length ravel.now ≤ length out.old }
    ensures { results result (take (length ravel.now) out.new) ≡ values.shorts ravel.now }
{
    for (i, w) in ravel.iter().enumerate() {
        out[i] = short(*w)?;
    }
    Ok(())
}

// A scalar read as a length: a whole number from 0 to 65,535.
pub fn short(w: u32) -> Result<u32, Trap>
    ensures { values.answered result ≡ values.short_of (whole_of w) }
{
    match reading::whole(w) {
        Whole::Number {
            negative,
            magnitude,
        } if !negative && magnitude < 0x1_0000 => Ok(magnitude),
        Whole::Number { .. } | Whole::Fraction => Err(Trap::DOMAIN_ERROR),
        Whole::Character => Err(Trap::TYPE_ERROR),
    }
}

// The product of lengths, up to 65,536.
pub fn product(lengths: &[u32]) -> u32
    ensures { result ≡ min (layout.product lengths.now) 65536 }
{
    let mut so_far: u64 = 1;
    for n in lengths {
        so_far = (so_far * *n as u64).min(0x1_0000);
    }
    so_far as u32
}
