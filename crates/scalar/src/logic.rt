// NOT, LOGICAL_PRODUCT and LOGICAL_SUM.
ghost use Rattle.std.specs.Prelude.{◌≡◌, Bool};
ghost use Rattle.scalar.specs.Reading.{truth_of};
ghost use Rattle.scalar.specs.Parts.{combined};
ghost use Rattle.scalar.specs.Operators as S;

use crate::{Truth, reading};
use trap::Trap;

pub fn not(a: u32) -> Result<u32, Trap>
    ensures { result ≡ S.not_of a }
{
    match reading::truth(a) {
        Truth::Character => Err(Trap::TYPE_ERROR),
        Truth::Other => Err(Trap::DOMAIN_ERROR),
        Truth::Value(p) => Ok(!p as u32),
    }
}

pub fn logical_product(a: u32, b: u32) -> Result<u32, Trap>
    ensures { result ≡ S.logical_product a b }
{
    let (p, q) = truths(a, b)?;
    Ok((p && q) as u32)
}

pub fn logical_sum(a: u32, b: u32) -> Result<u32, Trap>
    ensures { result ≡ S.logical_sum a b }
{
    let (p, q) = truths(a, b)?;
    Ok((p || q) as u32)
}

// What two operands are read as. A type error of either goes before a domain error.
fn truths(a: u32, b: u32) -> Result<(bool, bool), Trap>
    ensures { (f : Bool → Bool → Bool) → combined f result ≡ S.logical f (truth_of a) (truth_of b) }
{
    match (reading::truth(a), reading::truth(b)) {
        (Truth::Character, _) | (_, Truth::Character) => Err(Trap::TYPE_ERROR),
        (Truth::Value(p), Truth::Value(q)) => Ok((p, q)),
        _ => Err(Trap::DOMAIN_ERROR),
    }
}
