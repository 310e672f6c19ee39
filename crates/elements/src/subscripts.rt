// Subscripts, and the place in the ravel that they lead to.
ghost use Rattle.std.specs.Prelude.{◌≡◌, ◌≤◌, length};
ghost use Rattle.scalar.specs.Reading.{whole_of};
ghost use Rattle.segment.specs.Blocks as layout;
ghost use Rattle.manual.specs.Values as values;
ghost use Rattle.elements.specs.Parts.{Within};

use crate::kinds;
use scalar::{Whole, reading};
use trap::Trap;

// Where the subscripts lead in the ravel of an array with these lengths.
pub fn place(origin: u32, subscripts: &[u32], lengths: &[u32]) -> Result<u32, Trap>
    requires { (length subscripts.now ≡ length lengths.now) × (layout.product lengths.now ≤ 65536) }
    ensures { values.answered result ≡ values.ravel_place origin subscripts.now lengths.now }
{
    if in_ranges(origin, subscripts, lengths) {
        return Ok(place_of(origin, subscripts, lengths));
    }
    if kinds::any_character(subscripts) {
        return Err(Trap::TYPE_ERROR);
    }
    if kinds::any_fraction(subscripts) {
        return Err(Trap::DOMAIN_ERROR);
    }
    Err(Trap::INDEX_ERROR)
}

fn in_ranges(origin: u32, subscripts: &[u32], lengths: &[u32]) -> bool
    requires { length subscripts.now ≡ length lengths.now }
    ensures { result ≡ values.in_ranges origin subscripts.now lengths.now }
{
    subscripts.iter().zip(lengths).all(|(subscript, length)| in_range(origin, *subscript, *length))
}

fn in_range(origin: u32, subscript: u32, length: u32) -> bool
    ensures { result ≡ values.in_range origin (whole_of subscript) length }
{
    match reading::whole(subscript) {
        Whole::Number {
            negative,
            magnitude,
        } => !negative && origin <= magnitude && magnitude - origin < length,
        Whole::Fraction | Whole::Character => false,
    }
}

// The place, for subscripts in range. All ranges are judged before: a zero length would let the earlier factors overflow.
fn place_of(origin: u32, subscripts: &[u32], lengths: &[u32]) -> u32
    requires { Within origin subscripts.now lengths.now }
    ensures { result ≡ values.ravel_offset origin subscripts.now lengths.now }
{
    let mut at: u32 = 0;
    for (i, subscript) in subscripts.iter().enumerate() {
        at = at * lengths[i] + offset(origin, *subscript);
    }
    at
}

fn offset(origin: u32, subscript: u32) -> u32
    ensures { result ≡ values.offset origin (whole_of subscript) }
{
    match reading::whole(subscript) {
        Whole::Number {
            negative: _,
            magnitude,
        } => magnitude.saturating_sub(origin),
        Whole::Fraction | Whole::Character => 0,
    }
}
