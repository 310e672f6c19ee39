// The value of an operand, read as its parts.
ghost use Rattle.std.specs.Prelude.{◌≡◌};
ghost use Rattle.manual.specs.Values as values;
ghost use Rattle.operands.specs.Operands.{held};
ghost use Rattle.instructions_values.specs.Parts.{Readable};

use operands::reading::{Value, elements_of, lengths_of};
use std::slice;
use trap::Trap;

// Its lengths, as a part of the segment.
pub fn shape_of(seg: &[u32], v: Value) -> &[u32]
    requires { Readable seg.now v }
    ensures { result.now ≡ (held seg.now v).shape }
{
    match v {
        Value::Scalar(_) => &seg[..0],
        Value::Array(block) => lengths_of(seg, block),
    }
}

// Its elements, as a part of the segment; a scalar's is its word.
pub fn ravel_of<'a>(seg: &'a [u32], v: &'a Value) -> &'a [u32]
    requires { Readable seg.now v.now }
    ensures { result.now ≡ (held seg.now v.now).ravel }
{
    match v {
        Value::Scalar(w) => slice::from_ref(w),
        Value::Array(block) => elements_of(seg, *block),
    }
}

// How many elements it has.
pub fn size_of(seg: &[u32], v: Value) -> usize
    requires { Readable seg.now v }
    ensures { result ≡ values.size (held seg.now v) }
{
    ravel_of(seg, &v).len()
}

// The one element that it has; (6,0) where it has another number of them.
pub fn single(seg: &[u32], v: Value) -> Result<u32, Trap>
    requires { Readable seg.now v }
    ensures { values.answered result ≡ values.single (held seg.now v) }
{
    let ravel = ravel_of(seg, &v);
    if ravel.len() != 1 {
        return Err(Trap::LENGTH_ERROR);
    }
    Ok(ravel[0])
}
