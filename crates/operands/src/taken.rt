// The operands that INDEX and ASSIGN_INDEXED want as scalars: the subscripts, and the value assigned.
ghost use Rattle.std.specs.Prelude.{◌≡◌, ◌+◌, ◌≤◌, length, take};
ghost use Rattle.manual.specs.Scalars.{operands, any_cell};
ghost use Rattle.effects.specs.Seen.{read, seen, temporaries};
ghost use Rattle.operands.specs.Taken.{is_foreign_to, scalars_of, taken_of, taken};

use crate::reading::{is_undefined, operand_at, value_of};
use descriptor::Descriptor;
use trap::Trap;

// The words of the n operands from the i-th on: (3,5) where one is of no kind that the instruction takes, else (5,0) where one is
// no scalar. One that is undefined is no scalar, but of no such kind to a strict instruction.
pub fn take_scalars(seg: &[u32], i: u32, n: u32, strict: bool, out: &mut [u32]) -> Result<(), Trap>
    requires { (i + n ≤ temporaries seg.now) × (n ≤ length out.old) }
    ensures { taken result (take n out.new) ≡ taken_of strict (operands (seen seg.now) i n) }
{
    if any_foreign(seg, i, n, strict) {
        return Err(Trap::UNKNOWN_DESCRIPTOR);
    }
    take_words(seg, i, n, out)
}

fn any_foreign(seg: &[u32], i: u32, n: u32, strict: bool) -> bool
    requires { i + n ≤ temporaries seg.now }
    ensures { result ≡ any_cell (is_foreign_to strict) (operands (seen seg.now) i n) }
{
    for k in 0..n {
        if is_foreign(seg, operand_at(seg, i + k), strict) {
            return true;
        }
    }
    false
}

fn is_foreign(seg: &[u32], w: u32, strict: bool) -> bool
    ensures { result ≡ is_foreign_to strict (read seg.now w) }
{
    if is_undefined(w) {
        return strict;
    }
    value_of(seg, w).is_none()
}

fn take_words(seg: &[u32], i: u32, n: u32, out: &mut [u32]) -> Result<(), Trap>
    requires { (i + n ≤ temporaries seg.now) × (n ≤ length out.old) }
    ensures { taken result (take n out.new) ≡ scalars_of (operands (seen seg.now) i n) }
{
    for k in 0..n {
        let w = operand_at(seg, i + k);
        if !Descriptor::of(w).is_scalar() {
            return Err(Trap::RANK_ERROR);
        }
        out[k as usize] = w;
    }
    Ok(())
}
