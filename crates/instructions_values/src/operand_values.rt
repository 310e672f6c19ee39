// The values of an instruction's operands, or its trap: (3,4) where there are too few, then (3,5) where one is no value.
ghost use Rattle.std.specs.Prelude.{◌≡◌, ◌≤◌, ok_or};
ghost use Rattle.trap.specs.Trap.{trap_of};
ghost use Rattle.effects.specs.Sources.{operand_at};
ghost use Rattle.operands.specs.Operands.{operand_of};
ghost use Rattle.instructions_values.specs.Parts.{FirstFound, BothFound};

use operands::reading::{Value, count, operand_at, value_of};
use trap::Trap;

// The first of n operands.
pub fn first_value(seg: &[u32], n: u32) -> Result<Value, Trap>
    requires { 1 ≤ n }
    ensures { FirstFound seg.now n result }
{
    if count(seg) < n {
        return Err(Trap::MISSING_OPERAND);
    }
    value_at(seg, 0)
}

// Both of two operands.
pub fn both_values(seg: &[u32]) -> Result<(Value, Value), Trap>
    ensures { BothFound seg.now result }
{
    let first = first_value(seg, 2)?;
    let second = value_at(seg, 1)?;
    Ok((first, second))
}

fn value_at(seg: &[u32], i: u32) -> Result<Value, Trap>
    ensures { result ≡ ok_or (operand_of seg.now (operand_at seg.now i)) (trap_of 3 5) }
{
    value_of(seg, operand_at(seg, i)).ok_or(Trap::UNKNOWN_DESCRIPTOR)
}
