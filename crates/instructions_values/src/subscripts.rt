// INDEX: the element that subscripts lead to.
ghost use Rattle.std.specs.Prelude.{◌≡◌, ◌≤◌, ◌<◌, ◌%◌, ◌^◌, length};
ghost use Rattle.manual.specs.Scalars as plan;
ghost use Rattle.effects.specs.Carried.{CarriesOut};
ghost use Rattle.instructions_values.specs.Parts.{WholeAt, Carries, array_at, origin_of, indexed};

use super::operand_values::first_value;
use super::results::replace_by_scalar;
use descriptor::address::{CodeAddress, SegmentAddress};
use effects::Outcome;
use elements::subscripts::place;
use operands::reading::{Value, elements_of, lengths_of};
use operands::taken::take_scalars;
use segment::state::iorg;
use segment::word;
use trap::Trap;

pub fn index(seg: &mut [u32], rank: u8, next: CodeAddress) -> Result<Outcome, Trap>
    requires { length seg.old ≤ 16384 }
    ensures { CarriesOut seg.old result seg.new (λ sees. plan.index sees next.0 (rank % 2 ^ 4)) }
{
    let n = (rank % 16) as u32;
    let a = first_value(seg, n + 1)?;
    let mut subscripts = [0u32; 16];
    take_scalars(seg, 1, n, false, &mut subscripts)?;
    match a {
        Value::Scalar(_) => Err(Trap::RANK_ERROR),
        Value::Array(block) => element(seg, block, &subscripts[..n as usize], next),
    }
}

fn element(
    seg: &mut [u32],
    block: SegmentAddress,
    subscripts: &[u32],
    next: CodeAddress,
) -> Result<Outcome, Trap>
    requires { WholeAt seg.old block × (length subscripts.now < 16) }
    ensures { Carries seg.old result seg.new (λ s. indexed (origin_of s) next.0 subscripts.now (array_at s block)) }
{
    let lengths = lengths_of(seg, block);
    if subscripts.len() != lengths.len() {
        return Err(Trap::SUBSCRIPT_COUNT);
    }
    let k = place(iorg(seg), subscripts, lengths)?;
    let w = word(elements_of(seg, block), k as usize);
    Ok(replace_by_scalar(seg, subscripts.len() as u32 + 1, w, next))
}
