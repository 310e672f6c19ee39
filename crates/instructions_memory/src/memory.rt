// ASSIGN, ASSIGN_NORESULT, ASSIGN_INDEXED, EAT1, INTERCHANGE, NO_OPERATION.
ghost use Rattle.std.specs.Prelude.{◌≡◌, [], ◌∷◌, ◌≤◌, ◌<◌, ◌%◌, ◌^◌, length};
ghost use Rattle.segment.specs.Cells.{Cell};
ghost use Rattle.manual.specs.OrTrap.{gives};
ghost use Rattle.manual.specs.Effects.{stores_element, jumps};
ghost use Rattle.manual.specs.Seen.{at};
ghost use Rattle.manual.specs.Memory as plan;
ghost use Rattle.effects.specs.Sources.{held_at};
ghost use Rattle.operands.specs.Variables.{variable_seen, Sure};
ghost use Rattle.effects_code.specs.Done.{Held};
ghost use Rattle.effects.specs.Carried.{CarriesOut};
ghost use Rattle.instructions_memory.specs.Indexed.{Indexed, AssignsIndexed};

use descriptor::Target;
use descriptor::address::{CodeAddress, SegmentAddress};
use effects::Outcome;
use effects_code::storing::{store_element, store_share};
use effects_code::taking::{discard, jump, swap};
use elements::subscripts::place;
use operands::reading::{Value, count, lengths_of, operand_at, value_of};
use operands::taken::take_scalars;
use operands::variables::Variable;
use segment::state::iorg;
use trap::Trap;

pub fn assign(
    seg: &mut [u32],
    variable: Result<Variable, Trap>,
    next: CodeAddress,
) -> Result<Outcome, Trap>
    ensures { CarriesOut seg.old result seg.new (λ sees. plan.assign sees next.0 (variable_seen seg.old variable)) }
{
    let variable = variable?;
    assign_to(seg, variable.target, next)
}

fn assign_to(seg: &mut [u32], t: Target, next: CodeAddress) -> Result<Outcome, Trap>
    ensures { (c : Cell) → CarriesOut seg.old result seg.new (λ sees. plan.assign sees next.0 (gives (at t c))) }
{
    if count(seg) < 1 {
        return Err(Trap::MISSING_OPERAND);
    }
    let w = operand_at(seg, 0);
    let Some(_) = value_of(seg, w) else {
        return Err(Trap::UNKNOWN_DESCRIPTOR);
    };
    store_share(seg, t, w);
    jump(seg, next);
    Ok(Outcome::Finished)
}

pub fn assign_no_result(
    seg: &mut [u32],
    variable: Result<Variable, Trap>,
    next: CodeAddress,
) -> Result<Outcome, Trap>
    ensures { CarriesOut seg.old result seg.new (λ sees.
        plan.assign_no_result sees next.0 (variable_seen seg.old variable)) }
{
    let variable = variable?;
    move_to(seg, variable.target, next)
}

fn move_to(seg: &mut [u32], t: Target, next: CodeAddress) -> Result<Outcome, Trap>
    ensures { (c : Cell) → CarriesOut seg.old result seg.new (λ sees. plan.assign_no_result sees next.0 (gives (at t c))) }
{
    if count(seg) < 1 {
        return Err(Trap::MISSING_OPERAND);
    }
    let w = operand_at(seg, 0);
    let Some(_) = value_of(seg, w) else {
        return Err(Trap::UNKNOWN_DESCRIPTOR);
    };
    store_share(seg, t, w);
    discard(seg, 1);
    jump(seg, next);
    Ok(Outcome::Finished)
}

pub fn assign_indexed(
    seg: &mut [u32],
    rank: u8,
    variable: Result<Variable, Trap>,
    next: CodeAddress,
    scratch: &mut [u32],
) -> Result<Outcome, Trap>
    requires { (length seg.old ≤ 16384) × (length scratch.old ≡ 16384) × Sure seg.old variable }
    ensures { CarriesOut seg.old result seg.new (λ sees.
        plan.assign_indexed sees next.0 (rank % 2 ^ 4) (variable_seen seg.old variable)) }
{
    let variable = variable?;
    assign_element(
        seg,
        (rank % 16) as u32,
        variable.target,
        variable.held,
        next,
        scratch,
    )
}

fn assign_element(
    seg: &mut [u32],
    rank: u32,
    t: Target,
    held: u32,
    next: CodeAddress,
    scratch: &mut [u32],
) -> Result<Outcome, Trap>
    requires { (length seg.old ≤ 16384) × (length scratch.old ≡ 16384) × (rank < 2 ^ 4) × (held ≡ held_at seg.old t) }
    ensures { AssignsIndexed seg.old result seg.new next.0 rank t held }
{
    if count(seg) < rank + 1 {
        return Err(Trap::MISSING_OPERAND);
    }
    let Some(v) = value_of(seg, held) else {
        return Err(Trap::UNKNOWN_DESCRIPTOR);
    };
    let mut taken = [0u32; 16];
    take_scalars(seg, 0, rank + 1, true, &mut taken)?;
    match v {
        Value::Scalar(_) => Err(Trap::RANK_ERROR),
        Value::Array(block) => element_in(seg, rank, t, block, &taken, next, scratch),
    }
}

// `taken` holds the subscripts and then the value.
fn element_in(
    seg: &mut [u32],
    rank: u32,
    t: Target,
    block: SegmentAddress,
    taken: &[u32],
    next: CodeAddress,
    scratch: &mut [u32],
) -> Result<Outcome, Trap>
    requires seg_len_bound { (length seg.old ≤ 16384) × (length scratch.old ≡ 16384) × (rank < length taken.now) × (rank < 2 ^ 4) }
    requires indexed { Indexed seg.old rank t block taken.now }
    ensures { AssignsIndexed seg.old result seg.new next.0 rank t (held_at seg.old t) }
{
    let r = rank as usize;
    let lengths = lengths_of(seg, block);
    if r != lengths.len() {
        return Err(Trap::SUBSCRIPT_COUNT);
    }
    let k = place(iorg(seg), &taken[..r], lengths)?;
    store_at(seg, t, block, k, taken[r], rank + 1, next, scratch)
}

// The element at that place is `w` from now on, and n operands go.
fn store_at(
    seg: &mut [u32],
    t: Target,
    block: SegmentAddress,
    k: u32,
    w: u32,
    n: u32,
    next: CodeAddress,
    scratch: &mut [u32],
) -> Result<Outcome, Trap>
    requires held { Held seg.old t block.0 }
    requires n_nonzero { (0 < n) × (length seg.old ≤ 16384) × (length scratch.old ≡ 16384) }
    ensures { CarriesOut seg.old result seg.new (λ sees. gives (stores_element t k w n ∷ jumps next.0 ∷ [])) }
{
    store_element(seg, t, block, k, w, n, scratch)?;
    jump(seg, next);
    Ok(Outcome::Finished)
}

pub fn eat(seg: &mut [u32], next: CodeAddress) -> Result<Outcome, Trap>
    ensures { CarriesOut seg.old result seg.new (λ sees. plan.eat sees next.0) }
{
    if count(seg) < 1 {
        return Err(Trap::MISSING_OPERAND);
    }
    discard(seg, 1);
    jump(seg, next);
    Ok(Outcome::Finished)
}

pub fn interchange(seg: &mut [u32], next: CodeAddress) -> Result<Outcome, Trap>
    ensures { CarriesOut seg.old result seg.new (λ sees. plan.interchange sees next.0) }
{
    if count(seg) < 2 {
        return Err(Trap::MISSING_OPERAND);
    }
    swap(seg);
    jump(seg, next);
    Ok(Outcome::Finished)
}

pub fn no_operation(seg: &mut [u32], next: CodeAddress) -> Result<Outcome, Trap>
    ensures { CarriesOut seg.old result seg.new (λ sees. plan.no_operation sees next.0) }
{
    jump(seg, next);
    Ok(Outcome::Finished)
}
