// The GENSCALAR family on operands of any shape, and SETORIGIN.
ghost use Rattle.std.specs.Prelude.{◌≡◌, ◌≤◌, length, take, Ok, IfOk};
ghost use Rattle.manual.specs.Values as values;
ghost use Rattle.manual.specs.Scalars as plan;
ghost use Rattle.operands.specs.Operands.{held};
ghost use Rattle.elements.specs.Answers.{results, pairwise_by, Paired};
ghost use Rattle.effects.specs.Carried.{CarriesOut};
ghost use Rattle.instructions_values.specs.Parts.{WholeAt, Readable, Carries, ReplacesBy, array_at, shape_in, Pairable, pairs_made, origin_set};

use super::operand_values::{both_values, first_value};
use super::ravels::{ravel_of, single};
use super::results::{replace_by_like, replace_by_scalar};
use descriptor::address::{CodeAddress, SegmentAddress};
use effects::Outcome;
use elements::Side;
use elements::shapes::conform;
use operands::reading::{Value, elements_of, lengths_of};
use operator::{Dyadic, Monadic};
use scalar::Truth;
use scalar::reading::truth;
use segment::state::{iorg, set_iorg};
use trap::Trap;

pub fn monadic(
    seg: &mut [u32],
    op: Monadic,
    next: CodeAddress,
    scratch: &mut [u32],
) -> Result<Outcome, Trap>
    requires { (length seg.old ≤ 16384) × (length scratch.old ≡ 16384) }
    ensures { CarriesOut seg.old result seg.new (λ sees. plan.monadic sees next.0 op) }
{
    let a = first_value(seg, 1)?;
    match a {
        Value::Scalar(w) => {
            let w = scalar::monadic(op, w)?;
            Ok(replace_by_scalar(seg, 1, w, next))
        }
        Value::Array(block) => monadic_array(seg, op, block, next, scratch),
    }
}

#[tactic(auto, unfolding(manual::specs::Values::monadic))]
fn monadic_array(
    seg: &mut [u32],
    op: Monadic,
    block: SegmentAddress,
    next: CodeAddress,
    scratch: &mut [u32],
) -> Result<Outcome, Trap>
    requires { WholeAt seg.old block × (length seg.old ≤ 16384) × (length scratch.old ≡ 16384) }
    ensures { ReplacesBy seg.old result seg.new next.0 1 (λ s. values.monadic op (array_at s block)) }
{
    let a = elements_of(seg, block);
    let n = a.len();
    elements::monadic::monadic(op, a, scratch)?;
    replace_by_like(seg, 1, block, &scratch[..n], next)
}

pub fn dyadic(
    seg: &mut [u32],
    op: Dyadic,
    next: CodeAddress,
    scratch: &mut [u32],
) -> Result<Outcome, Trap>
    requires { (length seg.old ≤ 16384) × (length scratch.old ≡ 16384) }
    ensures { CarriesOut seg.old result seg.new (λ sees. plan.dyadic sees next.0 op) }
{
    let (a, b) = both_values(seg)?;
    combine(seg, op, a, b, next, scratch)
}

fn combine(
    seg: &mut [u32],
    op: Dyadic,
    a: Value,
    b: Value,
    next: CodeAddress,
    scratch: &mut [u32],
) -> Result<Outcome, Trap>
    requires { Readable seg.old a × Readable seg.old b × (length seg.old ≤ 16384) × (length scratch.old ≡ 16384) }
    ensures { ReplacesBy seg.old result seg.new next.0 2 (λ s. values.dyadic op (held s a) (held s b)) }
{
    match (a, b) {
        (Value::Scalar(x), Value::Scalar(y)) => {
            let w = scalar::dyadic(op, x, y)?;
            Ok(replace_by_scalar(seg, 2, w, next))
        }
        (Value::Scalar(_), Value::Array(like)) => paired(seg, op, a, b, like, next, scratch),
        (Value::Array(like), Value::Scalar(_)) => paired(seg, op, a, b, like, next, scratch),
        (Value::Array(first), Value::Array(second)) => {
            let like = conforming(seg, first, second)?;
            paired(seg, op, a, b, like, next, scratch)
        }
    }
}

// Of two arrays the one that gives the result its shape.
fn conforming(
    seg: &[u32],
    first: SegmentAddress,
    second: SegmentAddress,
) -> Result<SegmentAddress, Trap>
    requires { WholeAt seg.now first × WholeAt seg.now second }
    ensures shape { shape_in seg.now result ≡ values.conform (array_at seg.now first).shape (values.size (array_at seg.now first))
        (array_at seg.now second).shape (values.size (array_at seg.now second)) }
    ensures value_whole { IfOk result (WholeAt seg.now) }
{
    let m = elements_of(seg, first).len();
    let n = elements_of(seg, second).len();
    match conform(lengths_of(seg, first), m, lengths_of(seg, second), n)? {
        Side::First => Ok(first),
        Side::Second => Ok(second),
    }
}

// The result has the shape of the array in `like`, and as many elements.
fn paired(
    seg: &mut [u32],
    op: Dyadic,
    a: Value,
    b: Value,
    like: SegmentAddress,
    next: CodeAddress,
    scratch: &mut [u32],
) -> Result<Outcome, Trap>
    requires readable { Readable seg.old a × Readable seg.old b × WholeAt seg.old like × (length seg.old ≤ 16384) × (length scratch.old ≡ 16384) }
    requires pairable { Pairable seg.old a b like }
    ensures { Carries seg.old result seg.new (pairs_made next.0 op a b like) }
{
    let n = elements_of(seg, like).len();
    pairwise(seg, op, &a, &b, scratch)?;
    replace_by_like(seg, 2, like, &scratch[..n], next)
}

// The results of their pairs.
fn pairwise(seg: &[u32], op: Dyadic, a: &Value, b: &Value, out: &mut [u32]) -> Result<(), Trap>
    requires readable { Readable seg.now a.now × Readable seg.now b.now }
    requires pairable { Paired (held seg.now a.now).ravel (held seg.now b.now).ravel × (values.extent (held seg.now a.now).ravel (held seg.now b.now).ravel ≤ length out.old) }
    ensures { results result (take (values.extent (held seg.now a.now).ravel (held seg.now b.now).ravel) out.new) ≡ pairwise_by op (held seg.now a.now).ravel (held seg.now b.now).ravel }
{
    elements::dyadic::dyadic(op, ravel_of(seg, a), ravel_of(seg, b), out)
}

pub fn set_origin(seg: &mut [u32], next: CodeAddress) -> Result<Outcome, Trap>
    ensures { CarriesOut seg.old result seg.new (λ sees. plan.set_origin sees next.0) }
{
    let v = first_value(seg, 1)?;
    match truth(single(seg, v)?) {
        Truth::Character => Err(Trap::TYPE_ERROR),
        Truth::Other => Err(Trap::DOMAIN_ERROR),
        Truth::Value(origin) => Ok(origin_set(seg, origin, next)),
    }
}

// The result is the origin as it was.
fn origin_set(seg: &mut [u32], origin: bool, next: CodeAddress) -> Outcome
    ensures { Carries seg.old (Ok result) seg.new (origin_set next.0 origin) }
{
    let old = iorg(seg);
    set_iorg(seg, u32::from(origin));
    replace_by_scalar(seg, 1, old, next)
}
