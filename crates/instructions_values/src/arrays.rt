// SHAPE, RAVEL, CATENATE, INDEXGEN, RESHAPE.
ghost use Rattle.std.specs.Prelude.{◌≡◌, ◌++◌, ◌≤◌, ◌<◌, length};
ghost use Rattle.segment.specs.Blocks as layout;
ghost use Rattle.manual.specs.OrTrap.{gives};
ghost use Rattle.manual.specs.Values as values;
ghost use Rattle.manual.specs.Scalars as plan;
ghost use Rattle.operands.specs.Operands.{held};
ghost use Rattle.effects.specs.Carried.{CarriesOut};
ghost use Rattle.instructions_values.specs.Parts.{Readable, BothStand, Carries, ReplacesBy, made_of, origin_of, shaped, filled};

use super::operand_values::{both_values, first_value};
use super::ravels::{ravel_of, shape_of, single, size_of};
use super::results::{replace_by_new, replace_by_scalar, replace_by_vector};
use descriptor::address::CodeAddress;
use effects::Outcome;
use effects_code::storing::keep;
use effects_code::taking::{jump, replace_by_joined};
use elements::copies::{cycle, up_from};
use elements::joins::joined;
use elements::{Joined, shapes};
use operands::reading::{Value, elements_part};
use segment::state::iorg;
use trap::Trap;

pub fn shape(seg: &mut [u32], next: CodeAddress) -> Result<Outcome, Trap>
    requires { length seg.old ≤ 16384 }
    ensures { CarriesOut seg.old result seg.new (λ sees. plan.shape sees next.0) }
{
    let v = first_value(seg, 1)?;
    let mut lengths = [0u32; 16];
    let rank = keep(shape_of(seg, v), &mut lengths);
    replace_by_vector(seg, 1, &lengths[..rank], next)
}

pub fn ravel(seg: &mut [u32], next: CodeAddress, scratch: &mut [u32]) -> Result<Outcome, Trap>
    requires { (length seg.old ≤ 16384) × (length scratch.old ≡ 16384) }
    ensures { CarriesOut seg.old result seg.new (λ sees. plan.ravel sees next.0) }
{
    let v = first_value(seg, 1)?;
    let n = keep(ravel_of(seg, &v), scratch);
    replace_by_vector(seg, 1, &scratch[..n], next)
}

pub fn catenate(seg: &mut [u32], next: CodeAddress, scratch: &mut [u32]) -> Result<Outcome, Trap>
    requires { (length seg.old ≤ 16384) × (length scratch.old ≡ 16384) }
    ensures { CarriesOut seg.old result seg.new (λ sees. plan.catenate sees next.0) }
{
    let (a, b) = both_values(seg)?;
    join(seg, a, b, next, scratch)
}

fn join(
    seg: &mut [u32],
    a: Value,
    b: Value,
    next: CodeAddress,
    scratch: &mut [u32],
) -> Result<Outcome, Trap>
    requires { BothStand seg.old a b × (length seg.old ≤ 16384) × (length scratch.old ≡ 16384) }
    ensures { ReplacesBy seg.old result seg.new next.0 2 (λ s. values.catenate (held s a) (held s b)) }
{
    match joined(shape_of(seg, a), shape_of(seg, b))? {
        Joined::Vector(n) => join_as(seg, &[n], a, b, next, scratch),
        Joined::Matrix(rows, width) => join_as(seg, &[rows, width], a, b, next, scratch),
    }
}

// The elements go straight from where the operands hold them into the new array: no trap but (1,2) is left.
fn join_as(
    seg: &mut [u32],
    lengths: &[u32],
    a: Value,
    b: Value,
    next: CodeAddress,
    scratch: &mut [u32],
) -> Result<Outcome, Trap>
    requires { BothStand seg.old a b × (length seg.old ≤ 16384) × (length scratch.old ≡ 16384) }
    ensures { Carries seg.old result seg.new (λ s. made_of next.0 2 lengths.now (gives ((held s a).ravel ++ (held s b).ravel))) }
{
    let first = elements_part(seg, 0, a);
    let second = elements_part(seg, 1, b);
    replace_by_joined(seg, 2, lengths, first, second, scratch)?;
    jump(seg, next);
    Ok(Outcome::Finished)
}

pub fn index_generator(
    seg: &mut [u32],
    next: CodeAddress,
    scratch: &mut [u32],
) -> Result<Outcome, Trap>
    requires { (length seg.old ≤ 16384) × (length scratch.old ≡ 16384) }
    ensures { CarriesOut seg.old result seg.new (λ sees. plan.index_generator sees next.0) }
{
    let v = first_value(seg, 1)?;
    let n = shapes::short(single(seg, v)?)?;
    generate(seg, n as usize, next, scratch)
}

fn generate(
    seg: &mut [u32],
    n: usize,
    next: CodeAddress,
    scratch: &mut [u32],
) -> Result<Outcome, Trap>
    requires { (length seg.old ≤ 16384) × (length scratch.old ≡ 16384) }
    ensures { ReplacesBy seg.old result seg.new next.0 1 (λ s. gives (values.vector (values.up_from (origin_of s) n))) }
{
    if scratch.len() < n {
        return Err(Trap::STORAGE_FULL);
    }
    up_from(iorg(seg), &mut scratch[..n]);
    replace_by_vector(seg, 1, &scratch[..n], next)
}

pub fn reshape(seg: &mut [u32], next: CodeAddress, scratch: &mut [u32]) -> Result<Outcome, Trap>
    requires { (length seg.old ≤ 16384) × (length scratch.old ≡ 16384) }
    ensures { CarriesOut seg.old result seg.new (λ sees. plan.reshape sees next.0) }
{
    let (a, b) = both_values(seg)?;
    if 1 < shape_of(seg, a).len() || 15 < size_of(seg, a) {
        return Err(Trap::RANK_ERROR);
    }
    read_lengths(seg, a, b, next, scratch)
}

fn read_lengths(
    seg: &mut [u32],
    a: Value,
    b: Value,
    next: CodeAddress,
    scratch: &mut [u32],
) -> Result<Outcome, Trap>
    requires readable { Readable seg.old a × Readable seg.old b × (length seg.old ≤ 16384) × (length scratch.old ≡ 16384) }
    requires a_bound { (values.rank (held seg.old a) ≤ 1) × (values.size (held seg.old a) ≤ 15) }
    ensures { ReplacesBy seg.old result seg.new next.0 2 (λ s. values.reshape (held s a) (held s b)) }
{
    let mut words = [0u32; 16];
    let mut lengths = [0u32; 16];
    let rank = keep(ravel_of(seg, &a), &mut words);
    shapes::lengths(&words[..rank], &mut lengths)?;
    fill_shape(seg, &lengths[..rank], b, next, scratch)
}

fn fill_shape(
    seg: &mut [u32],
    lengths: &[u32],
    b: Value,
    next: CodeAddress,
    scratch: &mut [u32],
) -> Result<Outcome, Trap>
    requires { Readable seg.old b × (length seg.old ≤ 16384) × (length scratch.old ≡ 16384) }
    ensures { ReplacesBy seg.old result seg.new next.0 2 (λ s. shaped lengths.now (held s b)) }
{
    let n = shapes::product(lengths) as usize;
    if 0x1_0000 <= n {
        return Err(Trap::DOMAIN_ERROR);
    }
    if size_of(seg, b) == 0 && n != 0 {
        return Err(Trap::LENGTH_ERROR);
    }
    repeated(seg, lengths, n, b, next, scratch)
}

// As many elements as the lengths ask for.
fn repeated(
    seg: &mut [u32],
    lengths: &[u32],
    n: usize,
    b: Value,
    next: CodeAddress,
    scratch: &mut [u32],
) -> Result<Outcome, Trap>
    requires readable { Readable seg.old b × (length seg.old ≤ 16384) × (length scratch.old ≡ 16384) }
    requires n_value { (n ≡ layout.product lengths.now) × (values.size (held seg.old b) ≡ 0 → n ≡ 0) }
    ensures { ReplacesBy seg.old result seg.new next.0 2 (λ s. filled lengths.now n (held s b)) }
{
    if scratch.len() < n {
        return Err(Trap::STORAGE_FULL);
    }
    cycle(ravel_of(seg, &b), &mut scratch[..n]);
    reshaped(seg, lengths, &scratch[..n], next)
}

// No lengths make a scalar.
fn reshaped(
    seg: &mut [u32],
    lengths: &[u32],
    ravel: &[u32],
    next: CodeAddress,
) -> Result<Outcome, Trap>
    requires { length lengths.now ≡ 0 → 0 < length ravel.now }
    ensures { ReplacesBy seg.old result seg.new next.0 2 (λ _. gives (values.value lengths.now ravel.now)) }
{
    if lengths.is_empty() {
        return Ok(replace_by_scalar(seg, 2, ravel[0], next));
    }
    replace_by_new(seg, 2, lengths, ravel, next)
}
