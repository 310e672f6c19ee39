// Instructions that push: loads, constants, REFERENCE, TEST_DEFINED, UNDEFINED, GETORIGIN.
ghost use Rattle.std.specs.Prelude.{◌≡◌, cond, ◌≤◌, ◌<◌, ◌%◌, ◌^◌, length};
ghost use Rattle.descriptor.specs.Fields.{integer_word};
ghost use Rattle.descriptor.specs.Kinds.{bit};
ghost use Rattle.manual.specs.Effects as effect;
ghost use Rattle.manual.specs.Loads as plan;
ghost use Rattle.operands.specs.Operands.{is_undefined_word};
ghost use Rattle.operands.specs.Variables.{variable_seen, Sure};
ghost use Rattle.effects.specs.Carried.{CarriesOut};
ghost use Rattle.instructions_memory.specs.Pushed.{LoadsHeld, words_at};

use descriptor::Descriptor;
use descriptor::address::CodeAddress;
use effects::Outcome;
use effects_code::taking::{jump, replace_by_array, replace_by_share, replace_by_word};
use elements::kinds::any_other;
use operands::reading::{is_undefined, room};
use operands::variables::{Variable, reference_word};
use procedure::bytes::word_at;
use segment::state::iorg;
use trap::Trap;

// A word that names no array.
pub fn push_word(seg: &mut [u32], w: u32, next: CodeAddress) -> Result<Outcome, Trap>
    requires { length seg.old ≤ 16384 }
    ensures { CarriesOut seg.old result seg.new (λ sees. plan.push sees next.0 (effect.word w)) }
{
    if room(seg) < 1 {
        return Err(Trap::STACK_FULL);
    }
    replace_by_word(seg, 0, w);
    jump(seg, next);
    Ok(Outcome::Finished)
}

pub fn load(
    seg: &mut [u32],
    variable: Result<Variable, Trap>,
    next: CodeAddress,
) -> Result<Outcome, Trap>
    requires { (length seg.old ≤ 16384) × Sure seg.old variable }
    ensures { CarriesOut seg.old result seg.new (λ sees. plan.load sees next.0 (variable_seen seg.old variable)) }
{
    let variable = variable?;
    load_word(seg, variable.held, next)
}

// The word that the variable holds is pushed, and counted.
fn load_word(seg: &mut [u32], w: u32, next: CodeAddress) -> Result<Outcome, Trap>
    requires { length seg.old ≤ 16384 }
    ensures { LoadsHeld seg.old result seg.new next.0 w }
{
    if is_undefined(w) {
        return Err(Trap::VALUE_ERROR);
    }
    if room(seg) < 1 {
        return Err(Trap::STACK_FULL);
    }
    replace_by_share(seg, 0, w);
    jump(seg, next);
    Ok(Outcome::Finished)
}

pub fn refer(
    seg: &mut [u32],
    variable: Result<Variable, Trap>,
    next: CodeAddress,
) -> Result<Outcome, Trap>
    requires { length seg.old ≤ 16384 }
    ensures { CarriesOut seg.old result seg.new (λ sees. plan.refer_to sees next.0 (variable_seen seg.old variable)) }
{
    let variable = variable?;
    push_word(seg, reference_word(variable.target), next)
}

pub fn test_defined(
    seg: &mut [u32],
    variable: Result<Variable, Trap>,
    next: CodeAddress,
) -> Result<Outcome, Trap>
    requires { length seg.old ≤ 16384 }
    ensures { CarriesOut seg.old result seg.new (λ sees. plan.test_defined sees next.0 (variable_seen seg.old variable)) }
{
    let variable = variable?;
    push_word(seg, defined(variable.held), next)
}

fn defined(w: u32) -> u32
    ensures { result ≡ cond (is_undefined_word w) 0 1 }
{
    if is_undefined(w) { 0 } else { 1 }
}

pub fn push_undefined(seg: &mut [u32], next: CodeAddress) -> Result<Outcome, Trap>
    requires { length seg.old ≤ 16384 }
    ensures { CarriesOut seg.old result seg.new (λ sees. plan.push_undefined sees next.0) }
{
    push_word(seg, Descriptor::UNDEFINED, next)
}

pub fn get_origin(seg: &mut [u32], next: CodeAddress) -> Result<Outcome, Trap>
    requires { length seg.old ≤ 16384 }
    ensures { CarriesOut seg.old result seg.new (λ sees. plan.get_origin sees next.0) }
{
    let origin = iorg(seg);
    push_word(seg, origin, next)
}

pub fn short_constant(
    seg: &mut [u32],
    negative: bool,
    magnitude: u32,
    next: CodeAddress,
) -> Result<Outcome, Trap>
    requires { length seg.old ≤ 16384 }
    ensures { CarriesOut seg.old result seg.new (λ sees.
        plan.short_constant sees next.0 (integer_word (bit negative) (magnitude % 2 ^ 12))) }
{
    push_word(
        seg,
        Descriptor::integer(negative, magnitude % 0x1000).word(),
        next,
    )
}

pub fn constant_scalar(seg: &mut [u32], w: u32, next: CodeAddress) -> Result<Outcome, Trap>
    requires { length seg.old ≤ 16384 }
    ensures { CarriesOut seg.old result seg.new (λ sees. plan.constant_scalar sees next.0 w) }
{
    if Descriptor::of(w).is_scalar() {
        return push_word(seg, w, next);
    }
    Err(Trap::UNKNOWN_DESCRIPTOR)
}

// The words stand in the code from `first` on.
pub fn constant_vector(
    seg: &mut [u32],
    code: &[u8],
    count: u8,
    first: CodeAddress,
    next: CodeAddress,
    scratch: &mut [u32],
) -> Result<Outcome, Trap>
    requires { (length seg.old ≤ 16384) × (length scratch.old ≡ 16384) }
    ensures { CarriesOut seg.old result seg.new (λ sees.
        plan.constant_vector sees next.0 (words_at (count % 2 ^ 8) code.now first.0)) }
{
    let n = count as usize;
    read_words(code, first, &mut scratch[..n]);
    push_vector(seg, &scratch[..n], next)
}

fn push_vector(seg: &mut [u32], words: &[u32], next: CodeAddress) -> Result<Outcome, Trap>
    requires { (length seg.old ≤ 16384) × (length words.now < 2 ^ 8) }
    ensures { CarriesOut seg.old result seg.new (λ sees. plan.constant_vector sees next.0 words.now) }
{
    if any_other(words) {
        return Err(Trap::UNKNOWN_DESCRIPTOR);
    }
    if room(seg) < 1 {
        return Err(Trap::STACK_FULL);
    }
    let lengths = [words.len() as u32];
    replace_by_array(seg, 0, &lengths, words)?;
    jump(seg, next);
    Ok(Outcome::Finished)
}

fn read_words(code: &[u8], first: CodeAddress, out: &mut [u32])
    requires { length out.old < 2 ^ 8 }
    ensures { out.new ≡ words_at (length out.old) code.now first.0 }
{
    let start = first.number() % 0x1_0000;
    for (i, w) in out.iter_mut().enumerate() {
        *w = word_at(code, start + 4 * i as u32);
    }
}
