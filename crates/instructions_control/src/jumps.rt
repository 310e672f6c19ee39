// Jumps inside the current function: GO, GO_TRUE, GO_FALSE, and BRANCH, which may leave it.
ghost use Rattle.std.specs.Prelude.{◌≡◌, true, ◌||◌, [], ◌∷◌, ltb, leb};
ghost use Rattle.scalar.specs.Reading.{whole_of, truth_of};
ghost use Rattle.procedure.specs.Headers as headers;
ghost use Rattle.manual.specs.OrTrap.{and_then};
ghost use Rattle.manual.specs.Values as values;
ghost use Rattle.manual.specs.Scalars.{value_of};
ghost use Rattle.manual.specs.Effects as effect;
ghost use Rattle.manual.specs.Control as control;
ghost use Rattle.effects.specs.Perform.{performs};
ghost use Rattle.effects.specs.Seen.{read, whole};
ghost use Rattle.effects.specs.Carried.{CarriesOut};
ghost use Rattle.operands.specs.Operands.{held};
ghost use Rattle.instructions_control.specs.Answers as answers;

use crate::calls::leave_by_branch;
use descriptor::address::{CodeAddress, SegmentAddress};
use effects::Outcome;
use effects_code::taking::{discard, jump};
use operands::reading::{Value, count, elements_of, operand_at, value_of};
use procedure::header::{Block, Header};
use scalar::{Truth, Whole};
use segment::blocks::rank;
use trap::Trap;

pub fn go(seg: &mut [u32], h: Header, place: CodeAddress) -> Result<Outcome, Trap>
    ensures { CarriesOut seg.old result seg.new (λ _. control.go h place.0) }
{
    if outside(h, place) {
        return Err(Trap::PROCEDURE_ADDRESS);
    }
    jump(seg, place);
    Ok(Outcome::Finished)
}

// GO_TRUE and GO_FALSE.
pub fn go_if(
    seg: &mut [u32],
    h: Header,
    wanted: bool,
    place: CodeAddress,
    next: CodeAddress,
) -> Result<Outcome, Trap>
    ensures { CarriesOut seg.old result seg.new (λ sees. control.go_if sees h next.0 wanted place.0) }
{
    if count(seg) < 1 {
        return Err(Trap::MISSING_OPERAND);
    }
    let condition = condition_of(seg, operand_at(seg, 0))?;
    if condition == wanted {
        return jump_to(seg, h, place);
    }
    go_on(seg, next);
    Ok(Outcome::Finished)
}

pub fn branch(seg: &mut [u32], p: &[u8], block: Block, next: CodeAddress) -> Result<Outcome, Trap>
    ensures { CarriesOut seg.old result seg.new (λ sees.
        control.branch sees block.header (headers.line_of p.now block) next.0) }
{
    if count(seg) < 1 {
        return Err(Trap::MISSING_OPERAND);
    }
    let Some(v) = value_of(seg, operand_at(seg, 0)) else {
        return Err(Trap::UNKNOWN_DESCRIPTOR);
    };
    match v {
        Value::Scalar(w) => branch_on(seg, p, block, w),
        Value::Array(array) => branch_by(seg, p, block, next, array),
    }
}

// A vector's first element is the line; an empty vector only goes.
fn branch_by(
    seg: &mut [u32],
    p: &[u8],
    block: Block,
    next: CodeAddress,
    array: SegmentAddress,
) -> Result<Outcome, Trap>
    requires { whole seg.old array.0 ≡ true }
    ensures { CarriesOut seg.old result seg.new (λ sees.
        answers.branch_by sees p.now block next.0 (held seg.old (Value.Array array))) }
{
    if 1 < rank(seg, array) {
        return Err(Trap::RANK_ERROR);
    }
    let ravel = elements_of(seg, array);
    if ravel.is_empty() {
        go_on(seg, next);
        return Ok(Outcome::Finished);
    }
    let w = ravel[0];
    branch_on(seg, p, block, w)
}

fn branch_on(seg: &mut [u32], p: &[u8], block: Block, w: u32) -> Result<Outcome, Trap>
    ensures { CarriesOut seg.old result seg.new (λ sees.
        control.branch_to sees block.header (headers.line_of p.now block) (whole_of w)) }
{
    match scalar::reading::whole(w) {
        Whole::Character => Err(Trap::TYPE_ERROR),
        Whole::Fraction => Err(Trap::DOMAIN_ERROR),
        Whole::Number {
            negative,
            magnitude,
        } => { branch_to(seg, p, block, line_number(negative, magnitude)) }
    }
}

// To the line of that number, or out of the function.
fn branch_to(seg: &mut [u32], p: &[u8], block: Block, number: u32) -> Result<Outcome, Trap>
    ensures { CarriesOut seg.old result seg.new (λ sees.
        control.line_or_leave sees block.header (headers.line_of p.now block number)) }
{
    match block.line(p, number) {
        Some(place) => jump_to(seg, block.header, place),
        None => leave_by_branch(seg, block.header),
    }
}

fn line_number(negative: bool, magnitude: u32) -> u32
    ensures { result ≡ control.line_number negative magnitude }
{
    if negative { 0 } else { magnitude }
}

// The operand goes, and the function goes on at that place of its code.
fn jump_to(seg: &mut [u32], h: Header, place: CodeAddress) -> Result<Outcome, Trap>
    ensures { CarriesOut seg.old result seg.new (λ _. control.jump_to h place.0 (effect.discards 1 ∷ [])) }
{
    if outside(h, place) {
        return Err(Trap::PROCEDURE_ADDRESS);
    }
    go_on(seg, place);
    Ok(Outcome::Finished)
}

fn go_on(seg: &mut [u32], place: CodeAddress)
    ensures { seg.new ≡ performs seg.old (effect.discards 1 ∷ effect.jumps place.0 ∷ []) }
{
    discard(seg, 1);
    jump(seg, place);
}

// Whether the place is none of the function's code.
fn outside(h: Header, place: CodeAddress) -> bool
    ensures { result ≡ (ltb place.0 headers.code_start || leb (headers.code_end h) place.0) }
{
    place.number() < 8 || h.code_end() <= place.number()
}

// The operand's only element as zero or one.
fn condition_of(seg: &[u32], w: u32) -> Result<bool, Trap>
    ensures { answers.tested result ≡ and_then (value_of (read seg.now w)) values.truth_of_value }
{
    let Some(v) = value_of(seg, w) else {
        return Err(Trap::UNKNOWN_DESCRIPTOR);
    };
    match v {
        Value::Scalar(x) => truth(x),
        Value::Array(array) => only(elements_of(seg, array)),
    }
}

fn only(ravel: &[u32]) -> Result<bool, Trap>
    ensures { answers.tested result ≡ values.truth_of_value (values.value [] ravel.now) }
{
    if ravel.len() == 1 {
        return truth(ravel[0]);
    }
    Err(Trap::LENGTH_ERROR)
}

fn truth(w: u32) -> Result<bool, Trap>
    ensures { answers.tested result ≡ values.truth (truth_of w) }
{
    match scalar::reading::truth(w) {
        Truth::Value(b) => Ok(b),
        Truth::Other => Err(Trap::DOMAIN_ERROR),
        Truth::Character => Err(Trap::TYPE_ERROR),
    }
}
