// CALL and RETURN: the current function calls another, or is left.
ghost use Rattle.std.specs.Prelude.{◌≡◌, ◌&&◌, List, [], ◌∷◌, ◌^◌, ◌%◌, ◌≤◌, ◌<◌, ◌-◌, length};
ghost use Rattle.manual.specs.Effects as effect;
ghost use Rattle.manual.specs.Loads as loads;
ghost use Rattle.manual.specs.Control as control;
ghost use Rattle.effects.specs.Seen.{seen};
ghost use Rattle.effects.specs.Carried.{CarriesOut};
ghost use Rattle.instructions_control.specs.Answers as answers;

use descriptor::address::CodeAddress;
use effects::Outcome;
use effects_code::frames::{enter, leave, result_word};
use effects_code::taking::{discard, jump};
use operands::reading::{count, is_undefined, room};
use operands::variables::variables;
use procedure::directory::find_in;
use procedure::header::Header;
use segment::stack::last_lbase;
use segment::state::lbase;
use trap::Trap;

// CALL. The function's number has eleven bits.
pub fn call(
    seg: &mut [u32],
    regular: &[u8],
    alternate: &[u8],
    arguments: u16,
    selector: bool,
    function: u16,
    next: CodeAddress,
) -> Result<Outcome, Trap>
    requires { length seg.old ≤ 16384 }
    ensures { CarriesOut seg.old result seg.new (λ sees.
        answers.call_in regular.now alternate.now sees next.0 arguments selector (function % 2 ^ 11)) }
{
    let number = function % 0x800;
    let Some(block) = find_in(selector, regular, alternate, number) else {
        return Err(Trap::PROCEDURE_ADDRESS);
    };
    call_into(seg, block.header, arguments, selector, number, next)
}

fn call_into(
    seg: &mut [u32],
    called: Header,
    arguments: u16,
    selector: bool,
    number: u16,
    next: CodeAddress,
) -> Result<Outcome, Trap>
    requires { (number < 2 ^ 11) × (length seg.old ≤ 16384) }
    ensures { CarriesOut seg.old result seg.new (λ sees. control.call sees next.0 called selector number arguments) }
{
    if count(seg) < arguments as u32 || arguments != called.nargs {
        return Err(Trap::MISSING_OPERAND);
    }
    if room(seg) < called.nlocals as usize + 2 {
        return Err(Trap::STACK_FULL);
    }
    jump(seg, next);
    enter(seg, called.nlocals as u32, frame_word(selector, number));
    Ok(Outcome::Entered)
}

// P, the function number, and PCTR 8.
fn frame_word(selector: bool, number: u16) -> u32
    requires { number < 2 ^ 11 }
    ensures { result ≡ control.frame_word selector number }
{
    if selector {
        return 0x0800_0000 + number as u32 * 0x1_0000 + 8;
    }
    number as u32 * 0x1_0000 + 8
}

// RETURN.
pub fn return_from(seg: &mut [u32], h: Header) -> Result<Outcome, Trap>
    ensures { CarriesOut seg.old result seg.new (λ sees. control.return sees h) }
{
    may_leave(seg, h, count(seg))?;
    leave(seg, variables(h), h.result);
    Ok(Outcome::Left)
}

// BRANCH to no line: its operand goes first of all.
pub fn leave_by_branch(seg: &mut [u32], h: Header) -> Result<Outcome, Trap>
    ensures { CarriesOut seg.old result seg.new (λ sees. control.leaving sees h (sees.count - 1) (effect.discards 1 ∷ [])) }
{
    may_leave(seg, h, count(seg).saturating_sub(1))?;
    discard(seg, 1);
    leave(seg, variables(h), h.result);
    Ok(Outcome::Left)
}

// Whether the current function can be left, where so many temporaries are on the stack.
fn may_leave(seg: &[u32], h: Header, temporaries: u32) -> Result<(), Trap>
    ensures { (before : List effect.Effect) → answers.left_by result h before ≡ control.leaving (seen seg.now) h temporaries before }
{
    if 0 < temporaries {
        return Err(Trap::TEMPORARIES_LEFT);
    }
    if is_bottom(seg) {
        return Err(Trap::BOTTOM_FRAME);
    }
    if lacks_result(seg, h.result) {
        return Err(Trap::VALUE_ERROR);
    }
    Ok(())
}

// The bottom frame names itself.
fn is_bottom(seg: &[u32]) -> bool
    ensures { result ≡ (seen seg.now).bottom }
{
    let frame = lbase(seg);
    frame <= last_lbase(seg, frame)
}

// The function gives a result, and its variable is undefined.
fn lacks_result(seg: &[u32], res: bool) -> bool
    ensures { result ≡ (res && loads.is_undefined ((seen seg.now).result res)) }
{
    res && is_undefined(result_word(seg))
}
