// Lay out: a fresh data segment.
ghost use Rattle.std.specs.Prelude.{◌≡◌};
ghost use Rattle.operations.specs.Answers.{numbered, status_of};
ghost use Rattle.fresh_segment.specs.LayOut as meaning;
ghost use Rattle.audit.specs.Calls as call;
ghost use Rattle.audit.specs.Did.{Promised};

use operation_parts::fresh::write_fresh;
use operation_parts::tests::{accept_lent, bottom_function, parts_fit};
use operations::Refusal;

pub fn lay_out(
    seg: &mut [u32],
    regular: &[u8],
    alternate: &[u8],
    selector: u32,
    function: u32,
    globals: u32,
    storage: u32,
) -> Result<(), Refusal>
    ensures value { status_of (numbered result) ≡ meaning.lay_out_refusal seg.old regular.now alternate.now
        (meaning.layout selector function globals storage) }
    ensures seg_after { seg.new ≡ meaning.laid_out seg.old regular.now alternate.now
        (meaning.layout selector function globals storage) }
    ensures promised { Promised seg.old
        (call.lay_out (call.procedures regular.now alternate.now) (meaning.layout selector function globals storage))
        (call.answer_of (numbered result)) seg.new }
{
    accept_lent(seg, regular, alternate)?;
    let Some(block) = bottom_function(regular, alternate, selector, function) else {
        return Err(Refusal::Function);
    };
    let h = block.header;
    if 0 < h.nargs {
        return Err(Refusal::Function);
    }
    if !parts_fit(seg, globals, storage, h.nlocals as u32) {
        return Err(Refusal::Parts);
    }
    write_fresh(seg, selector, function, globals, storage, h.nlocals as u32);
    Ok(())
}
