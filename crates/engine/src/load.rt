// Load: a value into a global.
ghost use Rattle.std.specs.Prelude.{ℕ, ◌≡◌, List};
ghost use Rattle.acceptance.specs.Refusal.{refusal};
ghost use Rattle.operations.specs.Answers.{numbered, status_of};
ghost use Rattle.operations.specs.Load as meaning;
ghost use Rattle.audit.specs.Calls as call;
ghost use Rattle.audit.specs.Did.{Promised};

use descriptor::Target;
use descriptor::address::SegmentAddress;
use effects_code::storing::{store_array, store_share};
use operation_parts::tests::{accept, is_global, is_value};
use operations::Refusal;

pub fn load(
    seg: &mut [u32],
    regular: &[u8],
    alternate: &[u8],
    global: u32,
    lengths: &[u32],
    ravel: &[u32],
) -> Result<(), Refusal>
    ensures value { status_of (numbered result) ≡ meaning.load_refusal seg.old regular.now alternate.now
        global lengths.now ravel.now }
    ensures seg_after { seg.new ≡ meaning.loaded seg.old regular.now alternate.now
        global lengths.now ravel.now }
    ensures promised { Promised seg.old
        (call.load (call.procedures regular.now alternate.now) global lengths.now ravel.now)
        (call.answer_of (numbered result)) seg.new }
{
    accept(seg, regular, alternate)?;
    load_accepted(seg, global, lengths, ravel)
}

// The same where tests 10 to 18 are known to pass, beside whichever procedure segments.
pub fn load_accepted(
    seg: &mut [u32],
    global: u32,
    lengths: &[u32],
    ravel: &[u32],
) -> Result<(), Refusal>
    ensures { (regular alternate : List ℕ) → 0 ≡ refusal seg.old regular alternate
        → (status_of (numbered result) ≡ meaning.load_refusal seg.old regular alternate global lengths.now ravel.now)
        × (seg.new ≡ meaning.loaded seg.old regular alternate global lengths.now ravel.now) }
{
    if !is_global(seg, global) {
        return Err(Refusal::Global);
    }
    if !is_value(lengths, ravel) {
        return Err(Refusal::Value);
    }
    let target = Target::Global(SegmentAddress::of(global));
    if lengths.len() == 0 {
        store_share(seg, target, ravel[0]);
        return Ok(());
    }
    match store_array(seg, target, lengths, ravel) {
        Ok(()) => Ok(()),
        Err(_) => Err(Refusal::Full),
    }
}
