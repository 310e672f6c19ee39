// Frames of the stack: a function is entered, and left.
ghost use Rattle.std.specs.Prelude.{◌≡◌, [], ◌∷◌, ◌++◌, ◌+◌, ◌%◌, ◌^◌, ◌<◌, ◌≤◌, get_or, length, replicate};
ghost use Rattle.std.proofs.lemmas.List.Edits.{sets};
ghost use Rattle.descriptor.specs.Fields.{undefined_word};
ghost use Rattle.segment.specs.State as fields;
ghost use Rattle.segment.specs.Stack as stack;
ghost use Rattle.manual.specs.Effects as manual;
ghost use Rattle.effects.specs.Perform as effect;

use super::taking::{frame, frame_cell, top};
use descriptor::Descriptor;
use descriptor::address::{SegmentAddress, StackAddress};
use segment::state::{lbase, set_lbase, set_ltop, top_cell};
use segment::{low, put, word};
use storage::{drop_from, share};

// A new frame on top of the arguments: undefined locals, last LBASE, the function's word.
pub fn enter(seg: &mut [u32], nlocals: u32, function: u32)
    requires { (fields.sbase seg.old + fields.ltop seg.old + nlocals + 2 < length seg.old) × (length seg.old ≤ 16384) }
    ensures { seg.new ≡ effect.enter seg.old nlocals function }
{
    let top = top(seg) as u32;
    let start = top_cell(seg).index() + 1;
    let last = lbase(seg).number();
    lay(seg, start, nlocals, last, function);
    set_frame(seg, top + nlocals + 2, top + nlocals + 1);
}

// The words of the frame from `start` up.
fn lay(seg: &mut [u32], start: usize, nlocals: u32, last: u32, function: u32)
    requires { start + nlocals + 1 < length seg.old }
    ensures { seg.new ≡ sets seg.old start (replicate nlocals undefined_word ++ (last ∷ function ∷ [])) }
{
    let end = start + nlocals as usize;
    seg[start..end].fill(Descriptor::UNDEFINED);
    put(seg, end, last);
    put(seg, end + 1, function);
}

// The current frame goes with its n variables; with a result, its result variable takes their place.
pub fn leave(seg: &mut [u32], n: u32, res: bool)
    ensures { seg.new ≡ effect.perform seg.old (manual.leaves n res) }
{
    if res {
        leave_with(seg, n);
    } else {
        leave_without(seg, n);
    }
}

fn leave_with(seg: &mut [u32], n: u32)
    ensures { seg.new ≡ effect.leave_with seg.old n }
{
    let frame = frame(seg) as u32;
    let last = last_lbase(seg) as u32;
    let start = below(seg, n);
    let w = result_word(seg);
    share(seg, w);
    drop_from(seg, start, n);
    set_frame(seg, frame.saturating_sub(n), last);
    put(seg, start.index(), w);
}

fn leave_without(seg: &mut [u32], n: u32)
    ensures { seg.new ≡ effect.leave_without seg.old n }
{
    let frame = frame(seg) as u32;
    let last = last_lbase(seg) as u32;
    let lowest = below(seg, n);
    drop_from(seg, lowest, n);
    set_frame(seg, frame.saturating_sub(n).saturating_sub(1), last);
}

// What the result variable of the current frame holds: the highest of those under its two words.
pub fn result_word(seg: &[u32]) -> u32
    ensures { result ≡ get_or seg.now (effect.leaving_start seg.now 1) 0 }
{
    word(seg, below(seg, 1).index())
}

// The cell of the lowest of the n variables under the current frame's two words.
fn below(seg: &[u32], n: u32) -> SegmentAddress
    ensures { result.0 ≡ effect.leaving_start seg.now n }
{
    SegmentAddress::of(frame_cell(seg).number().saturating_sub(n))
}

// Last LBASE of the current frame, of which LBASE has room for sixteen bits.
fn last_lbase(seg: &[u32]) -> u16
    ensures { result ≡ stack.last_lbase_at seg.now (fields.lbase seg.now) % 2 ^ 16 }
{
    low(segment::stack::last_lbase(seg, lbase(seg)).number())
}

fn set_frame(seg: &mut [u32], ltop: u32, lbase: u32)
    requires { (ltop < 2 ^ 16) × (lbase < 2 ^ 16) }
    ensures { seg.new ≡ fields.set_lbase (fields.set_ltop seg.old ltop) lbase }
{
    set_ltop(seg, StackAddress::of(ltop));
    set_lbase(seg, StackAddress::of(lbase));
}
