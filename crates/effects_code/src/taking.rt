// Effects on the operands: a result is placed before they are released, and takes their place.
ghost use Rattle.std.specs.Prelude.{◌≡◌, ◌+◌, ◌-◌, ◌≤◌, ◌<◌, ◌^◌, length};
ghost use Rattle.segment.specs.State as fields;
ghost use Rattle.storage.specs.Arrays as arrays;
ghost use Rattle.manual.specs.Effects as manual;
ghost use Rattle.effects.specs.Perform as effect;
ghost use Rattle.effects_code.specs.Done as answers;

use descriptor::Descriptor;
use descriptor::address::{CodeAddress, SegmentAddress, StackAddress};
use segment::blocks::Part;
use segment::stack::set_pctr;
use segment::state::{set_ltop, top_cell};
use segment::{high, low, put, word};
use storage::{drop_from, place, share};
use storage_joins::place_joined;
use trap::Trap;

// `w`, a word that names no array, takes the place of n operands.
pub fn replace_by_word(seg: &mut [u32], n: u32, w: u32)
    requires { effect.bottom_of seg.old n < 2 ^ 17 - 1 }
    ensures { seg.new ≡ effect.replace seg.old n (manual.word w) }
{
    let b = bottom(seg, n);
    take(seg, b, n, w);
}

// `w`, a word that a variable or an operand holds, takes the place of n operands.
pub fn replace_by_share(seg: &mut [u32], n: u32, w: u32)
    requires { effect.bottom_of seg.old n < 2 ^ 17 - 1 }
    ensures { seg.new ≡ answers.replace_shared seg.old n w }
{
    let b = bottom(seg, n);
    share(seg, w);
    take(seg, b, n, w);
}

// A new array takes the place of n operands.
pub fn replace_by_array(seg: &mut [u32], n: u32, shape: &[u32], ravel: &[u32]) -> Result<(), Trap>
    requires { effect.bottom_of seg.old n < 2 ^ 17 - 1 }
    ensures value { result ≡ answers.full_or_done seg.old (manual.replaces n (manual.made shape.now ravel.now)) }
    ensures seg_after { seg.new ≡ answers.attempt seg.old (manual.replaces n (manual.made shape.now ravel.now)) }
{
    if 16384 < 2 + shape.len() + ravel.len() {
        return Err(Trap::STORAGE_FULL);
    }
    let b = bottom(seg, n);
    let Some(block) = place(seg, shape, ravel) else {
        return Err(Trap::STORAGE_FULL);
    };
    take(seg, b, n, Descriptor::array(block).word());
    Ok(())
}

// A new array with the elements of two parts of the segment takes the place of n operands.
pub fn replace_by_joined(
    seg: &mut [u32],
    n: u32,
    shape: &[u32],
    first: Part,
    second: Part,
    scratch: &mut [u32],
) -> Result<(), Trap>
    requires n_bound { effect.bottom_of seg.old n < 2 ^ 17 - 1 }
    requires count_bound { (first.count ≤ 16384) × (second.count ≤ 16384) × (length scratch.old ≡ 16384) }
    ensures value { result ≡ answers.full_or_done seg.old (answers.joining n shape.now seg.old first second) }
    ensures seg_after { seg.new ≡ answers.attempt seg.old (answers.joining n shape.now seg.old first second) }
{
    if 16384 < 2 + shape.len() + (first.count + second.count) {
        return Err(Trap::STORAGE_FULL);
    }
    let b = bottom(seg, n);
    let Some(block) = place_joined(seg, shape, first, second, scratch) else {
        return Err(Trap::STORAGE_FULL);
    };
    take(seg, b, n, Descriptor::array(block).word());
    Ok(())
}

// n operands go.
pub fn discard(seg: &mut [u32], n: u32)
    ensures { seg.new ≡ effect.discard seg.old n }
{
    let b = bottom(seg, n);
    let left = (top(seg) as u32).saturating_sub(n);
    drop_from(seg, b, n);
    set_ltop(seg, StackAddress::of(left));
}

// The two operands on top change places.
pub fn swap(seg: &mut [u32])
    ensures { seg.new ≡ effect.swap seg.old }
{
    let at = top_cell(seg).index();
    let under = bottom(seg, 2).index();
    let first = word(seg, at);
    let second = word(seg, under);
    put(seg, at, second);
    put(seg, under, first);
}

// The current function goes on at that place of its code; PCTR has sixteen bits.
pub fn jump(seg: &mut [u32], place: CodeAddress)
    ensures { seg.new ≡ effect.perform seg.old (manual.jumps place.0) }
{
    set_pctr(seg, CodeAddress::of(place.number() % 0x1_0000));
}

// The n cells from b up go, and the stack ends at b with `w`.
fn take(seg: &mut [u32], b: SegmentAddress, n: u32, w: u32)
    requires { b.0 < 2 ^ 17 - 1 }
    ensures { seg.new ≡ effect.finish (arrays.drop_words n seg.old b.0) b.0 w }
{
    drop_from(seg, b, n);
    finish(seg, b, w);
}

// The stack ends at b with `w`.
pub fn finish(seg: &mut [u32], b: SegmentAddress, w: u32)
    requires { b.0 < 2 ^ 17 - 1 }
    ensures { seg.new ≡ effect.finish seg.old b.0 w }
{
    let base = base(seg) as u32;
    put(seg, 0, base * 0x1_0000 + b.number().saturating_sub(base));
    put(seg, b.index(), w);
}

// The cell of the lowest of n operands.
fn bottom(seg: &[u32], n: u32) -> SegmentAddress
    ensures { result.0 ≡ effect.bottom_of seg.now n }
{
    SegmentAddress::of((top_cell(seg).number() + 1).saturating_sub(n))
}

// LBASE, counted from the segment's start.
pub fn frame_cell(seg: &[u32]) -> SegmentAddress
    ensures { (result.0 ≡ fields.sbase seg.now + fields.lbase seg.now) × (result.0 < 2 ^ 17 - 1) }
{
    SegmentAddress::of(base(seg) as u32 + frame(seg) as u32)
}

// SBASE, LTOP and LBASE, which fit half a word each.
fn base(seg: &[u32]) -> u16
    ensures { result ≡ fields.sbase seg.now }
{
    high(word(seg, 0))
}

pub fn top(seg: &[u32]) -> u16
    ensures { result ≡ fields.ltop seg.now }
{
    low(word(seg, 0))
}

pub fn frame(seg: &[u32]) -> u16
    ensures { result ≡ fields.lbase seg.now }
{
    high(word(seg, 1))
}
