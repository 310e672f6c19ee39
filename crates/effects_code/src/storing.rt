// Effects on variables: a result is placed, or its count is raised, before the old value is released.
ghost use Rattle.std.specs.Prelude.{◌≡◌, ◌≤◌, ◌<◌, length, take};
ghost use Rattle.manual.specs.Effects as manual;
ghost use Rattle.effects.specs.Perform as effect;
ghost use Rattle.effects_code.specs.Done as answers;

use super::taking::replace_by_share;
use descriptor::address::SegmentAddress;
use descriptor::{Descriptor, Target};
use operands::reading::{elements_of, lengths_of};
use operands::variables::{held, place_of};
use segment::blocks::{count, rank};
use segment::{copy, low, put, word};
use storage::{drop_word, place, share};
use trap::Trap;

// The variable holds `w`, a word that is there already, from now on.
pub fn store_share(seg: &mut [u32], t: Target, w: u32)
    ensures { seg.new ≡ answers.store_shared seg.old t w }
{
    let i = place_of(seg, t);
    let old = word(seg, i);
    share(seg, w);
    put(seg, i, w);
    drop_word(seg, old);
}

// The variable holds a new array from now on.
pub fn store_array(seg: &mut [u32], t: Target, shape: &[u32], ravel: &[u32]) -> Result<(), Trap>
    ensures value { result ≡ answers.full_or_done seg.old (manual.stores t (manual.made shape.now ravel.now)) }
    ensures seg_after { seg.new ≡ answers.attempt seg.old (manual.stores t (manual.made shape.now ravel.now)) }
{
    if 16384 < 2 + shape.len() + ravel.len() {
        return Err(Trap::STORAGE_FULL);
    }
    let i = place_of(seg, t);
    let old = word(seg, i);
    let Some(block) = place(seg, shape, ravel) else {
        return Err(Trap::STORAGE_FULL);
    };
    put(seg, i, Descriptor::array(block).word());
    drop_word(seg, old);
    Ok(())
}

// The element at that place of the variable's array is `w` from now on; n operands go, and the array is pushed.
pub fn store_element(
    seg: &mut [u32],
    t: Target,
    block: SegmentAddress,
    at: u32,
    w: u32,
    n: u32,
    scratch: &mut [u32],
) -> Result<(), Trap>
    requires held { answers.Held seg.old t block.0 }
    requires n_nonzero { (0 < n) × (length seg.old ≤ 16384) × (length scratch.old ≡ 16384) }
    ensures value { result ≡ answers.full_or_done seg.old (manual.stores_element t at w n) }
    ensures seg_after { seg.new ≡ answers.attempt seg.old (manual.stores_element t at w n) }
{
    let i = place_of(seg, t);
    unshare(seg, t, block, scratch)?;
    write_element(seg, i, at, w);
    push_variable(seg, t, n);
    Ok(())
}

// An array that another cell holds too is copied, and the copy is the variable's from now on.
fn unshare(
    seg: &mut [u32],
    t: Target,
    block: SegmentAddress,
    scratch: &mut [u32],
) -> Result<(), Trap>
    requires held { answers.Held seg.old t block.0 }
    requires seg_len_bound { (length seg.old ≤ 16384) × (length scratch.old ≡ 16384) }
    ensures value { result ≡ answers.full_or_done seg.old (answers.writing t) }
    ensures seg_after { seg.new ≡ answers.copied seg.old t }
{
    if count(seg, block) < 2 {
        return Ok(());
    }
    let mut lengths = [0u32; 16];
    let r = keep(lengths_of(seg, block), &mut lengths);
    let m = keep(elements_of(seg, block), scratch);
    store_array(seg, t, &lengths[..r], &scratch[..m])
}

// The words of a part of the segment, kept elsewhere while the segment changes; and how many they are.
pub fn keep(from: &[u32], to: &mut [u32]) -> usize
    requires { length from.now ≤ length to.old }
    ensures value { result ≡ length from.now }
    ensures to_after { take (length from.now) to.new ≡ from.now }
{
    let n = from.len();
    copy(from, &mut to[..n]);
    n
}

fn write_element(seg: &mut [u32], i: usize, at: u32, w: u32)
    ensures { seg.new ≡ effect.write_element seg.old i at w }
{
    let block = SegmentAddress::of(low(word(seg, i)) as u32);
    let place = block.index() + 2 + rank(seg, block) + at as usize;
    put(seg, place, w);
}

// What the variable holds takes the place of n operands.
fn push_variable(seg: &mut [u32], t: Target, n: u32)
    requires { 0 < n }
    ensures { seg.new ≡ effect.replace seg.old n (manual.variable t) }
{
    let w = held(seg, t);
    replace_by_share(seg, n, w);
}
