// Test 14: one walk over the blocks, from BLOCKPTR to the dummy, which marks where arrays and free blocks start.
ghost use Rattle.std.specs.Prelude.{◌≡◌, true, cond, ◌+◌, ◌-◌, ◌≤◌, ◌<◌, ◌^◌, get_or, set, length};
ghost use Rattle.storage.specs.Heap.{prev_free_bit};
ghost use Rattle.acceptance_storage.specs.Head.{Head};
ghost use Rattle.acceptance_storage.specs.Blocks.{free_span, array_span, block_span, blocks_test};
ghost use Rattle.acceptance_storage.specs.Marks.{Clear, BeforeWalk, Marked};
ghost use Rattle.acceptance_storage.specs.Answer.{proper, blocks_answer};

use super::arrays::inside_test;
use super::marks::raise;
use descriptor::address::SegmentAddress;
use segment::blocks::free_at;
use segment::state::{blockptr, sbase};
use segment::word;

// How many free blocks there are, where every block is proper. The tables are those of the addresses where arrays, and where
// free blocks, start.
pub fn blocks_test(seg: &[u32], arrays: &mut [u16], frees: &mut [u16]) -> Option<usize>
    requires { Head seg.now × (length seg.now ≤ 16384) × Clear arrays.old (length seg.now) × Clear frees.old (length seg.now) }
    ensures value { result ≡ blocks_answer seg.now }
    ensures marked { blocks_test seg.now ≡ true → Marked seg.now arrays.new frees.new }
{
    let from = blockptr(seg).index();
    let end = sbase(seg).index() - 3;
    if word(seg, end + 2) != 0 {
        return None;
    }
    walk(seg, from, end, arrays, frees)
}

// The walk, where the dummy's last word is 0.
fn walk(
    seg: &[u32],
    from: usize,
    end: usize,
    arrays: &mut [u16],
    frees: &mut [u16],
) -> Option<usize>
    requires { BeforeWalk seg.now arrays.old frees.old from end }
    ensures value { result ≡ blocks_answer seg.now }
    ensures marked { blocks_test seg.now ≡ true → Marked seg.now arrays.new frees.new }
{
    let mut a = from;
    let mut before = false;
    let mut found = 0;
    while a < end {
        let span = block_span(seg, a, before)? as usize;
        if end - a < span {
            return None;
        }
        let block = SegmentAddress::of(a as u32);
        if !inside_test(seg, block) {
            return None;
        }
        before = free_at(seg, block);
        found += mark(a, before, arrays, frees);
        a += span;
    }
    if seg[end] != prev_free_bit(before) {
        return None;
    }
    Some(found)
}

// The block's start goes into the table of its kind. Returns how many free blocks it is.
fn mark(a: usize, free: bool, arrays: &mut [u16], frees: &mut [u16]) -> usize
    requires { (get_or arrays.old a 0 < 65535) × (get_or frees.old a 0 < 65535) }
    ensures value { result ≡ cond free 1 0 }
    ensures arrays_after { arrays.new ≡ cond free arrays.old (set arrays.old a (get_or arrays.old a 0 + 1)) }
    ensures frees_after { frees.new ≡ cond free (set frees.old a (get_or frees.old a 0 + 1)) frees.old }
{
    if free {
        raise(frees, a);
        return 1;
    }
    raise(arrays, a);
    0
}

// The words that a proper block covers, where `before` says that the block before it is free.
#[tactic(auto, unfolding(crate::specs::Blocks::block_span))]
fn block_span(seg: &[u32], a: usize, before: bool) -> Option<u32>
    requires { a < length seg.now }
    ensures { result ≡ proper (block_span seg.now a before) }
{
    let first = seg[a];
    if 0x8000_0000 <= first {
        return free_span(seg, a, before, first - 0x8000_0000);
    }
    array_span(seg, a, before)
}

#[tactic(auto, using(crate::proofs::Spans::proper_some), unfolding(crate::specs::Blocks::free_span))]
fn free_span(seg: &[u32], a: usize, before: bool, size: u32) -> Option<u32>
    requires { (size ≡ get_or seg.now a 0 - 2 ^ 31) × (a < length seg.now) }
    ensures { result ≡ proper (free_span seg.now a before) }
{
    if before || size < 3 || word(seg, a + size as usize - 1) != size {
        return None;
    }
    Some(size)
}

#[tactic(auto, using(crate::proofs::Spans::proper_some), unfolding(crate::specs::Blocks::array_span))]
fn array_span(seg: &[u32], a: usize, before: bool) -> Option<u32>
    requires { a < length seg.now }
    ensures { result ≡ proper (array_span seg.now a before) }
{
    let first = seg[a];
    let size = first % 0x1_0000;
    let slop = first / 0x1_0000 % 4;
    if size < 3 || 2 < slop || first / 0x4_0000 != prev_free_bit(before) / 0x4_0000 {
        return None;
    }
    Some(size + slop)
}

// PREVFREE as it stands in a word.
fn prev_free_bit(before: bool) -> u32
    ensures { result ≡ prev_free_bit before }
{
    if before { 0x4000_0000 } else { 0 }
}
