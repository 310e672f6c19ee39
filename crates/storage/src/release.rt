// The release of an array's block: its words join the free blocks beside it.
ghost use Rattle.std.specs.Prelude.{◌≡◌, ◌^◌, ◌<◌};
ghost use Rattle.storage.specs.Release as releases;

use super::ring::{insert, mark_free, move_rover, relink, set_prev_free, unlink};
use descriptor::address::SegmentAddress;
use segment::blocks::{free_at, prev_free_at, size_at, span_at};

// All SIZE + SLOP words of the block are freed.
pub fn release(seg: &mut [u32], block: SegmentAddress)
    requires { block.0 < 2 ^ 16 }
    ensures { seg.new ≡ releases.release seg.old block.0 }
{
    let a = block.number();
    let n = span_at(seg, block);
    let after = SegmentAddress::of(a + n);
    if prev_free_at(seg, block) {
        let before = size_at(seg, SegmentAddress::of(a.saturating_sub(1))) as u32;
        let p = SegmentAddress::of(a.saturating_sub(before));
        if free_at(seg, after) {
            join_both(seg, p, before + n, after);
        } else {
            join_before(seg, p, before + n, after);
        }
    } else {
        if free_at(seg, after) {
            join_after(seg, block, n, after);
        } else {
            join_none(seg, block, n, after);
        }
    }
}

// The four ways: n words are freed from the free block before, or from the array itself; q is the block after.
fn join_both(seg: &mut [u32], p: SegmentAddress, n: u32, q: SegmentAddress)
    requires { (p.0 < 2 ^ 16) × (n < 2 ^ 30) }
    ensures { seg.new ≡ releases.join_both seg.old p.0 n q.0 }
{
    let size = size_at(seg, q);
    unlink(seg, q);
    mark_free(seg, p, n + size as u32);
    move_rover(seg, q, p);
}

fn join_before(seg: &mut [u32], p: SegmentAddress, n: u32, q: SegmentAddress)
    requires { (p.0 < 2 ^ 16) × (n < 2 ^ 30) }
    ensures { seg.new ≡ releases.join_before seg.old p.0 n q.0 }
{
    mark_free(seg, p, n);
    set_prev_free(seg, q);
}

fn join_after(seg: &mut [u32], block: SegmentAddress, n: u32, q: SegmentAddress)
    requires { (block.0 < 2 ^ 16) × (n < 2 ^ 30) }
    ensures { seg.new ≡ releases.join_after seg.old block.0 n q.0 }
{
    let size = size_at(seg, q);
    relink(seg, q, block);
    mark_free(seg, block, n + size as u32);
    move_rover(seg, q, block);
}

fn join_none(seg: &mut [u32], block: SegmentAddress, n: u32, q: SegmentAddress)
    requires { (block.0 < 2 ^ 16) × (n < 2 ^ 30) }
    ensures { seg.new ≡ releases.join_none seg.old block.0 n q.0 }
{
    insert(seg, block);
    mark_free(seg, block, n);
    set_prev_free(seg, q);
}
