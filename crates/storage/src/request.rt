// Requests: a free block is found along the ring and given, its high end or all of it.
ghost use Rattle.std.specs.Prelude.{◌≡◌, ◌^◌, ◌<◌, ◌≤◌, IfSome};
ghost use Rattle.segment.specs.Blocks.{size_at};
ghost use Rattle.storage.specs.Request as requests;
ghost use Rattle.storage.specs.Found.{found};

use super::ring::{clear_prev_free, unlink};
use descriptor::address::SegmentAddress;
use segment::blocks::{next_at, size_at};
use segment::put;
use segment::state::{rover, set_rover};

// A block of `size` words; none where no free block is long enough.
pub fn request(seg: &mut [u32], size: usize) -> Option<SegmentAddress>
    ensures value { result ≡ found (requests.request_at seg.old size) }
    ensures seg_after { seg.new ≡ requests.request seg.old size }
{
    let free = find(seg, size)?;
    Some(give(seg, free, size as u16))
}

// The first free block with room, from ROVER along NEXT. Each block is looked at once.
pub fn find(seg: &[u32], size: usize) -> Option<SegmentAddress>
    ensures value { result ≡ found (requests.find seg.now size) }
    ensures bound { IfSome result (λ f. f.0 < 2 ^ 16) }
{
    let stop = rover(seg);
    let mut at = stop;
    for _ in 0..seg.len() {
        if size <= size_at(seg, at) as usize {
            return block_at(at);
        }
        at = next_at(seg, at);
        if at == stop {
            return None;
        }
    }
    None
}

// No block stands at 0, though a link of a damaged segment may lead there.
fn block_at(at: SegmentAddress) -> Option<SegmentAddress>
    ensures { result ≡ found at.0 }
{
    if at.number() == 0 {
        return None;
    }
    Some(at)
}

// The free block at f serves the request: where the block given starts.
pub fn give(seg: &mut [u32], f: SegmentAddress, size: u16) -> SegmentAddress
    requires { (f.0 < 2 ^ 16) × (size ≤ size_at seg.old f.0) }
    ensures result_value { result.0 ≡ requests.given seg.old f.0 size }
    ensures seg_after { seg.new ≡ requests.give seg.old f.0 size }
{
    let next = next_at(seg, f);
    let over = size_at(seg, f) - size;
    if 3 <= over {
        split(seg, f, over, size);
        set_rover(seg, next);
        SegmentAddress::of(f.number() + over as u32)
    } else {
        whole(seg, f, over, size);
        set_rover(seg, next);
        f
    }
}

// The free block at f shrinks to `rest` words, and its high end is given.
fn split(seg: &mut [u32], f: SegmentAddress, rest: u16, size: u16)
    requires { (f.0 < 2 ^ 16) × (0 < rest) }
    ensures { seg.new ≡ requests.split seg.old f.0 rest size }
{
    let a = f.number() + rest as u32;
    put(seg, f.index(), 0x8000_0000 + rest as u32);
    put(seg, a as usize - 1, rest as u32);
    put(seg, a as usize, 0x4000_0000 + size as u32);
    clear_prev_free(seg, SegmentAddress::of(a + size as u32));
}

// The free block at f leaves the ring and is given whole, with `slop` words over.
fn whole(seg: &mut [u32], f: SegmentAddress, slop: u16, size: u16)
    requires { f.0 < 2 ^ 16 }
    ensures { seg.new ≡ requests.given_whole seg.old f.0 slop size }
{
    unlink(seg, f);
    put(seg, f.index(), slop as u32 * 0x1_0000 + size as u32);
    clear_prev_free(
        seg,
        SegmentAddress::of(f.number() + size as u32 + slop as u32),
    );
}
