// The ring of free blocks and the tags of blocks. A link holds an address of 16 bits.
ghost use Rattle.std.specs.Prelude.{◌≡◌, ◌^◌, ◌<◌};
ghost use Rattle.storage.specs.Ring as ring;

use descriptor::address::SegmentAddress;
use segment::blocks::{dummy, last_at, next_at};
use segment::state::{rover, set_rover};
use segment::{halves, high, low, put, word};

pub fn set_next(seg: &mut [u32], block: SegmentAddress, to: SegmentAddress)
    requires { to.0 < 2 ^ 16 }
    ensures { seg.new ≡ ring.set_next seg.old block.0 to.0 }
{
    let i = block.index() + 1;
    let kept = low(word(seg, i));
    put(seg, i, halves(to.number() as u16, kept));
}

pub fn set_last(seg: &mut [u32], block: SegmentAddress, to: SegmentAddress)
    requires { to.0 < 2 ^ 16 }
    ensures { seg.new ≡ ring.set_last seg.old block.0 to.0 }
{
    let i = block.index() + 1;
    let kept = high(word(seg, i));
    put(seg, i, halves(kept, to.number() as u16));
}

pub fn clear_prev_free(seg: &mut [u32], block: SegmentAddress)
    ensures { seg.new ≡ ring.clear_prev_free seg.old block.0 }
{
    let i = block.index();
    let kept = word(seg, i) % 0x4000_0000;
    put(seg, i, kept);
}

pub fn set_prev_free(seg: &mut [u32], block: SegmentAddress)
    ensures { seg.new ≡ ring.set_prev_free seg.old block.0 }
{
    let i = block.index();
    let kept = word(seg, i) % 0x4000_0000;
    put(seg, i, kept + 0x4000_0000);
}

// The first and the last word of a free block of n words.
pub fn mark_free(seg: &mut [u32], block: SegmentAddress, n: u32)
    requires { (block.0 < 2 ^ 16) × (n < 2 ^ 31) }
    ensures { seg.new ≡ ring.mark_free seg.old block.0 n }
{
    put(seg, block.index(), 0x8000_0000 + n);
    put(seg, (block.number() + n).saturating_sub(1) as usize, n);
}

// The block leaves the ring.
pub fn unlink(seg: &mut [u32], block: SegmentAddress)
    ensures { seg.new ≡ ring.unlink seg.old block.0 }
{
    let next = next_at(seg, block);
    let last = last_at(seg, block);
    set_next(seg, last, next);
    set_last(seg, next, last);
}

// The block goes into the ring between two others.
fn hook(
    seg: &mut [u32],
    block: SegmentAddress,
    links: u32,
    last: SegmentAddress,
    next: SegmentAddress,
)
    requires { block.0 < 2 ^ 16 }
    ensures { seg.new ≡ ring.hook seg.old block.0 links last.0 next.0 }
{
    put(seg, block.index() + 1, links);
    set_next(seg, last, block);
    set_last(seg, next, block);
}

// The block goes into the ring after the dummy.
pub fn insert(seg: &mut [u32], block: SegmentAddress)
    requires { block.0 < 2 ^ 16 }
    ensures { seg.new ≡ ring.insert seg.old block.0 }
{
    let last = dummy(seg);
    let next = next_at(seg, last);
    let links = halves(next.number() as u16, last.number() as u16);
    hook(seg, block, links, last, next);
}

// The block takes the ring place of the block at q.
pub fn relink(seg: &mut [u32], q: SegmentAddress, block: SegmentAddress)
    requires { block.0 < 2 ^ 16 }
    ensures { seg.new ≡ ring.relink seg.old q.0 block.0 }
{
    let next = next_at(seg, q);
    let last = last_at(seg, q);
    let links = word(seg, q.index() + 1);
    hook(seg, block, links, last, next);
}

// ROVER on a vanished block moves to the merged one.
#[tactic(auto, unfolding(crate::specs::Ring::move_rover))]
pub fn move_rover(seg: &mut [u32], vanished: SegmentAddress, merged: SegmentAddress)
    requires { merged.0 < 2 ^ 16 }
    ensures { seg.new ≡ ring.move_rover seg.old vanished.0 merged.0 }
{
    if rover(seg) == vanished {
        set_rover(seg, merged);
    }
}
