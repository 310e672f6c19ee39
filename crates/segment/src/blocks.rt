// The blocks of array storage: the tags and links of the block at a word, and what an array's block holds.
ghost use Rattle.std.specs.Prelude.{◌≡◌, ◌+◌, ◌<◌, ◌^◌};
ghost use Rattle.segment.specs.Blocks as layout;
ghost use Rattle.segment.specs.Parts as parts;

use super::{high, low, word};
use descriptor::address::SegmentAddress;

// So many words of the segment from an address up.
#[derive(Clone, Copy)]
pub struct Part {
    pub start: SegmentAddress,
    pub count: usize,
}

pub fn free_at(seg: &[u32], block: SegmentAddress) -> bool
    ensures { result ≡ layout.free_at seg.now block.0 }
{
    0x8000_0000 <= word(seg, block.index())
}

pub fn prev_free_at(seg: &[u32], block: SegmentAddress) -> bool
    ensures { result ≡ layout.prev_free_at seg.now block.0 }
{
    0x4000_0000 <= word(seg, block.index()) % 0x8000_0000
}

pub fn slop_at(seg: &[u32], block: SegmentAddress) -> u32
    ensures { result ≡ layout.slop_at seg.now block.0 }
{
    word(seg, block.index()) / 0x1_0000 % 4
}

pub fn size_at(seg: &[u32], block: SegmentAddress) -> u16
    ensures { result ≡ layout.size_at seg.now block.0 }
{
    low(word(seg, block.index()))
}

// The words that an array's block covers, its slop among them.
pub fn span_at(seg: &[u32], block: SegmentAddress) -> u32
    ensures { result ≡ layout.span_at seg.now block.0 }
{
    let w = word(seg, block.index());
    w % 0x1_0000 + w / 0x1_0000 % 4
}

// The links of a free block or the dummy: addresses of 16 bits.
pub fn next_at(seg: &[u32], block: SegmentAddress) -> SegmentAddress
    ensures result_value { result.0 ≡ layout.next_at seg.now block.0 }
    ensures result_bound { result.0 < 2 ^ 16 }
{
    SegmentAddress::of(high(word(seg, block.index() + 1)) as u32)
}

pub fn last_at(seg: &[u32], block: SegmentAddress) -> SegmentAddress
    ensures result_value { result.0 ≡ layout.last_at seg.now block.0 }
    ensures result_bound { result.0 < 2 ^ 16 }
{
    SegmentAddress::of(low(word(seg, block.index() + 1)) as u32)
}

pub fn dummy(seg: &[u32]) -> SegmentAddress
    ensures result_value { result.0 ≡ layout.dummy seg.now }
    ensures result_bound { result.0 < 2 ^ 16 }
{
    SegmentAddress::of((high(word(seg, 0)) as u32).saturating_sub(3))
}

// How many cells point to the array.
pub fn count(seg: &[u32], block: SegmentAddress) -> u16
    ensures { result ≡ layout.count_at seg.now block.0 }
{
    high(word(seg, block.index() + 1))
}

pub fn rank(seg: &[u32], block: SegmentAddress) -> usize
    ensures { result ≡ layout.rank_at seg.now block.0 }
{
    (word(seg, block.index() + 1) % 16) as usize
}

// The lengths, as a part of the lent segment; none where the words do not lie in it.
pub fn shape(seg: &[u32], block: SegmentAddress) -> &[u32]
    ensures { result.now ≡ parts.shape_part seg.now block.0 }
{
    within(seg, block.index() + 2, rank(seg, block))
}

// The elements, as a part of the lent segment; none where the words do not lie in it.
pub fn elements(seg: &[u32], block: SegmentAddress) -> &[u32]
    ensures { result.now ≡ parts.elements_part seg.now block.0 }
{
    let rank = rank(seg, block);
    let size = size_at(seg, block);
    within(
        seg,
        block.index() + 2 + rank,
        (size as usize).saturating_sub(rank + 2),
    )
}

fn within(seg: &[u32], start: usize, count: usize) -> &[u32]
    requires { start + count < 2 ^ 64 }
    ensures { result.now ≡ parts.within seg.now start count }
{
    seg.get(start..start + count).unwrap_or(&[])
}
