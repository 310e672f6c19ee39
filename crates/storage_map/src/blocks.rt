// The blocks of array storage as they are drawn.
ghost use Rattle.std.specs.Prelude.{◌^◌, ◌<◌};

use descriptor::address::SegmentAddress;
use segment::blocks::{count, dummy, free_at, size_at, slop_at};
use segment::state::blockptr;

#[derive(Clone, Copy)]
pub enum Kind {
    // An array that so many cells point to.
    Array(u16),
    Free,
    Dummy,
}

#[derive(Clone, Copy)]
pub struct Block {
    pub at: u32,
    pub kind: Kind,
    pub size: u16,
    pub slop: u8,
}

impl Block {
    fn new(at: u32, kind: Kind, size: u16, slop: u8) -> Block {
        Block {
            at,
            kind,
            size,
            slop,
        }
    }

    // The words that it covers, its slop among them.
    pub fn span(self) -> u32
        ensures { result < 2 ^ 17 }
    {
        self.size as u32 + self.slop as u32
    }
}

// The block at a word.
pub fn block_at(seg: &[u32], a: u32) -> Block {
    let here = SegmentAddress::of(a);
    if dummy(seg).number() <= a {
        return Block::new(a, Kind::Dummy, 3, 0);
    }
    let size = size_at(seg, here);
    if free_at(seg, here) {
        return Block::new(a, Kind::Free, size, 0);
    }
    Block::new(
        a,
        Kind::Array(count(seg, here)),
        size,
        slop_at(seg, here) as u8,
    )
}

// A segment has fewer blocks than this, since a block has three words or more.
pub const MOST_BLOCKS: u16 = 16384;

// How many blocks there are, the dummy among them, and the words of the longest.
#[derive(Clone, Copy)]
pub struct Extent {
    pub blocks: u16,
    pub longest: u32,
}

pub fn measure(seg: &[u32]) -> Extent {
    let end = dummy(seg).number();
    let mut a = blockptr(seg).number();
    let mut longest = 3;
    for blocks in 0..MOST_BLOCKS {
        if end < a {
            return Extent { blocks, longest };
        }
        let span = block_at(seg, a).span();
        longest = longest.max(span);
        a += span;
    }
    Extent {
        blocks: MOST_BLOCKS,
        longest,
    }
}
