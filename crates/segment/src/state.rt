// The eight state words: where the parts of the segment lie, the flags and the trap.
ghost use Rattle.std.specs.Prelude.{◌≡◌, ◌+◌, ◌-◌, ◌<◌, ◌^◌, eqb};
ghost use Rattle.segment.specs.State as fields;

use super::{halves, high, low, put, word};
use descriptor::address::{SegmentAddress, StackAddress};

pub fn sbase(seg: &[u32]) -> SegmentAddress
    ensures { result.0 ≡ fields.sbase seg.now }
{
    SegmentAddress::of(high(word(seg, 0)) as u32)
}

pub fn ltop(seg: &[u32]) -> StackAddress
    ensures { result.0 ≡ fields.ltop seg.now }
{
    StackAddress::of(low(word(seg, 0)) as u32)
}

// LTOP, counted from the segment's start.
pub fn top_cell(seg: &[u32]) -> SegmentAddress
    ensures { (result.0 ≡ fields.sbase seg.now + fields.ltop seg.now) × (result.0 < 2 ^ 17 - 1) }
{
    let w = word(seg, 0);
    SegmentAddress::of(high(w) as u32 + low(w) as u32)
}

pub fn lbase(seg: &[u32]) -> StackAddress
    ensures { result.0 ≡ fields.lbase seg.now }
{
    StackAddress::of(high(word(seg, 1)) as u32)
}

pub fn rover(seg: &[u32]) -> SegmentAddress
    ensures { result.0 ≡ fields.rover seg.now }
{
    SegmentAddress::of(low(word(seg, 1)) as u32)
}

pub fn blockptr(seg: &[u32]) -> SegmentAddress
    ensures { result.0 ≡ fields.blockptr seg.now }
{
    SegmentAddress::of(word(seg, 4))
}

// The flags word, and its four flags.
pub fn flags(seg: &[u32]) -> u32
    ensures { result ≡ fields.flags seg.now }
{
    word(seg, 2)
}

// The index origin, 0 or 1.
pub fn iorg(seg: &[u32]) -> u32
    ensures { result ≡ fields.iorg (fields.flags seg.now) }
{
    flags(seg) % 2
}

pub fn fcnctrc(seg: &[u32]) -> bool
    ensures { result ≡ eqb (fields.fcnctrc (fields.flags seg.now)) 1 }
{
    flags(seg) / 2 % 2 == 1
}

pub fn fcnrtrc(seg: &[u32]) -> bool
    ensures { result ≡ eqb (fields.fcnrtrc (fields.flags seg.now)) 1 }
{
    flags(seg) / 4 % 2 == 1
}

pub fn step_flag(seg: &[u32]) -> bool
    ensures { result ≡ eqb (fields.step_flag (fields.flags seg.now)) 1 }
{
    flags(seg) / 8 % 2 == 1
}

pub fn trap_word(seg: &[u32]) -> u32
    ensures { result ≡ fields.trap_word seg.now }
{
    word(seg, 3)
}

// The writers keep the other half of the word.
pub fn set_ltop(seg: &mut [u32], to: StackAddress)
    requires { to.0 < 2 ^ 16 }
    ensures { seg.new ≡ fields.set_ltop seg.old to.0 }
{
    let kept = high(word(seg, 0));
    put(seg, 0, halves(kept, to.number() as u16));
}

pub fn set_lbase(seg: &mut [u32], to: StackAddress)
    requires { to.0 < 2 ^ 16 }
    ensures { seg.new ≡ fields.set_lbase seg.old to.0 }
{
    let kept = low(word(seg, 1));
    put(seg, 1, halves(to.number() as u16, kept));
}

pub fn set_rover(seg: &mut [u32], to: SegmentAddress)
    requires { to.0 < 2 ^ 16 }
    ensures { seg.new ≡ fields.set_rover seg.old to.0 }
{
    let kept = high(word(seg, 1));
    put(seg, 1, halves(kept, to.number() as u16));
}

pub fn set_iorg(seg: &mut [u32], origin: u32)
    requires { origin < 2 }
    ensures { seg.new ≡ fields.set_iorg seg.old origin }
{
    let kept = flags(seg) / 2 * 2;
    put(seg, 2, kept + origin);
}

pub fn set_trap(seg: &mut [u32], class: u8, number: u8)
    ensures { seg.new ≡ fields.set_trap seg.old class number }
{
    put(seg, 3, class as u32 * 0x100 + number as u32);
}
