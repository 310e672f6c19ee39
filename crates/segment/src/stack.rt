// The cells: the globals, and the stack with its frames. Stack addresses count from SBASE.
ghost use Rattle.std.specs.Prelude.{◌≡◌, ◌+◌, ◌<◌, ◌^◌, get_or, set, eqb};
ghost use Rattle.segment.specs.State as fields;
ghost use Rattle.segment.specs.Stack as frames;

use super::state::{lbase, sbase};
use super::{halves, high, low, put, word};
use descriptor::address::{CodeAddress, SegmentAddress, StackAddress};

pub fn global(seg: &[u32], at: SegmentAddress) -> u32
    ensures { result ≡ get_or seg.now at.0 0 }
{
    word(seg, at.index())
}

// The word of the stack at an address: a cell's, or a frame's.
pub fn cell(seg: &[u32], at: StackAddress) -> u32
    ensures { result ≡ frames.stack_at seg.now at.0 }
{
    word(seg, at.index(sbase(seg)))
}

pub fn set_cell(seg: &mut [u32], at: StackAddress, w: u32)
    ensures { seg.new ≡ set seg.old (fields.sbase seg.old + at.0) w }
{
    let i = at.index(sbase(seg));
    put(seg, i, w);
}

// The two words of the frame at `base`.
pub fn last_lbase(seg: &[u32], base: StackAddress) -> StackAddress
    ensures { result.0 ≡ frames.last_lbase_at seg.now base.0 }
{
    StackAddress::of(cell(seg, base))
}

fn code_word(seg: &[u32], base: StackAddress) -> u32
    ensures { result ≡ frames.code_word_at seg.now base.0 }
{
    word(seg, base.index(sbase(seg)) + 1)
}

// P: the function is of the alternate procedure segment.
pub fn alternate(seg: &[u32], base: StackAddress) -> bool
    ensures { result ≡ eqb (frames.alternate_bit (frames.code_word_at seg.now base.0)) 1 }
{
    code_word(seg, base) / 0x0800_0000 % 2 == 1
}

pub fn function_number(seg: &[u32], base: StackAddress) -> u32
    ensures { result ≡ frames.function_number (frames.code_word_at seg.now base.0) }
{
    code_word(seg, base) / 0x1_0000 % 0x800
}

pub fn pctr(seg: &[u32], base: StackAddress) -> CodeAddress
    ensures { result.0 ≡ frames.pctr (frames.code_word_at seg.now base.0) }
{
    CodeAddress::of(low(code_word(seg, base)) as u32)
}

// PCTR of the current frame.
pub fn set_pctr(seg: &mut [u32], to: CodeAddress)
    requires { to.0 < 2 ^ 16 }
    ensures { seg.new ≡ frames.set_pctr seg.old to.0 }
{
    let i = lbase(seg).index(sbase(seg)) + 1;
    let kept = high(word(seg, i));
    put(seg, i, halves(kept, to.number() as u16));
}
