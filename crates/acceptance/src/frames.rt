// Test 16, and what the tests read of a frame: the chain from the current frame down to the bottom one.
ghost use Rattle.std.specs.Prelude.{◌≡◌, eqb};
ghost use Rattle.segment.specs.Stack as stack;
ghost use Rattle.procedure.specs.Directory.{header_of_function};
ghost use Rattle.acceptance.specs.Frames.{frame_segment, known, frames_test, FrameAt};
ghost use Rattle.acceptance.specs.Tables.{chain_test};

use descriptor::address::StackAddress;
use procedure::directory::{header_in, in_directory};
use procedure::header::Header;
use segment::state::{lbase, ltop, sbase};
use segment::word;

// The words of a frame, last LBASE and the one with P, function number and PCTR, and how many arguments and variables its
// function has.
#[derive(Clone, Copy)]
pub struct Frame {
    pub last: StackAddress,
    pub code: u32,
    pub arguments: u16,
    pub variables: u32,
}

// Test 16.
#[tactic(auto, unfolding(crate::specs::Frames::frames_test))]
pub fn frames_test(seg: &[u32], regular: &[u8], alternate: &[u8]) -> bool
    ensures { result ≡ frames_test seg.now regular.now alternate.now }
{
    let base = lbase(seg).number();
    base + 1 <= ltop(seg).number() && frames_from(seg, regular, alternate, base)
}

// The frames from the one at `from` down.
fn frames_from(seg: &[u32], regular: &[u8], alternate: &[u8], from: u32) -> bool
    ensures { result ≡ chain_test seg.now regular.now alternate.now from }
{
    let mut base = from;
    'frames: for _ in 0..seg.len() {
        let frame = frame_at(seg, regular, alternate, StackAddress::of(base));
        if !in_its_directory(regular, alternate, frame.code) {
            return false;
        }
        let last = frame.last.number();
        if last == base {
            return frame.variables == base;
        }
        if (base as u64) < last as u64 + 2 + frame.variables as u64 {
            return false;
        }
        base = last;
    }
    false
}

// The frame at `base`.
pub fn frame_at(seg: &[u32], regular: &[u8], alternate: &[u8], base: StackAddress) -> Frame
    ensures { FrameAt seg.now regular.now alternate.now base.0 result }
{
    let at = base.index(sbase(seg));
    let code = word(seg, at + 1);
    let header = header_of(regular, alternate, code);
    Frame {
        last: StackAddress::of(word(seg, at)),
        code: code,
        arguments: header.nargs,
        variables: header.nargs as u32 + header.nlocals as u32,
    }
}

// No bit above P is set, and the directory that P selects has the function.
#[tactic(auto, unfolding(crate::specs::Frames::known))]
fn in_its_directory(regular: &[u8], alternate: &[u8], code: u32) -> bool
    ensures { result ≡ known regular.now alternate.now code }
{
    code < 0x1000_0000 && in_directory(selector(code), regular, alternate, function(code))
}

// The header of the function that the word names.
fn header_of(regular: &[u8], alternate: &[u8], code: u32) -> Header
    ensures { result ≡ header_of_function (frame_segment regular.now alternate.now code) (stack.function_number code) }
{
    header_in(selector(code), regular, alternate, function(code))
}

// P and the function number of that word.
fn selector(code: u32) -> bool
    ensures { result ≡ eqb (stack.alternate_bit code) 1 }
{
    code / 0x0800_0000 % 2 == 1
}

fn function(code: u32) -> u16
    ensures { result ≡ stack.function_number code }
{
    (code / 0x1_0000 % 0x800) as u16
}
