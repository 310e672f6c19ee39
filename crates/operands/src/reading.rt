// The operands of an instruction: the temporaries of the current frame, counted from the top.
ghost use Rattle.std.specs.Prelude.{◌≡◌, true, cond, ◌+◌, ◌-◌, ◌≤◌, length};
ghost use Rattle.segment.specs.State as fields;
ghost use Rattle.segment.specs.Blocks as layout;
ghost use Rattle.effects.specs.Sources.{operand_at};
ghost use Rattle.effects.specs.Seen.{temporaries, whole};
ghost use Rattle.operands.specs.Operands.{operand_of, Stands, standing, is_undefined_word};

use descriptor::address::SegmentAddress;
use descriptor::{Descriptor, Kind};
use elements::shapes::product;
use segment::blocks::{Part, elements, rank, shape, size_at};
use segment::state::{lbase, ltop, sbase, top_cell};
use segment::word;

#[derive(Clone, Copy)]
pub enum Value {
    Scalar(u32),
    Array(SegmentAddress),
}

pub fn count(seg: &[u32]) -> u32
    ensures { result ≡ temporaries seg.now }
{
    ltop(seg).number().saturating_sub(lbase(seg).number() + 1)
}

// How many words the stack can still take.
pub fn room(seg: &[u32]) -> usize
    ensures { result ≡ length seg.now - (fields.sbase seg.now + fields.ltop seg.now + 1) }
{
    let used = ltop(seg).index(sbase(seg)) + 1;
    if used <= seg.len() {
        seg.len() - used
    } else {
        0
    }
}

// The word of the i-th operand from the top, from 0.
pub fn operand_at(seg: &[u32], i: u32) -> u32
    ensures { result ≡ operand_at seg.now i }
{
    let top = ltop(seg).index(sbase(seg));
    if i as usize <= top {
        return word(seg, top - i as usize);
    }
    word(seg, 0)
}

// What an operand is: a value, or of no kind that an instruction takes.
pub fn value_of(seg: &[u32], w: u32) -> Option<Value>
    ensures { result ≡ operand_of seg.now w }
{
    match Descriptor::of(w).kind() {
        Kind::Scalar(_) => Some(Value::Scalar(w)),
        Kind::Array(block) => array_at(seg, block),
        _ => None,
    }
}

fn array_at(seg: &[u32], block: SegmentAddress) -> Option<Value>
    ensures { result ≡ cond (whole seg.now block.0) (Some (Value.Array block)) None }
{
    is_whole(seg, block).then_some(Value::Array(block))
}

// The block's SIZE is that of its rank and lengths, and it lies in the segment: its parts can be read.
fn is_whole(seg: &[u32], block: SegmentAddress) -> bool
    ensures { result ≡ whole seg.now block.0 }
{
    let rank = rank(seg, block);
    if rank < 1 {
        return false;
    }
    let size = size_at(seg, block) as usize;
    if seg.len() < block.index() + size {
        return false;
    }
    if size < 2 + rank {
        return false;
    }
    size - 2 - rank == product(shape(seg, block)) as usize
}

// The lengths and the elements of an array, as parts of the lent segment.
pub fn lengths_of(seg: &[u32], block: SegmentAddress) -> &[u32]
    requires { whole seg.now block.0 ≡ true }
    ensures { result.now ≡ layout.shape_at seg.now block.0 }
{
    shape(seg, block)
}

pub fn elements_of(seg: &[u32], block: SegmentAddress) -> &[u32]
    requires { whole seg.now block.0 ≡ true }
    ensures { result.now ≡ layout.elements_at seg.now block.0 }
{
    elements(seg, block)
}

// Where the elements of the i-th operand stand in the segment: a scalar is its own cell, an array's lie in its block.
pub fn elements_part(seg: &[u32], i: u32, v: Value) -> Part
    requires { Stands seg.now i v × (length seg.now ≤ 16384) }
    ensures { result ≡ standing seg.now i v }
{
    match v {
        Value::Scalar(_) => Part {
            start: SegmentAddress::of(top_cell(seg).number().saturating_sub(i)),
            count: 1,
        },
        Value::Array(block) => {
            let rank = rank(seg, block);
            Part {
                start: SegmentAddress::of(block.number() + 2 + rank as u32),
                count: elements_of(seg, block).len(),
            }
        }
    }
}

pub fn is_undefined(w: u32) -> bool
    ensures { result ≡ is_undefined_word w }
{
    matches!(Descriptor::of(w).kind(), Kind::Undefined)
}
