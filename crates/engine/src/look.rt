// Look: what a global holds. An array's lengths and elements are handed back as parts of the lent segment.
ghost use Rattle.std.specs.Prelude.{◌≡◌};
ghost use Rattle.segment.specs.Parts as parts;
ghost use Rattle.operations.specs.Answers.{numbered};
ghost use Rattle.operations.specs.Look.{seen_as, looked};
ghost use Rattle.descriptor.specs.Kinds.{kind_of};
ghost use Rattle.audit.specs.Calls as call;
ghost use Rattle.audit.specs.Did.{Promised};

use acceptance::Test;
use descriptor::address::SegmentAddress;
use descriptor::{Descriptor, Kind};
use operation_parts::tests::{accept, is_global};
use operations::{Looked, Refusal};
use segment::{blocks, word};

pub fn look(seg: &[u32], regular: &[u8], alternate: &[u8], global: u32) -> Result<Looked, Refusal>
    ensures value { numbered result ≡ looked seg.now regular.now alternate.now global }
    ensures promised { Promised seg.now (call.look (call.procedures regular.now alternate.now) global)
        (call.look_answer (numbered result)) seg.now }
{
    accept(seg, regular, alternate)?;
    if !is_global(seg, global) {
        return Err(Refusal::Global);
    }
    seen_as(word(seg, global as usize))
}

fn seen_as(w: u32) -> Result<Looked, Refusal>
    ensures { numbered result ≡ seen_as w (kind_of w) }
{
    match Descriptor::of(w).kind() {
        Kind::Scalar(_) => Ok(Looked::Scalar(w)),
        Kind::Array(block) => Ok(Looked::Array(block)),
        Kind::Undefined => Err(Refusal::Undefined),
        Kind::Indirect(_) => Err(Refusal::Test(Test::Cells)),
        Kind::Invalid => Err(Refusal::Test(Test::Cells)),
    }
}

// The lengths, and the elements, of the array that a look has seen.
pub fn lengths(seg: &[u32], block: SegmentAddress) -> &[u32]
    ensures { result.now ≡ parts.shape_part seg.now block.0 }
{
    blocks::shape(seg, block)
}

pub fn elements(seg: &[u32], block: SegmentAddress) -> &[u32]
    ensures { result.now ≡ parts.elements_part seg.now block.0 }
{
    blocks::elements(seg, block)
}
