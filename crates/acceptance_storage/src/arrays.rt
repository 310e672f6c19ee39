// Test 14 inside an array's block: rank, lengths, SIZE by the exact number of elements, elements.
ghost use Rattle.std.specs.Prelude.{◌≡◌, ◌+◌, ◌≤◌, ◌<◌, length};
ghost use Rattle.descriptor.specs.Kinds.{is_scalar};
ghost use Rattle.segment.specs.Blocks.{size_at};
ghost use Rattle.acceptance_storage.specs.Tests.{every};
ghost use Rattle.acceptance_storage.specs.Answer.{inside_test, element_count};

use descriptor::Descriptor;
use descriptor::address::SegmentAddress;

// More elements than any SIZE allows.
const TOO_MANY: u64 = 0x1_0000;

// The inside of a block; a free one has none to be tested.
pub fn inside_test(seg: &[u32], block: SegmentAddress) -> bool
    requires { (block.0 + 1 < length seg.now) × (block.0 + size_at seg.now block.0 ≤ length seg.now) }
    ensures { result ≡ inside_test seg.now block.0 }
{
    inside_at(seg, block.index())
}

fn inside_at(seg: &[u32], a: usize) -> bool
    requires { (a + 1 < length seg.now) × (a + size_at seg.now a ≤ length seg.now) }
    ensures { result ≡ inside_test seg.now a }
{
    let first = seg[a];
    if 0x8000_0000 <= first {
        return true;
    }
    let second = seg[a + 1];
    let size = (first % 0x1_0000) as usize;
    let rank = (second % 0x1_0000) as usize;
    if rank == 0 || 15 < rank || size < 2 + rank {
        return false;
    }
    let lengths = a + 2;
    let elements = lengths + rank;
    if element_count(&seg[lengths..elements]) as usize != size - (2 + rank) {
        return false;
    }
    scalars_test(&seg[elements..a + size])
}

// The product of the lengths, which is exact below TOO_MANY; TOO_MANY where a word is no length.
fn element_count(shape: &[u32]) -> u64
    ensures { result ≡ element_count shape.now }
{
    let mut count = 1;
    for &length in shape {
        if Descriptor::INTEGER_LIMIT < length {
            return TOO_MANY;
        }
        count = (count * length as u64).min(TOO_MANY);
    }
    count
}

fn scalars_test(elements: &[u32]) -> bool
    ensures { result ≡ every is_scalar elements.now }
{
    elements.iter().all(|w| Descriptor::of(*w).is_scalar())
}
