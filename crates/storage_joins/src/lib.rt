// An array whose elements are those of two parts of the segment, one after the other. They are copied once, from where they
// stand into the new block; only where the request would write one of their words are they gathered in a scratch first.
#![tactic(auto)]

ghost use Rattle.std.specs.Prelude.{◌≡◌, true, ◌++◌, ◌+◌, ◌≤◌, ◌<◌, ◌^◌, length};
ghost use Rattle.std.proofs.lemmas.List.Edits.{sets};
ghost use Rattle.segment.specs.Blocks.{size_at};
ghost use Rattle.segment.specs.Parts.{part_of};
ghost use Rattle.storage.specs.Request as requests;
ghost use Rattle.storage.specs.Arrays as arrays;
ghost use Rattle.storage.specs.Found.{found};
ghost use Rattle.storage_joins.specs.Joined as joined;

use descriptor::address::SegmentAddress;
use segment::blocks::{Part, last_at, next_at, size_at};
use segment::{copy_part, word};
use storage::request::{find, give};
use storage::{head, place};

// A new array with this shape and the elements of both parts, pointed to by one cell; none where no free block is long
// enough. The scratch has room for the elements.
pub fn place_joined(
    seg: &mut [u32],
    shape: &[u32],
    first: Part,
    second: Part,
    scratch: &mut [u32],
) -> Option<SegmentAddress>
    requires { first.count + second.count ≤ length scratch.old }
    ensures value { result ≡ found (arrays.place_at seg.old shape.now (part_of seg.old first ++ part_of seg.old second)) }
    ensures seg_after { seg.new ≡ arrays.place seg.old shape.now (part_of seg.old first ++ part_of seg.old second) }
{
    let f = find(seg, 2 + shape.len() + (first.count + second.count))?;
    if is_straight(seg, f, first, second) {
        return Some(join(seg, f, shape, first, second));
    }
    place_gathered(seg, shape, first, second, scratch)
}

// The free block at f serves the request and becomes the array: where it starts.
fn join(
    seg: &mut [u32],
    f: SegmentAddress,
    shape: &[u32],
    first: Part,
    second: Part,
) -> SegmentAddress
    requires { (f.0 < 2 ^ 16) × (2 + length shape.now + (first.count + second.count) ≤ size_at seg.old f.0) × (joined.straight seg.old f.0 first second ≡ true) }
    ensures result_value { result.0 ≡ requests.given seg.old f.0 (2 + length shape.now + (first.count + second.count)) }
    ensures seg_after { seg.new ≡ arrays.fill (requests.give seg.old f.0 (2 + length shape.now + (first.count + second.count))) result.0 shape.now (part_of seg.old first ++ part_of seg.old second) }
{
    let m = first.count;
    let n = second.count;
    let block = give(seg, f, (2 + shape.len() + (m + n)) as u16);
    head(seg, block, shape);
    let at = block.index() + 2 + shape.len();
    copy_part(seg, first.start.index(), at, m);
    copy_part(seg, second.start.index(), at + m, n);
    block
}

// The same by way of the scratch.
fn place_gathered(
    seg: &mut [u32],
    shape: &[u32],
    first: Part,
    second: Part,
    scratch: &mut [u32],
) -> Option<SegmentAddress>
    requires { first.count + second.count ≤ length scratch.old }
    ensures value { result ≡ found (arrays.place_at seg.old shape.now (part_of seg.old first ++ part_of seg.old second)) }
    ensures seg_after { seg.new ≡ arrays.place seg.old shape.now (part_of seg.old first ++ part_of seg.old second) }
{
    let m = first.count;
    let total = m + second.count;
    gather(seg, first, scratch, 0);
    gather(seg, second, scratch, m);
    place(seg, shape, &scratch[..total])
}

// The part's words are put into `out`, from `at` up. A word past the segment's end is 0.
fn gather(seg: &[u32], part: Part, out: &mut [u32], at: usize)
    requires { at + part.count ≤ length out.old }
    ensures { out.new ≡ sets out.old at (part_of seg.now part) }
{
    let start = part.start.index();
    for i in 0..part.count {
        out[at + i] = word(seg, start + i);
    }
}

// Whether both parts can be copied straight into a block out of the free one at f.
#[tactic(auto, unfolding(crate::specs::Joined::straight))]
fn is_straight(seg: &[u32], f: SegmentAddress, first: Part, second: Part) -> bool
    requires { (first.count < 2 ^ 62) × (second.count < 2 ^ 62) }
    ensures { result ≡ joined.straight seg.now f.0 first second }
{
    f.index() + size_at(seg, f) as usize <= seg.len()
        && is_kept(seg, f, first)
        && is_kept(seg, f, second)
}

// Whether a request that the free block at f serves leaves the part's words as they are.
#[tactic(auto, unfolding(crate::specs::Joined::kept))]
fn is_kept(seg: &[u32], f: SegmentAddress, part: Part) -> bool
    requires { part.count < 2 ^ 62 }
    ensures { result ≡ joined.kept seg.now f.0 part }
{
    let next = next_at(seg, f).index() + 1;
    let last = last_at(seg, f).index() + 1;
    part.start.index() + part.count <= seg.len()
        && !touches(part, 0, 1)
        && !touches(part, f.index(), f.index() + size_at(seg, f) as usize)
        && !touches(part, next, next)
        && !touches(part, last, last)
}

// Whether the part neither ends before `low` nor starts behind `high`: a word of it may stand among them.
#[tactic(auto, unfolding(crate::specs::Joined::touches))]
fn touches(part: Part, low: usize, high: usize) -> bool
    requires { part.count < 2 ^ 62 }
    ensures { result ≡ joined.touches part low high }
{
    let start = part.start.index();
    low < start + part.count && start <= high
}
