// Test 15: one round of NEXT from the dummy through every free block, with ROVER on it.
ghost use Rattle.std.specs.Prelude.{◌≡◌, true, [], ◌+◌, get_or, length, leb};
ghost use Rattle.storage.specs.Heap.{hit};
ghost use Rattle.acceptance_storage.specs.Blocks.{free_starts};
ghost use Rattle.acceptance_storage.specs.Ring.{linked, round_from, ring_test};
ghost use Rattle.acceptance_storage.specs.Marks.{Tally};

use super::marks::{lower, mark_at};
use descriptor::address::SegmentAddress;
use segment::blocks::{dummy, last_at, next_at};
use segment::state::rover;

// The table has the free blocks marked, `count` of them. Where the test passes, no mark is left.
pub fn ring_test(seg: &[u32], count: usize, marks: &mut [u16]) -> bool
    requires { (count ≡ length (free_starts seg.now)) × Tally marks.old (free_starts seg.now) }
    ensures value { result ≡ ring_test seg.now }
    ensures tally { ring_test seg.now ≡ true → Tally marks.new [] }
{
    let end = dummy(seg);
    on_ring(rover(seg), end, marks) && round(seg, end, count, marks)
}

fn on_ring(rover: SegmentAddress, end: SegmentAddress, marks: &[u16]) -> bool
    ensures { result ≡ leb 1 (hit rover.0 end.0 + get_or marks.now rover.0 0) }
{
    rover == end || 1 <= mark_at(marks, rover.index())
}

// NEXT leads from the dummy through every marked block, each once, and back.
fn round(seg: &[u32], end: SegmentAddress, count: usize, marks: &mut [u16]) -> bool
    requires { (count ≡ length (free_starts seg.now)) × Tally marks.old (free_starts seg.now) }
    ensures value { result ≡ round_from (length (free_starts seg.now)) seg.now end.0 end.0 (free_starts seg.now) }
    ensures tally { result ≡ true → Tally marks.new [] }
{
    let mut at = end;
    'round: for _ in 0..count {
        let next = next_at(seg, at);
        if !linked_to(seg, at, next) {
            return false;
        }
        let place = next.index();
        if mark_at(marks, place) == 0 {
            return false;
        }
        lower(marks, place);
        at = next;
    }
    linked_to(seg, at, end)
}

#[tactic(auto, unfolding(crate::specs::Ring::linked))]
fn linked_to(seg: &[u32], a: SegmentAddress, b: SegmentAddress) -> bool
    ensures { result ≡ linked seg.now a.0 b.0 }
{
    next_at(seg, a) == b && last_at(seg, b) == a
}
