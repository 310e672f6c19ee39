// Test 18: each array's count is held against the number of cells that point to it.
ghost use Rattle.std.specs.Prelude.{◌≡◌, true, false, cond, ◌+◌, ◌<◌, get_or};
ghost use Rattle.descriptor.specs.Fields.{array_word};
ghost use Rattle.segment.specs.Blocks.{free_at};
ghost use Rattle.storage.specs.Heap.{count};
ghost use Rattle.segment.specs.View.{owners};
ghost use Rattle.acceptance_storage.specs.Tests.{every};
ghost use Rattle.acceptance.specs.Counts.{count_test, counts_test};
ghost use Rattle.acceptance.specs.Tables.{TalliedAt, Tallied, arrays_from};

use acceptance_storage::marks::mark_at;
use descriptor::address::SegmentAddress;
use segment::blocks::{count, dummy, free_at, span_at};
use segment::state::blockptr;

// Test 18, where the table has at each array one mark, and one more for each cell that points to it.
pub fn counts_test(seg: &[u32], table: &[u16]) -> bool
    requires { Tallied seg.now table.now }
    ensures { result ≡ counts_test seg.now }
{
    counts_from(seg, blockptr(seg).number(), dummy(seg).number(), table)
}

// Every array from `from` up to `end`.
fn counts_from(seg: &[u32], from: u32, end: u32, table: &[u16]) -> bool
    requires { (end < 65536) × TalliedAt seg.now (arrays_from seg.now from end) table.now }
    ensures { result ≡ every (count_test seg.now (owners seg.now)) (arrays_from seg.now from end) }
{
    let mut a = from;
    'walk: for _ in 0..seg.len() {
        if end <= a {
            return true;
        }
        let block = SegmentAddress::of(a);
        if !is_counted(seg, block, table) {
            return false;
        }
        a += span_at(seg, block);
    }
    true
}

// The count of an array; a free block has none.
#[tactic(auto, unfolding(crate::specs::Counts::count_test))]
fn is_counted(seg: &[u32], block: SegmentAddress, table: &[u16]) -> bool
    requires { free_at seg.now block.0 ≡ false → get_or table.now block.0 0 ≡ 1 + count (array_word block.0) (owners seg.now) }
    ensures { result ≡ cond (free_at seg.now block.0) true (count_test seg.now (owners seg.now) block.0) }
{
    if free_at(seg, block) {
        return true;
    }
    let counted = count(seg, block);
    1 <= counted && 1 + counted as u32 == mark_at(table, block.index()) as u32
}
