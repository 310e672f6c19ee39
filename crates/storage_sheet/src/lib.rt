// The sheet of array storage: where its words went.
#![tactic(auto)]

ghost use Rattle.std.specs.Prelude.{◌≡◌, ◌≤◌, length};
ghost use Rattle.storage_sheet.specs.Sheet.{sheet_of};

use descriptor::address::SegmentAddress;
use segment::blocks::{dummy, free_at, size_at, slop_at, span_at};
use segment::state::{blockptr, sbase};

// Words of arrays, of slop, of free blocks and of the dummy, and of array storage in all.
#[derive(Clone, Copy)]
pub struct Sheet {
    pub arrays: u32,
    pub slop: u32,
    pub free: u32,
    pub end: u32,
    pub total: u32,
}

// One walk over the blocks, from BLOCKPTR to the dummy. A segment has no more blocks than words.
pub fn add_up(seg: &[u32]) -> Sheet
    requires { length seg.now ≤ 16384 }
    ensures { result ≡ sheet_of seg.now }
{
    let from = blockptr(seg).number();
    let stop = dummy(seg).number();
    let mut arrays = 0;
    let mut slop = 0;
    let mut free = 0;
    let mut a = from;
    'walk: for _ in 0..seg.len() {
        if stop <= a {
            break;
        }
        let block = SegmentAddress::of(a);
        let size = size_at(seg, block) as u32;
        let span = span_at(seg, block);
        if free_at(seg, block) {
            free += size;
        } else {
            arrays += size;
            slop += slop_at(seg, block);
        }
        a += span;
    }
    Sheet {
        arrays,
        slop,
        free,
        end: 3,
        total: sbase(seg).number().saturating_sub(from),
    }
}
