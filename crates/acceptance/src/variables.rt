// The table of variables: a mark at the stack address of each argument and local of the frames that are looked at.
ghost use Rattle.std.specs.Prelude.{[], ℕ, ◌-◌, ◌≤◌, ◌<◌, get_or, length};
ghost use Rattle.acceptance_storage.specs.Marks.{Tally};
ghost use Rattle.acceptance.specs.Cells.{range};
ghost use Rattle.acceptance.specs.Tables.{Gains, Holds, chain_variables};

use super::frames::frame_at;
use acceptance_storage::marks::{lower, raise};
use descriptor::address::StackAddress;

// The variables of the frames from the one at `from` down are marked.
pub fn mark_variables(
    seg: &[u32],
    regular: &[u8],
    alternate: &[u8],
    from: StackAddress,
    marks: &mut [u16],
)
    requires { (from.0 < 16384) × (from.0 ≤ length marks.old) × Tally marks.old [] }
    ensures { Tally marks.new (chain_variables seg.now regular.now alternate.now from.0) }
{
    let mut base = from.number();
    'frames: for _ in 0..seg.len() {
        let frame = frame_at(seg, regular, alternate, StackAddress::of(base));
        let start = base.saturating_sub(frame.variables);
        mark(marks, start, base);
        let last = frame.last.number();
        if base <= last {
            return;
        }
        base = last;
    }
}

// One more at each address from `start` up to `end`.
fn mark(marks: &mut [u16], start: u32, end: u32)
    requires { (end ≤ length marks.old) × ((x : ℕ) → get_or marks.old x 0 < 65535) }
    ensures { Gains marks.old marks.new (range start (end - start)) }
{
    for a in start..end {
        raise(marks, a as usize);
    }
}

// One less at each of them.
pub fn unmark(marks: &mut [u16], start: StackAddress, end: StackAddress)
    requires { Holds marks.old (range start.0 (end.0 - start.0)) }
    ensures { Gains marks.new marks.old (range start.0 (end.0 - start.0)) }
{
    for a in start.number()..end.number() {
        lower(marks, a as usize);
    }
}
