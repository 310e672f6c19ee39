// Counts in a lent slice, as a run keeps them.
ghost use Rattle.std.specs.Prelude.{◌≡◌};
ghost use Rattle.tally.specs.Counts.{counted};

use instruction::family::family_of;

// An instruction with that first byte has finished. Where no counts are lent nothing is done.
pub fn count(counts: &mut [u32], first: u8)
    ensures { counts.new ≡ counted first counts.old }
{
    if counts.is_empty() {
        return;
    }
    let i = family_of(first).order();
    if i < counts.len() {
        counts[i] = counts[i].saturating_add(1);
    }
}
