// Test 13: the words before the globals.
ghost use Rattle.std.specs.Prelude.{◌≡◌};
ghost use Rattle.acceptance_storage.specs.Head.{head_test};

use segment::state::{blockptr, flags, ltop, sbase, trap_word};
use segment::word;

#[tactic(auto, unfolding(crate::specs::Head::head_test))]
pub fn head_test(seg: &[u32]) -> bool
    ensures { result ≡ head_test seg.now }
{
    let from = blockptr(seg).index();
    let base = sbase(seg);
    flags(seg) < 0x10
        && trap_word(seg) < 0x1_0000
        && 8 <= from
        && word(seg, 5) == 0
        && word(seg, 6) == 0
        && word(seg, 7) == 0
        && from + 3 <= base.index()
        && ltop(seg).index(base) < seg.len()
}
