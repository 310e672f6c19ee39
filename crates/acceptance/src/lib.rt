// Acceptance of a data segment: tests 10 to 18 of document 01's table, in its order.
#![tactic(auto)]

ghost use Rattle.std.specs.Prelude.{◌≡◌, true, ◌≤◌, length};
ghost use Rattle.acceptance_storage.specs.Head.{head_test};
ghost use Rattle.acceptance_storage.specs.Marks.{Clear};
ghost use Rattle.acceptance.specs.Refusal.{data_refusal, refusal};
ghost use Rattle.acceptance.specs.Before.{BeforeRing};
ghost use Rattle.acceptance.specs.Answer.{test_of, number_of_test, judgement_number};

pub mod cells;
pub mod counts;
pub mod frames;
pub mod variables;

use acceptance_storage::blocks::blocks_test;
use acceptance_storage::head::head_test;
use acceptance_storage::ring::ring_test;
use cells::cells_test;
use counts::counts_test;
use frames::frames_test;
use procedure::refusal::Refusal;

// The tests of the table, each by what it looks at. A segment is refused by the first that fails.
#[derive(Clone, Copy, PartialEq, Eq, Debug)]
pub enum Test {
    Length,
    ProcedureLength,
    Procedures,
    StateWords,
    Blocks,
    Ring,
    Frames,
    Cells,
    Counts,
}

impl Test {
    // Its number in the table.
    pub fn number(self) -> u8
        ensures { result ≡ number_of_test self }
    {
        match self {
            Test::Length => 10,
            Test::ProcedureLength => 11,
            Test::Procedures => 12,
            Test::StateWords => 13,
            Test::Blocks => 14,
            Test::Ring => 15,
            Test::Frames => 16,
            Test::Cells => 17,
            Test::Counts => 18,
        }
    }
}

impl From<Refusal> for Test {
    ghost from_gives = { λ refusal test. test ≡ test_of refusal };

    fn from(refusal: Refusal) -> Test {
        match refusal {
            Refusal::Length => Test::ProcedureLength,
            Refusal::Contents => Test::Procedures,
        }
    }
}

// The data segment with its procedure segments.
#[tactic(auto, unfolding(crate::specs::Refusal::refusal))]
pub fn judge(seg: &[u32], regular: &[u8], alternate: &[u8]) -> Result<(), Test>
    ensures { judgement_number result ≡ refusal seg.now regular.now alternate.now }
{
    if seg.len() < 32 || 16384 < seg.len() {
        return Err(Test::Length);
    }
    procedure::refusal::judge(regular, alternate)?;
    judge_data(seg, regular, alternate)
}

// Tests 13 to 18. The tables are no longer than a segment of its size may need, so that a short one pays for no long table.
#[tactic(auto, unfolding(crate::specs::Refusal::data_refusal))]
pub fn judge_data(seg: &[u32], regular: &[u8], alternate: &[u8]) -> Result<(), Test>
    requires { length seg.now ≤ 16384 }
    ensures { judgement_number result ≡ data_refusal seg.now regular.now alternate.now }
{
    if !head_test(seg) {
        return Err(Test::StateWords);
    }
    if seg.len() <= 1024 {
        return judge_within::<1024>(seg, regular, alternate);
    }
    if seg.len() <= 4096 {
        return judge_within::<4096>(seg, regular, alternate);
    }
    judge_within::<16384>(seg, regular, alternate)
}

// A segment of at most N words, with tables of N marks.
fn judge_within<const N: usize>(seg: &[u32], regular: &[u8], alternate: &[u8]) -> Result<(), Test>
    requires { (head_test seg.now ≡ true) × (length seg.now ≤ N) × (N ≤ 16384) }
    ensures { judgement_number result ≡ data_refusal seg.now regular.now alternate.now }
{
    let mut arrays = [0u16; N];
    let mut marks = [0u16; N];
    judge_storage(seg, regular, alternate, &mut arrays, &mut marks)
}

// Tests 14 to 18, with clear tables.
#[tactic(auto, using(crate::proofs::Table::improper), unfolding(crate::specs::Refusal::data_refusal))]
fn judge_storage(
    seg: &[u32],
    regular: &[u8],
    alternate: &[u8],
    arrays: &mut [u16],
    marks: &mut [u16],
) -> Result<(), Test>
    requires { (head_test seg.now ≡ true) × (length seg.now ≤ 16384) × Clear arrays.old (length seg.now) × Clear marks.old (length seg.now) }
    ensures { judgement_number result ≡ data_refusal seg.now regular.now alternate.now }
{
    let Some(frees) = blocks_test(seg, arrays, marks) else {
        return Err(Test::Blocks);
    };
    judge_marked(seg, regular, alternate, frees, arrays, marks)
}

// Tests 15 to 18, where the arrays are marked in one table and the `frees` free blocks in the other. Test 15 leaves the second
// table clear for the variables of test 17; test 17 leaves in the first what test 18 is to compare.
#[tactic(auto, unfolding(crate::specs::Refusal::data_refusal))]
fn judge_marked(
    seg: &[u32],
    regular: &[u8],
    alternate: &[u8],
    frees: usize,
    arrays: &mut [u16],
    marks: &mut [u16],
) -> Result<(), Test>
    requires { BeforeRing seg.now arrays.old marks.old frees }
    ensures { judgement_number result ≡ data_refusal seg.now regular.now alternate.now }
{
    if !ring_test(seg, frees, marks) {
        return Err(Test::Ring);
    }
    if !frames_test(seg, regular, alternate) {
        return Err(Test::Frames);
    }
    if !cells_test(seg, regular, alternate, arrays, marks) {
        return Err(Test::Cells);
    }
    if !counts_test(seg, arrays) {
        return Err(Test::Counts);
    }
    Ok(())
}
