// Run: at most a given number of instructions, under the manual's table of operators or one that is lent.
ghost use Rattle.std.specs.Prelude.{◌≡◌};
ghost use Rattle.manual.specs.Program.{program, under_manual};
ghost use Rattle.operations.specs.Answers.{numbered};
ghost use Rattle.operations.specs.Run.{ended, ran};
ghost use Rattle.operations.specs.Replay.{tallied};
ghost use Rattle.audit.specs.Calls as call;
ghost use Rattle.audit.specs.Did.{Promised};

use effects::Ran;
use operation_parts::tests::accept_run;
use operations::Refusal;
use operator::lent::{manual_table, sixteen};
use segment::put;

pub fn run(seg: &mut [u32], regular: &[u8], alternate: &[u8], budget: u32) -> Result<Ran, Refusal>
    ensures seg_after { ended (numbered result) seg.new ≡ ran seg.old (under_manual regular.now alternate.now) budget }
    ensures promised { Promised seg.old (call.run (under_manual regular.now alternate.now) budget)
        (call.run_answer (numbered result)) seg.new }
{
    let table = manual_table();
    run_with(seg, regular, alternate, &table, budget)
}

// One operator for each suboperation of GENSCALAR in order, by its place in the manual's table from 0.
pub fn run_with(
    seg: &mut [u32],
    regular: &[u8],
    alternate: &[u8],
    table: &[u8],
    budget: u32,
) -> Result<Ran, Refusal>
    ensures seg_after { ended (numbered result) seg.new ≡ ran seg.old (program regular.now alternate.now table.now) budget }
    ensures promised { Promised seg.old (call.run (program regular.now alternate.now table.now) budget)
        (call.run_answer (numbered result)) seg.new }
{
    let mut none = [0u32; 0];
    run_tallied(seg, regular, alternate, table, budget, &mut none)
}

// The same with counts: those that are lent go up by what has finished.
pub fn run_tallied(
    seg: &mut [u32],
    regular: &[u8],
    alternate: &[u8],
    table: &[u8],
    budget: u32,
    counts: &mut [u32],
) -> Result<Ran, Refusal>
    ensures seg_after { ended (numbered result) seg.new ≡ ran seg.old (program regular.now alternate.now table.now) budget }
    ensures promised { Promised seg.old (call.run (program regular.now alternate.now table.now) budget)
        (call.run_answer (numbered result)) seg.new }
    ensures counts_after { counts.new
        ≡ tallied seg.old (program regular.now alternate.now table.now) budget counts.old }
{
    accept_run(seg, regular, alternate, table)?;
    put(seg, 3, 0);
    let operators = sixteen(table);
    match machine::run::run(seg, regular, alternate, &operators, budget, counts) {
        Ran::Done(steps) => Ok(Ran::Done(steps)),
        Ran::Trapped(steps) => Ok(Ran::Trapped(steps)),
    }
}
