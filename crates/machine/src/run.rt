// Runs: steps up to a budget, or a trap.
ghost use Rattle.std.specs.Prelude.{◌≡◌, ◌≤◌, ◌<◌, length};
ghost use Rattle.segment.specs.State as state;
ghost use Rattle.segment.specs.Stack as frames;
ghost use Rattle.manual.specs.Program.{program};
ghost use Rattle.effects.specs.Run.{run_result, steps_from};
ghost use Rattle.effects.specs.Tally.{tallied_from};
ghost use Rattle.effects.specs.declared.Ran.TheVariants as R;
ghost use Rattle.machine.specs.Lent.{program_of};
ghost use Rattle.machine.specs.Held.{running_of};
ghost use Rattle.machine.specs.Resuming.{Resumes, Current, ending, whole};

use super::counting::count_step;
use super::program::Program;
use super::running::Running;
use super::step::step_in;
use effects::{Ran, Stepped};
use procedure::directory::find;
use segment::state::{lbase, sbase, set_trap};
use segment::{stack, word};
use trap::Trap;

// At most `budget` instructions, under a table of operators. What finishes is counted where counts are lent.
pub fn run(
    seg: &mut [u32],
    regular: &[u8],
    alternate: &[u8],
    table: &[u8; 16],
    budget: u32,
    counts: &mut [u32],
) -> Ran
    requires { length seg.old ≤ 16384 }
    ensures seg_after { run_result result seg.new ≡ steps_from budget 0 (program regular.now alternate.now table.now) seg.old }
    ensures counts_after { counts.new
        ≡ tallied_from budget counts.old (program regular.now alternate.now table.now) seg.old }
{
    let program = Program {
        regular,
        alternate,
        table,
    };
    let mut scratch = [0u32; 16384];
    steps_up_to(seg, &program, budget, counts, &mut scratch)
}

fn steps_up_to(
    seg: &mut [u32],
    program: &Program,
    budget: u32,
    counts: &mut [u32],
    scratch: &mut [u32],
) -> Ran
    requires { (length seg.old ≤ 16384) × (length scratch.old ≡ 16384) }
    ensures { ending result counts.new seg.new ≡ whole budget 0 (program_of program.now) counts.old seg.old }
{
    let mut done = 0;
    while done < budget {
        match run_current(seg, program, done, budget, counts, scratch) {
            Ran::Trapped(n) => {
                return Ran::Trapped(n);
            }
            Ran::Done(n) => {
                done = n;
            }
        }
    }
    Ran::Done(done)
}

// The steps in the function of the current frame, up to the next call or return.
fn run_current(
    seg: &mut [u32],
    program: &Program,
    start: u32,
    budget: u32,
    counts: &mut [u32],
    scratch: &mut [u32],
) -> Ran
    requires { (length seg.old ≤ 16384) × (length scratch.old ≡ 16384) × (start < budget) }
    ensures { Resumes (program_of program.now) start budget counts.old seg.old result counts.new seg.new }
{
    let base = lbase(seg);
    let number = stack::function_number(seg, base);
    let selector = stack::alternate(seg, base);
    let segment = program.segment(selector);
    let Some(block) = find(segment, number as u16) else {
        return trap_absent(seg, start);
    };
    let f = Running {
        program,
        selector,
        number,
        block,
        code: block.code(segment),
    };
    steps_in(seg, &f, start, budget, counts, scratch)
}

fn trap_absent(seg: &mut [u32], steps: u32) -> Ran
    ensures { (result ≡ R.Trapped steps) × (seg.new ≡ state.set_trap seg.old 3 1) }
{
    let absent = Trap::PROCEDURE_ADDRESS;
    set_trap(seg, absent.class, absent.number);
    Ran::Trapped(steps)
}

// The steps in one function, whose code is at hand: an instruction may change which function it is.
fn steps_in(
    seg: &mut [u32],
    f: &Running,
    start: u32,
    budget: u32,
    counts: &mut [u32],
    scratch: &mut [u32],
) -> Ran
    requires seg_len_bound { (length seg.old ≤ 16384) × (length scratch.old ≡ 16384) × (start < budget) }
    requires current { Current (running_of f.now) f.now.number seg.old }
    ensures { Resumes (program_of f.now.program.now) start budget counts.old seg.old result counts.new seg.new }
{
    let function = f.number + 0x800 * f.selector as u32;
    let mut steps = start;
    while steps < budget {
        if here(seg) / 0x1_0000 % 0x1000 != function {
            return Ran::Done(steps);
        }
        let at = stack::pctr(seg, lbase(seg));
        let Ok(stepped) = step_in(seg, f, at, scratch) else {
            return Ran::Trapped(steps);
        };
        count_step(counts, f.code, at);
        steps += 1;
        if let Stepped::Traced(_) = stepped {
            return Ran::Trapped(steps);
        }
    }
    Ran::Done(steps)
}

// The second word of the current frame: P and the function's number. PCTR is read apart, by itself, since a read of the whole
// word would wait for the last instruction's write of that half.
fn here(seg: &[u32]) -> u32
    ensures { result ≡ frames.code_word_at seg.now (state.lbase seg.now) }
{
    word(seg, lbase(seg).index(sbase(seg)) + 1)
}
