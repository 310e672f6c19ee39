// The function that is run.
ghost use Rattle.std.specs.Prelude.{◌≡◌};
ghost use Rattle.manual.specs.Instructions as plan;
ghost use Rattle.machine.specs.Lent.{program_of};

use super::program::Program;
use procedure::header::Block;

// It has that number in the segment that P names, where its block stands.
#[derive(Clone, Copy)]
pub struct Running<'a> {
    pub program: &'a Program<'a>,
    pub selector: bool,
    pub number: u32,
    pub block: Block,
    pub code: &'a [u8],
    ghost lent: { code.now ≡ plan.code_in (plan.running (program_of program.now) selector block) },
}

impl<'a> Running<'a> {
    ghost use Rattle.machine.specs.Held.{running_of};

    // The segment where it stands.
    pub fn segment(&self) -> &'a [u8]
        ensures { result.now ≡ plan.segment_of (running_of self.now) }
    {
        self.program.segment(self.selector)
    }
}
