// What an instruction, a step and a run answer. The effects of instructions on the words of a data segment are definitions, in specs/.
#![tactic(auto)]

use trap::Trap;

// What an instruction did. It answers a `Result`: after a trap no word has changed.
#[derive(Clone, Copy)]
pub enum Outcome {
    Finished,
    Entered,
    Left,
}

// What a step did. After `Traced` the instruction has finished. A step answers a `Result`: after a trap nothing but the trap word
// has changed.
#[derive(Clone, Copy)]
pub enum Stepped {
    Finished,
    Traced(Trap),
}

// How a run ended, with the number of instructions that finished.
#[derive(Clone, Copy)]
pub enum Ran {
    Done(u32),
    Trapped(u32),
}
