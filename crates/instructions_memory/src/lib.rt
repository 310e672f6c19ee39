// Instructions that move values: loads and constants, assignments, and the operations on the stack alone.
#![tactic(auto)]

pub mod loads;
pub mod memory;
