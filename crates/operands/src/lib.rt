// The operands and variables of instructions, on a lent data segment.
#![tactic(auto)]

pub mod reading;
pub mod taken;
pub mod variables;
