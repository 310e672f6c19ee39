// The effects of which instructions are made, done on a lent data segment. One that asks for storage is done, or is the trap (1,2)
// and no word has changed.
#![tactic(auto)]

pub mod frames;
pub mod storing;
pub mod taking;
