// GO, GO_TRUE, GO_FALSE, BRANCH, RETURN and CALL: each sets PCTR, and changes no word where it traps.
#![tactic(auto)]

pub mod calls;
pub mod jumps;
