// Runs on a lent data segment.
#![tactic(auto)]

mod counting;
mod dispatch;
mod program;
pub mod run;
mod running;
mod step;
