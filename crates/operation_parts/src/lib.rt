// What the operations are put together from: their tests, and the writing of a fresh segment.
#![tactic(auto)]

pub mod fresh;
pub mod tests;
