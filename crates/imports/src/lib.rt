// Files of sales imports: numbers in groups of seven bits, and the records that they make up.
#![tactic(auto)]

pub mod number;
pub mod parse;
pub mod write;
