// The operations on a lent data segment and both procedure segments. A refused call changes nothing. Each carries two
// contracts: the answer and every word are those of a definition, and they are related as the demands say (`Did`).
#![tactic(auto)]

pub mod lay_out;
pub mod load;
pub mod look;
pub mod run;
pub mod sheet;
