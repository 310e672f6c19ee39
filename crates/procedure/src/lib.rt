// Procedure segments: the directory, the headers, the code and the lines of functions, and the tests 11 and 12.
#![tactic(auto)]

pub mod bytes;
pub mod directory;
pub mod header;
pub mod refusal;
