// A data segment and both procedure segments, from the files that the lines of a text name.
#![tactic(auto)]

pub mod answers;
pub mod buffers;
pub mod files;
pub mod names;
pub mod sheet;
