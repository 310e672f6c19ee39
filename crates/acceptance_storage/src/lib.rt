// Tests 13, 14 and 15 of a data segment: its state words, its blocks and its ring.
#![tactic(auto)]

pub mod arrays;
pub mod blocks;
pub mod head;
pub mod marks;
pub mod ring;
