// Array storage in a lent data segment: requests for blocks, their release, and the arrays in them.
#![tactic(auto)]

mod arrays;
pub mod release;
pub mod request;
mod ring;

pub use arrays::{drop_cells, drop_from, drop_word, head, place, share};
