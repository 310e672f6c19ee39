// Lines of a script: their tokens and commands read, and what a program answers written. Every function is total, and every
// bad token is told apart.
#![tactic(auto)]

pub mod bytes;
pub mod command;
pub mod explain;
pub mod fault;
pub mod hash;
pub mod lines;
pub mod list;
pub mod number;
pub mod pen;
pub mod streams;
pub mod tables;
pub mod tokens;
pub mod writing;
