// Loops over the engine's layers for a program in Rust or C to time: what bench/ links. Lengths that do not fit one another
// are found before the loops; the engine itself for other languages is crms_export.
#![tactic(auto)]

mod array_storage;
mod code_walk;
mod element_loops;
mod first_bytes;
mod judgement;
mod scalar_loops;
