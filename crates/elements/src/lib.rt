// Loops over the element words of arrays: parts of lent slices, with proved indices.
#![tactic(auto)]

mod comparisons;
pub mod copies;
pub mod dyadic;
mod extension;
mod integers;
pub mod joins;
pub mod kinds;
pub mod monadic;
pub mod shapes;
pub mod subscripts;
mod words;

// One of two operands.
#[derive(Clone, Copy, Debug, PartialEq, Eq)]
pub enum Side {
    First,
    Second,
}

// The lengths of a join: a vector's, or the rows and the width of a matrix.
#[derive(Clone, Copy, Debug, PartialEq, Eq)]
pub enum Joined {
    Vector(u32),
    Matrix(u32, u32),
}
