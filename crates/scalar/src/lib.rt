// Exact arithmetic on scalar words: the sixteen operators of the GENSCALAR family.
#![tactic(auto)]

ghost use Rattle.std.specs.Prelude.{◌≡◌};
ghost use Rattle.scalar.specs.Operators as S;

mod characters;
mod comparisons;
mod logic;
pub mod order;
mod products;
pub mod reading;
mod results;
mod signs;
mod sums;
mod wholes;
mod words;

pub use characters::{convert, test_number};
pub use comparisons::{equal, less};
pub use logic::{logical_product, logical_sum, not};
use operator::{Dyadic, Monadic};
pub use products::{product, quotient};
pub use signs::{identity, magnitude, negative};
pub use sums::{difference, sum};
use trap::Trap;
pub use wholes::{ceiling, floor};

// A scalar read as a whole number; a magnitude from 2^23 on is given as 2^23.
#[derive(Clone, Copy, Debug, PartialEq, Eq)]
pub enum Whole {
    Number { negative: bool, magnitude: u32 },
    Fraction,
    Character,
}

// A scalar read as zero or one.
#[derive(Clone, Copy, Debug, PartialEq, Eq)]
pub enum Truth {
    Value(bool),
    Other,
    Character,
}

// What an operator of one operand gives. A word that is no scalar is a character by its type 1, and else an integer.
pub fn monadic(operator: Monadic, a: u32) -> Result<u32, Trap>
    ensures { result ≡ S.monadic_of operator a }
{
    match operator {
        Monadic::Identity => identity(a),
        Monadic::Negative => negative(a),
        Monadic::Floor => floor(a),
        Monadic::Ceiling => ceiling(a),
        Monadic::Magnitude => magnitude(a),
        Monadic::Not => not(a),
        Monadic::TestNumber => test_number(a),
        Monadic::Convert => convert(a),
    }
}

// What an operator of two operands gives; `a` is the first, the top of the stack.
pub fn dyadic(operator: Dyadic, a: u32, b: u32) -> Result<u32, Trap>
    ensures { result ≡ S.dyadic_of operator a b }
{
    match operator {
        Dyadic::Sum => sum(a, b),
        Dyadic::Difference => difference(a, b),
        Dyadic::Product => product(a, b),
        Dyadic::Quotient => quotient(a, b),
        Dyadic::LogicalProduct => logical_product(a, b),
        Dyadic::LogicalSum => logical_sum(a, b),
        Dyadic::Less => less(a, b),
        Dyadic::Equal => equal(a, b),
    }
}
