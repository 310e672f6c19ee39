// The sixteen operators of the GENSCALAR family, and which of them a suboperation number means: by the manual's table, or by one that
// is lent in its place.
#![tactic(auto)]

ghost use Rattle.std.specs.Prelude.{◌≡◌, ◌<◌, ◌≤◌};
ghost use Rattle.operator.specs.Table.{operator_of, operator_number};

pub mod lent;

// The operators of one operand, each with its suboperation number, from 0.
#[derive(Clone, Copy, Debug, PartialEq, Eq)]
pub enum Monadic {
    Identity,
    Negative,
    Floor,
    Ceiling,
    Magnitude,
    Not,
    TestNumber,
    Convert,
}

// The operators of two operands, likewise from 8.
#[derive(Clone, Copy, Debug, PartialEq, Eq)]
pub enum Dyadic {
    Sum = 8,
    Difference,
    Product,
    Quotient,
    LogicalProduct,
    LogicalSum,
    Less,
    Equal,
}

#[derive(Clone, Copy, Debug, PartialEq, Eq)]
pub enum Operator {
    Monadic(Monadic),
    Dyadic(Dyadic),
}

// The operator of a suboperation number, by the manual's table: eight of one operand, then eight of two. Apart, each number is its
// operator's place less a constant, and the compiler makes no table of them.
#[tactic(auto, unfolding(crate::specs::Table::operator_of))]
pub fn operator_of(number: u8) -> Option<Operator>
    ensures { result ≡ operator_of number }
{
    if number < 8 {
        return Some(Operator::Monadic(monadic_of(number)));
    }
    if number < 16 {
        return Some(Operator::Dyadic(dyadic_of(number)));
    }
    None
}

#[tactic(auto, unfolding(crate::specs::Table::operator_of))]
fn monadic_of(number: u8) -> Monadic
    requires { number < 8 }
    ensures { Some (Operator.Monadic result) ≡ operator_of number }
{
    match number {
        0 => Monadic::Identity,
        1 => Monadic::Negative,
        2 => Monadic::Floor,
        3 => Monadic::Ceiling,
        4 => Monadic::Magnitude,
        5 => Monadic::Not,
        6 => Monadic::TestNumber,
        _ => Monadic::Convert,
    }
}

#[tactic(auto, unfolding(crate::specs::Table::operator_of))]
fn dyadic_of(number: u8) -> Dyadic
    requires { (8 ≤ number) × (number < 16) }
    ensures { Some (Operator.Dyadic result) ≡ operator_of number }
{
    match number {
        8 => Dyadic::Sum,
        9 => Dyadic::Difference,
        10 => Dyadic::Product,
        11 => Dyadic::Quotient,
        12 => Dyadic::LogicalProduct,
        13 => Dyadic::LogicalSum,
        14 => Dyadic::Less,
        _ => Dyadic::Equal,
    }
}

// The suboperation number of an operator.
pub fn number_of(op: Operator) -> u8
    ensures { (result ≡ operator_number op) × (result < 16) }
{
    match op {
        Operator::Monadic(m) => m as u8,
        Operator::Dyadic(d) => d as u8,
    }
}
