// Words, numbers and names on standard output.
use instruction::{
    Address, ArrayOperation, ControlOperation, Jump, MemoryOperation, StackOperation,
};
use line_tool::streams::STDOUT;
use operator::{Dyadic, Monadic, Operator};

pub fn say(words: &[u8]) {
    io::write_all(STDOUT, words);
}

pub fn number(n: u64) {
    io::print_decimal(STDOUT, n);
}

pub fn hex(n: u64, width: usize) {
    io::print_hex(STDOUT, n, width);
}

// A number of at most five digits, set to the right.
pub fn number_right(n: u64) {
    for least in [10000, 1000, 100, 10] {
        if n < least {
            say(b" ");
        }
    }
    number(n);
}

pub fn flag(name: &[u8], set: bool) {
    if set {
        say(b" ");
        say(name);
    }
}

pub fn field(name: &[u8], value: u16) {
    say(b" ");
    say(name);
    say(b" ");
    number(value as u64);
}

// A local as so many words below LBASE, a global by its segment address.
pub fn variable(a: Address) {
    match a {
        Address::Local(below) => {
            say(b" local -");
            number(below as u64);
        }
        Address::Global(at) => {
            say(b" global ");
            number(at.number() as u64);
        }
    }
}

pub fn operator_name(o: Operator) -> &'static [u8] {
    match o {
        Operator::Monadic(m) => monadic_name(m),
        Operator::Dyadic(d) => dyadic_name(d),
    }
}

fn monadic_name(o: Monadic) -> &'static [u8] {
    match o {
        Monadic::Identity => b"IDENTITY",
        Monadic::Negative => b"NEGATIVE",
        Monadic::Floor => b"FLOOR",
        Monadic::Ceiling => b"CEILING",
        Monadic::Magnitude => b"MAGNITUDE",
        Monadic::Not => b"NOT",
        Monadic::TestNumber => b"TEST_NUMBER",
        Monadic::Convert => b"CONVERT",
    }
}

fn dyadic_name(o: Dyadic) -> &'static [u8] {
    match o {
        Dyadic::Sum => b"SUM",
        Dyadic::Difference => b"DIFFERENCE",
        Dyadic::Product => b"PRODUCT",
        Dyadic::Quotient => b"QUOTIENT",
        Dyadic::LogicalProduct => b"LOGICAL_PRODUCT",
        Dyadic::LogicalSum => b"LOGICAL_SUM",
        Dyadic::Less => b"LESS",
        Dyadic::Equal => b"EQUAL",
    }
}

pub fn memory(o: MemoryOperation) {
    match o {
        MemoryOperation::AssignIndexed(rank) => {
            say(b"ASSIGN_INDEXED rank ");
            number(rank as u64);
        }
        MemoryOperation::Assign => say(b"ASSIGN"),
        MemoryOperation::AssignNoResult => say(b"ASSIGN_NORESULT"),
        MemoryOperation::Reference => say(b"REFERENCE"),
        MemoryOperation::TestDefined => say(b"TEST_DEFINED"),
    }
}

pub fn stack_name(o: StackOperation) -> &'static [u8] {
    match o {
        StackOperation::Undefined => b"UNDEFINED",
        StackOperation::Eat1 => b"EAT1",
        StackOperation::Interchange => b"INTERCHANGE",
        StackOperation::SetOrigin => b"SETORIGIN",
        StackOperation::GetOrigin => b"GETORIGIN",
    }
}

pub fn array_name(o: ArrayOperation) -> &'static [u8] {
    match o {
        ArrayOperation::Shape => b"SHAPE",
        ArrayOperation::Reshape => b"RESHAPE",
        ArrayOperation::Ravel => b"RAVEL",
        ArrayOperation::Catenate => b"CATENATE",
        ArrayOperation::IndexGenerator => b"INDEX_GENERATOR",
    }
}

pub fn control_name(o: ControlOperation) -> &'static [u8] {
    match o {
        ControlOperation::Branch => b"BRANCH",
        ControlOperation::Return => b"RETURN",
        ControlOperation::NoOperation => b"NO_OPERATION",
        ControlOperation::Breakpoint => b"BREAKPOINT",
        ControlOperation::Attention => b"ATTENTION",
    }
}

pub fn jump_name(o: Jump) -> &'static [u8] {
    match o {
        Jump::Go => b"GO",
        Jump::GoTrue => b"GO_TRUE",
        Jump::GoFalse => b"GO_FALSE",
    }
}
