// Instructions: what each is, and how the bytes of a function's code decode to them.
#![tactic(auto)]

pub mod cursor;
pub mod decode;
pub mod family;
pub mod length;
pub mod table;
pub mod variable;

use descriptor::address::{CodeAddress, SegmentAddress};
use operator::Operator;

// A variable: a local so many words below LBASE, or a global.
#[derive(Clone, Copy, Debug, PartialEq, Eq)]
pub enum Address {
    Local(u32),
    Global(SegmentAddress),
}

// What a MEMREF instruction does to its variable.
#[derive(Clone, Copy, Debug, PartialEq, Eq)]
pub enum MemoryOperation {
    AssignIndexed(u8),
    Assign,
    AssignNoResult,
    Reference,
    TestDefined,
}

// The ETC instructions on cells and on the index origin.
#[derive(Clone, Copy, Debug, PartialEq, Eq)]
pub enum StackOperation {
    Undefined,
    Eat1,
    Interchange,
    SetOrigin,
    GetOrigin,
}

// The ETC instructions that make arrays.
#[derive(Clone, Copy, Debug, PartialEq, Eq)]
pub enum ArrayOperation {
    Shape,
    Reshape,
    Ravel,
    Catenate,
    IndexGenerator,
}

// The ETC instructions of no operand byte that go elsewhere or nowhere.
#[derive(Clone, Copy, Debug, PartialEq, Eq)]
pub enum ControlOperation {
    Branch,
    Return,
    NoOperation,
    Breakpoint,
    Attention,
}

// The ETC instructions that hold a place to go to.
#[derive(Clone, Copy, Debug, PartialEq, Eq)]
pub enum Jump {
    Go,
    GoTrue,
    GoFalse,
}

#[derive(Clone, Copy, Debug, PartialEq, Eq)]
pub enum Instruction {
    Load(Address),
    ShortConstant {
        negative: bool,
        magnitude: u32,
    },
    Scalar(Operator),
    Memory(MemoryOperation, Address),
    Stack(StackOperation),
    Array(ArrayOperation),
    Control(ControlOperation),
    Jump(Jump, CodeAddress),
    ConstantScalar(u32),
    // The words stand in the code from `first` on.
    ConstantVector {
        count: u8,
        first: CodeAddress,
    },
    Call {
        arguments: u16,
        alternate: bool,
        function: u16,
    },
    Index(u8),
}

// An instruction and the place after it.
#[derive(Clone, Copy, Debug, PartialEq, Eq)]
pub struct Decoded {
    pub instruction: Instruction,
    pub next: CodeAddress,
}
