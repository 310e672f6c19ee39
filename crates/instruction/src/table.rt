// The manual's tables of suboperations for the families MEMREF and ETC.
ghost use Rattle.std.specs.Prelude.{◌≡◌};
ghost use Rattle.instruction.specs.Tables.{memory_of, etc_of};

use crate::{ArrayOperation, ControlOperation, Jump, MemoryOperation, StackOperation};

// An ETC suboperation; what follows it in the code is the decoder's matter.
#[derive(Clone, Copy, Debug, PartialEq, Eq)]
pub enum EtcSuboperation {
    Stack(StackOperation),
    Array(ArrayOperation),
    Control(ControlOperation),
    Jump(Jump),
    ConstantScalar,
    ConstantVector,
    Call,
}

#[tactic(auto, unfolding(crate::specs::Tables::memory_of))]
pub fn memory_of(number: u8) -> Option<MemoryOperation>
    ensures { result ≡ memory_of number }
{
    match number {
        1..=15 => Some(MemoryOperation::AssignIndexed(number)),
        16 => Some(MemoryOperation::Assign),
        17 => Some(MemoryOperation::AssignNoResult),
        18 => Some(MemoryOperation::Reference),
        19 => Some(MemoryOperation::TestDefined),
        _ => None,
    }
}

#[tactic(auto, unfolding(crate::specs::Tables::etc_of))]
pub fn etc_of(number: u8) -> Option<EtcSuboperation>
    ensures { result ≡ etc_of number }
{
    match number {
        0 => Some(EtcSuboperation::Stack(StackOperation::Undefined)),
        1 => Some(EtcSuboperation::Stack(StackOperation::Eat1)),
        2 => Some(EtcSuboperation::Stack(StackOperation::Interchange)),
        3 => Some(EtcSuboperation::Stack(StackOperation::SetOrigin)),
        4 => Some(EtcSuboperation::Stack(StackOperation::GetOrigin)),
        5 => Some(EtcSuboperation::Array(ArrayOperation::Shape)),
        6 => Some(EtcSuboperation::Array(ArrayOperation::Reshape)),
        7 => Some(EtcSuboperation::Array(ArrayOperation::Ravel)),
        8 => Some(EtcSuboperation::Array(ArrayOperation::Catenate)),
        9 => Some(EtcSuboperation::Array(ArrayOperation::IndexGenerator)),
        10 => Some(EtcSuboperation::ConstantScalar),
        11 => Some(EtcSuboperation::ConstantVector),
        12 => Some(EtcSuboperation::Control(ControlOperation::Branch)),
        13 => Some(EtcSuboperation::Jump(Jump::Go)),
        14 => Some(EtcSuboperation::Jump(Jump::GoTrue)),
        15 => Some(EtcSuboperation::Jump(Jump::GoFalse)),
        16 => Some(EtcSuboperation::Control(ControlOperation::Return)),
        17 => Some(EtcSuboperation::Call),
        18 => Some(EtcSuboperation::Control(ControlOperation::NoOperation)),
        19 => Some(EtcSuboperation::Control(ControlOperation::Breakpoint)),
        20 => Some(EtcSuboperation::Control(ControlOperation::Attention)),
        _ => None,
    }
}
