// A walk through a function's code from outside, so that the decoder can be measured (bench/decode).
use descriptor::address::CodeAddress;
use instruction::decode::instruction_at;
use instruction::{
    Address, ArrayOperation, ControlOperation, Instruction, Jump, MemoryOperation, StackOperation,
};
use operator::{Dyadic, Monadic, Operator};

// A number from every instruction of `code`, from byte 8 up to the first trap.
#[unsafe(no_mangle)]
pub extern "C" fn crms_walk(code: &[u8]) -> u64 {
    let mut at = CodeAddress::of(8);
    let mut sum: u64 = 0;
    for _ in 0..code.len() {
        let Ok(decoded) = instruction_at(code, at) else {
            return sum;
        };
        sum = sum.wrapping_add(weight(decoded.instruction));
        at = decoded.next;
    }
    sum
}

// Another number for another instruction.
fn weight(i: Instruction) -> u64 {
    match i {
        Instruction::Load(a) => 1000 + address_weight(a) as u64,
        Instruction::ShortConstant {
            negative,
            magnitude,
        } => {
            if negative {
                return 30000 + magnitude as u64;
            }
            20000 + magnitude as u64
        }
        Instruction::Scalar(o) => operator_weight(o),
        Instruction::Memory(o, a) => 100 * memory_weight(o) as u64 + address_weight(a) as u64,
        Instruction::Stack(o) => stack_weight(o),
        Instruction::Array(o) => array_weight(o),
        Instruction::Control(o) => control_weight(o),
        Instruction::Jump(o, to) => jump_weight(o) as u64 + to.number() as u64,
        Instruction::ConstantScalar(w) => w as u64,
        Instruction::ConstantVector { count, first } => count as u64 + first.number() as u64,
        Instruction::Call {
            arguments,
            alternate,
            function,
        } => {
            if alternate {
                return 70000 + arguments as u64 + function as u64;
            }
            60000 + arguments as u64 + function as u64
        }
        Instruction::Index(rank) => 500 + rank as u64,
    }
}

fn address_weight(a: Address) -> u32 {
    match a {
        Address::Local(below) => below,
        Address::Global(at) => at.number(),
    }
}

fn operator_weight(o: Operator) -> u64 {
    match o {
        Operator::Monadic(m) => monadic_weight(m),
        Operator::Dyadic(d) => dyadic_weight(d),
    }
}

fn monadic_weight(o: Monadic) -> u64 {
    match o {
        Monadic::Identity => 1,
        Monadic::Negative => 2,
        Monadic::Floor => 3,
        Monadic::Ceiling => 4,
        Monadic::Magnitude => 5,
        Monadic::Not => 6,
        Monadic::TestNumber => 7,
        Monadic::Convert => 8,
    }
}

fn dyadic_weight(o: Dyadic) -> u64 {
    match o {
        Dyadic::Sum => 9,
        Dyadic::Difference => 10,
        Dyadic::Product => 11,
        Dyadic::Quotient => 12,
        Dyadic::LogicalProduct => 13,
        Dyadic::LogicalSum => 14,
        Dyadic::Less => 15,
        Dyadic::Equal => 16,
    }
}

fn memory_weight(o: MemoryOperation) -> u8 {
    match o {
        MemoryOperation::AssignIndexed(rank) => rank,
        MemoryOperation::Assign => 16,
        MemoryOperation::AssignNoResult => 17,
        MemoryOperation::Reference => 18,
        MemoryOperation::TestDefined => 19,
    }
}

fn stack_weight(o: StackOperation) -> u64 {
    match o {
        StackOperation::Undefined => 21,
        StackOperation::Eat1 => 22,
        StackOperation::Interchange => 23,
        StackOperation::SetOrigin => 24,
        StackOperation::GetOrigin => 25,
    }
}

fn array_weight(o: ArrayOperation) -> u64 {
    match o {
        ArrayOperation::Shape => 26,
        ArrayOperation::Reshape => 27,
        ArrayOperation::Ravel => 28,
        ArrayOperation::Catenate => 29,
        ArrayOperation::IndexGenerator => 30,
    }
}

fn control_weight(o: ControlOperation) -> u64 {
    match o {
        ControlOperation::Branch => 31,
        ControlOperation::Return => 32,
        ControlOperation::NoOperation => 33,
        ControlOperation::Breakpoint => 34,
        ControlOperation::Attention => 35,
    }
}

fn jump_weight(o: Jump) -> u32 {
    match o {
        Jump::Go => 40000,
        Jump::GoTrue => 41000,
        Jump::GoFalse => 42000,
    }
}
