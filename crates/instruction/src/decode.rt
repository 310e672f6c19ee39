// Decoding one instruction at a place of a function's code. A suboperation is judged before any byte after the first.
ghost use Rattle.std.specs.Prelude.{◌≡◌};
ghost use Rattle.instruction.specs.Decoding.{decoded, load_at, short_constant_at, scalar_at, memory_at, constant_scalar_at, constant_vector_at, jump_at, call_at, etc_at, family_at, instruction_at};

use crate::cursor::Cursor;
use crate::family::{Family, family_of};
use crate::table::{EtcSuboperation, etc_of, memory_of};
use crate::variable::{address_in, read_address};
use crate::{Decoded, Instruction, Jump, MemoryOperation};
use descriptor::address::CodeAddress;
use operator::{Operator, operator_of};
use trap::Trap;

// The instruction at a place of a function's code, whatever it calls.
#[tactic(auto, unfolding(crate::specs::Decoding::instruction_at))]
pub fn instruction_at(code: &[u8], place: CodeAddress) -> Result<Decoded, Trap>
    ensures { result ≡ instruction_at code.now place.0 }
{
    if place.number() < 8 {
        return Err(Trap::PROCEDURE_ADDRESS);
    }
    let (first, next) = Cursor::new(place)
        .byte(code)
        .ok_or(Trap::PROCEDURE_ADDRESS)?;
    family_at(code, next, first, family_of(first))
}

// The instruction whose first byte, of that family, stands before the cursor.
#[tactic(auto, unfolding(crate::specs::Decoding::family_at))]
fn family_at(code: &[u8], c: Cursor, first: u8, family: Family) -> Result<Decoded, Trap>
    ensures { result ≡ family_at code.now c first family }
{
    match family {
        Family::ShortLocal => load(code, c, first, Family::ShortLocal),
        Family::ShortConst => short_constant(code, c, first),
        Family::GenScalar => scalar(operator_of(first % 32), c),
        Family::MemRef => memory(code, c, memory_of(first % 32)),
        Family::Etc => etc(code, c, etc_of(first % 32)),
        Family::LongLocal => load(code, c, first, Family::LongLocal),
        Family::LongGlobal => load(code, c, first, Family::LongGlobal),
        Family::Index => Ok(decoded(Instruction::Index(first % 16), c)),
        Family::Unassigned => Err(Trap::UNDEFINED_ETC),
    }
}

// An instruction, and the place where the cursor stands after it.
fn decoded(instruction: Instruction, c: Cursor) -> Decoded
    ensures { result ≡ decoded instruction c }
{
    Decoded {
        instruction,
        next: c.place(),
    }
}

#[tactic(auto, unfolding(crate::specs::Decoding::load_at))]
fn load(code: &[u8], c: Cursor, first: u8, family: Family) -> Result<Decoded, Trap>
    ensures { result ≡ load_at code.now c first family }
{
    let (address, next) = address_in(code, c, first, family)?;
    Ok(decoded(Instruction::Load(address), next))
}

#[tactic(auto, unfolding(crate::specs::Decoding::short_constant_at))]
fn short_constant(code: &[u8], c: Cursor, first: u8) -> Result<Decoded, Trap>
    ensures { result ≡ short_constant_at code.now c first }
{
    let (second, next) = c.byte(code).ok_or(Trap::PROCEDURE_ADDRESS)?;
    let half = first as u32 * 0x100 + second as u32;
    let instruction = Instruction::ShortConstant {
        negative: half / 0x1000 % 2 == 1,
        magnitude: half % 0x1000,
    };
    Ok(decoded(instruction, next))
}

fn scalar(operator: Option<Operator>, c: Cursor) -> Result<Decoded, Trap>
    ensures { result ≡ scalar_at operator c }
{
    let operator = operator.ok_or(Trap::UNDEFINED_GENSCALAR)?;
    Ok(decoded(Instruction::Scalar(operator), c))
}

#[tactic(auto, unfolding(crate::specs::Decoding::memory_at))]
fn memory(code: &[u8], c: Cursor, operation: Option<MemoryOperation>) -> Result<Decoded, Trap>
    ensures { result ≡ memory_at code.now c operation }
{
    let operation = operation.ok_or(Trap::UNDEFINED_MEMREF)?;
    let (address, next) = read_address(code, c)?;
    Ok(decoded(Instruction::Memory(operation, address), next))
}

#[tactic(auto, unfolding(crate::specs::Decoding::etc_at))]
fn etc(code: &[u8], c: Cursor, sub: Option<EtcSuboperation>) -> Result<Decoded, Trap>
    ensures { result ≡ etc_at code.now c sub }
{
    match sub.ok_or(Trap::UNDEFINED_ETC)? {
        EtcSuboperation::Stack(o) => Ok(decoded(Instruction::Stack(o), c)),
        EtcSuboperation::Array(o) => Ok(decoded(Instruction::Array(o), c)),
        EtcSuboperation::Control(o) => Ok(decoded(Instruction::Control(o), c)),
        EtcSuboperation::Jump(jump) => jump_to(code, c, jump),
        EtcSuboperation::ConstantScalar => constant_scalar(code, c),
        EtcSuboperation::ConstantVector => constant_vector(code, c),
        EtcSuboperation::Call => call(code, c),
    }
}

#[tactic(auto, unfolding(crate::specs::Decoding::jump_at))]
fn jump_to(code: &[u8], c: Cursor, jump: Jump) -> Result<Decoded, Trap>
    ensures { result ≡ jump_at code.now c jump }
{
    let (to, next) = c.half(code).ok_or(Trap::PROCEDURE_ADDRESS)?;
    Ok(decoded(Instruction::Jump(jump, CodeAddress::of(to as u32)), next))
}

#[tactic(auto, unfolding(crate::specs::Decoding::constant_scalar_at))]
fn constant_scalar(code: &[u8], c: Cursor) -> Result<Decoded, Trap>
    ensures { result ≡ constant_scalar_at code.now c }
{
    let (word, next) = c.word(code).ok_or(Trap::PROCEDURE_ADDRESS)?;
    Ok(decoded(Instruction::ConstantScalar(word), next))
}

#[tactic(auto, unfolding(crate::specs::Decoding::constant_vector_at))]
fn constant_vector(code: &[u8], c: Cursor) -> Result<Decoded, Trap>
    ensures { result ≡ constant_vector_at code.now c }
{
    let (count, next) = c.byte(code).ok_or(Trap::PROCEDURE_ADDRESS)?;
    let (first, after) = next.words(code, count).ok_or(Trap::PROCEDURE_ADDRESS)?;
    let instruction = Instruction::ConstantVector {
        count,
        first: first.place(),
    };
    Ok(decoded(instruction, after))
}

#[tactic(auto, unfolding(crate::specs::Decoding::call_at))]
fn call(code: &[u8], c: Cursor) -> Result<Decoded, Trap>
    ensures { result ≡ call_at code.now c }
{
    let (half, next) = c.half(code).ok_or(Trap::PROCEDURE_ADDRESS)?;
    let instruction = Instruction::Call {
        arguments: half / 0x1000,
        alternate: half / 0x800 % 2 == 1,
        function: half % 0x800,
    };
    Ok(decoded(instruction, next))
}
