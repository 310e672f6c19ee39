// How long an instruction is, as far as its first byte says: by its family and its suboperation's number, in comparisons alone,
// so that nothing of it stands in read-only memory.
ghost use Rattle.std.specs.Prelude.{◌≡◌};
ghost use Rattle.instruction.specs.Lengths.{etc_length, fixed_bytes, length_in, memory_length, scalar_length};
ghost use Rattle.operator.specs.Table.{operator_of};
ghost use Rattle.instruction.specs.Tables.{memory_of, etc_of};

use crate::family::Family;

#[derive(Clone, Copy, Debug, PartialEq, Eq)]
pub enum Length {
    // That many bytes, the first one among them.
    Fixed(u8),
    // MEMREF: its address is one byte or two.
    ByAddress,
    // CONSTANT_VECTOR: so many words as its count says, from a word boundary on.
    ByCount,
    // No instruction starts with this byte.
    NoInstruction,
}

impl Length {
    // The bytes that are fixed; 0 where none are.
    pub fn bytes(self) -> u8
        ensures { result ≡ fixed_bytes self }
    {
        match self {
            Length::Fixed(bytes) => bytes,
            Length::ByAddress | Length::ByCount | Length::NoInstruction => 0,
        }
    }
}

// `number` is the suboperation's, where the family has suboperations.
pub fn length_in(family: Family, number: u8) -> Length
    ensures { result ≡ length_in family number }
{
    match family {
        Family::ShortLocal => Length::Fixed(1),
        Family::ShortConst => Length::Fixed(2),
        Family::GenScalar => scalar_length(number),
        Family::MemRef => memory_length(number),
        Family::Etc => etc_length(number),
        Family::LongLocal => Length::Fixed(2),
        Family::LongGlobal => Length::Fixed(2),
        Family::Index => Length::Fixed(1),
        Family::Unassigned => Length::NoInstruction,
    }
}

fn scalar_length(number: u8) -> Length
    ensures { result ≡ scalar_length (operator_of number) }
{
    if number < 16 {
        return Length::Fixed(1);
    }
    Length::NoInstruction
}

fn memory_length(number: u8) -> Length
    ensures { result ≡ memory_length (memory_of number) }
{
    if number < 1 {
        return Length::NoInstruction;
    }
    if number < 20 {
        return Length::ByAddress;
    }
    Length::NoInstruction
}

fn etc_length(number: u8) -> Length
    ensures { result ≡ etc_length (etc_of number) }
{
    if number < 10 {
        return Length::Fixed(1);
    }
    // CONSTANT_SCALAR
    if number < 11 {
        return Length::Fixed(5);
    }
    // CONSTANT_VECTOR
    if number < 12 {
        return Length::ByCount;
    }
    // BRANCH
    if number < 13 {
        return Length::Fixed(1);
    }
    // GO, GO_TRUE, GO_FALSE
    if number < 16 {
        return Length::Fixed(3);
    }
    // RETURN
    if number < 17 {
        return Length::Fixed(1);
    }
    // CALL
    if number < 18 {
        return Length::Fixed(3);
    }
    if number < 21 {
        return Length::Fixed(1);
    }
    Length::NoInstruction
}
