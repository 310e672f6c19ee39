// Descriptors: the words of the data segment that say what they hold, and the addresses in them.
#![tactic(auto)]

ghost use Rattle.std.specs.Prelude.{◌≡◌, ◌≤◌, ◌<◌, ◌^◌};
ghost use Rattle.descriptor.specs.Fields.{integer_limit, is_array, integer_word, character_word, array_word, local_word, global_word};
ghost use Rattle.descriptor.specs.Kinds.{kind_of, is_scalar, bit, unsigned_kind, character_kind, array_kind, indirect_kind, undefined_kind};

pub mod address;

use address::{SegmentAddress, StackAddress};

#[derive(Clone, Copy, PartialEq, Eq, Debug)]
pub enum Scalar {
    Float {
        negative: bool,
        exponent: u32,
        fraction: u32,
    },
    Integer {
        negative: bool,
        magnitude: u32,
    },
    Character(u32),
}

// The variable that an indirect word names.
#[derive(Clone, Copy, PartialEq, Eq, Debug)]
pub enum Target {
    Local(StackAddress),
    Global(SegmentAddress),
}

// What a word says; `Invalid` where it is no descriptor.
#[derive(Clone, Copy, PartialEq, Eq, Debug)]
pub enum Kind {
    Scalar(Scalar),
    Array(SegmentAddress),
    Indirect(Target),
    Undefined,
    Invalid,
}

#[derive(Clone, Copy, PartialEq, Eq, Debug)]
pub struct Descriptor(u32);

impl Descriptor {
    pub const INTEGER_LIMIT: u32 = 8_388_607;

    pub const TYPE_INTEGER: u32 = 0;

    pub const TYPE_CHARACTER: u32 = 1;

    pub const TYPE_ARRAY: u32 = 2;

    pub const TYPE_INDIRECT: u32 = 3;

    pub const TYPE_UNDEFINED: u32 = 4;

    pub const UNDEFINED: u32 = Self::TYPE_UNDEFINED * 0x0100_0000;

    pub fn of(word: u32) -> Self
        ensures { result.0 ≡ word }
    {
        Descriptor(word)
    }

    pub fn word(self) -> u32
        ensures { result ≡ self.0 }
    {
        self.0
    }

    // Zero is never negative.
    pub fn integer(negative: bool, magnitude: u32) -> Self
        requires { magnitude ≤ integer_limit }
        ensures { result.0 ≡ integer_word (bit negative) magnitude }
    {
        if magnitude == 0 {
            return Descriptor(0);
        }
        if negative {
            Descriptor(0x8000_0000 + magnitude)
        } else {
            Descriptor(magnitude)
        }
    }

    pub fn character(code: u8) -> Self
        ensures { result.0 ≡ character_word code }
    {
        Descriptor(Self::TYPE_CHARACTER * 0x0100_0000 + code as u32)
    }

    // A block that a damaged segment gives may lie past 16 bits: then the word is no descriptor.
    pub fn array(block: SegmentAddress) -> Self
        requires { block.0 < 2 ^ 24 }
        ensures { result.0 ≡ array_word block.0 }
    {
        Descriptor(Self::TYPE_ARRAY * 0x0100_0000 + block.number())
    }

    pub fn indirect_local(variable: StackAddress) -> Self
        requires { variable.0 < 2 ^ 16 }
        ensures { result.0 ≡ local_word variable.0 }
    {
        Descriptor(Self::TYPE_INDIRECT * 0x0100_0000 + variable.number())
    }

    pub fn indirect_global(variable: SegmentAddress) -> Self
        requires { variable.0 < 2 ^ 16 }
        ensures { result.0 ≡ global_word variable.0 }
    {
        Descriptor(Self::TYPE_INDIRECT * 0x0100_0000 + 0x1_0000 + variable.number())
    }

    pub fn kind(self) -> Kind
        ensures { result ≡ kind_of self.0 }
    {
        let w = self.0;
        let negative = w / 0x8000_0000 == 1;
        if w / 0x4000_0000 % 2 == 1 {
            return Kind::Scalar(Scalar::Float {
                negative: negative,
                exponent: w / 0x40_0000 % 0x100,
                fraction: w % 0x40_0000,
            });
        }
        let number = w / 0x0100_0000 % 0x40;
        let rest = w % 0x0100_0000;
        if number == Self::TYPE_INTEGER {
            if Self::INTEGER_LIMIT < rest {
                return Kind::Invalid;
            }
            if w == 0x8000_0000 {
                return Kind::Invalid;
            }
            return Kind::Scalar(Scalar::Integer {
                negative: negative,
                magnitude: rest,
            });
        }
        if w / 0x8000_0000 == 0 {
            return unsigned_kind(number, rest);
        }
        Kind::Invalid
    }

    // A word that is a scalar, by the readings of a float, an integer and a character.
    pub fn is_scalar(self) -> bool
        ensures { result ≡ is_scalar self.0 }
    {
        let w = self.0;
        if w / 0x4000_0000 % 2 == 1 {
            return true;
        }
        if w % 0x8000_0000 <= Self::INTEGER_LIMIT {
            return w != 0x8000_0000;
        }
        w / 0x100 == Self::TYPE_CHARACTER * 0x1_0000
    }

    // A word that is an array's: above the address of its block only the type is set.
    pub fn is_array(self) -> bool
        ensures { result ≡ is_array self.0 }
    {
        self.0 / 0x1_0000 == Self::TYPE_ARRAY * 0x100
    }
}

// The kind of a word whose sign is clear and whose type is not that of an integer.
fn unsigned_kind(number: u32, rest: u32) -> Kind
    ensures { result ≡ unsigned_kind number rest }
{
    match number {
        Descriptor::TYPE_CHARACTER => character_kind(rest),
        Descriptor::TYPE_ARRAY => array_kind(rest),
        Descriptor::TYPE_INDIRECT => indirect_kind(rest),
        Descriptor::TYPE_UNDEFINED => undefined_kind(rest),
        _ => Kind::Invalid,
    }
}

fn character_kind(rest: u32) -> Kind
    ensures { result ≡ character_kind rest }
{
    if rest < 0x100 {
        return Kind::Scalar(Scalar::Character(rest));
    }
    Kind::Invalid
}

fn array_kind(rest: u32) -> Kind
    ensures { result ≡ array_kind rest }
{
    if rest < 0x1_0000 {
        return Kind::Array(SegmentAddress::of(rest));
    }
    Kind::Invalid
}

fn indirect_kind(rest: u32) -> Kind
    ensures { result ≡ indirect_kind rest }
{
    if rest < 0x1_0000 {
        return Kind::Indirect(Target::Local(StackAddress::of(rest)));
    }
    if rest < 0x2_0000 {
        return Kind::Indirect(Target::Global(SegmentAddress::of(rest - 0x1_0000)));
    }
    Kind::Invalid
}

fn undefined_kind(rest: u32) -> Kind
    ensures { result ≡ undefined_kind rest }
{
    if rest == 0 {
        return Kind::Undefined;
    }
    Kind::Invalid
}
