// The eight families of instructions, and which of them a first byte belongs to.
ghost use Rattle.std.specs.Prelude.{◌≡◌};
ghost use Rattle.instruction.specs.Families.{family_of, order_of};

#[derive(Clone, Copy, Debug, PartialEq, Eq)]
pub enum Family {
    ShortLocal,
    ShortConst,
    GenScalar,
    MemRef,
    Etc,
    LongLocal,
    LongGlobal,
    Index,
    // No instruction starts with this byte.
    Unassigned,
}

pub fn family_of(first: u8) -> Family
    ensures { result ≡ family_of first }
{
    match first {
        0x00..=0x3F => Family::ShortLocal,
        0x40..=0x5F => Family::ShortConst,
        0x60..=0x7F => Family::GenScalar,
        0x80..=0x9F => Family::MemRef,
        0xA0..=0xBF => Family::Etc,
        0xC0..=0xCF => Family::LongLocal,
        0xD0..=0xDF => Family::LongGlobal,
        0xE0..=0xEF => Family::Index,
        0xF0..=0xFF => Family::Unassigned,
    }
}

impl Family {
    // Its place in document 01's order, from 0; the bytes of no family come last.
    pub fn order(self) -> usize
        ensures { result ≡ order_of self }
    {
        self as usize
    }
}
