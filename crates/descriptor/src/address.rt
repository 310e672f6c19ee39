// The three kinds of address of document 01. None can stand in for another: the fields are private, and each becomes an
// index only by a helper that names what it counts from.
ghost use Rattle.std.specs.Prelude.{◌≡◌, ◌+◌};

// Counts words from the start of the data segment.
#[derive(Clone, Copy, PartialEq, Eq, PartialOrd, Ord, Debug)]
pub struct SegmentAddress(u32);

// Counts words from SBASE.
#[derive(Clone, Copy, PartialEq, Eq, PartialOrd, Ord, Debug)]
pub struct StackAddress(u32);

// Counts bytes from the start of a function's block.
#[derive(Clone, Copy, PartialEq, Eq, PartialOrd, Ord, Debug)]
pub struct CodeAddress(u32);

impl SegmentAddress {
    pub fn of(words: u32) -> Self
        ensures { result.0 ≡ words }
    {
        SegmentAddress(words)
    }

    // The number that a field of the data segment holds for it.
    pub fn number(self) -> u32
        ensures { result ≡ self.0 }
    {
        self.0
    }

    // Its place in the lent segment.
    pub fn index(self) -> usize
        ensures { result ≡ self.0 }
    {
        self.0 as usize
    }
}

impl StackAddress {
    pub fn of(words: u32) -> Self
        ensures { result.0 ≡ words }
    {
        StackAddress(words)
    }

    pub fn number(self) -> u32
        ensures { result ≡ self.0 }
    {
        self.0
    }

    // Its place in the lent segment, where the stack starts at SBASE.
    pub fn index(self, sbase: SegmentAddress) -> usize
        ensures { result ≡ sbase.0 + self.0 }
    {
        sbase.0 as usize + self.0 as usize
    }
}

impl CodeAddress {
    pub fn of(bytes: u32) -> Self
        ensures { result.0 ≡ bytes }
    {
        CodeAddress(bytes)
    }

    pub fn number(self) -> u32
        ensures { result ≡ self.0 }
    {
        self.0
    }

    // Its place in the lent procedure segment, where the function's block starts at byte `block`.
    pub fn index(self, block: u32) -> usize
        ensures { result ≡ block + self.0 }
    {
        block as usize + self.0 as usize
    }
}
