// A function's block: its header, its code and its line entries.
ghost use Rattle.std.specs.Prelude.{◌≡◌, ◌*◌};
ghost use Rattle.procedure.specs.Headers.{header_at, code_end, code_of, line_of};

use crate::bytes::{half_at, word_at};
use descriptor::address::CodeAddress;

#[derive(Clone, Copy)]
pub struct Header {
    pub calltrace: bool,
    pub rtntrace: bool,
    pub result: bool,
    pub nargs: u16,
    pub nlines: u16,
    pub nlocals: u16,
    pub ncode: u16,
}

// A function's block, by its first word in the segment.
#[derive(Clone, Copy)]
pub struct Block {
    pub start: u16,
    pub header: Header,
}

// The header of the block that starts at word `start`.
pub fn header_at(p: &[u8], start: u16) -> Header
    ensures { result ≡ header_at p.now start }
{
    let at = 4 * start as u32;
    let word0 = word_at(p, at);
    let word1 = word_at(p, at + 4);
    Header {
        calltrace: word0 / 0x8000_0000 % 2 == 1,
        rtntrace: word0 / 0x4000_0000 % 2 == 1,
        result: word0 / 0x2000_0000 % 2 == 1,
        nargs: (word0 / 0x1_0000 % 0x100) as u16,
        nlines: (word0 % 0x1_0000) as u16,
        nlocals: (word1 / 0x1_0000) as u16,
        ncode: (word1 % 0x1_0000) as u16,
    }
}

impl Header {
    // The first code address past the function's code.
    pub fn code_end(self) -> u32
        ensures { result ≡ code_end self }
    {
        8 + 4 * self.ncode as u32
    }
}

impl Block {
    // Its first byte in the segment, from which code addresses count.
    pub fn first_byte(self) -> u32
        ensures { result ≡ 4 * self.start }
    {
        4 * self.start as u32
    }

    pub fn code_end(self) -> u32
        ensures { result ≡ code_end self.header }
    {
        self.header.code_end()
    }

    // Its bytes up to the end of its code, as that part of the lent segment: a code address is an index.
    pub fn code(self, p: &[u8]) -> &[u8]
        ensures { result.now ≡ code_of p.now self }
    {
        let start = self.first_byte() as usize;
        let end = start + self.code_end() as usize;
        let all = p.len();
        if end <= all {
            return &p[start..end];
        }
        if start <= all {
            return &p[start..all];
        }
        &p[all..all]
    }

    // Line entry `number`, for 1 to NLINES: the place of the line's first instruction.
    #[tactic(auto, unfolding(crate::specs::Headers::line_of))]
    pub fn line(self, p: &[u8], number: u32) -> Option<CodeAddress>
        ensures { result ≡ line_of p.now self number }
    {
        if number < 1 || (self.header.nlines as u32) < number {
            return None;
        }
        let at = self.first_byte() + self.code_end() + 2 * (number - 1);
        Some(CodeAddress::of(half_at(p, at) as u32))
    }
}
