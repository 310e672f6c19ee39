// A reader on one function's code: the code and a place in it. Decoding is the work of `instruction`.
#![tactic(auto)]

ghost use Rattle.std.specs.Prelude.{◌≡◌};
ghost use Rattle.reader.specs.Walking.{at_start, place_after, read_once};

use descriptor::address::CodeAddress;
use instruction::Decoded;
use instruction::decode::instruction_at;
use trap::Trap;

// `code` is the function's block up to the end of its code, as `Block::code` lends it.
#[derive(Drop)]
pub struct Reader<'a> {
    pub code: &'a [u8],
    pub place: CodeAddress,
}

impl<'a> Reader<'a> {
    // A reader at the first instruction.
    pub fn new(code: &'a [u8]) -> Reader<'a>
        ensures { result ≡ at_start code.entry }
    {
        Reader {
            code,
            place: CodeAddress::of(8),
        }
    }

    // The instruction where the reader stands. The reader moves to its end, and stays where it traps.
    pub fn next<'s>(&'s mut self) -> Result<Decoded, Trap>
        ensures { (result, self.new) ≡ read_once self.old }
    {
        let found = instruction_at(self.code, self.place);
        self.place = place_after(self.place, found);
        found
    }
}

// The place after what was found at a place.
pub fn place_after(place: CodeAddress, found: Result<Decoded, Trap>) -> CodeAddress
    ensures { result ≡ place_after place found }
{
    match found {
        Ok(decoded) => decoded.next,
        Err(_) => place,
    }
}
