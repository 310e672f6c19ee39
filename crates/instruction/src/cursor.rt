// A place in a function's code, by value. Each read hands back what it found and the cursor past it; `None` outside the code.
ghost use Rattle.std.specs.Prelude.{◌≡◌};
ghost use Rattle.instruction.specs.Reading.{fetch_byte, fetch_half, fetch_word, fetch_words, cursor_at, place_of};

use descriptor::address::CodeAddress;

#[derive(Clone, Copy, Debug, PartialEq, Eq)]
pub struct Cursor {
    at: usize,
}

impl Cursor {
    pub fn new(place: CodeAddress) -> Cursor
        ensures { result ≡ cursor_at place.0 }
    {
        Cursor {
            at: place.number() as usize,
        }
    }

    // Where it stands, as a code address.
    pub fn place(self) -> CodeAddress
        ensures { result ≡ place_of self }
    {
        CodeAddress::of((self.at % 0x1_0000_0000) as u32)
    }

    // The byte at the cursor; `code` is the function's block up to the end of its code.
    #[tactic(auto, unfolding(crate::specs::Reading::fetch_byte))]
    pub fn byte(self, code: &[u8]) -> Option<(u8, Cursor)>
        ensures { result ≡ fetch_byte code.now self }
    {
        let byte = *code.get(self.at)?;
        Some((byte, Cursor { at: self.at + 1 }))
    }

    // Two bytes, the high one first.
    #[tactic(auto, unfolding(crate::specs::Reading::fetch_half))]
    pub fn half(self, code: &[u8]) -> Option<(u16, Cursor)>
        ensures { result ≡ fetch_half code.now self }
    {
        let (high, next) = self.byte(code)?;
        let (low, after) = next.byte(code)?;
        Some((high as u16 * 0x100 + low as u16, after))
    }

    // Four bytes, the high half first.
    #[tactic(auto, unfolding(crate::specs::Reading::fetch_word))]
    pub fn word(self, code: &[u8]) -> Option<(u32, Cursor)>
        ensures { result ≡ fetch_word code.now self }
    {
        let (high, next) = self.half(code)?;
        let (low, after) = next.half(code)?;
        Some((high as u32 * 0x1_0000 + low as u32, after))
    }

    // The cursors at the first of that many words, from the next word boundary of the function on, and past the last.
    pub fn words(self, code: &[u8], count: u8) -> Option<(Cursor, Cursor)>
        ensures { result ≡ fetch_words code.now self count }
    {
        let at = self.at;
        let fill = (4 - at % 4) % 4;
        let need = fill + 4 * count as usize;
        if code.len().checked_sub(at)? < need {
            return None;
        }
        Some((Cursor { at: at + fill }, Cursor { at: at + need }))
    }
}
