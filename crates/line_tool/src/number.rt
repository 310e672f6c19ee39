// Numbers of a line: decimal ones below 2 ^ 32, and HEX words of 1 to 8 digits.
ghost use Rattle.std.specs.Prelude.{◌≡◌, ◌^◌, min};
ghost use Rattle.line_tool.specs.Numbers as meaning;

use crate::fault::Fault;

#[derive(Clone, Copy, Debug, PartialEq, Eq)]
pub enum Base {
    Decimal,
    Hex,
}

pub fn number_in(base: Base, word: &[u8]) -> Result<u32, Fault>
    ensures { result ≡ meaning.number_in base word.now }
{
    match base {
        Base::Decimal => decimal(word),
        Base::Hex => hex(word),
    }
}

pub fn decimal(word: &[u8]) -> Result<u32, Fault>
    ensures { result ≡ meaning.decimal_number word.now }
{
    if word.len() == 0 {
        return Err(Fault::Missing);
    }
    if !is_numeral(10, word) {
        return Err(Fault::NotDecimal);
    }
    let n = capped(10, word);
    if 0xffff_ffff < n {
        return Err(Fault::TooLarge);
    }
    Ok(n as u32)
}

pub fn hex(word: &[u8]) -> Result<u32, Fault>
    ensures { result ≡ meaning.hex_number word.now }
{
    if word.len() == 0 {
        return Err(Fault::Missing);
    }
    if !is_numeral(16, word) {
        return Err(Fault::NotHex);
    }
    if 8 < word.len() {
        return Err(Fault::TooLong);
    }
    Ok(capped(16, word) as u32)
}

// Has the word digits of the base alone?
pub fn is_numeral(base: u8, word: &[u8]) -> bool
    ensures { result ≡ meaning.is_numeral base word.now }
{
    for &b in word {
        if base <= digit(b) {
            return false;
        }
    }
    true
}

// The digit that a byte is, of either case; 16 where it is none.
#[tactic(auto, unfolding(crate::specs::Numbers::digit_of))]
pub fn digit(b: u8) -> u8
    ensures { result ≡ meaning.digit_of b }
{
    match b {
        b'0'..=b'9' => b - b'0',
        b'A'..=b'F' => b - b'A' + 10,
        b'a'..=b'f' => b - b'a' + 10,
        _ => 16,
    }
}

// The number of a numeral, or 2 ^ 32 where it is that or more.
fn capped(base: u8, word: &[u8]) -> u64
    ensures { result ≡ min (meaning.number_of base word.now) (2 ^ 32) }
{
    let mut n: u64 = 0;
    for &b in word {
        n = cap(n * base as u64 + digit(b) as u64);
    }
    n
}

fn cap(n: u64) -> u64
    ensures { result ≡ min n (2 ^ 32) }
{
    n.min(0x1_0000_0000)
}
