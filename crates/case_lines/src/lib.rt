// What lines of cases are read by, whichever program runs them: their numbers, and words of a procedure segment.
#![tactic(auto)]

ghost use Rattle.std.specs.Prelude.{◌<◌};

// A hexadecimal number, the last eight digits of it. What is no digit in lower case counts as 0.
pub fn number(digits: &[u8]) -> u32 {
    digits.iter().fold(
        0,
        |value: u32, code| value % 0x1000_0000 * 16 + digit(*code),
    )
}

fn digit(code: u8) -> u32
    ensures { result < 16 }
{
    match code {
        b'0'..=b'9' => (code - b'0') as u32,
        b'a'..=b'f' => (code - b'a') as u32 + 10,
        _ => 0,
    }
}

// Words of a procedure segment, high byte first, from word `start` on: as many as there is room for.
pub fn put_words(p: &mut [u8], start: usize, words: &[u32]) {
    let (places, _) = p.as_chunks_mut::<4>();
    for (place, word) in places.iter_mut().skip(start).zip(words) {
        *place = word.to_be_bytes();
    }
}
