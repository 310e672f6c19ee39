// The bytes of a procedure segment, of a file of imports or of a table of operators: two HEX digits a byte, - for none.
ghost use Rattle.std.specs.Prelude.{◌≡◌};
ghost use Rattle.std.proofs.lemmas.List.Edits.{sets};
ghost use Rattle.line_tool.specs.Bytes as meaning;

use crate::fault::Fault;
use crate::number::{digit, is_numeral};

// How many bytes a word writes, of which there is room for so many; the fault where it writes more.
pub fn count(word: &[u8], room: usize, more: Fault) -> Result<usize, Fault>
    ensures { result ≡ meaning.byte_count word.now room more }
{
    if word.len() == 0 {
        return Err(Fault::Missing);
    }
    if is_dash(word) {
        return Ok(0);
    }
    if !is_numeral(16, word) {
        return Err(Fault::NotHex);
    }
    if word.len() % 2 == 1 {
        return Err(Fault::Odd);
    }
    if room < word.len() / 2 {
        return Err(more);
    }
    Ok(word.len() / 2)
}

// The bytes that a word writes, put where there is room for them.
pub fn put_bytes(word: &[u8], out: &mut [u8])
    ensures { out.new ≡ sets out.old 0 (meaning.pairs word.now) }
{
    for i in 0..out.len().min(word.len() / 2) {
        out[i] = pair(word[2 * i], word[2 * i + 1]);
    }
}

fn pair(high: u8, low: u8) -> u8
    ensures { result ≡ meaning.pair high low }
{
    digit(high) % 16 * 16 + digit(low) % 16
}

fn is_dash(word: &[u8]) -> bool
    ensures { result ≡ meaning.is_dash word.now }
{
    word == b"-".as_slice()
}
