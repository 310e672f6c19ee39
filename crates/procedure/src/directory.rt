// The directory of a procedure segment: functions by number.
ghost use Rattle.std.specs.Prelude.{◌≡◌};
ghost use Rattle.procedure.specs.Directory.{entries, start_of, length_of, has_function, header_of_function, function_of, selected, in_directory};

use crate::bytes::word_at;
use crate::header::{Block, Header, header_at};

// The number of entries, entry 0 among them.
pub fn entries(p: &[u8]) -> u16
    ensures { result ≡ entries p.now }
{
    (word_at(p, 0) % 0x1_0000) as u16
}

// Where the block of function `number` starts, in words.
pub fn start_of(p: &[u8], number: u16) -> u16
    ensures { result ≡ start_of p.now number }
{
    (word_at(p, 4 * number as u32) / 0x1_0000) as u16
}

// How long it is, in words.
pub fn length_of(p: &[u8], number: u16) -> u16
    ensures { result ≡ length_of p.now number }
{
    (word_at(p, 4 * number as u32) % 0x1_0000) as u16
}

#[tactic(auto, unfolding(crate::specs::Directory::has_function))]
pub fn has_function(p: &[u8], number: u16) -> bool
    ensures { result ≡ has_function p.now number }
{
    number != 0 && number < entries(p)
}

// The block of function `number`.
#[tactic(auto, unfolding(crate::specs::Directory::function_of))]
pub fn find(p: &[u8], number: u16) -> Option<Block>
    ensures { result ≡ function_of p.now number }
{
    if !has_function(p, number) {
        return None;
    }
    let start = start_of(p, number);
    Some(Block {
        start,
        header: header_at(p, start),
    })
}

// The segment that P names: clear the regular one, set the alternate one.
pub fn selected<'a>(selector: bool, regular: &'a [u8], alternate: &'a [u8]) -> &'a [u8]
    ensures { result.now ≡ selected selector regular.now alternate.now }
{
    if selector { alternate } else { regular }
}

// Whether the segment that P names has the function.
pub fn in_directory(selector: bool, regular: &[u8], alternate: &[u8], number: u16) -> bool
    ensures { result ≡ in_directory selector regular.now alternate.now number }
{
    has_function(selected(selector, regular, alternate), number)
}

// Its block there.
pub fn find_in(selector: bool, regular: &[u8], alternate: &[u8], number: u16) -> Option<Block>
    ensures { result ≡ function_of (selected selector regular.now alternate.now) number }
{
    find(selected(selector, regular, alternate), number)
}

// What its header there says.
pub fn header_in(selector: bool, regular: &[u8], alternate: &[u8], number: u16) -> Header
    ensures { result ≡ header_of_function (selected selector regular.now alternate.now) number }
{
    let p = selected(selector, regular, alternate);
    header_at(p, start_of(p, number))
}
