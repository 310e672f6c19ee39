// What can be wrong with a line, and the words that say so.
ghost use Rattle.std.specs.Prelude.{◌≡◌};
ghost use Rattle.line_tool.specs.Text.{bytes};
ghost use Rattle.line_tool.specs.Faults as meaning;
ghost use Rattle.line_tool.specs.Writing.{wrote, writes};

use crate::tokens::Token;
use crate::writing::put;

#[derive(Clone, Copy, Debug, PartialEq, Eq)]
pub enum Fault {
    NoCommand,
    Missing,
    Extra,
    NotDecimal,
    TooLarge,
    NotHex,
    TooLong,
    Odd,
    TooManyBytes,
    LongFile,
    LongTable,
    TooManyWords,
    PastEnd,
    NoBar,
    LongLine,
}

impl Fault {
    fn text(self) -> &'static [u8]
        ensures { result.now ≡ bytes (meaning.fault_text self) }
    {
        match self {
            Fault::NoCommand => b"no such command",
            Fault::Missing => b"something is missing after",
            Fault::Extra => b"more than the command takes",
            Fault::NotDecimal => b"not a decimal number",
            Fault::TooLarge => b"a number above 4294967295",
            Fault::NotHex => b"not only digits 0 to 9 and a to f",
            Fault::TooLong => b"a word of more than 8 digits",
            Fault::Odd => b"an odd number of digits, two are a byte",
            Fault::TooManyBytes => b"more than 40000 bytes",
            Fault::LongFile => b"more than 100000 bytes",
            Fault::LongTable => b"more than 1000 bytes",
            Fault::TooManyWords => b"more than 40000 words",
            Fault::PastEnd => b"past the end of the segment",
            Fault::NoBar => b"no bar | where the lengths end",
            Fault::LongLine => b"the line is too long, it begins with",
        }
    }
}

// What is wrong, and the token that it is about.
#[derive(Clone, Copy, Debug, PartialEq, Eq)]
pub struct Misread {
    pub fault: Fault,
    pub token: Token,
}

pub fn put_fault(out: &mut [u8], at: usize, fault: Fault) -> usize
    ensures { wrote result out.new ≡ writes out.old at (bytes (meaning.fault_text fault)) }
{
    put(out, at, fault.text())
}

// A token of an error: its first 40 bytes.
pub fn put_token(out: &mut [u8], at: usize, token: &[u8]) -> usize
    ensures { wrote result out.new ≡ writes out.old at (meaning.shown token.now) }
{
    if token.len() <= 40 {
        return put(out, at, token);
    }
    let cut = put(out, at, &token[0..40]);
    put(out, cut, b"..")
}
