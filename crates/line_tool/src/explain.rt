// Statuses and traps in words: the former by document 01's table, the latter by the manual's appendix as document 01 reads it.
ghost use Rattle.std.specs.Prelude.{◌≡◌};
ghost use Rattle.line_tool.specs.Text.{bytes};
ghost use Rattle.line_tool.specs.Explain as meaning;
ghost use Rattle.line_tool.specs.Writing.{wrote, writes};

use crate::writing::{put, put_decimal};
use trap::Trap;

// What an operation answered last.
#[derive(Clone, Copy, Debug, PartialEq, Eq)]
pub enum Last {
    Nothing,
    Status(u8),
    Trap(Trap),
}

pub fn put_last(out: &mut [u8], at: usize, last: Last) -> usize
    ensures { wrote result out.new ≡ writes out.old at (meaning.last_text last) }
{
    match last {
        Last::Nothing => put(out, at, b"no status yet"),
        Last::Status(n) => put_status(out, at, n),
        Last::Trap(trap) => put_trap(out, at, trap),
    }
}

fn put_status(out: &mut [u8], at: usize, n: u8) -> usize
    ensures { wrote result out.new ≡ writes out.old at (meaning.status_text n) }
{
    let a = put(out, at, b"status ");
    let b = put_decimal(out, a, n as u32);
    let c = put(out, b, b": ");
    put(out, c, status_words(n))
}

fn put_trap(out: &mut [u8], at: usize, trap: Trap) -> usize
    ensures { wrote result out.new ≡ writes out.old at (meaning.trap_text trap.class trap.number) }
{
    let a = put(out, at, b"trap (");
    let b = put_decimal(out, a, trap.class as u32);
    let c = put(out, b, b",");
    let d = put_decimal(out, c, trap.number as u32);
    let e = put(out, d, b"): ");
    let word = trap.class as u16 * 0x100 + trap.number as u16;
    put(out, e, trap_words(word))
}

fn status_words(n: u8) -> &'static [u8]
    ensures { result.now ≡ bytes (meaning.status_words n) }
{
    match n {
        0 => b"done",
        2 => b"the number of instructions asked was done",
        3 => b"a trap",
        10 => b"the data segment is not 32 to 16384 words long",
        11 => b"a procedure segment is not 4 to 32768 bytes of whole words",
        12 => b"a directory or a function's header is wrong",
        13 => {
            b"words 0-7: an unnamed bit set, BLOCKPTR below 8, under 3 array words, or SBASE or SBASE + LTOP past the end"
        }
        14 => {
            b"blocks: the walk, a tag, a size, two free neighbours, a length or an element is wrong"
        }
        15 => b"the ring of free blocks or ROVER is wrong",
        16 => b"a frame is wrong",
        17 => b"a cell's kind or target is wrong",
        18 => b"a count is zero or not the number of cells pointing to the array",
        19 => {
            b"globals above 4088, array words below 6, or the parts and the bottom frame exceed the words lent"
        }
        20 => b"the function is absent or has arguments",
        21 => b"the address is no global",
        22 => b"the global is undefined",
        23 => {
            b"rank above 15, a length above 65535, a count that is not the lengths' product, or a word that is no scalar"
        }
        24 => b"no free block is long enough",
        25 => b"no record stands at that place of the file",
        26 => b"the table of operators is not sixteen bytes, 0 to 15, each of them once",
        _ => b"no such status",
    }
}

// A trap by word 3, the class in the high byte and the number in the low one.
fn trap_words(word: u16) -> &'static [u8]
    ensures { result.now ≡ bytes (meaning.trap_words word) }
{
    match word {
        0x0101 => b"storage overflow: the stack is full",
        0x0102 => b"storage overflow: no free block is long enough",
        0x0201 => b"debug: an instruction was completed in step mode",
        0x0202 => b"debug: a function was called in call-trace mode",
        0x0203 => b"debug: a function was left in return-trace mode",
        0x0204 => b"debug: a breakpoint",
        0x0301 => b"system error: code, a jump or a function outside its bounds",
        0x0302 => b"system error: a local outside its frame",
        0x0303 => b"system error: an address that is no global",
        0x0304 => b"system error: an operand is missing, or CALL's NARGS is not the header's",
        0x0305 => b"system error: a word not of the kind wanted",
        0x0306 => b"system error: double indirection",
        0x0307 => b"system error: a MEMREF address of no known form",
        0x0308 => b"system error: undefined MEMREF suboperation",
        0x0309 => b"system error: undefined GENSCALAR suboperation",
        0x030a => b"system error: OPWE is too large on a restart",
        0x030b => b"system error: undefined ETC suboperation or first byte",
        0x030c => b"system error: temporaries left on return",
        0x030d => b"system error: a return from the bottom frame",
        0x0400 => b"attention",
        0x0500 => b"rank error",
        0x0600 => b"length error",
        0x0700 => b"type error: a character where a number is wanted",
        0x0801 => b"domain error: integer overflow",
        0x0802 => b"domain error: floating-point exponent underflow",
        0x0803 => b"domain error: floating-point exponent overflow",
        0x0804 => b"domain error: division by zero",
        0x0805 => b"domain error: another value that does not serve",
        0x0901 => b"index error: the wrong number of subscripts",
        0x0902 => b"index error: a subscript is too large or small",
        0x0a00 => b"value error: an undefined variable or result",
        _ => b"no such trap",
    }
}
