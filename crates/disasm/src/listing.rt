// The listing of one procedure segment, with operators named by a table.
ghost use Rattle.std.specs.Prelude.{◌≡◌, ◌+◌, ◌^◌, ◌<◌};
ghost use Rattle.procedure.specs.Headers.{code_end, code_of};

use crate::text::{
    array_name, control_name, field, flag, hex, jump_name, memory, number, number_right,
    operator_name, say, stack_name, variable,
};
use descriptor::address::CodeAddress;
use instruction::family::{Family, family_of};
use instruction::{Decoded, Instruction, Jump};
use operator::lent::named;
use procedure::bytes::{byte_at, word_at};
use procedure::directory::{entries, find};
use procedure::header::Block;
use procedure::refusal::{Fault, FunctionFault, fault_of};
use reader::Reader;
use trap::Trap;

// A function as it is listed: its block, and the table that says which operator each suboperation means.
#[derive(Clone, Copy)]
struct Shown {
    block: Block,
    table: [u8; 16],
}

impl Shown {
    fn code_end(self) -> u32
        ensures { result ≡ code_end self.block.header }
    {
        self.block.code_end()
    }

    fn code(self, p: &[u8]) -> &[u8]
        ensures { result.now ≡ code_of p.now self.block }
    {
        self.block.code(p)
    }
}

// All functions of a segment that the tests 11 and 12 accept; else what is wrong.
pub fn segment(p: &[u8], table: [u8; 16]) {
    match fault_of(p) {
        Err(Fault::SegmentLength) => say(b": refused 11, shorter than 4 bytes\n"),
        Err(Fault::Entries) => say(b": refused 12, entry 0 or the number of entries\n"),
        Err(Fault::Function(k, wrong)) => {
            say(b": refused 12, function ");
            number(k as u64);
            say(b", ");
            say(reason(wrong));
            say(b"\n");
        }
        Ok(()) => {
            say(b"\n");
            functions(p, table);
        }
    }
}

fn reason(wrong: FunctionFault) -> &'static [u8] {
    match wrong {
        FunctionFault::Start => b"its block starts in the directory",
        FunctionFault::End => b"its block ends past the segment",
        FunctionFault::Length => b"its length is not that of its header, code and lines",
        FunctionFault::UnnamedBits => b"bits 28-24 of its header are not zero",
        FunctionFault::Arguments => b"NARGS above 15",
        FunctionFault::ResultLocal => b"RESULT without a local",
        FunctionFault::Variables => b"NARGS + NLOCALS above 4096",
    }
}

fn functions(p: &[u8], table: [u8; 16]) {
    for k in 1..entries(p) {
        function(p, table, k);
    }
}

fn function(p: &[u8], table: [u8; 16], k: u16) {
    let Some(block) = find(p, k) else {
        return;
    };
    let h = block.header;
    say(b"function ");
    number(k as u64);
    field(b"word", block.start);
    flag(b"CALLTRACE", h.calltrace);
    flag(b"RTNTRACE", h.rtntrace);
    flag(b"RESULT", h.result);
    field(b"NARGS", h.nargs);
    field(b"NLINES", h.nlines);
    field(b"NLOCALS", h.nlocals);
    field(b"NCODE", h.ncode);
    say(b"\n");
    line_table(p, block);
    instructions(p, Shown { block, table });
}

// The line entries, where there are any.
fn line_table(p: &[u8], block: Block) {
    if block.header.nlines == 0 {
        return;
    }
    say(b"lines");
    line_entries(p, block);
    say(b"\n");
}

fn line_entries(p: &[u8], block: Block) {
    for i in 1..=block.header.nlines as u32 {
        line_entry(p, block, i);
    }
}

fn line_entry(p: &[u8], block: Block, i: u32) {
    let Some(place) = block.line(p, i) else {
        return;
    };
    say(b" ");
    number(place.number() as u64);
}

// Instruction after instruction; a byte that starts none is passed over.
fn instructions(p: &[u8], shown: Shown) {
    let end = shown.code_end();
    let mut r = Reader::new(shown.code(p));
    while r.place.number() < end {
        let at = r.place;
        listed(p, shown, at, r.next());
        r.place = past(at, r.place);
    }
}

// The lines that start at a place, and what was found there.
fn listed(p: &[u8], shown: Shown, at: CodeAddress, found: Result<Decoded, Trap>) {
    lines(p, shown.block, at.number());
    let code = shown.code(p);
    let table = shown.table;
    match found {
        Ok(found) => decoded(code, table, at.number(), found),
        Err(trap) => trapped(code, at.number(), trap),
    }
}

// Where the listing goes on: where the reader now stands, and past the byte where it stayed.
fn past(at: CodeAddress, now: CodeAddress) -> CodeAddress
    requires { at.0 + 1 < 2 ^ 32 }
    ensures { at.0 < result.0 }
{
    if at < now {
        return now;
    }
    CodeAddress::of(at.number() + 1)
}

// The lines that start at a place.
fn lines(p: &[u8], block: Block, at: u32) {
    for i in 1..=block.header.nlines as u32 {
        line(p, block, i, at);
    }
}

fn line(p: &[u8], block: Block, i: u32, at: u32) {
    let Some(place) = block.line(p, i) else {
        return;
    };
    if place.number() == at {
        say(b"line ");
        number(i as u64);
        say(b"\n");
    }
}

fn trapped(code: &[u8], at: u32, trap: Trap) {
    dump(code, at as usize, at as usize + 1);
    say(b"trap (");
    number(trap.class as u64);
    say(b",");
    number(trap.number as u64);
    say(b")\n");
}

fn decoded(code: &[u8], table: [u8; 16], at: u32, found: Decoded) {
    dump(code, at as usize, found.next.number() as usize);
    name(code, table, byte_at(code, at as usize), found.instruction);
    say(b"\n");
}

// The place and the first five bytes.
fn dump(code: &[u8], from: usize, to: usize) {
    number_right(from as u64);
    say(b"  ");
    for k in 0..5 {
        byte_column(code, from, to, k);
    }
    say(b" ");
}

fn byte_column(code: &[u8], from: usize, to: usize, k: usize) {
    if k < to.saturating_sub(from) {
        hex(byte_at(code, from + k) as u64, 2);
        say(b" ");
    } else {
        say(b"   ");
    }
}

fn name(code: &[u8], table: [u8; 16], first: u8, i: Instruction) {
    match i {
        Instruction::Load(a) => {
            say(load_name(family_of(first)));
            variable(a);
        }
        Instruction::ShortConstant {
            negative,
            magnitude,
        } => short_constant(negative, magnitude),
        Instruction::Scalar(o) => say(operator_name(named(&table, o))),
        Instruction::Memory(o, a) => {
            memory(o);
            variable(a);
        }
        Instruction::Stack(o) => say(stack_name(o)),
        Instruction::Array(o) => say(array_name(o)),
        Instruction::Control(o) => say(control_name(o)),
        Instruction::Jump(o, to) => jump(o, to),
        Instruction::ConstantScalar(w) => {
            say(b"CONSTANT_SCALAR ");
            hex(w as u64, 8);
        }
        Instruction::ConstantVector {
            count,
            first: words,
        } => vector(code, count, words),
        Instruction::Call {
            arguments,
            alternate,
            function: callee,
        } => call(arguments, alternate, callee),
        Instruction::Index(rank) => {
            say(b"INDEX rank ");
            number(rank as u64);
        }
    }
}

fn load_name(family: Family) -> &'static [u8] {
    match family {
        Family::ShortLocal => b"SHORTLOCAL",
        Family::LongLocal => b"LONGLOCAL",
        _ => b"LONGGLOBAL",
    }
}

fn short_constant(negative: bool, magnitude: u32) {
    say(b"SHORTCONST ");
    if negative {
        say(b"-");
    }
    number(magnitude as u64);
}

fn jump(o: Jump, to: CodeAddress) {
    say(jump_name(o));
    say(b" ");
    number(to.number() as u64);
}

fn call(arguments: u16, alternate: bool, callee: u16) {
    say(b"CALL");
    field(b"NARGS", arguments);
    if alternate {
        say(b" alternate");
    }
    field(b"function", callee);
}

fn vector(code: &[u8], count: u8, words: CodeAddress) {
    say(b"CONSTANT_VECTOR ");
    number(count as u64);
    say(b" from ");
    number(words.number() as u64);
    elements(code, count, words.number() as u64);
}

fn elements(code: &[u8], count: u8, from: u64)
    requires { from < 2 ^ 32 }
{
    for j in 0..count {
        word(code, from + 4 * j as u64);
    }
}

fn word(code: &[u8], at: u64) {
    if at < 0x1_0000_0000 {
        say(b" ");
        hex(word_at(code, at as u32) as u64, 8);
    }
}
