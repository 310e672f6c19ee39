// Answers on standard output, a line each.
use line_tool::explain::Last;
use line_tool::fault::Misread;
use line_tool::number::Base;
use line_tool::pen::Pen;
use line_tool::streams::{STDERR, STDOUT};
use line_tool::tokens::{shown, text};
use std::io::Error;
use storage_sheet::Sheet;

pub fn error(line: &[u8], wrong: Misread) {
    let mut pen = Pen::new(STDOUT);
    pen.text(b"error ");
    pen.fault(wrong.fault);
    pen.text(b": ");
    pen.token(text(line, shown(line, wrong.token)));
    pen.end_line();
}

// A command's name and a status.
pub fn status(name: &[u8], n: u8) {
    let mut pen = Pen::new(STDOUT);
    pen.text(name);
    pen.text(b" ");
    pen.decimal(n as u32);
    pen.end_line();
}

pub fn ran(n: u8, steps: u32, trap: u32) {
    let mut pen = Pen::new(STDOUT);
    pen.text(b"run ");
    pen.decimal(n as u32);
    pen.text(b" ");
    pen.decimal(steps);
    pen.text(b" ");
    pen.hex(trap);
    pen.end_line();
}

// A replay that halted at a place of the file.
pub fn halted(n: u8, place: usize) {
    let mut pen = Pen::new(STDOUT);
    put_halted(&mut pen, n, place);
    pen.end_line();
}

pub fn halted_by_trap(place: usize, trap: u32) {
    let mut pen = Pen::new(STDOUT);
    put_halted(&mut pen, 3, place);
    pen.text(b" ");
    pen.hex(trap);
    pen.end_line();
}

fn put_halted(pen: &mut Pen, n: u8, place: usize) {
    pen.text(b"replay ");
    pen.decimal(n as u32);
    pen.text(b" ");
    pen.decimal((place % 0x1_0000_0000) as u32);
}

pub fn scalar(word: u32) {
    let mut pen = Pen::new(STDOUT);
    pen.text(b"look 0 scalar ");
    pen.hex(word);
    pen.end_line();
}

pub fn array(lengths: &[u32], elements: &[u32]) {
    let mut pen = Pen::new(STDOUT);
    pen.text(b"look 0 array ");
    pen.decimal((lengths.len() % 0x1_0000_0000) as u32);
    pen.numbers(Base::Decimal, lengths);
    pen.text(b" |");
    pen.numbers(Base::Hex, elements);
    pen.end_line();
}

pub fn sheet(sums: Sheet) {
    let mut pen = Pen::new(STDOUT);
    pen.text(b"sheet arrays ");
    pen.decimal(sums.arrays);
    pen.text(b" slop ");
    pen.decimal(sums.slop);
    pen.text(b" free ");
    pen.decimal(sums.free);
    pen.text(b" end ");
    pen.decimal(sums.end);
    pen.text(b" total ");
    pen.decimal(sums.total);
    pen.end_line();
}

pub fn dump(seg: &[u32]) {
    let mut pen = Pen::new(STDOUT);
    pen.text(b"dump");
    pen.numbers(Base::Hex, seg);
    pen.end_line();
}

pub fn hash(h: u32) {
    let mut pen = Pen::new(STDOUT);
    pen.text(b"hash ");
    pen.hex(h);
    pen.end_line();
}

pub fn tally(counts: &[u32]) {
    let mut pen = Pen::new(STDOUT);
    pen.text(b"tally");
    pen.numbers(Base::Decimal, counts);
    pen.end_line();
}

pub fn explain(last: Last) {
    let mut pen = Pen::new(STDOUT);
    pen.last(last);
    pen.end_line();
}

pub fn help() {
    let mut pen = Pen::new(STDOUT);
    pen.text(
        b"seg N, word I HEX, words I HEX .., reg HEXBYTES, alt HEXBYTES, file HEXBYTES, table HEXBYTES, ",
    );
    pen.text(
        b"layout P FN GLOBALS ARRAYWORDS, run BUDGET, load ADDR RANK LEN .. | HEX .., look ADDR, ",
    );
    pen.text(b"sheet, replay, dump, hash, tally, explain, help");
    pen.end_line();
}

// Told on standard error, with the reason why.
pub fn cannot_read(rt: &impl Eprint, name: &[u8], why: Error) {
    let mut pen = Pen::new(STDERR);
    pen.text(b"crms: cannot read ");
    pen.text(name);
    pen.text(b": ");
    pen.flush();
    let _ = rt.eprintln(why);
}
