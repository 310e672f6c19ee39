// Records and faults, written out.
use crate::wrong::{Refused, put_wrong};
use line_tool::pen::Pen;
use line_tool::streams::{STDERR, STDOUT};
use line_tool::tokens::{shown, text};

// The bytes of a record; or the place where it begins, the number of its line, and its bytes in HEX.
pub fn give(show: bool, place: u32, number: u32, record: &[u8]) -> bool {
    if !show {
        return io::write_all(STDOUT, record);
    }
    let mut pen = Pen::new(STDOUT);
    pen.decimal(place);
    pen.text(b" line ");
    pen.decimal(number);
    pen.text(b": ");
    for &byte in record {
        pen.text(&[glyph(byte / 16), glyph(byte % 16)]);
    }
    pen.end_line()
}

// What is wrong with a line: among the records where they are shown.
pub fn tell(show: bool, number: u32, refused: Refused, line: &[u8]) {
    let mut pen = Pen::new(if show { STDOUT } else { STDERR });
    pen.text(b"line ");
    pen.decimal(number);
    pen.text(b": ");
    put_wrong(&mut pen, refused.wrong);
    pen.text(b": ");
    pen.token(text(line, shown(line, refused.token)));
    pen.end_line();
}

fn glyph(digit: u8) -> u8 {
    let d = digit % 16;
    if d < 10 { b'0' + d } else { b'a' - 10 + d }
}
