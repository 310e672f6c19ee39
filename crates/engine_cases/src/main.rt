// Makes the calls of standard input and writes what each answers, with a hash of the data segment, so that a wrong word shows.
// The first lines of the file stdin say what its lines mean; make_calls.py writes it, and knows most answers. (`rt try` ends its
// interpreter at twenty million steps, before the list does; its compiled runs make all calls.)
#![tactic(auto)]

mod calls;
mod lent;
mod lines;
mod saying;

use calls::call;
use case_lines::put_words;
use lent::{Procedures, first_bytes, part};
use line_tool::pen::Pen;
use line_tool::streams::{STDIN, STDOUT};
use lines::numbers_of;
use saying::say_hash;
use segment::{put_all, word};

// There is room for segments that are a little too long, which a call must refuse.
fn main() {
    let mut text = io::large_buffer();
    let n = io::read_full(STDIN, &mut text);
    let mut pen = Pen::new(STDOUT);
    let mut seg = [0u32; 16400];
    let mut regular = [0u8; 32800];
    let mut alternate = [0u8; 32800];
    let mut lengths = [0u32; 3];
    for line in text[..n].split(|b| *b == b'\n') {
        obey(
            &mut pen,
            line,
            &mut seg,
            &mut regular,
            &mut alternate,
            &mut lengths,
        );
    }
}

// A remark is written out again.
fn obey(
    pen: &mut Pen,
    line: &[u8],
    seg: &mut [u32],
    regular: &mut [u8],
    alternate: &mut [u8],
    lengths: &mut [u32],
) {
    let Some(&letter) = line.first() else {
        return;
    };
    if letter == b'#' {
        pen.text(line);
        pen.end_line();
        return;
    }
    let mut room = [0u32; 1024];
    let count = numbers_of(line, &mut room);
    let numbers = &room[..count];
    let first = word(numbers, 0) as usize;
    let words = part(numbers, 1, count);
    match letter {
        b'n' => lend(line, lengths),
        b's' => put_all(seg, first, words),
        b'r' => put_words(regular, first, words),
        b'a' => put_words(alternate, first, words),
        _ => {
            let lent = Procedures {
                regular: first_bytes(regular, word(lengths, 1) as usize),
                alternate: first_bytes(alternate, word(lengths, 2) as usize),
            };
            let words = seg.len().min(word(lengths, 0) as usize);
            make(pen, letter, line, &mut seg[..words], lent, numbers);
        }
    }
}

fn lend(line: &[u8], lengths: &mut [u32]) {
    numbers_of(line, lengths);
}

// A call on as much of each segment as is lent. What is asked is written before it is done, so that a call with no end is seen.
fn make(
    pen: &mut Pen,
    letter: u8,
    line: &[u8],
    seg: &mut [u32],
    lent: Procedures<'_>,
    numbers: &[u32],
) {
    pen.text(line);
    pen.text(b" ->");
    pen.flush();
    call(pen, letter, seg, lent, numbers);
    say_hash(pen, seg);
    pen.end_line();
}
