// The four operations, called with the numbers of a line.
use crate::lent::{Procedures, first_bytes, part, put_bytes};
use crate::saying::{say_answer, say_look, say_run, say_shown};
use line_tool::pen::Pen;
use segment::word;

pub fn call(pen: &mut Pen, letter: u8, seg: &mut [u32], lent: Procedures<'_>, numbers: &[u32]) {
    match letter {
        b'L' => lay_out(pen, seg, lent, numbers),
        b'R' => run(pen, seg, lent, word(numbers, 0)),
        b'T' => run_with(pen, seg, lent, numbers),
        b'V' => load(pen, seg, lent, numbers),
        b'K' => look(pen, seg, lent, word(numbers, 0)),
        _ => say_shown(pen, seg, numbers),
    }
}

fn lay_out(pen: &mut Pen, seg: &mut [u32], lent: Procedures<'_>, numbers: &[u32]) {
    let selector = word(numbers, 0);
    let function = word(numbers, 1);
    let globals = word(numbers, 2);
    let storage = word(numbers, 3);
    let answer = engine::lay_out::lay_out(
        seg,
        lent.regular,
        lent.alternate,
        selector,
        function,
        globals,
        storage,
    );
    say_answer(pen, answer);
}

fn run(pen: &mut Pen, seg: &mut [u32], lent: Procedures<'_>, budget: u32) {
    let answer = engine::run::run(seg, lent.regular, lent.alternate, budget);
    say_run(pen, answer, word(seg, 3));
}

// The budget and the bytes of the table. There is room for a table that is too long, which a run must refuse.
fn run_with(pen: &mut Pen, seg: &mut [u32], lent: Procedures<'_>, numbers: &[u32]) {
    let bytes = part(numbers, 1, numbers.len());
    let mut room = [0u8; 40];
    put_bytes(&mut room, bytes);
    let table = first_bytes(&room, bytes.len());
    let budget = word(numbers, 0);
    let answer = engine::run::run_with(seg, lent.regular, lent.alternate, table, budget);
    say_run(pen, answer, word(seg, 3));
}

// The global, the rank, the lengths and the elements.
fn load(pen: &mut Pen, seg: &mut [u32], lent: Procedures<'_>, numbers: &[u32]) {
    let global = word(numbers, 0);
    let start = word(numbers, 1) as usize + 2;
    let lengths = part(numbers, 2, start);
    let elements = part(numbers, start, numbers.len());
    let answer = engine::load::load(seg, lent.regular, lent.alternate, global, lengths, elements);
    say_answer(pen, answer);
}

fn look(pen: &mut Pen, seg: &[u32], lent: Procedures<'_>, global: u32) {
    let seen = engine::look::look(seg, lent.regular, lent.alternate, global);
    say_look(pen, seg, seen);
}
