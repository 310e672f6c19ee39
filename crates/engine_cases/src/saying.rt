// What the program writes.
use effects::Ran;
use line_tool::hash::hash_of;
use line_tool::number::Base;
use line_tool::pen::Pen;
use operations::{Looked, Refusal};
use segment::word;

fn say_number(pen: &mut Pen, n: u32) {
    pen.numbers(Base::Decimal, &[n]);
}

fn say_words(pen: &mut Pen, words: &[u32]) {
    pen.numbers(Base::Hex, words);
}

pub fn say_answer(pen: &mut Pen, answer: Result<(), Refusal>) {
    match answer {
        Ok(()) => say_number(pen, 0),
        Err(refusal) => say_refusal(pen, refusal),
    }
}

fn say_refusal(pen: &mut Pen, refusal: Refusal) {
    say_number(pen, refusal.number() as u32);
}

// With the trap that a run leaves in word 3.
pub fn say_run(pen: &mut Pen, answer: Result<Ran, Refusal>, trap: u32) {
    match answer {
        Ok(Ran::Done(steps)) => say_steps(pen, 2, steps),
        Ok(Ran::Trapped(steps)) => {
            say_steps(pen, 3, steps);
            say_trap(pen, trap);
        }
        Err(refusal) => say_refusal(pen, refusal),
    }
}

fn say_steps(pen: &mut Pen, status: u32, steps: u32) {
    say_number(pen, status);
    pen.text(b" after");
    say_number(pen, steps);
}

fn say_trap(pen: &mut Pen, trap: u32) {
    pen.text(b" (");
    pen.decimal(trap / 0x100);
    pen.text(b",");
    pen.decimal(trap % 0x100);
    pen.text(b")");
}

pub fn say_look(pen: &mut Pen, seg: &[u32], seen: Result<Looked, Refusal>) {
    match seen {
        Err(refusal) => say_refusal(pen, refusal),
        Ok(Looked::Scalar(w)) => {
            say_number(pen, 0);
            say_words(pen, &[w]);
        }
        Ok(Looked::Array(block)) => {
            say_number(pen, 0);
            say_words(pen, engine::look::lengths(seg, block));
            pen.text(b" |");
            say_words(pen, engine::look::elements(seg, block));
        }
    }
}

// The words at these addresses.
pub fn say_shown(pen: &mut Pen, seg: &[u32], addresses: &[u32]) {
    for &address in addresses {
        say_words(pen, &[word(seg, address as usize)]);
    }
}

pub fn say_hash(pen: &mut Pen, seg: &[u32]) {
    pen.text(b" #");
    pen.hex(hash_of(seg));
}
