// A picture of array storage, as SVG. Three lines of standard input name the files of a data segment, of the regular and of the
// alternate procedure segment; a fourth line names the file that the picture goes to, and without it the picture goes to standard
// output. Each argument names a file to take the lines from, - for standard input.
#![tactic(auto)]

mod answer;
mod blocks;
mod picture;
mod writing;

use answer::answer;
use segment_files::names::{read_text, texts_end};
use std::fs::File;
use std::io::Input;
use std::rt::{Env, Files};

// After an answer that could not be written there are no others.
fn main(rt: HostRuntime) {
    let end = texts_end(&rt);
    for k in 1..end {
        if !answer_text(&rt, k) {
            return;
        }
    }
}

fn answer_text(rt: &(impl Env + Files<File = File> + Input + Eprint), k: usize) -> bool {
    let mut text = io::large_buffer();
    let n = read_text(rt, k, &mut text);
    answer(rt, &text[0..n])
}
