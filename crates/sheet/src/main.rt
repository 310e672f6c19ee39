// The storage sheet: where the words of array storage went. Three lines of standard input name the files of a data segment, of
// the regular and of the alternate procedure segment; five lines of standard output have the counts, or one line the number of
// the test that refused the segment. Each argument names a file to take the three lines from, - for standard input.
#![tactic(auto)]

mod answer;

use answer::answer;
use segment_files::names::{read_text, texts_end};
use std::io::Input;
use std::rt::{Env, Files};

// After an answer that could not be written there are no others.
fn main(rt: HostRuntime) {
    let end = texts_end(&rt);
    for k in 1..end {
        if !answer_text(&rt, k) {
            return;
        }
    }
}

fn answer_text(rt: &(impl Env + Files + Input), k: usize) -> bool {
    let mut text = io::large_buffer();
    let n = read_text(rt, k, &mut text);
    answer(rt, &text[0..n])
}
