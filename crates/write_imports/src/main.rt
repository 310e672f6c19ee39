// Makes a file of imports: records in text on standard input, one a line, and their bytes on standard output. With the argument
// `show`, in place of the bytes a line for each record: its place in the file, its line in the text, and its bytes in HEX.
//
//     load ADDRESS LENGTH .. | ELEMENT ..     no length and one element are a scalar
//     run STEPS
//
// A line that is no record is told with its number on standard error, or in its place where records are shown, and is left out.
#![tactic(auto)]

mod encode;
mod input;
mod numbers;
mod output;
mod records;
mod wrong;

use input::{Stop, read_all};
use line_tool::command::is;
use line_tool::streams::STDERR;
use std::alloc::AllocError;
use std::env::FillError;
use std::rt::Env;

fn main(rt: HostRuntime) -> Result<(), AllocError> {
    let Some(show) = argument(&rt) else {
        io::write_all(
            STDERR,
            b"write_imports: the one argument that it takes is show\n",
        );
        return Ok(());
    };
    match read_all(&rt, show) {
        Err(Stop::NotWritten) => {
            io::write_all(STDERR, b"write_imports: cannot write a record\n");
            Ok(())
        }
        Err(Stop::NoMemory(why)) => Err(why),
        Ok(()) => Ok(()),
    }
}

// Are the records to be shown? None where the arguments are unclear.
fn argument(rt: &impl Env) -> Option<bool> {
    let mut word = io::buffer();
    match rt.arg(1, &mut word) {
        Err(FillError::NotPresent) => Some(false),
        Err(FillError::TooLong) => None,
        Ok(n) => asked_by(&word[..n], has_argument(rt, 2)),
    }
}

// What the first argument asks for, where there is a second one or none.
fn asked_by(word: &[u8], has_second: bool) -> Option<bool> {
    if has_second {
        return None;
    }
    if is(word, b"show") {
        return Some(true);
    }
    None
}

fn has_argument(rt: &impl Env, i: usize) -> bool {
    let mut word = io::buffer();
    !matches!(rt.arg(i, &mut word), Err(FillError::NotPresent))
}
