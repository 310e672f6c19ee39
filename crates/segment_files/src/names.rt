// The texts whose lines name the files: one for each argument, or standard input alone.
ghost use Rattle.std.specs.Prelude.{◌≤◌, length};

use crate::files::{open_read, read_part};
use line_tool::command::is;
use std::env::FillError;
use std::io::Input;
use std::rt::{Env, Files};

// The texts are those from 1 up to this number, which is none of them.
pub fn texts_end(rt: &impl Env) -> usize {
    arg_count(rt).max(2)
}

// How many arguments the program was started with, its own name among them.
fn arg_count(rt: &impl Env) -> usize {
    for count in 0..usize::MAX {
        if let Err(FillError::NotPresent) = rt.arg(count, &mut []) {
            return count;
        }
    }
    usize::MAX
}

// Text k: how many bytes were put at the front of the buffer, none where it cannot be read. A text that is longer than the buffer
// is cut. With 65,536 bytes that changes no answer: a name that can be opened and its line feed have 4,096 bytes at most, and a
// longer line among the first three makes its segment empty, so that test 10 or 11 refuses the call whatever the lines after it
// say. A fourth line that is cut is too long to be opened.
pub fn read_text(rt: &(impl Env + Files + Input), k: usize, text: &mut [u8]) -> usize
    ensures { result ≤ length text.new }
{
    if arg_count(rt) < 2 {
        return read_part(&mut rt.reader(), text);
    }
    let mut name = io::buffer();
    match rt.arg(k, &mut name) {
        Ok(n) => read_named(rt, &name[..n], text),
        Err(_) => 0,
    }
}

fn read_named(rt: &(impl Files + Input), name: &[u8], text: &mut [u8]) -> usize
    ensures { result ≤ length text.new }
{
    if is(name, b"-") {
        return read_part(&mut rt.reader(), text);
    }
    let Some(mut file) = open_read(rt, name) else {
        return 0;
    };
    read_part(&mut file, text)
}
