// Prints procedure segments, each from a file named as an argument, function by function. Before a file may stand
//
//     --table HEXBYTES     sixteen bytes, one for each suboperation of GENSCALAR in order: the place in the manual's table of the
//                          operator that it means in the files after it
//     --table manual       the manual's own table again
//
// The files after a table that is refused are passed over.
#![tactic(auto)]

mod asked;
mod listing;
mod text;

use asked::Asked;
use line_tool::command::is;
use std::env::FillError;
use std::fs::File;
use std::os::fd::AsRawFd;
use std::rt::{Env, Files};
use text::{number, say};

fn main(rt: HostRuntime) {
    let mut asked = Asked::manual();
    for k in 1..usize::MAX {
        let mut word = io::buffer();
        match rt.arg(k, &mut word) {
            Ok(n) => asked = argument(&rt, asked, &word[..n]),
            Err(FillError::TooLong) => asked = argument(&rt, asked, b""),
            Err(FillError::NotPresent) => break,
        }
    }
    asked.end();
}

fn argument(rt: &impl Files<File = File>, asked: Asked, word: &[u8]) -> Asked {
    if asked.option {
        return asked::lent(word);
    }
    if is(word, b"--table") {
        return asked.at_option();
    }
    if let Some(table) = asked.table {
        list_file(rt, word, table);
    }
    asked
}

// The segment in a file.
fn list_file(rt: &impl Files<File = File>, path: &[u8], table: [u8; 16]) {
    say(path);
    say(b": ");
    let Some(file) = open_read(rt, path) else {
        say(b"cannot be read\n");
        return;
    };
    let mut bytes = io::large_buffer();
    let length = io::read_full(file.as_raw_fd(), &mut bytes);
    list_bytes(&bytes[..length], table);
}

// The library names files by text alone: bytes that are no text name none.
fn open_read(rt: &impl Files<File = File>, path: &[u8]) -> Option<File> {
    let Ok(text) = str::from_utf8(path) else {
        return None;
    };
    File::open(rt, text).ok()
}

// A file of no length that a procedure segment has is said to be so before anything is read from it.
fn list_bytes(p: &[u8], table: [u8; 16]) {
    if 32768 < p.len() {
        say(b"refused 11, longer than 32768 bytes\n");
        return;
    }
    number(p.len() as u64);
    say(b" bytes");
    if p.len() % 4 != 0 {
        say(b": refused 11, not whole words\n");
        return;
    }
    listing::segment(p, table);
}
