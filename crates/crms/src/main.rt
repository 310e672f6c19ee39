// The line tool: commands from the files named as arguments, or from standard input, one a line, and answers on standard
// output. docs/LINE-TOOL.md says what each does.
#![tactic(auto)]

mod answers;
mod arguments;
mod calls;
mod commands;
mod input;
mod session;
mod sets;

use answers::cannot_read;
use input::obey_all;
use line_tool::streams::STDERR;
use std::alloc::AllocError;
use std::env::FillError;
use std::fs::File;
use std::io::{Error, ErrorKind, Input};
use std::rt::{Env, Files};

fn main(rt: HostRuntime) -> Result<(), AllocError> {
    if !obey_arguments(&rt)? {
        obey_all(&rt, &mut rt.reader(), b"standard input")?;
    }
    Ok(())
}

// The files that the arguments name. Are there any?
fn obey_arguments(rt: &(impl AllocGlobal + Env + Files + Eprint)) -> Result<bool, AllocError> {
    for k in 1..usize::MAX {
        let mut name = io::buffer();
        match rt.arg(k, &mut name) {
            Err(FillError::NotPresent) => return Ok(k != 1),
            Err(FillError::TooLong) => obey_file(rt, b"")?,
            Ok(n) => obey_file(rt, &name[..n])?,
        }
    }
    Ok(true)
}

fn obey_file(rt: &(impl AllocGlobal + Files + Eprint), name: &[u8]) -> Result<(), AllocError> {
    if name.is_empty() {
        io::write_all(STDERR, b"crms: a file's name is empty or too long\n");
        return Ok(());
    }
    match open(rt, name) {
        Ok(mut file) => obey_all(rt, &mut file, name),
        Err(why) => {
            cannot_read(rt, name, why);
            Ok(())
        }
    }
}

// std names files by text alone.
fn open<R: Files>(rt: &R, name: &[u8]) -> Result<R::File, Error> {
    match str::from_utf8(name) {
        Ok(path) => File::open(rt, path),
        Err(_) => Err(Error::new(ErrorKind::InvalidInput, "its name is not UTF-8")),
    }
}
