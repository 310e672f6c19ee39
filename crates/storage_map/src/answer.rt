// The answer to one call: the picture, or what became of it.
use crate::picture::draw;
use line_tool::streams::{STDERR, STDOUT};
use line_tool::tables::line;
use line_tool::writing::put;
use operations::Refusal;
use segment_files::answers::{give, put_count, tell};
use segment_files::buffers;
use segment_files::files::read_words;
use segment_files::sheet::sheet_of;
use std::fs::File;
use std::io::{Error, ErrorKind};
use std::os::fd::AsRawFd;
use std::rt::Files;
use storage_sheet::Sheet;

// Answers the lines of a text. Did standard output take the answer?
pub fn answer(rt: &(impl Files<File = File> + Eprint), text: &[u8]) -> bool {
    let mut words = buffers::words();
    let n = read_words(rt, line(text, 0), &mut words);
    match sheet_of(rt, &words[0..n], text) {
        Ok(sheet) => map(rt, &words[0..n], sheet, line(text, 3)),
        Err(refusal) => refuse(refusal),
    }
}

fn refuse(refusal: Refusal) -> bool {
    let mut out = io::buffer();
    let n = put_count(&mut out, 0, b"refused ", refusal.number() as u32);
    give(&out, n, b"storage_map: cannot write the answer")
}

// A picture that cannot be written is told, and is no reason to end.
fn map(rt: &(impl Files<File = File> + Eprint), seg: &[u32], sheet: Sheet, name: &[u8]) -> bool {
    if name.len() == 0 {
        return map_to_standard_output(seg, sheet);
    }
    if map_to_file(rt, seg, sheet, name) {
        return say_mapped(name);
    }
    true
}

fn map_to_standard_output(seg: &[u32], sheet: Sheet) -> bool {
    let drawn = draw(STDOUT, seg, sheet);
    if !drawn {
        tell(b"storage_map: cannot write the picture");
    }
    drawn
}

// The file is not touched before the segment is accepted, so that a refused call leaves an old picture as it is.
fn map_to_file(
    rt: &(impl Files<File = File> + Eprint),
    seg: &[u32],
    sheet: Sheet,
    name: &[u8],
) -> bool {
    match open_overwrite(rt, name) {
        Ok(file) => map_to(rt, &file, seg, sheet, name),
        Err(why) => {
            cannot_write(name, b": ");
            let _ = rt.eprintln(why);
            false
        }
    }
}

fn map_to(rt: &impl Eprint, file: &File, seg: &[u32], sheet: Sheet, name: &[u8]) -> bool {
    if !draw(file.as_raw_fd(), seg, sheet) {
        cannot_write(name, b"\n");
        return false;
    }
    match kept(file) {
        Ok(()) => true,
        Err(why) => {
            cannot_write(name, b": ");
            let _ = rt.eprintln(why);
            false
        }
    }
}

// The file of this name, made or emptied. The library names files by text alone: bytes that are no text name none.
fn open_overwrite(rt: &impl Files<File = File>, name: &[u8]) -> Result<File, Error> {
    match str::from_utf8(name) {
        Ok(path) => File::create(rt, path),
        Err(_) => Err(Error::new(ErrorKind::InvalidInput, "its name is not UTF-8")),
    }
}

// Has the system all that was written? Closing tells of no failure, so the file is asked before; what is no regular file, a pipe
// or a terminal, cannot be asked.
fn kept(file: &File) -> Result<(), Error> {
    match file.sync_all() {
        Err(why) if why.kind() != ErrorKind::InvalidInput => Err(why),
        _ => Ok(()),
    }
}

fn say_mapped(name: &[u8]) -> bool {
    let mut out = io::large_buffer();
    let a = put(&mut out, 0, b"map ");
    let b = put(&mut out, a, name);
    let c = put(&mut out, b, b"\n");
    give(&out, c, b"storage_map: cannot write the answer")
}

// Told on standard error, with as much of the name as there is room for.
fn cannot_write(name: &[u8], end: &[u8]) {
    let mut out = io::buffer();
    let a = put(&mut out, 0, b"storage_map: cannot write ");
    let b = put(&mut out, a, name);
    if b <= out.len() {
        io::write_all(STDERR, &out[0..b]);
        io::write_all(STDERR, end);
    }
}
