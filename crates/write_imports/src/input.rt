// The lines of standard input, each written as a record as soon as it has ended.
use crate::output::{give, tell};
use crate::records::write_line;
use line_tool::lines::Line;
use std::alloc::{AllocError, Global};
use std::io::{Input, Read};

// Why reading ends before the input does.
#[derive(Debug, Drop)]
pub enum Stop {
    // Standard output refused a record.
    NotWritten,
    NoMemory(AllocError),
}

impl From<AllocError> for Stop {
    fn from(why: AllocError) -> Stop {
        Stop::NoMemory(why)
    }
}

#[derive(Drop)]
struct Reading {
    show: bool,
    line: Line,
    // Lines that have ended, and bytes of records; neither is counted beyond 32 bits.
    lines: u32,
    place: u32,
}

// All lines. The last may lack its line feed. Where the input cannot be read on, the line that was begun is dropped.
pub fn read_all(rt: &(impl AllocGlobal + Input + Eprint), show: bool) -> Result<(), Stop> {
    let mut reading = Reading::new(rt.alloc(), show);
    let mut buffer = io::large_buffer();
    let mut from = rt.reader();
    for _ in 0..u64::MAX {
        match from.read(&mut buffer) {
            Err(why) => {
                let _ = eprintln!(rt; "write_imports: cannot read standard input: {why}");
                return Ok(());
            }
            Ok(0) => break,
            Ok(n) => reading.take(&buffer[..n])?,
        }
    }
    reading.end_line()
}

impl Reading {
    fn new(alloc: Global, show: bool) -> Self {
        Reading {
            show,
            line: Line::new(alloc),
            lines: 0,
            place: 0,
        }
    }

    // Bytes of the input: each line that ends in them is written, and what is left is held.
    fn take(&mut self, bytes: &[u8]) -> Result<(), Stop> {
        let mut parts = bytes.split(|&byte| byte == b'\n');
        if let Some(first) = parts.next() {
            self.line.extend(first)?;
        }
        for part in parts {
            self.end_line()?;
            self.line.extend(part)?;
        }
        Ok(())
    }

    fn end_line(&mut self) -> Result<(), Stop> {
        self.lines = self.lines.saturating_add(1);
        let written = match self.line.text() {
            Err(wrong) => {
                tell(self.show, self.lines, wrong.into(), self.line.bytes());
                Ok(0)
            }
            Ok(None) => Ok(0),
            Ok(Some(text)) => write_record(self.show, self.place, self.lines, text),
        };
        self.place = self.place.saturating_add(written?);
        self.line.clear();
        Ok(())
    }
}

// The record that a line says, written to standard output: how many bytes it has. What is no record is told.
fn write_record(show: bool, place: u32, number: u32, line: &[u8]) -> Result<u32, Stop> {
    let mut lengths = [0u32; 15];
    let mut ravel = [0u32; 16384];
    let mut bytes = [0u8; 65608];
    match write_line(line, &mut lengths, &mut ravel, &mut bytes) {
        Err(refused) => {
            tell(show, number, refused, line);
            Ok(0)
        }
        Ok(n) => {
            if !give(show, place, number, &bytes[..n]) {
                return Err(Stop::NotWritten);
            }
            Ok(n.min(0xffff_ffff) as u32)
        }
    }
}
