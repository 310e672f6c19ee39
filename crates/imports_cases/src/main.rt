// Reads the file of imports of standard input up to each place, and with each byte changed in four ways: its top bit turned
// over, 00, FF, and one more. A line of the output is what was read, how many records were found in it, and how the reading
// ended: at the end of the file, or at the first byte of what is no record. The file stdout has the lines that
// tools/imports_model.py gives.
#![tactic(auto)]

ghost use Rattle.std.specs.Prelude.{◌≡◌, ℕ, ◌<◌, length, Some};
ghost use Rattle.imports.specs.Parsing.{Advances};

use imports::parse::{Record, record_at};

const STDIN: i32 = 0;

const STDOUT: i32 = 1;

// How many records were read, and the place of what is no record, if there is such.
#[derive(Clone, Copy)]
struct Reading {
    records: usize,
    malformed: Option<usize>,
}

fn main() {
    let mut file = [0u8; 256];
    let n = io::read_full(STDIN, &mut file);
    cut(&file[..n]);
    change(&mut file[..n]);
}

fn cut(file: &[u8]) {
    for n in 0..file.len() {
        write_number(b"cut ", n);
        write_reading(read(&file[..n]));
    }
    write_number(b"cut ", file.len());
    write_reading(read(file));
}

fn change(file: &mut [u8]) {
    for place in 0..file.len() {
        change_byte(file, place);
    }
}

fn change_byte(file: &mut [u8], place: usize)
    requires { place < length file.old }
{
    let byte = file[place];
    for changed in [byte.wrapping_add(0x80), 0x00, 0xFF, byte.wrapping_add(1)] {
        read_with(file, place, changed);
    }
}

// The byte is put back afterwards.
fn read_with(file: &mut [u8], place: usize, byte: u8)
    requires { place < length file.old }
{
    let before = file[place];
    file[place] = byte;
    write_number(b"byte ", place);
    io::write_all(STDOUT, b" as ");
    io::print_hex(STDOUT, byte as u64, 2);
    write_reading(read(file));
    file[place] = before;
}

fn read(file: &[u8]) -> Reading {
    let mut lengths = [0u32; 15];
    let mut ravel = [0u32; 16384];
    read_all(file, &mut lengths, &mut ravel)
}

fn read_all(file: &[u8], lengths: &mut [u32], ravel: &mut [u32]) -> Reading
    requires { (length lengths.old ≡ 15) × (length ravel.old ≡ 16384) }
{
    let mut place = 0;
    let mut records = 0;
    while place < file.len() {
        let Some(record) = record_at(file, place, lengths, ravel) else {
            return Reading {
                records,
                malformed: Some(place),
            };
        };
        place = after(record);
        records += 1;
    }
    Reading {
        records,
        malformed: None,
    }
}

// The place after a record.
fn after(found: Record) -> usize
    ensures { (place : ℕ) → Advances place (Some found) → place < result }
{
    match found {
        Record::Load { next, .. } => next,
        Record::Run { next, .. } => next,
    }
}

fn write_reading(reading: Reading) {
    write_number(b" records ", reading.records);
    match reading.malformed {
        None => io::write_all(STDOUT, b" ends\n"),
        Some(place) => {
            write_number(b" malformed ", place);
            io::write_all(STDOUT, b"\n")
        }
    };
}

fn write_number(name: &[u8], n: usize) {
    io::write_all(STDOUT, name);
    io::print_decimal(STDOUT, n as u64);
}
