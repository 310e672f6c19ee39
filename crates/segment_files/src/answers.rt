// Answers on standard output, each in one write.
use line_tool::streams::{STDERR, STDOUT};
use line_tool::writing::{put, put_decimal};

// A line: a word with a blank, and a number.
pub fn put_count(out: &mut [u8], at: usize, name: &[u8], n: u32) -> usize {
    let a = put(out, at, name);
    let b = put_decimal(out, a, n);
    put(out, b, b"\n")
}

// Writes the first n bytes. Where they are not taken, standard error has what failed.
pub fn give(out: &[u8], n: usize, what: &[u8]) -> bool {
    if out.len() < n {
        return false;
    }
    let done = io::write_all(STDOUT, &out[0..n]);
    if !done {
        tell(what);
    }
    done
}

// A line on standard error.
pub fn tell(what: &[u8]) {
    io::write_all(STDERR, what);
    io::write_all(STDERR, b"\n");
}
