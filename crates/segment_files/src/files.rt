// Segments read from files. A file that cannot be read, is too long or is not whole words counts as empty.
ghost use Rattle.std.specs.Prelude.{◌≤◌, length};

use procedure::bytes::word_at;
use std::fs::File;
use std::io::Read;
use std::rt::Files;

// The file's words, which stand in it with the high byte first: how many were put at the front of `words`.
pub fn read_words(rt: &impl Files, name: &[u8], words: &mut [u32]) -> usize
    ensures { result ≤ length words.new }
{
    let mut bytes = io::large_buffer();
    let n = read_bytes(rt, name, &mut bytes);
    put_words(&bytes[0..n], words)
}

fn put_words(bytes: &[u8], words: &mut [u32]) -> usize
    requires { length bytes.now ≤ 65536 }
    ensures { result ≤ length words.new }
{
    let n = bytes.len() / 4;
    if words.len() < n {
        return 0;
    }
    for (i, word) in words[..n].iter_mut().enumerate() {
        *word = word_at(bytes, (4 * i) as u32);
    }
    n
}

// The file's bytes: how many were put at the front of the buffer, which has room for all that are allowed.
pub fn read_bytes(rt: &impl Files, name: &[u8], buffer: &mut [u8]) -> usize
    ensures { result ≤ length buffer.new }
{
    let Some(mut file) = open_read(rt, name) else {
        return 0;
    };
    let n = read_whole(&mut file, buffer);
    if n % 4 != 0 {
        return 0;
    }
    n
}

// The file of this name, if it can be opened. The library names files by text alone: bytes that are no text name none.
pub fn open_read<R: Files>(rt: &R, name: &[u8]) -> Option<R::File> {
    let Ok(path) = str::from_utf8(name) else {
        return None;
    };
    File::open(rt, path).ok()
}

// A file that fills the buffer must end there.
fn read_whole(from: &mut impl Read, buffer: &mut [u8]) -> usize
    ensures { result ≤ length buffer.new }
{
    let n = read_part(from, buffer);
    if n < buffer.len() {
        return n;
    }
    let mut more = [0u8; 1];
    match from.read(&mut more) {
        Ok(0) => n,
        _ => 0,
    }
}

// Reads until the buffer is full or the file ends, and answers how many bytes were read: none where a read fails, since a part
// would be taken for the whole.
pub fn read_part(from: &mut impl Read, buffer: &mut [u8]) -> usize
    ensures { result ≤ length buffer.new }
{
    let mut n = 0;
    while n < buffer.len() {
        let Ok(more) = from.read(&mut buffer[n..]) else {
            return 0;
        };
        if more == 0 {
            return n;
        }
        n += more;
    }
    n
}
