// What a call is lent: parts of the program's arrays, and bytes of a table.
#[derive(Clone, Copy)]
pub struct Procedures<'a> {
    pub regular: &'a [u8],
    pub alternate: &'a [u8],
}

// As many bytes as are asked for, if there are so many.
pub fn first_bytes(bytes: &[u8], n: usize) -> &[u8] {
    bytes.get(..n).unwrap_or(bytes)
}

// The words from `start` to `end`, or none where they are not all there.
pub fn part(words: &[u32], start: usize, end: usize) -> &[u32] {
    words.get(start..end).unwrap_or(&[])
}

// Numbers below 256, as many as there is room for.
pub fn put_bytes(bytes: &mut [u8], numbers: &[u32]) {
    for (byte, number) in bytes.iter_mut().zip(numbers) {
        *byte = (number % 0x100) as u8;
    }
}
