// The most that a segment may have. Each buffer is made by a function: where a long array is made, the check takes as long as it is.

// The words of a data segment.
pub fn words() -> [u32; 16384] {
    [0u32; 16384]
}

// The bytes of a procedure segment.
pub fn procedure() -> [u8; 32768] {
    [0u8; 32768]
}
