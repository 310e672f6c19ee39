// Array storage for a Rust or C program to link: what bench/storage drives. A block's address, or 0 where none is found.
use descriptor::address::SegmentAddress;

fn flat(block: Option<SegmentAddress>) -> u32 {
    block.map_or(0, |block| block.number())
}

#[unsafe(no_mangle)]
pub extern "C" fn storage_request(seg: &mut [u32], size: usize) -> u32 {
    flat(storage::request::request(seg, size))
}

#[unsafe(no_mangle)]
pub extern "C" fn storage_place(seg: &mut [u32], shape: &[u32], elements: &[u32]) -> u32 {
    flat(storage::place(seg, shape, elements))
}

#[unsafe(no_mangle)]
pub extern "C" fn storage_share(seg: &mut [u32], w: u32) {
    storage::share(seg, w);
}

#[unsafe(no_mangle)]
pub extern "C" fn storage_drop(seg: &mut [u32], w: u32) {
    storage::drop_word(seg, w);
}
