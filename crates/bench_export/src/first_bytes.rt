// Sorting one first byte, by itself, so that its object code can be looked at (tools/constants).
use instruction::family::family_of;
use instruction::length::length_in;

#[unsafe(no_mangle)]
pub extern "C" fn first_byte_family(first: u8) -> usize {
    family_of(first).order()
}

// 0 where the first byte fixes no length.
#[unsafe(no_mangle)]
pub extern "C" fn first_byte_length(first: u8) -> u8 {
    length_in(family_of(first), first % 32).bytes()
}
