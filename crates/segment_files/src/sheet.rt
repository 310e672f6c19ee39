// The sheet of a data segment, with the procedure segments that a text names.
use crate::buffers;
use crate::files::read_bytes;
use line_tool::tables::line;
use operations::Refusal;
use std::rt::Files;
use storage_sheet::Sheet;

// The procedure segments stand in the files that lines 1 and 2 name, line 0 being the first.
pub fn sheet_of(rt: &impl Files, seg: &[u32], text: &[u8]) -> Result<Sheet, Refusal> {
    let mut regular = buffers::procedure();
    let mut alternate = buffers::procedure();
    let r = read_bytes(rt, line(text, 1), &mut regular);
    let a = read_bytes(rt, line(text, 2), &mut alternate);
    engine::sheet::sheet(seg, &regular[0..r], &alternate[0..a])
}
