// The answer to one call.
use line_tool::tables::line;
use operations::Refusal;
use segment_files::answers::{give, put_count};
use segment_files::buffers;
use segment_files::files::read_words;
use segment_files::sheet::sheet_of;
use std::rt::Files;
use storage_sheet::Sheet;

// Answers the three lines of a text. Did standard output take the answer?
pub fn answer(rt: &impl Files, text: &[u8]) -> bool {
    let mut words = buffers::words();
    let n = read_words(rt, line(text, 0), &mut words);
    let mut out = io::buffer();
    let end = put_answer(&mut out, sheet_of(rt, &words[0..n], text));
    give(&out, end, b"sheet: cannot write the answer")
}

fn put_answer(out: &mut [u8], sheeted: Result<Sheet, Refusal>) -> usize {
    match sheeted {
        Ok(sheet) => put_sheet(out, sheet),
        Err(refusal) => put_count(out, 0, b"refused ", refusal.number() as u32),
    }
}

fn put_sheet(out: &mut [u8], sheet: Sheet) -> usize {
    let a = put_count(out, 0, b"arrays ", sheet.arrays);
    let b = put_count(out, a, b"slop ", sheet.slop);
    let c = put_count(out, b, b"free ", sheet.free);
    let d = put_count(out, c, b"end ", sheet.end);
    put_count(out, d, b"total ", sheet.total)
}
