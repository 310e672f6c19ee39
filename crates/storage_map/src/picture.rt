// The picture: a heading with the counts, a strip of all blocks to scale, a legend, and a bar for each block. Strip and bars are
// drawn in words, and the picture's parts scale them.
ghost use Rattle.std.specs.Prelude.{◌^◌, ◌<◌};

use crate::blocks::{Block, Extent, Kind, MOST_BLOCKS, block_at, measure};
use crate::writing::write;
use line_tool::pen::Pen;
use segment::blocks::dummy;
use segment::state::blockptr;
use storage_sheet::Sheet;

// Was all of it written?
pub fn draw(fd: i32, seg: &[u32], sheet: Sheet) -> bool {
    let mut pen = Pen::new(fd);
    let extent = measure(seg);
    head(&mut pen, seg, extent);
    counts(&mut pen, sheet);
    strip(&mut pen, seg, sheet.total, extent.blocks);
    legend(&mut pen);
    bars(&mut pen, seg, extent);
    pen.text(b"</svg>\n");
    pen.flush()
}

fn head(pen: &mut Pen, seg: &[u32], extent: Extent) {
    let first = blockptr(seg).number();
    let last = dummy(seg).number() + 2;
    let height = 196 + height_of(extent.blocks);
    write(
        pen,
        b"<svg xmlns='http://www.w3.org/2000/svg' width='960' height='@' viewBox='0 0 960 @'>
<title>Array storage, words @ to @</title>
",
        &[height, height, first, last],
    );
    style(pen);
    write(
        pen,
        b"<rect class='paper' width='960' height='@'/>
<text class='heading' x='20' y='36'>Array storage, words @ to @</text>
",
        &[height, first, last],
    );
}

fn style(pen: &mut Pen) {
    pen.text(
        b"<style>
text { font: 13px sans-serif; fill: #222 }
.heading { font-size: 20px; font-weight: bold }
.address { text-anchor: end; fill: #555 }
rect { stroke: #777; stroke-width: 1; vector-effect: non-scaling-stroke }
.many rect { stroke: none; shape-rendering: crispEdges }
.paper { fill: #fff; stroke: none }
.frame { fill: none }
.cells1 { fill: #cfe3f5 }
.cells2 { fill: #8cbbe3 }
.cells3 { fill: #3d7fc1 }
.cells5 { fill: #123f75 }
.slop { fill: #f28e2b }
.free { fill: #fff }
.dummy { fill: #444 }
</style>
",
    );
}

fn counts(pen: &mut Pen, sheet: Sheet) {
    write(
        pen,
        b"<text x='20' y='62'>arrays @, slop @, free @, end @, total @</text>
",
        &[sheet.arrays, sheet.slop, sheet.free, sheet.end, sheet.total],
    );
}

// The edges of many blocks would hide what is between them.
fn strip(pen: &mut Pen, seg: &[u32], total: u32, blocks: u16) {
    if blocks < 200 {
        pen.text(b"<svg class='few'");
    } else {
        pen.text(b"<svg class='many'");
    }
    write(
        pen,
        b" x='20' y='78' width='920' height='34' viewBox='0 0 @ 1' preserveAspectRatio='none'>
",
        &[total],
    );
    each_block(Part::Strip, pen, seg);
    pen.text(
        b"</svg>
<rect class='frame' x='20' y='78' width='920' height='34'/>
",
    );
}

fn legend(pen: &mut Pen) {
    pen.text(
        b"<rect class='cells1' x='20' y='130' width='14' height='14'/><text x='40' y='142'>array, 1 cell</text>
<rect class='cells2' x='142' y='130' width='14' height='14'/><text x='162' y='142'>array, 2 cells</text>
<rect class='cells3' x='270' y='130' width='14' height='14'/><text x='290' y='142'>array, 3 or 4 cells</text>
<rect class='cells5' x='430' y='130' width='14' height='14'/><text x='450' y='142'>array, 5 or more cells</text>
<rect class='slop' x='612' y='130' width='14' height='14'/><text x='632' y='142'>slop</text>
<rect class='free' x='684' y='130' width='14' height='14'/><text x='704' y='142'>free</text>
<rect class='dummy' x='756' y='130' width='14' height='14'/><text x='776' y='142'>dummy</text>
",
    );
}

fn bars(pen: &mut Pen, seg: &[u32], extent: Extent) {
    let height = height_of(extent.blocks);
    write(
        pen,
        b"<svg x='72' y='166' width='560' height='@' viewBox='0 0 @ @' preserveAspectRatio='none' overflow='visible'>
",
        &[height, extent.longest, height],
    );
    each_block(Part::Bars, pen, seg);
    pen.text(b"</svg>\n");
    each_block(Part::Labels, pen, seg);
}

// A row is 22 high.
fn height_of(rows: u16) -> u32
    ensures { result < 2 ^ 21 }
{
    22 * rows as u32
}

// What is drawn of each block.
#[derive(Clone, Copy)]
enum Part {
    Strip,
    Bars,
    Labels,
}

fn each_block(part: Part, pen: &mut Pen, seg: &[u32]) {
    let first = blockptr(seg).number();
    let end = dummy(seg).number();
    let mut a = first;
    for row in 0..MOST_BLOCKS {
        if end < a {
            return;
        }
        let block = block_at(seg, a);
        draw_block(part, pen, block, a.saturating_sub(first) as u16, row);
        a += block.span();
    }
}

// A block of a row, so many words from the first.
fn draw_block(part: Part, pen: &mut Pen, block: Block, x: u16, row: u16) {
    match part {
        Part::Strip => pieces(pen, block, x, 0, 1),
        Part::Bars => pieces(pen, block, 0, height_of(row) + 3, 16),
        Part::Labels => label(pen, block, height_of(row) + 170),
    }
}

// The block, and its slop at its end.
fn pieces(pen: &mut Pen, block: Block, x: u16, y: u32, height: u32) {
    let start = x as u32;
    let size = block.size as u32;
    let slop = block.slop as u32;
    open_block(pen, block.kind);
    write(
        pen,
        b" x='@' y='@' width='@' height='@'/>\n",
        &[start, y, size, height],
    );
    if slop != 0 {
        write(
            pen,
            b"<rect class='slop' x='@' y='@' width='@' height='@'/>\n",
            &[start + size, y, slop, height],
        );
    }
}

fn open_block(pen: &mut Pen, kind: Kind) {
    match kind {
        Kind::Array(cells) => write(pen, b"<rect class='cells@'", &[shade(cells)]),
        Kind::Free => pen.text(b"<rect class='free'"),
        Kind::Dummy => pen.text(b"<rect class='dummy'"),
    }
}

// The least number of cells that has the same shade.
fn shade(cells: u16) -> u32 {
    match cells {
        0 | 1 => 1,
        2 => 2,
        3 | 4 => 3,
        _ => 5,
    }
}

// The address, the shade once more, since a short bar beside a long one is hardly seen, and what the block is.
fn label(pen: &mut Pen, block: Block, y: u32)
    requires { y < 2 ^ 22 }
{
    write(
        pen,
        b"<text class='address' x='62' y='@'>@</text>",
        &[y + 12, block.at],
    );
    open_block(pen, block.kind);
    write(
        pen,
        b" x='646' y='@' width='12' height='12'/><text x='666' y='@'>",
        &[y + 1, y + 12],
    );
    words(pen, block);
    pen.text(b"</text>\n");
}

fn words(pen: &mut Pen, block: Block) {
    let size = block.size as u32;
    match block.kind {
        Kind::Free => write(pen, b"free @ words", &[size]),
        Kind::Dummy => write(pen, b"dummy @ words", &[size]),
        Kind::Array(count) => {
            write(pen, b"array @ words, ", &[size]);
            slop(pen, block.slop);
            cells(pen, count);
        }
    }
}

fn slop(pen: &mut Pen, words: u8) {
    if words != 0 {
        write(pen, b"slop @, ", &[words as u32]);
    }
}

fn cells(pen: &mut Pen, count: u16) {
    if count == 1 {
        pen.text(b"1 cell");
    } else {
        write(pen, b"@ cells", &[count as u32]);
    }
}
