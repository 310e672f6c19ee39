// Runs a script of arrays placed, shared and dropped in 72 words of array storage with 16 cells, and writes the walk after
// each step. A step is a line of 8 bytes: a letter and two numbers of two digits.
//
//     v 03 05    cell 3 becomes a new vector of 5 elements; m: a matrix of 5 rows and 2 columns
//     s 03 05    cell 5 becomes the array of cell 3
//     d 03 05    the 5 cells from cell 3 up are dropped, and become undefined
//
// A line of the output is the step, where its array lies (0: none, or full), ROVER, and each block with its address, and ^
// for PREVFREE: a free block as f SIZE > NEXT < LAST, an array as a SIZE + SLOP # count = sum of its shape and elements, the
// dummy as d > NEXT < LAST.
#![tactic(auto)]

ghost use Rattle.std.specs.Prelude.{◌≡◌, ◌+◌, ◌^◌, ◌<◌, ◌≤◌, length};

use descriptor::Descriptor;
use descriptor::address::{SegmentAddress, StackAddress};
use line_tool::pen::Pen;
use line_tool::streams::{STDIN, STDOUT};

const STEP: usize = 8;

fn main() {
    let mut script = io::large_buffer();
    let n = io::read_full(STDIN, &mut script);
    let mut seg = [0u32; 96];
    lay_out(&mut seg);
    let mut pen = Pen::new(STDOUT);
    run(&mut pen, &mut seg, &script[..n]);
}

// BLOCKPTR 8, SBASE 80: one free block of 69 words and the dummy at 77. LTOP 15; the cells are undefined.
fn lay_out(seg: &mut [u32]) {
    segment::put_all(seg, 0, &[0x0050_000F, 0x0000_0008, 0, 0, 8]);
    segment::put_all(seg, 8, &[0x8000_0045, 0x004D_004D]);
    segment::put_all(seg, 76, &[0x0000_0045, 0x4000_0000, 0x0008_0008]);
    clear_cells(seg, 0, 16);
}

fn run(pen: &mut Pen, seg: &mut [u32], script: &[u8]) {
    for (i, line) in script.chunks_exact(STEP).enumerate() {
        step(pen, seg, line, (i % 0x2000 * STEP) as u32);
    }
}

fn step(pen: &mut Pen, seg: &mut [u32], line: &[u8], value: u32)
    requires { length line.now ≡ 8 }
{
    let a = number(line[2], line[3]);
    let b = number(line[5], line[6]);
    let at = act(seg, line[0], a, b, value);
    pen.text(&line[0..7]);
    write_number(pen, b" at ", at);
    write_number(pen, b" rover ", segment::state::rover(seg).number());
    write_walk(pen, seg);
    pen.end_line();
}

fn number(tens: u8, ones: u8) -> u32
    ensures { result ≤ 99 }
{
    digit(tens) * 10 + digit(ones)
}

fn digit(b: u8) -> u32
    ensures { result ≤ 9 }
{
    match b {
        b'0'..=b'9' => (b - b'0') as u32,
        _ => 0,
    }
}

// What the step does; where its array lies.
fn act(seg: &mut [u32], letter: u8, a: u32, b: u32, value: u32) -> u32
    requires { (a ≤ 99) × (b ≤ 99) }
{
    match letter {
        b'v' => place(seg, a, &[b], b as usize, value),
        b'm' => place(seg, a, &[b, 2], b as usize * 2, value),
        b's' => {
            let w = segment::stack::cell(seg, StackAddress::of(a));
            storage::share(seg, w);
            assign(seg, b, w);
            w % 0x1_0000
        }
        _ => {
            storage::drop_cells(seg, StackAddress::of(a), b);
            clear_cells(seg, a, b);
            0
        }
    }
}

// The cell becomes a new array, whose elements are all `value`.
fn place(seg: &mut [u32], cell: u32, shape: &[u32], n: usize, value: u32) -> u32
    requires { n ≤ 198 }
{
    let elements = [value; 198];
    let Some(block) = storage::place(seg, shape, &elements[..n]) else {
        return 0;
    };
    let at = block.number() % 0x1_0000;
    assign(seg, cell, Descriptor::TYPE_ARRAY * 0x100_0000 + at);
    at
}

// The old value goes last.
fn assign(seg: &mut [u32], cell: u32, w: u32) {
    let old = segment::stack::cell(seg, StackAddress::of(cell));
    segment::stack::set_cell(seg, StackAddress::of(cell), w);
    storage::drop_word(seg, old);
}

fn clear_cells(seg: &mut [u32], from: u32, n: u32)
    requires { from + n < 2 ^ 32 }
{
    for cell in from..from + n {
        segment::stack::set_cell(seg, StackAddress::of(cell), Descriptor::UNDEFINED);
    }
}

fn write_walk(pen: &mut Pen, seg: &[u32]) {
    let mut block = segment::state::blockptr(seg);
    let end = segment::blocks::dummy(seg);
    for _ in 0..seg.len() {
        if end <= block {
            break;
        }
        write_block(pen, seg, block);
        block = SegmentAddress::of(block.number() + segment::blocks::span_at(seg, block));
    }
    write_address(pen, seg, end);
    write_links(pen, b"d", seg, end);
}

fn write_block(pen: &mut Pen, seg: &[u32], block: SegmentAddress) {
    write_address(pen, seg, block);
    let size = segment::blocks::size_at(seg, block) as u32;
    if segment::blocks::free_at(seg, block) {
        write_number(pen, b"f", size);
        write_links(pen, b"", seg, block);
        return;
    }
    write_number(pen, b"a", size);
    write_number(pen, b"+", segment::blocks::slop_at(seg, block));
    write_array(pen, seg, block);
}

fn write_address(pen: &mut Pen, seg: &[u32], block: SegmentAddress) {
    write_number(pen, b" ", block.number());
    if segment::blocks::prev_free_at(seg, block) {
        pen.text(b"^");
    }
}

fn write_links(pen: &mut Pen, name: &[u8], seg: &[u32], block: SegmentAddress) {
    pen.text(name);
    write_number(pen, b">", segment::blocks::next_at(seg, block).number());
    write_number(pen, b"<", segment::blocks::last_at(seg, block).number());
}

fn write_array(pen: &mut Pen, seg: &[u32], block: SegmentAddress) {
    write_number(pen, b"#", segment::blocks::count(seg, block) as u32);
    let lengths = sum(segment::blocks::shape(seg, block));
    let all = lengths.wrapping_add(sum(segment::blocks::elements(seg, block)));
    write_number(pen, b"=", all);
}

fn sum(words: &[u32]) -> u32 {
    words.iter().fold(0, |total: u32, w| total.wrapping_add(*w))
}

fn write_number(pen: &mut Pen, name: &[u8], n: u32) {
    pen.text(name);
    pen.decimal(n);
}
