// Test 17: every cell by its kind, and an indirect word by its target, each in constant time by tables of marks. On the way
// each cell that points to an array is one mark more at the array's start, which test 18 holds against the array's count.
ghost use Rattle.std.specs.Prelude.{◌≡◌, true, ℕ, ◌+◌, ◌-◌, ◌≤◌, ◌<◌, get_or, length, leb};
ghost use Rattle.segment.specs.View.{owners};
ghost use Rattle.acceptance_storage.specs.Tests.{every};
ghost use Rattle.acceptance.specs.Cells.{in_table, is_indirect, direct, pointing, plain_cell, free_cell, range, cells_test};
ghost use Rattle.acceptance.specs.Tables.{Gains, CanRise, raised_at, meet, Met, stack_test, cells_of_frame, cells_of_stack, frame_test};
ghost use Rattle.acceptance.specs.Before.{BeforeCells, BeforeStack, BeforeFrame};

use super::frames::frame_at;
use super::variables::{mark_variables, unmark};
use acceptance_storage::marks::mark_at;
use descriptor::Descriptor;
use descriptor::address::{SegmentAddress, StackAddress};
use segment::stack::{cell, global};
use segment::state::{blockptr, lbase, ltop, sbase};

// Test 17, where `arrays` has a mark at each array and `marks` is clear.
pub fn cells_test(
    seg: &[u32],
    regular: &[u8],
    alternate: &[u8],
    arrays: &mut [u16],
    marks: &mut [u16],
) -> bool
    requires { BeforeCells seg.now regular.now alternate.now arrays.old marks.old }
    ensures value { result ≡ cells_test seg.now regular.now alternate.now }
    ensures met { result ≡ true → Met arrays.old arrays.new (owners seg.now) }
{
    let end = blockptr(seg).index();
    if !plain_cells(&seg[8..end], arrays) {
        return false;
    }
    let base = lbase(seg);
    mark_variables(seg, regular, alternate, base, marks);
    let top = ltop(seg).number() + 1;
    cells_from(seg, regular, alternate, base.number(), top, arrays, marks)
}

// The cells of the frames from the one at `from` down, where the variables of all these frames are marked.
fn cells_from(
    seg: &[u32],
    regular: &[u8],
    alternate: &[u8],
    from: u32,
    upto: u32,
    arrays: &mut [u16],
    marks: &mut [u16],
) -> bool
    requires { BeforeStack seg.now regular.now alternate.now arrays.old marks.old from upto }
    ensures value { result ≡ stack_test seg.now regular.now alternate.now (in_table arrays.old) from upto }
    ensures met { result ≡ true → Met arrays.old arrays.new (cells_of_stack seg.now from upto) }
{
    let mut base = from;
    let mut top = upto;
    'frames: for _ in 0..seg.len() {
        let frame = frame_at(seg, regular, alternate, StackAddress::of(base));
        let last = frame.last.number();
        let start = base - frame.variables;
        if !frame_cells(seg, frame.arguments as u32, start, base, top, arrays, marks) {
            return false;
        }
        if base <= last {
            return true;
        }
        top = start;
        base = last;
    }
    false
}

// The cells of one frame: its temporaries, which may name its own variables; then, with the marks of these taken away, its
// arguments, and its locals.
fn frame_cells(
    seg: &[u32],
    arguments: u32,
    start: u32,
    base: u32,
    top: u32,
    arrays: &mut [u16],
    marks: &mut [u16],
) -> bool
    requires { BeforeFrame seg.now arrays.old marks.old arguments start base top }
    ensures value { result ≡ frame_test seg.now arrays.old marks.old arguments start base top }
    ensures gains { result ≡ true → Gains marks.new marks.old (range start (base - start)) }
    ensures met { result ≡ true → Met arrays.old arrays.new (cells_of_frame seg.now start base top) }
    ensures can_rise { result ≡ true → CanRise arrays.new start }
{
    let stack = sbase(seg).index();
    let first = stack + start as usize;
    let locals = first + arguments as usize;
    let frame = stack + base as usize;
    let temporaries = frame + 2;
    let end = stack + top as usize;
    if !free_cells(seg, &seg[temporaries..end], marks, arrays) {
        return false;
    }
    unmark(marks, StackAddress::of(start), StackAddress::of(base));
    if !free_cells(seg, &seg[first..locals], marks, arrays) {
        return false;
    }
    plain_cells(&seg[locals..frame], arrays)
}

// Cells of globals or locals.
fn plain_cells(cells: &[u32], arrays: &mut [u16]) -> bool
    requires { CanRise arrays.old (length cells.now) }
    ensures value { result ≡ every (plain_cell (in_table arrays.old)) cells.now }
    ensures met { result ≡ true → Met arrays.old arrays.new cells.now }
    ensures x_bound { result ≡ true → (x : ℕ) → get_or arrays.new x 0 ≤ get_or arrays.old x 0 + length cells.now }
{
    for &w in cells {
        if !is_direct(w, arrays) {
            return false;
        }
    }
    true
}

// The same of arguments or temporaries.
fn free_cells(seg: &[u32], cells: &[u32], variables: &[u16], arrays: &mut [u16]) -> bool
    requires { CanRise arrays.old (length cells.now) }
    ensures value { result ≡ every (free_cell seg.now (in_table arrays.old) (in_table variables.now)) cells.now }
    ensures met { result ≡ true → Met arrays.old arrays.new cells.now }
    ensures x_bound { result ≡ true → (x : ℕ) → get_or arrays.new x 0 ≤ get_or arrays.old x 0 + length cells.now }
{
    for &w in cells {
        if !is_proper(seg, w, variables, arrays) {
            return false;
        }
    }
    true
}

#[tactic(auto, unfolding(crate::specs::Cells::free_cell))]
fn is_proper(seg: &[u32], w: u32, variables: &[u16], arrays: &mut [u16]) -> bool
    requires { (x : ℕ) → get_or arrays.old x 0 < 65535 }
    ensures value { result ≡ free_cell seg.now (in_table arrays.old) (in_table variables.now) w }
    ensures arrays_after { arrays.new ≡ meet arrays.old w }
{
    is_direct(w, arrays) || is_pointing(seg, variables, w)
}

// A scalar, undefined, or the word of an array, which is met. Most cells are integers that are not negative.
fn is_direct(w: u32, arrays: &mut [u16]) -> bool
    requires { (x : ℕ) → get_or arrays.old x 0 < 65535 }
    ensures value { result ≡ direct (in_table arrays.old) w }
    ensures arrays_after { arrays.new ≡ meet arrays.old w }
{
    if w <= Descriptor::INTEGER_LIMIT {
        return true;
    }
    if w / 0x1_0000 == Descriptor::TYPE_ARRAY * 0x100 {
        return raise_marked(arrays, (w % 0x1_0000) as usize);
    }
    if w == Descriptor::UNDEFINED {
        return true;
    }
    Descriptor::of(w).is_scalar()
}

// One mark more at an address, if it has one.
fn raise_marked(table: &mut [u16], a: usize) -> bool
    requires { get_or table.old a 0 < 65535 }
    ensures value { result ≡ leb 1 (get_or table.old a 0) }
    ensures table_after { table.new ≡ raised_at table.old a }
{
    if table.len() <= a || table[a] < 1 {
        return false;
    }
    table[a] += 1;
    true
}
// An indirect word whose target is a global or a variable, and holds no indirect word.
#[tactic(auto, unfolding(crate::specs::Cells::pointing))]
fn is_pointing(seg: &[u32], variables: &[u16], w: u32) -> bool
    ensures { result ≡ pointing seg.now (in_table variables.now) w }
{
    if !is_indirect(w) {
        return false;
    }
    let target = w % 0x1_0000;
    if w / 0x1_0000 % 2 == 1 {
        return 8 <= target
            && target < blockptr(seg).number()
            && !is_indirect(global(seg, SegmentAddress::of(target)));
    }
    1 <= mark_at(variables, target as usize) && !is_indirect(cell(seg, StackAddress::of(target)))
}

fn is_indirect(w: u32) -> bool
    ensures { result ≡ is_indirect w }
{
    w / 0x2_0000 == 0x180
}
