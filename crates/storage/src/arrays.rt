// Arrays placed, shared and dropped. A count says how many cells point to the array.
ghost use Rattle.std.specs.Prelude.{◌≡◌, ◌+◌, ◌^◌, ◌<◌, length};
ghost use Rattle.std.proofs.lemmas.List.Edits.{sets};
ghost use Rattle.segment.specs.State.{sbase};
ghost use Rattle.storage.specs.Arrays as arrays;
ghost use Rattle.storage.specs.Found.{found};

use super::release::release;
use super::request::request;
use descriptor::Descriptor;
use descriptor::address::{SegmentAddress, StackAddress};
use segment::{halves, low, put, put_all, word};

// A new array with this shape and these elements, pointed to by one cell; none where no free block is long enough.
pub fn place(seg: &mut [u32], shape: &[u32], elements: &[u32]) -> Option<SegmentAddress>
    ensures value { result ≡ found (arrays.place_at seg.old shape.now elements.now) }
    ensures seg_after { seg.new ≡ arrays.place seg.old shape.now elements.now }
{
    let block = request(seg, 2 + shape.len() + elements.len())?;
    fill(seg, block, shape, elements);
    Some(block)
}

// The block becomes an array of this shape and these elements.
fn fill(seg: &mut [u32], block: SegmentAddress, shape: &[u32], elements: &[u32])
    requires { length shape.now < 2 ^ 16 }
    ensures { seg.new ≡ arrays.fill seg.old block.0 shape.now elements.now }
{
    head(seg, block, shape);
    put_all(seg, block.index() + 2 + shape.len(), elements);
}

// Its count is 1; its rank and its lengths are those of the shape.
pub fn head(seg: &mut [u32], block: SegmentAddress, shape: &[u32])
    requires { length shape.now < 2 ^ 16 }
    ensures { seg.new ≡ arrays.head seg.old block.0 shape.now }
{
    let at = block.index();
    put(seg, at + 1, halves(1, shape.len() as u16));
    put_each(seg, at + 2, shape);
}

// The words from `at` up are those of a short list: one by one they take less than a copy.
fn put_each(seg: &mut [u32], at: usize, words: &[u32])
    requires { (at < 2 ^ 33) × (length words.now < 2 ^ 16) }
    ensures { seg.new ≡ sets seg.old at words.now }
{
    for (i, w) in words.iter().enumerate() {
        put(seg, at + i, *w);
    }
}

// One cell more holds the word w.
pub fn share(seg: &mut [u32], w: u32)
    ensures { seg.new ≡ arrays.share seg.old w }
{
    if Descriptor::of(w).is_array() {
        raise(seg, low(w));
    }
}

// One cell less holds the word w: an array that no cell points to is released.
pub fn drop_word(seg: &mut [u32], w: u32)
    ensures { seg.new ≡ arrays.drop_word seg.old w }
{
    if Descriptor::of(w).is_array() {
        lower(seg, low(w));
    }
}

// The n cells of the stack from `from` up are dropped, the highest first.
pub fn drop_cells(seg: &mut [u32], from: StackAddress, n: u32)
    ensures { seg.new ≡ arrays.drop_words n seg.old (sbase seg.old + from.0) }
{
    let start = from.index(segment::state::sbase(seg));
    drop_words(seg, start, n);
}

// The same from a word of the segment.
pub fn drop_from(seg: &mut [u32], start: SegmentAddress, n: u32)
    ensures { seg.new ≡ arrays.drop_words n seg.old start.0 }
{
    drop_words(seg, start.index(), n);
}

fn drop_words(seg: &mut [u32], start: usize, n: u32)
    requires { start < 2 ^ 33 }
    ensures { seg.new ≡ arrays.drop_words n seg.old start }
{
    for i in (0..n).rev() {
        let w = word(seg, start + i as usize);
        drop_word(seg, w);
    }
}

fn raise(seg: &mut [u32], a: u16)
    ensures { seg.new ≡ arrays.raise seg.old a }
{
    let i = a as usize + 1;
    let w = word(seg, i);
    put(seg, i, w.wrapping_add(0x1_0000));
}

fn lower(seg: &mut [u32], a: u16)
    ensures { seg.new ≡ arrays.lower seg.old a }
{
    let i = a as usize + 1;
    let w = word(seg, i);
    if w / 0x1_0000 == 1 {
        release(seg, SegmentAddress::of(a as u32));
    } else {
        put(seg, i, w.saturating_sub(0x1_0000));
    }
}
