// The layout of a data segment in a lent slice of words: the state words, the stack and its frames, the blocks of array
// storage. Access is total: a read past the end is 0, and a write there does nothing.
#![tactic(auto)]

ghost use Rattle.std.specs.Prelude.{◌≡◌, ◌+◌, ◌*◌, ◌^◌, ◌≤◌, get_or, set, length};
ghost use Rattle.std.proofs.lemmas.List.Edits.{sets};
ghost use Rattle.segment.specs.State as fields;
ghost use Rattle.segment.specs.Blocks.{part};

pub mod blocks;
pub mod stack;
pub mod state;

pub fn word(seg: &[u32], i: usize) -> u32
    ensures { result ≡ get_or seg.now i 0 }
{
    seg.get(i).copied().unwrap_or(0)
}

pub fn put(seg: &mut [u32], i: usize, v: u32)
    ensures { seg.new ≡ set seg.old i v }
{
    if i < seg.len() {
        seg[i] = v;
    }
}

// The words from i up are those of `words` from now on.
pub fn put_all(seg: &mut [u32], i: usize, words: &[u32])
    ensures { seg.new ≡ sets seg.old i words.now }
{
    if seg.len() <= i {
        return;
    }
    let n = words.len().min(seg.len() - i);
    copy(&words[..n], &mut seg[i..i + n]);
}

// A loop, since the library's own copies ask a C program for memmove.
pub fn copy(from: &[u32], to: &mut [u32])
    requires { length from.now ≡ length to.old }
    ensures { to.new ≡ from.now }
{
    for (i, word) in to.iter_mut().enumerate() {
        *word = from[i];
    }
}

// The n words from `from` up are copied to those from `to` up. Where both runs share words, each is read before it is written over.
pub fn copy_part(seg: &mut [u32], from: usize, to: usize, n: usize)
    requires { (from + n ≤ length seg.old) × (to + n ≤ length seg.old) }
    ensures { seg.new ≡ sets seg.old to (part seg.old from n) }
{
    if from + n <= to {
        let (low, high) = seg.split_at_mut(to);
        copy(&low[from..from + n], &mut high[..n]);
    } else if to + n <= from {
        let (low, high) = seg.split_at_mut(from);
        copy(&high[..n], &mut low[to..to + n]);
    } else if to < from {
        for i in 0..n {
            seg[to + i] = seg[from + i];
        }
    } else {
        for i in (0..n).rev() {
            seg[to + i] = seg[from + i];
        }
    }
}

// The halves of a word, and the word of two halves.
pub fn high(w: u32) -> u16
    ensures { result ≡ fields.high w }
{
    (w / 0x1_0000) as u16
}

pub fn low(w: u32) -> u16
    ensures { result ≡ fields.low w }
{
    (w % 0x1_0000) as u16
}

pub fn halves(high: u16, low: u16) -> u32
    ensures { result ≡ high * 2 ^ 16 + low }
{
    high as u32 * 0x1_0000 + low as u32
}
