// The words of a fresh data segment.
ghost use Rattle.std.specs.Prelude.{◌≡◌, ◌+◌, ◌≤◌, eqb, length, replicate};
ghost use Rattle.std.proofs.lemmas.List.Edits.{sets};
ghost use Rattle.descriptor.specs.Fields.{undefined_word};
ghost use Rattle.manual.specs.Control.{frame_word};
ghost use Rattle.fresh_segment.specs.LayOut as meaning;

use descriptor::Descriptor;
use segment::put;

pub fn write_fresh(
    seg: &mut [u32],
    selector: u32,
    function: u32,
    globals: u32,
    storage: u32,
    locals: u32,
)
    requires selector_bound { (selector ≤ 1) × (function ≤ 2047) × (6 ≤ storage) }
    requires locals_in_bounds { (8 + globals + storage + locals + 2 ≤ length seg.old) × (length seg.old ≤ 16384) }
    ensures { seg.new ≡ meaning.fresh (length seg.old) locals (frame_word (eqb selector 1) function)
        (meaning.layout selector function globals storage) }
{
    let start = 8 + globals;
    let base = start + storage;
    let word = selector * 0x0800_0000 + function * 0x1_0000 + 8;
    seg.fill(0);
    write_head(seg, start, base, locals);
    undefine(seg, 8, globals);
    write_storage(seg, start, storage);
    write_frame(seg, base, locals, word);
}

fn write_head(seg: &mut [u32], start: u32, base: u32, locals: u32)
    requires { (start ≤ 16384) × (base ≤ 16384) × (locals ≤ 16384) }
    ensures { seg.new ≡ meaning.fresh_head seg.old start base locals }
{
    put(seg, 0, base * 0x1_0000 + (locals + 1));
    put(seg, 1, locals * 0x1_0000 + start);
    put(seg, 4, start);
}

fn write_storage(seg: &mut [u32], start: u32, n: u32)
    requires { (6 ≤ n) × (start + n ≤ 16384) }
    ensures { seg.new ≡ meaning.fresh_storage seg.old start n }
{
    let dummy = start + n - 3;
    put(seg, start as usize, 0x8000_0000 + (n - 3));
    put(seg, start as usize + 1, dummy * 0x1_0000 + dummy);
    put(seg, dummy as usize - 1, n - 3);
    put(seg, dummy as usize, 0x4000_0000);
    put(seg, dummy as usize + 1, start * 0x1_0000 + start);
}

fn write_frame(seg: &mut [u32], base: u32, locals: u32, word: u32)
    requires { (base + locals + 2 ≤ length seg.old) × (length seg.old ≤ 16384) }
    ensures { seg.new ≡ meaning.fresh_frame seg.old base locals word }
{
    let end = (base + locals) as usize;
    undefine(seg, base, locals);
    put(seg, end, locals);
    put(seg, end + 1, word);
}

// The n cells from `start` up hold nothing.
fn undefine(seg: &mut [u32], start: u32, n: u32)
    requires { start + n ≤ length seg.old }
    ensures { seg.new ≡ sets seg.old start (replicate n undefined_word) }
{
    let from = start as usize;
    let end = from + n as usize;
    seg[from..end].fill(Descriptor::UNDEFINED);
}
