// The variables that addresses in the code name: where they stand in the segment.
ghost use Rattle.std.specs.Prelude.{◌≡◌, ◌+◌, ◌*◌, ◌≤◌, ◌^◌};
ghost use Rattle.descriptor.specs.Kinds.{segment};
ghost use Rattle.descriptor.specs.declared.Target.TheVariants as T;
ghost use Rattle.instruction.specs.Reading.{cursor_at};
ghost use Rattle.instruction.specs.Variables.{address_in};
ghost use Rattle.effects.specs.Seen.{seen};
ghost use Rattle.fast_path.specs.Naming.{local_of, Stands, Names};

use descriptor::address::StackAddress;
use instruction::family::Family;
use segment::state::{blockptr, lbase, sbase};

// The variable whose address begins with `first`, of that family, and has its second byte, if any, at `at`; 0 where it names none.
pub fn variable(
    seg: &[u32],
    variables: u32,
    code: &[u8],
    first: u8,
    family: Family,
    at: usize,
) -> usize
    ensures { (result ≡ 0 → ⊥) → Names seg.now variables (address_in code.now (cursor_at at) first family) result }
{
    if let Family::ShortLocal = family {
        return local(seg, variables, 64 - first as u32 % 64);
    }
    long(seg, variables, code, first, family, at)
}

// The same, by an address of two bytes alone.
pub fn long(seg: &[u32], variables: u32, code: &[u8], first: u8, family: Family, at: usize) -> usize
    ensures { (result ≡ 0 → ⊥) → Names seg.now variables (address_in code.now (cursor_at at) first family) result }
{
    if code.len() <= at {
        return 0;
    }
    match family {
        Family::LongLocal => local(seg, variables, 4096 - half(first, code[at]) as u32 % 0x1000),
        Family::LongGlobal => global(seg, half(first, code[at]) as u32 % 0x1000),
        _ => 0,
    }
}

// The local so many words below LBASE, of a frame with that many variables; 0 where it is none of them.
pub fn local(seg: &[u32], variables: u32, v: u32) -> usize
    requires { 1 ≤ v }
    ensures { (result ≡ 0 → ⊥) → Stands seg.now ((seen seg.now).local variables v) (local_of seg.now v) result }
{
    if variables < v {
        return 0;
    }
    StackAddress::of(lbase(seg).number().saturating_sub(v)).index(sbase(seg))
}

fn global(seg: &[u32], g: u32) -> usize
    ensures { (result ≡ 0 → ⊥) → Stands seg.now ((seen seg.now).global g) (T.Global (segment g)) result }
{
    if g < 8 {
        return 0;
    }
    if blockptr(seg).number() <= g {
        return 0;
    }
    g as usize
}

// Two bytes of code, the high one first.
pub fn half(high: u8, low: u8) -> u16
    ensures { result ≡ high * 2 ^ 8 + low }
{
    high as u16 * 0x100 + low as u16
}
