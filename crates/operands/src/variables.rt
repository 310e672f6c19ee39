// The variable that an address leads to, with one indirection.
ghost use Rattle.std.specs.Prelude.{◌≡◌};
ghost use Rattle.manual.specs.Seen.{variables_of};
ghost use Rattle.effects.specs.Sources as sources;
ghost use Rattle.operands.specs.Variables as meaning;

use descriptor::address::{SegmentAddress, StackAddress};
use descriptor::{Descriptor, Kind, Target};
use instruction::Address;
use procedure::header::Header;
use segment::state::{blockptr, lbase, sbase};
use segment::word;
use trap::Trap;

// A variable, and the word that it holds.
#[derive(Clone, Copy)]
pub struct Variable {
    pub target: Target,
    pub held: u32,
}

// How many variables a function's frame has.
pub fn variables(h: Header) -> u32
    ensures { result ≡ variables_of h }
{
    h.nargs as u32 + h.nlocals as u32
}

pub fn resolve(seg: &[u32], variables: u32, address: Address) -> Result<Variable, Trap>
    ensures value { result ≡ meaning.resolved seg.now variables address }
    ensures sure { meaning.Sure seg.now result }
{
    match address {
        Address::Local(v) => resolve_local(seg, variables, v),
        Address::Global(g) => resolve_global(seg, g),
    }
}

fn resolve_local(seg: &[u32], variables: u32, v: u32) -> Result<Variable, Trap>
    ensures { result ≡ meaning.resolved_local seg.now variables v }
{
    if v < 1 || variables < v {
        return Err(Trap::STACK_ADDRESS);
    }
    follow(
        seg,
        Target::Local(StackAddress::of(lbase(seg).number().saturating_sub(v))),
    )
}

fn resolve_global(seg: &[u32], g: SegmentAddress) -> Result<Variable, Trap>
    ensures { result ≡ meaning.resolved_global seg.now g.0 }
{
    if g.number() < 8 || blockptr(seg) <= g {
        return Err(Trap::GLOBAL_ADDRESS);
    }
    follow(seg, Target::Global(g))
}

fn follow(seg: &[u32], target: Target) -> Result<Variable, Trap>
    ensures { result ≡ meaning.resolved_variable seg.now target }
{
    let held = held(seg, target);
    match Descriptor::of(held).kind() {
        Kind::Indirect(named) => end(seg, named),
        _ => Ok(Variable { target, held }),
    }
}

// The variable that an indirect word names: it may not be indirect again.
fn end(seg: &[u32], target: Target) -> Result<Variable, Trap>
    ensures { result ≡ meaning.resolved_target seg.now target }
{
    let held = held(seg, target);
    match Descriptor::of(held).kind() {
        Kind::Indirect(_) => Err(Trap::DOUBLE_INDIRECTION),
        _ => Ok(Variable { target, held }),
    }
}

// Where the variable stands in the lent segment.
pub fn place_of(seg: &[u32], t: Target) -> usize
    ensures { result ≡ sources.address_of seg.now t }
{
    match t {
        Target::Local(a) => a.index(sbase(seg)),
        Target::Global(g) => g.index(),
    }
}

pub fn held(seg: &[u32], t: Target) -> u32
    ensures { result ≡ sources.held_at seg.now t }
{
    word(seg, place_of(seg, t))
}

// The indirect word that names the variable.
pub fn reference_word(t: Target) -> u32
    ensures { result ≡ sources.reference_word t }
{
    match t {
        Target::Local(a) => Descriptor::indirect_local(StackAddress::of(
            a.number() % 0x1_0000,
        )).word(),
        Target::Global(g) => Descriptor::indirect_global(SegmentAddress::of(
            g.number() % 0x1_0000,
        )).word(),
    }
}
