// What the instructions of the fast path do to the words.
ghost use Rattle.std.specs.Prelude.{◌≡◌, true, ◌-◌, ◌<◌, ◌≤◌, length};
ghost use Rattle.descriptor.specs.Fields.{is_array};
ghost use Rattle.descriptor.specs.Kinds.{is_scalar};
ghost use Rattle.segment.specs.State as fields;
ghost use Rattle.manual.specs.Effects as effect;
ghost use Rattle.manual.specs.Loads as loads;
ghost use Rattle.manual.specs.Memory as memory;
ghost use Rattle.manual.specs.Scalars as scalars;
ghost use Rattle.manual.specs.Instructions.{memory_plan};
ghost use Rattle.effects.specs.Perform.{bottom_of, finish, perform};
ghost use Rattle.fast_path.specs.Answers.{CarriesOutIf, CarriesOutAt, CarriesOutHeld, CarriesOutGo};
ghost use Rattle.fast_path.specs.Naming.{variable_at, is_plain, assignment};

use descriptor::address::{CodeAddress, SegmentAddress, StackAddress};
use descriptor::{Descriptor, Kind};
use effects_code::taking;
use effects_code::taking::{finish, replace_by_share, replace_by_word};
use operands::reading::{count, operand_at, room};
use operands::variables::held;
use operator::{Dyadic, Monadic};
use segment::state::{lbase, ltop, sbase, set_ltop, top_cell};
use segment::{high, put, word};

// What a variable holds, word i, or one that it refers to: a scalar or an array.
pub fn load_from(seg: &mut [u32], i: usize, next: CodeAddress) -> bool
    requires { length seg.old ≤ 16384 }
    ensures { CarriesOutAt seg.old result seg.new i (λ sees. loads.load sees next.0) }
{
    let w = word(seg, i);
    if is_scalar(w) {
        return push(seg, w, next);
    }
    if is_array(w) {
        return push_array(seg, w, next);
    }
    load_referred(seg, w, next)
}

// `w` is what the variable that was named holds.
fn load_referred(seg: &mut [u32], w: u32, next: CodeAddress) -> bool
    requires { length seg.old ≤ 16384 }
    ensures { CarriesOutHeld seg.old result seg.new w (λ sees t. loads.load sees next.0 (variable_at seg.old t)) }
{
    let Kind::Indirect(t) = Descriptor::of(w).kind() else {
        return false;
    };
    let referred = held(seg, t);
    if is_scalar(referred) {
        return push(seg, referred, next);
    }
    if is_array(referred) {
        return push_array(seg, referred, next);
    }
    false
}

pub fn push(seg: &mut [u32], w: u32, next: CodeAddress) -> bool
    requires { length seg.old ≤ 16384 }
    ensures { CarriesOutIf seg.old result seg.new (λ sees. loads.push sees next.0 (effect.word w)) }
{
    if room(seg) < 1 {
        return false;
    }
    replace_by_word(seg, 0, w);
    jump(seg, next);
    true
}

// An array that a variable holds.
fn push_array(seg: &mut [u32], w: u32, next: CodeAddress) -> bool
    requires { length seg.old ≤ 16384 }
    ensures { CarriesOutHeld seg.old result seg.new w (λ sees t. loads.push sees next.0 (effect.variable t)) }
{
    if room(seg) < 1 {
        return false;
    }
    replace_by_share(seg, 0, w);
    jump(seg, next);
    true
}

pub fn monadic(seg: &mut [u32], op: Monadic, next: CodeAddress) -> bool
    ensures { CarriesOutIf seg.old result seg.new (λ sees. scalars.monadic sees next.0 op) }
{
    if count(seg) < 1 {
        return false;
    }
    let x = operand_at(seg, 0);
    if !is_scalar(x) {
        return false;
    }
    match scalar::monadic(op, x) {
        Err(_) => false,
        Ok(w) => {
            replace(seg, 1, w);
            jump(seg, next);
            true
        }
    }
}

pub fn dyadic(seg: &mut [u32], op: Dyadic, next: CodeAddress) -> bool
    ensures { CarriesOutIf seg.old result seg.new (λ sees. scalars.dyadic sees next.0 op) }
{
    if count(seg) < 2 {
        return false;
    }
    let x = operand_at(seg, 0);
    if !is_scalar(x) {
        return false;
    }
    let y = operand_at(seg, 1);
    if !is_scalar(y) {
        return false;
    }
    match scalar::dyadic(op, x, y) {
        Err(_) => false,
        Ok(w) => {
            replace(seg, 2, w);
            jump(seg, next);
            true
        }
    }
}

// `w` takes the place of n operands that name no array.
fn replace(seg: &mut [u32], n: u32, w: u32)
    requires { 0 < n }
    ensures { seg.new ≡ finish seg.old (bottom_of seg.old n) w }
{
    let b = (top_cell(seg).number() + 1).saturating_sub(n);
    finish(seg, SegmentAddress::of(b), w);
}

// A scalar is assigned to a variable, word i, that holds a scalar or nothing. Word 0 says where the operand is.
pub fn store(seg: &mut [u32], i: usize, keep: bool, next: CodeAddress) -> bool
    requires { 0 < i }
    ensures { CarriesOutAt seg.old result seg.new i (λ sees. memory_plan sees next.0 (assignment keep)) }
{
    if count(seg) < 1 {
        return false;
    }
    let w = operand_at(seg, 0);
    if !is_scalar(w) {
        return false;
    }
    if !is_plain(word(seg, i)) {
        return false;
    }
    put(seg, i, w);
    if keep {
        return go(seg, next);
    }
    discard(seg, 1);
    go(seg, next)
}

// EAT1. A scalar goes without a look at what it might name.
pub fn eat(seg: &mut [u32], next: CodeAddress) -> bool
    ensures { CarriesOutIf seg.old result seg.new (λ sees. memory.eat sees next.0) }
{
    if count(seg) < 1 {
        return false;
    }
    if is_scalar(operand_at(seg, 0)) {
        discard(seg, 1);
        return go(seg, next);
    }
    taking::discard(seg, 1);
    go(seg, next)
}

fn is_plain(w: u32) -> bool
    ensures { result ≡ is_plain w }
{
    if w == Descriptor::UNDEFINED {
        return true;
    }
    is_scalar(w)
}

pub fn is_scalar(w: u32) -> bool
    ensures { result ≡ is_scalar w }
{
    Descriptor::of(w).is_scalar()
}

fn is_array(w: u32) -> bool
    ensures { result ≡ is_array w }
{
    Descriptor::of(w).is_array()
}

pub fn go(seg: &mut [u32], to: CodeAddress) -> bool
    ensures { (result ≡ true) × (seg.new ≡ perform seg.old (effect.jumps to.0)) }
{
    jump(seg, to);
    true
}

// The current function goes on at that place. PCTR is written with the whole of its word: a read of the word right after its
// half was written would wait for the write.
fn jump(seg: &mut [u32], place: CodeAddress)
    ensures { seg.new ≡ perform seg.old (effect.jumps place.0) }
{
    if 0xFFFF < place.number() {
        taking::jump(seg, place);
        return;
    }
    let i = lbase(seg).index(sbase(seg)) + 1;
    let kept = high(word(seg, i)) as u32;
    put(seg, i, kept * 0x1_0000 + place.number());
}

// The operand is the integer 0 or 1.
pub fn go_if(seg: &mut [u32], wanted: u32, to: CodeAddress, next: CodeAddress) -> bool
    ensures { CarriesOutGo seg.old result seg.new wanted to next }
{
    if count(seg) < 1 {
        return false;
    }
    let w = operand_at(seg, 0);
    if 1 < w {
        return false;
    }
    discard(seg, 1);
    if w == wanted {
        return go(seg, to);
    }
    go(seg, next)
}

// n operands, which name no array, go.
fn discard(seg: &mut [u32], n: u32)
    ensures { seg.new ≡ fields.set_ltop seg.old (fields.ltop seg.old - n) }
{
    let left = ltop(seg).number().saturating_sub(n);
    set_ltop(seg, StackAddress::of(left));
}
