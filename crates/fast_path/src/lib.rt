// A fast path for the instructions that run most, where nothing traps: scalars made, moved and combined, variables loaded and
// assigned by any form of address, jumps. `false`: no word has changed, and the instruction is still to be done.
#![tactic(auto)]

ghost use Rattle.std.specs.Prelude.{◌≡◌, ◌+◌, ◌-◌, ◌%◌, ◌^◌, ◌≤◌, length};
ghost use Rattle.operator.specs.Table.{operator_of};
ghost use Rattle.instruction.specs.declared.table.EtcSuboperation.TheVariants as E;
ghost use Rattle.instruction.specs.Tables.{etc_of};
ghost use Rattle.instruction.specs.Lengths.{etc_length, length_in};
ghost use Rattle.instruction.specs.Decoding as decoding;
ghost use Rattle.manual.specs.Loads as loads;
ghost use Rattle.manual.specs.Instructions as plan;
ghost use Rattle.fast_path.specs.Answers.{CarriesOutIf, CarriesOutIn, Any, WithHeader, WithTable, Under, WithVariables, past, next_after};
ghost use Rattle.fast_path.specs.Naming.{assign_entry};

mod doing;
mod naming;

use descriptor::Descriptor;
use descriptor::address::CodeAddress;
use doing::{dyadic, eat, go, go_if, is_scalar, load_from, monadic, push, store};
use instruction::family::{Family, family_of};
use instruction::length::length_in;
use instruction::table::{EtcSuboperation, etc_of, memory_of};
use instruction::{Jump, MemoryOperation, StackOperation};
use naming::{half, local, long, variable};
use operands::variables::variables;
use operator::Operator;
use operator::lent::operator_under;
use procedure::header::Header;
use segment::word;

// The instruction at a place of the code of a function with that header.
pub fn try_fast(
    seg: &mut [u32],
    h: Header,
    table: &[u8; 16],
    code: &[u8],
    place: CodeAddress,
) -> bool
    requires { length seg.old ≤ 16384 }
    ensures { CarriesOutIn seg.old result seg.new (Under h table.now)
        (decoding.instruction_at code.now place.0) }
{
    let at = place.number() as usize;
    if at < 8 {
        return false;
    }
    if code.len() <= at {
        return false;
    }
    let first = code[at];
    match family_of(first) {
        Family::ShortLocal => load_local(
            seg,
            variables(h),
            first,
            after(place, Family::ShortLocal, first),
        ),
        Family::ShortConst => short_constant(seg, code, first, place),
        Family::GenScalar => scalar_operation(seg, table, first, place),
        Family::MemRef => memory(seg, variables(h), code, memory_of(first % 32), place),
        Family::Etc => etc(seg, h, code, first, place),
        Family::LongLocal => load_long(seg, variables(h), code, first, Family::LongLocal, place),
        Family::LongGlobal => load_long(seg, variables(h), code, first, Family::LongGlobal, place),
        Family::Index | Family::Unassigned => false,
    }
}

// A local next to the frame, by its address of one byte. It mostly holds a scalar, which is pushed here, with no further call.
fn load_local(seg: &mut [u32], variables: u32, first: u8, next: CodeAddress) -> bool
    requires { length seg.old ≤ 16384 }
    ensures { CarriesOutIf seg.old result seg.new (λ sees. loads.load sees next.0 (sees.local variables (64 - first % 2 ^ 6))) }
{
    let v = 64 - first as u32 % 64;
    let i = local(seg, variables, v);
    if i == 0 {
        return false;
    }
    let w = word(seg, i);
    if is_scalar(w) {
        return push(seg, w, next);
    }
    load_from(seg, i, next)
}

// A variable by its address of two bytes.
fn load_long(
    seg: &mut [u32],
    variables: u32,
    code: &[u8],
    first: u8,
    family: Family,
    place: CodeAddress,
) -> bool
    requires { length seg.old ≤ 16384 }
    ensures { CarriesOutIn seg.old result seg.new (WithVariables variables)
        (decoding.load_at code.now (past place) first family) }
{
    let i = long(
        seg,
        variables,
        code,
        first,
        family,
        place.number() as usize + 1,
    );
    if i == 0 {
        return false;
    }
    load_from(seg, i, after(place, family, first))
}

fn short_constant(seg: &mut [u32], code: &[u8], first: u8, place: CodeAddress) -> bool
    requires { length seg.old ≤ 16384 }
    ensures { CarriesOutIn seg.old result seg.new Any (decoding.short_constant_at code.now (past place) first) }
{
    let at = place.number() as usize + 1;
    if code.len() <= at {
        return false;
    }
    let half = half(first, code[at]) as u32;
    let w = Descriptor::integer(half / 0x1000 % 2 == 1, half % 0x1000).word();
    push(seg, w, after(place, Family::ShortConst, first))
}

// The operator is the one that the table names.
fn scalar_operation(seg: &mut [u32], table: &[u8; 16], first: u8, place: CodeAddress) -> bool
    ensures { CarriesOutIn seg.old result seg.new (WithTable table.now)
        (decoding.scalar_at (operator_of (first % 2 ^ 5)) (past place)) }
{
    let Some(operator) = operator_under(table, first % 32) else {
        return false;
    };
    let next = after(place, Family::GenScalar, first);
    match operator {
        Operator::Dyadic(op) => dyadic(seg, op, next),
        Operator::Monadic(op) => monadic(seg, op, next),
    }
}

fn memory(
    seg: &mut [u32],
    variables: u32,
    code: &[u8],
    operation: Option<MemoryOperation>,
    place: CodeAddress,
) -> bool
    ensures { CarriesOutIn seg.old result seg.new (WithVariables variables)
        (decoding.memory_at code.now (past place) operation) }
{
    let Some(operation) = operation else {
        return false;
    };
    match operation {
        MemoryOperation::Assign => assign(seg, variables, code, true, place),
        MemoryOperation::AssignNoResult => assign(seg, variables, code, false, place),
        _ => false,
    }
}

// ASSIGN keeps the value on the stack, ASSIGN_NORESULT does not.
fn assign(seg: &mut [u32], variables: u32, code: &[u8], keep: bool, place: CodeAddress) -> bool
    ensures { CarriesOutIn seg.old result seg.new (WithVariables variables)
        (decoding.memory_at code.now (past place) (assign_entry keep)) }
{
    let at = place.number() as usize + 1;
    if code.len() <= at {
        return false;
    }
    let first = code[at];
    let family = family_of(first);
    let i = variable(seg, variables, code, first, family, at + 1);
    if i == 0 {
        return false;
    }
    store(seg, i, keep, after(further(place, 1), family, first))
}

fn etc(seg: &mut [u32], h: Header, code: &[u8], first: u8, place: CodeAddress) -> bool
    requires { length seg.old ≤ 16384 }
    ensures { CarriesOutIn seg.old result seg.new (WithHeader h)
        (decoding.etc_at code.now (past place) (etc_of (first % 2 ^ 5))) }
{
    let Some(sub) = etc_of(first % 32) else {
        return false;
    };
    // The place after is worked out in each arm: there the compiler knows the suboperation, and no comparison is left.
    match sub {
        EtcSuboperation::Jump(kind) => jump_to(
            seg,
            h,
            code,
            kind,
            place,
            after(place, Family::Etc, first),
        ),
        EtcSuboperation::Stack(op) => stack_operation(seg, op, after(place, Family::Etc, first)),
        EtcSuboperation::ConstantScalar => constant_scalar(
            seg,
            code,
            place,
            after(place, Family::Etc, first),
        ),
        _ => false,
    }
}

fn stack_operation(seg: &mut [u32], op: StackOperation, next: CodeAddress) -> bool
    ensures { CarriesOutIf seg.old result seg.new (λ sees. plan.stack_plan sees next.0 op) }
{
    match op {
        StackOperation::Eat1 => eat(seg, next),
        _ => false,
    }
}

fn constant_scalar(seg: &mut [u32], code: &[u8], place: CodeAddress, next: CodeAddress) -> bool
    requires seg_len_bound { length seg.old ≤ 16384 }
    requires next_value { next.0 ≡ next_after place (etc_length (Some E.ConstantScalar)) }
    ensures { CarriesOutIn seg.old result seg.new Any (decoding.constant_scalar_at code.now (past place)) }
{
    let at = place.number() as usize + 1;
    if code.len() <= at + 3 {
        return false;
    }
    let high = half(code[at], code[at + 1]);
    let low = half(code[at + 2], code[at + 3]);
    let w = high as u32 * 0x1_0000 + low as u32;
    if is_scalar(w) {
        return push(seg, w, next);
    }
    false
}

fn jump_to(
    seg: &mut [u32],
    h: Header,
    code: &[u8],
    kind: Jump,
    place: CodeAddress,
    next: CodeAddress,
) -> bool
    requires { next.0 ≡ next_after place (etc_length (Some (E.Jump kind))) }
    ensures { CarriesOutIn seg.old result seg.new (WithHeader h) (decoding.jump_at code.now (past place) kind) }
{
    let at = place.number() as usize + 1;
    if code.len() <= at + 1 {
        return false;
    }
    let number = half(code[at], code[at + 1]) as u32;
    if number < 8 {
        return false;
    }
    if h.code_end() <= number {
        return false;
    }
    let to = CodeAddress::of(number);
    match kind {
        Jump::Go => go(seg, to),
        Jump::GoTrue => go_if(seg, 1, to, next),
        Jump::GoFalse => go_if(seg, 0, to, next),
    }
}

// The place after an instruction or an address of that family, whose first byte fixes its length.
fn after(place: CodeAddress, family: Family, first: u8) -> CodeAddress
    ensures { result.0 ≡ next_after place (length_in family (first % 2 ^ 5)) }
{
    further(place, length_in(family, first % 32).bytes())
}

// The place so many bytes on in the code, as 32 bits.
fn further(place: CodeAddress, bytes: u8) -> CodeAddress
    ensures { result.0 ≡ (place.0 + bytes) % 2 ^ 32 }
{
    CodeAddress::of(((place.number() as usize + bytes as usize) % 0x1_0000_0000) as u32)
}
