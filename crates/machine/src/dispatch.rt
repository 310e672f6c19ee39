// The long way of a step: the instruction at a place of a function's code, decoded and then done.
ghost use Rattle.std.specs.Prelude.{◌≡◌, ◌≤◌, length};
ghost use Rattle.manual.specs.Loads as loading;
ghost use Rattle.manual.specs.Instructions as plan;
ghost use Rattle.effects.specs.Carried.{CarriesOut};
ghost use Rattle.operands.specs.Variables.{variable_seen, Sure};
ghost use Rattle.machine.specs.Held.{running_of};

use super::running::Running;
use descriptor::address::CodeAddress;
use effects::Outcome;
use instruction::decode::instruction_at;
use instruction::{
    Address, ArrayOperation, ControlOperation, Decoded, Instruction, Jump, MemoryOperation,
    StackOperation,
};
use instructions_control::{calls, jumps};
use instructions_memory::{loads, memory};
use instructions_values::{arrays, scalars, subscripts};
use operands::variables::{Variable, resolve, variables};
use operator::Operator;
use operator::lent::named;
use procedure::header::Header;
use trap::Trap;

pub fn obey(
    seg: &mut [u32],
    f: &Running,
    place: CodeAddress,
    scratch: &mut [u32],
) -> Result<Outcome, Trap>
    requires { (length seg.old ≤ 16384) × (length scratch.old ≡ 16384) }
    ensures { CarriesOut seg.old result seg.new (λ sees. plan.plan_at (running_of f.now) sees place.0) }
{
    let Decoded { instruction, next } = instruction_at(f.code, place)?;
    match instruction {
        Instruction::Load(a) => load(seg, f.block.header, a, next),
        Instruction::ShortConstant {
            negative,
            magnitude,
        } => loads::short_constant(seg, negative, magnitude, next),
        Instruction::Scalar(op) => scalar(seg, named(f.program.table, op), next, scratch),
        Instruction::Memory(op, a) => memory_reference(seg, f.block.header, op, a, next, scratch),
        Instruction::Stack(op) => stack(seg, op, next),
        Instruction::Array(op) => array(seg, op, next, scratch),
        Instruction::Control(op) => control(seg, f, op, next),
        Instruction::Jump(jump, to) => jump_to(seg, f.block.header, jump, to, next),
        Instruction::ConstantScalar(w) => loads::constant_scalar(seg, w, next),
        Instruction::ConstantVector { count, first } => loads::constant_vector(
            seg, f.code, count, first, next, scratch,
        ),
        Instruction::Call {
            arguments,
            alternate: p,
            function,
        } => calls::call(
            seg,
            f.program.regular,
            f.program.alternate,
            arguments,
            p,
            function,
            next,
        ),
        Instruction::Index(rank) => subscripts::index(seg, rank, next),
    }
}

fn load(seg: &mut [u32], h: Header, a: Address, next: CodeAddress) -> Result<Outcome, Trap>
    requires { length seg.old ≤ 16384 }
    ensures { CarriesOut seg.old result seg.new (λ sees. loading.load sees next.0 (plan.resolve sees h a)) }
{
    let variable = resolve(seg, variables(h), a);
    loads::load(seg, variable, next)
}

fn memory_reference(
    seg: &mut [u32],
    h: Header,
    op: MemoryOperation,
    a: Address,
    next: CodeAddress,
    scratch: &mut [u32],
) -> Result<Outcome, Trap>
    requires { (length seg.old ≤ 16384) × (length scratch.old ≡ 16384) }
    ensures { CarriesOut seg.old result seg.new (λ sees. plan.memory_plan sees next.0 op (plan.resolve sees h a)) }
{
    let variable = resolve(seg, variables(h), a);
    memory_operation(seg, op, variable, next, scratch)
}

fn memory_operation(
    seg: &mut [u32],
    op: MemoryOperation,
    variable: Result<Variable, Trap>,
    next: CodeAddress,
    scratch: &mut [u32],
) -> Result<Outcome, Trap>
    requires { (length seg.old ≤ 16384) × (length scratch.old ≡ 16384) × Sure seg.old variable }
    ensures { CarriesOut seg.old result seg.new (λ sees.
        plan.memory_plan sees next.0 op (variable_seen seg.old variable)) }
{
    match op {
        MemoryOperation::AssignIndexed(rank) => memory::assign_indexed(
            seg, rank, variable, next, scratch,
        ),
        MemoryOperation::Assign => memory::assign(seg, variable, next),
        MemoryOperation::AssignNoResult => memory::assign_no_result(seg, variable, next),
        MemoryOperation::Reference => loads::refer(seg, variable, next),
        MemoryOperation::TestDefined => loads::test_defined(seg, variable, next),
    }
}

fn scalar(
    seg: &mut [u32],
    op: Operator,
    next: CodeAddress,
    scratch: &mut [u32],
) -> Result<Outcome, Trap>
    requires { (length seg.old ≤ 16384) × (length scratch.old ≡ 16384) }
    ensures { CarriesOut seg.old result seg.new (λ sees. plan.scalar_plan sees next.0 op) }
{
    match op {
        Operator::Monadic(m) => scalars::monadic(seg, m, next, scratch),
        Operator::Dyadic(d) => scalars::dyadic(seg, d, next, scratch),
    }
}

fn stack(seg: &mut [u32], op: StackOperation, next: CodeAddress) -> Result<Outcome, Trap>
    requires { length seg.old ≤ 16384 }
    ensures { CarriesOut seg.old result seg.new (λ sees. plan.stack_plan sees next.0 op) }
{
    match op {
        StackOperation::Undefined => loads::push_undefined(seg, next),
        StackOperation::Eat1 => memory::eat(seg, next),
        StackOperation::Interchange => memory::interchange(seg, next),
        StackOperation::SetOrigin => scalars::set_origin(seg, next),
        StackOperation::GetOrigin => loads::get_origin(seg, next),
    }
}

fn array(
    seg: &mut [u32],
    op: ArrayOperation,
    next: CodeAddress,
    scratch: &mut [u32],
) -> Result<Outcome, Trap>
    requires { (length seg.old ≤ 16384) × (length scratch.old ≡ 16384) }
    ensures { CarriesOut seg.old result seg.new (λ sees. plan.array_plan sees next.0 op) }
{
    match op {
        ArrayOperation::Shape => arrays::shape(seg, next),
        ArrayOperation::Reshape => arrays::reshape(seg, next, scratch),
        ArrayOperation::Ravel => arrays::ravel(seg, next, scratch),
        ArrayOperation::Catenate => arrays::catenate(seg, next, scratch),
        ArrayOperation::IndexGenerator => arrays::index_generator(seg, next, scratch),
    }
}

fn control(
    seg: &mut [u32],
    f: &Running,
    op: ControlOperation,
    next: CodeAddress,
) -> Result<Outcome, Trap>
    requires { length seg.old ≤ 16384 }
    ensures { CarriesOut seg.old result seg.new (λ sees. plan.control_plan (running_of f.now) sees next.0 op) }
{
    match op {
        ControlOperation::Branch => jumps::branch(seg, f.segment(), f.block, next),
        ControlOperation::Return => calls::return_from(seg, f.block.header),
        ControlOperation::NoOperation => memory::no_operation(seg, next),
        ControlOperation::Breakpoint => Err(Trap::BREAKPOINT),
        ControlOperation::Attention => Err(Trap::ATTENTION),
    }
}

fn jump_to(
    seg: &mut [u32],
    h: Header,
    jump: Jump,
    to: CodeAddress,
    next: CodeAddress,
) -> Result<Outcome, Trap>
    ensures { (f : plan.Running) → plan.header_of f ≡ h
        → CarriesOut seg.old result seg.new (λ sees. plan.jump_plan f sees next.0 jump to.0) }
{
    match jump {
        Jump::Go => jumps::go(seg, h, to),
        Jump::GoTrue => jumps::go_if(seg, h, true, to, next),
        Jump::GoFalse => jumps::go_if(seg, h, false, to, next),
    }
}
