//! The steps at rows whose operators and comparisons have both values before them. They are frequent, and build no operation.

ghost use Rattle.std.specs.Prelude.{◌≡◌, ◌<◌, ℕ, Bool, Some, IfSome};
ghost use Rattle.s390x_operations.specs.Numbers.{modulus};
ghost use Rattle.s390x_operations.specs.Values.{code_of_value, value};
ghost use Rattle.s390x_operations.specs.State.{with_code};
ghost use Rattle.s390x_operations.specs.Effects.{set_sized};
ghost use Rattle.s390x_machine.specs.Fetch.{IsFound};
ghost use Rattle.s390x_machine.specs.Operands.{value_in};
ghost use Rattle.s390x_machine.specs.Semantics.{semantics_of, source};
ghost use Rattle.s390x_machine.specs.State.{memory_of, registers_of, state_of};
ghost use Rattle.s390x_machine.specs.Sound.{AreGeneral, CanPerform, ShiftFits};
ghost use Rattle.s390x_machine.specs.Step.{IsRead, Steps, code_under};

use crate::access::operand_address;
use crate::field_values::{first_register, source, value_in};
use crate::machine::Machine;
use crate::memory::Memory;
use crate::step::StepEnd;
use s390x_format::{Decoded, Fields, RowSemantics, SecondOperand, length};
use s390x_lanes::Signedness;
use s390x_operations::{
    CodeRule, Operator, Size, Source, Width, bytes, compare_code, extended_bits, in_byte_order,
    operate,
};

/// The bits of an operand in memory; `None` where its access has a fault.
#[inline(always)]
fn bits_in_memory<M: Memory>(memory: &M, operand: Source, width: Width) -> Option<u64>
    ensures { IfSome result
        (λ bits. IsRead operand width (memory_of (M.held memory.now) (M.byte memory.now)) bits) }
{
    let n = bytes(width) as u64;
    match operand_address(operand, n) {
        Some(address) => memory.reached_number(address, n),
        None => None,
    }
}

/// The bits of an operand; `None` where its access has a fault.
#[inline(always)]
fn bits_of<M: Memory>(memory: &M, operand: Source, width: Width) -> Option<u64>
    ensures { IfSome result
        (λ bits. IsRead operand width (memory_of (M.held memory.now) (M.byte memory.now)) bits) }
{
    match operand {
        Source::Value(bits) => Some(bits),
        _ => bits_in_memory(memory, operand, width),
    }
}

/// The bits of a row's second operand; `None` where its access has a fault.
#[inline(always)]
pub fn operand_bits<M: Memory>(
    machine: &Machine,
    memory: &M,
    second: SecondOperand,
    fields: &Fields,
) -> Option<u64>
    requires general { AreGeneral fields.now }
    requires room { ShiftFits second.operand_source fields.now }
    ensures { IfSome result
        (λ bits. IsRead
        (source second.operand_source fields.now (registers_of machine.now) machine.now.place)
        second.width (memory_of (M.held memory.now) (M.byte memory.now)) bits) }
{
    let operand = source(machine, second.operand_source, fields);
    bits_of(memory, operand, second.width)
}

/// An operator at a size, and what becomes of the condition code.
#[derive(Clone, Copy)]
pub struct Computation {
    pub operator: Operator,
    pub size: Size,
    pub rule: CodeRule,
}

/// A register gets an operator's value of two numbers, and the condition code becomes that of the value where the rule sets it.
fn put_value(machine: &mut Machine, computation: Computation, target: u8, first: u64, second: u64)
    requires there { target < 16 }
    requires first_below { first < modulus computation.size }
    requires second_below { second < modulus computation.size }
    ensures registers { registers_of machine.new
        ≡ with_code
        (code_under computation.rule
        (code_of_value computation.operator computation.size first second)
        (registers_of machine.old).code)
        (set_sized computation.size (registers_of machine.old) target
        (value computation.operator computation.size first second)) }
    ensures place { machine.new.place ≡ machine.old.place }
{
    let (value, code) = operate(computation.operator, computation.size, first, second);
    machine.put_sized(computation.size, target, value);
    if let CodeRule::Set = computation.rule {
        machine.set_condition_code(code);
    }
}

/// A register gets an operator's value of a register's part and a number, as `put_value` has it. Loads are frequent, and read no part.
fn compute(machine: &mut Machine, computation: Computation, target: u8, first: u8, second: u64)
    requires target_there { target < 16 }
    requires first_there { first < 16 }
    requires second_below { second < modulus computation.size }
    ensures registers { registers_of machine.new
        ≡ with_code
        (code_under computation.rule
        (code_of_value computation.operator computation.size
        (value_in computation.size (registers_of machine.old) first) second)
        (registers_of machine.old).code)
        (set_sized computation.size (registers_of machine.old) target
        (value computation.operator computation.size
        (value_in computation.size (registers_of machine.old) first) second)) }
    ensures place { machine.new.place ≡ machine.old.place }
{
    if let Operator::Move = computation.operator {
        if let CodeRule::Kept = computation.rule {
            machine.put_sized(computation.size, target, second);
            return;
        }
    }
    let number = value_in(machine, computation.size, first);
    put_value(machine, computation, target, number, second);
}

/// The step at a row that was fetched, of an operator whose second operand has these bits.
pub fn value_step(
    machine: &mut Machine,
    decoded: &Decoded,
    computation: Computation,
    second: SecondOperand,
    bits: u64,
) -> StepEnd
    requires is { semantics_of decoded.now.row.opcode
        ≡ Some
        (RowSemantics.Compute computation.operator computation.size second computation.rule) }
    requires fit { CanPerform
        (RowSemantics.Compute computation.operator computation.size second computation.rule)
        decoded.now.fields }
    ensures { (held : ℕ → Bool) (byte : ℕ → ℕ)
        → IsFound (memory_of held byte) machine.old.place decoded.now
        → IsRead
        (source second.operand_source decoded.now.fields (registers_of machine.old)
        machine.old.place) second.width (memory_of held byte) bits
        → Steps (state_of machine.old held byte) result (state_of machine.new held byte) }
{
    let fields = &decoded.fields;
    let first = first_register(second.operand_source, fields);
    let bits = in_byte_order(second.reversed, second.width, bits);
    let other = extended_bits(second.sign, second.width, computation.size, bits);
    compute(machine, computation, fields.regs[0], first, other);
    machine.place = machine
        .place
        .wrapping_add(length(decoded.row.format) as u64);
    StepEnd::Went
}

/// The step at a row that was fetched, of a comparison whose second operand has these bits.
pub fn compare_step(
    machine: &mut Machine,
    decoded: &Decoded,
    sign: Signedness,
    size: Size,
    second: SecondOperand,
    bits: u64,
) -> StepEnd
    requires is { semantics_of decoded.now.row.opcode
        ≡ Some (RowSemantics.Compare sign size second) }
    requires fit { CanPerform (RowSemantics.Compare sign size second) decoded.now.fields }
    ensures { (held : ℕ → Bool) (byte : ℕ → ℕ)
        → IsFound (memory_of held byte) machine.old.place decoded.now
        → IsRead
        (source second.operand_source decoded.now.fields (registers_of machine.old)
        machine.old.place) second.width (memory_of held byte) bits
        → Steps (state_of machine.old held byte) result (state_of machine.new held byte) }
{
    let fields = &decoded.fields;
    let first = value_in(machine, size, first_register(second.operand_source, fields));
    let bits = in_byte_order(second.reversed, second.width, bits);
    let other = extended_bits(second.sign, second.width, size, bits);
    let code = compare_code(sign, size, first, other);
    machine.set_condition_code(code);
    machine.place = machine
        .place
        .wrapping_add(length(decoded.row.format) as u64);
    StepEnd::Went
}
