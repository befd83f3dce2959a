//! The step at a row on vector registers whose result is computed. It is frequent, and builds no operation.

ghost use Rattle.std.specs.Prelude.{◌≡◌, ℕ, Bool, Some, IfSome, IsTrue};
ghost use Rattle.s390x_lanes.specs.Results.{vector_result};
ghost use Rattle.s390x_lanes.specs.Rows.{is_computed, is_operation};
ghost use Rattle.s390x_machine.specs.Fetch.{IsFound};
ghost use Rattle.s390x_machine.specs.Semantics.{semantics_of};
ghost use Rattle.s390x_machine.specs.State.{memory_of, registers_of, state_of};
ghost use Rattle.s390x_machine.specs.Sound.{CanPerform, HasRegisters};
ghost use Rattle.s390x_machine.specs.Step.{IsPlain, Steps};

use crate::machine::Machine;
use crate::perform::vector_code;
use crate::step::StepEnd;
use s390x_format::{Decoded, Fields, RowSemantics, length};
use s390x_lanes::{
    BinaryOperator, ElementSize, VectorOperation, VectorRow, code, computes, divides_by_zero,
    division_overflows, operation, result,
};

/// The operation of a row on vector registers, where its result is computed and it doesn't stop.
pub fn plain_operation(
    machine: &Machine,
    row: VectorRow,
    fields: &Fields,
) -> Option<VectorOperation>
    requires { HasRegisters (RowSemantics.Elements row) fields.now }
    ensures { IfSome result (λ o. IsPlain row fields.now (registers_of machine.now) o) }
{
    let operation = operation(row, fields.masks, fields.imm)?;
    let second = machine.vector(fields.regs[1]);
    let third = machine.vector(fields.regs[2]);
    if !computes(operation)
        || divides_by_zero(operation, third)
        || division_overflows(operation, second, third)
    {
        return None;
    }
    Some(operation)
}

/// What the vector registers hold that a row's fields name, in the order of the fields.
#[derive(Clone, Copy)]
struct FieldVectors {
    first: u128,
    second: u128,
    third: u128,
    fourth: u128,
}

/// The sums of the doublewords of two registers.
fn sum_of_doublewords(x: u128, y: u128) -> u128
    ensures { (first fourth : ℕ)
        → result
        ≡ vector_result (VectorOperation.Binary BinaryOperator.Add ElementSize.Doubleword) first x
        y fourth }
{
    let high = ((x / 18446744073709551616) as u64).wrapping_add((y / 18446744073709551616) as u64);
    let low = ((x % 18446744073709551616) as u64).wrapping_add((y % 18446744073709551616) as u64);
    high as u128 * 18446744073709551616 + low as u128
}

/// The result of an operation, made lane by lane.
fn lanes_value(operation: VectorOperation, vectors: FieldVectors) -> u128
    requires is_operation { IsTrue (is_operation operation) }
    requires is_computed { IsTrue (is_computed operation) }
    ensures { result
        ≡ vector_result operation vectors.first vectors.second vectors.third vectors.fourth }
{
    result(
        operation,
        vectors.first,
        vectors.second,
        vectors.third,
        vectors.fourth,
    )
}

/// The result of an operator on doublewords. The most frequent one is made without lanes.
fn doublewords_value(operator: BinaryOperator, vectors: FieldVectors) -> u128
    ensures { result
        ≡ vector_result (VectorOperation.Binary operator ElementSize.Doubleword) vectors.first
        vectors.second vectors.third vectors.fourth }
{
    let size = ElementSize::Doubleword;
    match operator {
        BinaryOperator::Add => sum_of_doublewords(vectors.second, vectors.third),
        _ => lanes_value(VectorOperation::Binary { operator, size }, vectors),
    }
}

/// The result of an operator on all bits. The most frequent ones are made without lanes.
fn whole_value(operator: BinaryOperator, vectors: FieldVectors) -> u128
    ensures { result
        ≡ vector_result (VectorOperation.Binary operator ElementSize.Quadword) vectors.first
        vectors.second vectors.third vectors.fourth }
{
    let size = ElementSize::Quadword;
    match operator {
        BinaryOperator::And => vectors.second & vectors.third,
        BinaryOperator::Or => vectors.second | vectors.third,
        BinaryOperator::Xor => vectors.second ^ vectors.third,
        _ => lanes_value(VectorOperation::Binary { operator, size }, vectors),
    }
}

/// The result of an operator on two registers.
fn binary_value(operator: BinaryOperator, size: ElementSize, vectors: FieldVectors) -> u128
    ensures { result
        ≡ vector_result (VectorOperation.Binary operator size) vectors.first vectors.second
        vectors.third vectors.fourth }
{
    match size {
        ElementSize::Doubleword => doublewords_value(operator, vectors),
        ElementSize::Quadword => whole_value(operator, vectors),
        _ => lanes_value(VectorOperation::Binary { operator, size }, vectors),
    }
}

/// The result of an operation. Inlined, it would make every other step longer.
#[inline(never)]
fn value_of(operation: VectorOperation, vectors: FieldVectors) -> u128
    requires is_operation { IsTrue (is_operation operation) }
    requires is_computed { IsTrue (is_computed operation) }
    ensures { result
        ≡ vector_result operation vectors.first vectors.second vectors.third vectors.fourth }
{
    match operation {
        VectorOperation::Binary { operator, size } => binary_value(operator, size, vectors),
        _ => lanes_value(operation, vectors),
    }
}

/// The step at a row that was fetched, which makes an operation's value of the vector registers that it names.
pub fn elements_step(
    machine: &mut Machine,
    decoded: &Decoded,
    row: VectorRow,
    operation: VectorOperation,
) -> StepEnd
    requires is { semantics_of decoded.now.row.opcode ≡ Some (RowSemantics.Elements row) }
    requires fit { CanPerform (RowSemantics.Elements row) decoded.now.fields }
    requires plain { IsPlain row decoded.now.fields (registers_of machine.old) operation }
    ensures { (held : ℕ → Bool) (byte : ℕ → ℕ)
        → IsFound (memory_of held byte) machine.old.place decoded.now
        → Steps (state_of machine.old held byte) result (state_of machine.new held byte) }
{
    let regs = &decoded.fields.regs;
    let first = machine.vector(regs[0]);
    let second = machine.vector(regs[1]);
    let third = machine.vector(regs[2]);
    let fourth = machine.vector(regs[3]);
    let number = code(operation, first, second, third);
    let code = vector_code(machine.condition_code(), number);
    let vectors = FieldVectors {
        first,
        second,
        third,
        fourth,
    };
    let value = value_of(operation, vectors);
    machine.put_vector(regs[0], value);
    machine.set_condition_code(code);
    machine.place = machine
        .place
        .wrapping_add(length(decoded.row.format) as u64);
    StepEnd::Went
}
