// The step of a vector row.
#![tactic(auto)]

ghost use Rattle.std.specs.Prelude.{◌≡◌, ℕ, ◌+◌, ◌-◌, ◌*◌, ◌/◌, ◌%◌, ◌^◌, ◌<◌, ◌≤◌, ◌↔◌, IsTrue, IsNone, MatchOption};
ghost use Rattle.s390x_lanes.specs.Rows.{is_operation, is_computed, computed_operation, where_computed};
ghost use Rattle.s390x_lanes.specs.Step.{MayEnd, StepEnds, ValueIsGiven, StopIsAllowed};

use crate::ends::{code, divides_by_zero, division_overflows};
use crate::lookup::{computes, operation};
use crate::operators::VectorOperation;
use crate::results;
use crate::row::VectorRow;

/// How a step of a vector row ends.
#[derive(Clone, Copy, PartialEq, Debug)]
pub enum LaneEnd {
    /// The new value of the first operand, and the condition code where the row sets one.
    Value { value: u128, code: Option<u8> },
    /// A division stops: a divisor is zero, or a quotient doesn't fit.
    Divide,
    /// There is no such row, or its result is not computed.
    NoRow,
}

/// The step of an operation.
fn finish(operation: VectorOperation, regs: [u128; 4]) -> LaneEnd
    requires is_operation { IsTrue (is_operation operation) }
    requires is_computed { IsTrue (is_computed operation) }
    ensures { MayEnd operation regs result }
{
    if divides_by_zero(operation, regs[2]) {
        return LaneEnd::Divide;
    }
    if division_overflows(operation, regs[1], regs[2]) {
        return LaneEnd::Divide;
    }
    LaneEnd::Value {
        value: results::result(operation, regs[0], regs[1], regs[2], regs[3]),
        code: code(operation, regs[0], regs[1], regs[2]),
    }
}

/// The step of an operation, where there is one.
fn end_of(operation: Option<VectorOperation>, regs: [u128; 4]) -> LaneEnd
    requires { MatchOption operation (Unit {0}) (λ o. IsTrue (is_operation o)) }
    ensures { StepEnds (where_computed operation) regs result }
{
    match operation {
        None => LaneEnd::NoRow,
        Some(operation) => {
            if computes(operation) {
                finish(operation, regs)
            } else {
                LaneEnd::NoRow
            }
        }
    }
}

/// The step of a vector row with these masks and this immediate, on the values of its vector
/// operands.
///
/// The row is one of those whose operands are vector registers and immediates alone, or an element
/// shift. `masks` are the row's masks and 8-bit immediates in
/// the order of its operands, and `imm` is its 16-bit immediate as a number of 0 to 65535, or the
/// address sum modulo 64 for an element shift; what the row lacks is 0. `regs` are the values of
/// its vector operands in the order of its format, the first as it was before the step; places
/// that the row lacks mean nothing. For VEC and VECL, which write no register, the value is the
/// first operand.
///
/// `NoRow` comes exactly where the row doesn't allow these masks and this immediate, and for
/// VBLEND, VEVAL and the high products of 128-bit elements. `Divide` comes only where a
/// lane's divisor is zero or its quotient doesn't fit, and always where a divisor is zero.
///
/// Source: z/Architecture Principles of Operation, "Vector Support Instructions" and "Vector
/// Integer Instructions".
pub fn lane_step(row: VectorRow, masks: [u8; 3], imm: i64, regs: [u128; 4]) -> LaneEnd
    ensures no_row { (result ≡ LaneEnd.NoRow) ↔ IsNone (computed_operation row masks imm) }
    ensures value { ValueIsGiven (computed_operation row masks imm) regs result }
    ensures divide { StopIsAllowed (computed_operation row masks imm) regs result }
{
    end_of(operation(row, masks, imm), regs)
}
