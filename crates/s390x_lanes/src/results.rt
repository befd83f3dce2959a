// One lane of any operation's result, and the whole.
#![tactic(auto)]

ghost use Rattle.std.specs.Prelude.{◌≡◌, ℕ, ◌+◌, ◌-◌, ◌*◌, ◌/◌, ◌%◌, ◌^◌, ◌<◌, ◌≤◌, ◌==◌, IsTrue, if◌then◌else◌};
ghost use Rattle.s390x_lanes.specs.Size.{element_bits, lane_count, wider};
ghost use Rattle.s390x_lanes.specs.Results.{result_size as result_size_of, result_lane as lane_of_result, vector_result};
ghost use Rattle.s390x_lanes.specs.Lanes.{lane as lane_of};
ghost use Rattle.s390x_lanes.specs.Elements.{elements_compare, immediate as immediate_of};
ghost use Rattle.s390x_lanes.specs.Rows.{is_operation, is_computed};

use crate::binary::{binary, compare};
use crate::lane::{append, element, ones};
use crate::operators::{Comparison, VectorOperation};
use crate::places::{
    byte_count, choose_bits, mask_bits, mask_byte, merge, multiply_pair, pack, permute,
    permute_doubleword, select, shift_element, unpack,
};
use crate::products::{divide, multiply_high};
use crate::size::ElementSize;
use crate::unary::{immediate, shift, unary};

/// The size of the result's elements.
pub(crate) fn result_size(operation: VectorOperation) -> ElementSize
    ensures { result ≡ result_size_of operation }
{
    match operation {
        VectorOperation::Binary { size, .. } => size,
        VectorOperation::Compare { size, .. } => size,
        VectorOperation::MultiplyHigh { size, .. } => size,
        VectorOperation::MultiplyPairs { size, .. } => size.wider(),
        VectorOperation::Divide { size, .. } => size,
        VectorOperation::Unary { size, .. } => size,
        VectorOperation::ShiftElements { size, .. } => size,
        VectorOperation::Pack { size, .. } => size,
        VectorOperation::Merge { size, .. } => size,
        VectorOperation::Unpack { size, .. } => size.wider(),
        VectorOperation::Replicate { size, .. } => size,
        VectorOperation::ByteMask { .. } => ElementSize::Byte,
        VectorOperation::BitMask { size, .. } => size,
        VectorOperation::Select => ElementSize::Quadword,
        VectorOperation::Permute => ElementSize::Byte,
        VectorOperation::PermuteDoublewords { .. } => ElementSize::Doubleword,
        VectorOperation::ShiftByBits { .. } => ElementSize::Quadword,
        VectorOperation::ShiftByBytes { .. } => ElementSize::Quadword,
        VectorOperation::Move => ElementSize::Quadword,
        VectorOperation::InsertImmediate { size, .. } => size,
        VectorOperation::ReplicateImmediate { size, .. } => size,
        VectorOperation::BitPermute => ElementSize::Quadword,
        VectorOperation::CompareElement { .. } => ElementSize::Quadword,
        VectorOperation::Blend => ElementSize::Quadword,
        VectorOperation::Evaluate { .. } => ElementSize::Quadword,
    }
}

/// Ones where lane `i` of `x` and `y` compare, else zeros.
pub(crate) fn compared_lane(
    comparison: Comparison,
    size: ElementSize,
    x: u128,
    y: u128,
    i: u32,
) -> u128
    requires { i < lane_count size }
    ensures value { result
        ≡ (if elements_compare comparison (element_bits size) (lane_of (element_bits size) x i)
        (lane_of (element_bits size) y i) then 2 ^ element_bits size - 1 else 0) }
    ensures fits { result < 2 ^ element_bits size }
{
    if compare(
        comparison,
        size.bits(),
        element(size, x, i),
        element(size, y, i),
    ) {
        ones(size.bits())
    } else {
        0
    }
}

/// The immediate at `index`, else lane `i` of `x`.
pub(crate) fn inserted_lane(size: ElementSize, value: u16, index: u32, x: u128, i: u32) -> u128
    requires { i < lane_count size }
    ensures value { result
        ≡ (if i == index then immediate_of (element_bits size) value
        else lane_of (element_bits size) x i) }
    ensures fits { result < 2 ^ element_bits size }
{
    if i == index {
        immediate(size.bits(), value)
    } else {
        element(size, x, i)
    }
}

/// Lane `i` of the result.
#[rattlefmt::skip]
pub(crate) fn result_lane(operation: VectorOperation, first: u128, second: u128, third: u128, fourth: u128, i: u32) -> u128
    requires is_operation { IsTrue (is_operation operation) }
    requires is_computed { IsTrue (is_computed operation) }
    requires inside { i < lane_count (result_size_of operation) }
    ensures value { result ≡ lane_of_result operation first second third fourth i }
    ensures fits { result < 2 ^ element_bits (result_size_of operation) }
{
    match operation {
        VectorOperation::Binary { operator, size } => binary(operator, size.bits(), element(size, second, i), element(size, third, i)),
        VectorOperation::Compare { comparison, size, .. } => compared_lane(comparison, size, second, third, i),
        VectorOperation::MultiplyHigh { sign, size } => multiply_high(sign, size.bits(), element(size, second, i), element(size, third, i)),
        VectorOperation::MultiplyPairs { sign, parity, size } => multiply_pair(sign, parity, size, second, third, i),
        VectorOperation::Divide { division, sign, size } => divide(division, sign, size.bits(), element(size, second, i), element(size, third, i)),
        VectorOperation::Unary { operator, size } => unary(operator, size.bits(), element(size, second, i)),
        VectorOperation::ShiftElements { operator, size, amount } => shift_element(operator, size, amount, second, i),
        VectorOperation::Pack { narrowing, size } => pack(narrowing, size, second, third, i),
        VectorOperation::Merge { half, size } => merge(half, size, second, third, i),
        VectorOperation::Unpack { sign, half, size } => unpack(sign, half, size, second, i),
        VectorOperation::Replicate { size, index } => element(size, second, index),
        VectorOperation::ByteMask { mask } => mask_byte(mask, i),
        VectorOperation::BitMask { size, start, end } => mask_bits(size.bits(), start, end),
        VectorOperation::Select => select(second, third, fourth),
        VectorOperation::Permute => permute(second, third, fourth, i),
        VectorOperation::PermuteDoublewords { a, b } => permute_doubleword(a, b, second, third, i),
        VectorOperation::ShiftByBits { operator } => shift(operator, 128, second, (third % 8) as u32),
        VectorOperation::ShiftByBytes { operator } => shift(operator, 128, second, 8 * byte_count(third)),
        VectorOperation::Move => second,
        VectorOperation::InsertImmediate { size, value, index } => inserted_lane(size, value, index, first, i),
        VectorOperation::ReplicateImmediate { size, value } => immediate(size.bits(), value),
        VectorOperation::BitPermute => choose_bits(second, third),
        VectorOperation::CompareElement { .. } => first,
        VectorOperation::Blend => 0,
        VectorOperation::Evaluate { .. } => 0,
    }
}

/// The whole result.
pub fn result(
    operation: VectorOperation,
    first: u128,
    second: u128,
    third: u128,
    fourth: u128,
) -> u128
    requires is_operation { IsTrue (is_operation operation) }
    requires is_computed { IsTrue (is_computed operation) }
    ensures { result ≡ vector_result operation first second third fourth }
{
    let size = result_size(operation);
    if let ElementSize::Quadword = size {
        return result_lane(operation, first, second, third, fourth, 0);
    }
    let w = size.bits();
    let n = size.lane_count();
    let mut all = 0;
    for i in 0..n {
        let v = result_lane(operation, first, second, third, fourth, i);
        all = append(w, all, v);
    }
    all
}
