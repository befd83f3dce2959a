// Condition codes, and where a division stops.
#![tactic(auto)]

ghost use Rattle.std.specs.Prelude.{◌≡◌, ℕ, ◌+◌, ◌-◌, ◌*◌, ◌/◌, ◌%◌, ◌^◌, ◌<◌, ◌≤◌};
ghost use Rattle.s390x_lanes.specs.Size.{element_bits, lane_count};
ghost use Rattle.s390x_lanes.specs.Lanes.{lane as lane_of, some_lane, every_lane};
ghost use Rattle.s390x_lanes.specs.Relation.{lane_compares, lanes_code as lanes_code_of, order_code as order_code_of, code_of, lane_is_zero, lane_overflows, divides_by_zero as divides_by_zero_of, division_overflows as division_overflows_of};

use crate::binary::compare;
use crate::lane::element;
use crate::number::is_below;
use crate::operators::{Comparison, Signedness, VectorOperation};
use crate::products::overflows;
use crate::size::ElementSize;

/// Whether some lanes compare.
#[tactic(auto, using(crate::proofs::LaneTests::some_none, crate::proofs::LaneTests::some_more))]
pub(crate) fn some_compare(comparison: Comparison, size: ElementSize, x: u128, y: u128) -> bool
    ensures { result
        ≡ some_lane (lane_count size) (lane_compares comparison (element_bits size) x y) }
{
    let mut some = false;
    for i in 0..size.lane_count() {
        some |= compare(
            comparison,
            size.bits(),
            element(size, x, i),
            element(size, y, i),
        );
    }
    some
}

/// Whether all lanes compare.
#[tactic(auto, using(crate::proofs::LaneTests::every_none, crate::proofs::LaneTests::every_more))]
pub(crate) fn every_compare(comparison: Comparison, size: ElementSize, x: u128, y: u128) -> bool
    ensures { result
        ≡ every_lane (lane_count size) (lane_compares comparison (element_bits size) x y) }
{
    let mut every = true;
    for i in 0..size.lane_count() {
        every &= compare(
            comparison,
            size.bits(),
            element(size, x, i),
            element(size, y, i),
        );
    }
    every
}

/// The code of a comparison: 0 all, 1 some, 3 none.
pub(crate) fn lanes_code(comparison: Comparison, size: ElementSize, x: u128, y: u128) -> u8
    ensures { result ≡ lanes_code_of comparison (element_bits size) (lane_count size) x y }
{
    if every_compare(comparison, size, x, y) {
        0
    } else if some_compare(comparison, size, x, y) {
        1
    } else {
        3
    }
}

/// The code of two elements: 0 equal, 1 first low, 2 first high.
pub(crate) fn order_code(sign: Signedness, size: ElementSize, x: u128, y: u128) -> u8
    ensures { result
        ≡ order_code_of sign (element_bits size) (lane_of (element_bits size) x 0)
        (lane_of (element_bits size) y 0) }
{
    let a = element(size, x, 0);
    let b = element(size, y, 0);
    if a == b {
        0
    } else if is_below(sign, size.bits(), a, b) {
        1
    } else {
        2
    }
}

/// The condition code that an operation sets.
pub fn code(operation: VectorOperation, first: u128, second: u128, third: u128) -> Option<u8>
    ensures { result ≡ code_of operation first second third }
{
    match operation {
        VectorOperation::Compare {
            comparison,
            size,
            sets_code,
        } => if sets_code {
            Some(lanes_code(comparison, size, second, third))
        } else {
            None
        },
        VectorOperation::CompareElement { sign, size } => Some(order_code(
            sign, size, first, second,
        )),
        _ => None,
    }
}

/// Whether some lane is zero.
#[tactic(auto, using(crate::proofs::LaneTests::some_none, crate::proofs::LaneTests::some_more))]
pub(crate) fn some_zero(size: ElementSize, y: u128) -> bool
    ensures { result ≡ some_lane (lane_count size) (lane_is_zero (element_bits size) y) }
{
    let mut some = false;
    for i in 0..size.lane_count() {
        some |= element(size, y, i) == 0;
    }
    some
}

/// Whether some quotient doesn't fit.
#[tactic(auto, using(crate::proofs::LaneTests::some_none, crate::proofs::LaneTests::some_more))]
pub(crate) fn some_overflow(sign: Signedness, size: ElementSize, x: u128, y: u128) -> bool
    ensures { result ≡ some_lane (lane_count size) (lane_overflows sign (element_bits size) x y) }
{
    let mut some = false;
    for i in 0..size.lane_count() {
        some |= overflows(sign, size.bits(), element(size, x, i), element(size, y, i));
    }
    some
}

/// Whether an operation divides by zero.
pub fn divides_by_zero(operation: VectorOperation, third: u128) -> bool
    ensures { result ≡ divides_by_zero_of operation third }
{
    match operation {
        VectorOperation::Divide { size, .. } => some_zero(size, third),
        _ => false,
    }
}

/// Whether a quotient of an operation doesn't fit.
pub fn division_overflows(operation: VectorOperation, second: u128, third: u128) -> bool
    ensures { result ≡ division_overflows_of operation second third }
{
    match operation {
        VectorOperation::Divide { sign, size, .. } => some_overflow(sign, size, second, third),
        _ => false,
    }
}
