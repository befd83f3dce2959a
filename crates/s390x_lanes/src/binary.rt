// Operators on two elements.
#![tactic(auto)]

ghost use Rattle.std.specs.Prelude.{◌≡◌, ℕ, ◌+◌, ◌-◌, ◌*◌, ◌/◌, ◌%◌, ◌^◌, ◌<◌, ◌≤◌, pos, ◌-ℤ◌};
ghost use Rattle.s390x_lanes.specs.Numbers.{wrapped_element};
ghost use Rattle.s390x_lanes.specs.Encoding.{rounded_mean};
ghost use Rattle.s390x_lanes.specs.Elements.{binary_result, average as average_of, elements_compare};

use crate::lane::ones;
use crate::number::{bias, is_below};
use crate::operators::{BinaryOperator, Comparison, Signedness};

/// `x - y`, wrapping.
pub(crate) fn subtract(w: u32, x: u128, y: u128) -> u128
    requires low { 0 < w }
    requires high { w ≤ 128 }
    requires x_fits { x < 2 ^ w }
    requires y_fits { y < 2 ^ w }
    ensures value { result ≡ wrapped_element w (pos x -ℤ pos y) }
    ensures fits { result < 2 ^ w }
{
    if y <= x { x - y } else { x + (ones(w) - y) + 1 }
}

/// The average of two unsigned numbers, rounded up.
pub(crate) fn mean(w: u32, x: u128, y: u128) -> u128
    requires low { 0 < w }
    requires high { w ≤ 128 }
    requires x_fits { x < 2 ^ w }
    requires y_fits { y < 2 ^ w }
    ensures value { result ≡ rounded_mean x y }
    ensures fits { result < 2 ^ w }
{
    x / 2 + y / 2 + (x % 2 + y % 2 + 1) / 2
}

/// The average, rounded up.
pub(crate) fn average(sign: Signedness, w: u32, x: u128, y: u128) -> u128
    requires low { 0 < w }
    requires high { w ≤ 128 }
    requires x_fits { x < 2 ^ w }
    requires y_fits { y < 2 ^ w }
    ensures value { result ≡ average_of sign w x y }
    ensures fits { result < 2 ^ w }
{
    match sign {
        Signedness::Unsigned => mean(w, x, y),
        Signedness::Signed => bias(w, mean(w, bias(w, x), bias(w, y))),
    }
}

/// The carry out of `x + y`.
pub(crate) fn carry(w: u32, x: u128, y: u128) -> u128
    requires low { 0 < w }
    requires high { w ≤ 128 }
    requires x_fits { x < 2 ^ w }
    requires y_fits { y < 2 ^ w }
    ensures { result ≡ (x + y) / 2 ^ w }
{
    if y <= ones(w) - x { 0 } else { 1 }
}

/// An operator on two elements.
pub(crate) fn binary(operator: BinaryOperator, w: u32, x: u128, y: u128) -> u128
    requires low { 0 < w }
    requires high { w ≤ 128 }
    requires x_fits { x < 2 ^ w }
    requires y_fits { y < 2 ^ w }
    ensures value { result ≡ binary_result operator w x y }
    ensures fits { result < 2 ^ w }
{
    let all = ones(w);
    match operator {
        BinaryOperator::Add => x.wrapping_add(y) & all,
        BinaryOperator::Sub => subtract(w, x, y),
        BinaryOperator::Mul => x.wrapping_mul(y) & all,
        BinaryOperator::AddCarryOut => carry(w, x, y),
        BinaryOperator::SubBorrowOut => if x < y { 0 } else { 1 },
        BinaryOperator::Max(sign) => if is_below(sign, w, x, y) { y } else { x },
        BinaryOperator::Min(sign) => if is_below(sign, w, x, y) { x } else { y },
        BinaryOperator::Average(sign) => average(sign, w, x, y),
        BinaryOperator::And => x & y,
        BinaryOperator::Or => x | y,
        BinaryOperator::Xor => x ^ y,
        BinaryOperator::NotAnd => all - (x & y),
        BinaryOperator::NotOr => all - (x | y),
        BinaryOperator::NotXor => all - (x ^ y),
        BinaryOperator::AndNot => x & (all - y),
        BinaryOperator::OrNot => x | (all - y),
    }
}

/// Whether a comparison holds.
pub(crate) fn compare(comparison: Comparison, w: u32, x: u128, y: u128) -> bool
    requires low { 0 < w }
    requires high { w ≤ 128 }
    requires x_fits { x < 2 ^ w }
    requires y_fits { y < 2 ^ w }
    ensures { result ≡ elements_compare comparison w x y }
{
    match comparison {
        Comparison::Equal => x == y,
        Comparison::High(sign) => is_below(sign, w, y, x),
    }
}
