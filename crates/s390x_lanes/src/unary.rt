// Operators on one element.
#![tactic(auto)]

ghost use Rattle.std.specs.Prelude.{◌≡◌, ℕ, ◌+◌, ◌-◌, ◌*◌, ◌/◌, ◌%◌, ◌^◌, ◌<◌, ◌≤◌, bit_or};
ghost use lib.Count.{count_leading_zeros, count_trailing_zeros};
ghost use Rattle.s390x_lanes.specs.Numbers.{element_number, wrapped_element, saturated_value};
ghost use Rattle.s390x_lanes.specs.Encoding.{shifted_right, saturated_bits};
ghost use Rattle.s390x_lanes.specs.Elements.{unary_result, element_shifted, narrowed_element, element_widened, immediate as immediate_of};

use crate::lane::ones;
use crate::number::{absolute_value, negate, sign_bit, sign_extend};
use crate::operators::{Narrowing, ShiftOperator, Signedness, UnaryOperator};

/// The zeros at the left.
pub(crate) fn leading_zeros(w: u32, x: u128) -> u128
    requires low { 0 < w }
    requires high { w ≤ 128 }
    requires fits { x < 2 ^ w }
    ensures { result ≡ count_leading_zeros w x }
{
    (x.leading_zeros() - (128 - w)) as u128
}

/// The zeros at the right.
pub(crate) fn trailing_zeros(w: u32, x: u128) -> u128
    requires low { 0 < w }
    requires high { w ≤ 128 }
    requires fits { x < 2 ^ w }
    ensures { result ≡ count_trailing_zeros w x }
{
    if x == 0 {
        w as u128
    } else {
        x.trailing_zeros() as u128
    }
}

/// An operator on one element.
pub(crate) fn unary(operator: UnaryOperator, w: u32, x: u128) -> u128
    requires low { 8 ≤ w }
    requires high { w ≤ 128 }
    requires fits { x < 2 ^ w }
    ensures value { result ≡ unary_result operator w x }
    ensures fits { result < 2 ^ w }
{
    match operator {
        UnaryOperator::Abs => absolute_value(w, x),
        UnaryOperator::Neg => negate(w, x),
        UnaryOperator::LeadingZeros => leading_zeros(w, x),
        UnaryOperator::TrailingZeros => trailing_zeros(w, x),
        UnaryOperator::PopulationCount => x.count_ones() as u128,
    }
}

/// A signed number divided by a power of two, rounded down.
pub(crate) fn shift_right_signed(w: u32, x: u128, amount: u32) -> u128
    requires high { w ≤ 128 }
    requires fits { x < 2 ^ w }
    requires below { amount < w }
    ensures value { result ≡ shifted_right w x amount }
    ensures fits { result < 2 ^ w }
{
    let all = ones(w);
    if x < sign_bit(w) {
        x >> amount
    } else {
        all - ((all - x) >> amount)
    }
}

/// A shift by an amount below the width.
pub(crate) fn shift(operator: ShiftOperator, w: u32, x: u128, amount: u32) -> u128
    requires high { w ≤ 128 }
    requires fits { x < 2 ^ w }
    requires below { amount < w }
    ensures value { result ≡ element_shifted operator w x amount }
    ensures fits { result < 2 ^ w }
{
    let all = ones(w);
    match operator {
        // A shift by 128 is none, so the second one is made in two.
        ShiftOperator::RotateLeft => ((x << amount) & all) | ((x >> (w - amount - 1)) >> 1),
        ShiftOperator::ShiftLeft => (x << amount) & all,
        ShiftOperator::ShiftRightLogical => x >> amount,
        ShiftOperator::ShiftRightArithmetic => shift_right_signed(w, x, amount),
    }
}

/// A signed number of `2 * w` bits, saturated to `w`.
pub(crate) fn saturate_signed(w: u32, x: u128) -> u128
    requires low { 0 < w }
    requires high { w ≤ 64 }
    requires fits { x < 2 ^ (2 * w) }
    ensures value { result ≡ saturated_bits w x }
    ensures fits { result < 2 ^ w }
{
    let limit = sign_bit(w);
    if x < sign_bit(2 * w) {
        if x < limit { x } else { limit - 1 }
    } else {
        let below = negate(2 * w, x);
        if below <= limit {
            negate(w, below)
        } else {
            limit
        }
    }
}

/// An element of `2 * w` bits in `w`.
pub(crate) fn narrow(narrowing: Narrowing, w: u32, x: u128) -> u128
    requires low { 0 < w }
    requires high { w ≤ 64 }
    requires fits { x < 2 ^ (2 * w) }
    ensures value { result ≡ narrowed_element narrowing w x }
    ensures fits { result < 2 ^ w }
{
    match narrowing {
        Narrowing::Modulo => x & ones(w),
        Narrowing::Saturate(sign) => saturate(sign, w, x),
    }
}

/// A number of `2 * w` bits, saturated to `w`.
pub(crate) fn saturate(sign: Signedness, w: u32, x: u128) -> u128
    requires low { 0 < w }
    requires high { w ≤ 64 }
    requires fits { x < 2 ^ (2 * w) }
    ensures value { result
        ≡ wrapped_element w (saturated_value sign w (element_number sign (2 * w) x)) }
    ensures fits { result < 2 ^ w }
{
    match sign {
        Signedness::Unsigned => if x < ones(w) { x } else { ones(w) },
        Signedness::Signed => saturate_signed(w, x),
    }
}

/// An element of `w` bits in `2 * w`.
pub(crate) fn widen(sign: Signedness, w: u32, x: u128) -> u128
    requires low { 0 < w }
    requires high { w ≤ 64 }
    requires fits { x < 2 ^ w }
    ensures value { result ≡ element_widened sign w x }
    ensures fits { result < 2 ^ (2 * w) }
{
    match sign {
        Signedness::Unsigned => x,
        Signedness::Signed => sign_extend(w, 2 * w, x),
    }
}

/// A 16-bit immediate, sign-extended or cut to `w` bits.
pub(crate) fn immediate(w: u32, value: u16) -> u128
    requires low { 0 < w }
    requires high { w ≤ 128 }
    ensures value { result ≡ immediate_of w value }
    ensures fits { result < 2 ^ w }
{
    sign_extend(16, 128, value as u128) & ones(w)
}
