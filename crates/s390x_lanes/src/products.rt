// Products and quotients of two elements.
#![tactic(auto)]

ghost use Rattle.std.specs.Prelude.{◌≡◌, ℕ, ◌+◌, ◌-◌, ◌*◌, ◌/◌, ◌%◌, ◌^◌, ◌<◌, ◌≤◌};
ghost use Rattle.s390x_lanes.specs.Encoding.{quotient_bits, remainder_bits};
ghost use Rattle.s390x_lanes.specs.Elements.{product, high_product, division_result, quotient_overflows};

use crate::lane::ones;
use crate::number::{absolute_value, negate, sign_bit, sign_extend};
use crate::operators::{Division, Signedness};

/// The whole product, of `2 * w` bits.
pub(crate) fn multiply(sign: Signedness, w: u32, x: u128, y: u128) -> u128
    requires low { 0 < w }
    requires high { w ≤ 64 }
    requires x_fits { x < 2 ^ w }
    requires y_fits { y < 2 ^ w }
    ensures value { result ≡ product sign w x y }
    ensures fits { result < 2 ^ (2 * w) }
{
    match sign {
        Signedness::Unsigned => x * y,
        Signedness::Signed => {
            sign_extend(w, 2 * w, x).wrapping_mul(sign_extend(w, 2 * w, y)) & ones(2 * w)
        }
    }
}

/// The left half of the product.
pub(crate) fn multiply_high(sign: Signedness, w: u32, x: u128, y: u128) -> u128
    requires low { 0 < w }
    requires high { w ≤ 64 }
    requires x_fits { x < 2 ^ w }
    requires y_fits { y < 2 ^ w }
    ensures value { result ≡ high_product sign w x y }
    ensures fits { result < 2 ^ w }
{
    multiply(sign, w, x, y) >> w
}

/// A signed quotient, rounded towards zero.
pub(crate) fn quotient_signed(w: u32, x: u128, y: u128) -> u128
    requires low { 0 < w }
    requires high { w ≤ 128 }
    requires x_fits { x < 2 ^ w }
    requires y_fits { y < 2 ^ w }
    requires nonzero { 0 < y }
    ensures value { result ≡ quotient_bits w x y }
    ensures fits { result < 2 ^ w }
{
    let quotient = absolute_value(w, x) / absolute_value(w, y);
    if x < sign_bit(w) {
        if y < sign_bit(w) {
            quotient
        } else {
            negate(w, quotient)
        }
    } else {
        if y < sign_bit(w) {
            negate(w, quotient)
        } else {
            quotient
        }
    }
}

/// The remainder of a signed quotient: it has the dividend's sign.
pub(crate) fn remainder_signed(w: u32, x: u128, y: u128) -> u128
    requires low { 0 < w }
    requires high { w ≤ 128 }
    requires x_fits { x < 2 ^ w }
    requires y_fits { y < 2 ^ w }
    requires nonzero { 0 < y }
    ensures value { result ≡ remainder_bits w x y }
    ensures fits { result < 2 ^ w }
{
    let remainder = absolute_value(w, x) % absolute_value(w, y);
    if x < sign_bit(w) {
        remainder
    } else {
        negate(w, remainder)
    }
}

/// A quotient or a remainder; 0 where the divisor is.
pub(crate) fn divide(division: Division, sign: Signedness, w: u32, x: u128, y: u128) -> u128
    requires low { 0 < w }
    requires high { w ≤ 128 }
    requires x_fits { x < 2 ^ w }
    requires y_fits { y < 2 ^ w }
    ensures value { result ≡ division_result division sign w x y }
    ensures fits { result < 2 ^ w }
{
    if y == 0 {
        return 0;
    }
    match division {
        Division::Quotient => match sign {
            Signedness::Unsigned => x / y,
            Signedness::Signed => quotient_signed(w, x, y),
        },
        Division::Remainder => match sign {
            Signedness::Unsigned => x % y,
            Signedness::Signed => remainder_signed(w, x, y),
        },
    }
}

/// Whether the quotient passes the greatest number.
pub(crate) fn overflows(sign: Signedness, w: u32, x: u128, y: u128) -> bool
    requires low { 0 < w }
    requires high { w ≤ 128 }
    requires x_fits { x < 2 ^ w }
    requires y_fits { y < 2 ^ w }
    ensures { result ≡ quotient_overflows sign w x y }
{
    match sign {
        Signedness::Unsigned => false,
        Signedness::Signed => x == sign_bit(w) && y == ones(w),
    }
}
