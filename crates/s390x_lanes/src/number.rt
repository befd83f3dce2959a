// Elements of `w` bits as numbers.
#![tactic(auto)]

ghost use Rattle.std.specs.Prelude.{◌≡◌, ℕ, ◌+◌, ◌-◌, ◌*◌, ◌^◌, ◌<◌, ◌≤◌};
ghost use Rattle.s390x_lanes.specs.Numbers.{element_number, wrapped_element};
ghost use Rattle.s390x_lanes.specs.Encoding.{biased_element, sign_extended, negation, magnitude};
ghost use Rattle.s390x_lanes.specs.Elements.{is_lower};

use crate::lane::ones;
use crate::operators::Signedness;

/// The sign bit.
pub(crate) fn sign_bit(w: u32) -> u128
    requires low { 0 < w }
    requires high { w ≤ 128 }
    ensures { result ≡ 2 ^ (w - 1) }
{
    1 << (w - 1)
}

/// With the sign bit inverted.
pub(crate) fn bias(w: u32, x: u128) -> u128
    requires low { 0 < w }
    requires high { w ≤ 128 }
    requires fits { x < 2 ^ w }
    ensures value { result ≡ biased_element w x }
    ensures fits { result < 2 ^ w }
{
    let sign = sign_bit(w);
    if x < sign { x + sign } else { x - sign }
}

/// Whether `x` holds a lower number than `y`.
pub(crate) fn is_below(sign: Signedness, w: u32, x: u128, y: u128) -> bool
    requires low { 0 < w }
    requires high { w ≤ 128 }
    requires x_fits { x < 2 ^ w }
    requires y_fits { y < 2 ^ w }
    ensures { result ≡ is_lower sign w x y }
{
    match sign {
        Signedness::Unsigned => x < y,
        Signedness::Signed => bias(w, x) < bias(w, y),
    }
}

/// Sign-extended to `v` bits.
pub(crate) fn sign_extend(w: u32, v: u32, x: u128) -> u128
    requires low { 0 < w }
    requires order { w ≤ v }
    requires high { v ≤ 128 }
    requires fits { x < 2 ^ w }
    ensures value { result ≡ sign_extended w v x }
    ensures fits { result < 2 ^ v }
{
    if x < sign_bit(w) {
        x
    } else {
        x + (ones(v) - ones(w))
    }
}

/// The two's complement.
pub(crate) fn negate(w: u32, x: u128) -> u128
    requires low { 0 < w }
    requires high { w ≤ 128 }
    requires fits { x < 2 ^ w }
    ensures value { result ≡ negation w x }
    ensures fits { result < 2 ^ w }
{
    if x == 0 { 0 } else { ones(w) - x + 1 }
}

/// How far the signed number is from 0.
pub(crate) fn absolute_value(w: u32, x: u128) -> u128
    requires low { 0 < w }
    requires high { w ≤ 128 }
    requires fits { x < 2 ^ w }
    ensures value { result ≡ magnitude w x }
    ensures fits { result < 2 ^ w }
{
    if x < sign_bit(w) { x } else { ones(w) - x + 1 }
}
