// Lanes of 128 bits, numbered from the left.
#![tactic(auto)]

ghost use Rattle.std.specs.Prelude.{◌≡◌, ℕ, ◌+◌, ◌-◌, ◌*◌, ◌^◌, ◌<◌, ◌≤◌};
ghost use Rattle.s390x_lanes.specs.Size.{element_bits, lane_count};
ghost use Rattle.s390x_lanes.specs.Lanes.{lane as lane_of};

use crate::size::ElementSize;

/// The low `w` bits, all ones.
pub(crate) fn ones(w: u32) -> u128
    requires low { 0 < w }
    requires high { w ≤ 128 }
    ensures { result ≡ 2 ^ w - 1 }
{
    u128::MAX >> (128 - w)
}

/// Lane `i` of `w` bits.
pub(crate) fn lane(w: u32, x: u128, i: u32) -> u128
    requires low { 0 < w }
    requires high { w * (i + 1) ≤ 128 }
    ensures value { result ≡ lane_of w x i }
    ensures fits { result < 2 ^ w }
{
    (x >> (128 - w * (i + 1))) & ones(w)
}

/// Element `i` of `x`.
pub fn element(size: ElementSize, x: u128, i: u32) -> u128
    requires { i < lane_count size }
    ensures value { result ≡ lane_of (element_bits size) x i }
    ensures fits { result < 2 ^ element_bits size }
{
    lane(size.bits(), x, i)
}

/// The lanes in `x`, and one more at the right.
pub fn append(w: u32, x: u128, v: u128) -> u128
    requires low { 0 < w }
    requires high { w ≤ 128 }
    requires fits { x * 2 ^ w + v < 2 ^ 128 }
    ensures { result ≡ x * 2 ^ w + v }
{
    // A shift by 128 is none, so it is made in two.
    ((x << (w - 1)) << 1) + v
}
