// One lane of the rows that move lanes, bytes and bits to other places.
#![tactic(auto)]

ghost use Rattle.std.specs.Prelude.{◌≡◌, ℕ, ◌+◌, ◌-◌, ◌*◌, ◌/◌, ◌%◌, ◌^◌, ◌<◌, ◌≤◌};
ghost use Rattle.s390x_lanes.specs.Size.{element_bits, lane_count, wider};
ghost use Rattle.s390x_lanes.specs.Places.{lane_of_pair, first_of_half, pair_product, packed_lane, merged_lane, unpacked_lane, byte_of_mask, bit_mask, selected_bits, permuted_byte, chosen_doubleword, shifted_lane, shift_byte_count, chosen_bit, chosen_bits};

use crate::lane::{append, element, lane, ones};
use crate::number::sign_bit;
use crate::operators::{Half, Narrowing, Parity, ShiftOperator, Signedness};
use crate::products::multiply;
use crate::size::ElementSize;
use crate::unary::{narrow, shift, widen};

/// The even or the odd lane of pair `i`.
pub(crate) fn pair_lane(parity: Parity, i: u32) -> u32
    requires { i ≤ 8 }
    ensures value { result ≡ lane_of_pair parity i }
    ensures below { result ≤ 2 * i + 1 }
{
    match parity {
        Parity::Even => 2 * i,
        Parity::Odd => 2 * i + 1,
    }
}

/// The first lane of a half of `2 * lanes` lanes.
pub(crate) fn first_lane(half: Half, lanes: u32) -> u32
    ensures value { result ≡ first_of_half half lanes }
    ensures below { result ≤ lanes }
{
    match half {
        Half::High => 0,
        Half::Low => lanes,
    }
}

/// The product of two even or two odd lanes.
pub(crate) fn multiply_pair(
    sign: Signedness,
    parity: Parity,
    size: ElementSize,
    x: u128,
    y: u128,
    i: u32,
) -> u128
    requires narrow { element_bits size ≤ 64 }
    requires inside { i < lane_count (wider size) }
    ensures value { result ≡ pair_product sign parity (element_bits size) x y i }
    ensures fits { result < 2 ^ element_bits (wider size) }
{
    let k = pair_lane(parity, i);
    multiply(sign, size.bits(), element(size, x, k), element(size, y, k))
}

/// A lane of two registers, in half its bits.
pub(crate) fn pack(narrowing: Narrowing, size: ElementSize, x: u128, y: u128, i: u32) -> u128
    requires narrow { element_bits size ≤ 64 }
    requires inside { i < lane_count size }
    ensures value { result
        ≡ packed_lane narrowing (element_bits size) (lane_count (wider size)) x y i }
    ensures fits { result < 2 ^ element_bits size }
{
    let lanes = size.wider().lane_count();
    let v = if i < lanes {
        element(size.wider(), x, i)
    } else {
        element(size.wider(), y, i - lanes)
    };
    narrow(narrowing, size.bits(), v)
}

/// A lane of two halves, alternating.
pub(crate) fn merge(half: Half, size: ElementSize, x: u128, y: u128, i: u32) -> u128
    requires narrow { element_bits size ≤ 64 }
    requires inside { i < lane_count size }
    ensures value { result ≡ merged_lane half (element_bits size) (lane_count (wider size)) x y i }
    ensures fits { result < 2 ^ element_bits size }
{
    let k = i / 2 + first_lane(half, size.wider().lane_count());
    if i % 2 == 0 {
        element(size, x, k)
    } else {
        element(size, y, k)
    }
}

/// A lane of a half, in twice its bits.
pub(crate) fn unpack(sign: Signedness, half: Half, size: ElementSize, x: u128, i: u32) -> u128
    requires narrow { element_bits size ≤ 64 }
    requires inside { i < lane_count (wider size) }
    ensures value { result
        ≡ unpacked_lane sign half (element_bits size) (lane_count (wider size)) x i }
    ensures fits { result < 2 ^ element_bits (wider size) }
{
    let k = i + first_lane(half, size.wider().lane_count());
    widen(sign, size.bits(), element(size, x, k))
}

/// Byte `i` of a byte mask.
pub(crate) fn mask_byte(mask: u16, i: u32) -> u128
    requires { i < 16 }
    ensures value { result ≡ byte_of_mask mask i }
    ensures fits { result < 2 ^ 8 }
{
    if (mask >> (15 - i)) & 1 == 1 { 255 } else { 0 }
}

/// Ones from bit `start` to bit `end`, wrapping.
pub(crate) fn mask_bits(w: u32, start: u32, end: u32) -> u128
    requires width { w ≤ 64 }
    requires start_in { start < w }
    requires end_in { end < w }
    ensures value { result ≡ bit_mask w start end }
    ensures fits { result < 2 ^ w }
{
    let last = sign_bit(w - end);
    if start <= end {
        ones(w - start) + 1 - last
    } else {
        ones(w) + 1 - last + ones(w - start)
    }
}

/// `x` where `z` has ones, else `y`.
pub(crate) fn select(x: u128, y: u128, z: u128) -> u128
    ensures { result ≡ selected_bits x y z }
{
    (x & z) | (y & (u128::MAX - z))
}

/// Byte `i` of a permutation.
pub(crate) fn permute(x: u128, y: u128, z: u128, i: u32) -> u128
    requires { i < 16 }
    ensures value { result ≡ permuted_byte x y z i }
    ensures fits { result < 2 ^ 8 }
{
    let k = (element(ElementSize::Byte, z, i) % 32) as u32;
    if k < 16 {
        element(ElementSize::Byte, x, k)
    } else {
        element(ElementSize::Byte, y, k - 16)
    }
}

/// Doubleword `i` of doubleword `a` of `x` and doubleword `b` of `y`.
pub(crate) fn permute_doubleword(a: u32, b: u32, x: u128, y: u128, i: u32) -> u128
    requires a_in { a < 2 }
    requires b_in { b < 2 }
    ensures value { result ≡ chosen_doubleword a b x y i }
    ensures fits { result < 2 ^ 64 }
{
    if i == 0 {
        element(ElementSize::Doubleword, x, a)
    } else {
        element(ElementSize::Doubleword, y, b)
    }
}

/// A lane, shifted by an amount modulo its width.
pub(crate) fn shift_element(
    operator: ShiftOperator,
    size: ElementSize,
    amount: u32,
    x: u128,
    i: u32,
) -> u128
    requires { i < lane_count size }
    ensures value { result ≡ shifted_lane operator (element_bits size) amount x i }
    ensures fits { result < 2 ^ element_bits size }
{
    shift(
        operator,
        size.bits(),
        element(size, x, i),
        amount % size.bits(),
    )
}

/// The count of a shift by bytes.
pub(crate) fn byte_count(y: u128) -> u32
    ensures value { result ≡ shift_byte_count y }
    ensures below { result < 16 }
{
    (element(ElementSize::Byte, y, 7) / 8 % 16) as u32
}

/// The bit of `x` that byte `i` of `y` chooses.
pub(crate) fn choose_bit(x: u128, y: u128, i: u32) -> u128
    requires { i < 16 }
    ensures value { result ≡ chosen_bit x y i }
    ensures fits { result < 2 }
{
    let k = element(ElementSize::Byte, y, i) as u32;
    if k < 128 { lane(1, x, k) } else { 0 }
}

/// The bits of `x` that the bytes of `y` choose.
pub(crate) fn choose_bits(x: u128, y: u128) -> u128
    ensures { result ≡ chosen_bits x y }
{
    let mut all = 0;
    for i in 0..16 {
        let v = choose_bit(x, y, i);
        all = append(1, all, v);
    }
    all << 64
}
