//! The operators on bits.

ghost use Rattle.std.specs.Prelude.{◌≡◌, ◌<◌, ◌≤◌, ◌-◌, ◌^◌};
ghost use Rattle.s390x_operations.specs.Numbers.{modulus, half, signed_number, low};
ghost use Rattle.s390x_operations.specs.Bits.{code_z, complement, bit_value, rotate_value, shift_value, shift_code, selection, combined_bits, select_value, select_code, ones_by_byte, bytes_in_reverse, leftmost};

use crate::unsigned::residue;
use crate::{
    BitOperator, ConditionCode, Pair, SelectedBitsOperator, Size, code_s, low, signed_number,
};
use s390x_lanes::ShiftOperator;

/// ConditionCode Z.
pub fn code_z(x: u64) -> ConditionCode
    ensures { result ≡ code_z x }
{
    if x == 0 {
        ConditionCode::Code0
    } else {
        ConditionCode::Code1
    }
}

/// Every bit inverted.
pub fn complement(size: Size, x: u64) -> u64
    requires { x < modulus size }
    ensures value { result ≡ complement size x }
    ensures below { result < modulus size }
{
    match size {
        Size::Halfword => 0xffff - x,
        Size::Word => 0xffff_ffff - x,
        Size::Doubleword => 0xffff_ffff_ffff_ffff - x,
    }
}

/// The value of an operator on the bits of two numbers.
#[tactic(auto, using(crate::proofs::Numbers::or_below, crate::proofs::Numbers::xor_below))]
pub fn bit_op(op: BitOperator, size: Size, x: u64, y: u64) -> u64
    requires x_below { x < modulus size }
    requires y_below { y < modulus size }
    ensures value { result ≡ bit_value op size x y }
    ensures below { result < modulus size }
{
    match op {
        BitOperator::And => x & y,
        BitOperator::Or => x | y,
        BitOperator::Xor => x ^ y,
        BitOperator::NotAnd => complement(size, x & y),
        BitOperator::NotOr => complement(size, x | y),
        BitOperator::NotXor => complement(size, x ^ y),
        BitOperator::AndNot => x & complement(size, y),
        BitOperator::OrNot => x | complement(size, y),
    }
}

/// The number, rotated to the left by so many bits.
pub fn rotate_value(size: Size, x: u64, k: u32) -> u64
    requires { x < modulus size }
    ensures value { result ≡ rotate_value size x k }
    ensures below { result < modulus size }
{
    match size {
        Size::Halfword => (x as u16).rotate_left(k) as u64,
        Size::Word => (x as u32).rotate_left(k) as u64,
        Size::Doubleword => x.rotate_left(k),
    }
}

/// The number, shifted or rotated by so many bits.
pub fn shift_value(op: ShiftOperator, size: Size, x: u64, k: u32) -> u64
    requires x_below { x < modulus size }
    requires k_below { k < 64 }
    ensures value { result ≡ shift_value op size x k }
    ensures below { result < modulus size }
{
    match op {
        ShiftOperator::RotateLeft => rotate_value(size, x, k),
        ShiftOperator::ShiftLeft => residue(size, (x as u128) << k),
        ShiftOperator::ShiftRightLogical => x >> k,
        ShiftOperator::ShiftRightArithmetic => low(size, signed_number(size, x) >> k),
    }
}

/// The code of a shift to the right with the sign.
pub fn shift_code(size: Size, x: u64, k: u32) -> ConditionCode
    requires x_below { x < modulus size }
    requires k_below { k < 64 }
    ensures { result ≡ shift_code size x k }
{
    code_s(size, signed_number(size, x) >> k)
}

/// A power of two.
fn power(k: u32) -> u128
    requires { k ≤ 64 }
    ensures { result ≡ 2 ^ k }
{
    1 << k
}

/// Ones from bit start to bit end, numbered from the left, wrapping. Rows have numbers below 64.
#[tactic(auto, using(crate::proofs::Numbers::mask_bounds))]
pub fn selection(start: u8, end: u8) -> u64
    ensures { result ≡ selection start end }
{
    let low = power(63u32.saturating_sub(end as u32));
    let high = power(64u32.saturating_sub(start as u32));
    if start <= end {
        (high - low) as u64
    } else {
        (power(64) - low + (high - 1)) as u64
    }
}

/// What the operator makes of all bits, as if each was selected.
#[tactic(auto, using(crate::proofs::Numbers::and_below, crate::proofs::Numbers::or_below, crate::proofs::Numbers::xor_below))]
fn combined_bits(op: SelectedBitsOperator, size: Size, x: u64, y: u64) -> u64
    requires x_below { x < modulus size }
    requires y_below { y < modulus size }
    ensures value { result ≡ combined_bits op x y }
    ensures below { result < modulus size }
{
    match op {
        SelectedBitsOperator::Insert => y,
        SelectedBitsOperator::And => x & y,
        SelectedBitsOperator::Or => x | y,
        SelectedBitsOperator::Xor => x ^ y,
    }
}

/// The combined bits under the mask, the bits of x elsewhere, and code Z of the combined ones.
#[tactic(auto, using(crate::proofs::Numbers::and_below, crate::proofs::Numbers::or_below))]
pub fn select_op(
    op: SelectedBitsOperator,
    mask: u64,
    size: Size,
    x: u64,
    y: u64,
) -> (u64, ConditionCode)
    requires x_below { x < modulus size }
    requires y_below { y < modulus size }
    ensures value { result.0 ≡ select_value op mask x y }
    ensures code { result.1 ≡ select_code op mask x y }
    ensures below { result.0 < modulus size }
{
    let taken = combined_bits(op, size, x, y) & mask;
    (
        taken | (x & complement(Size::Doubleword, mask)),
        code_z(taken),
    )
}

/// How many zeros stand leftmost, and the rest without its leftmost one.
#[tactic(auto, using(crate::proofs::Numbers::leftmost_one, crate::proofs::Numbers::leading_all))]
pub fn leftmost(x: u64) -> Pair
    ensures { result ≡ leftmost x }
{
    if x == 0 {
        Pair { high: 64, low: 0 }
    } else {
        let zeros = x.leading_zeros();
        Pair {
            high: zeros as u64,
            low: x - (1 << (63 - zeros)),
        }
    }
}
