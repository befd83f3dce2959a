//! The operators on numbers with signs.

ghost use Rattle.std.specs.Prelude.{◌≡◌, ◌<◌, ◌^◌, pos, neg_ℤ, ◌≤ℤ◌, ◌<ℤ◌};
ghost use Rattle.s390x_operations.specs.Numbers.{modulus, half, signed_number, fits, low};
ghost use Rattle.s390x_operations.specs.Signed.{exact_result, code_s, signed_value, signed_code};

use crate::operator::SignedOperator;
use crate::size::Size;
use crate::stop::ConditionCode;

/// How many numbers have the size.
pub fn modulus(size: Size) -> i128
    ensures { result ≡ pos (modulus size) }
{
    match size {
        Size::Halfword => 65536,
        Size::Word => 4294967296,
        Size::Doubleword => 18446744073709551616,
    }
}

/// How many of them have no sign.
pub fn half(size: Size) -> i128
    ensures { result ≡ pos (half size) }
{
    match size {
        Size::Halfword => 32768,
        Size::Word => 2147483648,
        Size::Doubleword => 9223372036854775808,
    }
}

/// The number read with its sign.
pub fn signed_number(size: Size, x: u64) -> i128
    requires { x < modulus size }
    ensures value { result ≡ signed_number size x }
    ensures least { neg_ℤ (pos (2 ^ 63)) ≤ℤ result }
    ensures most { result <ℤ pos (2 ^ 63) }
{
    let x = x as i128;
    if x < half(size) { x } else { x - modulus(size) }
}

/// What of the exact result is kept.
pub fn low(size: Size, z: i128) -> u64
    ensures value { result ≡ low size z }
    ensures below { result < modulus size }
{
    match size {
        Size::Halfword => z.rem_euclid(65536) as u64,
        Size::Word => z.rem_euclid(4294967296) as u64,
        Size::Doubleword => z.rem_euclid(18446744073709551616) as u64,
    }
}

/// The exact result is a number with sign of the size.
pub fn fits(size: Size, z: i128) -> bool
    ensures { result ≡ fits size z }
{
    -half(size) <= z && z < half(size)
}

/// Code S, of signed results.
pub fn code_s(size: Size, z: i128) -> ConditionCode
    ensures { result ≡ code_s size z }
{
    if !fits(size, z) {
        ConditionCode::Code3
    } else if z < 0 {
        ConditionCode::Code1
    } else if z > 0 {
        ConditionCode::Code2
    } else {
        ConditionCode::Code0
    }
}

/// The exact result.
pub fn exact_result(op: SignedOperator, x: i128, y: i128) -> i128
    requires x_least { neg_ℤ (pos (2 ^ 63)) ≤ℤ x }
    requires x_most { x <ℤ pos (2 ^ 63) }
    requires y_least { neg_ℤ (pos (2 ^ 63)) ≤ℤ y }
    requires y_most { y <ℤ pos (2 ^ 63) }
    ensures { result ≡ exact_result op x y }
{
    match op {
        SignedOperator::Add => x + y,
        SignedOperator::Subtract => x - y,
        SignedOperator::Multiply => x * y,
        SignedOperator::Negate => -y,
        SignedOperator::Absolute => y.abs(),
    }
}

/// The value and the code of an operator.
pub fn signed_op(op: SignedOperator, size: Size, x: u64, y: u64) -> (u64, ConditionCode)
    requires x_below { x < modulus size }
    requires y_below { y < modulus size }
    ensures value { result.0 ≡ signed_value op size x y }
    ensures code { result.1 ≡ signed_code op size x y }
    ensures below { result.0 < modulus size }
{
    let z = exact_result(op, signed_number(size, x), signed_number(size, y));
    (low(size, z), code_s(size, z))
}
