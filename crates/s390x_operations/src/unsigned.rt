//! The operators on numbers without signs, comparisons, and pairs.

ghost use Rattle.std.specs.Prelude.{◌≡◌, ◌<◌, ◌%◌, ◌^◌, pos, neg_ℤ, ◌≤ℤ◌, ◌<ℤ◌, ◌≢◌, int_div, int_rem, Option};
ghost use Rattle.s390x_operations.specs.Numbers.{modulus, half, signed_number, low};
ghost use Rattle.s390x_operations.specs.Unsigned.{code_a, code_b, code_c, logical_value, logical_code, read, compare_code, wide_product, signed_division, unsigned_division, IsPairBelow};

use crate::{ConditionCode, LogicalOperator, Pair, Size, fits, low, signed_number};
use s390x_lanes::Signedness;

/// How many numbers have the size.
pub fn modulus(size: Size) -> u128
    ensures { result ≡ modulus size }
{
    match size {
        Size::Halfword => 65536,
        Size::Word => 4294967296,
        Size::Doubleword => 18446744073709551616,
    }
}

/// What of a number without a sign is kept.
pub fn residue(size: Size, x: u128) -> u64
    ensures value { result ≡ x % modulus size }
    ensures below { result < modulus size }
{
    match size {
        Size::Halfword => (x % 65536) as u64,
        Size::Word => (x % 4294967296) as u64,
        Size::Doubleword => (x % 18446744073709551616) as u64,
    }
}

/// Code A, of a logical sum.
fn code_a(size: Size, sum: u128) -> ConditionCode
    ensures { result ≡ code_a size sum }
{
    if sum < modulus(size) {
        if sum == 0 {
            ConditionCode::Code0
        } else {
            ConditionCode::Code1
        }
    } else if residue(size, sum) == 0 {
        ConditionCode::Code2
    } else {
        ConditionCode::Code3
    }
}

/// Code B, of a logical difference.
fn code_b(x: u64, y: u64) -> ConditionCode
    ensures { result ≡ code_b x y }
{
    if x < y {
        ConditionCode::Code1
    } else if x == y {
        ConditionCode::Code2
    } else {
        ConditionCode::Code3
    }
}

/// The value and the code of an operator.
pub fn logical_op(op: LogicalOperator, size: Size, x: u64, y: u64) -> (u64, ConditionCode)
    requires x_below { x < modulus size }
    requires y_below { y < modulus size }
    ensures value { result.0 ≡ logical_value op size x y }
    ensures code { result.1 ≡ logical_code op size x y }
    ensures below { result.0 < modulus size }
{
    match op {
        LogicalOperator::Add => {
            let sum = x as u128 + y as u128;
            (residue(size, sum), code_a(size, sum))
        }
        LogicalOperator::Subtract => {
            let sum = x as u128 + (modulus(size) - y as u128);
            (residue(size, sum), code_b(x, y))
        }
    }
}

/// The number, read with or without its sign.
pub fn read(sign: Signedness, size: Size, x: u64) -> i128
    requires { x < modulus size }
    ensures { result ≡ read sign size x }
{
    match sign {
        Signedness::Signed => signed_number(size, x),
        Signedness::Unsigned => x as i128,
    }
}

/// Code C, of comparisons.
fn code_c(x: i128, y: i128) -> ConditionCode
    ensures { result ≡ code_c x y }
{
    if x < y {
        ConditionCode::Code1
    } else if y < x {
        ConditionCode::Code2
    } else {
        ConditionCode::Code0
    }
}

/// Code C of two numbers, read with or without their signs.
pub fn compare_code(sign: Signedness, size: Size, x: u64, y: u64) -> ConditionCode
    requires x_below { x < modulus size }
    requires y_below { y < modulus size }
    ensures { result ≡ compare_code sign size x y }
{
    code_c(read(sign, size, x), read(sign, size, y))
}

/// The whole product of two registers.
pub fn wide_product(sign: Signedness, x: u64, y: u64) -> Pair
    ensures { result ≡ wide_product sign x y }
{
    match sign {
        Signedness::Signed => {
            let z = signed_number(Size::Doubleword, x) * signed_number(Size::Doubleword, y);
            Pair {
                high: low(Size::Doubleword, z >> 64),
                low: low(Size::Doubleword, z),
            }
        }
        Signedness::Unsigned => {
            let z = x as u128 * y as u128;
            Pair {
                high: (z / 18446744073709551616) as u64,
                low: (z % 18446744073709551616) as u64,
            }
        }
    }
}

/// The quotient, rounded towards zero.
fn quotient(x: i128, y: i128) -> i128
    requires x_least { neg_ℤ (pos (2 ^ 63)) ≤ℤ x }
    requires x_most { x <ℤ pos (2 ^ 63) }
    requires nonzero { y ≢ pos 0 }
    ensures { result ≡ int_div x y }
{
    x / y
}

/// The remainder, with the sign of the dividend.
fn remainder(x: i128, y: i128) -> i128
    requires x_least { neg_ℤ (pos (2 ^ 63)) ≤ℤ x }
    requires x_most { x <ℤ pos (2 ^ 63) }
    requires nonzero { y ≢ pos 0 }
    ensures { result ≡ int_rem x y }
{
    x % y
}

/// The remainder and the quotient of two numbers with signs.
fn division_pair(x: i128, y: i128) -> Option<Pair>
    requires x_least { neg_ℤ (pos (2 ^ 63)) ≤ℤ x }
    requires x_most { x <ℤ pos (2 ^ 63) }
    requires y_least { neg_ℤ (pos (2 ^ 63)) ≤ℤ y }
    requires y_most { y <ℤ pos (2 ^ 63) }
    ensures { result ≡ signed_division x y }
{
    if y == 0 {
        return None;
    }
    let q = quotient(x, y);
    if fits(Size::Doubleword, q) {
        Some(Pair {
            high: low(Size::Doubleword, remainder(x, y)),
            low: low(Size::Doubleword, q),
        })
    } else {
        None
    }
}

/// The remainder and the quotient of two numbers read with their signs; none where the divisor is zero or the quotient doesn't fit.
pub fn signed_division(x: u64, y: u64) -> Option<Pair>
    ensures { result
        ≡ signed_division (signed_number Size.Doubleword x) (signed_number Size.Doubleword y) }
{
    division_pair(
        signed_number(Size::Doubleword, x),
        signed_number(Size::Doubleword, y),
    )
}

/// The remainder and the quotient of the number in two parts; none where the divisor is zero or the quotient doesn't fit.
pub fn unsigned_division(size: Size, n: u128, y: u64) -> Option<Pair>
    requires { y < modulus size }
    ensures value { result ≡ unsigned_division size n y }
    ensures below { IsPairBelow size result }
{
    let y = y as u128;
    if y == 0 {
        return None;
    }
    if n / y < modulus(size) {
        Some(Pair {
            high: (n % y) as u64,
            low: (n / y) as u64,
        })
    } else {
        None
    }
}
