//! Numbers as bytes.

ghost use Rattle.std.specs.Prelude.{◌≡◌, ◌<◌, ◌≤◌, ◌-◌, ◌+◌, ◌*◌, ◌%◌, ◌^◌};
ghost use Rattle.s390x_operations.specs.Numbers.{modulus};
ghost use Rattle.s390x_operations.specs.Bits.{ones_by_byte, bytes_in_reverse, bits_of_width, bytes, extended_bits, IsWithin};

use crate::unsigned::modulus;
use crate::{Size, Width};
use s390x_lanes::Signedness;

/// The ones of each of the lowest bytes.
#[tactic(auto, using(crate::proofs::Runs::ones_none, crate::proofs::Runs::ones_more, crate::proofs::Runs::ones_of_byte, crate::proofs::Numbers::room))]
pub fn ones_by_byte(n: u8, x: u64) -> u64
    requires { n ≤ 8 }
    ensures value { result ≡ ones_by_byte n x }
    ensures at_most { result ≤ x }
{
    if n == 0 {
        0
    } else {
        ones_by_byte(n - 1, x / 256) * 256 + (x % 256).count_ones() as u64
    }
}

/// The lowest bytes of a number in reverse order.
#[tactic(auto, using(crate::proofs::Runs::reversed_none, crate::proofs::Runs::reversed_more, crate::proofs::Numbers::room))]
pub fn bytes_in_reverse(n: u8, x: u64) -> u64
    requires { n ≤ 8 }
    ensures { result ≡ bytes_in_reverse n x }
{
    let mut rest = x;
    let mut done: u64 = 0;
    for i in 0..n {
        done = done * 256 + rest % 256;
        rest = rest / 256;
    }
    done
}

/// How many bytes a width has.
pub fn bytes(width: Width) -> u8
    ensures value { result ≡ bytes width }
    ensures at_most { result ≤ 8 }
    ensures nonzero { 0 < result }
{
    match width {
        Width::Bits8 => 1,
        Width::Bits16 => 2,
        Width::Bits32 => 4,
        Width::Bits64 => 8,
    }
}

/// How many numbers have the width.
pub fn count(width: Width) -> u128
    ensures { result ≡ 2 ^ bits_of_width width }
{
    match width {
        Width::Bits8 => 256,
        Width::Bits16 => 65536,
        Width::Bits32 => 4294967296,
        Width::Bits64 => 18446744073709551616,
    }
}

/// How many of them have no sign.
fn half_count(width: Width) -> u128
    ensures { result ≡ 2 ^ (bits_of_width width - 1) }
{
    match width {
        Width::Bits8 => 128,
        Width::Bits16 => 32768,
        Width::Bits32 => 2147483648,
        Width::Bits64 => 9223372036854775808,
    }
}

/// The lowest bits of a number.
fn low_bits(width: Width, x: u64) -> u64
    ensures value { result ≡ x % 2 ^ bits_of_width width }
    ensures below { result < 2 ^ bits_of_width width }
{
    match width {
        Width::Bits8 => x % 256,
        Width::Bits16 => x % 65536,
        Width::Bits32 => x % 4294967296,
        Width::Bits64 => x,
    }
}

/// The lowest bits, extended to a size.
pub fn extended_bits(sign: Signedness, width: Width, size: Size, x: u64) -> u64
    requires { IsWithin width size }
    ensures value { result ≡ extended_bits sign width size x }
    ensures below { result < modulus size }
{
    let kept = low_bits(width, x) as u128;
    match sign {
        Signedness::Unsigned => kept as u64,
        Signedness::Signed => {
            if kept < half_count(width) {
                kept as u64
            } else {
                (kept + (modulus(size) - count(width))) as u64
            }
        }
    }
}
