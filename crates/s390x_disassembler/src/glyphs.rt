//! Numbers in digits.
ghost use Rattle.std.specs.Prelude.{◌≡◌, ◌++◌, ◌≤◌, ◌<◌, false};
ghost use Rattle.std.specs.Fmt.{decimal, digit_glyph, digits, signed_decimal};
ghost use Rattle.s390x_disassembler.specs.Fitted.{Adds};

use crate::room::{Text, put_byte, put_bytes};

/// Appends a number in the digits of a base.
pub fn put_digits(out: &mut Text, base: u64, n: u64)
    requires low { 2 ≤ base }
    requires high { base ≤ 16 }
    ensures { Adds out.old.items (digits base false n) out.new.items }
{
    let mut buffer = [0u8; 64];
    let mut start: usize = 64;
    let mut rest = n;
    while rest >= base {
        start -= 1;
        buffer[start] = glyph(rest % base);
        rest /= base;
    }
    start -= 1;
    buffer[start] = glyph(rest);
    put_bytes(out, &buffer[start..]);
}

// A digit.
fn glyph(digit: u64) -> u8
    requires { digit < 16 }
    ensures { result ≡ digit_glyph false digit }
{
    if digit < 10 {
        48 + digit as u8
    } else {
        87 + digit as u8
    }
}

/// Appends a number in decimal digits.
pub fn put_natural(out: &mut Text, n: u8)
    ensures { Adds out.old.items (decimal n) out.new.items }
{
    put_digits(out, 10, u64::from(n));
}

/// Appends a number with its sign.
#[tactic(auto, using(crate::proofs::Fitting::byte_then))]
pub fn put_integer(out: &mut Text, z: i64)
    ensures { Adds out.old.items (signed_decimal z) out.new.items }
{
    if z < 0 {
        put_byte(out, b'-');
        put_digits(out, 10, z.unsigned_abs());
    } else {
        put_digits(out, 10, z.unsigned_abs());
    }
}
