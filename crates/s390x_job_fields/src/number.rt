//! Numbers: printing and reading.
ghost use Rattle.std.specs.Prelude.{◌≡◌, ◌∷◌, [], ◌+◌, ◌++◌, ◌<◌, ◌≤◌, ◌^◌, ◌%◌, IfOk, OnOk, string_bytes, slice_index, drop, ◌≤ℤ◌, pos, negsuc};
ghost use Rattle.std.specs.Fmt.{decimal, signed_decimal};
ghost use Rattle.s390x_job_fields.specs.Numbers.{decimal_of, natural_of, integer_of, signed_below, W8, W12, W16, W32, W64, S8, S16, S20, S32, S64};

use std::alloc::AllocError;

/// Appends a text.
pub fn put(out: &mut String, text: &str) -> Result<(), AllocError>
    ensures { OnOk result (string_bytes out.new ≡ string_bytes out.old ++ text.now) }
{
    out.push_str(text)
}

/// Appends an ASCII character.
#[inline(always)]
pub fn put_char(out: &mut String, c: char) -> Result<(), AllocError>
    requires { c < 128 }
    ensures { OnOk result (string_bytes out.new ≡ string_bytes out.old ++ c ∷ []) }
{
    out.push(c)
}

/// Appends a number in decimal.
pub fn put_natural(out: &mut String, n: u64) -> Result<(), AllocError>
    ensures { OnOk result (string_bytes out.new ≡ string_bytes out.old ++ decimal n) }
{
    if n < 10 {
        return put_digit(out, n as u8);
    }
    put_natural(out, n / 10)?;
    put_digit(out, (n % 10) as u8)
}

fn put_digit(out: &mut String, digit: u8) -> Result<(), AllocError>
    requires { digit < 10 }
    ensures { OnOk result (string_bytes out.new ≡ string_bytes out.old ++ (48 + digit) ∷ []) }
{
    out.push(char::from(b'0' + digit))
}

/// Appends a number in decimal, with its sign where it is negative.
pub fn put_integer(out: &mut String, z: i64) -> Result<(), AllocError>
    ensures { OnOk result (string_bytes out.new ≡ string_bytes out.old ++ signed_decimal z) }
{
    if z < 0 {
        put(out, "-")?;
    }
    put_natural(out, z.unsigned_abs())
}

/// The number of decimal digits.
#[inline(always)]
pub fn natural(s: &[u8]) -> u64
    ensures { result ≡ decimal_of s.now }
{
    let mut a: u64 = 0;
    for x in s {
        a = a
            .wrapping_mul(10)
            .wrapping_add(u64::from(x.saturating_sub(48)));
    }
    a
}

/// The number below 2^8 that digits write; modulo 2^8 where they write a larger one.
pub fn natural8(s: &[u8]) -> u8
    ensures { result ≡ natural_of W8 s.now }
{
    (natural(s) % 256) as u8
}

/// The number below 2^12 that digits write; modulo 2^12 where they write a larger one.
pub fn natural12(s: &[u8]) -> u64
    ensures value { result ≡ natural_of W12 s.now }
    ensures below { result < 4096 }
{
    natural(s) % 4096
}

/// The number below 2^16 that digits write; modulo 2^16 where they write a larger one.
pub fn natural16(s: &[u8]) -> u16
    ensures { result ≡ natural_of W16 s.now }
{
    (natural(s) % 65536) as u16
}

/// The number below 2^32 that digits write; modulo 2^32 where they write a larger one.
pub fn natural32(s: &[u8]) -> u32
    ensures { result ≡ natural_of W32 s.now }
{
    (natural(s) % 4294967296) as u32
}

/// The number below 2^64 that digits write.
pub fn natural64(s: &[u8]) -> u64
    ensures { result ≡ natural_of W64 s.now }
{
    natural(s)
}

/// A number with a sign, at least `-limit` and below `limit`.
pub fn signed_number(s: &[u8], limit: u64) -> i64
    requires { limit ≤ 2 ^ 63 }
    ensures { result ≡ signed_below limit s.now }
{
    if first_byte(s) == b'-' {
        let m = natural(tail(s, 1));
        if 0 < m && m <= limit {
            -((m - 1) as i64) - 1
        } else {
            0
        }
    } else {
        let m = natural(s);
        if m < limit { m as i64 } else { 0 }
    }
}

/// The number of 8 bits with a sign that a word writes; 0 where it writes none.
pub fn integer8(s: &[u8]) -> i8
    ensures { result ≡ integer_of S8 s.now }
{
    signed_number(s, 1 << 7) as i8
}

/// The number of 16 bits with a sign that a word writes; 0 where it writes none.
pub fn integer16(s: &[u8]) -> i16
    ensures { result ≡ integer_of S16 s.now }
{
    signed_number(s, 1 << 15) as i16
}

/// The number of 20 bits with a sign that a word writes; 0 where it writes none.
pub fn integer20(s: &[u8]) -> i64
    ensures value { result ≡ integer_of S20 s.now }
    ensures least { negsuc 524287 ≤ℤ result }
    ensures greatest { result ≤ℤ pos 524287 }
{
    signed_number(s, 1 << 19)
}

/// The number of 32 bits with a sign that a word writes; 0 where it writes none.
pub fn integer32(s: &[u8]) -> i32
    ensures { result ≡ integer_of S32 s.now }
{
    signed_number(s, 1 << 31) as i32
}

/// The number of 64 bits with a sign that a word writes; 0 where it writes none.
pub fn integer64(s: &[u8]) -> i64
    ensures { result ≡ integer_of S64 s.now }
{
    signed_number(s, 1 << 63)
}

/// The first byte, or 0.
#[inline(always)]
pub fn first_byte(s: &[u8]) -> u8
    ensures { result ≡ slice_index s.now 0 }
{
    if s.is_empty() { 0 } else { s[0] }
}

/// The second byte, or 0.
#[inline(always)]
pub fn second(s: &[u8]) -> u8
    ensures { result ≡ slice_index s.now 1 }
{
    if s.len() < 2 { 0 } else { s[1] }
}

/// What follows the first `n` bytes.
#[inline(always)]
pub fn tail(s: &[u8], n: usize) -> &[u8]
    ensures { result.now ≡ drop n s.now }
{
    if s.len() < n { &s[s.len()..] } else { &s[n..] }
}
