//! What texts are put together of: literals, letters and numbers, which are appended where the caller stands.
ghost use Rattle.std.specs.Prelude.{◌≡◌, ◌+◌, ◌/◌, ◌%◌, ◌<◌, ◌≤◌, ◌++◌, ◌∷◌, [], OnOk, string_bytes};
ghost use Rattle.std.specs.Fmt.{decimal, signed_decimal};

use s390x_job_fields::number::put_char;
use std::alloc::AllocError;

/// Appends a text. A literal's bytes are copied without a call.
#[inline(always)]
pub fn put(out: &mut String, text: &str) -> Result<(), AllocError>
    ensures { OnOk result (string_bytes out.new ≡ string_bytes out.old ++ text.now) }
{
    out.push_str(text)
}

/// Appends a number below 100 in decimal.
#[inline(always)]
pub fn put_small(out: &mut String, n: u8) -> Result<(), AllocError>
    requires { n < 100 }
    ensures { OnOk result (string_bytes out.new ≡ string_bytes out.old ++ decimal n) }
{
    if n < 10 {
        return put_char(out, char::from(b'0' + n));
    }
    put_two_digits(out, n)
}

// Appends a number below 100 by two digits.
#[inline(always)]
fn put_two_digits(out: &mut String, n: u8) -> Result<(), AllocError>
    requires { n < 100 }
    ensures { OnOk result
        (string_bytes out.new ≡ string_bytes out.old ++ (48 + n / 10) ∷ (48 + n % 10) ∷ []) }
{
    put_char(out, char::from(b'0' + n / 10))?;
    put_char(out, char::from(b'0' + n % 10))
}

// Appends a number below 10000 by four digits.
#[inline(always)]
fn put_four_digits(out: &mut String, n: u16) -> Result<(), AllocError>
    requires { n < 10000 }
    ensures { OnOk result
        (string_bytes out.new
        ≡ string_bytes out.old
        ++ (48 + n / 100 / 10) ∷ (48 + n / 100 % 10) ∷ (48 + n % 100 / 10) ∷ (48 + n % 100 % 10)
        ∷ []) }
{
    put_two_digits(out, (n / 100) as u8)?;
    put_two_digits(out, (n % 100) as u8)
}

// Appends a number of three or four digits.
#[inline(always)]
fn put_medium(out: &mut String, n: u16) -> Result<(), AllocError>
    requires at_least { 100 ≤ n }
    requires below { n < 10000 }
    ensures { OnOk result (string_bytes out.new ≡ string_bytes out.old ++ decimal n) }
{
    put_small(out, (n / 100) as u8)?;
    put_two_digits(out, (n % 100) as u8)
}

// Appends a number of at most four digits.
#[inline(always)]
fn put_short(out: &mut String, n: u16) -> Result<(), AllocError>
    requires { n < 10000 }
    ensures { OnOk result (string_bytes out.new ≡ string_bytes out.old ++ decimal n) }
{
    if n < 100 {
        return put_small(out, n as u8);
    }
    put_medium(out, n)
}

/// Appends a number in decimal, by four digits at a time; those of eight digits without a call.
pub fn put_natural(out: &mut String, n: u64) -> Result<(), AllocError>
    ensures { OnOk result (string_bytes out.new ≡ string_bytes out.old ++ decimal n) }
{
    if n < 10000 {
        return put_short(out, n as u16);
    }
    if n < 100000000 {
        put_short(out, (n / 10000) as u16)?;
        return put_four_digits(out, (n % 10000) as u16);
    }
    put_natural(out, n / 10000)?;
    put_four_digits(out, (n % 10000) as u16)
}

/// Appends a number in decimal, a digit without a call.
#[inline(always)]
pub fn put_number(out: &mut String, n: u64) -> Result<(), AllocError>
    ensures { OnOk result (string_bytes out.new ≡ string_bytes out.old ++ decimal n) }
{
    if n < 10 {
        return put_small(out, n as u8);
    }
    put_natural(out, n)
}

/// Appends a number in decimal, with its sign where it is negative.
#[inline(always)]
pub fn put_integer(out: &mut String, z: i64) -> Result<(), AllocError>
    ensures { OnOk result (string_bytes out.new ≡ string_bytes out.old ++ signed_decimal z) }
{
    if z < 0 {
        put(out, "-")?;
    }
    put_number(out, z.unsigned_abs())
}
