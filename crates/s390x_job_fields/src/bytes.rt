//! Bytes and starting values in hex, and the facilities of the line `flags`.
ghost use Rattle.std.specs.Prelude.{◌≡◌, ◌++◌, ◌∷◌, [], ◌+◌, ◌<◌, ◌^◌, OnOk, IfOk, string_bytes, slice_index, drop, codes};
ghost use Rattle.hex.specs.Hex.{lower_digits};
ghost use Rattle.s390x_job_fields.specs.Bytes.{bytes_text, bytes_of_text, digits_text, vector_text, digit_of, hex_from, facility_text, facilities_text, facilities_of, is_next, after_next};

use crate::number::put;
use crate::separators::{after_word, word};
use s390x_inst::IsaFlags;
use std::alloc::{AllocError, Global};

/// Appends bytes in lower-case hex, `-` for none.
pub fn put_bytes(alloc: Global, out: &mut String, bytes: &[u8]) -> Result<(), AllocError>
    ensures { OnOk result (string_bytes out.new ≡ string_bytes out.old ++ bytes_text bytes.now) }
{
    if bytes.is_empty() {
        return put(out, "-");
    }
    let text = hex::encode(alloc, bytes)?;
    put(out, text.as_str())
}

/// The bytes of a word, no bytes for any word without.
pub fn bytes(alloc: Global, w: &[u8]) -> Result<Vec<u8>, AllocError>
    ensures { IfOk result (λ v. v.items ≡ bytes_of_text w.now) }
{
    if w == b"-".as_slice() {
        return Ok(Vec::new(alloc));
    }
    match hex::decode(alloc, w) {
        Ok(v) => Ok(v),
        Err(hex::FromHexError::OutOfMemory) => Err(AllocError),
        Err(_) => Ok(Vec::new(alloc)),
    }
}

fn put_hex_digit(out: &mut String, digit: u8) -> Result<(), AllocError>
    requires { digit < 16 }
    ensures { OnOk result
        (string_bytes out.new ≡ string_bytes out.old ++ slice_index lower_digits digit ∷ []) }
{
    put(out, DIGITS[digit as usize])
}

const DIGITS: [&str; 16] = [
    "0", "1", "2", "3", "4", "5", "6", "7", "8", "9", "a", "b", "c", "d", "e", "f",
];

fn put_digits(out: &mut String, count: usize, value: u128) -> Result<(), AllocError>
    ensures { OnOk result (string_bytes out.new ≡ string_bytes out.old ++ digits_text count value) }
{
    if count == 0 {
        return Ok(());
    }
    put_digits(out, count - 1, value / 16)?;
    put_hex_digit(out, (value % 16) as u8)
}

/// Appends a vector register's value: 32 hex digits.
pub fn put_vector(out: &mut String, value: u128) -> Result<(), AllocError>
    ensures { OnOk result (string_bytes out.new ≡ string_bytes out.old ++ vector_text value) }
{
    put_digits(out, 32, value)
}

fn digit(c: u8) -> u8
    ensures { result ≡ digit_of c }
{
    if c < 58 {
        c.saturating_sub(48)
    } else {
        c.saturating_sub(87)
    }
}

/// The number of hex digits.
pub fn hex_number(w: &[u8]) -> u128
    ensures { result ≡ hex_from 0 w.now }
{
    let mut a: u128 = 0;
    for x in w {
        a = a.wrapping_mul(16).wrapping_add(u128::from(digit(*x)));
    }
    a
}

fn put_facility(out: &mut String, is_set: bool, name: &str) -> Result<(), AllocError>
    ensures { OnOk result
        (string_bytes out.new ≡ string_bytes out.old ++ facility_text is_set name.now) }
{
    if is_set {
        put(out, " ")?;
        put(out, name)
    } else {
        Ok(())
    }
}

/// Appends the flags that are set, each after a space.
pub fn put_facilities(out: &mut String, flags: IsaFlags) -> Result<(), AllocError>
    ensures { OnOk result (string_bytes out.new ≡ string_bytes out.old ++ facilities_text flags) }
{
    put_facility(out, flags.has_mie3, "mie3")?;
    put_facility(out, flags.has_mie4, "mie4")?;
    put_facility(out, flags.has_vxrs_ext2, "vxrs_ext2")?;
    put_facility(out, flags.has_vxrs_ext3, "vxrs_ext3")?;
    put_facility(out, flags.no_relative_memory, "norel")
}

fn next_is(s: &[u8], name: &[u8]) -> bool
    ensures { result ≡ is_next name.now s.now }
{
    word(s) == name
}

fn past_next<'a>(s: &'a [u8], name: &[u8]) -> &'a [u8]
    ensures { result.now ≡ after_next name.now s.now }
{
    if word(s) == name { after_word(s) } else { s }
}

/// The flags that the words of `s` name.
pub fn facilities(s: &[u8]) -> IsaFlags
    ensures { result ≡ facilities_of s.now }
{
    let t = past_next(s, b"mie3");
    let u = past_next(t, b"mie4");
    let v = past_next(u, b"vxrs_ext2");
    let w = past_next(v, b"vxrs_ext3");
    IsaFlags {
        has_mie3: next_is(s, b"mie3"),
        has_mie4: next_is(t, b"mie4"),
        has_vxrs_ext2: next_is(u, b"vxrs_ext2"),
        has_vxrs_ext3: next_is(v, b"vxrs_ext3"),
        no_relative_memory: next_is(w, b"norel"),
    }
}
