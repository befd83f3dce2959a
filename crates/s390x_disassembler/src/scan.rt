//! Numbers and words in a text. A reader takes something from any text: what was read is written again and compared.
ghost use Rattle.std.specs.Prelude.{◌≡◌, ◌∷◌, ◌++◌, ◌<◌, ◌≤◌, ℕ, List, drop, take, length, slice_index, IfOk};
ghost use Rattle.s390x_disassembler.specs.Words.{NoBlank};
ghost use Rattle.s390x_disassembler.specs.Numbers.{digits_read, digits_left, number_on, signed_read, signed_left, begins_number, begins_with};
ghost use Rattle.hex.specs.Hex.{decode_of};

use hex::FromHexError;
use std::alloc::{AllocError, Global};

/// Where the first of some bytes stands, or the text's length.
pub fn position(text: &[u8], byte: u8) -> usize
    ensures inside { result ≤ length text.now }
    ensures none { (k : ℕ) → k < result → slice_index text.now k ≡ byte → ⊥ }
    ensures there { result < length text.now → slice_index text.now result ≡ byte }
{
    for i in 0..text.len() {
        if text[i] == byte {
            return i;
        }
    }
    text.len()
}

/// The first byte, or 0.
pub fn first_byte(text: &[u8]) -> u8
    ensures { result ≡ slice_index text.now 0 }
{
    if text.is_empty() { 0 } else { text[0] }
}

/// What stands before the first blank.
pub fn word(text: &[u8]) -> &[u8]
    ensures { (xs p : List ℕ) → NoBlank xs → text.now ≡ xs ++ (32 ∷ p) → result.now ≡ xs }
{
    &text[..position(text, b' ')]
}

/// What stands behind a number of bytes.
pub fn text_behind(text: &[u8], count: usize) -> &[u8]
    ensures { result.now ≡ drop count text.now }
{
    if count <= text.len() {
        &text[count..]
    } else {
        &[]
    }
}

/// A number of bytes at the head of a text, or the text where there are fewer.
pub fn head(text: &[u8], count: usize) -> &[u8]
    ensures { result.now ≡ take count text.now }
{
    if count <= text.len() {
        &text[..count]
    } else {
        text
    }
}

/// The bits of the next number, with its sign, and what stands behind it.
pub fn number(text: &[u8]) -> (u64, &[u8])
    ensures value { result.0 ≡ signed_read (number_on text.now) }
    ensures rest { result.1.now ≡ signed_left (number_on text.now) }
{
    signed_number(text_behind(text, number_start(text)))
}

// The bits of the number with which a text begins, and what stands behind it.
#[tactic(auto, unfolding(crate::specs::Numbers::signed_read, crate::specs::Numbers::signed_left))]
fn signed_number(text: &[u8]) -> (u64, &[u8])
    ensures value { result.0 ≡ signed_read text.now }
    ensures rest { result.1.now ≡ signed_left text.now }
{
    if first_byte(text) == b'-' {
        let (value, rest) = digits(10, text_behind(text, 1));
        (value.wrapping_neg(), rest)
    } else {
        digits(10, text)
    }
}

/// The number of the digits with which a text begins, modulo 2^64, and what stands behind them.
#[tactic(auto, using(crate::proofs::Numbers::read_step, crate::proofs::Numbers::read_stop, crate::proofs::Numbers::left_step, crate::proofs::Numbers::left_end, crate::proofs::Numbers::read_done, crate::proofs::Numbers::left_done))]
pub fn digits(radix: u32, text: &[u8]) -> (u64, &[u8])
    requires low { 2 ≤ radix }
    requires high { radix ≤ 36 }
    ensures value { result.0 ≡ digits_read radix 0 text.now }
    ensures rest { result.1.now ≡ digits_left radix text.now }
{
    let mut value: u64 = 0;
    for i in 0..text.len() {
        match char::from(text[i]).to_digit(radix) {
            Some(digit) => {
                value = value
                    .wrapping_mul(u64::from(radix))
                    .wrapping_add(u64::from(digit));
            }
            None => return (value, &text[i..]),
        }
    }
    (value, &[])
}

/// Whether the text begins with a byte.
pub fn begins(text: &[u8], byte: u8) -> bool
    ensures { result ≡ begins_with byte text.now }
{
    !text.is_empty() && text[0] == byte
}

/// The bytes of hexadecimal digits; none where these are no digits.
pub fn hex_bytes(alloc: Global, digits: &[u8]) -> Result<Vec<u8>, AllocError>
    ensures { IfOk result (λ bytes. (v : List ℕ) → decode_of digits.now ≡ Ok v → bytes.items ≡ v) }
{
    match hex::decode(alloc, digits) {
        Ok(bytes) => Ok(bytes),
        Err(FromHexError::OutOfMemory) => Err(AllocError),
        Err(_) => Ok(Vec::new(alloc)),
    }
}

// Where the next number begins.
#[tactic(auto, using(crate::proofs::Numbers::start_step, crate::proofs::Numbers::start_here, crate::proofs::Numbers::start_done))]
fn number_start(text: &[u8]) -> usize
    ensures inside { result ≤ length text.now }
    ensures there { drop result text.now ≡ number_on text.now }
{
    for i in 0..text.len() {
        if begins_number(text[i]) {
            return i;
        }
    }
    text.len()
}

// Whether a number begins with the byte.
fn begins_number(byte: u8) -> bool
    ensures { result ≡ begins_number byte }
{
    char::from(byte).is_digit(10) || byte == b'-'
}
