//! The first line of a text.
ghost use Rattle.std.specs.Prelude.{◌≡◌, ◌≢◌, ◌∷◌, ◌++◌, [], ℕ, List, false, true, length, string_bytes, map, IfOk, IfSome, MatchOption};
ghost use Rattle.std.specs.Fmt.{digits};
ghost use Rattle.hex.specs.Hex.{IsBytes};
ghost use Rattle.s390x_disassembler.specs.Assembly.{IsFirstLine, bare_line, ends_well};
ghost use Rattle.s390x_disassembler.specs.Bare.{is_unit};
ghost use Rattle.s390x_disassembler.specs.Disassembly.{full_line};

use crate::candidate::candidate;
use crate::line::found_in;
use crate::listing::put_full_line;
use crate::scan::{first_byte, hex_bytes, word};
use crate::text::put_found;
use s390x_format::{Located, fetch_length};
use std::alloc::{AllocError, Global};

/// The bytes of the first line of a text, and what stands behind it; `None` where its first line is that of no bytes.
pub fn first_line(
    alloc: Global,
    address: u64,
    text: &[u8],
) -> Result<Option<(Vec<u8>, &[u8])>, AllocError>
    ensures sound { IfOk result
        (λ r. IfSome r (λ p. IsFirstLine address text.now p.0.items p.1.now)) }
    ensures complete { (u rest : List ℕ) → IsBytes u → IsFirstLine address text.now u rest
        → IfOk result (λ r. MatchOption r ⊥ (λ p. (p.0.items ≡ u) × (p.1.now ≡ rest))) }
{
    let head = address_text(alloc, address)?;
    match strip(text, head.as_bytes()) {
        Some(rest) => with_columns(alloc, address, text, rest),
        None => without_columns(alloc, address, text),
    }
}

// What stands before the bytes.
fn address_text(alloc: Global, address: u64) -> Result<String, AllocError>
    ensures { IfOk result
        (λ text. string_bytes text ≡ digits 16 false address ++ (58 ∷ (32 ∷ []))) }
{
    let mut out = String::new(alloc);
    write!(out, "{address:x}: ")?;
    Ok(out)
}

// The bytes of the first line of a text that begins with its address, behind which `rest` stands, and what stands behind the line.
fn with_columns<'a>(
    alloc: Global,
    address: u64,
    text: &'a [u8],
    rest: &[u8],
) -> Result<Option<(Vec<u8>, &'a [u8])>, AllocError>
    requires { text.now ≡ digits 16 false address ++ (58 ∷ (32 ∷ rest.now)) }
    ensures sound { IfOk result
        (λ r. IfSome r (λ p. IsFirstLine address text.now p.0.items p.1.now)) }
    ensures complete { (u rest : List ℕ) → IsBytes u → IsFirstLine address text.now u rest
        → IfOk result (λ r. MatchOption r ⊥ (λ p. (p.0.items ≡ u) × (p.1.now ≡ rest))) }
{
    let bytes = hex_bytes(alloc, word(rest))?;
    let found = found_in(&bytes);
    let line = full_line(alloc, address, &bytes, &found)?;
    match strip(text, line.as_bytes()) {
        Some(more) => Ok(unit_with_rest(bytes, more)),
        None => Ok(None),
    }
}

// The bytes of the first line of a text that doesn't begin with its address, and what stands behind the line.
fn without_columns(
    alloc: Global,
    address: u64,
    text: &[u8],
) -> Result<Option<(Vec<u8>, &[u8])>, AllocError>
    requires { (rest : List ℕ) → text.now ≢ digits 16 false address ++ (58 ∷ (32 ∷ rest)) }
    ensures sound { IfOk result
        (λ r. IfSome r (λ p. IsFirstLine address text.now p.0.items p.1.now)) }
    ensures complete { (u rest : List ℕ) → IsBytes u → IsFirstLine address text.now u rest
        → IfOk result (λ r. MatchOption r ⊥ (λ p. (p.0.items ≡ u) × (p.1.now ≡ rest))) }
{
    let bytes = candidate(alloc, address, text)?;
    let found = found_in(&bytes);
    let line = bare_line(alloc, address, &bytes, &found)?;
    match strip(text, line.as_bytes()) {
        Some(more) => Ok(unit_with_rest(bytes, more)),
        None => Ok(None),
    }
}

// The bytes of a line with what stands behind it, where they stand together.
fn unit_with_rest(bytes: Vec<u8>, more: &[u8]) -> Option<(Vec<u8>, &[u8])>
    ensures { MatchOption result (is_unit bytes.items ≡ false)
        (λ p. (is_unit bytes.items ≡ true) × (p.0.items ≡ bytes.items) × (p.1.now ≡ more.now)) }
{
    if is_unit(&bytes) {
        Some((bytes, more))
    } else {
        None
    }
}

/// Whether some bytes stand together: there are some, and no more than the first of them tells.
#[tactic(auto, unfolding(crate::specs::Bare::is_unit))]
pub fn is_unit(bytes: &[u8]) -> bool
    ensures { result ≡ is_unit bytes.now }
{
    0 < bytes.len() && bytes.len() <= fetch_length(first_byte(bytes))
}

/// Whether a line's bytes are as many as the first of them tells, or nothing stands behind the line.
pub fn ends_well(bytes: &[u8], more: &[u8]) -> bool
    ensures ends { result ≡ ends_well bytes.now more.now }
    ensures bytes { IsBytes bytes.now }
{
    bytes.len() == fetch_length(first_byte(bytes)) || more.is_empty()
}

// The line of some bytes at an address.
fn full_line(
    alloc: Global,
    address: u64,
    bytes: &[u8],
    found: &Option<Located>,
) -> Result<String, AllocError>
    ensures { IfOk result (λ text. string_bytes text ≡ full_line address bytes.now found.now) }
{
    let mut out = String::new(alloc);
    put_full_line(alloc, &mut out, address, bytes, found)?;
    Ok(out)
}

// The line of some bytes at an address, without the address and the bytes.
fn bare_line(
    alloc: Global,
    address: u64,
    bytes: &[u8],
    found: &Option<Located>,
) -> Result<String, AllocError>
    ensures { IfOk result (λ text. string_bytes text ≡ bare_line address bytes.now found.now) }
{
    let mut out = String::new(alloc);
    put_found(alloc, &mut out, address, bytes, found)?;
    out.push_str("\n")?;
    Ok(out)
}

// What stands behind a line at the head of a text.
fn strip<'a>(text: &'a [u8], line: &[u8]) -> Option<&'a [u8]>
    ensures { MatchOption result ((rest : List ℕ) → text.now ≢ line.now ++ rest)
        (λ rest. text.now ≡ line.now ++ rest.now) }
{
    text.strip_prefix(line)
}
