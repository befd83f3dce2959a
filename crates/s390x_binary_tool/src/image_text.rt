//! The text of an image: lines of hex digits.
ghost use Rattle.std.specs.Prelude.{◌≡◌, ◌+◌, ◌≤◌, Ok, Err, IfErr, IfOk, MatchOption, MatchResult, length};
ghost use Rattle.hex.specs.Hex.{decode_of};
ghost use Rattle.s390x_binary_tool.specs.ImageText.{IsFirstDifference, IsImageText, IsWrongLine};

use hex::FromHexError;
use s390x_job_fields::separators::{after, before};
use std::alloc::{AllocError, Global};

// The bytes that a line of hex digits writes, or why it writes none.
fn decode_line(alloc: Global, line: &[u8]) -> Result<Result<Vec<u8>, FromHexError>, AllocError>
    ensures { IfOk result
        (λ r. MatchResult r (λ bytes. decode_of line.now ≡ Ok bytes.items)
        (λ error. decode_of line.now ≡ Err error)) }
{
    match hex::decode(alloc, line) {
        Ok(bytes) => Ok(Ok(bytes)),
        Err(FromHexError::OutOfMemory) => Err(AllocError),
        Err(error) => Ok(Err(error)),
    }
}

/// The bytes that lines of hex digits write, each line ended by a line feed; else the number of the first line that isn't so.
pub fn read_image(alloc: Global, text: &[u8]) -> Result<Result<Vec<u8>, usize>, AllocError>
    ensures lines { IfOk result
        (λ r. MatchResult r (λ image. IsImageText text.now image.items) (IsWrongLine text.now)) }
    ensures few { IfOk result (λ r. IfErr r (λ number. number ≤ length text.now + 1)) }
{
    let mut image = Vec::new(alloc);
    let mut rest = text;
    let mut number = 1;
    'lines: while !rest.is_empty() {
        let line = before(rest, b'\n');
        if line.len() == rest.len() {
            return Ok(Err(number));
        }
        match decode_line(alloc, line)? {
            Ok(bytes) => image.extend_from_slice(&bytes)?,
            Err(_) => return Ok(Err(number)),
        }
        rest = after(rest, b'\n');
        number += 1;
    }
    Ok(Ok(image))
}

/// The number of the first byte, from 0, that isn't the same in both; where one has no more bytes there, the shorter length. None where they are the same.
pub fn first_difference(first: &[u8], second: &[u8]) -> Option<usize>
    ensures { MatchOption result (first.now ≡ second.now)
        (λ at. IsFirstDifference first.now second.now at) }
{
    let least = first.len().min(second.len());
    for at in 0..least {
        if first[at] != second[at] {
            return Some(at);
        }
    }
    if first.len() == second.len() {
        None
    } else {
        Some(least)
    }
}
