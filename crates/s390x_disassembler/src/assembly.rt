//! The assembly of a text.
ghost use Rattle.std.specs.Prelude.{◌≡◌, ◌<◌, ℕ, length, IfOk, IfErr};
ghost use Rattle.s390x_disassembler.specs.declared.assembly.AssembleError.TheVariants.{Syntax};
ghost use Rattle.s390x_disassembler.specs.Assembly.{IsSource, IsOnlySource, IsNoSource, IsWrongSource};

use crate::first_line::{ends_well, first_line};
use std::alloc::{AllocError, Global};
use thiserror::Error;

/// Why a text is not assembled.
#[derive(Clone, Copy, PartialEq, Debug, Error)]
pub enum AssembleError {
    /// The first wrong line, counted from 1: no source begins with the lines up to it.
    #[error("syntax {line}")]
    Syntax { line: usize },
    /// No memory.
    #[error("no memory")]
    OutOfMemory,
}

/// The code that begins at the address `base` and of which this is a source: the lines of its disassembly, each with its address
/// and bytes or without. There is one such code at most. `Syntax` comes where there is none, with the number of the first line that
/// no source has behind those before it; `OutOfMemory` for want of memory alone.
pub fn assemble(alloc: Global, base: u64, text: &[u8]) -> Result<Vec<u8>, AssembleError>
    ensures code { IfOk result (λ code. IsSource base code.items text.now) }
    ensures one { IfOk result (λ code. IsOnlySource base code.items text.now) }
    ensures error { (line : ℕ) → result ≡ Err (Syntax line) → IsNoSource base text.now }
    ensures line { (line : ℕ) → result ≡ Err (Syntax line) → IsWrongSource base text.now line }
{
    match assembled_bytes(alloc, base, text) {
        Ok(Ok(code)) => Ok(code),
        Ok(Err(line)) => Err(AssembleError::Syntax { line }),
        Err(_) => Err(AssembleError::OutOfMemory),
    }
}

// The code, or the number of the first wrong line.
fn assembled_bytes(
    alloc: Global,
    base: u64,
    text: &[u8],
) -> Result<Result<Vec<u8>, usize>, AllocError>
    ensures code { IfOk result (λ answer. IfOk answer (λ code. IsSource base code.items text.now)) }
    ensures one { IfOk result
        (λ answer. IfOk answer (λ code. IsOnlySource base code.items text.now)) }
    ensures error { IfOk result (λ answer. IfErr answer (λ _. IsNoSource base text.now)) }
    ensures line { IfOk result (λ answer. IfErr answer (λ line. IsWrongSource base text.now line)) }
{
    let mut code = Vec::new(alloc);
    let mut rest = text;
    let mut lines: usize = 0;
    while !rest.is_empty() {
        let address = base.wrapping_add(code.as_slice().len() as u64);
        match first_line(alloc, address, rest)? {
            Some((bytes, more)) => {
                code.extend_from_slice(&bytes)?;
                lines = lines.saturating_add(1);
                if !ends_well(&bytes, more) {
                    return Ok(Err(lines.saturating_add(1)));
                }
                rest = more;
            }
            None => return Ok(Err(lines.saturating_add(1))),
        }
    }
    Ok(Ok(code))
}
