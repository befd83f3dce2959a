//! The disassembly of some code.
ghost use Rattle.std.specs.Prelude.{◌≡◌, ◌∷◌, [], ◌++◌, List, ℕ, length, IfOk, OnOk, string_bytes};
ghost use Rattle.s390x_disassembler.specs.Disassembly.{IsDisassembly, IsInstruction, IsOnlyCode, line_text, lines_text, full_line};
ghost use Rattle.s390x_disassembler.specs.Lines.{Covers};
ghost use Rattle.s390x_disassembler.specs.Text.{found_text};

use crate::line::{Line, found_in, line_at, line_bytes};
use crate::text::put_found;
use s390x_format::Located;
use std::alloc::{AllocError, Global};

/// The disassembly of code that begins at the address `base`: for each instruction a line `ADDRESS: BYTES INSTRUCTION`, whose
/// address and bytes are hexadecimal digits, and whose instruction is written as GNU's assembler writes it, a relative target as
/// an address. Addresses count modulo 2^64. Where no machine row's bytes stand, as many as the first of them tells are written
/// as `.short`, or as `.byte` where the code ends at an odd place. Two codes never have the same text. An error comes for want of
/// memory alone.
pub fn disassemble(alloc: Global, base: u64, code: &[u8]) -> Result<String, AllocError>
    ensures lines { IfOk result (λ text. IsDisassembly base code.now (string_bytes text)) }
    ensures only { IfOk result (λ text. IsOnlyCode base code.now (string_bytes text)) }
{
    listing_of_code(alloc, base, code)
}

/// The text of the instruction whose bytes these are, or of bytes that are no machine row's, at an address: a line of a
/// disassembly without its address, its bytes and its line feed. An error comes for want of memory alone.
pub fn instruction_text(alloc: Global, address: u64, bytes: &[u8]) -> Result<String, AllocError>
    ensures { IfOk result (λ text. IsInstruction address bytes.now (string_bytes text)) }
{
    let found = found_in(bytes);
    found_string(alloc, address, bytes, &found)
}

// The text of what is found.
fn found_string(
    alloc: Global,
    address: u64,
    bytes: &[u8],
    found: &Option<Located>,
) -> Result<String, AllocError>
    ensures { IfOk result (λ text. string_bytes text ≡ found_text address bytes.now found.now) }
{
    let mut out = String::new(alloc);
    put_found(alloc, &mut out, address, bytes, found)?;
    Ok(out)
}

// The disassembly.
fn listing_of_code(alloc: Global, base: u64, code: &[u8]) -> Result<String, AllocError>
    ensures { IfOk result (λ text. IsDisassembly base code.now (string_bytes text)) }
{
    let lines = lines_of(alloc, code)?;
    let mut out = String::new(alloc);
    put_lines(alloc, &mut out, base, code, &lines)?;
    Ok(out)
}

/// What stands in the code, from its first byte to its last.
#[tactic(auto, using(crate::proofs::Covering::one_more))]
pub fn lines_of(alloc: Global, code: &[u8]) -> Result<Vec<Line>, AllocError>
    ensures { IfOk result (λ lines. Covers code.now 0 (length code.now) lines.items) }
{
    let mut lines = Vec::new(alloc);
    let mut offset = 0;
    while offset < code.len() {
        let line = line_at(code, offset);
        offset += line.length;
        lines.push(line)?;
    }
    Ok(lines)
}

// The lines' texts.
fn put_lines(
    alloc: Global,
    out: &mut String,
    base: u64,
    code: &[u8],
    lines: &[Line],
) -> Result<(), AllocError>
    ensures { OnOk result
        (string_bytes out.new ≡ string_bytes out.old ++ lines_text base code.now lines.now) }
{
    for line in lines {
        put_line(alloc, out, base, code, line)?;
    }
    Ok(())
}

/// Appends a line's text. An error comes for want of memory alone.
pub fn put_line(
    alloc: Global,
    out: &mut String,
    base: u64,
    code: &[u8],
    line: &Line,
) -> Result<(), AllocError>
    ensures { OnOk result
        (string_bytes out.new ≡ string_bytes out.old ++ line_text base code.now line.now) }
{
    put_full_line(
        alloc,
        out,
        base.wrapping_add(line.offset as u64),
        line_bytes(code, line),
        &line.found,
    )
}

/// Appends the line of some bytes at an address. An error comes for want of memory alone.
pub fn put_full_line(
    alloc: Global,
    out: &mut String,
    address: u64,
    bytes: &[u8],
    found: &Option<Located>,
) -> Result<(), AllocError>
    ensures { OnOk result
        (string_bytes out.new ≡ string_bytes out.old ++ full_line address bytes.now found.now) }
{
    let digits = hex::encode(alloc, bytes)?;
    write!(out, "{address:x}: {digits} ")?;
    put_found(alloc, out, address, bytes, found)?;
    out.push_str("\n")
}
