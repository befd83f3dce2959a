//! The text of an instruction.
ghost use Rattle.std.specs.Prelude.{◌≡◌, ◌∷◌, [], ◌++◌, ◌<◌, map, slice_index, OnOk, string_bytes};
ghost use Rattle.std.specs.Prelude.{false};
ghost use Rattle.std.specs.Fmt.{decimal, signed_decimal, digits};
ghost use Rattle.hex.specs.Hex.{encode_lower};
ghost use Rattle.s390x_disassembler.specs.Text.{register_text, registers_text, storage_text, signed_of, target_of, operand_text, is_written, operands_text, spelled_instruction, plain_row, row_text, pairs_text, bytes_text, data_text, found_text};

use crate::forms::{Operand, operands};
use crate::spelling::letters;
use s390x_format::{Fields, Located, SPELLINGS, Spelling};
use std::alloc::{AllocError, Global};

/// Appends what is found at an address, of these bytes.
pub fn put_found(
    alloc: Global,
    out: &mut String,
    address: u64,
    bytes: &[u8],
    found: &Option<Located>,
) -> Result<(), AllocError>
    ensures { OnOk result
        (string_bytes out.new ≡ string_bytes out.old ++ found_text address bytes.now found.now) }
{
    match found {
        Some(located) => put_row(
            out,
            &SPELLINGS,
            address,
            located.at,
            &located.decoded.fields,
        ),
        None => put_data(alloc, out, bytes),
    }
}

// An instruction of the row at a place.
fn put_row(
    out: &mut String,
    spellings: &[Spelling],
    address: u64,
    at: usize,
    fields: &Fields,
) -> Result<(), AllocError>
    ensures { OnOk result
        (string_bytes out.new
        ≡ string_bytes out.old
        ++ row_text (map (λ row. plain_row row) spellings.now) address at fields.now) }
{
    if at < spellings.len() {
        put_spelled(out, address, spellings[at], fields)
    } else {
        Ok(())
    }
}

// The mnemonic and the operands.
#[tactic(auto, unfolding(crate::specs::Text::spelled_instruction))]
fn put_spelled(
    out: &mut String,
    address: u64,
    spelling: Spelling,
    fields: &Fields,
) -> Result<(), AllocError>
    ensures { OnOk result
        (string_bytes out.new
        ≡ string_bytes out.old
        ++ spelled_instruction address (plain_row spelling.entry) fields.now) }
{
    let (stem, suffix, form) = spelling;
    let letters = letters(suffix, fields);
    put(out, stem)?;
    put(out, letters)?;
    put_operands(out, address, letters, fields, operands(form))
}

// The operands, the first behind a blank and the others behind commas.
fn put_operands(
    out: &mut String,
    address: u64,
    letters: &str,
    fields: &Fields,
    operands: &[Operand],
) -> Result<(), AllocError>
    ensures { OnOk result
        (string_bytes out.new
        ≡ string_bytes out.old
        ++ operands_text 32 address letters.now fields.now operands.now) }
{
    let mut separator = b' ';
    for operand in operands {
        if is_written(letters, fields, *operand) {
            out.push(char::from(separator))?;
            put_operand(out, address, fields, *operand)?;
            separator = b',';
        }
    }
    Ok(())
}

/// Whether an operand is written.
pub fn is_written(letters: &str, fields: &Fields, operand: Operand) -> bool
    ensures { result ≡ is_written letters.now fields.now operand }
{
    match operand {
        Operand::NonzeroMask => fields.masks[0] != 0,
        Operand::UnnamedMask => letters.is_empty(),
        _ => true,
    }
}

// An operand.
fn put_operand(
    out: &mut String,
    address: u64,
    fields: &Fields,
    operand: Operand,
) -> Result<(), AllocError>
    ensures { OnOk result
        (string_bytes out.new ≡ string_bytes out.old ++ operand_text address fields.now operand) }
{
    match operand {
        Operand::General(k) => put_register(out, b'r', value_at(&fields.regs, k)),
        Operand::Float(k) => put_register(out, b'f', value_at(&fields.regs, k)),
        Operand::Vector(k) => put_register(out, b'v', value_at(&fields.regs, k)),
        Operand::Access(k) => put_register(out, b'a', value_at(&fields.regs, k)),
        Operand::Mask(k) => put_natural(out, value_at(&fields.masks, k)),
        Operand::NonzeroMask | Operand::UnnamedMask => put_natural(out, fields.masks[0]),
        Operand::Unsigned => put_integer(out, fields.imm),
        Operand::Signed16 => put_integer(out, signed_immediate(32768, fields.imm)),
        Operand::Signed32 => put_integer(out, signed_immediate(2147483648, fields.imm)),
        Operand::Target => put_address(out, address.wrapping_add(fields.imm.cast_unsigned())),
        Operand::Storage(base) => put_storage(out, fields.disp, 0, value_at(&fields.regs, base)),
        Operand::Indexed(index, base) => put_storage(
            out,
            fields.disp,
            value_at(&fields.regs, index),
            value_at(&fields.regs, base),
        ),
    }
}

/// The value at a place; 0 past the end.
pub fn value_at(values: &[u8], k: u8) -> u8
    ensures { result ≡ slice_index values.now k }
{
    if usize::from(k) < values.len() {
        values[usize::from(k)]
    } else {
        0
    }
}

/// The signed number that an immediate stands for, which is negative from `half` on.
pub fn signed_immediate(half: u32, imm: i64) -> i64
    ensures { result ≡ signed_of half imm }
{
    if imm < i64::from(half) {
        imm
    } else {
        imm - 2 * i64::from(half)
    }
}

// A register.
fn put_register(out: &mut String, letter: u8, n: u8) -> Result<(), AllocError>
    requires { letter < 128 }
    ensures { OnOk result (string_bytes out.new ≡ string_bytes out.old ++ register_text letter n) }
{
    let letter = char::from(letter);
    write!(out, "%{letter}{n}")
}

// A number.
fn put_natural(out: &mut String, n: u8) -> Result<(), AllocError>
    ensures { OnOk result (string_bytes out.new ≡ string_bytes out.old ++ decimal n) }
{
    write!(out, "{n}")
}

// A number with its sign.
fn put_integer(out: &mut String, z: i64) -> Result<(), AllocError>
    ensures { OnOk result (string_bytes out.new ≡ string_bytes out.old ++ signed_decimal z) }
{
    write!(out, "{z}")
}

// An address that is a target.
fn put_address(out: &mut String, address: u64) -> Result<(), AllocError>
    ensures { OnOk result
        (string_bytes out.new ≡ string_bytes out.old ++ (48 ∷ (120 ∷ digits 16 false address))) }
{
    write!(out, "0x{address:x}")
}

// An address in storage.
fn put_storage(out: &mut String, disp: i32, index: u8, base: u8) -> Result<(), AllocError>
    ensures { OnOk result
        (string_bytes out.new ≡ string_bytes out.old ++ storage_text disp index base) }
{
    put_integer(out, i64::from(disp))?;
    put_registers(out, index, base)
}

// The registers of an address in storage.
#[tactic(auto, unfolding(crate::specs::Text::registers_text))]
fn put_registers(out: &mut String, index: u8, base: u8) -> Result<(), AllocError>
    ensures { OnOk result
        (string_bytes out.new ≡ string_bytes out.old ++ registers_text index base) }
{
    if index != 0 {
        write!(out, "(%r{index},%r{base})")
    } else if base != 0 {
        write!(out, "(%r{base})")
    } else {
        Ok(())
    }
}

// Bytes of no instruction.
#[tactic(auto, unfolding(crate::specs::Text::data_text))]
fn put_data(alloc: Global, out: &mut String, bytes: &[u8]) -> Result<(), AllocError>
    ensures { OnOk result (string_bytes out.new ≡ string_bytes out.old ++ data_text bytes.now) }
{
    if bytes.len() % 2 == 0 {
        put(out, ".short")?;
        put_pairs(alloc, out, bytes)
    } else {
        put(out, ".byte")?;
        put_bytes(alloc, out, bytes)
    }
}

// Pairs of bytes.
#[tactic(auto, using(crate::proofs::Pieces::short_pairs, crate::proofs::Pieces::one_pair))]
fn put_pairs(alloc: Global, out: &mut String, bytes: &[u8]) -> Result<(), AllocError>
    ensures { OnOk result (string_bytes out.new ≡ string_bytes out.old ++ pairs_text 32 bytes.now) }
{
    let mut separator = b' ';
    let mut rest = bytes;
    while rest.len() >= 2 {
        put_number(alloc, out, separator, &rest[..2])?;
        separator = b',';
        rest = &rest[2..];
    }
    Ok(())
}

// Bytes one by one.
#[tactic(auto, using(crate::proofs::Pieces::one_byte))]
fn put_bytes(alloc: Global, out: &mut String, bytes: &[u8]) -> Result<(), AllocError>
    ensures { OnOk result (string_bytes out.new ≡ string_bytes out.old ++ bytes_text 32 bytes.now) }
{
    let mut separator = b' ';
    let mut rest = bytes;
    while !rest.is_empty() {
        put_number(alloc, out, separator, &rest[..1])?;
        separator = b',';
        rest = &rest[1..];
    }
    Ok(())
}

// A number in hex digits, of some bytes, behind a separator.
fn put_number(
    alloc: Global,
    out: &mut String,
    separator: u8,
    bytes: &[u8],
) -> Result<(), AllocError>
    requires { separator < 128 }
    ensures { OnOk result
        (string_bytes out.new
        ≡ string_bytes out.old ++ (separator ∷ (48 ∷ (120 ∷ encode_lower bytes.now)))) }
{
    let separator = char::from(separator);
    let digits = hex::encode(alloc, bytes)?;
    write!(out, "{separator}0x{digits}")
}

// Appends a text.
fn put(out: &mut String, text: &str) -> Result<(), AllocError>
    ensures { OnOk result (string_bytes out.new ≡ string_bytes out.old ++ text.now) }
{
    out.push_str(text)
}
