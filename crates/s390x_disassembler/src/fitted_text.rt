//! The text of an instruction, without an allocator.
ghost use Rattle.std.specs.Prelude.{◌≡◌, ◌∷◌, [], ◌++◌, ℕ, List, false, map};
ghost use Rattle.std.specs.Fmt.{digits};
ghost use Rattle.s390x_format.specs.Fetch.{IsLocated};
ghost use Rattle.s390x_disassembler.specs.Text.{register_text, registers_text, storage_text, operand_text, operands_text, spelled_instruction, plain_row, row_text, spellings};
ghost use Rattle.s390x_disassembler.specs.Fitted.{Adds, fitting_text};

use crate::forms::{Operand, operands};
use crate::glyphs::{put_digits, put_integer, put_natural};
use crate::room::{Text, put, put_byte};
use crate::spelling::letters;
use crate::text::{is_written, signed_immediate, value_at};
use s390x_format::{Fields, Located, SPELLINGS, Spelling};

/// An instruction's text at an address, as GNU's assembler writes it, as far as it has 96 bytes: the whole of it where some
/// bytes are read as the instruction. No memory is taken.
pub fn located_text(address: u64, located: &Located) -> Text
    ensures cut { fitting_text result.items
        ≡ fitting_text (row_text spellings address located.now.at located.now.decoded.fields) }
    ensures whole { (bytes : List ℕ) → IsLocated bytes located.now → fitting_text result.items
        ≡ row_text spellings address located.now.at located.now.decoded.fields }
{
    let mut out = Text::new();
    put_row(
        &mut out,
        &SPELLINGS,
        address,
        located.at,
        &located.decoded.fields,
    );
    out
}

// An instruction of the row at a place.
fn put_row(out: &mut Text, spellings: &[Spelling], address: u64, at: usize, fields: &Fields)
    ensures { Adds out.old.items
        (row_text (map (λ row. plain_row row) spellings.now) address at fields.now) out.new.items }
{
    if at < spellings.len() {
        put_spelled(out, address, spellings[at], fields);
    } else {
        put(out, "");
    }
}

// The mnemonic and the operands.
#[tactic(auto, using(crate::proofs::Fitting::both), unfolding(crate::specs::Text::spelled_instruction))]
fn put_spelled(out: &mut Text, address: u64, spelling: Spelling, fields: &Fields)
    ensures { Adds out.old.items (spelled_instruction address (plain_row spelling.entry) fields.now)
        out.new.items }
{
    let (stem, suffix, form) = spelling;
    let letters = letters(suffix, fields);
    put(out, stem);
    put(out, letters);
    put_operands(out, address, letters, fields, operands(form));
}

// The operands, the first behind a blank and the others behind commas.
fn put_operands(out: &mut Text, address: u64, letters: &str, fields: &Fields, operands: &[Operand])
    ensures { Adds out.old.items (operands_text 32 address letters.now fields.now operands.now)
        out.new.items }
{
    let mut separator = b' ';
    for operand in operands {
        if is_written(letters, fields, *operand) {
            put_byte(out, separator);
            put_operand(out, address, fields, *operand);
            separator = b',';
        }
    }
}

// An operand.
fn put_operand(out: &mut Text, address: u64, fields: &Fields, operand: Operand)
    ensures { Adds out.old.items (operand_text address fields.now operand) out.new.items }
{
    match operand {
        Operand::General(k) => put_register(out, b'r', value_at(&fields.regs, k)),
        Operand::Float(k) => put_register(out, b'f', value_at(&fields.regs, k)),
        Operand::Vector(k) => put_register(out, b'v', value_at(&fields.regs, k)),
        Operand::Access(k) => put_register(out, b'a', value_at(&fields.regs, k)),
        Operand::Mask(k) => put_natural(out, value_at(&fields.masks, k)),
        Operand::NonzeroMask | Operand::UnnamedMask => put_natural(out, fields.masks[0]),
        Operand::Unsigned => put_integer(out, fields.imm),
        Operand::Signed16 => put_integer(out, signed_immediate(32768, fields.imm)),
        Operand::Signed32 => put_integer(out, signed_immediate(2147483648, fields.imm)),
        Operand::Target => put_target(out, address.wrapping_add(fields.imm.cast_unsigned())),
        Operand::Storage(base) => put_storage(out, fields.disp, 0, value_at(&fields.regs, base)),
        Operand::Indexed(index, base) => put_storage(
            out,
            fields.disp,
            value_at(&fields.regs, index),
            value_at(&fields.regs, base),
        ),
    }
}

// A register.
#[tactic(auto, using(crate::proofs::Fitting::both, crate::proofs::Fitting::byte_then))]
fn put_register(out: &mut Text, letter: u8, n: u8)
    ensures { Adds out.old.items (register_text letter n) out.new.items }
{
    put_byte(out, b'%');
    put_byte(out, letter);
    put_natural(out, n);
}

// An address that is a target.
#[tactic(auto, using(crate::proofs::Fitting::both, crate::proofs::Fitting::byte_then))]
fn put_target(out: &mut Text, address: u64)
    ensures { Adds out.old.items (48 ∷ (120 ∷ digits 16 false address)) out.new.items }
{
    put(out, "0x");
    put_digits(out, 16, address);
}

// An address in storage.
#[tactic(auto, using(crate::proofs::Fitting::both, crate::proofs::Fitting::byte_then))]
fn put_storage(out: &mut Text, disp: i32, index: u8, base: u8)
    ensures { Adds out.old.items (storage_text disp index base) out.new.items }
{
    put_integer(out, i64::from(disp));
    put_registers(out, index, base);
}

// The registers of an address in storage.
#[tactic(auto, unfolding(crate::specs::Text::registers_text))]
fn put_registers(out: &mut Text, index: u8, base: u8)
    ensures { Adds out.old.items (registers_text index base) out.new.items }
{
    if index != 0 {
        put_both(out, index, base);
    } else if base != 0 {
        put_base(out, base);
    } else {
        put(out, "");
    }
}

// An index and a base.
#[tactic(auto, using(crate::proofs::Fitting::both, crate::proofs::Fitting::byte_then))]
fn put_both(out: &mut Text, index: u8, base: u8)
    ensures { Adds out.old.items
        (40 ∷ (register_text 114 index ++ (44 ∷ (register_text 114 base ++ (41 ∷ [])))))
        out.new.items }
{
    put_byte(out, b'(');
    put_register(out, b'r', index);
    put_byte(out, b',');
    put_register(out, b'r', base);
    put_byte(out, b')');
}

// A base alone.
#[tactic(auto, using(crate::proofs::Fitting::both, crate::proofs::Fitting::byte_then))]
fn put_base(out: &mut Text, base: u8)
    ensures { Adds out.old.items (40 ∷ (register_text 114 base ++ (41 ∷ []))) out.new.items }
{
    put_byte(out, b'(');
    put_register(out, b'r', base);
    put_byte(out, b')');
}
