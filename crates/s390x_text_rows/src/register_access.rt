//! The texts of loads, stores and comparisons of one register, which are frequent: their pieces are literals, with what a general register begins with.
ghost use Rattle.std.specs.Prelude.{◌≡◌, ◌++◌, ◌∷◌, [], codes, true, OnOk, IfSome, Some, string_bytes};
ghost use Rattle.std.specs.Fmt.{decimal, signed_decimal};
ghost use Rattle.s390x_format.specs.Stems.{stem_of};
ghost use Rattle.s390x_rows.specs.declared.opcodes.TheConstants as opcodes;
ghost use Rattle.s390x_job_fields.specs.Atoms.{reg_text};
ghost use Rattle.s390x_inst.specs.declared.inst.Inst.TheVariants.{Mov64SImm32};
ghost use Rattle.s390x_typed_steps.specs.Operands.{no_register, scratch};
ghost use Rattle.s390x_text_rows.specs.Operands.{name_text};
ghost use Rattle.s390x_text_rows.specs.Texts.{Prints, fixed_text, instruction_text};
ghost use Rattle.s390x_text_rows.specs.Storage.{access_where, far_offset, helper_of, helper_text, helped_at, is_taken, memory_text, offset_text, rx_of, type_of_rows, zero_row, zero_text};

use crate::error::TextError;
use crate::near_offset::{NearOffset, at_offset, long_opcode, near_offset, put_place};
use crate::one_helper::{has_displacement, is_far};
use crate::operand::{Operand, is_zero};
use crate::piece::{put, put_integer, put_number};
use crate::register_names::put_reg_behind;
use crate::row::{spelled1, text_result};
use crate::storage::{Place, is_taken, other_rx_access, put_one_helper, register_rows, zero_row};
use s390x_address::{is_numbered, needs_address};
use s390x_base::{ExternalName, Reg};
use s390x_format::stem;
use s390x_inst::MemArg;
use s390x_rows::opcodes;
use s390x_typed_steps::{MemInstType, RegisterRows};
use std::alloc::AllocError;

// A mnemonic and a register behind a space; the mnemonics of the rows of doublewords are literals.
#[inline(always)]
fn put_named(out: &mut String, opcode: u16, r: &Reg) -> Result<(), AllocError>
    ensures { OnOk result
        (string_bytes out.new
        ≡ string_bytes out.old ++ instruction_text (stem_of opcode) (reg_text r.now ∷ [])) }
{
    if opcode == opcodes::LG {
        return put_reg_behind(out, "lg ", "lg %r", r);
    }
    if opcode == opcodes::STG {
        return put_reg_behind(out, "stg ", "stg %r", r);
    }
    spelled1(out, stem(opcode), r)
}

// A text and a symbol's number. The text ends with the letter of a symbol's name.
#[inline(always)]
fn put_name_behind(out: &mut String, text: &str, name: ExternalName) -> Result<(), AllocError>
    ensures { OnOk result
        (string_bytes out.new ≡ string_bytes out.old ++ (text.now ++ decimal name.0)) }
{
    put(out, text)?;
    put_number(out, u64::from(name.0))
}

// A symbol's offset.
#[inline(always)]
fn put_symbol_offset(out: &mut String, offset: i32) -> Result<(), AllocError>
    ensures { OnOk result
        (string_bytes out.new
        ≡ string_bytes out.old ++ (codes " + " ++ signed_decimal offset)) }
{
    put(out, " + ")?;
    put_integer(out, i64::from(offset))
}

// A text and a symbol behind it. The text ends with the letter of a symbol's name.
#[inline(always)]
fn put_symbol(
    out: &mut String,
    text: &str,
    name: ExternalName,
    offset: i32,
) -> Result<(), AllocError>
    ensures { OnOk result
        (string_bytes out.new
        ≡ string_bytes out.old
        ++ (text.now ++ (decimal name.0 ++ (codes " + " ++ signed_decimal offset)))) }
{
    put_name_behind(out, text, name)?;
    put_symbol_offset(out, offset)
}

// The load of an offset.
#[inline(always)]
fn put_loaded_offset(out: &mut String, off: i64) -> Result<(), AllocError>
    ensures { OnOk result
        (string_bytes out.new
        ≡ string_bytes out.old ++ helper_text (Mov64SImm32 scratch off)) }
{
    put(out, "lgfi %r1, ")?;
    put_integer(out, off)
}

// The load of an offset, and a semicolon behind it.
#[inline(always)]
fn put_offset_load(out: &mut String, off: i64) -> Result<(), AllocError>
    ensures { OnOk result
        (string_bytes out.new
        ≡ string_bytes out.old ++ (helper_text (Mov64SImm32 scratch off) ++ codes " ; ")) }
{
    put_loaded_offset(out, off)?;
    put(out, " ; ")
}

// The load of a symbol's address.
#[inline(always)]
fn put_loaded_symbol(out: &mut String, name: ExternalName, offset: i32) -> Result<(), AllocError>
    ensures { OnOk result
        (string_bytes out.new
        ≡ string_bytes out.old
        ++ instruction_text (stem_of opcodes.LARL)
        (reg_text scratch ∷ (name_text name.0 ++ (codes " + " ++ signed_decimal offset)) ∷ [])) }
{
    put_symbol(out, "larl %r1, u", name, offset)
}

// An access at an offset that a displacement holds.
#[inline(never)]
fn put_near(out: &mut String, near: &NearOffset, r: &Reg) -> Result<(), TextError>
    ensures { Prints result (string_bytes out.old) (string_bytes out.new)
        (fixed_text
        (instruction_text (stem_of near.now.opcode)
        (reg_text r.now ∷ offset_text near.now.at.off near.now.at.base ∷ []))) }
{
    match put_named(out, near.opcode, r) {
        Ok(()) => put_place(out, &near.at),
        Err(error) => Err(TextError::from(error)),
    }
}

// The place behind the load of an offset as an index, behind a comma.
#[inline(always)]
fn put_indexed(out: &mut String, base: &Reg) -> Result<(), AllocError>
    ensures { OnOk result
        (string_bytes out.new
        ≡ string_bytes out.old ++ (codes ", " ++ zero_text base.now scratch)) }
{
    if is_zero(base) {
        return put(out, ", 0(%r1,)");
    }
    put_reg_behind(out, ", 0(%r1,", ", 0(%r1,%r", base)?;
    put(out, ")")
}

// An access at a base and the index that an offset was loaded into.
#[inline(always)]
fn put_behind_offset(out: &mut String, far: &NearOffset, r: &Reg) -> Result<(), TextError>
    ensures { Prints result (string_bytes out.old) (string_bytes out.new)
        (fixed_text
        (instruction_text (stem_of far.now.opcode)
        (reg_text r.now ∷ zero_text far.now.at.base scratch ∷ []))) }
{
    match put_named(out, far.opcode, r) {
        Ok(()) => text_result(put_indexed(out, &far.at.base)),
        Err(error) => Err(TextError::from(error)),
    }
}

// An access behind the load of an offset.
#[inline(never)]
fn put_far(out: &mut String, far: &NearOffset, r: &Reg) -> Result<(), TextError>
    ensures { Prints result (string_bytes out.old) (string_bytes out.new)
        (fixed_text
        ((helper_text (Mov64SImm32 scratch far.now.at.off) ++ codes " ; ")
        ++ instruction_text (stem_of far.now.opcode)
        (reg_text r.now ∷ zero_text far.now.at.base scratch ∷ []))) }
{
    match put_offset_load(out, far.at.off) {
        Ok(()) => put_behind_offset(out, far, r),
        Err(error) => Err(TextError::from(error)),
    }
}

// A mnemonic of an access relative to the instruction, likewise.
#[inline(always)]
fn put_relative_name(out: &mut String, opcode: u16, r: &Reg) -> Result<(), AllocError>
    ensures { OnOk result
        (string_bytes out.new
        ≡ string_bytes out.old ++ instruction_text (stem_of opcode) (reg_text r.now ∷ [])) }
{
    if opcode == opcodes::LGRL {
        return put_reg_behind(out, "lgrl ", "lgrl %r", r);
    }
    spelled1(out, stem(opcode), r)
}

// An access at an operand relative to the instruction.
#[inline(never)]
fn put_relative(out: &mut String, opcode: u16, r: &Reg, mem: &MemArg) -> Result<(), TextError>
    ensures { Prints result (string_bytes out.old) (string_bytes out.new)
        (fixed_text
        (instruction_text (stem_of opcode) (reg_text r.now ∷ memory_text mem.now ∷ []))) }
{
    match put_relative_name(out, opcode, r) {
        Ok(()) => text_result(put_behind_comma(out, mem)),
        Err(error) => Err(TextError::from(error)),
    }
}

// An operand behind a comma; a symbol's name begins with the comma's literal.
#[inline(always)]
fn put_behind_comma(out: &mut String, mem: &MemArg) -> Result<(), AllocError>
    ensures { OnOk result
        (string_bytes out.new ≡ string_bytes out.old ++ (codes ", " ++ memory_text mem.now)) }
{
    match mem {
        MemArg::Symbol { name, offset, .. } => put_symbol(out, ", u", *name, *offset),
        _ => {
            put(out, ", ")?;
            mem.put(out)
        }
    }
}

// The place behind the load of an address, behind a comma.
#[inline(always)]
fn put_loaded_place(out: &mut String) -> Result<(), AllocError>
    ensures { OnOk result
        (string_bytes out.new
        ≡ string_bytes out.old ++ (codes ", " ++ zero_text scratch no_register)) }
{
    put(out, ", 0(%r1)")
}

// An access at a base that an address was loaded into.
#[inline(always)]
fn put_behind_load(out: &mut String, opcode: u16, r: &Reg) -> Result<(), TextError>
    ensures { Prints result (string_bytes out.old) (string_bytes out.new)
        (fixed_text
        (instruction_text (stem_of opcode)
        (reg_text r.now ∷ zero_text scratch no_register ∷ []))) }
{
    match put_named(out, opcode, r) {
        Ok(()) => text_result(put_loaded_place(out)),
        Err(error) => Err(TextError::from(error)),
    }
}

// The load of a symbol's address, and a semicolon behind it.
#[inline(always)]
fn put_symbol_load(out: &mut String, name: ExternalName, offset: i32) -> Result<(), AllocError>
    ensures { OnOk result
        (string_bytes out.new
        ≡ string_bytes out.old ++ (instruction_text (stem_of opcodes.LARL)
        (reg_text scratch ∷ (name_text name.0 ++ (codes " + " ++ signed_decimal offset)) ∷ [])
        ++ codes " ; ")) }
{
    put_loaded_symbol(out, name, offset)?;
    put(out, " ; ")
}

// The load of an address, and a semicolon behind it.
#[inline(always)]
fn put_address_load(out: &mut String, mem: &MemArg) -> Result<(), AllocError>
    ensures { OnOk result
        (string_bytes out.new
        ≡ string_bytes out.old ++ (helper_text (helper_of mem.now) ++ codes " ; ")) }
{
    match mem {
        MemArg::Symbol { name, offset, .. } => put_symbol_load(out, *name, *offset),
        _ => put_one_helper(out, mem),
    }
}

// An access behind the load of an address.
#[inline(never)]
fn put_addressed(out: &mut String, opcode: u16, r: &Reg, mem: &MemArg) -> Result<(), TextError>
    ensures { Prints result (string_bytes out.old) (string_bytes out.new)
        (fixed_text
        ((helper_text (helper_of mem.now) ++ codes " ; ")
        ++ instruction_text (stem_of opcode)
        (reg_text r.now ∷ zero_text scratch no_register ∷ []))) }
{
    match put_address_load(out, mem) {
        Ok(()) => put_behind_load(out, opcode, r),
        Err(error) => Err(TextError::from(error)),
    }
}

// The access behind the load of an offset that no displacement holds.
#[inline(always)]
fn far_offset(rows: RegisterRows, mem: &MemArg) -> Option<NearOffset>
    ensures { result ≡ far_offset rows.rx rows.rxy mem.now }
{
    match mem {
        MemArg::RegOffset { reg, off, .. } => {
            if is_far(*off) && !is_numbered(1, reg) {
                at_offset(*reg, *off, zero_row(long_opcode(rows.rx), rows.rxy))
            } else {
                None
            }
        }
        _ => None,
    }
}

// The forms of an operand that the rows have.
#[inline(always)]
fn forms(rows: RegisterRows, has_relative: bool) -> MemInstType
    ensures { result ≡ type_of_rows has_relative (rx_of rows) }
{
    register_rows(rows).inst_type(has_relative)
}

// The opcode of the access at an operand relative to the instruction, where the rows take it.
#[inline(always)]
fn relative_opcode(rows: RegisterRows, has_relative: bool, mem: &MemArg) -> Option<u16>
    ensures { IfSome result
        (λ opcode. (rows.ril ≡ Some opcode)
        × (is_taken (type_of_rows has_relative (rx_of rows)) mem.now ≡ true)) }
{
    if is_taken(forms(rows, has_relative), mem) {
        rows.ril
    } else {
        None
    }
}

// The opcode of the access behind the load of an address, where the rows don't take the operand.
#[inline(always)]
fn addressed_opcode(rows: RegisterRows, has_relative: bool, mem: &MemArg) -> Option<u16>
    ensures { IfSome result
        (λ opcode. (zero_row rows.rx rows.rxy ≡ Some opcode)
        × (helped_at (type_of_rows has_relative (rx_of rows)) mem.now
        ≡ Some (record { base = scratch; index = no_register }))) }
{
    match mem {
        MemArg::Label { .. } | MemArg::Constant { .. } | MemArg::Symbol { .. } => {
            let mi = forms(rows, has_relative);
            if has_displacement(mi) && needs_address(mi, mem) {
                zero_row(long_opcode(rows.rx), rows.rxy)
            } else {
                None
            }
        }
        _ => None,
    }
}

// An access at an operand that is no offset which is printed at once, and that the rows don't take relative to the instruction.
#[inline(always)]
fn put_behind_address(
    out: &mut String,
    place: Place,
    rows: RegisterRows,
    r: &Reg,
) -> Result<(), TextError>
    ensures { Prints result (string_bytes out.old) (string_bytes out.new)
        (access_where place.entry.has_relative (rx_of rows) place.entry.state.now
        (reg_text r.now ∷ []) place.entry.mem.now []) }
{
    match addressed_opcode(rows, place.has_relative, place.mem) {
        Some(opcode) => put_addressed(out, opcode, r, place.mem),
        None => other_rx_access(out, place, rows, r),
    }
}

// An access at an operand that is no offset which is printed at once.
#[inline(always)]
fn put_at_address(
    out: &mut String,
    place: Place,
    rows: RegisterRows,
    r: &Reg,
) -> Result<(), TextError>
    ensures { Prints result (string_bytes out.old) (string_bytes out.new)
        (access_where place.entry.has_relative (rx_of rows) place.entry.state.now
        (reg_text r.now ∷ []) place.entry.mem.now []) }
{
    match relative_opcode(rows, place.has_relative, place.mem) {
        Some(opcode) => put_relative(out, opcode, r, place.mem),
        None => put_behind_address(out, place, rows, r),
    }
}

// An access at an operand that is no near offset.
#[inline(always)]
fn put_other_access(
    out: &mut String,
    place: Place,
    rows: RegisterRows,
    r: &Reg,
) -> Result<(), TextError>
    ensures { Prints result (string_bytes out.old) (string_bytes out.new)
        (access_where place.entry.has_relative (rx_of rows) place.entry.state.now
        (reg_text r.now ∷ []) place.entry.mem.now []) }
{
    match far_offset(rows, place.mem) {
        Some(far) => put_far(out, &far, r),
        None => put_at_address(out, place, rows, r),
    }
}

/// Appends the text of an access by rows of formats RX, RXY and RIL-B, with a register before the operand in memory.
#[inline(always)]
pub fn put_access(
    out: &mut String,
    place: Place,
    rows: RegisterRows,
    r: &Reg,
) -> Result<(), TextError>
    ensures { Prints result (string_bytes out.old) (string_bytes out.new)
        (access_where place.entry.has_relative (rx_of rows) place.entry.state.now
        (reg_text r.now ∷ []) place.entry.mem.now []) }
{
    match near_offset(long_opcode(rows.rx), rows.rxy, place.mem) {
        Some(near) => put_near(out, &near, r),
        None => put_other_access(out, place, rows, r),
    }
}
