//! Memory operands: the forms, and their names.
ghost use Rattle.std.specs.Prelude.{◌≡◌, ◌++◌, ◌∷◌, [], OnOk, string_bytes};
ghost use Rattle.std.specs.Fmt.{signed_decimal};
ghost use Rattle.s390x_job_fields.specs.Atoms.{reg_text, access_text};
ghost use Rattle.s390x_job_fields.specs.Numbers.{natural_of, integer_of, W12, S20};
ghost use Rattle.s390x_job_fields.specs.Memory.{form_text, form_of, memory_form_of, inside_text, memory_text, memory_with, memory_operand_of};

use crate::atoms::{access, name, put_access, put_name, put_reg, reg};
use crate::number::{
    integer20, integer32, integer64, natural12, natural32, put, put_char, put_integer, put_natural,
};
use crate::separators::{rest_behind, word};
use crate::word::{Names, Word, find, name_at};
use s390x_base::{MachLabel, MachMemFlags, Reg, SImm20, UImm12, VCodeConstant};
use s390x_inst::MemArg;
use std::alloc::AllocError;

/// The form of a memory operand.
#[derive(Clone, Copy)]
pub enum MemoryForm {
    BXD12,
    BXD20,
    Label,
    Constant,
    Symbol,
    RegOffset,
    InitialSPOffset,
    IncomingArgOffset,
    OutgoingArgOffset,
    SlotOffset,
    SpillOffset,
}

/// Each value with its name, in the order of the declaration.
pub const FORM_NAMES: Names<MemoryForm> = &[
    (MemoryForm::BXD12, "BXD12"),
    (MemoryForm::BXD20, "BXD20"),
    (MemoryForm::Label, "Label"),
    (MemoryForm::Constant, "Constant"),
    (MemoryForm::Symbol, "Symbol"),
    (MemoryForm::RegOffset, "RegOffset"),
    (MemoryForm::InitialSPOffset, "InitialSPOffset"),
    (MemoryForm::IncomingArgOffset, "IncomingArgOffset"),
    (MemoryForm::OutgoingArgOffset, "OutgoingArgOffset"),
    (MemoryForm::SlotOffset, "SlotOffset"),
    (MemoryForm::SpillOffset, "SpillOffset"),
];

impl Word for MemoryForm {
    ghost spelling = { form_text };

    fn text(self) -> &'static str {
        name_at(FORM_NAMES, self as usize)
    }
}

/// The form that a word names, the table's first for any other word.
#[tactic(auto, unfolding(crate::specs::Memory::form_of))]
fn form_named(word: &[u8]) -> MemoryForm
    ensures { result ≡ form_of word.now }
{
    find(FORM_NAMES, word, MemoryForm::BXD12)
}

/// Appends base, index and the beginning of the displacement's place.
fn put_indexed(out: &mut String, base: Reg, index: Reg) -> Result<(), AllocError>
    ensures { OnOk result
        (string_bytes out.new
        ≡ string_bytes out.old ++ (reg_text base ++ (44 ∷ (reg_text index ++ (44 ∷ []))))) }
{
    put_reg(out, base)?;
    put_char(out, ',')?;
    put_reg(out, index)?;
    put_char(out, ',')
}

fn put_end(out: &mut String, flags: MachMemFlags) -> Result<(), AllocError>
    ensures { OnOk result (string_bytes out.new ≡ string_bytes out.old ++ 44 ∷ access_text flags) }
{
    put_char(out, ',')?;
    put_access(out, flags)
}

fn put_offset(out: &mut String, off: i64, flags: MachMemFlags) -> Result<(), AllocError>
    ensures { OnOk result
        (string_bytes out.new
        ≡ string_bytes out.old ++ 44 ∷ (signed_decimal off ++ (44 ∷ access_text flags))) }
{
    put_char(out, ',')?;
    put_integer(out, off)?;
    put_end(out, flags)
}

/// Appends the fields of the operand, without the parentheses.
fn put_inside(out: &mut String, m: MemArg) -> Result<(), AllocError>
    ensures { OnOk result (string_bytes out.new ≡ string_bytes out.old ++ inside_text m) }
{
    match m {
        MemArg::BXD12 {
            base,
            index,
            disp,
            flags,
        } => {
            put_indexed(out, base, index)?;
            put_natural(out, u64::from(disp.bits()))?;
            put_end(out, flags)
        }
        MemArg::BXD20 {
            base,
            index,
            disp,
            flags,
        } => {
            put_indexed(out, base, index)?;
            put_integer(out, i64::from(disp.value()))?;
            put_end(out, flags)
        }
        MemArg::Label { target } => put_natural(out, u64::from(target.0)),
        MemArg::Constant { constant } => put_natural(out, u64::from(constant.0)),
        MemArg::Symbol {
            name,
            offset,
            flags,
        } => {
            put_name(out, name)?;
            put_offset(out, i64::from(offset), flags)
        }
        MemArg::RegOffset { reg, off, flags } => {
            put_reg(out, reg)?;
            put_offset(out, off, flags)
        }
        MemArg::InitialSPOffset { off } => put_integer(out, off),
        MemArg::IncomingArgOffset { off } => put_integer(out, off),
        MemArg::OutgoingArgOffset { off } => put_integer(out, off),
        MemArg::SlotOffset { off } => put_integer(out, off),
        MemArg::SpillOffset { off } => put_integer(out, off),
    }
}

fn form(m: &MemArg) -> MemoryForm
    ensures { result ≡ memory_form_of m.now }
{
    match m {
        MemArg::BXD12 { .. } => MemoryForm::BXD12,
        MemArg::BXD20 { .. } => MemoryForm::BXD20,
        MemArg::Label { .. } => MemoryForm::Label,
        MemArg::Constant { .. } => MemoryForm::Constant,
        MemArg::Symbol { .. } => MemoryForm::Symbol,
        MemArg::RegOffset { .. } => MemoryForm::RegOffset,
        MemArg::InitialSPOffset { .. } => MemoryForm::InitialSPOffset,
        MemArg::IncomingArgOffset { .. } => MemoryForm::IncomingArgOffset,
        MemArg::OutgoingArgOffset { .. } => MemoryForm::OutgoingArgOffset,
        MemArg::SlotOffset { .. } => MemoryForm::SlotOffset,
        MemArg::SpillOffset { .. } => MemoryForm::SpillOffset,
    }
}

/// Appends a memory operand.
pub fn put_memory(out: &mut String, m: MemArg) -> Result<(), AllocError>
    ensures { OnOk result (string_bytes out.new ≡ string_bytes out.old ++ memory_text m) }
{
    put(out, form(&m).text())?;
    put_char(out, '(')?;
    put_inside(out, m)?;
    put_char(out, ')')
}

fn displacement12(w: &[u8]) -> UImm12
    ensures { result ≡ natural_of W12 w.now }
{
    match UImm12::maybe_from_u64(natural12(w)) {
        Some(disp) => disp,
        None => UImm12::zero(),
    }
}

/// The displacement of a word, some displacement for any other word.
pub fn displacement20(w: &[u8]) -> SImm20
    ensures { result ≡ integer_of S20 w.now }
{
    match SImm20::maybe_from_i64(integer20(w)) {
        Some(disp) => disp,
        None => SImm20::from_uimm12(UImm12::zero()),
    }
}

fn indexed12(s: &[u8]) -> MemArg
    ensures { result ≡ memory_with MemoryForm.BXD12 s.now }
{
    let base = word(s);
    let t = rest_behind(s, base);
    let index = word(t);
    let u = rest_behind(t, index);
    let disp = word(u);
    MemArg::BXD12 {
        base: reg(base),
        index: reg(index),
        disp: displacement12(disp),
        flags: access(rest_behind(u, disp)),
    }
}

fn indexed20(s: &[u8]) -> MemArg
    ensures { result ≡ memory_with MemoryForm.BXD20 s.now }
{
    let base = word(s);
    let t = rest_behind(s, base);
    let index = word(t);
    let u = rest_behind(t, index);
    let disp = word(u);
    MemArg::BXD20 {
        base: reg(base),
        index: reg(index),
        disp: displacement20(disp),
        flags: access(rest_behind(u, disp)),
    }
}

fn symbol(s: &[u8]) -> MemArg
    ensures { result ≡ memory_with MemoryForm.Symbol s.now }
{
    let symbol = word(s);
    let t = rest_behind(s, symbol);
    let offset = word(t);
    MemArg::Symbol {
        name: name(symbol),
        offset: integer32(offset),
        flags: access(rest_behind(t, offset)),
    }
}

fn reg_offset(s: &[u8]) -> MemArg
    ensures { result ≡ memory_with MemoryForm.RegOffset s.now }
{
    let base = word(s);
    let t = rest_behind(s, base);
    let offset = word(t);
    MemArg::RegOffset {
        reg: reg(base),
        off: integer64(offset),
        flags: access(rest_behind(t, offset)),
    }
}

fn memory_with(form: MemoryForm, s: &[u8]) -> MemArg
    ensures { result ≡ memory_with form s.now }
{
    match form {
        MemoryForm::BXD12 => indexed12(s),
        MemoryForm::BXD20 => indexed20(s),
        MemoryForm::Label => MemArg::Label {
            target: MachLabel(natural32(word(s))),
        },
        MemoryForm::Constant => MemArg::Constant {
            constant: VCodeConstant(natural32(word(s))),
        },
        MemoryForm::Symbol => symbol(s),
        MemoryForm::RegOffset => reg_offset(s),
        MemoryForm::InitialSPOffset => MemArg::InitialSPOffset {
            off: integer64(word(s)),
        },
        MemoryForm::IncomingArgOffset => MemArg::IncomingArgOffset {
            off: integer64(word(s)),
        },
        MemoryForm::OutgoingArgOffset => MemArg::OutgoingArgOffset {
            off: integer64(word(s)),
        },
        MemoryForm::SlotOffset => MemArg::SlotOffset {
            off: integer64(word(s)),
        },
        MemoryForm::SpillOffset => MemArg::SpillOffset {
            off: integer64(word(s)),
        },
    }
}

/// The memory operand after one mark, some operand where none stands there.
pub fn memory(s: &[u8]) -> MemArg
    ensures { result ≡ memory_operand_of s.now }
{
    let form = word(s);
    memory_with(form_named(form), rest_behind(s, form))
}
