//! The texts of instructions that go elsewhere, end a run, name a place or have no bytes.
ghost use Rattle.std.specs.Prelude.{◌≡◌, ◌++◌, ◌∷◌, [], codes, OnOk, string_bytes};
ghost use Rattle.s390x_job_fields.specs.Atoms.{reg_text, trap_text};
ghost use Rattle.s390x_text_rows.specs.Texts.{Prints, PrintsWhere, fixed_text, instruction_text};
ghost use Rattle.s390x_text_rows.specs.Operands.{cond_text, label_text};
ghost use Rattle.s390x_text_rows.specs.Control.{branch_text, labels_text, convention_text, args_text, rets_text, allocate_text, reloc_text, table_sum_text, table_text, control_text};

use crate::error::TextError;
use crate::operand::{Operand, put_cond};
use crate::piece::{put, put_integer, put_natural};
use crate::register_names::put_reg;
use crate::row::{fixed1, fixed2, spelled1, text_result};
use s390x_base::{Cond, MachLabel, Reg, TrapCode, TrapKind, Writable};
use s390x_inst::{ArgPair, Inst, RetPair, SymbolReloc};
use std::alloc::AllocError;

// A branch to a block under a condition.
fn put_branch(out: &mut String, cond: Cond, label: MachLabel) -> Result<(), AllocError>
    ensures { OnOk result
        (string_bytes out.new ≡ string_bytes out.old ++ branch_text cond label.0) }
{
    put_branch_name(out, cond)?;
    put_label(out, &label)
}

fn put_two_branches(
    out: &mut String,
    cond: Cond,
    taken: MachLabel,
    not_taken: MachLabel,
) -> Result<(), AllocError>
    ensures { OnOk result
        (string_bytes out.new
        ≡ string_bytes out.old
        ++ (branch_text cond taken.0
        ++ (codes " ; " ++ instruction_text (codes "jg") (label_text not_taken.0 ∷ [])))) }
{
    put_branch(out, cond, taken)?;
    put(out, " ; ")?;
    spelled1(out, "jg", &not_taken)
}

// A branch under a condition that goes where the text behind it says.
fn put_jump(out: &mut String, cond: Cond, end: &str) -> Result<(), AllocError>
    ensures { OnOk result
        (string_bytes out.new
        ≡ string_bytes out.old ++ (codes "jg" ++ (cond_text cond ++ end.now))) }
{
    put_branch_name(out, cond)?;
    put(out, end)
}

// The mnemonic of a branch under a condition.
fn put_branch_name(out: &mut String, cond: Cond) -> Result<(), AllocError>
    ensures { OnOk result
        (string_bytes out.new ≡ string_bytes out.old ++ (codes "jg" ++ cond_text cond)) }
{
    put(out, "jg")?;
    put_cond(out, cond)
}

// A trap's code, by a literal, which is copied without a call.
#[inline(always)]
fn put_trap(out: &mut String, code: TrapCode) -> Result<(), AllocError>
    ensures { OnOk result (string_bytes out.new ≡ string_bytes out.old ++ trap_text code) }
{
    match code.kind() {
        TrapKind::StackOverflow => put(out, "stk_ovf"),
        TrapKind::IntegerOverflow => put(out, "int_ovf"),
        TrapKind::HeapOutOfBounds => put(out, "heap_oob"),
        TrapKind::IntegerDivisionByZero => put(out, "int_divz"),
        TrapKind::BadConversionToInteger => put(out, "bad_toint"),
        TrapKind::User(number) => {
            put(out, "user")?;
            put_natural(out, u64::from(number))
        }
    }
}

// The place in a branch that traps, and the trap's code.
#[inline(always)]
fn put_trap_place(out: &mut String, code: TrapCode) -> Result<(), AllocError>
    ensures { OnOk result
        (string_bytes out.new ≡ string_bytes out.old ++ (codes " .+2 # trap=" ++ trap_text code)) }
{
    put(out, " .+2 # trap=")?;
    put_trap(out, code)
}

#[inline(always)]
fn put_trap_if(out: &mut String, cond: Cond, code: TrapCode) -> Result<(), AllocError>
    ensures { OnOk result
        (string_bytes out.new
        ≡ string_bytes out.old
        ++ ((codes "jg" ++ (cond_text cond ++ codes " .+2 # trap=")) ++ trap_text code)) }
{
    put_branch_name(out, cond)?;
    put_trap_place(out, code)
}

fn put_trap_word(out: &mut String, code: TrapCode) -> Result<(), AllocError>
    ensures { OnOk result
        (string_bytes out.new
        ≡ string_bytes out.old ++ (codes ".word 0x0000 # trap=" ++ trap_text code)) }
{
    put(out, ".word 0x0000 # trap=")?;
    put_trap(out, code)
}

// A label behind a space.
fn put_label(out: &mut String, label: &MachLabel) -> Result<(), AllocError>
    ensures { OnOk result
        (string_bytes out.new ≡ string_bytes out.old ++ (codes " " ++ label_text label.now.0)) }
{
    put(out, " ")?;
    label.put(out)
}

fn put_labels(out: &mut String, labels: &[MachLabel]) -> Result<(), AllocError>
    ensures { OnOk result (string_bytes out.new ≡ string_bytes out.old ++ labels_text labels.now) }
{
    for label in labels {
        put_label(out, label)?;
    }
    Ok(())
}

// The word of a table that is added to its address.
fn put_table_load(out: &mut String, index: Reg) -> Result<(), AllocError>
    ensures { OnOk result
        (string_bytes out.new
        ≡ string_bytes out.old ++ (codes " ; larl %r1, 14 ; agf %r1, 0(" ++ reg_text index)) }
{
    put(out, " ; larl %r1, 14 ; agf %r1, 0(")?;
    put_reg(out, &index)
}

fn put_table_jump(out: &mut String) -> Result<(), AllocError>
    ensures { OnOk result
        (string_bytes out.new ≡ string_bytes out.old ++ codes ", %r1) ; br %r1 ; jt_entries") }
{
    put(out, ", %r1) ; br %r1 ; jt_entries")
}

// The word of a table that is added to its address, and the jump.
fn put_table_sum(out: &mut String, index: Reg) -> Result<(), AllocError>
    ensures { OnOk result (string_bytes out.new ≡ string_bytes out.old ++ table_sum_text index) }
{
    put_table_load(out, index)?;
    put_table_jump(out)
}

fn put_table(
    out: &mut String,
    index: Reg,
    other: MachLabel,
    cond: Cond,
    targets: &[MachLabel],
) -> Result<(), AllocError>
    ensures { OnOk result
        (string_bytes out.new ≡ string_bytes out.old ++ table_text index other.0 cond targets.now) }
{
    put_branch(out, cond, other)?;
    put_table_sum(out, index)?;
    put_labels(out, targets)
}

// A register that holds a value, and the one that the convention wants.
fn put_convention(out: &mut String, held: Reg, wanted: Reg) -> Result<(), AllocError>
    ensures { OnOk result
        (string_bytes out.new ≡ string_bytes out.old ++ convention_text held wanted) }
{
    put(out, " ")?;
    put_reg(out, &held)?;
    put(out, "=")?;
    put_reg(out, &wanted)
}

fn put_arg(out: &mut String, arg: &ArgPair) -> Result<(), AllocError>
    ensures { OnOk result
        (string_bytes out.new ≡ string_bytes out.old ++ convention_text arg.now.vreg arg.now.preg) }
{
    put_convention(out, arg.vreg.to_reg(), arg.preg)
}

fn put_arg_pairs(out: &mut String, args: &[ArgPair]) -> Result<(), AllocError>
    ensures { OnOk result (string_bytes out.new ≡ string_bytes out.old ++ args_text args.now) }
{
    for arg in args {
        put_arg(out, arg)?;
    }
    Ok(())
}

fn put_ret(out: &mut String, ret: &RetPair) -> Result<(), AllocError>
    ensures { OnOk result
        (string_bytes out.new ≡ string_bytes out.old ++ convention_text ret.now.vreg ret.now.preg) }
{
    put_convention(out, ret.vreg, ret.preg)
}

fn put_ret_pairs(out: &mut String, rets: &[RetPair]) -> Result<(), AllocError>
    ensures { OnOk result (string_bytes out.new ≡ string_bytes out.old ++ rets_text rets.now) }
{
    for ret in rets {
        put_ret(out, ret)?;
    }
    Ok(())
}

fn put_args(out: &mut String, args: &[ArgPair]) -> Result<(), AllocError>
    ensures { OnOk result
        (string_bytes out.new ≡ string_bytes out.old ++ (codes "args" ++ args_text args.now)) }
{
    put(out, "args")?;
    put_arg_pairs(out, args)
}

fn put_rets(out: &mut String, rets: &[RetPair]) -> Result<(), AllocError>
    ensures { OnOk result
        (string_bytes out.new ≡ string_bytes out.old ++ (codes "rets" ++ rets_text rets.now)) }
{
    put(out, "rets")?;
    put_ret_pairs(out, rets)
}

// How bytes are taken from the stack.
fn put_allocate(out: &mut String, size: u32) -> Result<(), AllocError>
    ensures { OnOk result (string_bytes out.new ≡ string_bytes out.old ++ allocate_text size) }
{
    if size <= 32767 {
        put(out, "aghi %r15, ")?;
        put_integer(out, 0 - i64::from(size))
    } else {
        put(out, "slgfi %r15, ")?;
        put_natural(out, u64::from(size))
    }
}

// A symbol plus an offset.
fn put_reloc(out: &mut String, reloc: &SymbolReloc) -> Result<(), AllocError>
    ensures { OnOk result (string_bytes out.new ≡ string_bytes out.old ++ reloc_text reloc.now) }
{
    match reloc {
        SymbolReloc::Absolute { name, offset } => {
            name.put(out)?;
            put(out, " + ")?;
            put_integer(out, *offset)
        }
    }
}

fn put_symbol_load(
    out: &mut String,
    rd: &Writable<Reg>,
    reloc: &SymbolReloc,
) -> Result<(), AllocError>
    ensures { OnOk result
        (string_bytes out.new
        ≡ string_bytes out.old
        ++ (codes "bras %r1, 12 ; data "
        ++ (reloc_text reloc.now ++ (codes " ; lg " ++ (reg_text rd.now ++ codes ", 0(%r1)"))))) }
{
    put(out, "bras %r1, 12 ; data ")?;
    put_reloc(out, reloc)?;
    put(out, " ; lg ")?;
    put_reg(out, &rd.to_reg())?;
    put(out, ", 0(%r1)")
}

/// Appends the text of a branch to one of two blocks.
#[inline(never)]
pub fn put_conditional_branch(
    out: &mut String,
    cond: Cond,
    taken: MachLabel,
    not_taken: MachLabel,
) -> Result<(), TextError>
    ensures { Prints result (string_bytes out.old) (string_bytes out.new)
        (fixed_text
        (branch_text cond taken.0
        ++ (codes " ; " ++ instruction_text (codes "jg") (label_text not_taken.0 ∷ [])))) }
{
    Ok(put_two_branches(out, cond, taken, not_taken)?)
}

/// Appends the text of a trap under a condition.
#[inline(never)]
pub fn put_conditional_trap(out: &mut String, cond: Cond, code: TrapCode) -> Result<(), TextError>
    ensures { Prints result (string_bytes out.old) (string_bytes out.new)
        (fixed_text ((codes "jg" ++ (cond_text cond ++ codes " .+2 # trap=")) ++ trap_text code)) }
{
    Ok(put_trap_if(out, cond, code)?)
}

/// Appends the text of a load of a symbol's address from behind a branch.
#[inline(never)]
pub fn put_symbol_address(
    out: &mut String,
    rd: &Writable<Reg>,
    reloc: &SymbolReloc,
) -> Result<(), TextError>
    ensures { Prints result (string_bytes out.old) (string_bytes out.new)
        (fixed_text
        (codes "bras %r1, 12 ; data "
        ++ (reloc_text reloc.now ++ (codes " ; lg " ++ (reg_text rd.now ++ codes ", 0(%r1)"))))) }
{
    Ok(put_symbol_load(out, rd, reloc)?)
}

/// Appends the text of an instruction that goes elsewhere, ends a run, names a place or has no bytes; None for another one. Loops, calls and
/// tail calls aren't among them.
#[inline(never)]
pub fn put_control(out: &mut String, inst: &Inst) -> Option<Result<(), TextError>>
    ensures { PrintsWhere result (string_bytes out.old) (string_bytes out.new)
        (control_text inst.now) }
{
    match inst {
        Inst::Fence => Some(text_result(put(out, "bcr 14, 0"))),
        Inst::Nop0 => Some(text_result(put(out, "nop-zero-len"))),
        Inst::Nop2 => Some(text_result(put(out, "nop"))),
        Inst::Debugtrap => Some(text_result(put(out, ".word 0x0001 # debugtrap"))),
        Inst::Trap { trap_code } => Some(text_result(put_trap_word(out, *trap_code))),
        Inst::TrapIf { cond, trap_code } => Some(text_result(put_trap_if(out, *cond, *trap_code))),
        Inst::Jump { dest } => Some(fixed1(out, "jg", dest)),
        Inst::CondBr {
            taken,
            not_taken,
            cond,
        } => Some(text_result(put_two_branches(out, *cond, *taken, *not_taken))),
        Inst::IndirectBr { rn, .. } => Some(fixed1(out, "br", rn)),
        Inst::Ret { link } => Some(fixed1(out, "br", link)),
        Inst::JTSequence {
            ridx,
            default,
            default_cond,
            targets,
        } => Some(text_result(put_table(out, *ridx, *default, *default_cond, targets))),
        Inst::CondBreak { cond } => Some(text_result(put_jump(out, *cond, " 1f"))),
        Inst::AllocateArgs { size } => Some(text_result(put_allocate(out, *size))),
        Inst::LoadSymbolReloc { rd, symbol_reloc } => {
            Some(text_result(put_symbol_load(out, rd, symbol_reloc)))
        }
        Inst::LabelAddress { dst, label } => Some(fixed2(out, "label_address", dst, label)),
        Inst::Args { args } => Some(text_result(put_args(out, args))),
        Inst::Rets { rets } => Some(text_result(put_rets(out, rets))),
        Inst::DummyUse { reg } => Some(fixed1(out, "dummy_use", reg)),
        Inst::SequencePoint => Some(text_result(put(out, "sequence_point"))),
        _ => None,
    }
}
