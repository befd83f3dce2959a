//! Operands that are relative to the instruction: why one is refused for the place that it names, and its access.
#![tactic(auto, using(s390x_buffer::proofs::Extending::extends_on, s390x_buffer::proofs::Extending::extends_same))]

ghost use Rattle.std.specs.Prelude.{◌≡◌, ℕ, ◌+◌, ◌≤◌, ◌<◌, [], ◌∷◌, ◌++◌, true, None, Some, Option, length, nat_le, OnOk, IfErr};
ghost use Rattle.s390x_base.specs.Regs.{number_of};
ghost use Rattle.s390x_base.specs.declared.error.EmitError.TheVariants.{NoMemory, BadAlignment};
ghost use Rattle.s390x_base.specs.declared.trap.TrapKind.{TrapKind};
ghost use Rattle.s390x_buffer.specs.Extends.{Extends};
ghost use Rattle.s390x_buffer.specs.State.{put_cause};
ghost use Rattle.s390x_buffer.specs.declared.label_use.LabelUse.TheVariants.{BranchRIL};
ghost use Rattle.s390x_enc.specs.Operands.{is_general_class};
ghost use Rattle.s390x_inst.specs.declared.args.MemArg.TheVariants.{Constant};
ghost use Rattle.s390x_typed_steps.specs.Causes.{first_emit_cause, unless, declared_in, target_label_cause, bound_cause, alignment_cause, addend_fits};
ghost use Rattle.s390x_typed_steps.specs.Memory.{RxForm};
ghost use Rattle.s390x_typed_steps.specs.Parts.{Relative, RelativeConstant, RelativeSymbol, ToBlock, trap_here, relative_part, relative_parts, parts_size};
ghost use Rattle.s390x_typed_steps.specs.Storage.{relative_bytes};
ghost use Rattle.s390x_address.specs.Appended.{with_part, with_parts};
ghost use Rattle.s390x_address.specs.Lowerings.{is_bound_operand};
ghost use Rattle.s390x_address.specs.Rows.{storage_form_of, relative_encodes, rows_encode};

use crate::rows::StorageRows;
use s390x_base::{Code, EmitError, ExternalName, MachLabel, Reg, Reloc, TrapCode, VCodeConstant};
use s390x_buffer::{LabelUse, MachBuffer};
use s390x_enc::enc_ril_b;
use s390x_inst::MemArg;
use s390x_rows::opcodes;

/// How many bytes the row of an opcode accesses that is relative to the instruction.
pub fn relative_bytes(opcode: u16) -> u32
    ensures { result ≡ relative_bytes opcode }
{
    if opcode == opcodes::LLHRL
        || opcode == opcodes::LGHRL
        || opcode == opcodes::LHRL
        || opcode == opcodes::LLGHRL
        || opcode == opcodes::STHRL
        || opcode == opcodes::CGHRL
        || opcode == opcodes::CHRL
        || opcode == opcodes::CLGHRL
        || opcode == opcodes::CLHRL
    {
        2
    } else if opcode == opcodes::LGRL
        || opcode == opcodes::STGRL
        || opcode == opcodes::CGRL
        || opcode == opcodes::CLGRL
    {
        8
    } else {
        4
    }
}

// A label that names no block, or that would have to stand on a greater boundary than an even place.
fn label_cause(sink: &MachBuffer, target: MachLabel, boundary: u32) -> Option<EmitError>
    ensures { result
        ≡ first_emit_cause (target_label_cause sink.now.block_count target)
        (unless (nat_le boundary 2) BadAlignment) }
{
    if target.0 >= sink.block_count() {
        Some(EmitError::UnboundLabel)
    } else if boundary > 2 {
        Some(EmitError::BadAlignment)
    } else {
        None
    }
}

// A constant that isn't declared, or not on this boundary.
fn constant_cause(sink: &MachBuffer, constant: VCodeConstant, boundary: u32) -> Option<EmitError>
    ensures { result
        ≡ first_emit_cause (bound_cause (declared_in sink.now) (Constant constant))
        (alignment_cause (declared_in sink.now) boundary (Constant constant)) }
{
    match sink.constant_align(constant) {
        Some(align) => {
            if boundary <= align {
                None
            } else {
                Some(EmitError::BadAlignment)
            }
        }
        None => Some(EmitError::UnboundLabel),
    }
}

/// The first cause of the place that an operand names, which has to stand on a boundary: a label names no block or a constant isn't declared
/// (`UnboundLabel`), nothing tells that it stands there (`BadAlignment`).
pub fn target_cause(sink: &MachBuffer, operand: &MemArg, boundary: u32) -> Option<EmitError>
    ensures { result
        ≡ first_emit_cause (bound_cause (declared_in sink.now) operand.now)
        (alignment_cause (declared_in sink.now) boundary operand.now) }
{
    match operand {
        MemArg::Label { target } => label_cause(sink, *target, boundary),
        MemArg::Constant { constant } => constant_cause(sink, *constant, boundary),
        _ => None,
    }
}

/// Whether a symbol's offset plus 2, the addend of its relocation, fits a signed immediate of 32 bits.
pub fn addend_fits(operand: &MemArg) -> bool
    ensures { result ≡ addend_fits operand.now }
{
    match operand {
        MemArg::Symbol { offset, .. } => *offset <= 2147483645,
        _ => true,
    }
}

/// A trap at what follows, where its faults have a code. An error comes where the buffer has no room (`TooLong`) or
/// for want of memory.
pub fn put_trap(sink: &mut MachBuffer, trap_code: Option<TrapCode>) -> Result<(), EmitError>
    ensures answer { OnOk result (sink.new ≡ with_parts sink.old (trap_here trap_code)) }
    ensures only_memory { put_cause sink.old 0 ≡ None → IfErr result (λ e. e ≡ NoMemory) }
    ensures kept { Extends sink.old sink.new }
{
    match trap_code {
        Some(code) => sink.add_trap(code),
        None => Ok(()),
    }
}

// A code with half of the distance to a label behind its second byte; the buffer's end fills it in.
fn put_linked(sink: &mut MachBuffer, code: &Code, label: MachLabel) -> Result<(), EmitError>
    ensures answer { OnOk result
        (sink.new
        ≡ record sink.old {
          bytes = sink.old.bytes ++ code.now;
          uses = sink.old.uses
              ++ record { kind = BranchRIL; offset = length sink.old.bytes; label = label }
              ∷ [];
        }) }
    ensures only_memory { put_cause sink.old (length code.now) ≡ None
        → label.0 < length sink.old.labels → IfErr result (λ e. e ≡ NoMemory) }
    ensures kept { Extends sink.old sink.new }
{
    let offset = sink.cur_offset();
    sink.use_label_at_offset(offset, label, LabelUse::BranchRIL)?;
    sink.put_code(code)
}

// A row with a register and the distance to a label.
fn put_to_label(
    sink: &mut MachBuffer,
    opcode: u16,
    register: Reg,
    label: MachLabel,
) -> Result<(), EmitError>
    requires { opcode < 4096 }
    ensures answer { OnOk result
        (sink.new ≡ with_part sink.old (Relative opcode (number_of register) (ToBlock label.0))) }
    ensures only_memory { put_cause sink.old 6 ≡ None → is_general_class register ≡ true
        → label.0 < length sink.old.labels → IfErr result (λ e. e ≡ NoMemory) }
    ensures kept { Extends sink.old sink.new }
{
    let code = enc_ril_b(opcode, register, 0)?;
    put_linked(sink, &code, label)
}

// A row with a register and the distance to a constant.
fn put_to_constant(
    sink: &mut MachBuffer,
    opcode: u16,
    register: Reg,
    constant: VCodeConstant,
) -> Result<(), EmitError>
    requires { opcode < 4096 }
    ensures answer { OnOk result
        (sink.new ≡ with_part sink.old (RelativeConstant opcode (number_of register) constant.0)) }
    ensures only_memory { put_cause sink.old 6 ≡ None → is_general_class register ≡ true
        → constant.0 < length sink.old.constants
        → sink.old.block_count + length sink.old.constants ≤ length sink.old.labels
        → IfErr result (λ e. e ≡ NoMemory) }
    ensures kept { Extends sink.old sink.new }
{
    let label = sink.get_label_for_constant(constant)?;
    put_to_label(sink, opcode, register, label)
}

// A row with a register and the distance to a symbol plus an offset, which linking fills in. Its field stands two bytes behind its beginning.
#[inline(always)]
fn put_to_symbol(
    sink: &mut MachBuffer,
    opcode: u16,
    register: Reg,
    name: ExternalName,
    offset: i32,
) -> Result<(), EmitError>
    requires { opcode < 4096 }
    ensures answer { OnOk result
        (sink.new ≡ with_part sink.old (RelativeSymbol opcode (number_of register) name offset)) }
    ensures only_memory { put_cause sink.old 6 ≡ None → is_general_class register ≡ true
        → IfErr result (λ e. e ≡ NoMemory) }
    ensures kept { Extends sink.old sink.new }
{
    let code = enc_ril_b(opcode, register, 0)?;
    let field = sink.cur_offset() + 2;
    let addend = i64::from(offset) + 2;
    sink.add_reloc_at_offset(field, Reloc::S390xPCRel32Dbl, name, addend)?;
    sink.put_code(&code)
}

// The labels of the blocks and the constants are among the buffer's.
fn reveal_label_range(sink: &MachBuffer)
    ensures { sink.now.block_count + length sink.now.constants ≤ length sink.now.labels }
{
    let _count = sink.label_count();
}

// A row with a register and an operand that is relative to it.
fn put_row(
    sink: &mut MachBuffer,
    opcode: u16,
    register: Reg,
    operand: &MemArg,
) -> Result<(), EmitError>
    requires { opcode < 4096 }
    ensures answer { OnOk result
        (sink.new ≡ with_parts sink.old (relative_part opcode (number_of register) operand.now)) }
    ensures only_memory { put_cause sink.old
        (parts_size (relative_part opcode (number_of register) operand.now)) ≡ None
        → is_general_class register ≡ true
        → is_bound_operand (declared_in sink.old) operand.now ≡ true
        → IfErr result (λ e. e ≡ NoMemory) }
    ensures kept { Extends sink.old sink.new }
{
    reveal_label_range(sink);
    match operand {
        MemArg::Label { target } => put_to_label(sink, opcode, register, *target),
        MemArg::Constant { constant } => put_to_constant(sink, opcode, register, *constant),
        MemArg::Symbol { name, offset, .. } => put_to_symbol(
            sink, opcode, register, *name, *offset,
        ),
        _ => Ok(()),
    }
}

// The row relative to a label, behind the trap of its faults.
fn put_trapping_row(
    sink: &mut MachBuffer,
    opcode: u16,
    register: Reg,
    operand: &MemArg,
    trap_code: Option<TrapCode>,
) -> Result<(), EmitError>
    requires { opcode < 4096 }
    ensures answer { OnOk result
        (sink.new
        ≡ with_parts sink.old
        (trap_here trap_code ++ relative_part opcode (number_of register) operand.now)) }
    ensures only_memory { put_cause sink.old
        (parts_size (trap_here trap_code ++ relative_part opcode (number_of register) operand.now))
        ≡ None → is_general_class register ≡ true
        → is_bound_operand (declared_in sink.old) operand.now ≡ true
        → IfErr result (λ e. e ≡ NoMemory) }
    ensures kept { Extends sink.old sink.new }
{
    put_trap(sink, trap_code)?;
    put_row(sink, opcode, register, operand)
}

/// The access of an operand that is relative to it, with the trap of its faults, where there is a row for it. An
/// error comes where a register doesn't fit (`BadRegister`), where the operand names a label or constant that isn't
/// there (`UnboundLabel`), where the buffer is poisoned (`Failed`), where its code gets too long for an offset
/// (`LabelOutOfRange`), or for want of memory (`NoMemory`).
pub fn put_relative(
    sink: &mut MachBuffer,
    rows: &StorageRows,
    operand: &MemArg,
    trap_code: Option<TrapCode>,
) -> Result<(), EmitError>
    requires { relative_encodes rows.now ≡ true }
    ensures answer { OnOk result
        (sink.new
        ≡ with_parts sink.old (relative_parts (storage_form_of rows.now) trap_code operand.now)) }
    ensures only_memory { put_cause sink.old
        (parts_size (relative_parts (storage_form_of rows.now) trap_code operand.now)) ≡ None
        → rows_encode rows.now ≡ true → is_bound_operand (declared_in sink.old) operand.now ≡ true
        → IfErr result (λ e. e ≡ NoMemory) }
    ensures kept { Extends sink.old sink.new }
{
    match rows {
        StorageRows::OneRegister {
            register,
            ril: Some(opcode),
            ..
        } => put_trapping_row(sink, *opcode, *register, operand, trap_code),
        _ => Ok(()),
    }
}

// How many bytes a row has with an operand that is relative to it.
fn row_size(operand: &MemArg) -> u64
    ensures value { (opcode register : ℕ)
        → result ≡ parts_size (relative_part opcode register operand.now) }
    ensures few { result ≤ 6 }
{
    match operand {
        MemArg::Label { .. } | MemArg::Constant { .. } | MemArg::Symbol { .. } => 6,
        _ => 0,
    }
}

/// How many bytes the access has.
pub fn relative_size(rows: &StorageRows, operand: &MemArg) -> u64
    ensures value { (code : Option TrapKind)
        → result ≡ parts_size (relative_parts (storage_form_of rows.now) code operand.now) }
    ensures few { result ≤ 6 }
{
    match rows {
        StorageRows::OneRegister { ril: Some(_), .. } => row_size(operand),
        _ => 0,
    }
}
