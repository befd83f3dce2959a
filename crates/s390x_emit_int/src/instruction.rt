//! Emitting one instruction that is no `Loop`.
#![tactic(auto, using(s390x_buffer::proofs::Extending::extends_on, s390x_buffer::proofs::Extending::extends_same))]

ghost use Rattle.std.specs.Prelude.{◌≡◌, ℕ, ◌<◌, ◌&&◌, [], ◌∷◌, Some, None, true, length, OnOk, IfSome};
ghost use Rattle.std.specs.Option.{option_map};
ghost use Rattle.s390x_base.specs.Regs.{number_of};
ghost use Rattle.s390x_buffer.specs.Extends.{Extends};
ghost use Rattle.s390x_buffer.specs.State.{put_cause};
ghost use Rattle.s390x_rows.specs.declared.opcodes.TheConstants as opcodes;
ghost use Rattle.s390x_typed_steps.specs.MachineInstruction.{MachineInstruction, format_e, rr, ril_c, bytes_of, size_of};
ghost use Rattle.s390x_typed_steps.specs.Parts.{Row, Trapping, ToBlock, Relative, row_part, stopping, memory_parts, parts_size};
ghost use Rattle.s390x_inst.specs.Emission.{Emission};
ghost use Rattle.s390x_inst.specs.declared.state.IsaFlags.{IsaFlags};
ghost use Rattle.s390x_typed_steps.specs.Causes.{first_emit_cause, declared_in, target_label_cause, branch_cause, cause_or, memory_cause, memory_cause_or, numbers_cause, instruction_fresh_labels, leaf_cause};
ghost use Rattle.s390x_typed_steps.specs.Folding.{branches_of};
ghost use Rattle.s390x_typed_steps.specs.Memory.{memory};
ghost use Rattle.s390x_typed_steps.specs.General.{is_general, is_nonzero};
ghost use Rattle.s390x_typed_steps.specs.Sizes.{instruction_size};
ghost use Rattle.s390x_emit_int.specs.Fragments.{Put, PutTrapping, apply, apply_all, Link};
ghost use Rattle.s390x_emit_int.specs.Emission.{branch, jump_fragments, where_fragments, choice_fragments, part_fragments, branch_fragments, branch_size, leaf_fragments};
ghost use Rattle.s390x_emit_int.specs.Doubleword.{instruction_of};
ghost use Rattle.s390x_emit_int.specs.Plain.{IsRegister};
ghost use Rattle.s390x_emit_int.specs.Room.{FitsWithoutCause, MembersFit, OnlyOutOfMemory, HasRoom};
ghost use Rattle.s390x_buffer.specs.declared.label_use.LabelUse.TheVariants.{BranchRIL};
ghost use Rattle.s390x_typed_steps.specs.Ranges.{InRange, MaskInRange, OperandInRange, IsConditionMask};
ghost use Rattle.s390x_typed_steps.specs.SingleCode.{code_where, single_code};
ghost use Rattle.s390x_typed_steps.specs.SingleInstruction.{SingleInstruction, single_instruction};
ghost use Rattle.s390x_typed_steps.specs.Operands.{resolved_operand};
ghost use Rattle.s390x_typed_steps.specs.Resolved.{resolved_instruction};
ghost use Rattle.s390x_address.specs.Rows.{memory_instruction_of, in_state, may_encode};

use crate::causes::{branch_cause, label_cause, outer_cause, two_labels_cause};
use crate::composite::emit_composite;
use crate::doubleword::{Doubleword, far_code, near_code, put_far, put_near};
use crate::fast_path::{FastPath, fast_path_of};
use crate::symbol::emit_symbol_load;
use crate::table::emit_table;
use s390x_address::MemoryInst;
use s390x_base::{Code, Cond, EmitError, MachLabel, Reg, TrapCode, gpr};
use s390x_buffer::{LabelUse, MachBuffer};
use s390x_emit_rows::{
    encode_rrr, encode_single, memory_of_load, memory_of_store, memory_rows, stop_code,
};
use s390x_emit_vec::{encode_vector, vector_memory_rows};
use s390x_enc::{enc_e, enc_ril_b, enc_ril_c, enc_rr};
use s390x_inst::{EmitState, Inst, IsaFlags, Load, LoadOp, MemArg, Store, StoreOp, VecInst};
use s390x_rows::opcodes;

// A code whose last four bytes are half of the distance to a label; the buffer's end fills it in.
fn put_with_distance(sink: &mut MachBuffer, code: &Code, label: MachLabel) -> Result<(), EmitError>
    ensures answer { OnOk result (sink.new ≡ apply sink.old (Link BranchRIL label.0 code.now)) }
    ensures only_memory { FitsWithoutCause sink.old label.0 6 None → length code.now ≡ 6
        → OnlyOutOfMemory result }
    ensures kept { Extends sink.old sink.new }
{
    let offset = sink.cur_offset();
    sink.use_label_at_offset(offset, label, LabelUse::BranchRIL)?;
    sink.put_code(code)
}

/// BRANCH RELATIVE ON CONDITION LONG to a label under a mask; the buffer's end fills the distance in. An error comes
/// where a register or a label may not stand there; where the buffer is poisoned (`Failed`); where its code gets too
/// long for an offset (`LabelOutOfRange`); or for want of memory (`NoMemory`).
pub fn put_branch(sink: &mut MachBuffer, mask: u8, label: MachLabel) -> Result<(), EmitError>
    requires { mask < 16 }
    ensures answer { OnOk result (sink.new ≡ apply sink.old (branch mask label.0)) }
    ensures only_memory { FitsWithoutCause sink.old label.0 6 None → OnlyOutOfMemory result }
    ensures kept { Extends sink.old sink.new }
{
    let code = enc_ril_c(opcodes::BRCL, mask, 0)?;
    put_with_distance(sink, &code, label)
}

// BRANCH RELATIVE ON CONDITION LONG to a label, always, recorded for the end of its block.
#[tactic(auto, using(s390x_buffer::proofs::Extending::extends_on, s390x_buffer::proofs::Extending::extends_same, s390x_buffer::proofs::Ended::use_behind))]
fn put_jump(sink: &mut MachBuffer, label: MachLabel) -> Result<(), EmitError>
    ensures answer { OnOk result (sink.new ≡ apply_all sink.old (jump_fragments label.0)) }
    ensures only_memory { FitsWithoutCause sink.old label.0 6 None → OnlyOutOfMemory result }
    ensures kept { Extends sink.old sink.new }
{
    let code = enc_ril_c(opcodes::BRCL, 15, 0)?;
    let offset = sink.cur_offset();
    sink.use_label_at_offset(offset, label, LabelUse::BranchRIL)?;
    sink.add_uncond_branch(offset, offset + 6, label)?;
    sink.put_code(&code)
}

// BRANCH RELATIVE ON CONDITION LONG to a label under a condition, recorded with the code under the inverse condition.
#[tactic(auto, using(s390x_buffer::proofs::Extending::extends_on, s390x_buffer::proofs::Extending::extends_same, s390x_buffer::proofs::Ended::use_behind))]
fn put_cond_jump(sink: &mut MachBuffer, cond: Cond, label: MachLabel) -> Result<(), EmitError>
    ensures answer { OnOk result (sink.new ≡ apply_all sink.old (where_fragments cond label.0)) }
    ensures only_memory { FitsWithoutCause sink.old label.0 6 None → OnlyOutOfMemory result }
    ensures range { IsConditionMask cond }
    ensures kept { Extends sink.old sink.new }
{
    let code = enc_ril_c(opcodes::BRCL, cond.bits(), 0)?;
    let inverted = enc_ril_c(opcodes::BRCL, cond.invert().bits(), 0)?;
    let offset = sink.cur_offset();
    sink.use_label_at_offset(offset, label, LabelUse::BranchRIL)?;
    sink.add_cond_branch(offset, offset + 6, label, &inverted)?;
    sink.put_code(&code)
}

/// BRANCH ON CONDITION to the address in a register, always. An error comes where a register or a label may not stand
/// there; where the buffer is poisoned (`Failed`); where its code gets too long for an offset (`LabelOutOfRange`); or
/// for want of memory (`NoMemory`).
pub fn emit_branch_register(sink: &mut MachBuffer, rn: Reg) -> Result<(), EmitError>
    ensures answer { OnOk result
        (sink.new ≡ apply_all sink.old
        (part_fragments (Row (rr opcodes.BCR 15 (number_of rn)) ∷ []))) }
    ensures only_memory { put_cause sink.old 2 ≡ None → (is_general rn && is_nonzero rn) ≡ true
        → OnlyOutOfMemory result }
    ensures kept { Extends sink.old sink.new }
{
    let code = enc_rr(opcodes::BCR, gpr(15), rn)?;
    sink.put_code(&code)
}

/// LOAD ADDRESS RELATIVE LONG of a label into a register; the buffer's end fills the distance in. An error comes
/// where a register or a label may not stand there; where the buffer is poisoned (`Failed`); where its code gets too
/// long for an offset (`LabelOutOfRange`); or for want of memory (`NoMemory`).
pub fn emit_address(sink: &mut MachBuffer, dst: Reg, label: MachLabel) -> Result<(), EmitError>
    ensures answer { OnOk result
        (sink.new
        ≡ apply_all sink.old
        (part_fragments (Relative opcodes.LARL (number_of dst) (ToBlock label.0) ∷ []))) }
    ensures only_memory { FitsWithoutCause sink.old label.0 6 None → is_general dst ≡ true
        → OnlyOutOfMemory result }
    ensures kept { Extends sink.old sink.new }
{
    let code = enc_ril_b(opcodes::LARL, dst, 0)?;
    put_with_distance(sink, &code, label)
}

// A code with a trap recorded at one of its bytes.
fn put_trapping(
    sink: &mut MachBuffer,
    code: &Code,
    byte: usize,
    trap_code: TrapCode,
) -> Result<(), EmitError>
    requires { byte < length code.now }
    ensures answer { OnOk result (sink.new ≡ apply sink.old (PutTrapping code.now byte trap_code)) }
    ensures only_memory { put_cause sink.old (length code.now) ≡ None → OnlyOutOfMemory result }
    ensures kept { Extends sink.old sink.new }
{
    let bytes = code.bytes();
    sink.put(&bytes[..byte])?;
    sink.add_trap(trap_code)?;
    sink.put(&bytes[byte..])
}

// Bytes that are no instruction, with a trap.
fn emit_trap(sink: &mut MachBuffer, trap_code: TrapCode) -> Result<(), EmitError>
    ensures answer { OnOk result
        (sink.new ≡ apply_all sink.old (part_fragments (stopping (format_e 0) trap_code ∷ []))) }
    ensures only_memory { put_cause sink.old 2 ≡ None → OnlyOutOfMemory result }
    ensures kept { Extends sink.old sink.new }
{
    let code = enc_e(0x0000)?;
    put_trapping(sink, &code, 1, trap_code)
}

// A branch under a condition to its own place plus 2, where no instruction stands and a trap is recorded.
fn emit_trap_if(sink: &mut MachBuffer, cond: Cond, trap_code: TrapCode) -> Result<(), EmitError>
    ensures answer { OnOk result
        (sink.new
        ≡ apply_all sink.old
        (part_fragments (Trapping (ril_c opcodes.BRCL cond 1) 3 trap_code ∷ []))) }
    ensures only_memory { put_cause sink.old 6 ≡ None → OnlyOutOfMemory result }
    ensures range { IsConditionMask cond }
    ensures kept { Extends sink.old sink.new }
{
    let code = enc_ril_c(opcodes::BRCL, cond.bits(), 2)?;
    put_trapping(sink, &code, 3, trap_code)
}

// Bytes that are no instruction, without a trap.
fn emit_debug_trap(sink: &mut MachBuffer) -> Result<(), EmitError>
    ensures answer { OnOk result
        (sink.new ≡ apply_all sink.old (part_fragments (Row (format_e 1) ∷ []))) }
    ensures only_memory { put_cause sink.old 2 ≡ None → OnlyOutOfMemory result }
    ensures kept { Extends sink.old sink.new }
{
    let code = enc_e(0x0001)?;
    sink.put_code(&code)
}

fn emit_two_branches(
    sink: &mut MachBuffer,
    taken: MachLabel,
    not_taken: MachLabel,
    cond: Cond,
) -> Result<(), EmitError>
    ensures answer { OnOk result
        (sink.new ≡ apply_all sink.old (choice_fragments cond taken.0 not_taken.0)) }
    ensures only_memory { FitsWithoutCause sink.old taken.0 12 None
        → not_taken.0 < length sink.old.labels → OnlyOutOfMemory result }
    ensures range { IsConditionMask cond }
    ensures kept { Extends sink.old sink.new }
{
    put_cond_jump(sink, cond, taken)?;
    put_jump(sink, not_taken)
}

// A branch that is always taken, where its label names a block.
fn emit_jump(sink: &mut MachBuffer, dest: MachLabel) -> Result<(), EmitError>
    ensures answer { OnOk result
        ((target_label_cause sink.old.block_count dest ≡ None)
        × (sink.new ≡ apply_all sink.old (jump_fragments dest.0))) }
    ensures only_memory { (after depth : ℕ)
        → MembersFit sink.old after depth 6 (target_label_cause sink.old.block_count dest)
        → OnlyOutOfMemory result }
    ensures kept { Extends sink.old sink.new }
{
    match label_cause(sink.block_count(), dest) {
        Some(error) => Err(error),
        None => put_jump(sink, dest),
    }
}

// A branch to one label under a condition, or else to the other, where both name blocks.
fn emit_cond_br(
    sink: &mut MachBuffer,
    taken: MachLabel,
    not_taken: MachLabel,
    cond: Cond,
) -> Result<(), EmitError>
    ensures answer { OnOk result
        ((first_emit_cause (target_label_cause sink.old.block_count taken)
        (target_label_cause sink.old.block_count not_taken) ≡ None)
        × (sink.new ≡ apply_all sink.old (choice_fragments cond taken.0 not_taken.0))) }
    ensures only_memory { (after depth : ℕ)
        → MembersFit sink.old after depth 12
        (first_emit_cause (target_label_cause sink.old.block_count taken)
        (target_label_cause sink.old.block_count not_taken)) → OnlyOutOfMemory result }
    ensures range { OnOk result (IsConditionMask cond) }
    ensures kept { Extends sink.old sink.new }
{
    match two_labels_cause(sink.block_count(), taken, not_taken) {
        Some(error) => Err(error),
        None => emit_two_branches(sink, taken, not_taken, cond),
    }
}

fn emit_break(sink: &mut MachBuffer, cond: Cond, after: MachLabel) -> Result<(), EmitError>
    ensures answer { OnOk result (sink.new ≡ apply sink.old (branch cond after.0)) }
    ensures only_memory { FitsWithoutCause sink.old after.0 6 None → OnlyOutOfMemory result }
    ensures range { IsConditionMask cond }
    ensures kept { Extends sink.old sink.new }
{
    put_branch(sink, cond.bits(), after)
}

// The code of a machine instruction; where its stop has a code, a trap is recorded at its last byte.
#[inline(always)]
fn emit_code(
    sink: &mut MachBuffer,
    code: &Code,
    trap_code: Option<TrapCode>,
) -> Result<(), EmitError>
    ensures answer { (m : MachineInstruction) → code.now ≡ bytes_of m
        → OnOk result (sink.new ≡ apply_all sink.old (part_fragments (row_part m trap_code ∷ []))) }
    ensures only_memory { put_cause sink.old (length code.now) ≡ None → OnlyOutOfMemory result }
    ensures kept { Extends sink.old sink.new }
{
    match trap_code {
        Some(trap_code) => put_trapping(sink, code, code.bytes().len() - 1, trap_code),
        None => sink.put_code(code),
    }
}

// One that isn't recorded for the end of its block, where its own cause doesn't refuse it.
fn emit_branch(sink: &mut MachBuffer, inst: &Inst, after: MachLabel) -> Result<(), EmitError>
    requires unrecorded { branches_of inst.now ≡ None }
    requires room { HasRoom sink.old }
    ensures answer { OnOk result
        (sink.new
        ≡ apply_all sink.old (branch_fragments (length sink.old.labels) after.0 inst.now)) }
    ensures only_memory { (depth : ℕ)
        → MembersFit sink.old after.0 depth (branch_size inst.now)
        (branch_cause sink.old.block_count depth inst.now)
        → numbers_cause (length sink.old.labels) (instruction_fresh_labels inst.now) ≡ None
        → OnlyOutOfMemory result }
    ensures range { OnOk result (MaskInRange inst.now) }
    ensures kept { Extends sink.old sink.new }
{
    match inst {
        Inst::IndirectBr { rn, .. } => emit_branch_register(sink, *rn),
        Inst::Ret { link } => emit_branch_register(sink, *link),
        Inst::JTSequence {
            ridx,
            default,
            default_cond,
            targets,
        } => emit_table(sink, *ridx, *default_cond, *default, targets),
        Inst::CondBreak { cond } => emit_break(sink, *cond, after),
        Inst::Nop0
        | Inst::Args { .. }
        | Inst::Rets { .. }
        | Inst::DummyUse { .. }
        | Inst::SequencePoint => Ok(()),
        Inst::LabelAddress { dst, label } => emit_address(sink, dst.to_reg(), *label),
        Inst::LoadSymbolReloc { rd, symbol_reloc } => {
            emit_symbol_load(sink, rd.to_reg(), symbol_reloc)
        }
        Inst::Trap { trap_code } => emit_trap(sink, *trap_code),
        Inst::TrapIf { cond, trap_code } => emit_trap_if(sink, *cond, *trap_code),
        Inst::Debugtrap => emit_debug_trap(sink),
        Inst::Vector(inst) => emit_composite(sink, inst),
        _ => Err(EmitError::BadOperator),
    }
}

// A displacement lies in its range by its type; another form has none, once it is resolved.
fn reveal_displacement_range(mem: &MemArg)
    ensures { (e : Emission) → OperandInRange (resolved_operand e mem.now) }
{
    match mem {
        MemArg::BXD12 { disp, .. } => {
            let _bits = disp.bits();
        }
        MemArg::BXD20 { disp, .. } => {
            let _value = disp.value();
        }
        MemArg::Label { .. }
        | MemArg::Constant { .. }
        | MemArg::Symbol { .. }
        | MemArg::RegOffset { .. }
        | MemArg::InitialSPOffset { .. }
        | MemArg::IncomingArgOffset { .. }
        | MemArg::OutgoingArgOffset { .. }
        | MemArg::SlotOffset { .. }
        | MemArg::SpillOffset { .. } => {}
    }
}

// A machine instruction, where its registers may stand there.
#[inline(always)]
fn emit_found(
    sink: &mut MachBuffer,
    found: Result<Code, EmitError>,
    trap_code: Option<TrapCode>,
) -> Result<(), EmitError>
    ensures answer { (x : SingleInstruction) → found ≡ code_where x.operands_valid x.row
        → OnOk result
        ((x.operands_valid ≡ true)
        × (sink.new ≡ apply_all sink.old (part_fragments (row_part x.row trap_code ∷ [])))) }
    ensures only_memory { (x : SingleInstruction) → found ≡ code_where x.operands_valid x.row
        → put_cause sink.old (size_of x.row) ≡ None → x.operands_valid ≡ true
        → OnlyOutOfMemory result }
    ensures kept { Extends sink.old sink.new }
{
    match found {
        Ok(code) => emit_code(sink, &code, trap_code),
        Err(error) => Err(error),
    }
}

/// Its helpers and its access, where no cause refuses it.
#[inline(always)]
pub fn emit_access(
    sink: &mut MachBuffer,
    state: &EmitState,
    found: &MemoryInst,
) -> Result<(), EmitError>
    requires { may_encode found.now ≡ true }
    ensures answer { OnOk result
        ((memory_cause (declared_in sink.old) (in_state state.now (memory_instruction_of found.now))
        ≡ None)
        × (sink.new
        ≡ apply_all sink.old
        (part_fragments
        (memory_parts (in_state state.now (memory_instruction_of found.now)))))) }
    ensures only_memory { put_cause sink.old
        (parts_size (memory_parts (in_state state.now (memory_instruction_of found.now)))) ≡ None
        → memory_cause (declared_in sink.old) (in_state state.now (memory_instruction_of found.now))
        ≡ None → OnlyOutOfMemory result }
    ensures range { OperandInRange (resolved_operand state.now found.now.operand) }
    ensures kept { Extends sink.old sink.new }
{
    reveal_displacement_range(&found.operand);
    found.emit_unless_refused(sink, state)
}

// An instruction that names a place, goes elsewhere or ends the run, where no cause refuses it; the branches that are met most often first.
#[inline(always)]
fn emit_control(
    sink: &mut MachBuffer,
    depth: u32,
    inst: &Inst,
    after: MachLabel,
) -> Result<(), EmitError>
    requires { HasRoom sink.old }
    ensures answer { OnOk result
        ((branch_cause sink.old.block_count depth inst.now ≡ None)
        × (sink.new
        ≡ apply_all sink.old
        (branch_fragments (length sink.old.labels) after.0 inst.now))) }
    ensures only_memory { MembersFit sink.old after.0 depth (branch_size inst.now)
        (branch_cause sink.old.block_count depth inst.now)
        → numbers_cause (length sink.old.labels) (instruction_fresh_labels inst.now) ≡ None
        → OnlyOutOfMemory result }
    ensures range { OnOk result (MaskInRange inst.now) }
    ensures kept { Extends sink.old sink.new }
{
    match inst {
        Inst::Jump { dest } => emit_jump(sink, *dest),
        Inst::CondBr {
            taken,
            not_taken,
            cond,
        } => emit_cond_br(sink, *taken, *not_taken, *cond),
        _ => match branch_cause(sink.block_count(), depth, inst) {
            Some(error) => Err(error),
            None => emit_branch(sink, inst, after),
        },
    }
}

// By these rows with an operand in memory, where there are any; else an instruction that names a place, goes elsewhere or ends the run. No cause of its own
// refuses it.
#[inline(always)]
fn emit_rows_or_control(
    sink: &mut MachBuffer,
    state: &EmitState,
    depth: u32,
    inst: &Inst,
    after: MachLabel,
    rows: Option<MemoryInst>,
) -> Result<(), EmitError>
    requires row { option_map memory_instruction_of rows ≡ memory inst.now }
    requires encodes { IfSome rows (λ x. may_encode x ≡ true) }
    requires single_instruction { None ≡ single_instruction inst.now }
    requires room { HasRoom sink.old }
    ensures answer { OnOk result
        ((memory_cause_or (declared_in sink.old) (memory (resolved_instruction state.now inst.now))
        (branch_cause sink.old.block_count depth inst.now) ≡ None)
        × (sink.new
        ≡ apply_all sink.old
        (leaf_fragments (length sink.old.labels) after.0
        (resolved_instruction state.now inst.now)))) }
    ensures only_memory { (flags : IsaFlags)
        → MembersFit sink.old after.0 depth
        (instruction_size (resolved_instruction state.now inst.now))
        (leaf_cause flags (declared_in sink.old) (length sink.old.labels) state.now.nominal
        depth (resolved_instruction state.now inst.now)) → OnlyOutOfMemory result }
    ensures range { OnOk result (InRange (resolved_instruction state.now inst.now)) }
    ensures kept { Extends sink.old sink.new }
{
    match rows {
        Some(found) => emit_access(sink, state, &found),
        None => emit_control(sink, depth, inst, after),
    }
}

// An instruction that isn't one machine instruction, where no cause of its own refuses it.
fn emit_memory_or_control(
    sink: &mut MachBuffer,
    state: &EmitState,
    depth: u32,
    inst: &Inst,
    after: MachLabel,
) -> Result<(), EmitError>
    requires single_instruction { None ≡ single_instruction inst.now }
    requires room { HasRoom sink.old }
    ensures answer { OnOk result
        ((memory_cause_or (declared_in sink.old) (memory (resolved_instruction state.now inst.now))
        (branch_cause sink.old.block_count depth inst.now) ≡ None)
        × (sink.new
        ≡ apply_all sink.old
        (leaf_fragments (length sink.old.labels) after.0
        (resolved_instruction state.now inst.now)))) }
    ensures only_memory { (flags : IsaFlags)
        → MembersFit sink.old after.0 depth
        (instruction_size (resolved_instruction state.now inst.now))
        (leaf_cause flags (declared_in sink.old) (length sink.old.labels) state.now.nominal
        depth (resolved_instruction state.now inst.now)) → OnlyOutOfMemory result }
    ensures range { OnOk result (InRange (resolved_instruction state.now inst.now)) }
    ensures kept { Extends sink.old sink.new }
{
    emit_rows_or_control(sink, state, depth, inst, after, memory_rows(inst))
}

// Emits a load of a general register: its rows go to its access with no copy of them between. That of a doubleword has an arm of its own, in which they are
// constants.
#[inline(never)]
fn emit_load(
    sink: &mut MachBuffer,
    state: &EmitState,
    depth: u32,
    inst: &Inst,
    after: MachLabel,
) -> Result<(), EmitError>
    requires single_instruction { None ≡ single_instruction inst.now }
    requires room { HasRoom sink.old }
    ensures answer { OnOk result
        ((memory_cause_or (declared_in sink.old) (memory (resolved_instruction state.now inst.now))
        (branch_cause sink.old.block_count depth inst.now) ≡ None)
        × (sink.new
        ≡ apply_all sink.old
        (leaf_fragments (length sink.old.labels) after.0
        (resolved_instruction state.now inst.now)))) }
    ensures only_memory { (flags : IsaFlags)
        → MembersFit sink.old after.0 depth
        (instruction_size (resolved_instruction state.now inst.now))
        (leaf_cause flags (declared_in sink.old) (length sink.old.labels) state.now.nominal
        depth (resolved_instruction state.now inst.now)) → OnlyOutOfMemory result }
    ensures range { OnOk result (InRange (resolved_instruction state.now inst.now)) }
    ensures kept { Extends sink.old sink.new }
{
    match inst {
        Inst::Load64 { rd, mem } => {
            let load = Load {
                op: LoadOp::Load64,
                rd: *rd,
                mem: *mem,
            };
            let found = memory_of_load(&load);
            emit_rows_or_control(sink, state, depth, inst, after, Some(found))
        }
        _ => match inst.as_load() {
            Some(load) => emit_access(sink, state, &memory_of_load(&load)),
            None => emit_memory_or_control(sink, state, depth, inst, after),
        },
    }
}

// Emits a store of a general register; that of a doubleword has an arm of its own.
#[inline(never)]
fn emit_store(
    sink: &mut MachBuffer,
    state: &EmitState,
    depth: u32,
    inst: &Inst,
    after: MachLabel,
) -> Result<(), EmitError>
    requires single_instruction { None ≡ single_instruction inst.now }
    requires room { HasRoom sink.old }
    ensures answer { OnOk result
        ((memory_cause_or (declared_in sink.old) (memory (resolved_instruction state.now inst.now))
        (branch_cause sink.old.block_count depth inst.now) ≡ None)
        × (sink.new
        ≡ apply_all sink.old
        (leaf_fragments (length sink.old.labels) after.0
        (resolved_instruction state.now inst.now)))) }
    ensures only_memory { (flags : IsaFlags)
        → MembersFit sink.old after.0 depth
        (instruction_size (resolved_instruction state.now inst.now))
        (leaf_cause flags (declared_in sink.old) (length sink.old.labels) state.now.nominal
        depth (resolved_instruction state.now inst.now)) → OnlyOutOfMemory result }
    ensures range { OnOk result (InRange (resolved_instruction state.now inst.now)) }
    ensures kept { Extends sink.old sink.new }
{
    match inst {
        Inst::Store64 { rd, mem } => {
            let store = Store {
                op: StoreOp::Store64,
                rd: *rd,
                mem: *mem,
            };
            let found = memory_of_store(&store);
            emit_rows_or_control(sink, state, depth, inst, after, Some(found))
        }
        _ => match inst.as_store() {
            Some(store) => emit_access(sink, state, &memory_of_store(&store)),
            None => emit_memory_or_control(sink, state, depth, inst, after),
        },
    }
}

// A load or a store of a doubleword behind the load of its offset, or one that is refused.
#[inline(never)]
fn emit_far_doubleword(
    sink: &mut MachBuffer,
    state: &EmitState,
    depth: u32,
    inst: &Inst,
    after: MachLabel,
    access: Doubleword,
) -> Result<(), EmitError>
    requires row { Some (instruction_of access) ≡ memory inst.now }
    requires single_instruction { None ≡ single_instruction inst.now }
    requires room { HasRoom sink.old }
    ensures answer { OnOk result
        ((memory_cause_or (declared_in sink.old) (memory (resolved_instruction state.now inst.now))
        (branch_cause sink.old.block_count depth inst.now) ≡ None)
        × (sink.new
        ≡ apply_all sink.old
        (leaf_fragments (length sink.old.labels) after.0
        (resolved_instruction state.now inst.now)))) }
    ensures only_memory { (flags : IsaFlags)
        → MembersFit sink.old after.0 depth
        (instruction_size (resolved_instruction state.now inst.now))
        (leaf_cause flags (declared_in sink.old) (length sink.old.labels) state.now.nominal
        depth (resolved_instruction state.now inst.now)) → OnlyOutOfMemory result }
    ensures range { OnOk result (InRange (resolved_instruction state.now inst.now)) }
    ensures kept { Extends sink.old sink.new }
{
    match far_code(&access) {
        Some(far) => put_far(sink, &access, &far),
        None => emit_memory_or_control(sink, state, depth, inst, after),
    }
}

// A load or a store of a doubleword at a register and an offset: by its code at once, where a displacement holds the offset.
#[inline(always)]
fn emit_doubleword(
    sink: &mut MachBuffer,
    state: &EmitState,
    depth: u32,
    inst: &Inst,
    after: MachLabel,
    access: Doubleword,
) -> Result<(), EmitError>
    requires row { Some (instruction_of access) ≡ memory inst.now }
    requires single_instruction { None ≡ single_instruction inst.now }
    requires room { HasRoom sink.old }
    ensures answer { OnOk result
        ((memory_cause_or (declared_in sink.old) (memory (resolved_instruction state.now inst.now))
        (branch_cause sink.old.block_count depth inst.now) ≡ None)
        × (sink.new
        ≡ apply_all sink.old
        (leaf_fragments (length sink.old.labels) after.0
        (resolved_instruction state.now inst.now)))) }
    ensures only_memory { (flags : IsaFlags)
        → MembersFit sink.old after.0 depth
        (instruction_size (resolved_instruction state.now inst.now))
        (leaf_cause flags (declared_in sink.old) (length sink.old.labels) state.now.nominal
        depth (resolved_instruction state.now inst.now)) → OnlyOutOfMemory result }
    ensures range { OnOk result (InRange (resolved_instruction state.now inst.now)) }
    ensures kept { Extends sink.old sink.new }
{
    match near_code(&access) {
        Some(code) => put_near(sink, &access, &code),
        None => emit_far_doubleword(sink, state, depth, inst, after, access),
    }
}

// Emits the load of a doubleword: at a register and an offset by its code at once, else as another load.
fn emit_load64(
    sink: &mut MachBuffer,
    state: &EmitState,
    depth: u32,
    inst: &Inst,
    after: MachLabel,
) -> Result<(), EmitError>
    requires single_instruction { None ≡ single_instruction inst.now }
    requires room { HasRoom sink.old }
    ensures answer { OnOk result
        ((memory_cause_or (declared_in sink.old) (memory (resolved_instruction state.now inst.now))
        (branch_cause sink.old.block_count depth inst.now) ≡ None)
        × (sink.new
        ≡ apply_all sink.old
        (leaf_fragments (length sink.old.labels) after.0
        (resolved_instruction state.now inst.now)))) }
    ensures only_memory { (flags : IsaFlags)
        → MembersFit sink.old after.0 depth
        (instruction_size (resolved_instruction state.now inst.now))
        (leaf_cause flags (declared_in sink.old) (length sink.old.labels) state.now.nominal
        depth (resolved_instruction state.now inst.now)) → OnlyOutOfMemory result }
    ensures range { OnOk result (InRange (resolved_instruction state.now inst.now)) }
    ensures kept { Extends sink.old sink.new }
{
    match inst {
        Inst::Load64 { rd, mem } => match mem {
            MemArg::RegOffset { reg, off, flags } => {
                let access = Doubleword {
                    stores: false,
                    register: rd.to_reg(),
                    base: *reg,
                    off: *off,
                    flags: *flags,
                };
                emit_doubleword(sink, state, depth, inst, after, access)
            }
            _ => emit_load(sink, state, depth, inst, after),
        },
        _ => emit_load(sink, state, depth, inst, after),
    }
}

// Emits the store of a doubleword: at a register and an offset by its code at once, else as another store.
fn emit_store64(
    sink: &mut MachBuffer,
    state: &EmitState,
    depth: u32,
    inst: &Inst,
    after: MachLabel,
) -> Result<(), EmitError>
    requires single_instruction { None ≡ single_instruction inst.now }
    requires room { HasRoom sink.old }
    ensures answer { OnOk result
        ((memory_cause_or (declared_in sink.old) (memory (resolved_instruction state.now inst.now))
        (branch_cause sink.old.block_count depth inst.now) ≡ None)
        × (sink.new
        ≡ apply_all sink.old
        (leaf_fragments (length sink.old.labels) after.0
        (resolved_instruction state.now inst.now)))) }
    ensures only_memory { (flags : IsaFlags)
        → MembersFit sink.old after.0 depth
        (instruction_size (resolved_instruction state.now inst.now))
        (leaf_cause flags (declared_in sink.old) (length sink.old.labels) state.now.nominal
        depth (resolved_instruction state.now inst.now)) → OnlyOutOfMemory result }
    ensures range { OnOk result (InRange (resolved_instruction state.now inst.now)) }
    ensures kept { Extends sink.old sink.new }
{
    match inst {
        Inst::Store64 { rd, mem } => match mem {
            MemArg::RegOffset { reg, off, flags } => {
                let access = Doubleword {
                    stores: true,
                    register: *rd,
                    base: *reg,
                    off: *off,
                    flags: *flags,
                };
                emit_doubleword(sink, state, depth, inst, after, access)
            }
            _ => emit_store(sink, state, depth, inst, after),
        },
        _ => emit_store(sink, state, depth, inst, after),
    }
}

// Emits a load or a store of a vector register as it stands, which is asked first. Each of the two has an arm of its own, in which its rows are found by its
// variant.
fn emit_whole(
    sink: &mut MachBuffer,
    state: &EmitState,
    depth: u32,
    inst: &Inst,
    after: MachLabel,
) -> Result<(), EmitError>
    requires single_instruction { None ≡ single_instruction inst.now }
    requires room { HasRoom sink.old }
    ensures answer { OnOk result
        ((memory_cause_or (declared_in sink.old) (memory (resolved_instruction state.now inst.now))
        (branch_cause sink.old.block_count depth inst.now) ≡ None)
        × (sink.new
        ≡ apply_all sink.old
        (leaf_fragments (length sink.old.labels) after.0
        (resolved_instruction state.now inst.now)))) }
    ensures only_memory { (flags : IsaFlags)
        → MembersFit sink.old after.0 depth
        (instruction_size (resolved_instruction state.now inst.now))
        (leaf_cause flags (declared_in sink.old) (length sink.old.labels) state.now.nominal
        depth (resolved_instruction state.now inst.now)) → OnlyOutOfMemory result }
    ensures range { OnOk result (InRange (resolved_instruction state.now inst.now)) }
    ensures kept { Extends sink.old sink.new }
{
    match inst {
        Inst::Vector(vector) => match vector {
            VecInst::VecLoad { .. } => {
                emit_rows_or_control(sink, state, depth, inst, after, vector_memory_rows(vector))
            }
            VecInst::VecStore { .. } => {
                emit_rows_or_control(sink, state, depth, inst, after, vector_memory_rows(vector))
            }
            _ => emit_memory_or_control(sink, state, depth, inst, after),
        },
        _ => emit_memory_or_control(sink, state, depth, inst, after),
    }
}

// An instruction whose facility is there, and which the stack sizes and the labels allow, where no cause of its own refuses it.
#[tactic(auto, using(s390x_buffer::proofs::Extending::extends_on, s390x_buffer::proofs::Extending::extends_same, crate::proofs::Single::no_single))]
fn emit_allowed(
    sink: &mut MachBuffer,
    state: &EmitState,
    depth: u32,
    inst: &Inst,
    after: MachLabel,
) -> Result<(), EmitError>
    requires { HasRoom sink.old }
    ensures answer { OnOk result
        ((cause_or (single_instruction inst.now)
        (memory_cause_or (declared_in sink.old)
        (memory (resolved_instruction state.now inst.now))
        (branch_cause sink.old.block_count depth inst.now)) ≡ None)
        × (sink.new
        ≡ apply_all sink.old
        (leaf_fragments (length sink.old.labels) after.0
        (resolved_instruction state.now inst.now)))) }
    ensures only_memory { (flags : IsaFlags)
        → MembersFit sink.old after.0 depth
        (instruction_size (resolved_instruction state.now inst.now))
        (leaf_cause flags (declared_in sink.old) (length sink.old.labels) state.now.nominal
        depth (resolved_instruction state.now inst.now)) → OnlyOutOfMemory result }
    ensures range { OnOk result (InRange (resolved_instruction state.now inst.now)) }
    ensures kept { Extends sink.old sink.new }
{
    match encode_single(inst) {
        Some(found) => emit_found(sink, found, stop_code(inst)),
        None => emit_memory_or_control(sink, state, depth, inst, after),
    }
}

// The code of its row, with the variant that is met most often asked first.
#[inline(always)]
fn encode_register(inst: &Inst) -> Option<Result<Code, EmitError>>
    ensures { result ≡ single_code (single_instruction inst.now) }
{
    match inst {
        Inst::AluRRR { alu_op, rd, rn, rm } => encode_rrr(*alu_op, rd, rn, rm),
        Inst::Vector(inst) => encode_vector(inst),
        _ => encode_single(inst),
    }
}

// One machine instruction on registers that needs no facility, where no cause of its own refuses it.
#[inline(always)]
#[tactic(auto, using(s390x_buffer::proofs::Extending::extends_on, s390x_buffer::proofs::Extending::extends_same, crate::proofs::Single::no_single))]
fn emit_register(
    sink: &mut MachBuffer,
    depth: u32,
    inst: &Inst,
    after: MachLabel,
) -> Result<(), EmitError>
    requires register { IsRegister inst.now }
    requires numbers { numbers_cause (length sink.old.labels) 0 ≡ None }
    requires room { HasRoom sink.old }
    ensures answer { (flags : IsaFlags) → (e : Emission)
        → OnOk result
        ((leaf_cause flags (declared_in sink.old) (length sink.old.labels) e.nominal depth
        (resolved_instruction e inst.now) ≡ None)
        × (sink.new
        ≡ apply_all sink.old
        (leaf_fragments (length sink.old.labels) after.0
        (resolved_instruction e inst.now)))) }
    ensures only_memory { (flags : IsaFlags) → (e : Emission)
        → MembersFit sink.old after.0 depth (instruction_size (resolved_instruction e inst.now))
        (leaf_cause flags (declared_in sink.old) (length sink.old.labels) e.nominal depth
        (resolved_instruction e inst.now)) → OnlyOutOfMemory result }
    ensures range { (e : Emission) → OnOk result (InRange (resolved_instruction e inst.now)) }
    ensures kept { Extends sink.old sink.new }
{
    match encode_register(inst) {
        Some(found) => emit_found(sink, found, None),
        None => emit_control(sink, depth, inst, after),
    }
}

/// A buffer has no more labels than there are numbers.
pub fn reveal_label_range(sink: &MachBuffer)
    ensures { numbers_cause (length sink.now.labels) 0 ≡ None }
{
    let _count = sink.label_count();
}

/// Emits an instruction that is no `Loop`, by its own rows, in a state of emission and inside so many loops, where no cause refuses it; `after` is the
/// label behind the innermost loop. An error may be another one than the first cause. The machine has to have these rows: `emit_on_machine` asks.
#[inline(always)]
pub fn emit_leaf(
    flags: IsaFlags,
    sink: &mut MachBuffer,
    state: &EmitState,
    depth: u32,
    inst: &Inst,
    after: MachLabel,
) -> Result<(), EmitError>
    requires { HasRoom sink.old }
    ensures answer { OnOk result
        ((leaf_cause flags (declared_in sink.old) (length sink.old.labels) state.now.nominal depth
        (resolved_instruction state.now inst.now) ≡ None)
        × (sink.new
        ≡ apply_all sink.old
        (leaf_fragments (length sink.old.labels) after.0
        (resolved_instruction state.now inst.now)))) }
    ensures only_memory { MembersFit sink.old after.0 depth
        (instruction_size (resolved_instruction state.now inst.now))
        (leaf_cause flags (declared_in sink.old) (length sink.old.labels) state.now.nominal depth
        (resolved_instruction state.now inst.now)) → OnlyOutOfMemory result }
    ensures range { OnOk result (InRange (resolved_instruction state.now inst.now)) }
    ensures kept { Extends sink.old sink.new }
{
    reveal_label_range(sink);
    match fast_path_of(inst) {
        FastPath::Load64 => emit_load64(sink, state, depth, inst, after),
        FastPath::Store64 => emit_store64(sink, state, depth, inst, after),
        FastPath::Load => emit_load(sink, state, depth, inst, after),
        FastPath::Store => emit_store(sink, state, depth, inst, after),
        FastPath::Whole => emit_whole(sink, state, depth, inst, after),
        FastPath::Access => emit_memory_or_control(sink, state, depth, inst, after),
        FastPath::Branch => emit_control(sink, depth, inst, after),
        FastPath::Register => emit_register(sink, depth, inst, after),
        FastPath::Other => match outer_cause(flags, sink, state, depth, inst) {
            Some(error) => Err(error),
            None => emit_allowed(sink, state, depth, inst, after),
        },
    }
}
