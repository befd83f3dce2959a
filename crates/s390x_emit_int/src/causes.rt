//! Why an instruction is refused.
ghost use Rattle.std.specs.Prelude.{◌≡◌, ◌≤◌, ◌&&◌, length, not, None, Some};
ghost use Rattle.s390x_base.specs.declared.error.EmitError.TheVariants.{BadOperator, BadRegister, UnboundLabel};
ghost use Rattle.s390x_typed_steps.specs.Causes.{first_emit_cause, unless, declared_in, target_label_cause, labels_cause, cause_or, memory_cause_or, branch_cause, facility_cause, instruction_cause, instruction_fresh_labels, numbers_cause, stack_cause, table_cause};
ghost use Rattle.s390x_typed_steps.specs.Memory.{memory};
ghost use Rattle.s390x_typed_steps.specs.Resolved.{resolved_instruction};
ghost use Rattle.s390x_typed_steps.specs.SingleCode.{code_where};
ghost use Rattle.s390x_typed_steps.specs.SingleInstruction.{SingleInstruction, single_instruction};
ghost use Rattle.s390x_typed_steps.specs.General.{is_general, is_nonzero, is_scratch};

use crate::check::fresh_labels;
use crate::composite::composite_cause;
use crate::stack::stack_cause;
use s390x_address::general;
use s390x_base::{Code, EmitError, MachLabel, Reg, RegClass};
use s390x_buffer::MachBuffer;
use s390x_emit_rows::{encode_single, memory_rows};
use s390x_inst::{EmitState, Inst, InstructionSet, IsaFlags};

/// Whether the register is a real Int one other than `%r0`: one that a branch may go by.
pub fn branchable(r: Reg) -> bool
    ensures { result ≡ is_general r && is_nonzero r }
{
    match r.to_real_reg() {
        Some(preg) => preg.class() == RegClass::Int && preg.hw_enc() < 16 && preg.hw_enc() != 0,
        None => false,
    }
}

// Whether the register is `%r1`, which emission uses for itself.
fn is_scratch(r: Reg) -> bool
    ensures { result ≡ is_scratch r }
{
    match r.to_real_reg() {
        Some(preg) => preg.hw_enc() == 1,
        None => false,
    }
}

/// None where a test holds, else this error.
pub fn cause_unless(holds: bool, error: EmitError) -> Option<EmitError>
    ensures { result ≡ unless holds error }
{
    if holds { None } else { Some(error) }
}

/// Why a label names no block.
pub fn label_cause(blocks: u32, label: MachLabel) -> Option<EmitError>
    ensures { result ≡ target_label_cause blocks label }
{
    cause_unless(label.0 < blocks, EmitError::UnboundLabel)
}

fn labels_cause(blocks: u32, labels: &[MachLabel]) -> Option<EmitError>
    ensures { result ≡ labels_cause blocks labels.now }
{
    for label in labels {
        let cause = label_cause(blocks, *label);
        if cause.is_some() {
            return cause;
        }
    }
    None
}

/// Why one of two labels names no block.
pub fn two_labels_cause(blocks: u32, taken: MachLabel, not_taken: MachLabel) -> Option<EmitError>
    ensures { result
        ≡ first_emit_cause (target_label_cause blocks taken) (target_label_cause blocks not_taken) }
{
    match label_cause(blocks, taken) {
        Some(error) => Some(error),
        None => label_cause(blocks, not_taken),
    }
}

fn address_cause(blocks: u32, dst: &Reg, label: MachLabel) -> Option<EmitError>
    ensures { result
        ≡ first_emit_cause (unless (is_general dst.now) BadRegister)
        (target_label_cause blocks label) }
{
    if general(dst) {
        label_cause(blocks, label)
    } else {
        Some(EmitError::BadRegister)
    }
}

fn indirect_cause(blocks: u32, rn: Reg, targets: &[MachLabel]) -> Option<EmitError>
    ensures { result
        ≡ first_emit_cause (unless (is_general rn && is_nonzero rn) BadRegister)
        (labels_cause blocks targets.now) }
{
    if branchable(rn) {
        labels_cause(blocks, targets)
    } else {
        Some(EmitError::BadRegister)
    }
}

fn table_cause(
    blocks: u32,
    index: &Reg,
    other: MachLabel,
    targets: &[MachLabel],
) -> Option<EmitError>
    ensures { result ≡ table_cause blocks index.now other targets.now }
{
    if !branchable(*index) {
        return Some(EmitError::BadRegister);
    }
    if is_scratch(*index) {
        return Some(EmitError::ScratchConflict);
    }
    match label_cause(blocks, other) {
        Some(error) => Some(error),
        None => labels_cause(blocks, targets),
    }
}

/// The first cause of an instruction that names a place, goes elsewhere or ends the run.
pub fn branch_cause(blocks: u32, depth: u32, inst: &Inst) -> Option<EmitError>
    ensures { result ≡ branch_cause blocks depth inst.now }
{
    match inst {
        Inst::Jump { dest } => label_cause(blocks, *dest),
        Inst::CondBr {
            taken,
            not_taken,
            ..
        } => two_labels_cause(blocks, *taken, *not_taken),
        Inst::IndirectBr { rn, targets } => indirect_cause(blocks, *rn, targets),
        Inst::Ret { link } => cause_unless(branchable(*link), EmitError::BadRegister),
        Inst::JTSequence {
            ridx,
            default,
            targets,
            ..
        } => table_cause(blocks, ridx, *default, targets),
        Inst::CondBreak { .. } => cause_unless(0 < depth, EmitError::BreakOutsideLoop),
        Inst::Nop0
        | Inst::Trap { .. }
        | Inst::TrapIf { .. }
        | Inst::Debugtrap
        | Inst::Args { .. }
        | Inst::Rets { .. }
        | Inst::DummyUse { .. }
        | Inst::SequencePoint => None,
        Inst::LabelAddress { dst, label } => address_cause(blocks, &dst.to_reg(), *label),
        Inst::LoadSymbolReloc { rd, .. } => {
            cause_unless(general(&rd.to_reg()), EmitError::BadRegister)
        }
        Inst::Vector(inst) => composite_cause(inst),
        _ => Some(EmitError::BadOperator),
    }
}

// The first cause of an instruction that isn't one machine instruction.
fn memory_cause(state: &EmitState, sink: &MachBuffer, depth: u32, inst: &Inst) -> Option<EmitError>
    ensures { result
        ≡ memory_cause_or (declared_in sink.now) (memory (resolved_instruction state.now inst.now))
        (branch_cause sink.now.block_count depth inst.now) }
{
    match memory_rows(inst) {
        Some(found) => found.cause(sink, state),
        None => branch_cause(sink.block_count(), depth, inst),
    }
}

/// Why one machine instruction is refused.
pub fn found_cause(found: Result<Code, EmitError>) -> Option<EmitError>
    ensures { (x : SingleInstruction) → found ≡ code_where x.operands_valid x.row
        → result ≡ unless x.operands_valid BadRegister }
{
    match found {
        Ok(_) => None,
        Err(error) => Some(error),
    }
}

// The first cause of an instruction whose facility is there.
fn other_cause(state: &EmitState, sink: &MachBuffer, depth: u32, inst: &Inst) -> Option<EmitError>
    ensures { result
        ≡ cause_or (single_instruction inst.now)
        (memory_cause_or (declared_in sink.now)
        (memory (resolved_instruction state.now inst.now))
        (branch_cause sink.now.block_count depth inst.now)) }
{
    match encode_single(inst) {
        Some(found) => found_cause(found),
        None => memory_cause(state, sink, depth, inst),
    }
}

// The first cause of an instruction behind the cause by the stack sizes.
fn later_cause(state: &EmitState, sink: &MachBuffer, depth: u32, inst: &Inst) -> Option<EmitError>
    ensures { result
        ≡ first_emit_cause (stack_cause state.now.nominal depth inst.now)
        (cause_or (single_instruction inst.now)
        (memory_cause_or (declared_in sink.now)
        (memory (resolved_instruction state.now inst.now))
        (branch_cause sink.now.block_count depth inst.now))) }
{
    match stack_cause(state, depth, inst) {
        Some(error) => Some(error),
        None => other_cause(state, sink, depth, inst),
    }
}

/// The machine, by its flags, lacks the facility that the instruction needs.
pub fn facility_cause(flags: IsaFlags, inst: &Inst) -> Option<EmitError>
    ensures { result ≡ facility_cause flags inst.now }
{
    match inst.available_in_isa() {
        InstructionSet::Base => None,
        set => cause_unless(flags.has(set), EmitError::MissingFacility),
    }
}

// Why the labels that an instruction draws have no numbers.
fn numbers_cause(sink: &MachBuffer, inst: &Inst) -> Option<EmitError>
    ensures { result ≡ numbers_cause (length sink.now.labels) (instruction_fresh_labels inst.now) }
{
    cause_unless(
        sink.label_count() + fresh_labels(inst) < 4294967297,
        EmitError::LabelOutOfRange,
    )
}

// A cause by the stack sizes or the labels.
fn stack_or_numbers_cause(
    sink: &MachBuffer,
    state: &EmitState,
    depth: u32,
    inst: &Inst,
) -> Option<EmitError>
    ensures { result
        ≡ first_emit_cause (stack_cause state.now.nominal depth inst.now)
        (numbers_cause (length sink.now.labels) (instruction_fresh_labels inst.now)) }
{
    match stack_cause(state, depth, inst) {
        Some(error) => Some(error),
        None => numbers_cause(sink, inst),
    }
}

/// A cause by the facilities, the stack sizes or the labels of an instruction that is no `Loop`.
pub fn outer_cause(
    flags: IsaFlags,
    sink: &MachBuffer,
    state: &EmitState,
    depth: u32,
    inst: &Inst,
) -> Option<EmitError>
    ensures { result
        ≡ first_emit_cause (facility_cause flags inst.now)
        (first_emit_cause (stack_cause state.now.nominal depth inst.now)
        (numbers_cause (length sink.now.labels) (instruction_fresh_labels inst.now))) }
{
    match facility_cause(flags, inst) {
        Some(error) => Some(error),
        None => stack_or_numbers_cause(sink, state, depth, inst),
    }
}

/// The first cause of an instruction that is no `Loop` in a state of emission, inside so many loops, where the machine has these facilities and
/// the buffer tells the blocks and the constants.
pub fn instruction_cause(
    flags: IsaFlags,
    state: &EmitState,
    sink: &MachBuffer,
    depth: u32,
    inst: &Inst,
) -> Option<EmitError>
    ensures { result
        ≡ instruction_cause flags (declared_in sink.now) state.now.nominal depth
        (resolved_instruction state.now inst.now) }
{
    match facility_cause(flags, inst) {
        Some(error) => Some(error),
        None => later_cause(state, sink, depth, inst),
    }
}
