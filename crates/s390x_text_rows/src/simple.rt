//! The text of an instruction that is neither a loop nor a call.
ghost use Rattle.std.specs.Prelude.{string_bytes};
ghost use Rattle.s390x_text_rows.specs.Texts.{Prints};
ghost use Rattle.s390x_text_rows.specs.Simple.{other_text, register_text, simple_text};

use crate::arithmetic::{put_alu_three, put_arithmetic, put_pair_instruction};
use crate::compare::put_compare;
use crate::control::{
    put_conditional_branch, put_conditional_trap, put_control, put_symbol_address,
};
use crate::error::TextError;
use crate::memory::{put_address, put_load, put_storage_operator, put_store};
use crate::moves::put_move;
use crate::row::fixed1;
use crate::vector_memory::put_vector;
use s390x_inst::{EmitState, Inst};
use std::alloc::Global;

// Appends the text of an instruction that is none of the others.
fn put_other(
    alloc: Global,
    out: &mut String,
    state: &EmitState,
    inst: &Inst,
) -> Result<(), TextError>
    ensures { Prints result (string_bytes out.old) (string_bytes out.new)
        (other_text state.now inst.now) }
{
    match inst {
        Inst::Vector(vector) => put_vector(alloc, out, state, vector),
        _ => Err(TextError::NoRow),
    }
}

// Appends the text of an instruction without an operand in memory, or of another one.
#[inline(never)]
fn put_register(
    alloc: Global,
    out: &mut String,
    state: &EmitState,
    inst: &Inst,
) -> Result<(), TextError>
    ensures { Prints result (string_bytes out.old) (string_bytes out.new)
        (register_text state.now inst.now) }
{
    if let Some(answer) = put_arithmetic(out, inst) {
        return answer;
    }
    if let Some(answer) = put_pair_instruction(out, inst) {
        return answer;
    }
    if let Some(answer) = put_compare(out, inst) {
        return answer;
    }
    if let Some(answer) = put_move(out, inst) {
        return answer;
    }
    match put_control(out, inst) {
        Some(answer) => answer,
        None => put_other(alloc, out, state, inst),
    }
}

// Appends the text of an instruction that is neither a loop nor a call, by one group after the other. It stands apart from those
// that are printed at once, which need less room.
#[inline(never)]
fn put_general(
    alloc: Global,
    out: &mut String,
    has_relative: bool,
    state: &EmitState,
    inst: &Inst,
) -> Result<(), TextError>
    ensures { Prints result (string_bytes out.old) (string_bytes out.new)
        (simple_text has_relative state.now inst.now) }
{
    if let Some(answer) = put_load(alloc, out, has_relative, state, inst) {
        return answer;
    }
    if let Some(answer) = put_store(alloc, out, has_relative, state, inst) {
        return answer;
    }
    match put_storage_operator(alloc, out, has_relative, state, inst) {
        Some(answer) => answer,
        None => put_register(alloc, out, state, inst),
    }
}

/// Appends the text of an instruction that is neither a loop nor a call, on a machine that has accesses relative to the instruction or lacks them; `NoRow`
/// for a loop or a call.
pub fn put_simple(
    alloc: Global,
    out: &mut String,
    has_relative: bool,
    state: &EmitState,
    inst: &Inst,
) -> Result<(), TextError>
    ensures { Prints result (string_bytes out.old) (string_bytes out.new)
        (simple_text has_relative state.now inst.now) }
{
    // Frequent instructions are printed at once, though their arms stand in their groups too: else each would be asked for by group after group,
    // and put into an answer that may be none.
    match inst {
        Inst::Vector(vector) => put_vector(alloc, out, state, vector),
        Inst::AluRRR { alu_op, rd, rn, rm } => put_alu_three(out, *alu_op, rd, rn, rm),
        Inst::LoadAddr { rd, mem } => put_address(alloc, out, has_relative, state, rd, mem),
        Inst::Jump { dest } => fixed1(out, "jg", dest),
        Inst::CondBr {
            taken,
            not_taken,
            cond,
        } => put_conditional_branch(out, *cond, *taken, *not_taken),
        Inst::TrapIf { cond, trap_code } => put_conditional_trap(out, *cond, *trap_code),
        Inst::LoadSymbolReloc { rd, symbol_reloc } => put_symbol_address(out, rd, symbol_reloc),
        Inst::AluRRSImm16 { .. }
        | Inst::AluRR { .. }
        | Inst::AluRSImm16 { .. }
        | Inst::AluRSImm32 { .. }
        | Inst::AluRUImm32 { .. }
        | Inst::AluRUImm16Shifted { .. }
        | Inst::AluRUImm32Shifted { .. }
        | Inst::UnaryRR { .. }
        | Inst::ShiftRR { .. }
        | Inst::RxSBG { .. }
        | Inst::RxSBGTest { .. } => match put_arithmetic(out, inst) {
            Some(answer) => answer,
            None => Err(TextError::NoRow),
        },
        Inst::Fence
        | Inst::Nop0
        | Inst::Nop2
        | Inst::Debugtrap
        | Inst::Trap { .. }
        | Inst::IndirectBr { .. }
        | Inst::Ret { .. }
        | Inst::JTSequence { .. }
        | Inst::CondBreak { .. }
        | Inst::AllocateArgs { .. }
        | Inst::LabelAddress { .. }
        | Inst::Args { .. }
        | Inst::Rets { .. }
        | Inst::DummyUse { .. }
        | Inst::SequencePoint => match put_control(out, inst) {
            Some(answer) => answer,
            None => Err(TextError::NoRow),
        },
        _ => put_general(alloc, out, has_relative, state, inst),
    }
}
