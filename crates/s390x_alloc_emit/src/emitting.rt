//! An instruction emitted with the registers that an allocator chose for its operands.
ghost use Rattle.std.specs.Prelude.{◌≢◌, IfErr, IfOk, MatchResult};
ghost use Rattle.s390x_base.specs.declared.error.EmitError.TheVariants.{BadRegister, ScratchConflict};
ghost use Rattle.s390x_buffer.specs.Extends.{Extends};
ghost use Rattle.s390x_alloc_emit.specs.AssignedEmission.{IsEmitted, IsEmittedForOutputs, IsNotEmitted, MayBeGiven};
ghost use Rattle.s390x_alloc_emit.specs.declared.emitting.AssignedError.TheVariants.{Emit};

use s390x_assign::{AssignError, assign};
use s390x_base::{EmitError, Reg};
use s390x_buffer::MachBuffer;
use s390x_emit_int::MachInstEmit;
use s390x_inst::{EmitInfo, EmitState, Inst};
use std::alloc::Global;
use thiserror::Error;

/// Why an instruction isn't emitted with its registers.
#[derive(Clone, Copy, PartialEq, Debug, Error)]
pub enum AssignedError {
    /// The instruction isn't given its registers.
    #[error("{0:?}")]
    Assign(AssignError),
    /// The instruction with its registers isn't emitted.
    #[error("{0:?}")]
    Emit(EmitError),
}

/// Appends the instruction with its k-th reported operand replaced by `registers[k]`: `assign`, and `Inst::emit` of what it gives.
///
/// Refused by `Assign` with what `assign` answers, and then the buffer and the state are as they were; or by `Emit` with what `Inst::emit` answers, which
/// poisons the buffer, leaves what stood in it, and the state as it was. Where the instruction is allocatable there (`s390x_alloc_laws`), and the registers meet
/// its constraints, and give no virtual operand `%r0`, `%r1` or `%r15`, it is refused neither by `Emit(BadRegister)` nor by `Emit(ScratchConflict)`, and what was
/// appended changes no register but those that its outputs got, the range of a `LoadMultiple64`, and `%r1` where that is reported (`s390x_alloc_laws`).
pub fn emit_assigned(
    alloc: Global,
    inst: &Inst,
    registers: &[Reg],
    sink: &mut MachBuffer,
    info: &EmitInfo,
    state: &mut EmitState,
) -> Result<(), AssignedError>
    ensures answer { MatchResult result
        (λ _. IsEmitted info.now.isa_flags state.old sink.old inst.now registers.now state.new
        sink.new)
        (λ error. IsNotEmitted info.now.isa_flags state.old sink.old inst.now registers.now
        state.new sink.new error) }
    ensures suffices { MayBeGiven info.now.isa_flags state.old sink.old inst.now registers.now
        → IfErr result (λ error. (error ≢ Emit BadRegister) × (error ≢ Emit ScratchConflict)) }
    ensures changes { MayBeGiven info.now.isa_flags state.old sink.old inst.now registers.now
        → IfOk result
        (λ _. IsEmittedForOutputs info.now.isa_flags state.old sink.old inst.now registers.now
        state.new sink.new) }
    ensures kept { Extends sink.old sink.new }
{
    let assigned = match assign(alloc, inst, registers) {
        Ok(assigned) => assigned,
        Err(error) => return Err(AssignedError::Assign(error)),
    };
    match assigned.emit(alloc, sink, info, state) {
        Ok(()) => Ok(()),
        Err(error) => Err(AssignedError::Emit(error)),
    }
}
