//! Emitting one instruction, or bytes, into a buffer of the caller's.
#![tactic(auto, using(s390x_buffer::proofs::Extending::extends_on, s390x_buffer::proofs::Extending::extends_same))]

ghost use Rattle.std.specs.Prelude.{◌≡◌, ◌+◌, ◌-◌, ◌<◌, ◌≤◌, ◌⊎◌, length, Option, MatchResult, IsTrue, OnErr, OnOk, None, Some, true, false, nat_lt};
ghost use Rattle.s390x_base.specs.declared.error.EmitError.TheVariants.{NoMemory, LabelOutOfRange};
ghost use Rattle.s390x_buffer.specs.Extends.{Extends};
ghost use Rattle.s390x_base.specs.declared.error.EmitError.{EmitError};
ghost use Rattle.s390x_inst.specs.Emission.{Emission};
ghost use Rattle.s390x_buffer.specs.State.{BufferState, FailsWith, poisoned_buffer, put_cause, limit};
ghost use Rattle.s390x_typed_steps.specs.Causes.{first_emit_cause, unless, declared_in, tree_cause};
ghost use Rattle.s390x_typed_steps.specs.Sizes.{tree_size};
ghost use Rattle.s390x_emit_int.specs.CodeSize.{IsCounted};
ghost use Rattle.s390x_emit_int.specs.Members.{member_of};
ghost use Rattle.s390x_emit_int.specs.Emission.{own_fragments};
ghost use Rattle.s390x_emit_int.specs.Instruction.{emit_cause, is_short};
ghost use Rattle.s390x_emit_int.specs.Fragments.{Put, PutTrapping, apply, apply_all};
ghost use Rattle.s390x_emit_int.specs.Room.{HasRoom, TreeFits, OnlyOutOfMemory};
ghost use Rattle.s390x_inst.specs.declared.inst.Inst.TheVariants.{Vector};
ghost use Rattle.s390x_inst.specs.declared.state.IsaFlags.{IsaFlags};
ghost use Rattle.s390x_typed_steps.specs.Stack.{state_after};

use crate::check::{CodeSize, check_inst};
use crate::context::Context;
use crate::stack::advance;
use crate::tree::emit_inst;
use s390x_address::LIMIT;
use s390x_base::{CodeOffset, EmitError, MachLabel, TrapCode};
use s390x_buffer::MachBuffer;
use s390x_inst::{EmitInfo, EmitState, Inst, IsaFlags, VecInst};
use std::alloc::Global;

/// Appends bytes. Refused by `Failed` where the buffer is poisoned, and by `LabelOutOfRange` where the length would reach 2^31;
/// the buffer is poisoned then (cranelift-codegen, `emit.rs`, `put`).
pub fn put(sink: &mut MachBuffer, enc: &[u8]) -> Result<(), EmitError>
    ensures answer { MatchResult result
        (λ _. (put_cause sink.old (length enc.now) ≡ None)
        × (sink.new ≡ apply sink.old (Put enc.now)))
        (λ e. FailsWith (put_cause sink.old (length enc.now)) e
        × (sink.new ≡ poisoned_buffer sink.old)) }
    ensures kept { Extends sink.old sink.new }
{
    sink.put(enc)
}

// Why so many bytes can't be appended.
fn put_cause(sink: &MachBuffer, size: usize) -> Option<EmitError>
    ensures { result ≡ put_cause sink.now size }
{
    if sink.is_poisoned() {
        Some(EmitError::Failed)
    } else if size as u64 >= LIMIT - u64::from(sink.cur_offset()) {
        Some(EmitError::LabelOutOfRange)
    } else {
        None
    }
}

// Appends bytes and records a trap at the last of them, where there is room for them.
fn put_trapped(sink: &mut MachBuffer, enc: &[u8], trap_code: TrapCode) -> Result<(), EmitError>
    requires some { 0 < length enc.now }
    ensures answer { OnOk result
        (sink.new ≡ apply sink.old (PutTrapping enc.now (length enc.now - 1) trap_code)) }
    ensures only_memory { put_cause sink.old (length enc.now) ≡ None → OnlyOutOfMemory result }
    ensures kept { Extends sink.old sink.new }
{
    let last = enc.len() - 1;
    sink.put(&enc[..last])?;
    sink.add_trap(trap_code)?;
    sink.put(&enc[last..])
}

/// Appends bytes and records a trap at the last of them. Refused by `Failed` where the buffer is poisoned, and by `LabelOutOfRange`
/// where the length would reach 2^31; the buffer is poisoned then, and what stood in it still stands (cranelift-codegen, `emit.rs`, `put_with_trap`).
pub fn put_with_trap(
    sink: &mut MachBuffer,
    enc: &[u8],
    trap_code: TrapCode,
) -> Result<(), EmitError>
    requires { 0 < length enc.now }
    ensures answer { MatchResult result
        (λ _. (put_cause sink.old (length enc.now) ≡ None)
        × (sink.new ≡ apply sink.old (PutTrapping enc.now (length enc.now - 1) trap_code)))
        (λ e. ((e ≡ NoMemory) ⊎ (put_cause sink.old (length enc.now) ≡ Some e))
        × IsTrue sink.new.is_poisoned) }
    ensures kept { Extends sink.old sink.new }
{
    if let Some(error) = put_cause(sink, enc.len()) {
        sink.poison();
        return Err(error);
    }
    match put_trapped(sink, enc, trap_code) {
        Ok(()) => Ok(()),
        Err(error) => {
            sink.poison();
            Err(error)
        }
    }
}

// The first cause of an instruction, where so many labels and bytes were in use before it, the length last; or want of memory.
fn first_cause(
    alloc: Global,
    flags: IsaFlags,
    sink: &MachBuffer,
    state: &EmitState,
    used: CodeSize,
    inst: &Inst,
) -> Option<EmitError>
    requires { IsCounted used }
    ensures { let step = member_of flags state.now inst.now in
        let cause = first_emit_cause
        (tree_cause flags (declared_in sink.now) used.labels state.now.nominal 0 step)
        (unless (nat_lt (used.bytes + tree_size step) limit) LabelOutOfRange) in
        (result ≡ Some NoMemory) ⊎ (cause ≡ result) }
{
    let outside = Context {
        flags,
        depth: 0,
        after: MachLabel(0),
    };
    match check_inst(alloc, outside, state, sink, used, inst) {
        Ok(sum) if sum.bytes < LIMIT => None,
        Ok(_) => Some(EmitError::LabelOutOfRange),
        Err(cause) => Some(cause),
    }
}

// Appends an instruction, where no cause refuses it, and goes on behind it. It answers the length then.
fn emit_and_advance(
    alloc: Global,
    flags: IsaFlags,
    sink: &mut MachBuffer,
    state: &mut EmitState,
    inst: &Inst,
) -> Result<CodeOffset, EmitError>
    requires { HasRoom sink.old }
    ensures answer { MatchResult result
        (λ n.
        (sink.new
        ≡ apply_all sink.old
        (own_fragments (length sink.old.labels) 0 (member_of flags state.old inst.now)))
        × (state.new ≡ state_after state.old inst.now) × (n ≡ length sink.new.bytes)
        × (n < limit)) (λ _. state.new ≡ state.old) }
    ensures cause { OnOk result
        (tree_cause flags (declared_in sink.old) (length sink.old.labels) state.old.nominal 0
        (member_of flags state.old inst.now) ≡ None) }
    ensures only_memory { TreeFits flags sink.old 0 state.old.nominal 0
        (member_of flags state.old inst.now) → OnlyOutOfMemory result }
    ensures kept { Extends sink.old sink.new }
{
    let outside = Context {
        flags,
        depth: 0,
        after: MachLabel(0),
    };
    emit_inst(alloc, outside, sink, state, inst)?;
    advance(state, inst)?;
    Ok(sink.cur_offset())
}

// Appends an instruction to a buffer that isn't poisoned, or answers its first cause.
fn emit_in(
    alloc: Global,
    flags: IsaFlags,
    sink: &mut MachBuffer,
    state: &mut EmitState,
    inst: &Inst,
) -> Result<(), EmitError>
    requires { sink.old.is_poisoned ≡ false }
    ensures answer { let step = member_of flags state.old inst.now in
        let cause = emit_cause flags state.old.nominal sink.old step in
        MatchResult result
        (λ _. (cause ≡ None)
        × (sink.new ≡ apply_all sink.old (own_fragments (length sink.old.labels) 0 step))
        × (state.new ≡ state_after state.old inst.now))
        (λ e. ((e ≡ NoMemory) ⊎ (cause ≡ Some e)) × (state.new ≡ state.old)) }
    ensures kept { Extends sink.old sink.new }
{
    let used = CodeSize {
        labels: sink.label_count(),
        bytes: u64::from(sink.cur_offset()),
    };
    match emit_and_advance(alloc, flags, sink, state, inst) {
        Ok(_) => Ok(()),
        Err(error) => Err(first_cause(alloc, flags, sink, state, used, inst).unwrap_or(error)),
    }
}

/// What writes itself into a buffer.
pub trait MachInstEmit {
    /// Why it isn't emitted into a buffer, in a state of emission, by a machine with these facilities.
    ghost cause_of: { IsaFlags → Emission → BufferState → Self → Option EmitError };

    /// The buffer behind it, on a machine with these facilities.
    ghost buffer_behind: { IsaFlags → Emission → BufferState → Self → BufferState };

    /// The state behind it.
    ghost state_behind: { Emission → Self → Emission };

    /// Appends itself to the buffer, with its traps, relocations, labels and the places of its steps but the first. What stood in the buffer
    /// before still stands there. A refused call poisons the buffer, and leaves the state as it was.
    fn emit(
        &self,
        alloc: Global,
        sink: &mut MachBuffer,
        emit_info: &EmitInfo,
        state: &mut EmitState,
    ) -> Result<(), EmitError>
        ensures answer { let cause = cause_of emit_info.now.isa_flags state.old sink.old self.now in
            MatchResult result
            (λ _. (cause ≡ None)
            × (sink.new ≡ buffer_behind emit_info.now.isa_flags state.old sink.old self.now)
            × (state.new ≡ state_behind state.old self.now))
            (λ e. ((e ≡ NoMemory) ⊎ (cause ≡ Some e)) × IsTrue sink.new.is_poisoned
            × (state.new ≡ state.old)) }
        ensures refused { OnErr result (IsTrue sink.new.is_poisoned × (state.new ≡ state.old)) }
        ensures kept { Extends sink.old sink.new };
}

impl MachInstEmit for Inst {
    ghost cause_of = { λ flags state sink inst. emit_cause flags state.nominal sink (member_of flags state inst) };

    ghost buffer_behind = { λ flags state sink inst. apply_all sink (own_fragments (length sink.labels) 0 (member_of flags state inst)) };

    ghost state_behind = { λ state inst. record (state_after state inst) { stack_map = None } };

    /// Appends the instruction. The state's stack map is dropped, and a call has recorded it; `AllocateArgs` has added its size to the nominal one, and a call
    /// has taken off what its callee pops. A call that isn't patchable, also one in a `Loop`, leaves no outgoing size; all else of the state stays.
    /// A `Jump` and a `CondBr` record their branches, which `end_block` of the buffer may fold.
    ///
    /// Refused by `Failed` where the buffer is poisoned, then by the first cause of its steps, where the buffer tells the blocks, the
    /// constants and the labels, and last by `LabelOutOfRange` where the length would reach 2^31. A refused call poisons the buffer and leaves what stood in
    /// it, and the state as it was (cranelift-codegen, `emit.rs`).
    fn emit(
        &self,
        alloc: Global,
        sink: &mut MachBuffer,
        emit_info: &EmitInfo,
        state: &mut EmitState,
    ) -> Result<(), EmitError>
        ensures answer { let step = member_of emit_info.now.isa_flags state.old self.now in
            let cause = emit_cause emit_info.now.isa_flags state.old.nominal sink.old step in
            MatchResult result
            (λ _. (cause ≡ None)
            × (sink.new ≡ apply_all sink.old (own_fragments (length sink.old.labels) 0 step))
            × (state.new ≡ record (state_after state.old self.now) { stack_map = None }))
            (λ e. ((e ≡ NoMemory) ⊎ (cause ≡ Some e)) × IsTrue sink.new.is_poisoned
            × (state.new ≡ state.old)) }
        ensures refused { OnErr result (IsTrue sink.new.is_poisoned × (state.new ≡ state.old)) }
        ensures few { is_short self.now ≡ true
            → OnOk result (length sink.new.bytes ≤ length sink.old.bytes + 44) }
        ensures kept { Extends sink.old sink.new }
    {
        if sink.is_poisoned() {
            sink.poison();
            return Err(EmitError::Failed);
        }
        match emit_in(alloc, emit_info.isa_flags, sink, state, self) {
            Ok(()) => Ok(()),
            Err(error) => {
                sink.poison();
                Err(error)
            }
        }
    }
}

/// Appends a vector or floating-point instruction as `Inst::emit` does, and leaves the state whole, its stack map too.
///
/// Refused by the same causes, with the buffer poisoned then.
pub fn emit_vector(
    alloc: Global,
    inst: &VecInst,
    sink: &mut MachBuffer,
    emit_info: &EmitInfo,
    state: &EmitState,
) -> Result<(), EmitError>
    ensures answer { let step = member_of emit_info.now.isa_flags state.now (Vector inst.now) in
        let cause = emit_cause emit_info.now.isa_flags state.now.nominal sink.old step in
        MatchResult result
        (λ _. (cause ≡ None)
        × (sink.new ≡ apply_all sink.old (own_fragments (length sink.old.labels) 0 step)))
        (λ e. ((e ≡ NoMemory) ⊎ (cause ≡ Some e)) × IsTrue sink.new.is_poisoned) }
    ensures refused { OnErr result (IsTrue sink.new.is_poisoned) }
    ensures kept { Extends sink.old sink.new }
{
    let mut behind = *state;
    Inst::Vector(*inst).emit(alloc, sink, emit_info, &mut behind)
}
