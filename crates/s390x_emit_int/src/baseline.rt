//! Instructions by the rows that the machine has: where it lacks the one that is relative to an access, the operand's address is loaded first.
#![tactic(auto, using(s390x_buffer::proofs::Extending::extends_on, s390x_buffer::proofs::Extending::extends_same))]

ghost use Rattle.std.specs.Prelude.{◌≡◌, ℕ, cond, length, true, None, Some, OnOk, IfSome, MatchResult};
ghost use Rattle.std.specs.Option.{option_map};
ghost use Rattle.s390x_address.specs.Rows.{memory_instruction_of, may_encode};
ghost use Rattle.s390x_buffer.specs.Extends.{Extends};
ghost use Rattle.s390x_inst.specs.declared.state.IsaFlags.{IsaFlags};
ghost use Rattle.s390x_typed_steps.specs.Baseline.{body_for};
ghost use Rattle.s390x_base.specs.declared.error.EmitError.TheVariants.{BadOperator};
ghost use Rattle.s390x_typed_steps.specs.Causes.{first_emit_cause, declared_in, facility_cause, memory_cause_or, loaded_cause};
ghost use Rattle.s390x_typed_steps.specs.Memory.{memory, loaded_memory, accesses_relative};
ghost use Rattle.s390x_typed_steps.specs.Ranges.{InRange};
ghost use Rattle.s390x_typed_steps.specs.Resolved.{resolved_instruction};
ghost use Rattle.s390x_typed_steps.specs.Sizes.{body_size};
ghost use Rattle.s390x_typed_steps.specs.Tree.{Whole, Loaded, leaf, empty};
ghost use Rattle.s390x_emit_int.specs.Emission.{body_fragments};
ghost use Rattle.s390x_emit_int.specs.Fragments.{apply_all};
ghost use Rattle.s390x_emit_int.specs.Loaded.{loaded_for};
ghost use Rattle.s390x_emit_int.specs.Room.{HasRoom, MembersFit, OnlyOutOfMemory};
ghost use Rattle.s390x_emit_int.specs.Sequence.{EmitsOwn, ChecksTree};
ghost use Rattle.s390x_emit_int.specs.CodeSize.{IsCounted, Adds};

use crate::causes::{facility_cause, outer_cause};
use crate::check::{CodeSize, add, check_leaf};
use crate::instruction::{emit_access, emit_leaf};
use s390x_address::MemoryInst;
use s390x_base::{EmitError, MachLabel};
use s390x_buffer::MachBuffer;
use s390x_emit_rows::memory_rows;
use s390x_inst::{EmitState, Inst, IsaFlags};

// An access by its other rows, where it has one that is relative to the instruction and takes its operand.
fn find_other_rows(inst: &Inst) -> Option<MemoryInst>
    ensures row { option_map memory_instruction_of result
        ≡ cond (accesses_relative (memory inst.now)) (loaded_memory inst.now) None }
    ensures encodes { IfSome result (λ x. may_encode x ≡ true) }
{
    match memory_rows(inst) {
        Some(found) => found.with_loaded_address(),
        None => None,
    }
}

// An access by its other rows, where the machine lacks the one that is relative to the instruction.
fn find_loaded(flags: IsaFlags, inst: &Inst) -> Option<MemoryInst>
    ensures row { option_map memory_instruction_of result ≡ loaded_for flags inst.now }
    ensures encodes { IfSome result (λ x. may_encode x ≡ true) }
{
    if flags.no_relative_memory {
        find_other_rows(inst)
    } else {
        None
    }
}

// The load of its operand's address and the access, where no cause refuses it.
fn emit_loaded(
    flags: IsaFlags,
    sink: &mut MachBuffer,
    state: &EmitState,
    depth: u32,
    inst: &Inst,
    found: &MemoryInst,
) -> Result<(), EmitError>
    requires row { Some (memory_instruction_of found.now) ≡ loaded_memory inst.now }
    requires encodes { may_encode found.now ≡ true }
    ensures answer { let b = Loaded (resolved_instruction state.now inst.now) in
        OnOk result
        ((loaded_cause flags (declared_in sink.old) (length sink.old.labels)
        (resolved_instruction state.now inst.now) ≡ None)
        × (sink.new ≡ apply_all sink.old (body_fragments (length sink.old.labels) 0 b))) }
    ensures only_memory { (after : ℕ)
        → MembersFit sink.old after depth
        (body_size (Loaded (resolved_instruction state.now inst.now)))
        (loaded_cause flags (declared_in sink.old) (length sink.old.labels)
        (resolved_instruction state.now inst.now)) → OnlyOutOfMemory result }
    ensures range { OnOk result (InRange (resolved_instruction state.now inst.now)) }
    ensures kept { Extends sink.old sink.new }
{
    match outer_cause(flags, sink, state, depth, inst) {
        Some(error) => Err(error),
        None => emit_access(sink, state, found),
    }
}

// Emits an instruction on a machine that lacks the rows that are relative to an access.
fn emit_without_relative(
    flags: IsaFlags,
    sink: &mut MachBuffer,
    state: &EmitState,
    depth: u32,
    inst: &Inst,
    after: MachLabel,
) -> Result<(), EmitError>
    requires { HasRoom sink.old }
    ensures { EmitsOwn flags sink.old sink.new after.0 depth state.now.nominal
        (leaf (body_for flags (Whole (resolved_instruction state.now inst.now))) empty) result }
{
    match find_loaded(flags, inst) {
        Some(found) => emit_loaded(flags, sink, state, depth, inst, &found),
        None => emit_leaf(flags, sink, state, depth, inst, after),
    }
}

/// Emits an instruction that is neither a `Loop` nor a call, in a state of emission and inside so many loops, where no cause refuses it, by the rows that the
/// machine has; `after` is the label behind the innermost loop. An error may be another one than the first cause.
#[inline(always)]
pub fn emit_on_machine(
    flags: IsaFlags,
    sink: &mut MachBuffer,
    state: &EmitState,
    depth: u32,
    inst: &Inst,
    after: MachLabel,
) -> Result<(), EmitError>
    requires { HasRoom sink.old }
    ensures { EmitsOwn flags sink.old sink.new after.0 depth state.now.nominal
        (leaf (body_for flags (Whole (resolved_instruction state.now inst.now))) empty) result }
{
    if !flags.no_relative_memory {
        emit_leaf(flags, sink, state, depth, inst, after)
    } else {
        emit_without_relative(flags, sink, state, depth, inst, after)
    }
}

// The first cause of an access whose operand's address is loaded first.
fn access_cause(
    flags: IsaFlags,
    state: &EmitState,
    sink: &MachBuffer,
    inst: &Inst,
    found: &MemoryInst,
) -> Option<EmitError>
    requires { Some (memory_instruction_of found.now) ≡ loaded_memory inst.now }
    ensures { let i = resolved_instruction state.now inst.now in
        result
        ≡ first_emit_cause (facility_cause flags i)
        (memory_cause_or (declared_in sink.now) (loaded_memory i) (Some BadOperator)) }
{
    match facility_cause(flags, inst) {
        Some(error) => Some(error),
        None => found.cause(sink, state),
    }
}

// The first cause of an access whose operand's address is loaded first, or what it adds.
fn check_loaded(
    flags: IsaFlags,
    state: &EmitState,
    sink: &MachBuffer,
    t: CodeSize,
    inst: &Inst,
    found: &MemoryInst,
) -> Result<CodeSize, EmitError>
    requires row { Some (memory_instruction_of found.now) ≡ loaded_memory inst.now }
    requires counted { IsCounted t }
    ensures { let i = resolved_instruction state.now inst.now in
        let cause = loaded_cause flags (declared_in sink.now) t.labels i in
        MatchResult result (λ r. (cause ≡ None) × Adds t r 0 (body_size (Loaded i)))
        (λ e. cause ≡ Some e) }
{
    match access_cause(flags, state, sink, inst, found) {
        Some(error) => Err(error),
        None => add(t, 0, found.size(state)),
    }
}

/// The first cause of an instruction that is neither a `Loop` nor a call, by the rows that the machine has, or what it adds.
pub fn check_on_machine(
    flags: IsaFlags,
    state: &EmitState,
    sink: &MachBuffer,
    t: CodeSize,
    depth: u32,
    inst: &Inst,
) -> Result<CodeSize, EmitError>
    requires { IsCounted t }
    ensures { ChecksTree flags (declared_in sink.now) t depth state.now.nominal
        (leaf (body_for flags (Whole (resolved_instruction state.now inst.now))) empty) result }
{
    match find_loaded(flags, inst) {
        Some(found) => check_loaded(flags, state, sink, t, inst, &found),
        None => check_leaf(flags, state, sink, t, depth, inst),
    }
}
