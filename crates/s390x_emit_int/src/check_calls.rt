//! The causes of the steps of calls and of tail calls, found before anything is emitted.
ghost use Rattle.std.specs.Prelude.{◌≡◌, [], ◌∷◌};
ghost use Rattle.s390x_inst.specs.Emission.{Emission};
ghost use Rattle.s390x_typed_steps.specs.Calls.{behind_call, load_before, load_bodies, result_bodies, continuation_bodies, call_bodies, tail_bodies, wholes};
ghost use Rattle.s390x_typed_steps.specs.Causes.{declared_in};
ghost use Rattle.s390x_typed_steps.specs.Resolved.{resolved_instruction};
ghost use Rattle.s390x_typed_steps.specs.Tree.{Whole, leaves, empty};
ghost use Rattle.s390x_typed_steps.specs.Stack.{nominal_after};
ghost use Rattle.s390x_emit_int.specs.Sequence.{AllKeepNominal, Checks, ChecksTree};
ghost use Rattle.s390x_emit_int.specs.CodeSize.{IsCounted};

use crate::calls::{behind_call, call_cause, call_size, load_result, open_tail_call};
use crate::check::{CodeSize, add_bytes, check_leaf};
use crate::context::Context;
use s390x_base::{EmitError, Reg};
use s390x_buffer::MachBuffer;
use s390x_inst::{
    CallInfo, CallInstDest, CallRetPair, EmitState, Inst, MachInstEmitState, RetLocation,
    ReturnCallInfo, TryCallInfo,
};
use std::alloc::Global;

// The first cause of an instruction as one step, or what it adds.
fn check_step(
    context: Context,
    state: &EmitState,
    sink: &MachBuffer,
    t: CodeSize,
    inst: &Inst,
) -> Result<CodeSize, EmitError>
    requires { IsCounted t }
    ensures { Checks context.flags (declared_in sink.now) t context.depth state.now.nominal
        (nominal_after state.now.nominal inst.now)
        (Whole (resolved_instruction state.now inst.now) ∷ []) result }
{
    check_leaf(context.flags, state, sink, t, context.depth, inst)
}

// The first cause of instructions, each as a step, or what they add.
fn check_steps(
    context: Context,
    state: &EmitState,
    sink: &MachBuffer,
    t: CodeSize,
    insts: &[Inst],
) -> Result<CodeSize, EmitError>
    requires counted { IsCounted t }
    requires keep { AllKeepNominal insts.now }
    ensures { Checks context.flags (declared_in sink.now) t context.depth state.now.nominal
        state.now.nominal (wholes state.now insts.now) result }
{
    let mut sum = t;
    for inst in insts {
        sum = check_step(context, state, sink, sum, inst)?;
    }
    Ok(sum)
}

// The first cause of the load of a result that comes back on the stack; one whose type has no load is refused.
fn check_result(
    context: Context,
    state: &EmitState,
    sink: &MachBuffer,
    t: CodeSize,
    def: &CallRetPair,
) -> Result<CodeSize, EmitError>
    requires { IsCounted t }
    ensures { Checks context.flags (declared_in sink.now) t context.depth state.now.nominal
        state.now.nominal (load_before state.now def.now.vreg def.now.location []) result }
{
    let RetLocation::Stack(_, _) = def.location else {
        return Ok(t);
    };
    match load_result(def) {
        Some(load) => check_step(context, state, sink, t, &load),
        None => Err(EmitError::BadOperator),
    }
}

// The first cause of the loads of a call's results, or what they add.
fn check_results(
    context: Context,
    state: &EmitState,
    sink: &MachBuffer,
    t: CodeSize,
    defs: &[CallRetPair],
) -> Result<CodeSize, EmitError>
    requires { IsCounted t }
    ensures { Checks context.flags (declared_in sink.now) t context.depth state.now.nominal
        state.now.nominal (load_bodies state.now defs.now) result }
{
    let mut sum = t;
    for def in defs {
        sum = check_result(context, state, sink, sum, def)?;
    }
    Ok(sum)
}

// The first cause of the loads of a call's results, where it isn't patchable, or what they add.
fn check_loads(
    context: Context,
    behind: &EmitState,
    sink: &MachBuffer,
    t: CodeSize,
    info: &CallInfo,
) -> Result<CodeSize, EmitError>
    requires { IsCounted t }
    ensures { (state : Emission) → behind.now ≡ behind_call state info.now.callee_pop_size
        → Checks context.flags (declared_in sink.now) t context.depth behind.now.nominal
        behind.now.nominal (result_bodies state info.now) result }
{
    if info.patchable {
        Ok(t)
    } else {
        check_results(context, behind, sink, t, &info.defs)
    }
}

// The first cause of the jump to where a call with a try goes on, or what it adds.
fn check_continuation(
    context: Context,
    state: &EmitState,
    sink: &MachBuffer,
    t: CodeSize,
    info: &Option<TryCallInfo>,
) -> Result<CodeSize, EmitError>
    requires { IsCounted t }
    ensures { Checks context.flags (declared_in sink.now) t context.depth state.now.nominal
        state.now.nominal (continuation_bodies info.now) result }
{
    match info {
        Some(info) => {
            let jump = Inst::Jump {
                dest: info.continuation,
            };
            check_step(context, state, sink, t, &jump)
        }
        None => Ok(t),
    }
}

/// The first cause of a call, the loads of its results and the jump of its try, or what they add. An error is the
/// first cause of the call's code in this context and at this state.
pub fn check_call(
    context: Context,
    state: &EmitState,
    sink: &MachBuffer,
    t: CodeSize,
    link: Reg,
    info: &CallInfo,
) -> Result<CodeSize, EmitError>
    requires { IsCounted t }
    ensures { ChecksTree context.flags (declared_in sink.now) t context.depth state.now.nominal
        (leaves (call_bodies state.now link info.now) empty) result }
{
    if let Some(error) = call_cause(sink.block_count(), state, context.depth, &link, info) {
        return Err(error);
    }
    let called = add_bytes(t, call_size(&info.dest));
    let behind = behind_call(state, info.callee_pop_size);
    let loaded = check_loads(context, &behind, sink, called, info)?;
    check_continuation(context, &behind, sink, loaded, &info.try_call_info)
}

/// The first cause of what takes the frame down before a tail call and of its jump, or want of memory; or what they add.
pub fn check_tail_call(
    alloc: Global,
    context: Context,
    state: &EmitState,
    sink: &MachBuffer,
    t: CodeSize,
    info: &ReturnCallInfo<CallInstDest>,
) -> Result<CodeSize, EmitError>
    requires { IsCounted t }
    ensures { ChecksTree context.flags (declared_in sink.now) t context.depth state.now.nominal
        (leaves (tail_bodies state.now info.now.callee_pop_size info.now.dest) empty) result }
{
    let (insts, dest) = open_tail_call(
        alloc,
        state.frame_layout(),
        info.callee_pop_size,
        &info.dest,
    )?;
    let sum = check_steps(context, state, sink, t, &insts)?;
    Ok(add_bytes(sum, call_size(&dest)))
}
