//! The stack sizes along the instructions of a block.
ghost use Rattle.std.specs.Prelude.{◌≡◌, ℕ, None, Some, MatchResult, nat_eq};
ghost use Rattle.s390x_base.specs.declared.error.EmitError.TheVariants.{BadStackState};
ghost use Rattle.s390x_typed_steps.specs.Causes.{stack_cause, unless};
ghost use Rattle.s390x_typed_steps.specs.Stack.{nominal_after, outgoing_after, state_after};
ghost use Rattle.s390x_typed_steps.specs.Calls.{safepoint};
ghost use Rattle.s390x_emit_int.specs.Stack.{outgoing_behind_all};

use crate::causes::cause_unless;
use s390x_base::EmitError;
use s390x_inst::{EmitState, Inst, MachInstEmitState};

/// Why an instruction can't stand at these stack sizes, inside so many loops: `AllocateArgs` needs the nominal size 0, and no loop around it.
pub fn stack_cause(state: &EmitState, depth: u32, inst: &Inst) -> Option<EmitError>
    ensures { result ≡ stack_cause state.now.nominal depth inst.now }
{
    match inst {
        Inst::AllocateArgs { .. } => cause_unless(
            state.nominal() == 0 && depth == 0,
            EmitError::BadStackState,
        ),
        _ => None,
    }
}

// The nominal size behind an instruction. Refused where it allocates arguments and some are allocated already.
fn nominal_after(nominal: u32, inst: &Inst) -> Result<u32, EmitError>
    ensures { MatchResult result (λ behind. behind ≡ nominal_after nominal inst.now)
        (λ e. (depth : ℕ) → stack_cause nominal depth inst.now ≡ Some e) }
{
    match inst {
        Inst::AllocateArgs { .. } if nominal != 0 => Err(EmitError::BadStackState),
        Inst::AllocateArgs { size } => Ok(*size),
        Inst::Call { info, .. } => Ok(nominal.saturating_sub(info.callee_pop_size)),
        _ => Ok(nominal),
    }
}

// The outgoing size behind an instruction: none behind a call that loads its results, also inside a `Loop`.
#[cycle(outgoing)]
fn outgoing_after(outgoing: u32, inst: &Inst) -> u32
    ensures { result ≡ outgoing_after outgoing inst.now }
{
    match inst {
        Inst::Call { info, .. } => { if info.patchable { outgoing } else { 0 } }
        Inst::Loop { body, .. } => outgoing_behind(outgoing, body),
        _ => outgoing,
    }
}

// The outgoing size behind the members of a loop.
#[cycle(outgoing)]
fn outgoing_behind(outgoing: u32, insts: &[Inst]) -> u32
    ensures { result ≡ outgoing_behind_all outgoing insts.now }
{
    let mut behind = outgoing;
    for inst in insts {
        behind = outgoing_after(behind, inst);
    }
    behind
}

// Goes on behind an instruction that may change the stack sizes.
fn advance_sizes(state: &mut EmitState, inst: &Inst) -> Result<(), EmitError>
    ensures { MatchResult result (λ _. state.new ≡ state_after state.old inst.now)
        (λ e. ((depth : ℕ) → stack_cause state.old.nominal depth inst.now ≡ Some e)
        × (state.new ≡ state.old)) }
{
    let nominal = nominal_after(state.nominal(), inst)?;
    let outgoing = outgoing_after(state.outgoing(), inst);
    state.set_nominal(nominal);
    state.set_outgoing(outgoing);
    state.clear_post_insn();
    Ok(())
}

/// Goes on behind an instruction: by the stack sizes, and without a stack map. Refused where it allocates arguments and some are allocated already; the
/// state stays then.
#[inline(always)]
pub fn advance(state: &mut EmitState, inst: &Inst) -> Result<(), EmitError>
    ensures { MatchResult result (λ _. state.new ≡ state_after state.old inst.now)
        (λ e. ((depth : ℕ) → stack_cause state.old.nominal depth inst.now ≡ Some e)
        × (state.new ≡ state.old)) }
{
    match inst {
        Inst::AllocateArgs { .. } | Inst::Call { .. } | Inst::Loop { .. } => {
            advance_sizes(state, inst)
        }
        _ => {
            state.clear_post_insn();
            Ok(())
        }
    }
}

/// A call of a block is a safepoint: its stack map is the next one.
#[inline(always)]
pub fn mark_safepoint(state: &mut EmitState, inst: &Inst)
    ensures { state.new ≡ safepoint state.old inst.now }
{
    if let Inst::Call { info, .. } = inst {
        state.pre_safepoint(info.stack_map);
    }
}

/// Why a block can't end at these stack sizes.
pub fn end_cause(state: &EmitState) -> Option<EmitError>
    ensures { result ≡ unless (nat_eq state.now.nominal 0) BadStackState }
{
    cause_unless(state.nominal() == 0, EmitError::BadStackState)
}
