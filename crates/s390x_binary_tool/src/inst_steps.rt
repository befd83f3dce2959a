//! Where the steps of instructions start.
ghost use Rattle.std.specs.Prelude.{◌≡◌, ◌+◌, cond, is_some, length, drop, None, IfOk};
ghost use Rattle.s390x_inst.specs.Frames.{epilogue};
ghost use Rattle.s390x_typed_steps.specs.Calls.{bodies};
ghost use Rattle.s390x_binary_tool.specs.InstSteps.{call_count, load_count, loads_count, steps_of, steps_of_all};

use s390x_base::CodeOffset;
use s390x_inst::{
    CallInfo, CallInstDest, CallRetPair, EmitState, FrameLayout, Inst, MachInstEmitState,
    RetLocation, ReturnCallInfo, gen_tail_epilogue,
};
use std::alloc::{AllocError, Global};

/// The starts of steps behind those of an instruction, of which a loop has those of its members too. An error comes for want of memory alone.
#[cycle(members)]
pub fn behind_inst<'a>(
    alloc: Global,
    state: &EmitState,
    inst: &Inst,
    starts: &'a [CodeOffset],
) -> Result<&'a [CodeOffset], AllocError>
    ensures { IfOk result (λ left. left.now ≡ drop (steps_of state.now inst.now) starts.now) }
{
    match inst {
        Inst::Loop { body, .. } => behind_loop(alloc, state, body, starts),
        _ => behind_leaf(alloc, state, inst, starts),
    }
}

// Behind a loop: its opening, its members, and its branch back.
#[cycle(members)]
#[tactic(auto, using(crate::proofs::Counting::loop_drops))]
fn behind_loop<'a>(
    alloc: Global,
    state: &EmitState,
    body: &[Inst],
    starts: &'a [CodeOffset],
) -> Result<&'a [CodeOffset], AllocError>
    ensures { IfOk result
        (λ left. left.now ≡ drop (2 + steps_of_all state.now body.now) starts.now) }
{
    behind_members(alloc, state, body, starts_behind(starts, 2))
}

// Behind several instructions.
#[cycle(members)]
fn behind_members<'a>(
    alloc: Global,
    state: &EmitState,
    insts: &[Inst],
    starts: &'a [CodeOffset],
) -> Result<&'a [CodeOffset], AllocError>
    ensures { IfOk result (λ left. left.now ≡ drop (steps_of_all state.now insts.now) starts.now) }
{
    let mut left = starts;
    for inst in insts {
        left = behind_inst(alloc, state, inst, left)?;
    }
    Ok(left)
}

// Behind an instruction that is no loop.
#[tactic(auto, using(crate::proofs::Counting::call_length, crate::proofs::Counting::tail_length))]
fn behind_leaf<'a>(
    alloc: Global,
    state: &EmitState,
    inst: &Inst,
    starts: &'a [CodeOffset],
) -> Result<&'a [CodeOffset], AllocError>
    ensures { IfOk result
        (λ left. left.now ≡ drop (length (bodies state.now inst.now)) starts.now) }
{
    match inst {
        Inst::Call { info, .. } => Ok(behind_call(info, starts)),
        Inst::ReturnCall { info } => behind_tail_call(alloc, state.frame_layout(), info, starts),
        _ => Ok(starts_behind(starts, 1)),
    }
}

// Behind a call, the loads of its results, and the jump of its try.
#[tactic(auto, using(crate::proofs::Counting::call_drops))]
fn behind_call<'a>(info: &CallInfo, starts: &'a [CodeOffset]) -> &'a [CodeOffset]
    ensures { result.now ≡ drop (call_count info.now) starts.now }
{
    let call = starts_behind(starts, 1);
    let loads = behind_results(info, call);
    behind_if(loads, info.try_call_info.is_some())
}

// Behind the loads of a call's results; one that may be patched loads none.
fn behind_results<'a>(info: &CallInfo, starts: &'a [CodeOffset]) -> &'a [CodeOffset]
    ensures { result.now
        ≡ drop (cond info.now.patchable 0 (loads_count info.now.defs.items)) starts.now }
{
    if info.patchable {
        starts
    } else {
        behind_loads(&info.defs, starts)
    }
}

// Behind the loads of these results.
fn behind_loads<'a>(defs: &[CallRetPair], starts: &'a [CodeOffset]) -> &'a [CodeOffset]
    ensures { result.now ≡ drop (loads_count defs.now) starts.now }
{
    let mut left = starts;
    for def in defs {
        left = behind_load(def.location, left);
    }
    left
}

// Behind the load of a result.
fn behind_load<'a>(location: RetLocation, starts: &'a [CodeOffset]) -> &'a [CodeOffset]
    ensures { result.now ≡ drop (load_count location) starts.now }
{
    match location {
        RetLocation::Stack(..) => starts_behind(starts, 1),
        RetLocation::Reg(..) => starts,
    }
}

// Behind a tail call: its opening, what takes the frame down, and its jump.
#[tactic(auto, using(crate::proofs::Counting::tail_drops))]
fn behind_tail_call<'a>(
    alloc: Global,
    layout: &FrameLayout,
    info: &ReturnCallInfo<CallInstDest>,
    starts: &'a [CodeOffset],
) -> Result<&'a [CodeOffset], AllocError>
    ensures { IfOk result
        (λ left. left.now
        ≡ drop (2 + length (epilogue layout.now info.now.callee_pop_size info.now.dest))
        starts.now) }
{
    let count = other_count(alloc, layout, info.callee_pop_size, &info.dest)?;
    let others = starts_behind(starts_behind(starts, 2), count);
    Ok(behind_if(others, layout.first_saved_gpr.is_some()))
}

// How many instructions take a frame down, but for the load of general registers.
fn other_count(
    alloc: Global,
    layout: &FrameLayout,
    popped: u32,
    dest: &CallInstDest,
) -> Result<usize, AllocError>
    ensures { IfOk result
        (λ n. n
        ≡ length (epilogue (record layout.now { first_saved_gpr = None }) popped dest.now)) }
{
    let mut other = *layout;
    other.first_saved_gpr = None;
    match gen_tail_epilogue(alloc, &other, popped, dest) {
        Ok((insts, _)) => Ok(insts.len()),
        Err(_) => Err(AllocError),
    }
}

// Behind one start where this holds.
fn behind_if(starts: &[CodeOffset], holds: bool) -> &[CodeOffset]
    ensures { result.now ≡ drop (cond holds 1 0) starts.now }
{
    if holds {
        starts_behind(starts, 1)
    } else {
        starts
    }
}

// Behind so many starts; none, where there are no more.
#[tactic(auto, using(crate::proofs::Counting::at_most))]
fn starts_behind(starts: &[CodeOffset], count: usize) -> &[CodeOffset]
    ensures { result.now ≡ drop count starts.now }
{
    &starts[count.min(starts.len())..]
}
