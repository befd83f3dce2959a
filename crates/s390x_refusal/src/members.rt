//! The first cause among the members of a block or of a loop.
ghost use Rattle.std.specs.Prelude.{◌≡◌, ◌≤◌, IfOk};
ghost use Rattle.s390x_buffer.specs.State.{label_limit};
ghost use Rattle.s390x_typed_steps.specs.Causes.{declared_in};
ghost use Rattle.s390x_refusal.specs.Members.{with_safepoint};
ghost use Rattle.s390x_refusal.specs.Search.{IsChecked, IsFirstMember, IsPathAmong, IsPathTo, point_of};

use s390x_base::{EmitError, MachLabel, NoMemory};
use s390x_buffer::MachBuffer;
use s390x_emit_int::{CodeSize, Context, advance, check_inst, mark_safepoint, open_loop};
use s390x_inst::{EmitState, Inst, IsaFlags};
use std::alloc::Global;

/// What stands around instructions: how many labels are in use before them, and how many loops they stand in.
#[derive(Clone, Copy)]
pub struct Scope {
    pub labels: u64,
    pub depth: u32,
}

/// A member of a block or of a loop that has a cause, in itself or in its own members, and none before it.
#[derive(Clone, Copy)]
pub struct FirstMember {
    pub index: usize,
    pub labels: u64,
    pub error: EmitError,
}

/// A member has no cause, and so many labels are in use behind it; or this is its first one.
#[derive(Clone, Copy)]
pub enum Checked {
    Passed(u64),
    Refused(EmitError),
}

// A call that stands in a block itself is a safepoint.
fn mark_member(state: &mut EmitState, depth: u32, inst: &Inst)
    ensures { state.new ≡ with_safepoint depth state.old inst.now }
{
    if depth == 0 {
        mark_safepoint(state, inst);
    }
}

// The first cause of a member, or how many labels are in use behind it. The state is then the one behind the member, or the one
// in which it is refused.
fn check_member(
    alloc: Global,
    flags: IsaFlags,
    sink: &MachBuffer,
    state: &mut EmitState,
    scope: Scope,
    inst: &Inst,
) -> Result<Checked, NoMemory>
    requires { scope.labels ≤ label_limit }
    ensures { IfOk result
        (λ checked. IsChecked flags (declared_in sink.now) scope state.old state.new inst.now
        checked) }
{
    mark_member(state, scope.depth, inst);
    let before = CodeSize {
        labels: scope.labels,
        bytes: 0,
    };
    let context = Context {
        flags,
        depth: scope.depth,
        after: MachLabel(0),
    };
    match check_inst(alloc, context, state, sink, before, inst) {
        Ok(behind) => {
            let Ok(()) = advance(state, inst) else {
                unreachable!()
            };
            Ok(Checked::Passed(behind.labels))
        }
        Err(EmitError::NoMemory) => Err(NoMemory),
        Err(error) => Ok(Checked::Refused(error)),
    }
}

/// The first member that has a cause, in itself or in its own members, where there is one. The state is then the one in which it is refused.
pub fn first_member(
    alloc: Global,
    flags: IsaFlags,
    sink: &MachBuffer,
    state: &mut EmitState,
    scope: Scope,
    insts: &[Inst],
) -> Result<Option<FirstMember>, NoMemory>
    requires { scope.labels ≤ label_limit }
    ensures { IfOk result
        (λ found. IsFirstMember flags (declared_in sink.now) scope state.old state.new insts.now
        found) }
{
    let depth = scope.depth;
    let mut labels = scope.labels;
    for (index, inst) in insts.iter().enumerate() {
        match check_member(alloc, flags, sink, state, Scope { labels, depth }, inst)? {
            Checked::Passed(behind) => labels = behind,
            Checked::Refused(error) => {
                return Ok(Some(FirstMember {
                    index,
                    labels,
                    error,
                }));
            }
        }
    }
    Ok(None)
}

// The path from an instruction that is refused to the one that has the cause itself: empty where it is this one.
#[cycle(path)]
fn path_to(
    alloc: Global,
    flags: IsaFlags,
    sink: &MachBuffer,
    state: &EmitState,
    scope: Scope,
    inst: &Inst,
) -> Result<Vec<usize>, NoMemory>
    requires { scope.labels ≤ label_limit }
    ensures { IfOk result
        (λ path. IsPathTo flags (declared_in sink.now) (point_of scope state.now) inst.now
        path.items) }
{
    let Inst::Loop { body, .. } = inst else {
        return Ok(Vec::new(alloc));
    };
    let before = CodeSize {
        labels: scope.labels,
        bytes: 0,
    };
    let Ok(opened) = open_loop(before, scope.depth) else {
        return Ok(Vec::new(alloc));
    };
    let inside = Scope {
        labels: opened.labels,
        depth: scope.depth + 1,
    };
    let mut before_body = *state;
    before_body.clear_post_insn();
    match path_among(alloc, flags, sink, &before_body, inside, body)? {
        Some(path) => Ok(path),
        None => Ok(Vec::new(alloc)),
    }
}

/// The path from the members of a block or of a loop to the instruction that is the first to have a cause itself; none where no member has one.
#[cycle(path)]
pub fn path_among(
    alloc: Global,
    flags: IsaFlags,
    sink: &MachBuffer,
    state: &EmitState,
    scope: Scope,
    insts: &[Inst],
) -> Result<Option<Vec<usize>>, NoMemory>
    requires { scope.labels ≤ label_limit }
    ensures { IfOk result
        (λ found. IsPathAmong flags (declared_in sink.now) (point_of scope state.now) insts.now
        found) }
{
    let mut before = *state;
    let Some(first) = first_member(alloc, flags, sink, &mut before, scope, insts)? else {
        return Ok(None);
    };
    let around = Scope {
        labels: first.labels,
        depth: scope.depth,
    };
    let mut path = path_to(alloc, flags, sink, &before, around, &insts[first.index])?;
    match path.insert(0, first.index) {
        Ok(()) => Ok(Some(path)),
        Err(_) => Err(NoMemory),
    }
}
