//! Emitting lists of instructions, with the members of loops.
#![tactic(auto, using(s390x_buffer::proofs::Extending::extends_on, s390x_buffer::proofs::Extending::extends_same))]

ghost use Rattle.std.specs.Prelude.{◌≡◌, ℕ, ◌+◌, ◌<◌, OnOk, None, length};
ghost use Rattle.s390x_buffer.specs.Extends.{Extends};
ghost use Rattle.s390x_typed_steps.specs.Tree.{empty, loop_node};
ghost use Rattle.s390x_typed_steps.specs.Calls.{without_map};
ghost use Rattle.s390x_typed_steps.specs.Causes.{first_emit_cause, declared_in, nesting_cause, numbers_cause, nominal_behind, tree_cause};
ghost use Rattle.s390x_emit_int.specs.Fragments.{apply_all};
ghost use Rattle.s390x_emit_int.specs.Members.{member_of, members_of};
ghost use Rattle.s390x_emit_int.specs.Emission.{fragments, own_fragments};
ghost use Rattle.s390x_typed_steps.specs.Ranges.{AllInRange};
ghost use Rattle.s390x_emit_int.specs.Room.{HasRoom, TreeFits, OnlyOutOfMemory};

use crate::baseline::emit_on_machine;
use crate::calls::{emit_call, emit_tail_call};
use crate::check::{CodeSize, open_loop};
use crate::context::Context;
use crate::instruction::put_branch;
use crate::stack::advance;
use s390x_base::{Cond, EmitError};
use s390x_buffer::MachBuffer;
use s390x_inst::{EmitState, Inst};
use std::alloc::Global;

// Why no loop can stand inside so many others: its nesting, or the numbers of its two labels.
fn loop_cause(sink: &MachBuffer, depth: u32) -> Option<EmitError>
    ensures cause { result
        ≡ first_emit_cause (nesting_cause depth) (numbers_cause (length sink.now.labels) 2) }
    ensures few { result ≡ None → depth < 8 }
{
    let used = CodeSize {
        labels: sink.label_count(),
        bytes: 0,
    };
    open_loop(used, depth).err()
}

/// Emits instructions in order, each with its step place, where no cause refuses one. The state is then the one behind them. An error may be another one
/// than the first cause.
#[cycle(members)]
pub fn emit_members(
    alloc: Global,
    context: Context,
    sink: &mut MachBuffer,
    state: &mut EmitState,
    insts: &[Inst],
) -> Result<(), EmitError>
    requires { HasRoom sink.old }
    ensures answer { OnOk result
        (sink.new
        ≡ apply_all sink.old
        (fragments (length sink.old.labels) context.after.0
        (members_of context.flags state.old insts.now))) }
    ensures cause { OnOk result
        ((tree_cause context.flags (declared_in sink.old) (length sink.old.labels)
        state.old.nominal context.depth (members_of context.flags state.old insts.now) ≡ None)
        × (state.new.nominal
        ≡ nominal_behind state.old.nominal (members_of context.flags state.old insts.now))) }
    ensures only_memory { TreeFits context.flags sink.old context.after.0 state.old.nominal
        context.depth (members_of context.flags state.old insts.now) → OnlyOutOfMemory result }
    ensures ranges { OnOk result (AllInRange (members_of context.flags state.old insts.now)) }
    ensures kept { Extends sink.old sink.new }
{
    for inst in insts {
        sink.start_step()?;
        emit_inst(alloc, context, sink, state, inst)?;
        advance(state, inst)?;
    }
    Ok(())
}

/// Emits an instruction, where no cause refuses it.
#[cycle(members)]
#[inline(always)]
pub fn emit_inst(
    alloc: Global,
    context: Context,
    sink: &mut MachBuffer,
    state: &EmitState,
    inst: &Inst,
) -> Result<(), EmitError>
    requires { HasRoom sink.old }
    ensures answer { OnOk result
        (sink.new
        ≡ apply_all sink.old
        (own_fragments (length sink.old.labels) context.after.0
        (member_of context.flags state.now inst.now))) }
    ensures cause { OnOk result
        (tree_cause context.flags (declared_in sink.old) (length sink.old.labels)
        state.now.nominal context.depth (member_of context.flags state.now inst.now) ≡ None) }
    ensures only_memory { TreeFits context.flags sink.old context.after.0 state.now.nominal
        context.depth (member_of context.flags state.now inst.now) → OnlyOutOfMemory result }
    ensures ranges { OnOk result (AllInRange (member_of context.flags state.now inst.now)) }
    ensures kept { Extends sink.old sink.new }
{
    match inst {
        Inst::Loop { cond, body } => emit_loop(alloc, context, sink, state, *cond, body),
        Inst::Call { link, info } => emit_call(alloc, context, sink, state, link.to_reg(), info),
        Inst::ReturnCall { info } => emit_tail_call(alloc, context, sink, state, info),
        _ => emit_on_machine(
            context.flags,
            sink,
            state,
            context.depth,
            inst,
            context.after,
        ),
    }
}

#[cycle(members)]
fn emit_loop(
    alloc: Global,
    context: Context,
    sink: &mut MachBuffer,
    state: &EmitState,
    cond: Cond,
    body: &[Inst],
) -> Result<(), EmitError>
    requires { HasRoom sink.old }
    ensures answer { OnOk result
        (sink.new
        ≡ apply_all sink.old
        (own_fragments (length sink.old.labels) 0
        (loop_node cond (members_of context.flags (without_map state.now) body.now) empty))) }
    ensures cause { OnOk result
        (tree_cause context.flags (declared_in sink.old) (length sink.old.labels)
        state.now.nominal context.depth
        (loop_node cond (members_of context.flags (without_map state.now) body.now) empty)
        ≡ None) }
    ensures only_memory { (after : ℕ)
        → TreeFits context.flags sink.old after state.now.nominal context.depth
        (loop_node cond (members_of context.flags (without_map state.now) body.now) empty)
        → OnlyOutOfMemory result }
    ensures ranges { OnOk result
        (AllInRange
        (loop_node cond (members_of context.flags (without_map state.now) body.now) empty)) }
    ensures kept { Extends sink.old sink.new }
{
    if let Some(error) = loop_cause(sink, context.depth) {
        return Err(error);
    }
    let mask = cond.bits();
    let start = sink.get_label()?;
    let end = sink.get_label()?;
    sink.bind_label(start)?;
    let mut inside = *state;
    inside.clear_post_insn();
    let around = Context {
        flags: context.flags,
        depth: context.depth + 1,
        after: end,
    };
    emit_members(alloc, around, sink, &mut inside, body)?;
    sink.start_step()?;
    put_branch(sink, mask, start)?;
    sink.bind_label(end)
}
