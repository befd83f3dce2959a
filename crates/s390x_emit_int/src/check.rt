//! The causes of refusal, found before anything is emitted: the length stands last among them, so no part of a function may be
//! refused for it while an earlier cause may follow.
ghost use Rattle.std.specs.Prelude.{◌≡◌, ℕ, ◌+◌, ◌≤◌, ◌<◌, ◌⊎◌, min, true, None, Some, MatchResult, ◌*◌};
ghost use Rattle.s390x_base.specs.declared.error.EmitError.TheVariants.{NoMemory};
ghost use Rattle.s390x_inst.specs.declared.state.IsaFlags.{IsaFlags};
ghost use Rattle.s390x_typed_steps.specs.MachineInstruction.{size_of};
ghost use Rattle.s390x_typed_steps.specs.Memory.{memory};
ghost use Rattle.s390x_typed_steps.specs.Resolved.{resolved_instruction};
ghost use Rattle.s390x_typed_steps.specs.SingleCode.{code_where};
ghost use Rattle.s390x_typed_steps.specs.SingleInstruction.{SingleInstruction};
ghost use Rattle.s390x_typed_steps.specs.Calls.{without_map};
ghost use Rattle.s390x_typed_steps.specs.Sizes.{instruction_size, tree_size};
ghost use Rattle.s390x_typed_steps.specs.Causes.{Declared, first_emit_cause, declared_in, fresh_labels, nesting_cause, numbers_cause, memory_cause_or, instruction_cause, tree_cause, block_cause, nominal_behind, instruction_fresh_labels, leaf_cause};
ghost use Rattle.s390x_typed_steps.specs.Ranges.{InRange, AllInRange, IsConditionMask};
ghost use Rattle.s390x_emit_int.specs.Emission.{branch_size, memory_size_or};
ghost use Rattle.s390x_emit_int.specs.Function.{tree_of};
ghost use Rattle.s390x_emit_int.specs.Members.{member_of, members_of, block_members_of};
ghost use Rattle.s390x_emit_int.specs.Sequence.{ChecksTree};
ghost use Rattle.s390x_emit_int.specs.CodeSize.{IsCounted, Adds, code_limit};

use crate::baseline::check_on_machine;
use crate::causes::instruction_cause;
use crate::check_calls::{check_call, check_tail_call};
use crate::composite::composite_size;
use crate::context::Context;
use crate::stack::{advance, end_cause, mark_safepoint};
use s390x_address::LIMIT;
use s390x_base::{Code, EmitError, MachLabel};
use s390x_buffer::MachBuffer;
use s390x_emit_rows::{encode_single, memory_rows};
use s390x_inst::{Block, EmitState, Inst, IsaFlags};
use std::alloc::Global;

/// How many label numbers are in use, and how many bytes the steps have, counted up to the limit of code.
#[derive(Clone, Copy)]
pub struct CodeSize {
    pub labels: u64,
    pub bytes: u64,
}

// The size of a jump by a table with so many words, counted up to the limit of code.
fn table_size(count: usize) -> u64
    ensures value { min code_limit result ≡ min code_limit (20 + 4 * count) }
    ensures few { result ≤ code_limit }
{
    if count < 536870912 {
        let size = 20 + 4 * count as u64;
        if size < LIMIT { size } else { LIMIT }
    } else {
        LIMIT
    }
}

// The size of an instruction that names a place, goes elsewhere or ends the run, counted up to the limit of code.
#[tactic(auto, unfolding(s390x_format::specs::Formats::length_of))]
fn branch_size(inst: &Inst) -> u64
    ensures value { min code_limit result ≡ min code_limit (branch_size inst.now) }
    ensures few { result ≤ code_limit }
{
    match inst {
        Inst::Jump { .. }
        | Inst::CondBreak { .. }
        | Inst::LabelAddress { .. }
        | Inst::TrapIf { .. } => 6,
        Inst::CondBr { .. } => 12,
        Inst::LoadSymbolReloc { .. } => 18,
        Inst::JTSequence { targets, .. } => table_size(targets.len()),
        Inst::IndirectBr { .. } | Inst::Ret { .. } | Inst::Trap { .. } | Inst::Debugtrap => 2,
        Inst::Vector(inst) => composite_size(inst),
        _ => 0,
    }
}

// The size of an instruction that isn't one machine instruction, counted up to the limit of code.
fn other_size(state: &EmitState, inst: &Inst) -> u64
    ensures value { (D : Declared)
        → memory_cause_or D (memory (resolved_instruction state.now inst.now)) None ≡ None
        → min code_limit result
        ≡ min code_limit
        (memory_size_or (memory (resolved_instruction state.now inst.now))
        (branch_size inst.now)) }
    ensures few { result ≤ code_limit }
{
    match memory_rows(inst) {
        Some(found) => found.size(state),
        None => branch_size(inst),
    }
}

// The size of one machine instruction whose registers may stand there.
fn found_size(found: Result<Code, EmitError>) -> u64
    ensures value { (x : SingleInstruction) → found ≡ code_where x.operands_valid x.row
        → x.operands_valid ≡ true → result ≡ size_of x.row }
    ensures few { result ≤ 6 }
{
    match found {
        Ok(code) => code.bytes().len() as u64,
        Err(_) => 0,
    }
}

// The size of an instruction that no cause refuses, counted up to the limit of code.
fn size_of(state: &EmitState, inst: &Inst) -> u64
    ensures value { (flags : IsaFlags) (D : Declared) (nominal depth : ℕ)
        → instruction_cause flags D nominal depth (resolved_instruction state.now inst.now) ≡ None
        → min code_limit result
        ≡ min code_limit (instruction_size (resolved_instruction state.now inst.now)) }
    ensures few { result ≤ code_limit }
{
    match encode_single(inst) {
        Some(found) => found_size(found),
        None => other_size(state, inst),
    }
}

/// How many labels an instruction draws that is no `Loop`.
pub fn fresh_labels(inst: &Inst) -> u64
    ensures value { result ≡ instruction_fresh_labels inst.now }
    ensures few { result ≤ 2 }
{
    match inst {
        Inst::JTSequence { .. } => 1,
        _ => 0,
    }
}

/// So many more bytes.
pub fn add_bytes(t: CodeSize, bytes: u64) -> CodeSize
    requires counted { IsCounted t }
    requires short { bytes ≤ code_limit }
    ensures { Adds t result 0 bytes }
{
    let sum = t.bytes + bytes;
    CodeSize {
        labels: t.labels,
        bytes: if sum > LIMIT { LIMIT } else { sum },
    }
}

/// So many more labels and bytes. `LabelOutOfRange` comes where so many labels are not left.
pub fn add(t: CodeSize, labels: u64, bytes: u64) -> Result<CodeSize, EmitError>
    requires counted { IsCounted t }
    requires few { labels ≤ 2 }
    requires short { bytes ≤ code_limit }
    ensures { MatchResult result
        (λ r. (numbers_cause t.labels labels ≡ None) × Adds t r labels bytes)
        (λ e. numbers_cause t.labels labels ≡ Some e) }
{
    if t.labels + labels > 4294967296 {
        return Err(EmitError::LabelOutOfRange);
    }
    let drawn = CodeSize {
        labels: t.labels + labels,
        bytes: t.bytes,
    };
    Ok(add_bytes(drawn, bytes))
}

/// The first cause of an instruction that is neither a `Loop` nor a call, by its own rows, or what it adds. The machine has to have these rows:
/// `check_on_machine` asks.
pub fn check_leaf(
    flags: IsaFlags,
    state: &EmitState,
    sink: &MachBuffer,
    t: CodeSize,
    depth: u32,
    inst: &Inst,
) -> Result<CodeSize, EmitError>
    requires { IsCounted t }
    ensures { let j = resolved_instruction state.now inst.now in
        let cause = leaf_cause flags (declared_in sink.now) t.labels state.now.nominal depth j in
        MatchResult result
        (λ r. (cause ≡ None) × Adds t r (instruction_fresh_labels j) (instruction_size j))
        (λ e. cause ≡ Some e) }
{
    match instruction_cause(flags, state, sink, depth, inst) {
        Some(error) => Err(error),
        None => add(t, fresh_labels(inst), size_of(state, inst)),
    }
}

/// A loop opens: its nesting, and its two labels. `LabelOutOfRange` comes where no two labels are left,
/// `NestedTooDeep` where loops nest eight deep already.
pub fn open_loop(t: CodeSize, depth: u32) -> Result<CodeSize, EmitError>
    requires { IsCounted t }
    ensures { MatchResult result
        (λ r. (first_emit_cause (nesting_cause depth) (numbers_cause t.labels 2) ≡ None)
        × Adds t r 2 0 × (depth < 8))
        (λ e. first_emit_cause (nesting_cause depth) (numbers_cause t.labels 2) ≡ Some e) }
{
    if depth < 8 {
        add(t, 2, 0)
    } else {
        Err(EmitError::BadOperator)
    }
}

/// The first cause among the members of a loop, by the buffer's blocks and constants, or want of memory; or what they add. The state is then the one
/// behind them.
#[cycle(checking)]
pub fn check_members(
    alloc: Global,
    context: Context,
    state: &mut EmitState,
    sink: &MachBuffer,
    t: CodeSize,
    insts: &[Inst],
) -> Result<CodeSize, EmitError>
    requires { IsCounted t }
    ensures { let members = members_of context.flags state.old insts.now in
        let cause = tree_cause context.flags (declared_in sink.now) t.labels state.old.nominal
        context.depth members in
        MatchResult result
        (λ r. (cause ≡ None) × Adds t r (fresh_labels members) (tree_size members)
        × (state.new.nominal ≡ nominal_behind state.old.nominal members))
        (λ e. (e ≡ NoMemory) ⊎ (cause ≡ Some e)) }
{
    let mut sum = t;
    for inst in insts {
        sum = check_inst(alloc, context, state, sink, sum, inst)?;
        advance(state, inst)?;
    }
    Ok(sum)
}

/// The first cause of an instruction, or want of memory; or what it adds.
#[cycle(checking)]
pub fn check_inst(
    alloc: Global,
    context: Context,
    state: &EmitState,
    sink: &MachBuffer,
    t: CodeSize,
    inst: &Inst,
) -> Result<CodeSize, EmitError>
    requires { IsCounted t }
    ensures { ChecksTree context.flags (declared_in sink.now) t context.depth state.now.nominal
        (member_of context.flags state.now inst.now) result }
{
    match inst {
        Inst::Loop { body, .. } => check_loop(alloc, context, state, sink, t, body),
        Inst::Call { link, info } => check_call(context, state, sink, t, link.to_reg(), info),
        Inst::ReturnCall { info } => check_tail_call(alloc, context, state, sink, t, info),
        _ => check_on_machine(context.flags, state, sink, t, context.depth, inst),
    }
}

#[cycle(checking)]
fn check_loop(
    alloc: Global,
    context: Context,
    state: &EmitState,
    sink: &MachBuffer,
    t: CodeSize,
    body: &[Inst],
) -> Result<CodeSize, EmitError>
    requires { IsCounted t }
    ensures { let members = members_of context.flags (without_map state.now) body.now in
        let cause = first_emit_cause
        (first_emit_cause (nesting_cause context.depth) (numbers_cause t.labels 2))
        (tree_cause context.flags (declared_in sink.now) (t.labels + 2) state.now.nominal
        (context.depth + 1) members) in
        MatchResult result
        (λ r. (cause ≡ None) × Adds t r (2 + fresh_labels members) (tree_size members + 6))
        (λ e. (e ≡ NoMemory) ⊎ (cause ≡ Some e)) }
{
    let opened = open_loop(t, context.depth)?;
    let mut inside = *state;
    inside.clear_post_insn();
    let around = Context {
        flags: context.flags,
        depth: context.depth + 1,
        after: context.after,
    };
    let inner = check_members(alloc, around, &mut inside, sink, opened, body)?;
    Ok(add_bytes(inner, 6))
}

// The first cause among the members of a block, each of its calls a safepoint, or what they add. The state is then the one behind them.
fn check_block_members(
    alloc: Global,
    flags: IsaFlags,
    state: &mut EmitState,
    sink: &MachBuffer,
    t: CodeSize,
    insts: &[Inst],
) -> Result<CodeSize, EmitError>
    requires { IsCounted t }
    ensures { let members = block_members_of flags state.old insts.now in
        let cause = tree_cause flags (declared_in sink.now) t.labels state.old.nominal 0 members in
        MatchResult result
        (λ r. (cause ≡ None) × Adds t r (fresh_labels members) (tree_size members)
        × (state.new.nominal ≡ nominal_behind state.old.nominal members))
        (λ e. (e ≡ NoMemory) ⊎ (cause ≡ Some e)) }
{
    let outside = Context {
        flags,
        depth: 0,
        after: MachLabel(0),
    };
    let mut sum = t;
    for inst in insts {
        mark_safepoint(state, inst);
        sum = check_inst(alloc, outside, state, sink, sum, inst)?;
        advance(state, inst)?;
    }
    Ok(sum)
}

/// The first cause of a block that begins at the nominal size 0, or want of memory; or what it adds.
pub fn check_block(
    alloc: Global,
    flags: IsaFlags,
    state: &EmitState,
    sink: &MachBuffer,
    t: CodeSize,
    block: &Block,
) -> Result<CodeSize, EmitError>
    requires counted { IsCounted t }
    requires start { state.now.nominal ≡ 0 }
    ensures { MatchResult result
        (λ r.
        (block_cause flags (declared_in sink.now) t.labels (tree_of flags state.now block.now)
        ≡ None)
        × Adds t r (fresh_labels (tree_of flags state.now block.now))
        (tree_size (tree_of flags state.now block.now)))
        (λ e. (e ≡ NoMemory)
        ⊎ (block_cause flags (declared_in sink.now) t.labels (tree_of flags state.now block.now)
        ≡ Some e)) }
{
    let mut behind = *state;
    let sum = check_block_members(alloc, flags, &mut behind, sink, t, &block.insts)?;
    match end_cause(&behind) {
        Some(error) => Err(error),
        None => Ok(sum),
    }
}
