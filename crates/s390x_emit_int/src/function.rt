//! Emitting a function: its blocks, and then its constants.

ghost use Rattle.std.specs.Prelude.{◌≡◌, ◌≢◌, ℕ, ◌+◌, ◌<◌, ◌≤◌, ◌⊎◌, List, OnOk, length, map, cond, None, Some, MatchResult, nat_lt, false};
ghost use Rattle.s390x_base.specs.declared.error.EmitError.TheVariants.{NoMemory, LabelOutOfRange, BadStackState};
ghost use Rattle.s390x_buffer.specs.Extends.{Extends};
ghost use Rattle.s390x_buffer.specs.State.{IsUnbound, constant_of, new_cause, put_cause, fresh_buffer, limit, label_limit};
ghost use Rattle.s390x_buffer.specs.Constants.{constants_end};
ghost use Rattle.s390x_inst.specs.declared.state.IsaFlags.{IsaFlags};
ghost use Rattle.s390x_typed_steps.specs.Causes.{unless, declared_in, declared_of, block_cause, blocks_cause, nominal_behind, tree_cause};
ghost use Rattle.s390x_typed_steps.specs.Tree.{Tree, block_tree};
ghost use Rattle.s390x_typed_steps.specs.Folding.{folded_before, folded_members, folded_trees, peak, peak_from};
ghost use Rattle.s390x_typed_steps.specs.Sizes.{tree_size, blocks_size};
ghost use Rattle.s390x_buffer.specs.declared.entries.RecordedBranches.TheVariants.{NoBranch};
ghost use Rattle.s390x_emit_int.specs.Emission.{fragments, function_fragments};
ghost use Rattle.s390x_typed_steps.specs.Ranges.{AllInRange, BlocksInRange};
ghost use Rattle.s390x_emit_int.specs.Function.{tree_of, trees_of, folded_trees_of, constants_of, number_of_next, IsFinishedCode, start_cause, code_length_cause, checked_cause, function_cause};
ghost use Rattle.s390x_emit_int.specs.Fragments.{apply_all};
ghost use Rattle.s390x_emit_int.specs.CodeSize.{AreCounted};
ghost use Rattle.s390x_emit_int.specs.LastChoice.{IsLastOf};
ghost use Rattle.s390x_emit_int.specs.Members.{block_members_of};
ghost use Rattle.s390x_emit_int.specs.Room.{HasRoom, MembersFit, TreeFits, OnlyOutOfMemory};

use crate::check::{CodeSize, check_block};
use crate::context::Context;
use crate::folding::folded_bytes;
use crate::last_choice::{LastChoice, last_choice, put_last_choice};
use crate::stack::{advance, end_cause, mark_safepoint};
use crate::tree::emit_inst;
use s390x_base::{ConstantData, EmitError, MachLabel};
use s390x_buffer::{MachBuffer, MachBufferFinalized, all_aligned, constants_fit};
use s390x_inst::{AllocatedFunction, Block, EmitInfo, EmitState, Inst, IsaFlags};
use std::alloc::Global;

// The stack sizes at the beginning have to be 0.
fn start_cause(state: &EmitState) -> Option<EmitError>
    ensures { result ≡ start_cause state.now }
{
    if state.nominal() == 0 && state.outgoing() == 0 {
        None
    } else {
        Some(EmitError::BadStackState)
    }
}

/// How long a function's code is: at its longest, and in the end. It is counted up to the limit of code, and where it reaches that, the end isn't told.
#[derive(Clone, Copy)]
pub struct Lengths {
    pub longest: u64,
    pub last: u64,
}

// The label of the block with this number, where there is one.
fn label_of(number: u32, blocks: &[Block]) -> Option<MachLabel>
    ensures { number_of_next result ≡ cond (nat_lt number (length blocks.now)) (Some number) None }
{
    if (number as usize) < blocks.len() {
        Some(MachLabel(number))
    } else {
        None
    }
}

// The first cause in the blocks, by what the buffer tells, with so many labels in use; or how long they are.
fn check_blocks(
    alloc: Global,
    flags: IsaFlags,
    state: &EmitState,
    sink: &MachBuffer,
    labels: u64,
    blocks: &[Block],
) -> Result<Lengths, EmitError>
    requires start { state.now.nominal ≡ 0 }
    requires few { labels ≤ label_limit }
    requires numbered { length blocks.now ≤ 4294967295 }
    ensures { let ts = map (tree_of flags state.now) blocks.now in
        MatchResult result
        (λ r. (blocks_cause flags (declared_in sink.now) labels ts ≡ None) × AreCounted r ts)
        (λ e. (e ≡ NoMemory) ⊎ (blocks_cause flags (declared_in sink.now) labels ts ≡ Some e)) }
{
    let mut sum = CodeSize { labels, bytes: 0 };
    let mut longest = 0;
    let mut number: u32 = 0;
    for block in blocks {
        sum = check_block(alloc, flags, state, sink, sum, block)?;
        longest = sum.bytes.max(longest);
        number += 1;
        sum.bytes -= folded_bytes(label_of(number, blocks), &block.insts);
    }
    Ok(Lengths {
        longest,
        last: sum.bytes,
    })
}

// Whether the code ends below the limit at any time, and in the end with its constants.
fn length_cause(lengths: Lengths, constants: &[ConstantData]) -> Option<EmitError>
    requires { lengths.longest < limit → lengths.last ≤ lengths.longest }
    ensures { (ts : List Tree) → AreCounted lengths ts
        → result ≡ code_length_cause ts (map constant_of constants.now) }
{
    if lengths.longest < 2147483648 && constants_fit(lengths.last as usize, constants) {
        None
    } else {
        Some(EmitError::LabelOutOfRange)
    }
}

// Emits the members of a block in order, each with its step place and each of its calls a safepoint, where no cause refuses one. The state is then the one
// behind them.
#[inline(always)]
fn emit_block_members(
    alloc: Global,
    flags: IsaFlags,
    sink: &mut MachBuffer,
    state: &mut EmitState,
    insts: &[Inst],
) -> Result<(), EmitError>
    requires { HasRoom sink.old }
    ensures answer { OnOk result
        (sink.new
        ≡ apply_all sink.old
        (fragments (length sink.old.labels) 0
        (block_members_of flags state.old insts.now))) }
    ensures cause { OnOk result
        ((tree_cause flags (declared_in sink.old) (length sink.old.labels) state.old.nominal 0
        (block_members_of flags state.old insts.now) ≡ None)
        × (state.new.nominal
        ≡ nominal_behind state.old.nominal (block_members_of flags state.old insts.now))) }
    ensures only_memory { TreeFits flags sink.old 0 state.old.nominal 0
        (block_members_of flags state.old insts.now) → OnlyOutOfMemory result }
    ensures ranges { OnOk result (AllInRange (block_members_of flags state.old insts.now)) }
    ensures kept { Extends sink.old sink.new }
{
    let outside = Context {
        flags,
        depth: 0,
        after: MachLabel(0),
    };
    for inst in insts {
        sink.start_step()?;
        mark_safepoint(state, inst);
        emit_inst(alloc, outside, sink, state, inst)?;
        advance(state, inst)?;
    }
    Ok(())
}

// A block that begins at the nominal size 0 and has to end there, and whose last instruction is a choice of which one branch stays, where no cause refuses it.
// The branch that stays is put at once, and no other one.
fn emit_before_choice(
    alloc: Global,
    flags: IsaFlags,
    sink: &mut MachBuffer,
    state: &EmitState,
    insts: &[Inst],
    choice: LastChoice,
) -> Result<(), EmitError>
    requires last { IsLastOf insts.now choice }
    requires start { state.now.nominal ≡ 0 }
    requires room { HasRoom sink.old }
    requires apart { choice.taken.0 ≢ choice.not_taken.0 }
    ensures answer { OnOk result
        (sink.new
        ≡ apply_all sink.old
        (fragments (length sink.old.labels) 0
        (folded_members choice.not_taken.0
        (block_members_of flags state.now insts.now)))) }
    ensures short { OnOk result
        (length sink.old.bytes + tree_size (block_members_of flags state.now insts.now)
        < limit) }
    ensures cause { OnOk result
        (block_cause flags (declared_in sink.old) (length sink.old.labels)
        (block_members_of flags state.now insts.now) ≡ None) }
    ensures only_memory { MembersFit sink.old 0 0
        (tree_size (block_members_of flags state.now insts.now))
        (block_cause flags (declared_in sink.old) (length sink.old.labels)
        (block_members_of flags state.now insts.now)) → OnlyOutOfMemory result }
    ensures ranges { OnOk result
        (AllInRange (block_members_of flags state.now insts.now)) }
    ensures declared { declared_in sink.new ≡ declared_in sink.old }
{
    let mut behind = *state;
    let others = &insts[..insts.len() - 1];
    emit_block_members(alloc, flags, sink, &mut behind, others)?;
    match end_cause(&behind) {
        Some(error) => Err(error),
        None => put_last_choice(sink, choice),
    }
}

// A block that begins at the nominal size 0 and has to end there, where no cause refuses it. At its end its last branches are folded, before the next block.
fn emit_any_block(
    alloc: Global,
    flags: IsaFlags,
    sink: &mut MachBuffer,
    state: &EmitState,
    block: &Block,
    next: Option<MachLabel>,
) -> Result<(), EmitError>
    requires start { state.now.nominal ≡ 0 }
    requires room { HasRoom sink.old }
    requires clear { sink.old.branches ≡ NoBranch }
    ensures answer { OnOk result
        (sink.new
        ≡ apply_all sink.old
        (fragments (length sink.old.labels) 0
        (folded_before (number_of_next next) (tree_of flags state.now block.now)))) }
    ensures short { OnOk result
        (length sink.old.bytes + tree_size (tree_of flags state.now block.now) < limit) }
    ensures cause { OnOk result
        (block_cause flags (declared_in sink.old) (length sink.old.labels)
        (tree_of flags state.now block.now) ≡ None) }
    ensures only_memory { MembersFit sink.old 0 0 (tree_size (tree_of flags state.now block.now))
        (block_cause flags (declared_in sink.old) (length sink.old.labels)
        (tree_of flags state.now block.now)) → OnlyOutOfMemory result }
    ensures ranges { OnOk result (AllInRange (tree_of flags state.now block.now)) }
    ensures declared { declared_in sink.new ≡ declared_in sink.old }
{
    let mut behind = *state;
    emit_block_members(alloc, flags, sink, &mut behind, &block.insts)?;
    // asked for its contract alone: in full the block ends below the limit
    let _longest = sink.cur_offset();
    match end_cause(&behind) {
        Some(error) => Err(error),
        None => sink.end_block(next),
    }
}

// A block that begins at the nominal size 0 and has to end there, where no cause refuses it. Of its last branches what is left before the next block stands
// at its end.
fn emit_block(
    alloc: Global,
    flags: IsaFlags,
    sink: &mut MachBuffer,
    state: &EmitState,
    block: &Block,
    next: Option<MachLabel>,
) -> Result<(), EmitError>
    requires start { state.now.nominal ≡ 0 }
    requires room { HasRoom sink.old }
    requires clear { sink.old.branches ≡ NoBranch }
    ensures answer { OnOk result
        (sink.new
        ≡ apply_all sink.old
        (fragments (length sink.old.labels) 0
        (folded_before (number_of_next next) (tree_of flags state.now block.now)))) }
    ensures short { OnOk result
        (length sink.old.bytes + tree_size (tree_of flags state.now block.now) < limit) }
    ensures cause { OnOk result
        (block_cause flags (declared_in sink.old) (length sink.old.labels)
        (tree_of flags state.now block.now) ≡ None) }
    ensures only_memory { MembersFit sink.old 0 0 (tree_size (tree_of flags state.now block.now))
        (block_cause flags (declared_in sink.old) (length sink.old.labels)
        (tree_of flags state.now block.now)) → OnlyOutOfMemory result }
    ensures ranges { OnOk result (AllInRange (tree_of flags state.now block.now)) }
    ensures declared { declared_in sink.new ≡ declared_in sink.old }
{
    match last_choice(&block.insts, next) {
        Some(choice) => emit_before_choice(alloc, flags, sink, state, &block.insts, choice),
        None => emit_any_block(alloc, flags, sink, state, block, next),
    }
}

// Each block's label is bound before its members, and its last branches are folded, where no cause refuses one. An error may be another one than the first
// cause.
fn emit_blocks(
    alloc: Global,
    flags: IsaFlags,
    sink: &mut MachBuffer,
    state: &EmitState,
    blocks: &[Block],
) -> Result<(), EmitError>
    requires start { state.now.nominal ≡ 0 }
    requires few { length blocks.now ≤ 4294967295 }
    requires count { sink.old.block_count ≡ length blocks.now }
    requires room { HasRoom sink.old }
    requires free { (l : ℕ) → l < length blocks.now → IsUnbound sink.old l }
    requires short { length sink.old.bytes < limit }
    ensures answer { OnOk result
        (sink.new
        ≡ apply_all sink.old
        (function_fragments (length sink.old.labels) 0
        (folded_trees (map (tree_of flags state.now) blocks.now)))) }
    ensures longest { OnOk result
        (peak_from 0 (length sink.old.bytes) (map (tree_of flags state.now) blocks.now) < limit) }
    ensures cause { OnOk result
        (blocks_cause flags (declared_in sink.old) (length sink.old.labels)
        (map (tree_of flags state.now) blocks.now) ≡ None) }
    ensures only_memory { sink.old.is_poisoned ≡ false
        → peak_from 0 (length sink.old.bytes) (map (tree_of flags state.now) blocks.now) < limit
        → blocks_cause flags (declared_in sink.old) (length sink.old.labels)
        (map (tree_of flags state.now) blocks.now) ≡ None → OnlyOutOfMemory result }
    ensures ranges { OnOk result (BlocksInRange (map (tree_of flags state.now) blocks.now)) }
    ensures declared { declared_in sink.new ≡ declared_in sink.old }
{
    let mut label: u32 = 0;
    for block in blocks {
        sink.bind_label(MachLabel(label))?;
        label += 1;
        emit_block(alloc, flags, sink, state, block, label_of(label, blocks))?;
    }
    Ok(())
}

// How many blocks there are, where the count has a label for each.
fn block_count(function: &AllocatedFunction) -> Result<u32, EmitError>
    ensures { MatchResult result (λ n. n ≡ length function.now.blocks.items)
        (λ e. new_cause (length function.now.blocks.items) (constants_of function.now) ≡ Some e) }
{
    let count = function.blocks.len();
    if count <= 4294967295 {
        Ok(count as u32)
    } else if all_aligned(&function.constants) {
        Err(EmitError::LabelOutOfRange)
    } else {
        Err(EmitError::BadAlignment)
    }
}

// The first cause among the steps and the length, by what the buffer tells of the blocks and the constants.
fn check_function(
    alloc: Global,
    sink: &MachBuffer,
    function: &AllocatedFunction,
    state: &EmitState,
    flags: IsaFlags,
) -> Result<(), EmitError>
    requires start { state.now.nominal ≡ 0 }
    requires few { length function.now.blocks.items ≤ 4294967295 }
    requires new { new_cause (length function.now.blocks.items) (constants_of function.now) ≡ None }
    requires declared { declared_in sink.now
        ≡ declared_of (trees_of flags state.now function.now) (constants_of function.now) }
    ensures { MatchResult result
        (λ _. checked_cause flags (trees_of flags state.now function.now)
        (constants_of function.now) ≡ None)
        (λ e. (e ≡ NoMemory)
        ⊎ (checked_cause flags (trees_of flags state.now function.now)
        (constants_of function.now) ≡ Some e)) }
{
    let labels = function.blocks.len() as u64 + function.constants.len() as u64;
    let lengths = check_blocks(alloc, flags, state, sink, labels, &function.blocks)?;
    match length_cause(lengths, &function.constants) {
        Some(error) => Err(error),
        None => Ok(()),
    }
}

// What a function is refused by, of which emission was refused by an error: the first cause, or want of memory.
fn refusal(
    alloc: Global,
    sink: &MachBuffer,
    function: &AllocatedFunction,
    state: &EmitState,
    flags: IsaFlags,
    error: EmitError,
) -> EmitError
    requires start { state.now.nominal ≡ 0 }
    requires few { length function.now.blocks.items ≤ 4294967295 }
    requires new { new_cause (length function.now.blocks.items) (constants_of function.now) ≡ None }
    requires declared { declared_in sink.now
        ≡ declared_of (trees_of flags state.now function.now) (constants_of function.now) }
    requires only_memory { checked_cause flags (trees_of flags state.now function.now)
        (constants_of function.now) ≡ None → error ≡ NoMemory }
    ensures { (result ≡ NoMemory)
        ⊎ (checked_cause flags (trees_of flags state.now function.now) (constants_of function.now)
        ≡ Some result) }
{
    match check_function(alloc, sink, function, state, flags) {
        Ok(()) => error,
        Err(cause) => cause,
    }
}

// The steps were emitted: the finished code is the function's image, unless it is too long with its constants.
fn finish(
    sink: MachBuffer,
    function: &AllocatedFunction,
    state: &EmitState,
    flags: IsaFlags,
) -> Result<MachBufferFinalized, EmitError>
    requires new { new_cause (length function.now.blocks.items) (constants_of function.now) ≡ None }
    requires emitted { let ts = folded_trees_of flags state.now function.now in
        let cs = constants_of function.now in
        sink
        ≡ apply_all (fresh_buffer (length ts) cs)
        (function_fragments (length ts + length cs) 0 ts) }
    requires longest { peak (trees_of flags state.now function.now) < limit }
    requires cause { let ts = trees_of flags state.now function.now in
        let cs = constants_of function.now in
        blocks_cause flags (declared_of ts cs) (length ts + length cs) ts ≡ None }
    requires ranges { BlocksInRange (trees_of flags state.now function.now) }
    ensures { let cause = checked_cause flags (trees_of flags state.now function.now)
        (constants_of function.now) in
        MatchResult result
        (λ f. (cause ≡ None)
        × IsFinishedCode (folded_trees_of flags state.now function.now)
        (constants_of function.now) f
        × BlocksInRange (trees_of flags state.now function.now))
        (λ e. (e ≡ NoMemory) ⊎ (cause ≡ Some e)) }
{
    if constants_fit(sink.cur_offset() as usize, &function.constants) {
        sink.finish()
    } else {
        Err(EmitError::LabelOutOfRange)
    }
}

// In a new buffer: the image, or the first cause.
fn emit_in(
    alloc: Global,
    mut sink: MachBuffer,
    function: &AllocatedFunction,
    state: &EmitState,
    flags: IsaFlags,
) -> Result<MachBufferFinalized, EmitError>
    requires start { state.now.nominal ≡ 0 }
    requires few { length function.now.blocks.items ≤ 4294967295 }
    requires new { new_cause (length function.now.blocks.items) (constants_of function.now) ≡ None }
    requires fresh { sink
        ≡ fresh_buffer (length function.now.blocks.items) (constants_of function.now) }
    ensures { let cause = checked_cause flags (trees_of flags state.now function.now)
        (constants_of function.now) in
        MatchResult result
        (λ f. (cause ≡ None)
        × IsFinishedCode (folded_trees_of flags state.now function.now)
        (constants_of function.now) f
        × BlocksInRange (trees_of flags state.now function.now))
        (λ e. (e ≡ NoMemory) ⊎ (cause ≡ Some e)) }
{
    match emit_blocks(alloc, flags, &mut sink, state, &function.blocks) {
        Ok(()) => finish(sink, function, state, flags),
        Err(error) => Err(refusal(alloc, &sink, function, state, flags, error)),
    }
}

// A buffer for the blocks and the constants.
fn new_buffer(alloc: Global, function: &AllocatedFunction) -> Result<MachBuffer, EmitError>
    ensures answer { MatchResult result
        (λ b. (new_cause (length function.now.blocks.items) (constants_of function.now) ≡ None)
        × (b ≡ fresh_buffer (length function.now.blocks.items) (constants_of function.now)))
        (λ e. (e ≡ NoMemory)
        ⊎ (new_cause (length function.now.blocks.items) (constants_of function.now) ≡ Some e)) }
    ensures few { OnOk result (length function.now.blocks.items ≤ 4294967295) }
{
    let count = block_count(function)?;
    MachBuffer::new(alloc, count, &function.constants)
}

/// Emits a function: binds each block's label, emits its members, folds its last branches, and finishes the code with the constants behind it.
///
/// Of a block's last step, where that is a `Jump` or a `CondBr`, no branch to the next block is left: a `Jump` there has no bytes, nor has a `CondBr` with both
/// labels there; one with one label there is a single branch to the other label, under the inverse condition where that is `not_taken`.
///
/// Refused by the first cause in this order: the state's sizes (`BadStackState`), the constants' alignments (`BadAlignment`),
/// the count of blocks and constants (`LabelOutOfRange`), each step in order (first of all `MissingFacility`) and behind
/// each block's last step the nominal size that isn't 0 (`BadStackState`), the length, in which a block's last step counts in full until its block
/// has ended (`LabelOutOfRange`).
pub fn emit_function(
    alloc: Global,
    function: &AllocatedFunction,
    info: &EmitInfo,
    state: EmitState,
) -> Result<MachBufferFinalized, EmitError>
    ensures { let trees = trees_of info.now.isa_flags state function.now in
        let cause = function_cause info.now.isa_flags trees (constants_of function.now) state in
        MatchResult result
        (λ f. (cause ≡ None)
        × IsFinishedCode (folded_trees_of info.now.isa_flags state function.now)
        (constants_of function.now) f × BlocksInRange trees)
        (λ e. (e ≡ NoMemory) ⊎ (cause ≡ Some e)) }
{
    if let Some(error) = start_cause(&state) {
        return Err(error);
    }
    let sink = new_buffer(alloc, function)?;
    emit_in(alloc, sink, function, &state, info.isa_flags)
}
