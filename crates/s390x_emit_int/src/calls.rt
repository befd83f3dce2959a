//! The steps of calls and of tail calls.
#![tactic(auto, using(s390x_buffer::proofs::Extending::extends_on, s390x_buffer::proofs::Extending::extends_same))]

ghost use Rattle.std.specs.Prelude.{◌≡◌, ℕ, ◌≤◌, ◌⊎◌, ◌&&◌, ◌||◌, nat_eq, [], ◌∷◌, map, length, Some, None, true, false, OnOk, IfOk, MatchResult};
ghost use Rattle.s390x_base.specs.declared.error.EmitError.TheVariants.{NoMemory, ScratchConflict};
ghost use Rattle.s390x_base.specs.AccessFlags.{AccessFlags};
ghost use Rattle.s390x_base.specs.declared.regs.Reg.{Reg};
ghost use Rattle.s390x_base.specs.Regs.{number_of};
ghost use Rattle.s390x_buffer.specs.Extends.{Extends};
ghost use Rattle.s390x_buffer.specs.State.{put_cause};
ghost use Rattle.s390x_inst.specs.Emission.{Emission};
ghost use Rattle.s390x_inst.specs.Frames.{epilogue, copied_target, load_from};
ghost use Rattle.s390x_inst.specs.declared.args.MemArg.TheVariants.{RegOffset};
ghost use Rattle.s390x_inst.specs.declared.calls.CallInstDest.TheVariants.{Indirect};
ghost use Rattle.s390x_inst.specs.declared.calls.TryCallHandler.{TryCallHandler};
ghost use Rattle.s390x_inst.specs.declared.state.IsaFlags.{IsaFlags};
ghost use Rattle.s390x_typed_steps.specs.Calls.{is_target, call_size, handler_of, map_site, return_site, patchable_site, sites_of, site_labels, calling, behind_call, load_before, load_bodies, result_bodies, continuation_bodies, call_bodies, is_access_helped, any_helped, stands_in_scratch, loses_target, is_first_saved, copied_or, jump_target, tail_bodies, wholes};
ghost use Rattle.s390x_typed_steps.specs.Causes.{labels_cause, call_cause, tail_cause};
ghost use Rattle.s390x_typed_steps.specs.General.{is_general};
ghost use Rattle.s390x_typed_steps.specs.Memory.{memory};
ghost use Rattle.s390x_typed_steps.specs.Operands.{finalized_operand, is_helped};
ghost use Rattle.s390x_typed_steps.specs.Parts.{CallSymbol, call_part, tail_part, site_parts, step_parts, step_size};
ghost use Rattle.s390x_typed_steps.specs.Resolved.{resolved_instruction};
ghost use Rattle.s390x_typed_steps.specs.Steps.{CallingStep};
ghost use Rattle.s390x_typed_steps.specs.Tree.{Whole, TailJump, leaves, empty};
ghost use Rattle.s390x_typed_steps.specs.Stack.{nominal_after};
ghost use Rattle.s390x_emit_int.specs.Emission.{part_fragments};
ghost use Rattle.s390x_emit_int.specs.Fragments.{apply_all};
ghost use Rattle.s390x_emit_int.specs.Room.{HasRoom, MembersFit, OnlyOutOfMemory};
ghost use Rattle.s390x_emit_int.specs.Sequence.{AllKeepNominal, Emits, EmitsOwn};

use crate::causes::{branchable, label_cause};
use crate::context::Context;
use crate::instruction::{emit_branch_register, emit_leaf};
use s390x_address::{general, is_numbered, needs_address};
use s390x_base::{EmitError, ExternalName, Reg, Reloc};
use s390x_buffer::{MachBuffer, TryHandler};
use s390x_emit_rows::memory_rows;
use s390x_enc::{enc_ril_b, enc_ril_c, enc_rr};
use s390x_inst::{
    CallInfo, CallInstDest, CallRetPair, EmitState, FrameLayout, Inst, MachInstEmitState, MemArg,
    RetLocation, ReturnCallInfo, TryCallHandler, TryCallInfo, gen_tail_epilogue,
};
use s390x_rows::opcodes;
use s390x_typed_steps::MemInstType;
use std::alloc::{AllocError, Global};

// ---- why a call is refused

// Whether the target can be called.
fn is_target(dest: &CallInstDest) -> bool
    ensures { result ≡ is_target dest.now }
{
    match dest {
        CallInstDest::Direct { .. } => true,
        CallInstDest::Indirect { reg } => branchable(*reg),
    }
}

// A handler with its tag; none where it takes every exception.
fn handler_of(handler: &TryCallHandler) -> TryHandler
    ensures { result ≡ handler_of handler.now }
{
    match handler {
        TryCallHandler::Tag { tag, label } => TryHandler {
            tag: Some(*tag),
            label: *label,
        },
        TryCallHandler::Default { label } => TryHandler {
            tag: None,
            label: *label,
        },
    }
}

// The first cause of the handlers' labels.
fn handlers_cause(blocks: u32, handlers: &[TryCallHandler]) -> Option<EmitError>
    ensures { result
        ≡ labels_cause blocks (map (λ (h : TryCallHandler). (handler_of h).label) handlers.now) }
{
    for handler in handlers {
        let cause = label_cause(blocks, handler_of(handler).label);
        if cause.is_some() {
            return cause;
        }
    }
    None
}

// The first cause of the labels that a call's sites name.
fn sites_cause(blocks: u32, info: &CallInfo) -> Option<EmitError>
    ensures { (state : Emission)
        → result ≡ labels_cause blocks (site_labels (sites_of state info.now)) }
{
    match &info.try_call_info {
        Some(try_info) => handlers_cause(blocks, &try_info.exception_handlers),
        None => None,
    }
}

// Whether a call's registers may stand there.
fn can_call(link: &Reg, dest: &CallInstDest) -> bool
    ensures { result ≡ (is_general link.now && is_target dest.now) }
{
    general(link) && is_target(dest)
}

// Whether a callee can take so many bytes from the stack: as many as are allocated, and none in a loop.
fn may_pop(nominal: u32, depth: u32, popped: u32) -> bool
    ensures { result ≡ (nat_eq popped nominal && (nat_eq popped 0 || nat_eq depth 0)) }
{
    popped == nominal && (popped == 0 || depth == 0)
}

/// Why a call is refused before the loads of its results: its registers (`BadRegister`), the stack sizes (`BadStackState`), or the labels of
/// its handlers (`UnboundLabel`), in this order.
pub fn call_cause(
    blocks: u32,
    state: &EmitState,
    depth: u32,
    link: &Reg,
    info: &CallInfo,
) -> Option<EmitError>
    ensures { result
        ≡ call_cause blocks state.now.nominal depth (calling state.now link.now info.now) }
{
    if !can_call(link, &info.dest) {
        return Some(EmitError::BadRegister);
    }
    if !may_pop(state.nominal(), depth, info.callee_pop_size) {
        return Some(EmitError::BadStackState);
    }
    sites_cause(blocks, info)
}

/// How many bytes a call of this target has.
pub fn call_size(dest: &CallInstDest) -> u64
    ensures value { result ≡ call_size dest.now }
    ensures few { result ≤ 6 }
{
    match dest {
        CallInstDest::Direct { .. } => 6,
        CallInstDest::Indirect { .. } => 2,
    }
}

/// The state in which a call's results are loaded: the callee has taken its arguments, and the results lie below.
pub fn behind_call(state: &EmitState, popped: u32) -> EmitState
    ensures { result ≡ behind_call state.now popped }
{
    let mut behind = *state;
    behind.set_nominal(state.nominal().saturating_sub(popped));
    behind.set_outgoing(popped);
    behind
}

// ---- the call itself

// BRANCH RELATIVE AND SAVE LONG to a symbol, to which linking fills in the distance.
fn put_call_symbol(sink: &mut MachBuffer, link: Reg, name: ExternalName) -> Result<(), EmitError>
    ensures answer { OnOk result
        (sink.new
        ≡ apply_all sink.old (part_fragments (CallSymbol (Some (number_of link)) name ∷ []))) }
    ensures only_memory { put_cause sink.old 6 ≡ None → is_general link ≡ true
        → OnlyOutOfMemory result }
    ensures kept { Extends sink.old sink.new }
{
    let code = enc_ril_b(opcodes::BRASL, link, 0)?;
    let field = sink.cur_offset() + 2;
    sink.add_reloc_at_offset(field, Reloc::S390xPLTRel32Dbl, name, 2)?;
    sink.put_code(&code)
}

// BRANCH AND SAVE to the address in a register, which is read before the return place is written.
fn put_call_register(sink: &mut MachBuffer, link: Reg, reg: Reg) -> Result<(), EmitError>
    ensures answer { OnOk result
        (sink.new ≡ apply_all sink.old (part_fragments (call_part link (Indirect reg) ∷ []))) }
    ensures only_memory { put_cause sink.old 2 ≡ None → is_general link ≡ true
        → is_general reg ≡ true → OnlyOutOfMemory result }
    ensures kept { Extends sink.old sink.new }
{
    let code = enc_rr(opcodes::BASR, link, reg)?;
    sink.put_code(&code)
}

// The machine instruction of a call.
fn put_call(sink: &mut MachBuffer, link: Reg, dest: &CallInstDest) -> Result<(), EmitError>
    ensures answer { OnOk result
        (sink.new ≡ apply_all sink.old (part_fragments (call_part link dest.now ∷ []))) }
    ensures only_memory { put_cause sink.old (call_size dest.now) ≡ None → is_general link ≡ true
        → is_target dest.now ≡ true → OnlyOutOfMemory result }
    ensures kept { Extends sink.old sink.new }
{
    match dest {
        CallInstDest::Direct { name } => put_call_symbol(sink, link, *name),
        CallInstDest::Indirect { reg } => put_call_register(sink, link, *reg),
    }
}

// ---- what is recorded at its return place

// The stack map, where there is one.
fn record_map(sink: &mut MachBuffer, stack_map: Option<u32>) -> Result<(), EmitError>
    ensures answer { OnOk result
        (sink.new ≡ apply_all sink.old (part_fragments (site_parts (map_site stack_map)))) }
    ensures only_memory { sink.old.is_poisoned ≡ false → OnlyOutOfMemory result }
    ensures kept { Extends sink.old sink.new }
{
    match stack_map {
        Some(map) => {
            let offset = sink.cur_offset();
            sink.push_user_stack_map(offset, map)
        }
        None => Ok(()),
    }
}

fn push_handlers(alloc: Global, handlers: &[TryCallHandler]) -> Result<Vec<TryHandler>, AllocError>
    ensures { IfOk result (λ entries. entries.items ≡ map handler_of handlers.now) }
{
    let mut entries = Vec::new(alloc);
    for handler in handlers {
        entries.push(handler_of(handler))?;
    }
    Ok(entries)
}

// A call with handlers.
fn record_try(
    alloc: Global,
    sink: &mut MachBuffer,
    layout: &FrameLayout,
    info: &TryCallInfo,
) -> Result<(), EmitError>
    ensures answer { OnOk result
        (sink.new
        ≡ apply_all sink.old
        (part_fragments (site_parts (return_site layout.now (Some info.now) ∷ [])))) }
    ensures only_memory { (blocks : ℕ) → sink.old.is_poisoned ≡ false
        → blocks ≤ length sink.old.labels
        → labels_cause blocks (site_labels (return_site layout.now (Some info.now) ∷ [])) ≡ None
        → OnlyOutOfMemory result }
    ensures kept { Extends sink.old sink.new }
{
    match push_handlers(alloc, &info.exception_handlers) {
        Ok(handlers) => sink.add_try_call_site(layout.sp_to_fp(), &handlers),
        Err(_) => Err(EmitError::NoMemory),
    }
}

// The call's own site: one with handlers, where it has a try.
fn record_return(
    alloc: Global,
    sink: &mut MachBuffer,
    layout: &FrameLayout,
    info: &Option<TryCallInfo>,
) -> Result<(), EmitError>
    ensures answer { OnOk result
        (sink.new
        ≡ apply_all sink.old
        (part_fragments (site_parts (return_site layout.now info.now ∷ [])))) }
    ensures only_memory { (blocks : ℕ) → sink.old.is_poisoned ≡ false
        → blocks ≤ length sink.old.labels
        → labels_cause blocks (site_labels (return_site layout.now info.now ∷ [])) ≡ None
        → OnlyOutOfMemory result }
    ensures kept { Extends sink.old sink.new }
{
    match info {
        Some(info) => record_try(alloc, sink, layout, info),
        None => sink.add_call_site(),
    }
}

// Besides, that the call may be patched.
fn record_patchable(
    sink: &mut MachBuffer,
    patchable: bool,
    dest: &CallInstDest,
) -> Result<(), EmitError>
    ensures answer { OnOk result
        (sink.new
        ≡ apply_all sink.old
        (part_fragments (site_parts (patchable_site patchable dest.now)))) }
    ensures only_memory { sink.old.is_poisoned ≡ false → OnlyOutOfMemory result }
    ensures kept { Extends sink.old sink.new }
{
    if patchable {
        sink.add_patchable_call_site(call_size(dest) as u32)
    } else {
        Ok(())
    }
}

// What is recorded at a call's return place.
fn record_sites(
    alloc: Global,
    sink: &mut MachBuffer,
    state: &EmitState,
    info: &CallInfo,
) -> Result<(), EmitError>
    ensures answer { OnOk result
        (sink.new
        ≡ apply_all sink.old (part_fragments (site_parts (sites_of state.now info.now)))) }
    ensures only_memory { (blocks : ℕ) → sink.old.is_poisoned ≡ false
        → blocks ≤ length sink.old.labels
        → labels_cause blocks (site_labels (sites_of state.now info.now)) ≡ None
        → OnlyOutOfMemory result }
    ensures kept { Extends sink.old sink.new }
{
    let mut here = *state;
    record_map(sink, here.take_stack_map())?;
    record_return(alloc, sink, state.frame_layout(), &info.try_call_info)?;
    record_patchable(sink, info.patchable, &info.dest)
}

// The call with its sites.
fn put_call_step(
    alloc: Global,
    sink: &mut MachBuffer,
    state: &EmitState,
    link: &Reg,
    info: &CallInfo,
) -> Result<(), EmitError>
    ensures answer { OnOk result
        (sink.new
        ≡ apply_all sink.old
        (part_fragments (step_parts (CallingStep (calling state.now link.now info.now))))) }
    ensures only_memory { (blocks : ℕ) → put_cause sink.old (call_size info.now.dest) ≡ None
        → blocks ≤ length sink.old.labels → is_general link.now ≡ true
        → is_target info.now.dest ≡ true
        → labels_cause blocks (site_labels (sites_of state.now info.now)) ≡ None
        → OnlyOutOfMemory result }
    ensures kept { Extends sink.old sink.new }
{
    put_call(sink, *link, &info.dest)?;
    record_sites(alloc, sink, state, info)
}

// Emits a call and records its sites, where no cause refuses it.
fn emit_call_step(
    alloc: Global,
    sink: &mut MachBuffer,
    state: &EmitState,
    depth: u32,
    link: &Reg,
    info: &CallInfo,
) -> Result<(), EmitError>
    ensures cause { OnOk result
        (call_cause sink.old.block_count state.now.nominal depth
        (calling state.now link.now info.now) ≡ None) }
    ensures answer { OnOk result
        (sink.new
        ≡ apply_all sink.old
        (part_fragments (step_parts (CallingStep (calling state.now link.now info.now))))) }
    ensures only_memory { (after : ℕ)
        → MembersFit sink.old after depth
        (step_size (CallingStep (calling state.now link.now info.now)))
        (call_cause sink.old.block_count state.now.nominal depth
        (calling state.now link.now info.now)) → OnlyOutOfMemory result }
    ensures kept { Extends sink.old sink.new }
{
    match call_cause(sink.block_count(), state, depth, link, info) {
        Some(error) => Err(error),
        None => put_call_step(alloc, sink, state, link, info),
    }
}

// ---- the steps behind it

// One more step, of an instruction, where no cause refuses it.
fn emit_step(
    context: Context,
    sink: &mut MachBuffer,
    state: &EmitState,
    inst: &Inst,
) -> Result<(), EmitError>
    requires { HasRoom sink.old }
    ensures { Emits context.flags sink.old sink.new context.after.0 context.depth
        state.now.nominal (nominal_after state.now.nominal inst.now)
        (Whole (resolved_instruction state.now inst.now) ∷ []) result }
{
    sink.start_step()?;
    emit_leaf(
        context.flags,
        sink,
        state,
        context.depth,
        inst,
        context.after,
    )
}

// Instructions, each as a step, where no cause refuses one.
fn emit_steps(
    context: Context,
    sink: &mut MachBuffer,
    state: &EmitState,
    insts: &[Inst],
) -> Result<(), EmitError>
    requires room { HasRoom sink.old }
    requires keep { AllKeepNominal insts.now }
    ensures { Emits context.flags sink.old sink.new context.after.0 context.depth
        state.now.nominal state.now.nominal
        (wholes state.now insts.now) result }
{
    for inst in insts {
        emit_step(context, sink, state, inst)?;
    }
    Ok(())
}

/// The load of a result that comes back on the stack; None for one in a register, and where its type has none.
pub fn load_result(def: &CallRetPair) -> Option<Inst>
    ensures { result ≡ load_from def.now.vreg def.now.location }
{
    match def.location {
        RetLocation::Reg(_, _) => None,
        RetLocation::Stack(off, ty) => {
            Inst::gen_load(def.vreg, MemArg::OutgoingArgOffset { off }, ty)
        }
    }
}

// The load of a result that comes back on the stack, where no cause refuses it; one whose type has no load is refused.
fn emit_result(
    context: Context,
    sink: &mut MachBuffer,
    state: &EmitState,
    def: &CallRetPair,
) -> Result<(), EmitError>
    requires { HasRoom sink.old }
    ensures { Emits context.flags sink.old sink.new context.after.0 context.depth
        state.now.nominal state.now.nominal
        (load_before state.now def.now.vreg def.now.location []) result }
{
    let RetLocation::Stack(_, _) = def.location else {
        return Ok(());
    };
    match load_result(def) {
        Some(load) => emit_step(context, sink, state, &load),
        None => Err(EmitError::BadOperator),
    }
}

// The loads of a call's results, one by one.
fn emit_results(
    context: Context,
    sink: &mut MachBuffer,
    state: &EmitState,
    defs: &[CallRetPair],
) -> Result<(), EmitError>
    requires { HasRoom sink.old }
    ensures { Emits context.flags sink.old sink.new context.after.0 context.depth
        state.now.nominal state.now.nominal
        (load_bodies state.now defs.now) result }
{
    for def in defs {
        emit_result(context, sink, state, def)?;
    }
    Ok(())
}

// The loads of a call that isn't patchable.
fn emit_loads(
    context: Context,
    sink: &mut MachBuffer,
    behind: &EmitState,
    info: &CallInfo,
) -> Result<(), EmitError>
    requires { HasRoom sink.old }
    ensures { (state : Emission) → behind.now ≡ behind_call state info.now.callee_pop_size
        → Emits context.flags sink.old sink.new context.after.0 context.depth
        behind.now.nominal behind.now.nominal (result_bodies state info.now) result }
{
    if info.patchable {
        Ok(())
    } else {
        emit_results(context, sink, behind, &info.defs)
    }
}

// The jump to where a call with a try goes on.
fn emit_continuation(
    context: Context,
    sink: &mut MachBuffer,
    state: &EmitState,
    info: &Option<TryCallInfo>,
) -> Result<(), EmitError>
    requires { HasRoom sink.old }
    ensures { Emits context.flags sink.old sink.new context.after.0 context.depth
        state.now.nominal state.now.nominal
        (continuation_bodies info.now) result }
{
    match info {
        Some(info) => {
            let jump = Inst::Jump {
                dest: info.continuation,
            };
            emit_step(context, sink, state, &jump)
        }
        None => Ok(()),
    }
}

/// Emits a call, the loads of its results, and the jump of its try, where no cause refuses one; the first step has its place already. An error may
/// be another one than the first cause.
pub fn emit_call(
    alloc: Global,
    context: Context,
    sink: &mut MachBuffer,
    state: &EmitState,
    link: Reg,
    info: &CallInfo,
) -> Result<(), EmitError>
    requires { HasRoom sink.old }
    ensures { EmitsOwn context.flags sink.old sink.new context.after.0 context.depth
        state.now.nominal (leaves (call_bodies state.now link info.now) empty) result }
{
    emit_call_step(alloc, sink, state, context.depth, &link, info)?;
    let behind = behind_call(state, info.callee_pop_size);
    emit_loads(context, sink, &behind, info)?;
    emit_continuation(context, sink, &behind, &info.try_call_info)
}

// ---- a tail call

// Whether an offset from a register needs `%r1`, where the rows have these forms.
fn is_offset_helped(mi: MemInstType, off: i64) -> bool
    ensures { (reg : Reg) (flags : AccessFlags)
        → result ≡ is_helped (finalized_operand mi (RegOffset reg off flags)).helpers }
{
    if 0 <= off && off <= 4095 {
        false
    } else if -524288 <= off && off <= 524287 {
        !mi.have_d20
    } else {
        -2147483648 <= off && off <= 2147483647
    }
}

// Whether an operand needs `%r1`, where the rows have these forms.
fn is_operand_helped(mi: MemInstType, operand: &MemArg) -> bool
    ensures { result ≡ is_helped (finalized_operand mi operand.now).helpers }
{
    match operand {
        MemArg::RegOffset { off, .. } => is_offset_helped(mi, *off),
        _ => needs_address(mi, operand),
    }
}

// Whether an instruction needs `%r1` for its operand.
fn is_access_helped(inst: &Inst) -> bool
    ensures { result ≡ is_access_helped (memory inst.now) }
{
    match memory_rows(inst) {
        Some(found) => is_operand_helped(found.rows.forms(found.accesses), &found.operand),
        None => false,
    }
}

// Whether one of the instructions does.
fn any_helped(insts: &[Inst]) -> bool
    ensures { result ≡ any_helped insts.now }
{
    for inst in insts {
        if is_access_helped(inst) {
            return true;
        }
    }
    false
}

// Whether the target stands in `%r1` before the jump.
fn stands_in_scratch(dest: &CallInstDest, copied: &Option<Reg>) -> bool
    requires { copied.now ≡ copied_target dest.now }
    ensures { result ≡ stands_in_scratch dest.now }
{
    match dest {
        CallInstDest::Direct { .. } => false,
        CallInstDest::Indirect { reg } => copied.is_some() || is_numbered(1, reg),
    }
}

// Where the target stands before the jump.
fn jump_target(dest: &CallInstDest, copied: &Option<Reg>) -> CallInstDest
    ensures { result ≡ copied_or copied.now dest.now }
{
    match copied {
        Some(reg) => CallInstDest::Indirect { reg: *reg },
        None => *dest,
    }
}

// Whether the saved general registers are none, or begin at one of 6 to 14.
fn is_first_saved(first_saved_gpr: Option<u8>) -> bool
    ensures { result ≡ is_first_saved first_saved_gpr }
{
    match first_saved_gpr {
        Some(first) => 6 <= first && first <= 14,
        None => true,
    }
}

// Whether a tail call has a target and saved registers that may stand there.
fn can_open(dest: &CallInstDest, first_saved_gpr: Option<u8>) -> bool
    ensures { result ≡ (is_target dest.now && is_first_saved first_saved_gpr) }
{
    is_target(dest) && is_first_saved(first_saved_gpr)
}

// Whether taking the frame down overwrites the target.
fn loses_target(dest: &CallInstDest, copied: &Option<Reg>, insts: &[Inst]) -> bool
    requires { copied.now ≡ copied_target dest.now }
    ensures { result ≡ (stands_in_scratch dest.now && any_helped insts.now) }
{
    stands_in_scratch(dest, copied) && any_helped(insts)
}

// What takes the frame down, and where the target then stands, unless it is lost.
fn keep_target(
    insts: Vec<Inst>,
    copied: &Option<Reg>,
    dest: &CallInstDest,
) -> Result<(Vec<Inst>, CallInstDest), EmitError>
    requires { copied.now ≡ copied_target dest.now }
    ensures { MatchResult result
        (λ r. ((stands_in_scratch dest.now && any_helped insts.items) ≡ false)
        × (r.0.items ≡ insts.items) × (r.1 ≡ jump_target dest.now))
        (λ e. ((stands_in_scratch dest.now && any_helped insts.items) ≡ true)
        × (e ≡ ScratchConflict)) }
{
    if loses_target(dest, copied, &insts) {
        Err(EmitError::ScratchConflict)
    } else {
        Ok((insts, jump_target(dest, copied)))
    }
}

// The instructions that take a frame down, and the target of the jump behind them, for a target and saved registers that may stand there.
fn take_down(
    alloc: Global,
    layout: &FrameLayout,
    popped: u32,
    dest: &CallInstDest,
) -> Result<(Vec<Inst>, CallInstDest), EmitError>
    requires { is_first_saved layout.now.first_saved_gpr ≡ true }
    ensures { let is_lost = loses_target layout.now popped dest.now in
        MatchResult result
        (λ r. (is_lost ≡ false) × (r.0.items ≡ epilogue layout.now popped dest.now)
        × (r.1 ≡ jump_target dest.now))
        (λ e. (e ≡ NoMemory) ⊎ ((is_lost ≡ true) × (e ≡ ScratchConflict))) }
{
    match gen_tail_epilogue(alloc, layout, popped, dest) {
        Ok((insts, copied)) => keep_target(insts, &copied, dest),
        Err(_) => Err(EmitError::NoMemory),
    }
}

/// What takes the frame down before a tail call, and where its target then stands. Refused by `BadRegister` where the target can't be called or the
/// saved registers begin at none of 6 to 14, by `ScratchConflict` where the target is lost, and by want of memory.
pub fn open_tail_call(
    alloc: Global,
    layout: &FrameLayout,
    popped: u32,
    dest: &CallInstDest,
) -> Result<(Vec<Inst>, CallInstDest), EmitError>
    ensures { let cause = tail_cause dest.now layout.now.first_saved_gpr
        (loses_target layout.now popped dest.now) in
        MatchResult result
        (λ r. (cause ≡ None) × (r.0.items ≡ epilogue layout.now popped dest.now)
        × (r.1 ≡ jump_target dest.now)) (λ e. (e ≡ NoMemory) ⊎ (cause ≡ Some e)) }
{
    if can_open(dest, layout.first_saved_gpr) {
        take_down(alloc, layout, popped, dest)
    } else {
        Err(EmitError::BadRegister)
    }
}

// BRANCH RELATIVE ON CONDITION LONG to a symbol, always; linking fills in the distance.
fn put_jump_symbol(sink: &mut MachBuffer, name: ExternalName) -> Result<(), EmitError>
    ensures answer { OnOk result
        (sink.new ≡ apply_all sink.old (part_fragments (CallSymbol None name ∷ []))) }
    ensures only_memory { put_cause sink.old 6 ≡ None → OnlyOutOfMemory result }
    ensures kept { Extends sink.old sink.new }
{
    let code = enc_ril_c(opcodes::BRCL, 15, 0)?;
    let field = sink.cur_offset() + 2;
    sink.add_reloc_at_offset(field, Reloc::S390xPLTRel32Dbl, name, 2)?;
    sink.put_code(&code)
}

// The jump of a tail call.
fn put_tail(sink: &mut MachBuffer, dest: &CallInstDest) -> Result<(), EmitError>
    ensures answer { OnOk result
        (sink.new ≡ apply_all sink.old (part_fragments (tail_part dest.now ∷ []))) }
    ensures only_memory { put_cause sink.old (call_size dest.now) ≡ None → is_target dest.now ≡ true
        → OnlyOutOfMemory result }
    ensures kept { Extends sink.old sink.new }
{
    match dest {
        CallInstDest::Direct { name } => put_jump_symbol(sink, *name),
        CallInstDest::Indirect { reg } => emit_branch_register(sink, *reg),
    }
}

// The jump of a tail call as a step, with its site behind it.
fn emit_tail_jump(sink: &mut MachBuffer, dest: &CallInstDest) -> Result<(), EmitError>
    requires { is_target dest.now ≡ true }
    ensures { (flags : IsaFlags) (after depth nominal : ℕ)
        → Emits flags sink.old sink.new after depth nominal nominal (TailJump dest.now ∷ [])
        result }
{
    sink.start_step()?;
    put_tail(sink, dest)?;
    sink.add_call_site()
}

/// Emits what takes the frame down before a tail call, and its jump, where no cause refuses a step; the first step has its place already, and no bytes.
/// An error may be another one than the first cause.
pub fn emit_tail_call(
    alloc: Global,
    context: Context,
    sink: &mut MachBuffer,
    state: &EmitState,
    info: &ReturnCallInfo<CallInstDest>,
) -> Result<(), EmitError>
    requires { HasRoom sink.old }
    ensures { EmitsOwn context.flags sink.old sink.new context.after.0 context.depth
        state.now.nominal
        (leaves (tail_bodies state.now info.now.callee_pop_size info.now.dest) empty) result }
{
    let (insts, dest) = open_tail_call(
        alloc,
        state.frame_layout(),
        info.callee_pop_size,
        &info.dest,
    )?;
    emit_steps(context, sink, state, &insts)?;
    emit_tail_jump(sink, &dest)
}
