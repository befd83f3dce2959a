//! The texts of calls and tail calls.
ghost use Rattle.std.specs.Prelude.{◌≡◌, ◌+◌, pos, ◌-ℤ◌, ◌++◌, codes, OnOk, IfOk, None, string_bytes, true};
ghost use Rattle.std.specs.Fmt.{decimal};
ghost use Rattle.s390x_base.specs.Registers.{general};
ghost use Rattle.s390x_inst.specs.Frames.{above_stack, load_from, copied_target};
ghost use Rattle.s390x_text_rows.specs.Texts.{Prints, before_semicolon};
ghost use Rattle.s390x_text_rows.specs.Simple.{simple_text};
ghost use Rattle.s390x_text.specs.Calls.{branch_and_link_text, popped_text, loaded_text, result_text, results_text, loads_text, handler_text, more_handlers, handlers_text, try_text, plain_call_text, is_first_saved, simple_texts, stack_raise, is_only_raised, epilogue_text, tail_branch_text, tail_call_text};

use s390x_base::{MachMemFlags, Reg, stack_reg, writable_stack_reg};
use s390x_inst::{
    CallInfo, CallInstDest, CallRetPair, EmitState, FrameLayout, Inst, MachInstEmitState, MemArg,
    RetLocation, ReturnCallInfo, TryCallHandler, TryCallInfo, gen_tail_epilogue,
};
use s390x_text_rows::{Operand, TextError, put, put_natural, put_simple, spelled1, spelled2};
use std::alloc::{AllocError, Global};

// The branch of a call.
fn put_branch_and_link(out: &mut String, link: Reg, dest: &CallInstDest) -> Result<(), AllocError>
    ensures { OnOk result
        (string_bytes out.new ≡ string_bytes out.old ++ branch_and_link_text link dest.now) }
{
    match dest {
        CallInstDest::Direct { name } => spelled2(out, "brasl", &link, name),
        CallInstDest::Indirect { reg } => spelled2(out, "basr", &link, reg),
    }
}

// How many bytes of arguments the callee takes.
fn put_pop_size(out: &mut String, size: u32) -> Result<(), AllocError>
    ensures { OnOk result
        (string_bytes out.new
        ≡ string_bytes out.old ++ (codes " ; callee_pop_size " ++ decimal size)) }
{
    put(out, " ; callee_pop_size ")?;
    put_natural(out, u64::from(size))
}

// How many bytes of arguments the callee takes, where it takes any.
fn put_popped(out: &mut String, size: u32) -> Result<(), AllocError>
    ensures { OnOk result (string_bytes out.new ≡ string_bytes out.old ++ popped_text size) }
{
    if size == 0 {
        Ok(())
    } else {
        put_pop_size(out, size)
    }
}

// A load behind a semicolon; `NoRow` where there is none.
fn put_loaded(
    alloc: Global,
    out: &mut String,
    state: &EmitState,
    load: &Option<Inst>,
) -> Result<(), TextError>
    ensures { Prints result (string_bytes out.old) (string_bytes out.new)
        (loaded_text state.now load.now) }
{
    match load {
        None => Err(TextError::NoRow),
        Some(inst) => {
            put(out, " ; ")?;
            put_simple(alloc, out, true, state, inst)
        }
    }
}

// The load of a result from the stack; None for one in a register, or of a type without a load.
fn result_load(def: &CallRetPair) -> Option<Inst>
    ensures { result ≡ load_from def.now.vreg def.now.location }
{
    match def.location {
        RetLocation::Reg(_, _) => None,
        RetLocation::Stack(off, ty) => {
            Inst::gen_load(def.vreg, MemArg::OutgoingArgOffset { off }, ty)
        }
    }
}

// The load of a result that comes back on the stack.
fn put_result(
    alloc: Global,
    out: &mut String,
    state: &EmitState,
    def: &CallRetPair,
) -> Result<(), TextError>
    ensures { Prints result (string_bytes out.old) (string_bytes out.new)
        (result_text state.now def.now) }
{
    match def.location {
        RetLocation::Reg(_, _) => Ok(()),
        RetLocation::Stack(_, _) => {
            let load = result_load(def);
            put_loaded(alloc, out, state, &load)
        }
    }
}

fn put_results(
    alloc: Global,
    out: &mut String,
    state: &EmitState,
    defs: &[CallRetPair],
) -> Result<(), TextError>
    ensures { Prints result (string_bytes out.old) (string_bytes out.new)
        (results_text state.now defs.now) }
{
    for def in defs {
        put_result(alloc, out, state, def)?;
    }
    Ok(())
}

// The state in which the results of a call are loaded.
fn popped_state(state: &EmitState, size: u32) -> EmitState
    ensures { result ≡ record state.now { nominal = 0; outgoing = size } }
{
    let mut popped = *state;
    popped.set_nominal(0);
    popped.set_outgoing(size);
    popped
}

// The loads of a call's results; none of a patchable call.
fn put_loads(
    alloc: Global,
    out: &mut String,
    state: &EmitState,
    info: &CallInfo,
) -> Result<(), TextError>
    ensures { Prints result (string_bytes out.old) (string_bytes out.new)
        (loads_text state.now info.now) }
{
    if info.patchable {
        return Ok(());
    }
    let popped = popped_state(state, info.callee_pop_size);
    put_results(alloc, out, &popped, &info.defs)
}

fn put_handler(out: &mut String, handler: &TryCallHandler) -> Result<(), AllocError>
    ensures { OnOk result
        (string_bytes out.new ≡ string_bytes out.old ++ handler_text handler.now) }
{
    match handler {
        TryCallHandler::Tag { tag, label } => {
            put(out, "tag")?;
            put_natural(out, u64::from(*tag))?;
            put(out, ": ")?;
            label.put(out)
        }
        TryCallHandler::Default { label } => {
            put(out, "default: ")?;
            label.put(out)
        }
    }
}

// A handler behind a comma.
fn put_another(out: &mut String, handler: &TryCallHandler) -> Result<(), AllocError>
    ensures { OnOk result
        (string_bytes out.new
        ≡ string_bytes out.old ++ (codes ", " ++ handler_text handler.now)) }
{
    put(out, ", ")?;
    put_handler(out, handler)
}

fn put_more_handlers(out: &mut String, handlers: &[TryCallHandler]) -> Result<(), AllocError>
    ensures { OnOk result
        (string_bytes out.new ≡ string_bytes out.old ++ more_handlers handlers.now) }
{
    for handler in handlers {
        put_another(out, handler)?;
    }
    Ok(())
}

fn put_handlers(out: &mut String, handlers: &[TryCallHandler]) -> Result<(), AllocError>
    ensures { OnOk result
        (string_bytes out.new ≡ string_bytes out.old ++ handlers_text handlers.now) }
{
    match handlers {
        [] => Ok(()),
        [first, rest @ ..] => {
            put_handler(out, first)?;
            put_more_handlers(out, rest)
        }
    }
}

// Where a call with handlers goes on.
fn put_try(out: &mut String, info: &Option<TryCallInfo>) -> Result<(), AllocError>
    ensures { OnOk result (string_bytes out.new ≡ string_bytes out.old ++ try_text info.now) }
{
    match info {
        None => Ok(()),
        Some(t) => {
            put(out, "; jg ")?;
            t.continuation.put(out)?;
            put(out, "; catch [")?;
            put_handlers(out, &t.exception_handlers)?;
            put(out, "]")
        }
    }
}

// A call's branch, and the bytes that it pops.
fn put_call_head(out: &mut String, link: Reg, info: &CallInfo) -> Result<(), AllocError>
    ensures { OnOk result
        (string_bytes out.new
        ≡ string_bytes out.old
        ++ (branch_and_link_text link info.now.dest ++ popped_text info.now.callee_pop_size)) }
{
    put_branch_and_link(out, link, &info.dest)?;
    put_popped(out, info.callee_pop_size)
}

/// Appends the text of a call. `NoRow` where a result on the stack that has to be loaded is an `I8X8`.
#[inline(always)]
pub fn put_plain_call(
    alloc: Global,
    out: &mut String,
    state: &EmitState,
    link: Reg,
    info: &CallInfo,
) -> Result<(), TextError>
    ensures { Prints result (string_bytes out.old) (string_bytes out.new)
        (plain_call_text state.now link info.now) }
{
    put_call_head(out, link, info)?;
    put_loads(alloc, out, state, info)?;
    Ok(put_try(out, &info.try_call_info)?)
}

// Whether a frame saves no general register, or those from one of 6 to 14 on.
fn is_first_saved(first: Option<u8>) -> bool
    ensures { result ≡ is_first_saved first }
{
    match first {
        None => true,
        Some(g) => 6 <= g && g <= 14,
    }
}

// An instruction before a semicolon.
fn put_before(
    alloc: Global,
    out: &mut String,
    state: &EmitState,
    inst: &Inst,
) -> Result<(), TextError>
    ensures { Prints result (string_bytes out.old) (string_bytes out.new)
        (before_semicolon (simple_text true state.now inst.now)) }
{
    put_simple(alloc, out, true, state, inst)?;
    Ok(put(out, " ; ")?)
}

fn put_simples(
    alloc: Global,
    out: &mut String,
    state: &EmitState,
    insts: &[Inst],
) -> Result<(), TextError>
    ensures { Prints result (string_bytes out.old) (string_bytes out.new)
        (simple_texts state.now insts.now) }
{
    for inst in insts {
        put_before(alloc, out, state, inst)?;
    }
    Ok(())
}

// What sets the stack pointer so many bytes higher and lower: the sizes of a frame and of the tail arguments, and the popped bytes.
fn raise_of_sizes(outgoing: u32, fixed: u32, clobbers: u32, tail: u32, popped: u32) -> Inst
    ensures { result
        ≡ Inst.LoadAddr (Reg.Real (general 15))
        (above_stack (pos (outgoing + fixed + clobbers + tail) -ℤ pos popped)) }
{
    let raised = u64::from(outgoing) + u64::from(fixed) + u64::from(clobbers) + u64::from(tail);
    let off = raised as i64 - i64::from(popped);
    Inst::LoadAddr {
        rd: writable_stack_reg(),
        mem: MemArg::reg_plus_off(stack_reg(), off, MachMemFlags::trusted()),
    }
}

// What sets the stack pointer to the caller's frame.
fn stack_raise(layout: &FrameLayout, popped: u32) -> Inst
    ensures { result ≡ stack_raise layout.now popped }
{
    raise_of_sizes(
        layout.outgoing_args_size,
        layout.fixed_frame_storage_size,
        layout.clobber_size,
        layout.tail_args_size,
        popped,
    )
}

// Whether a frame saves no registers, and the target is a symbol: then the stack pointer alone is set.
fn is_only_raised(layout: &FrameLayout, dest: &CallInstDest) -> bool
    ensures { result ≡ is_only_raised layout.now dest.now }
{
    match dest {
        CallInstDest::Direct { .. } => layout.saved_fprs == 0 && layout.first_saved_gpr.is_none(),
        CallInstDest::Indirect { .. } => false,
    }
}

// Sets the stack pointer alone before a tail call; no target is copied.
fn put_short_epilogue(
    alloc: Global,
    out: &mut String,
    state: &EmitState,
    popped: u32,
) -> Result<Option<Reg>, TextError>
    ensures answer { Prints result (string_bytes out.old) (string_bytes out.new)
        (before_semicolon (simple_text true state.now (stack_raise state.now.layout popped))) }
    ensures copied { IfOk result (λ copied. copied ≡ None) }
{
    let raise = stack_raise(state.frame_layout(), popped);
    put_before(alloc, out, state, &raise)?;
    Ok(None)
}

// What takes the frame down before a tail call, by its list; the register to which the target is copied.
fn put_listed_epilogue(
    alloc: Global,
    out: &mut String,
    state: &EmitState,
    popped: u32,
    dest: &CallInstDest,
) -> Result<Option<Reg>, TextError>
    ensures answer { Prints result (string_bytes out.old) (string_bytes out.new)
        (epilogue_text state.now popped dest.now) }
    ensures copied { IfOk result (λ copied. copied ≡ copied_target dest.now) }
{
    let layout = *state.frame_layout();
    if !is_first_saved(layout.first_saved_gpr) {
        return Err(TextError::NoRow);
    }
    match gen_tail_epilogue(alloc, &layout, popped, dest) {
        Ok((insts, copied)) => {
            put_simples(alloc, out, state, insts.as_slice())?;
            Ok(copied)
        }
        Err(_) => Err(TextError::NoMemory),
    }
}

// What takes the frame down before a tail call; the register to which the target is copied. A frame that saves nothing, as most do, needs no list.
#[tactic(auto, using(crate::proofs::Epilogues::only_raised, crate::proofs::Epilogues::none_copied))]
fn put_epilogue(
    alloc: Global,
    out: &mut String,
    state: &EmitState,
    popped: u32,
    dest: &CallInstDest,
) -> Result<Option<Reg>, TextError>
    ensures answer { Prints result (string_bytes out.old) (string_bytes out.new)
        (epilogue_text state.now popped dest.now) }
    ensures copied { IfOk result (λ copied. copied ≡ copied_target dest.now) }
{
    if is_only_raised(state.frame_layout(), dest) {
        put_short_epilogue(alloc, out, state, popped)
    } else {
        put_listed_epilogue(alloc, out, state, popped, dest)
    }
}

// The branch of a tail call.
fn put_tail_branch(
    out: &mut String,
    dest: &CallInstDest,
    copied: Option<Reg>,
) -> Result<(), AllocError>
    ensures { OnOk result
        (string_bytes out.new ≡ string_bytes out.old ++ tail_branch_text dest.now copied) }
{
    match (dest, copied) {
        (CallInstDest::Direct { name }, _) => spelled1(out, "jg", name),
        (CallInstDest::Indirect { .. }, Some(copy)) => spelled1(out, "br", &copy),
        (CallInstDest::Indirect { reg }, None) => spelled1(out, "br", reg),
    }
}

// The branch of a tail call, and the bytes that it pops.
fn put_tail(
    out: &mut String,
    dest: &CallInstDest,
    copied: Option<Reg>,
    popped: u32,
) -> Result<(), AllocError>
    ensures { OnOk result
        (string_bytes out.new
        ≡ string_bytes out.old ++ (tail_branch_text dest.now copied ++ popped_text popped)) }
{
    put_tail_branch(out, dest, copied)?;
    put_popped(out, popped)
}

/// Appends the text of a tail call. `NoRow` where its frame saves general registers from one outside 6 to 14 on.
#[inline(never)]
pub fn put_tail_call(
    alloc: Global,
    out: &mut String,
    state: &EmitState,
    info: &ReturnCallInfo<CallInstDest>,
) -> Result<(), TextError>
    ensures { Prints result (string_bytes out.old) (string_bytes out.new)
        (tail_call_text state.now info.now) }
{
    let copied = put_epilogue(alloc, out, state, info.callee_pop_size, &info.dest)?;
    Ok(put_tail(out, &info.dest, copied, info.callee_pop_size)?)
}
