//! The text of an instruction.
ghost use Rattle.std.specs.Prelude.{◌≡◌, ◌+◌, ◌==◌, ◌++◌, length, codes, not, None, IfOk, OnOk, OnErr, MatchResult, string_bytes};
ghost use Rattle.s390x_text_rows.specs.Texts.{RefusedBy, Prints, before_semicolon};
ghost use Rattle.s390x_text_rows.specs.Operands.{cond_text};
ghost use Rattle.s390x_text_rows.specs.Simple.{simple_text};
ghost use Rattle.s390x_text.specs.Calls.{plain_call_text};
ghost use Rattle.s390x_text.specs.Instructions.{leaf_text, leaf_after, after, insts_after, inst_text, insts_text, text_of_loop, back_text};

use crate::calls::{put_plain_call, put_tail_call};
use s390x_base::{Cond, Reg, Writable};
use s390x_inst::{CallInfo, EmitInfo, EmitState, Inst, IsaFlags};
use s390x_text_rows::{TextError, cond_name, put, put_simple};
use std::alloc::{AllocError, Global};

/// What stands around instructions: the machine's facilities, and how many loops they stand in.
#[derive(Clone, Copy)]
pub struct Context {
    pub flags: IsaFlags,
    pub depth: u32,
}

// Appends the text of a call, and goes on to the state behind it.
#[inline(never)]
fn put_called(
    alloc: Global,
    out: &mut String,
    state: &mut EmitState,
    link: &Writable<Reg>,
    info: &CallInfo,
) -> Result<(), TextError>
    ensures answer { Prints result (string_bytes out.old) (string_bytes out.new)
        (plain_call_text state.old link.now info.now) }
    ensures after { IfOk result (λ _. state.new ≡ record state.old { nominal = 0; outgoing = 0 }) }
{
    put_plain_call(alloc, out, state, link.to_reg(), info)?;
    state.set_nominal(0);
    state.set_outgoing(0);
    Ok(())
}

// Appends the text of an instruction that allocates so many bytes of arguments, and goes on to the state behind it.
#[inline(never)]
fn put_allocation(
    alloc: Global,
    out: &mut String,
    flags: IsaFlags,
    state: &mut EmitState,
    inst: &Inst,
    size: u32,
) -> Result<(), TextError>
    ensures answer { Prints result (string_bytes out.old) (string_bytes out.new)
        (simple_text (not flags.no_relative_memory) state.old inst.now) }
    ensures after { IfOk result (λ _. state.new ≡ record state.old { nominal = size }) }
{
    put_simple(alloc, out, !flags.no_relative_memory, state, inst)?;
    state.set_nominal(size);
    Ok(())
}

// The text and the state behind an instruction that is no `Loop`. Most leave the state.
fn put_one(
    alloc: Global,
    out: &mut String,
    flags: IsaFlags,
    state: &mut EmitState,
    inst: &Inst,
) -> Result<(), TextError>
    ensures answer { Prints result (string_bytes out.old) (string_bytes out.new)
        (leaf_text flags state.old inst.now) }
    ensures after { IfOk result (λ _. state.new ≡ leaf_after state.old inst.now) }
{
    match inst {
        Inst::Call { link, info } => put_called(alloc, out, state, link, info),
        Inst::ReturnCall { info } => put_tail_call(alloc, out, state, info),
        Inst::AllocateArgs { size } => put_allocation(alloc, out, flags, state, inst, *size),
        _ => put_simple(alloc, out, !flags.no_relative_memory, state, inst),
    }
}

// The back branch of a loop, and the label behind it.
fn put_back(out: &mut String, is_empty: bool, cond: Cond) -> Result<(), AllocError>
    ensures { OnOk result (string_bytes out.new ≡ string_bytes out.old ++ back_text is_empty cond) }
{
    if is_empty {
        put(out, " ; ")?;
    }
    put(out, "jg")?;
    put(out, cond_name(cond))?;
    put(out, " 0b ; 1:")
}

// Appends the texts of instructions, each before a semicolon.
#[cycle(members)]
fn put_members(
    alloc: Global,
    out: &mut String,
    context: Context,
    state: &mut EmitState,
    insts: &[Inst],
) -> Result<(), TextError>
    ensures answer { Prints result (string_bytes out.old) (string_bytes out.new)
        (insts_text context.flags context.depth state.old insts.now) }
    ensures after { IfOk result (λ _. state.new ≡ insts_after state.old insts.now) }
{
    for inst in insts {
        put_member(alloc, out, context, state, inst)?;
    }
    Ok(())
}

// Appends the text of an instruction, and a semicolon.
#[cycle(members)]
fn put_member(
    alloc: Global,
    out: &mut String,
    context: Context,
    state: &mut EmitState,
    inst: &Inst,
) -> Result<(), TextError>
    ensures answer { Prints result (string_bytes out.old) (string_bytes out.new)
        (before_semicolon (inst_text context.flags context.depth state.old inst.now)) }
    ensures after { IfOk result (λ _. state.new ≡ after state.old inst.now) }
{
    put_inst(alloc, out, context, state, inst)?;
    put(out, " ; ")?;
    Ok(())
}

// Appends the text of a loop, apart from that of other instructions, which needs less room.
#[cycle(members)]
#[inline(never)]
fn put_loop(
    alloc: Global,
    out: &mut String,
    context: Context,
    state: &mut EmitState,
    cond: Cond,
    body: &[Inst],
) -> Result<(), TextError>
    ensures answer { Prints result (string_bytes out.old) (string_bytes out.new)
        (text_of_loop context.depth cond (length body.now == 0)
        (insts_text context.flags (context.depth + 1) state.old body.now)) }
    ensures after { IfOk result (λ _. state.new ≡ insts_after state.old body.now) }
{
    if context.depth >= 8 {
        return Err(TextError::NoRow);
    }
    put(out, "0: ")?;
    let around = Context {
        flags: context.flags,
        depth: context.depth + 1,
    };
    put_members(alloc, out, around, state, body)?;
    put_back(out, body.is_empty(), cond)?;
    Ok(())
}

// Appends the text of an instruction in its context.
#[cycle(members)]
fn put_inst(
    alloc: Global,
    out: &mut String,
    context: Context,
    state: &mut EmitState,
    inst: &Inst,
) -> Result<(), TextError>
    ensures answer { Prints result (string_bytes out.old) (string_bytes out.new)
        (inst_text context.flags context.depth state.old inst.now) }
    ensures after { IfOk result (λ _. state.new ≡ after state.old inst.now) }
{
    match inst {
        Inst::Loop { cond, body } => put_loop(alloc, out, context, state, *cond, body),
        _ => put_one(alloc, out, context.flags, state, inst),
    }
}

/// Appends the text of an instruction, as `pretty_print_inst` answers it. The state goes on to that behind the instruction; behind an error it may be that
/// of a member of a loop, and what `out` holds is left open.
///
/// Errors come as there.
pub fn put_pretty(
    alloc: Global,
    out: &mut String,
    inst: &Inst,
    info: &EmitInfo,
    state: &mut EmitState,
) -> Result<(), TextError>
    ensures answer { Prints result (string_bytes out.old) (string_bytes out.new)
        (inst_text info.now.isa_flags 0 state.old inst.now) }
    ensures after { IfOk result (λ _. state.new ≡ after state.old inst.now) }
{
    let outside = Context {
        flags: info.isa_flags,
        depth: 0,
    };
    put_inst(alloc, out, outside, state, inst)
}

/// The text of an instruction as emission puts it for the machine of `info`, in a state of emission; branches that the end of a block leaves away are
/// shown. The state goes on to that behind the instruction: after `AllocateArgs` its nominal size is that of the arguments, after a `Call` its nominal and
/// its outgoing size are 0. A refused call leaves it as it was.
///
/// `NoRow` exactly where an operator, type, size, bit, lane or shift number has no row, a `Loop` is nested more than 8 deep, a result of type
/// `I8X8` would be loaded behind a call, or the frame of a tail call saves general registers from one outside 6 to 14 on; `BadPair` where the
/// output of `SMulWide` or `Flogr` is two real registers of which the second isn't the next one; `Address` where the address of the operand in
/// memory can't be made, with the cause of `mem_finalize`. Of a loop, the first cause in the order of its members; of an instruction, the first in
/// this order (cranelift-codegen, `mod.rs`).
pub fn pretty_print_inst(
    alloc: Global,
    inst: &Inst,
    info: &EmitInfo,
    state: &mut EmitState,
) -> Result<String, TextError>
    ensures answer { MatchResult result
        (λ s. ((inst_text info.now.isa_flags 0 state.old inst.now).cause ≡ None)
        × (string_bytes s ≡ (inst_text info.now.isa_flags 0 state.old inst.now).bytes))
        (λ e. RefusedBy (inst_text info.now.isa_flags 0 state.old inst.now).cause e) }
    ensures after { IfOk result (λ _. state.new ≡ after state.old inst.now) }
    ensures left { OnErr result (state.new ≡ state.old) }
{
    let mut behind = *state;
    let mut out = String::new(alloc);
    let outside = Context {
        flags: info.isa_flags,
        depth: 0,
    };
    put_inst(alloc, &mut out, outside, &mut behind, inst)?;
    *state = behind;
    Ok(out)
}
