//! The texts of a function's instructions.
ghost use Rattle.std.specs.Prelude.{◌≡◌, ◌++◌, ◌∷◌, [], None, IfOk, MatchResult, string_bytes};
ghost use Rattle.s390x_text_rows.specs.Texts.{RefusedBy, Prints};
ghost use Rattle.s390x_text.specs.Instructions.{after};
ghost use Rattle.s390x_listing.specs.Texts.{block_texts, blocks_texts, inst_texts, text_line, texts_listing};

use crate::head::put_head;
use s390x_inst::{Block, EmitInfo, EmitState, Inst};
use s390x_text::{TextError, put_pretty};
use s390x_text_rows::put;
use std::alloc::Global;

/// For each block the line `block K`, and a line for each of its instructions: its text, in the state of emission behind
/// those before it in the block, the first one in the given state.
///
/// An error comes exactly where an instruction has no text, by the first cause in their order, or for want of memory.
pub fn listed_texts(
    alloc: Global,
    info: &EmitInfo,
    state: EmitState,
    blocks: &[Block],
) -> Result<String, TextError>
    ensures { MatchResult result
        (λ text. ((texts_listing info.now.isa_flags state blocks.now).cause ≡ None)
        × (string_bytes text ≡ (texts_listing info.now.isa_flags state blocks.now).bytes))
        (λ e. RefusedBy (texts_listing info.now.isa_flags state blocks.now).cause e) }
{
    let mut out = String::new(alloc);
    put_blocks(alloc, &mut out, info, state, blocks)?;
    Ok(out)
}

// The blocks.
fn put_blocks(
    alloc: Global,
    out: &mut String,
    info: &EmitInfo,
    state: EmitState,
    blocks: &[Block],
) -> Result<(), TextError>
    ensures { Prints result (string_bytes out.old) (string_bytes out.new)
        (blocks_texts info.now.isa_flags state 0 blocks.now) }
{
    for (number, block) in blocks.iter().enumerate() {
        put_block(alloc, out, info, state, number, block)?;
    }
    Ok(())
}

// The line of a block, and those of its instructions.
fn put_block(
    alloc: Global,
    out: &mut String,
    info: &EmitInfo,
    state: EmitState,
    number: usize,
    block: &Block,
) -> Result<(), TextError>
    ensures { Prints result (string_bytes out.old) (string_bytes out.new)
        (block_texts info.now.isa_flags state number block.now) }
{
    match put_head(out, number) {
        Ok(()) => put_insts(alloc, out, info, state, &block.insts),
        Err(_) => Err(TextError::NoMemory),
    }
}

// A line for each instruction.
fn put_insts(
    alloc: Global,
    out: &mut String,
    info: &EmitInfo,
    start: EmitState,
    insts: &[Inst],
) -> Result<(), TextError>
    ensures { Prints result (string_bytes out.old) (string_bytes out.new)
        (inst_texts info.now.isa_flags start insts.now) }
{
    let mut state = start;
    for inst in insts {
        put_inst(alloc, out, info, &mut state, inst)?;
    }
    Ok(())
}

// The line of an instruction, and the state behind it.
fn put_inst(
    alloc: Global,
    out: &mut String,
    info: &EmitInfo,
    state: &mut EmitState,
    inst: &Inst,
) -> Result<(), TextError>
    ensures answer { Prints result (string_bytes out.old) (string_bytes out.new)
        (text_line info.now.isa_flags state.old inst.now) }
    ensures after { IfOk result (λ _. state.new ≡ after state.old inst.now) }
{
    put_pretty(alloc, out, inst, info, state)?;
    put(out, "\n")?;
    Ok(())
}
