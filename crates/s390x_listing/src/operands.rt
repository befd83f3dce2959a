//! The operands of a function, as text.
ghost use Rattle.std.specs.Prelude.{◌≡◌, None, MatchResult, string_bytes};
ghost use Rattle.s390x_listing.specs.Listings.{IsCause, Appends, each};
ghost use Rattle.s390x_listing.specs.Operands.{block_operands, operands_line, operands_listing};

use crate::head::put_head;
use crate::item_list::ItemList;
use crate::items::put_line;
use s390x_inst::{Block, Inst};
use s390x_operands::{MachInst, OperandError};
use std::alloc::Global;

/// For each block the line `block K`, and a line for each of its instructions: what it reports, joined by `, `, or `none`.
///
/// An error comes exactly where the operands of an instruction aren't reported, by the first cause in their order, or for
/// want of memory.
pub fn listed_operands(alloc: Global, blocks: &[Block]) -> Result<String, OperandError>
    ensures { MatchResult result
        (λ text. ((operands_listing blocks.now).cause ≡ None)
        × (string_bytes text ≡ (operands_listing blocks.now).bytes))
        (λ e. IsCause (operands_listing blocks.now).cause e) }
{
    let mut out = String::new(alloc);
    put_blocks(alloc, &mut out, blocks)?;
    Ok(out)
}

// The blocks.
fn put_blocks(alloc: Global, out: &mut String, blocks: &[Block]) -> Result<(), OperandError>
    ensures { Appends result (string_bytes out.old) (string_bytes out.new)
        (each block_operands 0 blocks.now) }
{
    for (number, block) in blocks.iter().enumerate() {
        put_block(alloc, out, number, block)?;
    }
    Ok(())
}

// The line of a block, and those of its instructions.
fn put_block(
    alloc: Global,
    out: &mut String,
    number: usize,
    block: &Block,
) -> Result<(), OperandError>
    ensures { Appends result (string_bytes out.old) (string_bytes out.new)
        (block_operands number block.now) }
{
    match put_head(out, number) {
        Ok(()) => put_insts(alloc, out, &block.insts),
        Err(_) => Err(OperandError::NoMemory),
    }
}

// A line for each instruction.
fn put_insts(alloc: Global, out: &mut String, insts: &[Inst]) -> Result<(), OperandError>
    ensures { Appends result (string_bytes out.old) (string_bytes out.new)
        (each (λ n i. operands_line i) 0 insts.now) }
{
    let mut list = ItemList::new(alloc);
    for inst in insts {
        put_inst(out, &mut list, inst)?;
    }
    Ok(())
}

// The line of an instruction. The list is room for what it reports.
fn put_inst(out: &mut String, list: &mut ItemList, inst: &Inst) -> Result<(), OperandError>
    ensures { Appends result (string_bytes out.old) (string_bytes out.new)
        (operands_line inst.now) }
{
    list.clear();
    inst.get_operands(list)?;
    match put_line(out, list) {
        Ok(()) => Ok(()),
        Err(_) => Err(OperandError::NoMemory),
    }
}
