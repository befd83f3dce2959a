//! What the instructions of blocks report.
ghost use Rattle.std.specs.Prelude.{◌≡◌};
ghost use Rattle.s390x_c_allocation.specs.Reports.{Adds, Reporting, block_report, blocks_report, inst_report, insts_report};

use crate::operand_entries::{OperandEntry, Spot, put_items};
use s390x_inst::{Block, Inst};
use s390x_operands::{MachInst, OperandError, OperandList};
use std::alloc::Global;

/// The first instruction whose operands can't be reported, and why.
#[derive(Clone, Copy, Debug)]
pub struct Unreported {
    pub block: usize,
    pub instruction: usize,
    pub cause: OperandError,
}

/// Why nothing is reported.
#[derive(Clone, Copy, Debug)]
pub enum ReportError {
    Unreported(Unreported),
    NoMemory,
}

/// The entries of all instructions of the blocks, in order. An error comes exactly where the operands of one can't be reported: the first
/// such instruction; or for want of memory.
pub fn entries_of_blocks(alloc: Global, blocks: &[Block]) -> Result<Vec<OperandEntry>, ReportError>
    ensures { Reporting result (blocks_report blocks.now) }
{
    let mut out = Vec::new(alloc);
    put_blocks(alloc, &mut out, blocks)?;
    Ok(out)
}

// The blocks.
fn put_blocks(
    alloc: Global,
    out: &mut Vec<OperandEntry>,
    blocks: &[Block],
) -> Result<(), ReportError>
    ensures { Adds result out.old.items out.new.items (blocks_report blocks.now) }
{
    for (number, block) in blocks.iter().enumerate() {
        put_block(alloc, out, number, block)?;
    }
    Ok(())
}

// A block.
fn put_block(
    alloc: Global,
    out: &mut Vec<OperandEntry>,
    number: usize,
    block: &Block,
) -> Result<(), ReportError>
    ensures { Adds result out.old.items out.new.items (block_report number block.now) }
{
    put_insts(alloc, out, number, &block.insts)
}

// The instructions of a block.
fn put_insts(
    alloc: Global,
    out: &mut Vec<OperandEntry>,
    block: usize,
    insts: &[Inst],
) -> Result<(), ReportError>
    ensures { Adds result out.old.items out.new.items (insts_report block insts.now) }
{
    for (instruction, inst) in insts.iter().enumerate() {
        put_inst(alloc, out, Spot { block, instruction }, inst)?;
    }
    Ok(())
}

// An instruction.
fn put_inst(
    alloc: Global,
    out: &mut Vec<OperandEntry>,
    spot: Spot,
    inst: &Inst,
) -> Result<(), ReportError>
    ensures { Adds result out.old.items out.new.items (inst_report spot inst.now) }
{
    let mut list = OperandList::new(alloc);
    match inst.get_operands(&mut list) {
        Ok(()) => match put_items(alloc, out, spot, list.items()) {
            Ok(()) => Ok(()),
            Err(_) => Err(ReportError::NoMemory),
        },
        Err(OperandError::NoMemory) => Err(ReportError::NoMemory),
        Err(cause) => Err(ReportError::Unreported(Unreported {
            block: spot.block,
            instruction: spot.instruction,
            cause,
        })),
    }
}
