//! The function with real registers that a plan gives.
ghost use Rattle.std.specs.Prelude.{◌≡◌, ◌≤◌, IfOk, length, map, slice_get};
ghost use Rattle.s390x_inst.specs.Portions.{portions};
ghost use Rattle.s390x_inst.specs.declared.function.Block.{Block as AnyBlock};
ghost use Rattle.s390x_alloc.specs.Answered.{constant_value};
ghost use Rattle.s390x_alloc.specs.Answers.{block_answer, blocks_answer, edit_portions, step_portions};

use crate::edits::steps_in;
use crate::moves::move_inst;
use crate::plan::{BlockPlan, Edit};
use s390x_assign::assign;
use s390x_base::{ConstantData, NoMemory, Reg};
use s390x_inst::{Block, Inst};
use std::alloc::{AllocError, Global};

// A block's next instruction with these registers. Of an edit that was checked `assign` is refused for want of memory alone.
fn answer_step(alloc: Global, left: &[Inst], regs: &[Reg]) -> Result<Inst, NoMemory>
    ensures { IfOk result (λ i. portions i ≡ step_portions (slice_get left.now 0) regs.now) }
{
    let Some(inst) = left.first() else {
        return Err(NoMemory);
    };
    match assign(alloc, inst, regs) {
        Ok(assigned) => Ok(assigned),
        Err(_) => Err(NoMemory),
    }
}

// The instruction that an edit is, where these are left in its block. An edit that was checked is one.
fn answer_edit(alloc: Global, left: &[Inst], edit: &Edit) -> Result<Inst, NoMemory>
    ensures { IfOk result (λ i. portions i ≡ edit_portions edit.now left.now) }
{
    match edit {
        Edit::Move { to, from } => match move_inst(to, from) {
            Some(inst) => Ok(inst),
            None => Err(NoMemory),
        },
        Edit::Step { regs } => answer_step(alloc, left, regs),
    }
}

// The block that a block's plan gives.
fn answer_block(alloc: Global, block: &Block, plan: &BlockPlan) -> Result<Block, NoMemory>
    ensures { IfOk result (λ b. map portions b.insts.items ≡ block_answer block.now plan.now) }
{
    let mut insts = Vec::new(alloc);
    let mut taken = 0;
    for edit in &plan.edits {
        if taken > block.insts.len() {
            return Err(NoMemory);
        }
        let inst = answer_edit(alloc, &block.insts[taken..], edit)?;
        if insts.push(inst).is_err() {
            return Err(NoMemory);
        }
        taken += steps_in(edit);
    }
    Ok(Block { insts })
}

/// The blocks that a plan of as many blocks gives.
pub fn answer_blocks(
    alloc: Global,
    blocks: &[Block],
    plans: &[BlockPlan],
) -> Result<Vec<Block>, NoMemory>
    requires { length blocks.now ≡ length plans.now }
    ensures { IfOk result
        (λ v. map (λ (b : AnyBlock). map portions b.insts.items) v.items
        ≡ blocks_answer blocks.now plans.now) }
{
    let mut answered = Vec::new(alloc);
    for (number, block) in blocks.iter().enumerate() {
        let answer = answer_block(alloc, block, &plans[number])?;
        if answered.push(answer).is_err() {
            return Err(NoMemory);
        }
    }
    Ok(answered)
}

/// The constants again.
pub fn copy_constants(
    alloc: Global,
    constants: &[ConstantData],
) -> Result<Vec<ConstantData>, AllocError>
    ensures { IfOk result (λ v. map constant_value v.items ≡ map constant_value constants.now) }
{
    let mut copies = Vec::new(alloc);
    for constant in constants {
        copies.push(ConstantData {
            bytes: Vec::from_slice(alloc, &constant.bytes)?,
            align: constant.align,
        })?;
    }
    Ok(copies)
}
