//! The check of a plan.
ghost use Rattle.std.specs.Prelude.{IfOk, MatchResult};
ghost use Rattle.s390x_alloc.specs.Answered.{IsAnswered};
ghost use Rattle.s390x_alloc.specs.Blocks.{IsFault};
ghost use Rattle.s390x_alloc.specs.Checked.{plan_contents};
ghost use Rattle.s390x_alloc.specs.Walks.{EveryWalkReadsAlike};

use crate::answer::{answer_blocks, copy_constants};
use crate::blocks::check_faults;
use crate::fault::PlanFault;
use crate::plan::Plan;
use s390x_inst::{AllocatedFunction, FrameLayout};
use std::alloc::Global;

/// Whether every value of a function with virtual registers arrives where it is used, by a plan of an allocator: then the function with real registers, in
/// which each `Step` is the block's next instruction with the plan's registers, and each `Move` a `Mov64`, `VecMov`, `Load64`, `VecLoad`, `Store64` or `VecStore`.
///
/// Refused by the first fault, or for want of memory. The counts of blocks come first (`Blocks`). Then comes block by block: an instruction that no plan is for
/// (`Unsupported`), or else one that has a wrong place or label (`Shape`), or else the edits, one after the other. An edit is refused because it stands at a wrong
/// place (`Order`), or else because its instruction doesn't report its operands (`Operands`), or else because of the number of registers (`Count`), of a register
/// that doesn't suit its operand (`Constraint`), or of one that doesn't hold what is read (`Value`); or because it is no move (`Move`). Last come the pairs with which
/// blocks begin (`Entry`). A number of 2^32 or above is told as want of memory.
///
/// Where the plan is accepted, on every walk from the first block, and whatever the values are, each instruction reads by its registers the values of its virtual
/// registers.
pub fn check_plan(
    alloc: Global,
    function: &AllocatedFunction,
    layout: &FrameLayout,
    plan: &Plan,
) -> Result<AllocatedFunction, PlanFault>
    ensures answer { MatchResult result (IsAnswered layout.now function.now plan.now)
        (IsFault (plan_contents layout.now function.now.blocks.items plan.now.blocks.items)) }
    ensures walks { IfOk result
        (λ _. EveryWalkReadsAlike function.now.blocks.items plan.now.blocks.items) }
{
    check_faults(alloc, layout, &function.blocks, &plan.blocks)?;
    let Ok(blocks) = answer_blocks(alloc, &function.blocks, &plan.blocks) else {
        return Err(PlanFault::NoMemory);
    };
    let Ok(constants) = copy_constants(alloc, &function.constants) else {
        return Err(PlanFault::NoMemory);
    };
    Ok(AllocatedFunction { blocks, constants })
}
