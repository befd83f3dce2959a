//! The faults of a plan.
ghost use Rattle.std.specs.Prelude.{◌≡◌, [], IsOk, MatchResult, length};
ghost use Rattle.s390x_alloc.specs.Blocks.{IsFault, after_block, after_blocks};
ghost use Rattle.s390x_alloc.specs.Checked.{plan_contents};
ghost use Rattle.s390x_alloc.specs.Locations.{AllLeadTo, LeadsTo};

use crate::edits::check_edits;
use crate::entries::entry_fault;
use crate::fault::{PlanFault, shape_at, unsupported_at};
use crate::location_map::LocationMap;
use crate::plan::BlockPlan;
use crate::shape::{first_misshapen, first_unsupported};
use s390x_inst::{Block, FrameLayout};
use std::alloc::Global;

// What is held at the end of one of so many blocks.
fn check_block(
    alloc: Global,
    layout: &FrameLayout,
    count: usize,
    number: usize,
    block: &Block,
    plan: &BlockPlan,
) -> Result<LocationMap, PlanFault>
    ensures { let whole = after_block layout.now count number block.now plan.now in
        MatchResult result (LeadsTo whole) (IsFault whole) }
{
    if let Some(inst) = first_unsupported(&block.insts) {
        return Err(unsupported_at(number, inst));
    }
    if let Some(inst) = first_misshapen(count, &block.insts) {
        return Err(shape_at(number, inst));
    }
    check_edits(alloc, layout, number, &block.insts, plan)
}

/// What is held at the end of each block of a plan for as many blocks. Refused by the first fault of a block, or for want of memory.
pub fn check_blocks(
    alloc: Global,
    layout: &FrameLayout,
    blocks: &[Block],
    plans: &[BlockPlan],
) -> Result<Vec<LocationMap>, PlanFault>
    requires { length blocks.now ≡ length plans.now }
    ensures { let whole = after_blocks layout.now (length blocks.now) [] 0 blocks.now plans.now in
        MatchResult result (λ ends. AllLeadTo whole ends.items) (IsFault whole) }
{
    let mut ends = Vec::new(alloc);
    for (number, block) in blocks.iter().enumerate() {
        let held = check_block(alloc, layout, blocks.len(), number, block, &plans[number])?;
        if ends.push(held).is_err() {
            return Err(PlanFault::NoMemory);
        }
    }
    Ok(ends)
}

/// Whether a plan has no fault: Ok exactly where it has none. Refused by the first one, or for want of memory.
pub fn check_faults(
    alloc: Global,
    layout: &FrameLayout,
    blocks: &[Block],
    plans: &[BlockPlan],
) -> Result<(), PlanFault>
    ensures { let whole = plan_contents layout.now blocks.now plans.now in
        MatchResult result (λ _. IsOk whole) (IsFault whole) }
{
    if blocks.len() != plans.len() {
        return Err(PlanFault::Blocks);
    }
    let ends = check_blocks(alloc, layout, blocks, plans)?;
    match entry_fault(alloc, blocks, plans, &ends) {
        Ok(None) => Ok(()),
        Ok(Some(fault)) => Err(fault),
        Err(_) => Err(PlanFault::NoMemory),
    }
}
