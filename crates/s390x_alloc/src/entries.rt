//! The pairs with which blocks begin.
ghost use Rattle.std.specs.Prelude.{◌≡◌, ℕ, ◌<◌, [], List, IfOk, length, slice_get};
ghost use Rattle.s390x_alloc.specs.Entries.{IsFirst, all_hold, entry_fault, first_unfounded, is_founded, is_held_there, numbers_at, predecessors};
ghost use Rattle.s390x_alloc.specs.Locations.{AreMapsOf, pair_of};
ghost use Rattle.s390x_alloc.specs.declared.plan.EntryPair.{EntryPair as Pair};

use crate::fault::{PlanFault, entry_fault_at};
use crate::location_map::LocationMap;
use crate::plan::{BlockPlan, EntryPair, Place};
use crate::successors::add_successors;
use s390x_base::{Reg, RegClass};
use s390x_inst::Block;
use std::alloc::{AllocError, Global};

// The predecessors of each of `size` blocks, as many as there are plans, in order. Each edge is looked at once.
#[tactic(auto, using(crate::proofs::Leading::block_led, crate::proofs::Leading::later_none))]
fn predecessor_lists(
    alloc: Global,
    blocks: &[Block],
    size: usize,
) -> Result<Vec<Vec<usize>>, AllocError>
    ensures size { IfOk result (λ v. length v.items ≡ size) }
    ensures lists { IfOk result
        (λ v. (n : ℕ) → n < size
        → numbers_at v.items n ≡ predecessors (length blocks.now) n 0 blocks.now) }
{
    let mut before = empty_lists(alloc, size)?;
    for (number, block) in blocks.iter().enumerate() {
        add_successors(&mut before, blocks.len(), number, &block.insts)?;
    }
    Ok(before)
}

// So many lists, which are empty.
fn empty_lists(alloc: Global, size: usize) -> Result<Vec<Vec<usize>>, AllocError>
    ensures size { IfOk result (λ v. length v.items ≡ size) }
    ensures lists { IfOk result (λ v. (n : ℕ) → numbers_at v.items n ≡ []) }
{
    let mut lists = Vec::new(alloc);
    for _i in 0..size {
        lists.push(Vec::new(alloc))?;
    }
    Ok(lists)
}

// Whether the virtual register is held in its place at the end of a block.
fn is_held_there(
    ends: &[LocationMap],
    block: usize,
    place: &Place,
    num: u32,
    class: RegClass,
) -> bool
    ensures { (lists : List (List Pair)) → AreMapsOf ends.now lists →
        result ≡ is_held_there (slice_get lists block) (pair_of place.now num class) }
{
    match ends.get(block) {
        Some(held) => held.holds(*place, num, class),
        None => false,
    }
}

// Whether the virtual register is held in its place at the ends of all these blocks.
fn all_hold(
    ends: &[LocationMap],
    blocks: &[usize],
    place: &Place,
    num: u32,
    class: RegClass,
) -> bool
    ensures { (lists : List (List Pair)) → AreMapsOf ends.now lists →
        result ≡ all_hold lists blocks.now (pair_of place.now num class) }
{
    for block in blocks {
        if !is_held_there(ends, *block, place, num, class) {
            return false;
        }
    }
    true
}

// Whether a block may begin with the pair, where these lead there.
fn is_founded(ends: &[LocationMap], before: &[usize], block: usize, pair: &EntryPair) -> bool
    ensures { (lists : List (List Pair)) → AreMapsOf ends.now lists →
        result ≡ is_founded lists before.now block pair.now }
{
    match pair.vreg {
        Reg::Real(_) => false,
        Reg::Virtual { num, class } => {
            block != 0 && all_hold(ends, before, &pair.place, num, class)
        }
    }
}

// The first pair with which a block may not begin, by its number.
fn first_unfounded(
    ends: &[LocationMap],
    before: &[usize],
    block: usize,
    entry: &[EntryPair],
) -> Option<usize>
    ensures { (lists : List (List Pair)) → AreMapsOf ends.now lists →
        result ≡ first_unfounded lists before.now block 0 entry.now }
{
    for (number, pair) in entry.iter().enumerate() {
        if !is_founded(ends, before, block, pair) {
            return Some(number);
        }
    }
    None
}

/// The first fault of the pairs with which blocks begin: one of the first block, one whose register isn't virtual, or one that isn't held at the end of some
/// block that leads there. What is held at the ends of all blocks is told.
pub fn entry_fault(
    alloc: Global,
    blocks: &[Block],
    plans: &[BlockPlan],
    ends: &[LocationMap],
) -> Result<Option<PlanFault>, AllocError>
    ensures { (lists : List (List Pair)) → AreMapsOf ends.now lists →
        IfOk result (IsFirst (entry_fault blocks.now (length blocks.now) lists 0 plans.now)) }
{
    let before = predecessor_lists(alloc, blocks, plans.len())?;
    for (number, plan) in plans.iter().enumerate() {
        match first_unfounded(ends, &before[number], number, &plan.entry) {
            Some(pair) => return Ok(Some(entry_fault_at(number, pair))),
            None => {}
        }
    }
    Ok(None)
}
