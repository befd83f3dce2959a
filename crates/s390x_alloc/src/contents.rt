//! How an instruction changes what places hold.
ghost use Rattle.std.specs.Prelude.{List, IfOk};
ghost use Rattle.s390x_alloc.specs.Contents.{contents_after_step, with_operand, without_item, without_items};
ghost use Rattle.s390x_alloc.specs.Locations.{IsMapOf};
ghost use Rattle.s390x_alloc.specs.declared.plan.EntryPair.{EntryPair as Pair};

use crate::assigned::GivenOperand;
use crate::location_map::LocationMap;
use crate::plan::Place;
use s390x_base::Reg;
use s390x_operands::{OperandKind, Reported};
use std::alloc::{AllocError, Global};

// What an item overwrites holds nothing.
fn drop_item(held: &mut LocationMap, item: &Reported)
    ensures { (list : List Pair) → IsMapOf held.old list →
        IsMapOf held.new (without_item item.now list) }
{
    match *item {
        Reported::Fixed(preg) => held.drop_place(Place::Reg(preg)),
        Reported::Clobbers(set) => held.drop_set(set),
        Reported::Operand { .. } => {}
    }
}

// What all items overwrite holds nothing.
fn drop_items(held: &mut LocationMap, items: &[Reported])
    ensures { (list : List Pair) → IsMapOf held.old list →
        IsMapOf held.new (without_items items.now list) }
{
    for item in items {
        drop_item(held, item);
    }
}

// An operand, where it is an output.
fn put_operand(
    alloc: Global,
    held: &mut LocationMap,
    operand: &GivenOperand,
) -> Result<(), AllocError>
    ensures { (list : List Pair) → IsMapOf held.old list →
        IfOk result (λ _.
        IsMapOf held.new (with_operand operand.now.kind operand.now.reg operand.now.given list)) }
{
    match (operand.kind, operand.given) {
        (OperandKind::Def, Reg::Real(preg)) => held.put_output(alloc, preg, operand.reg),
        _ => Ok(()),
    }
}

/// What is held behind an instruction: what it overwrites holds nothing, and then its outputs stand in their registers. After `AllocError` some of that may
/// be missing.
pub fn take_step(
    alloc: Global,
    held: &mut LocationMap,
    items: &[Reported],
    operands: &[GivenOperand],
) -> Result<(), AllocError>
    ensures { (list : List Pair) → IsMapOf held.old list →
        IfOk result (λ _. IsMapOf held.new (contents_after_step items.now operands.now list)) }
{
    drop_items(held, items);
    for operand in operands {
        put_operand(alloc, held, operand)?;
    }
    Ok(())
}
