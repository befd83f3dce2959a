//! The operands of an instruction with the registers that a plan gives them.
ghost use Rattle.std.specs.Prelude.{◌≡◌, ◌++◌, IfOk, count_by, length, slice_get};
ghost use Rattle.s390x_alloc.specs.Assigned.{given_operand, given_operands, is_operand};

use s390x_base::Reg;
use s390x_operands::{OperandConstraint, OperandKind, Reported};
use std::alloc::{AllocError, Global};

/// An operand that an instruction reports, and the register that a plan gives it.
#[derive(Clone, Copy)]
pub struct GivenOperand {
    pub reg: Reg,
    pub constraint: OperandConstraint,
    pub kind: OperandKind,
    pub given: Reg,
}

// Whether an item is an operand.
fn is_operand(item: &Reported) -> bool
    ensures { result ≡ is_operand item.now }
{
    match item {
        Reported::Operand { .. } => true,
        _ => false,
    }
}

/// How many of the items are operands.
pub fn count_operands(items: &[Reported]) -> usize
    ensures { result ≡ count_by is_operand items.now }
{
    let mut count = 0;
    for item in items {
        if is_operand(item) {
            count += 1;
        }
    }
    count
}

// The register at an index, where there is one.
fn register_at(regs: &[Reg], index: usize) -> Option<Reg>
    ensures { result ≡ slice_get regs.now index }
{
    match regs.get(index) {
        Some(reg) => Some(*reg),
        None => None,
    }
}

// An item behind the operands before it, with the next register, where it is an operand and there is one.
fn put_operand(
    operands: &mut Vec<GivenOperand>,
    regs: &[Reg],
    item: &Reported,
) -> Result<(), AllocError>
    ensures { IfOk result
        (λ _. operands.new.items
        ≡ operands.old.items
        ++ given_operand item.now (slice_get regs.now (length operands.old.items))) }
{
    match *item {
        Reported::Operand {
            reg,
            constraint,
            kind,
            ..
        } => match register_at(regs, operands.len()) {
            Some(given) => operands.extend_from_slice(&[GivenOperand {
                reg,
                constraint,
                kind,
                given,
            }]),
            None => Ok(()),
        },
        Reported::Fixed(_) | Reported::Clobbers(_) => Ok(()),
    }
}

/// The operands among the items, each with the register of its number, where there is one.
pub fn given_operands(
    alloc: Global,
    items: &[Reported],
    regs: &[Reg],
) -> Result<Vec<GivenOperand>, AllocError>
    ensures { IfOk result (λ v. v.items ≡ given_operands items.now regs.now) }
{
    let mut operands = Vec::new(alloc);
    for item in items {
        put_operand(&mut operands, regs, item)?;
    }
    Ok(operands)
}
