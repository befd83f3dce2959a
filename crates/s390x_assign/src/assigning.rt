//! An instruction with the registers that an allocator chose for its operands.
ghost use Rattle.std.specs.Prelude.{◌≡◌, ◌≤◌, ◌∷◌, [], List, IfOk};
ghost use Rattle.s390x_inst.specs.Portions.{portions, members_portions};
ghost use Rattle.s390x_operands.specs.Operands.{operands};
ghost use Rattle.s390x_assign.specs.Assignments.{assigned_portions, ArePortions, IsAssignAnswer, operand_count, replaced_operands};

use crate::assign_control::assign_operator;
use crate::assigned_registers::AssignedRegisters;
use s390x_base::Reg;
use s390x_inst::Inst;
use s390x_operands::{MachInst, OperandError, OperandList, Reported};
use std::alloc::{AllocError, Global};
use thiserror::Error;

/// Why an instruction isn't given its registers.
#[derive(Clone, Copy, PartialEq, Debug, Error)]
pub enum AssignError {
    /// There are so many operands, and another number of registers.
    #[error("{wanted} registers are wanted, {given} are given")]
    Count { wanted: usize, given: usize },
    /// The operands can't be reported: `ReuseInLoop` or `NotReal`.
    #[error("{0:?}")]
    Operands(OperandError),
    /// No memory.
    #[error("NoMemory")]
    NoMemory,
}

/// The members of a loop with their registers.
#[cycle(members)]
fn assign_members(
    alloc: Global,
    registers: &mut AssignedRegisters<'_>,
    insts: &[Inst],
) -> Result<Vec<Inst>, AllocError>
    ensures { IfOk result
        (λ body. ArePortions (assigned_portions (members_portions insts.now) registers.old.left.now)
        (members_portions body.items) registers.new.left.now) }
{
    let mut body = Vec::new(alloc);
    for inst in insts {
        body.push(assign_inst(alloc, registers, inst)?)?;
    }
    Ok(body)
}

/// An instruction with its registers.
#[cycle(members)]
fn assign_inst(
    alloc: Global,
    registers: &mut AssignedRegisters<'_>,
    inst: &Inst,
) -> Result<Inst, AllocError>
    ensures { IfOk result
        (λ j. ArePortions (assigned_portions (portions inst.now) registers.old.left.now)
        (portions j) registers.new.left.now) }
{
    match inst {
        Inst::Loop { cond, body } => {
            let body = assign_members(alloc, registers, body)?;
            Ok(Inst::Loop { cond: *cond, body })
        }
        _ => assign_operator(alloc, registers, inst),
    }
}

/// Whether an item is an operand, as a number of operands.
fn operands_in(item: &Reported) -> usize
    ensures value { result ≡ operand_count (item.now ∷ []) }
    ensures one { result ≤ 1 }
{
    match item {
        Reported::Operand { .. } => 1,
        _ => 0,
    }
}

/// How many of the items are operands.
fn count_operands(items: &[Reported]) -> usize
    ensures { result ≡ operand_count items.now }
{
    let mut count = 0;
    for item in items {
        count += operands_in(item);
    }
    count
}

/// The instruction with its k-th reported operand replaced by `regs[k]`, and nothing else.
///
/// `Operands` comes exactly where `get_operands` has a cause of `ReuseInLoop` or `NotReal`, which it carries; else
/// `Count` exactly where there are more or fewer registers than operands; `NoMemory` where there is none for the copy.
pub fn assign(alloc: Global, inst: &Inst, regs: &[Reg]) -> Result<Inst, AssignError>
    ensures value { IfOk result
        (λ j. portions j ≡ (assigned_portions (portions inst.now) regs.now).0) }
    ensures operands { IfOk result
        (λ j. operands j ≡ replaced_operands (operands inst.now) regs.now) }
    ensures cause { IsAssignAnswer inst.now regs.now result }
{
    let mut list = OperandList::new(alloc);
    match inst.get_operands(&mut list) {
        Ok(()) => {}
        Err(OperandError::NoMemory) => return Err(AssignError::NoMemory),
        Err(error) => return Err(AssignError::Operands(error)),
    }
    let wanted = count_operands(list.items());
    let given = regs.len();
    if wanted != given {
        return Err(AssignError::Count { wanted, given });
    }
    let mut registers = AssignedRegisters { left: regs };
    match assign_inst(alloc, &mut registers, inst) {
        Ok(assigned) => Ok(assigned),
        Err(_) => Err(AssignError::NoMemory),
    }
}
