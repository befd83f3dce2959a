//! An instruction with the registers of an allocator: by its description, where it has one.
ghost use Rattle.std.specs.Prelude.{IfOk};
ghost use Rattle.s390x_inst.specs.Portions.{first_portion};
ghost use Rattle.s390x_assign.specs.Assignments.{IsPortion, as_it_is, portion_by, portion_at};

use crate::assign_calls::{assign_call, assign_list, assign_return_call};
use crate::assigned_registers::AssignedRegisters;
use s390x_described::{Replacer, replace};
use s390x_inst::Inst;
use std::alloc::{AllocError, Global};

// An instruction that has no description and is no `Loop`, with its registers.
fn assign_control(
    alloc: Global,
    registers: &mut AssignedRegisters<'_>,
    inst: &Inst,
) -> Result<Inst, AllocError>
    ensures { IfOk result
        (λ j. IsPortion (portion_by as_it_is (first_portion inst.now) registers.old.left.now) j
        registers.new.left.now) }
{
    match inst {
        Inst::IndirectBr { rn, targets } => {
            let targets = Vec::from_slice(alloc, targets)?;
            Ok(Inst::IndirectBr {
                rn: registers.input(*rn),
                targets,
            })
        }
        Inst::JTSequence {
            ridx,
            default,
            default_cond,
            targets,
        } => {
            let targets = Vec::from_slice(alloc, targets)?;
            Ok(Inst::JTSequence {
                ridx: registers.input(*ridx),
                default: *default,
                default_cond: *default_cond,
                targets,
            })
        }
        Inst::Call { link, info } => assign_call(alloc, registers, *link, info),
        Inst::ReturnCall { info } => assign_return_call(alloc, registers, info),
        Inst::Args { args } => {
            let args = assign_list(alloc, registers, args)?;
            Ok(Inst::Args { args })
        }
        Inst::Rets { rets } => {
            let rets = assign_list(alloc, registers, rets)?;
            Ok(Inst::Rets { rets })
        }
        // These have no registers.
        _ => match inst.copy(alloc) {
            Ok(copied) => Ok(copied),
            Err(_) => Err(AllocError),
        },
    }
}

/// An instruction that is no `Loop`, with its registers.
pub fn assign_operator(
    alloc: Global,
    registers: &mut AssignedRegisters<'_>,
    inst: &Inst,
) -> Result<Inst, AllocError>
    ensures { IfOk result
        (λ j. IsPortion (portion_at (first_portion inst.now) registers.old.left.now) j
        registers.new.left.now) }
{
    match replace(inst, registers) {
        Some(assigned) => Ok(assigned),
        None => assign_control(alloc, registers, inst),
    }
}
