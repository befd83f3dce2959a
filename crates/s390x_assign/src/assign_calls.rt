//! Calls, arguments and results with the registers of an allocator.
ghost use Rattle.std.specs.Prelude.{◌≡◌, List, IfOk};
ghost use Rattle.s390x_base.specs.declared.regs.Reg.{Reg};
ghost use Rattle.s390x_inst.specs.Portions.{terms_of, handler_terms_of, calling, tail_calling};
ghost use Rattle.s390x_assign.specs.Assignments.{argument_at, call_result_at, incoming_at, outgoing_at, each_at, portion_at, IsPortion};

use crate::assigned_registers::AssignedRegisters;
use s390x_base::{Reg, Writable};
use s390x_inst::{
    ArgPair, CallArgPair, CallInfo, CallInstDest, CallRetPair, Inst, RetLocation, RetPair,
    ReturnCallInfo, TryCallInfo,
};
use std::alloc::{AllocError, Global};

/// What takes registers in a list.
pub trait TakesRegisters: Copy {
    // It with its registers, and what is left of them.
    ghost given: { Self → List Reg → Self × List Reg };

    /// It with its registers.
    fn with_registers(self, registers: &mut AssignedRegisters<'_>) -> Self
        ensures value { result ≡ (given self registers.old.left.now).0 }
        ensures left { registers.new.left.now ≡ (given self registers.old.left.now).1 };
}

impl TakesRegisters for CallArgPair {
    ghost given = { argument_at };

    fn with_registers(self, registers: &mut AssignedRegisters<'_>) -> CallArgPair {
        CallArgPair {
            vreg: registers.operand_in_place(self.preg, self.vreg),
            preg: self.preg,
        }
    }
}

impl TakesRegisters for CallRetPair {
    ghost given = { call_result_at };

    fn with_registers(self, registers: &mut AssignedRegisters<'_>) -> CallRetPair {
        let vreg = registers.result(&self.location, self.vreg.to_reg());
        CallRetPair {
            vreg: Writable::from_reg(vreg),
            location: self.location,
        }
    }
}

impl TakesRegisters for ArgPair {
    ghost given = { incoming_at };

    fn with_registers(self, registers: &mut AssignedRegisters<'_>) -> ArgPair {
        ArgPair {
            vreg: Writable::from_reg(registers.operand_in_place(self.preg, self.vreg.to_reg())),
            preg: self.preg,
        }
    }
}

impl TakesRegisters for RetPair {
    ghost given = { outgoing_at };

    fn with_registers(self, registers: &mut AssignedRegisters<'_>) -> RetPair {
        RetPair {
            vreg: registers.operand_in_place(self.preg, self.vreg),
            preg: self.preg,
        }
    }
}

/// A list with its registers.
pub fn assign_list<T: TakesRegisters + Drop>(
    alloc: Global,
    registers: &mut AssignedRegisters<'_>,
    items: &[T],
) -> Result<Vec<T>, AllocError>
    ensures value { IfOk result
        (λ xs. xs.items ≡ (each_at T.given items.now registers.old.left.now).0) }
    ensures left { IfOk result
        (λ xs. registers.new.left.now ≡ (each_at T.given items.now registers.old.left.now).1) }
{
    let mut assigned = Vec::new(alloc);
    for item in items {
        assigned.push(item.with_registers(registers))?;
    }
    Ok(assigned)
}

// Where a call with handlers goes on, as it stands.
fn copy_handlers(
    alloc: Global,
    info: &Option<TryCallInfo>,
) -> Result<Option<TryCallInfo>, AllocError>
    ensures { IfOk result (λ copied. handler_terms_of copied ≡ handler_terms_of info.now) }
{
    match info {
        Some(info) => Ok(Some(TryCallInfo {
            continuation: info.continuation,
            exception_handlers: Vec::from_slice(alloc, &info.exception_handlers)?,
        })),
        None => Ok(None),
    }
}

/// A call with its registers.
pub fn assign_call(
    alloc: Global,
    registers: &mut AssignedRegisters<'_>,
    link: Writable<Reg>,
    info: &CallInfo,
) -> Result<Inst, AllocError>
    ensures { IfOk result
        (λ j. IsPortion
        (portion_at
        (calling link info.now.dest info.now.uses.items info.now.defs.items
        (terms_of info.now)) registers.old.left.now) j registers.new.left.now) }
{
    let dest = registers.destination(&info.dest);
    let uses = assign_list(alloc, registers, &info.uses)?;
    let defs = assign_list(alloc, registers, &info.defs)?;
    let try_call_info = copy_handlers(alloc, &info.try_call_info)?;
    Ok(Inst::Call {
        link,
        info: CallInfo {
            dest,
            uses,
            defs,
            clobbers: info.clobbers,
            callee_pop_size: info.callee_pop_size,
            caller_conv: info.caller_conv,
            callee_conv: info.callee_conv,
            try_call_info,
            patchable: info.patchable,
            stack_map: info.stack_map,
        },
    })
}

/// A tail call with its registers.
pub fn assign_return_call(
    alloc: Global,
    registers: &mut AssignedRegisters<'_>,
    info: &ReturnCallInfo<CallInstDest>,
) -> Result<Inst, AllocError>
    ensures { IfOk result
        (λ j. IsPortion
        (portion_at (tail_calling info.now.dest info.now.uses.items info.now.callee_pop_size)
        registers.old.left.now) j registers.new.left.now) }
{
    let dest = registers.destination(&info.dest);
    let uses = assign_list(alloc, registers, &info.uses)?;
    Ok(Inst::ReturnCall {
        info: ReturnCallInfo {
            dest,
            uses,
            callee_pop_size: info.callee_pop_size,
        },
    })
}
