//! Reporting the operands of loads and stores of a range of registers.
#![tactic(auto, using(crate::proofs::Reporting::reports_taken, crate::proofs::Reporting::refuses_unreal))]

ghost use Rattle.std.specs.Prelude.{◌<◌, ◌≤◌, ◌-◌, ◌++◌, ◌∷◌, [], map};
ghost use Rattle.std.specs.List.{range_with_len};
ghost use Rattle.s390x_operands.specs.Requests.{Reports, memory_requests, range_requests, general_between, fixed_general};

use crate::constraint::OperandError;
use crate::report::report_memory;
use crate::visitor::OperandVisitor;
use s390x_base::{Reg, gpr_preg};
use s390x_inst::MemArg;

/// Reports the general registers in the range of a multiple.
pub fn report_range<V: OperandVisitor>(
    v: &mut V,
    denied: bool,
    first: &Reg,
    last: &Reg,
) -> Result<(), OperandError>
    ensures { Reports denied (range_requests first.now last.now) (V.items v.old) (V.items v.new)
        (V.denies v.old) (V.denies v.new) result }
{
    match first {
        Reg::Real(low) => match last {
            Reg::Real(high) => report_between(v, denied, low.hw_enc(), high.hw_enc()),
            Reg::Virtual { .. } => Err(OperandError::NotReal),
        },
        Reg::Virtual { .. } => Err(OperandError::NotReal),
    }
}

/// Reports the operands of a load or a store of a range of registers.
pub fn report_multiple<V: OperandVisitor>(
    v: &mut V,
    denied: bool,
    mem: &MemArg,
    first: &Reg,
    last: &Reg,
) -> Result<(), OperandError>
    ensures { Reports denied (memory_requests mem.now ++ range_requests first.now last.now)
        (V.items v.old) (V.items v.new) (V.denies v.old) (V.denies v.new) result }
{
    report_memory(v, denied, mem)?;
    report_range(v, denied, first, last)
}

// The general registers from one number to another.
fn report_between<V: OperandVisitor>(
    v: &mut V,
    denied: bool,
    low: u8,
    high: u8,
) -> Result<(), OperandError>
    requires { high < 32 }
    ensures { Reports denied (general_between low high) (V.items v.old) (V.items v.new)
        (V.denies v.old) (V.denies v.new) result }
{
    report_numbers(v, denied, low, (high + 1).min(16))
}

// The general registers of the numbers below an end.
fn report_numbers<V: OperandVisitor>(
    v: &mut V,
    denied: bool,
    low: u8,
    end: u8,
) -> Result<(), OperandError>
    requires { end ≤ 16 }
    ensures { Reports denied (map fixed_general (range_with_len low (end - low))) (V.items v.old)
        (V.items v.new) (V.denies v.old) (V.denies v.new) result }
{
    for number in low..end {
        report_general(v, denied, number)?;
    }
    Ok(())
}

// A general register.
fn report_general<V: OperandVisitor>(
    v: &mut V,
    denied: bool,
    number: u8,
) -> Result<(), OperandError>
    requires { number < 16 }
    ensures { Reports denied (fixed_general number ∷ []) (V.items v.old) (V.items v.new)
        (V.denies v.old) (V.denies v.new) result }
{
    v.reg_fixed_nonallocatable(gpr_preg(number))
}
