//! Reporting the operands of calls, arguments and results.
#![tactic(auto, using(crate::proofs::Reporting::reports_taken, crate::proofs::Reporting::refuses_unreal))]

ghost use Rattle.std.specs.Prelude.{◌++◌, ◌∷◌, [], map};
ghost use Rattle.s390x_operands.specs.Requests.{Reports};
ghost use Rattle.s390x_operands.specs.Calls.{placed_use, placed_def, destination_requests, argument, call_result, reported_argument, reported_result, reported_clobbers, call_requests, return_call_requests};

use crate::constraint::OperandError;
use crate::report::{report_nothing, report_use};
use crate::visitor::OperandVisitor;
use s390x_base::{PRegSet, Reg, Writable};
use s390x_inst::{
    ArgPair, CallArgPair, CallInfo, CallInstDest, CallRetPair, RetLocation, RetPair, ReturnCallInfo,
};

/// Reports an input in a register that has to be real.
pub fn report_placed_use<V: OperandVisitor>(
    v: &mut V,
    denied: bool,
    reg: &Reg,
    preg: &Reg,
) -> Result<(), OperandError>
    ensures { Reports denied (placed_use reg.now preg.now ∷ []) (V.items v.old) (V.items v.new)
        (V.denies v.old) (V.denies v.new) result }
{
    match preg {
        Reg::Real(preg) => v.reg_fixed_use(*reg, *preg),
        Reg::Virtual { .. } => Err(OperandError::NotReal),
    }
}

/// Reports an output in a register that has to be real.
pub fn report_placed_def<V: OperandVisitor>(
    v: &mut V,
    denied: bool,
    reg: &Writable<Reg>,
    preg: &Reg,
) -> Result<(), OperandError>
    ensures { Reports denied (placed_def reg.now preg.now ∷ []) (V.items v.old) (V.items v.new)
        (V.denies v.old) (V.denies v.new) result }
{
    match preg {
        Reg::Real(preg) => v.reg_fixed_def(*reg, *preg),
        Reg::Virtual { .. } => Err(OperandError::NotReal),
    }
}

/// Reports an argument of a call.
pub fn report_argument<V: OperandVisitor>(
    v: &mut V,
    denied: bool,
    pair: &CallArgPair,
) -> Result<(), OperandError>
    ensures { Reports denied (argument pair.now ∷ []) (V.items v.old) (V.items v.new)
        (V.denies v.old) (V.denies v.new) result }
{
    report_placed_use(v, denied, &pair.vreg, &pair.preg)
}

/// Reports a result of a call.
pub fn report_call_result<V: OperandVisitor>(
    v: &mut V,
    denied: bool,
    pair: &CallRetPair,
) -> Result<(), OperandError>
    ensures { Reports denied (call_result pair.now ∷ []) (V.items v.old) (V.items v.new)
        (V.denies v.old) (V.denies v.new) result }
{
    match &pair.location {
        RetLocation::Reg(preg, _) => report_placed_def(v, denied, &pair.vreg, preg),
        RetLocation::Stack(..) => v.any_def(pair.vreg),
    }
}

/// Reports an argument of the function.
pub fn report_incoming<V: OperandVisitor>(
    v: &mut V,
    denied: bool,
    pair: &ArgPair,
) -> Result<(), OperandError>
    ensures { Reports denied (reported_argument pair.now ∷ []) (V.items v.old) (V.items v.new)
        (V.denies v.old) (V.denies v.new) result }
{
    report_placed_def(v, denied, &pair.vreg, &pair.preg)
}

/// Reports a result of the function.
pub fn report_outgoing<V: OperandVisitor>(
    v: &mut V,
    denied: bool,
    pair: &RetPair,
) -> Result<(), OperandError>
    ensures { Reports denied (reported_result pair.now ∷ []) (V.items v.old) (V.items v.new)
        (V.denies v.old) (V.denies v.new) result }
{
    report_placed_use(v, denied, &pair.vreg, &pair.preg)
}

/// Reports the arguments of a call.
pub fn report_call_arguments<V: OperandVisitor>(
    v: &mut V,
    denied: bool,
    pairs: &[CallArgPair],
) -> Result<(), OperandError>
    ensures { Reports denied (map argument pairs.now) (V.items v.old) (V.items v.new)
        (V.denies v.old) (V.denies v.new) result }
{
    for pair in pairs {
        report_argument(v, denied, pair)?;
    }
    Ok(())
}

/// Reports the results of a call.
pub fn report_call_results<V: OperandVisitor>(
    v: &mut V,
    denied: bool,
    pairs: &[CallRetPair],
) -> Result<(), OperandError>
    ensures { Reports denied (map call_result pairs.now) (V.items v.old) (V.items v.new)
        (V.denies v.old) (V.denies v.new) result }
{
    for pair in pairs {
        report_call_result(v, denied, pair)?;
    }
    Ok(())
}

/// Reports the arguments of the function.
pub fn report_arguments<V: OperandVisitor>(
    v: &mut V,
    denied: bool,
    pairs: &[ArgPair],
) -> Result<(), OperandError>
    ensures { Reports denied (map reported_argument pairs.now) (V.items v.old) (V.items v.new)
        (V.denies v.old) (V.denies v.new) result }
{
    for pair in pairs {
        report_incoming(v, denied, pair)?;
    }
    Ok(())
}

/// Reports the results of the function.
pub fn report_results<V: OperandVisitor>(
    v: &mut V,
    denied: bool,
    pairs: &[RetPair],
) -> Result<(), OperandError>
    ensures { Reports denied (map reported_result pairs.now) (V.items v.old) (V.items v.new)
        (V.denies v.old) (V.denies v.new) result }
{
    for pair in pairs {
        report_outgoing(v, denied, pair)?;
    }
    Ok(())
}

/// Reports the target of a call.
#[inline(always)]
pub fn report_destination<V: OperandVisitor>(
    v: &mut V,
    denied: bool,
    dest: &CallInstDest,
) -> Result<(), OperandError>
    ensures { Reports denied (destination_requests dest.now) (V.items v.old) (V.items v.new)
        (V.denies v.old) (V.denies v.new) result }
{
    match dest {
        CallInstDest::Direct { .. } => report_nothing(v, denied),
        CallInstDest::Indirect { reg } => report_use(v, denied, reg),
    }
}

/// Reports the registers that a call overwrites, with its link.
#[inline(always)]
pub fn report_clobbers<V: OperandVisitor>(
    v: &mut V,
    denied: bool,
    clobbers: &PRegSet,
    link: &Reg,
) -> Result<(), OperandError>
    ensures { Reports denied (reported_clobbers clobbers.now link.now ∷ []) (V.items v.old)
        (V.items v.new) (V.denies v.old) (V.denies v.new) result }
{
    match link {
        Reg::Real(preg) => {
            let mut regs = *clobbers;
            regs.add(*preg);
            v.reg_clobbers(regs)
        }
        Reg::Virtual { .. } => Err(OperandError::NotReal),
    }
}

/// Reports the operands of a call.
#[inline(never)]
pub fn report_call<V: OperandVisitor>(
    v: &mut V,
    denied: bool,
    link: &Writable<Reg>,
    info: &CallInfo,
) -> Result<(), OperandError>
    ensures { Reports denied (call_requests link.now info.now) (V.items v.old) (V.items v.new)
        (V.denies v.old) (V.denies v.new) result }
{
    report_destination(v, denied, &info.dest)?;
    report_call_arguments(v, denied, &info.uses)?;
    report_call_results(v, denied, &info.defs)?;
    report_clobbers(v, denied, &info.clobbers, &link.to_reg())
}

/// Reports the operands of a tail call.
pub fn report_return_call<V: OperandVisitor>(
    v: &mut V,
    denied: bool,
    info: &ReturnCallInfo<CallInstDest>,
) -> Result<(), OperandError>
    ensures { Reports denied (return_call_requests info.now) (V.items v.old) (V.items v.new)
        (V.denies v.old) (V.denies v.new) result }
{
    report_destination(v, denied, &info.dest)?;
    report_call_arguments(v, denied, &info.uses)
}
