//! The check of a plan of registers.
ghost use Rattle.std.specs.Prelude.{◌≡◌};
ghost use Rattle.s390x_c_allocation.specs.Plans.{ChecksPlanTo, ChecksTo, IsFaultTold, at_plan_line, reason_of_fault, told_fault};

use crate::numbers::operand_error_number;
use s390x_alloc::{PlanFault, check_plan};
use s390x_calls::{MOST_BYTES, Status};
use s390x_inst::MachInstEmitState;
use s390x_job_plan::{PlanTextError, PlannedJob, read_plan};
use std::alloc::Global;

/// Why a plan is refused. What a status or a fault doesn't speak of is 0; blocks, instructions, edits, operands and pairs are counted from 0.
#[repr(C)]
#[derive(Clone, Copy)]
pub struct PlanReason {
    /// With `Syntax`: the input's first wrong line, or the one that is lacking, counted from 1.
    pub line: u32,
    /// With `PlanRefused`: the number of the first fault.
    pub fault: u32,
    /// The block of the fault.
    pub block: u32,
    /// The fault's instruction, edit or pair in the block.
    pub index: u32,
    /// The edit's operand.
    pub operand: u32,
    /// Why an instruction doesn't report its operands: the number of the cause.
    pub cause: u32,
}

/// Whether the plan of a job has a fault. The input is the text of the job with its plan.
pub fn checked_plan(alloc: Global, input: &[u8], reason: &mut PlanReason) -> Status
    ensures { ChecksTo input.now reason.old reason.new result }
{
    if input.len() > MOST_BYTES {
        return Status::TooLong;
    }
    match read_plan(alloc, input) {
        Ok(planned) => check_planned(alloc, &planned, reason),
        Err(PlanTextError::Syntax { line }) => {
            *reason = at_line(line);
            Status::Syntax
        }
        Err(PlanTextError::NoMemory) => Status::NoMemory,
    }
}

// Whether the plan has a fault.
#[tactic(auto, using(crate::proofs::Answering::faultless, crate::proofs::Answering::faulty))]
fn check_planned(alloc: Global, planned: &PlannedJob, reason: &mut PlanReason) -> Status
    ensures { ChecksPlanTo reason.old reason.new planned.now result }
{
    let job = &planned.job;
    match check_plan(
        alloc,
        &job.function,
        job.state.frame_layout(),
        &planned.plan,
    ) {
        Ok(_function) => Status::Done,
        Err(fault) => plan_refused(fault, reason),
    }
}

// How the check of a plan with this fault ends.
fn plan_refused(fault: PlanFault, reason: &mut PlanReason) -> Status
    ensures { IsFaultTold fault reason.old reason.new result }
{
    match fault {
        PlanFault::NoMemory => Status::NoMemory,
        fault => {
            *reason = fault_reason(fault);
            Status::PlanRefused
        }
    }
}

// A line, and no fault.
fn at_line(line: u32) -> PlanReason
    ensures { result ≡ at_plan_line line }
{
    PlanReason {
        line,
        ..plan_reason(0, 0, 0, 0)
    }
}

// A fault with its numbers.
fn plan_reason(fault: u32, block: u32, index: u32, operand: u32) -> PlanReason
    ensures { result ≡ told_fault fault block index operand }
{
    PlanReason {
        line: 0,
        fault,
        block,
        index,
        operand,
        cause: 0,
    }
}

// The fault as it is told.
fn fault_reason(fault: PlanFault) -> PlanReason
    ensures { result ≡ reason_of_fault fault }
{
    match fault {
        PlanFault::Blocks => plan_reason(1, 0, 0, 0),
        PlanFault::Unsupported { block, inst } => plan_reason(2, block, inst, 0),
        PlanFault::Shape { block, inst } => plan_reason(3, block, inst, 0),
        PlanFault::Order { block, edit } => plan_reason(4, block, edit, 0),
        PlanFault::Operands { block, edit, cause } => PlanReason {
            cause: u32::from(operand_error_number(cause)),
            ..plan_reason(5, block, edit, 0)
        },
        PlanFault::Count { block, edit } => plan_reason(6, block, edit, 0),
        PlanFault::Constraint {
            block,
            edit,
            operand,
        } => plan_reason(7, block, edit, operand),
        PlanFault::Move { block, edit } => plan_reason(8, block, edit, 0),
        PlanFault::Value {
            block,
            edit,
            operand,
        } => plan_reason(9, block, edit, operand),
        PlanFault::Entry { block, pair } => plan_reason(10, block, pair, 0),
        PlanFault::NoMemory => plan_reason(11, 0, 0, 0),
    }
}
