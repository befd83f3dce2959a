//! The reply to the command `alloc`.
ghost use Rattle.std.specs.Prelude.{◌≡◌, ◌<◌, ◌++◌, ◌∷◌, [], codes, length};
ghost use Rattle.std.specs.Cow.{cow_str_bytes};
ghost use Rattle.s390x_job_plan.specs.Completions.{plan_limit};
ghost use Rattle.s390x_job_plan.specs.Text.{IsPlannedOf};
ghost use Rattle.s390x_tool.specs.Allocated.{IsAllocateAnswer, IsPlanRefusal, numbered_fault};
ghost use Rattle.s390x_tool.specs.Lines.{IsMade, line};

use crate::error_names::operand_error_name;
use crate::reply::{Reply, no_memory, static_reply, syntax, text_reply, with_text};
use crate::status::Status;
use s390x_alloc::{PlanFault, check_plan};
use s390x_inst::MachInstEmitState;
use s390x_job::lines_of_job;
use s390x_job_plan::{PlanTextError, PlannedJob, answered_jobs_are_jobs, read_plan};
use std::alloc::Global;

/// The answer to `alloc` and its whole input:
///
/// - `Ok`, where the input is the text of a job with a plan that has no fault: the text of the job with the function that the plan gives in place of its own;
/// - `PlanRefused`, where the plan has a fault: the line of its first one;
/// - `Syntax`, where the input is the text of no job with a plan: the number of its first wrong line;
/// - `NoMemory`, which may come in place of any of these.
pub fn alloc_reply(alloc: Global, input: &[u8]) -> Reply
    requires { length input.now < plan_limit }
    ensures { IsAllocateAnswer input.now result.status (cow_str_bytes result.text) }
{
    match read_plan(alloc, input) {
        Ok(planned) => job_with_plan(alloc, input, planned),
        Err(PlanTextError::Syntax { line }) => syntax(alloc, line),
        Err(PlanTextError::NoMemory) => no_memory(),
    }
}

// The text of this planned job, which is that of the input, with the plan's registers.
fn job_with_plan(alloc: Global, input: &[u8], planned: PlannedJob) -> Reply
    requires { IsPlannedOf input.now planned }
    ensures { IsAllocateAnswer input.now result.status (cow_str_bytes result.text) }
{
    let mut job = planned.job;
    match check_plan(
        alloc,
        &job.function,
        job.state.frame_layout(),
        &planned.plan,
    ) {
        Ok(function) => {
            answered_jobs_are_jobs();
            job.function = function;
            with_text(lines_of_job(alloc, &job))
        }
        Err(fault) => plan_refused(alloc, fault),
    }
}

// The reply to a plan with this fault.
fn plan_refused(alloc: Global, fault: PlanFault) -> Reply
    ensures { IsPlanRefusal fault result.status (cow_str_bytes result.text) }
{
    match fault {
        PlanFault::Blocks => static_reply(Status::PlanRefused, "plan Blocks\n"),
        PlanFault::Unsupported { block, inst } => refused_at(alloc, "Unsupported", block, inst),
        PlanFault::Shape { block, inst } => refused_at(alloc, "Shape", block, inst),
        PlanFault::Order { block, edit } => refused_at(alloc, "Order", block, edit),
        PlanFault::Operands { block, edit, cause } => {
            refused_cause(alloc, "Operands", block, edit, operand_error_name(cause))
        }
        PlanFault::Count { block, edit } => refused_at(alloc, "Count", block, edit),
        PlanFault::Constraint {
            block,
            edit,
            operand,
        } => refused_operand(alloc, "Constraint", block, edit, operand),
        PlanFault::Move { block, edit } => refused_at(alloc, "Move", block, edit),
        PlanFault::Value {
            block,
            edit,
            operand,
        } => refused_operand(alloc, "Value", block, edit, operand),
        PlanFault::Entry { block, pair } => refused_at(alloc, "Entry", block, pair),
        PlanFault::NoMemory => no_memory(),
    }
}

// The reply with a fault of a block's instruction, edit or pair.
fn refused_at(alloc: Global, name: &'static str, block: u32, place: u32) -> Reply
    ensures { IsMade Status.PlanRefused
        (line (codes "plan " ++ numbered_fault name.entry.now (block ∷ place ∷ []))) result.status
        (cow_str_bytes result.text) }
{
    text_reply(
        Status::PlanRefused,
        format!(in alloc; "plan {name} {block} {place}\n"),
    )
}

// The reply with a fault of an edit's operand.
fn refused_operand(alloc: Global, name: &'static str, block: u32, edit: u32, operand: u32) -> Reply
    ensures { IsMade Status.PlanRefused
        (line (codes "plan " ++ numbered_fault name.entry.now (block ∷ edit ∷ operand ∷ [])))
        result.status (cow_str_bytes result.text) }
{
    text_reply(
        Status::PlanRefused,
        format!(in alloc; "plan {name} {block} {edit} {operand}\n"),
    )
}

// The reply with a fault of an edit, and what refuses it.
fn refused_cause(
    alloc: Global,
    name: &'static str,
    block: u32,
    edit: u32,
    cause: &'static str,
) -> Reply
    ensures { IsMade Status.PlanRefused
        (line
        (codes "plan "
        ++ (numbered_fault name.entry.now (block ∷ edit ∷ []) ++ (32 ∷ cause.entry.now))))
        result.status (cow_str_bytes result.text) }
{
    text_reply(
        Status::PlanRefused,
        format!(in alloc; "plan {name} {block} {edit} {cause}\n"),
    )
}
