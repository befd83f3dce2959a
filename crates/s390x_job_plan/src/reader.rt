//! The exact reader of a planned job's text.
ghost use Rattle.std.specs.Prelude.{◌<◌, IfErr, IfOk, MatchResult, length};
ghost use Rattle.s390x_job_plan.specs.Completions.{IsPlannedText, plan_completion, plan_limit};
ghost use Rattle.s390x_job_plan.specs.Errors.{HasNoPlan};
ghost use Rattle.s390x_job_plan.specs.Text.{IsPlannedOf};

use crate::completeness::complete;
use crate::error::PlanTextError;
use crate::find::{ParseOutcome, find_planned};
use crate::planned_job::PlannedJob;
use s390x_job::{Completes, first_wrong};
use std::alloc::{AllocError, Global};

/// The text of a planned job.
struct PlannedText;

impl Completes for PlannedText {
    ghost limit = { plan_limit };

    ghost completed = { plan_completion };

    ghost IsWhole = { IsPlannedText };

    fn complete(alloc: Global, ws: &[&[u8]]) -> Result<Vec<u8>, AllocError> {
        complete(alloc, ws)
    }

    fn is_whole(alloc: Global, bytes: &[u8]) -> Result<bool, AllocError> {
        match find_planned(alloc, bytes)? {
            ParseOutcome::Whole(_) => Ok(true),
            ParseOutcome::Stuck(_) => Ok(false),
        }
    }
}

fn read_inner(alloc: Global, bytes: &[u8]) -> Result<Result<PlannedJob, PlanTextError>, AllocError>
    requires { length bytes.now < plan_limit }
    ensures { IfOk result (λ r. MatchResult r (IsPlannedOf bytes.now) (HasNoPlan bytes.now)) }
{
    match find_planned(alloc, bytes)? {
        ParseOutcome::Whole(planned) => Ok(Ok(planned)),
        ParseOutcome::Stuck(top) => {
            let line = first_wrong::<PlannedText>(alloc, bytes, top)?;
            Ok(Err(PlanTextError::Syntax { line }))
        }
    }
}

/// The job and the plan whose text this is: the lines of the job; a line `plan`; for each block a line `block`, a line `entry PLACE=REG` for each pair with
/// which it begins, and a line `move TO FROM` or `step [R,R]` for each edit, in order; and a line `close`. A place is a real register or a slot `sN`, N below
/// 65536. The plan may have another number of blocks than the job.
///
/// `Syntax` comes exactly where the bytes are the text of no planned job. Its line is 1 plus the greatest k that is 0 or for which the first k lines can be
/// completed to such a text. Completing adds, where none of the lines is `end`, a line `endloop` for each line that begins with `Loop ` beyond those that are
/// `endloop`, and a line `end`; then a line `plan`, where none is one; then a line `close`, where none is one. `NoMemory` comes for want of memory alone.
pub fn read_plan(alloc: Global, bytes: &[u8]) -> Result<PlannedJob, PlanTextError>
    requires { length bytes.now < plan_limit }
    ensures planned { IfOk result (IsPlannedOf bytes.now) }
    ensures error { IfErr result (HasNoPlan bytes.now) }
{
    match read_inner(alloc, bytes) {
        Ok(read) => read,
        Err(_) => Err(PlanTextError::NoMemory),
    }
}
