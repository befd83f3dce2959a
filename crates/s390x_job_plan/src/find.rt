//! The planned job of a text.
ghost use Rattle.std.specs.Prelude.{◌≡◌, ◌<◌, ◌↔◌, IsTrue, IfOk, length, map};
ghost use Rattle.s390x_job.specs.Completions.{text_limit, text_of_lines};
ghost use Rattle.s390x_job_plan.specs.Errors.{IsParseOutcome, IsPlanOutcome};

use crate::completeness::join;
use crate::line::read_line;
use crate::planned_job::PlannedJob;
use crate::progress::{Progress, follow};
use s390x_alloc::Plan;
use s390x_job::split_lines;
use s390x_job_bundle::{count_lines, job_size, read_job};
use std::alloc::{AllocError, Global};

/// What the lines behind a job are: a plan, or a number of them that no plan goes past.
#[derive(Drop)]
pub enum PlanOutcome {
    Whole(Plan),
    Stuck(usize),
}

/// What a reader found: the planned job, or a number of lines where the text is no planned job's: no more of them can be completed to one.
#[derive(Drop)]
pub enum ParseOutcome {
    Whole(PlannedJob),
    Stuck(usize),
}

/// The plan whose lines these are. Where there is none, a number of them: no plan begins with more.
pub fn find_plan(alloc: Global, lines: &[&[u8]]) -> Result<PlanOutcome, AllocError>
    ensures { IfOk result (IsPlanOutcome (map (λ w. w.now) lines.now)) }
{
    let mut progress = Progress::Start;
    let mut text = String::new(alloc);
    for (n, bytes) in lines.iter().enumerate() {
        let Some(line) = read_line(alloc, &mut text, bytes)? else {
            return Ok(PlanOutcome::Stuck(n));
        };
        match follow(alloc, progress, line)? {
            None => return Ok(PlanOutcome::Stuck(n)),
            Some(more) => progress = more,
        }
    }
    match progress {
        Progress::Done(blocks) => Ok(PlanOutcome::Whole(Plan { blocks })),
        _ => Ok(PlanOutcome::Stuck(lines.len())),
    }
}

// Whether the text ends with its last line.
fn is_all(alloc: Global, lines: &[&[u8]], bytes: &[u8]) -> Result<bool, AllocError>
    ensures { IfOk result
        (λ b. IsTrue b ↔ (text_of_lines (map (λ w. w.now) lines.now) ≡ bytes.now)) }
{
    let text = join(alloc, lines)?;
    Ok(text.as_slice() == bytes)
}

/// The planned job whose text this is. Where there is none, a number of its lines: no more of them can be completed to the text of a planned job.
pub fn find_planned(alloc: Global, bytes: &[u8]) -> Result<ParseOutcome, AllocError>
    requires { length bytes.now < text_limit }
    ensures { IfOk result (IsParseOutcome bytes.now) }
{
    let size = job_size(bytes);
    let job = match read_job(alloc, &bytes[..size])? {
        Ok(job) => job,
        Err(line) => return Ok(ParseOutcome::Stuck(line as usize - 1)),
    };
    let before = count_lines(&bytes[..size]);
    let rest = &bytes[size..];
    let lines = split_lines(alloc, rest)?;
    match find_plan(alloc, &lines)? {
        PlanOutcome::Stuck(n) => Ok(ParseOutcome::Stuck(before + n)),
        PlanOutcome::Whole(plan) => {
            if is_all(alloc, &lines, rest)? {
                Ok(ParseOutcome::Whole(PlannedJob { job, plan }))
            } else {
                Ok(ParseOutcome::Stuck(before + lines.len()))
            }
        }
    }
}
