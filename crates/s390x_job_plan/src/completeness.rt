//! Lines of a text, completed to the text of a planned job.
ghost use Rattle.std.specs.Prelude.{◌≡◌, ◌++◌, IfOk, OnOk, map};
ghost use Rattle.s390x_job.specs.Completions.{text_of_lines};
ghost use Rattle.s390x_job_plan.specs.Completions.{job_ending, plan_completion};

use s390x_job::{count_closes, count_opens, put_closing, put_joined};
use s390x_job_bundle::{has_line, put_line_ending};
use std::alloc::{AllocError, Global};

/// The text of lines, each with its line feed.
pub fn join(alloc: Global, ws: &[&[u8]]) -> Result<Vec<u8>, AllocError>
    ensures { IfOk result (λ v. v.items ≡ text_of_lines (map (λ w. w.now) ws.now)) }
{
    let mut out = Vec::new(alloc);
    put_joined(&mut out, ws)?;
    Ok(out)
}

// What the job lacks, where none of the lines is `end`.
fn put_job_ending(out: &mut Vec<u8>, ws: &[&[u8]]) -> Result<(), AllocError>
    ensures { OnOk result (out.new.items ≡ out.old.items ++ job_ending (map (λ w. w.now) ws.now)) }
{
    if has_line(b"end", ws) {
        return Ok(());
    }
    put_closing(out, count_opens(ws).saturating_sub(count_closes(ws)))
}

/// The text of lines, completed.
pub fn complete(alloc: Global, ws: &[&[u8]]) -> Result<Vec<u8>, AllocError>
    ensures { IfOk result (λ v. v.items ≡ plan_completion (map (λ w. w.now) ws.now)) }
{
    let mut out = Vec::new(alloc);
    put_joined(&mut out, ws)?;
    put_job_ending(&mut out, ws)?;
    put_line_ending(&mut out, b"plan", ws)?;
    put_line_ending(&mut out, b"close", ws)?;
    Ok(out)
}
