//! The lines of a text, and the part of it that is a job.
ghost use Rattle.std.specs.Prelude.{◌≡◌, ◌≤◌, ◌<◌, IfOk, MatchResult, length};
ghost use Rattle.s390x_job.specs.Completions.{pieces, text_limit};
ghost use Rattle.s390x_job.specs.Jobs.{IsJob, text_of_job};
ghost use Rattle.s390x_job_bundle.specs.Cut.{IsCutAt};
ghost use Rattle.s390x_job_bundle.specs.Errors.{HasNoJob};

use crate::completeness::ends_job;
use s390x_job::{Job, LineError, read_lines};
use s390x_job_fields::separators::{after, before};
use std::alloc::{AllocError, Global};

/// How many lines a text has.
pub fn count_lines(bytes: &[u8]) -> usize
    ensures count { result ≡ length (pieces bytes.now) }
    ensures bound { result ≤ length bytes.now }
{
    let mut count: usize = 0;
    let mut rest = bytes;
    while !rest.is_empty() {
        let line = before(rest, b'\n');
        if line.len() == rest.len() {
            return count;
        }
        rest = after(rest, b'\n');
        count += 1;
    }
    count
}

/// How many bytes of a text are its first job: up to and with its first line `end`, or all where there is none.
pub fn job_size(bytes: &[u8]) -> usize
    ensures bound { result ≤ length bytes.now }
    ensures cut { IsCutAt bytes.now result }
{
    let mut rest = bytes;
    while !rest.is_empty() {
        let line = before(rest, b'\n');
        if line.len() == rest.len() {
            return bytes.len();
        }
        rest = after(rest, b'\n');
        if ends_job(line) {
            return bytes.len() - rest.len();
        }
    }
    bytes.len()
}

/// The job whose text this is, else the number of its first wrong line; an error for want of memory alone.
pub fn read_job(alloc: Global, part: &[u8]) -> Result<Result<Job, u32>, AllocError>
    requires { length part.now < text_limit }
    ensures { IfOk result
        (λ r. MatchResult r (λ j. IsJob j × (text_of_job j ≡ part.now)) (HasNoJob part.now)) }
{
    match read_lines(alloc, part) {
        Ok(job) => Ok(Ok(job)),
        Err(LineError::Syntax { line }) => Ok(Err(line)),
        Err(LineError::NoMemory) => Err(AllocError),
    }
}
