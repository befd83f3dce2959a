//! The texts of a job's instructions.
ghost use Rattle.std.specs.Prelude.{◌≡◌, ◌⊎◌, None};
ghost use Rattle.s390x_c.specs.Refused.{job_cause};
ghost use Rattle.s390x_c.specs.Show.{IsShowCall, IsShown, PutsTexts, ShowsJobTo, ShowsTo, texts_of};

use crate::refused::refusal_status;
use s390x_base::EmitError;
use s390x_calls::{MOST_BYTES, Reason, Status, put_entries};
use s390x_emit_int::emit_function;
use s390x_job::{Job, LineError, read_lines};
use s390x_listing::listed_texts;
use s390x_text::{TextError, valid_blocks_have_texts};
use std::alloc::Global;

/// The texts of a job's instructions: for each block the line `block K`, and a line for each of its instructions. The input is the job's
/// text.
///
/// - `Done`: `out` begins with the texts, which have `count` bytes.
/// - `TooLong`: the input has more than 16777216 bytes.
/// - `Syntax`: it is no job's text; `reason.line` is its first wrong line.
/// - `Refused`: emission refuses the job's function; `reason.cause` is the number of the first cause, and `reason.place` where it stands.
/// - `TooSmall`: the texts have no room in the buffer; `count` says how many bytes they have.
/// - `NoMemory`: there was none.
///
/// The buffer isn't written but with `Done`, `count` but with `Done` and `TooSmall`, `reason` but with `Syntax` and `Refused`.
#[unsafe(no_mangle)]
pub extern "C" fn s390x_show(
    alloc: Global,
    input: &[u8],
    out: &mut [u8],
    count: &mut usize,
    reason: &mut Reason,
) -> u32
    ensures answer { IsShowCall input.now out.old out.new count.old count.new
        reason.old reason.new result }
    // A job that emission has no cause to refuse is done, where the buffer has room.
    ensures complete { IsShown input.now out.old → (result ≡ 0) ⊎ (result ≡ 9) }
{
    show(alloc, input, out, count, reason).number()
}

// The texts of the instructions of the job whose text the input is.
#[tactic(auto, using(s390x_calls::proofs::Ending::no_job))]
fn show(
    alloc: Global,
    input: &[u8],
    out: &mut [u8],
    count: &mut usize,
    reason: &mut Reason,
) -> Status
    ensures { ShowsTo input.now out.old out.new count.old count.new
        reason.old reason.new result }
{
    if input.len() > MOST_BYTES {
        return Status::TooLong;
    }
    match read_lines(alloc, input) {
        Ok(job) => show_job(alloc, &job, out, count, reason),
        Err(LineError::Syntax { line }) => {
            *reason = Reason::at_line(line);
            Status::Syntax
        }
        Err(LineError::NoMemory) => Status::NoMemory,
    }
}

// The texts of this job's instructions, where its function has a code.
#[tactic(auto, using(crate::proofs::Answering::refusable, crate::proofs::Answering::listing_refused, crate::proofs::Answering::texts_shown))]
fn show_job(
    alloc: Global,
    job: &Job,
    out: &mut [u8],
    count: &mut usize,
    reason: &mut Reason,
) -> Status
    ensures { ShowsJobTo out.old out.new count.old count.new
        reason.old reason.new job.now result }
{
    match emit_function(alloc, &job.function, &job.info, job.state) {
        Ok(_) => {
            valid_blocks_have_texts();
            put_texts(alloc, job, out, count)
        }
        Err(EmitError::NoMemory) => Status::NoMemory,
        Err(_) => refusal_status(alloc, job, reason),
    }
}

// The texts of this job's instructions, each of which has one.
#[tactic(auto, using(crate::proofs::Answering::texts_put))]
fn put_texts(alloc: Global, job: &Job, out: &mut [u8], count: &mut usize) -> Status
    requires { (texts_of job.now).cause ≡ None }
    ensures { PutsTexts job.now out.old out.new count.old count.new result }
{
    match listed_texts(alloc, &job.info, job.state, &job.function.blocks) {
        Ok(text) => put_entries(text.as_bytes(), out, count),
        Err(error) => {
            prove!(matches!(&error, TextError::NoMemory));
            Status::NoMemory
        }
    }
}
