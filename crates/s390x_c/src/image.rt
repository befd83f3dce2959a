//! The image of a job's function at a base.
ghost use Rattle.std.specs.Prelude.{◌≡◌, ◌⊎◌};
ghost use Rattle.s390x_c.specs.Image.{IsImageCall, IsLinked, IsRefusalOf, LinksJobTo, LinksTo, MayRefuse};

use crate::refused::refusal_status;
use s390x_base::EmitError;
use s390x_bundle::symbol_table;
use s390x_calls::{MOST_BYTES, Place, Reason, Status, put_entries};
use s390x_emit_int::{ImageError, emit_image};
use s390x_image::LinkError;
use s390x_job::{Job, LineError, read_lines};
use std::alloc::Global;

/// The image of a job's function at a base, with the symbols of the job's own lines. The input is the job's text.
///
/// A machine that fetches it there does only what the job's instructions allow.
///
/// - `Done`: `out` begins with the image, which has `count` bytes.
/// - `TooLong`: the input has more than 16777216 bytes.
/// - `Syntax`: it is no job's text; `reason.line` is its first wrong line.
/// - `Refused`: emission refuses the job's function; `reason.cause` is the number of the first cause, and `reason.place` where it stands.
/// - `LinkRefused`: linking refuses its code at the base; `reason.cause` is the number of the first cause.
/// - `TooSmall`: the image has no room in the buffer; `count` says how many bytes it has.
/// - `NoMemory`: there was none.
///
/// The buffer isn't written but with `Done`, `count` but with `Done` and `TooSmall`, `reason` but with `Syntax`, `Refused` and
/// `LinkRefused`.
#[unsafe(no_mangle)]
pub extern "C" fn s390x_image(
    alloc: Global,
    input: &[u8],
    base: u64,
    out: &mut [u8],
    count: &mut usize,
    reason: &mut Reason,
) -> u32
    ensures answer { IsImageCall base input.now out.old out.new count.old count.new
        reason.old reason.new result }
    // A job that neither emission nor linking has a cause to refuse is done, where the buffer has
    // room.
    ensures complete { IsLinked base input.now out.old → (result ≡ 0) ⊎ (result ≡ 9) }
{
    image(alloc, input, base, out, count, reason).number()
}

// The image of the function of the job whose text the input is.
#[tactic(auto, using(s390x_calls::proofs::Ending::no_job))]
fn image(
    alloc: Global,
    input: &[u8],
    base: u64,
    out: &mut [u8],
    count: &mut usize,
    reason: &mut Reason,
) -> Status
    ensures { LinksTo base input.now out.old out.new count.old count.new
        reason.old reason.new result }
{
    if input.len() > MOST_BYTES {
        return Status::TooLong;
    }
    match read_lines(alloc, input) {
        Ok(job) => image_of_job(alloc, &job, base, out, count, reason),
        Err(LineError::Syntax { line }) => {
            *reason = Reason::at_line(line);
            Status::Syntax
        }
        Err(LineError::NoMemory) => Status::NoMemory,
    }
}

// The image of this job's function.
#[tactic(auto, using(crate::proofs::Answering::may_refuse, crate::proofs::Answering::image_refused))]
fn image_of_job(
    alloc: Global,
    job: &Job,
    base: u64,
    out: &mut [u8],
    count: &mut usize,
    reason: &mut Reason,
) -> Status
    ensures { LinksJobTo base out.old out.new count.old count.new
        reason.old reason.new job.now result }
{
    let Ok(symbols) = symbol_table(alloc, &job.symbols) else {
        return Status::NoMemory;
    };
    match emit_image(alloc, &job.function, &job.info, job.state, base, &symbols) {
        Ok(image) => put_entries(&image.bytes, out, count),
        Err(error) => refusal(alloc, job, error, reason),
    }
}

// How the call ends for a function that has no image by this error.
#[tactic(auto, using(crate::proofs::Answering::refusable))]
fn refusal(alloc: Global, job: &Job, error: ImageError, reason: &mut Reason) -> Status
    requires { MayRefuse job.now error }
    ensures { IsRefusalOf job.now error reason.old reason.new result }
{
    match error {
        ImageError::Refused(EmitError::NoMemory) | ImageError::Link(LinkError::NoMemory) => {
            Status::NoMemory
        }
        ImageError::Refused(_) => refusal_status(alloc, job, reason),
        ImageError::Link(error) => {
            *reason = Reason::by_cause(error.number(), Place::none());
            Status::LinkRefused
        }
    }
}
