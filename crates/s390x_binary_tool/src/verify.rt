//! The reply to the command `verify`.
ghost use Rattle.std.specs.Prelude.{◌<◌, ◌≤◌, ◌++◌, codes, length};
ghost use Rattle.std.specs.Cow.{cow_slice_items};
ghost use Rattle.std.specs.Fmt.{decimal};
ghost use Rattle.s390x_tool.specs.Ends.{too_many};
ghost use Rattle.s390x_tool.specs.Lines.{line};
ghost use Rattle.s390x_binary_tool.specs.Made.{IsMadeReply};
ghost use Rattle.s390x_binary_tool.specs.declared.status.BinaryStatus.TheVariants.{Differs};
ghost use Rattle.s390x_binary_tool.specs.Verify.{IsCutJob, IsVerifyAnswer, IsVerifyReply};

use crate::image_text::{first_difference, read_image};
use crate::reply::{BinaryReply, shared_reply, text_reply};
use crate::status::BinaryStatus;
use s390x_bundle::symbol_table;
use s390x_emit_int::{ImageError, emit_image};
use s390x_job::{Job, LineError, read_lines};
use s390x_job_bundle::{count_lines, job_size};
use s390x_tool::{Status, link_refused, no_memory, refusal_reply, static_reply, syntax};
use std::alloc::Global;

/// The answer to `verify` at this base and its whole input.
pub fn verify(alloc: Global, base: u64, input: &[u8]) -> BinaryReply
    requires { length input.now < too_many }
    ensures { IsVerifyAnswer base input.now result.status (cow_slice_items result.text) }
{
    let size = job_size(input);
    match read_lines(alloc, &input[..size]) {
        Ok(job) => verify_image(alloc, base, &job, input, size),
        Err(LineError::Syntax { line }) => shared_reply(syntax(alloc, line)),
        Err(LineError::NoMemory) => shared_reply(no_memory()),
    }
}

// The answer about the job that the first so many bytes of the input are, and the image behind it.
fn verify_image(alloc: Global, base: u64, job: &Job, input: &[u8], size: usize) -> BinaryReply
    requires short { length input.now < too_many }
    requires within { size ≤ length input.now }
    requires cut { IsCutJob input.now size job.now }
    ensures { IsVerifyAnswer base input.now result.status (cow_slice_items result.text) }
{
    match read_image(alloc, &input[size..]) {
        Ok(Ok(image)) => compare(alloc, base, job, &image),
        Ok(Err(number)) => {
            let line = count_lines(&input[..size]) + number;
            shared_reply(syntax(alloc, line as u32))
        }
        Err(_) => shared_reply(no_memory()),
    }
}

// Whether the bytes are the job's image at the base.
fn compare(alloc: Global, base: u64, job: &Job, image: &[u8]) -> BinaryReply
    ensures { IsVerifyReply base job.now image.now result.status (cow_slice_items result.text) }
{
    let Ok(symbols) = symbol_table(alloc, &job.symbols) else {
        return shared_reply(no_memory());
    };
    match emit_image(alloc, &job.function, &job.info, job.state, base, &symbols) {
        Ok(own) => match first_difference(&own.bytes, image) {
            None => shared_reply(static_reply(Status::Ok, "")),
            Some(at) => differs(alloc, at),
        },
        Err(ImageError::Refused(error)) => shared_reply(refusal_reply(error)),
        Err(ImageError::Link(error)) => shared_reply(link_refused(error)),
    }
}

// The reply to bytes that differ from the image first at this one.
fn differs(alloc: Global, at: usize) -> BinaryReply
    ensures { IsMadeReply Differs (line (codes "differs " ++ decimal at)) result.status
        (cow_slice_items result.text) }
{
    text_reply(BinaryStatus::Differs, format!(in alloc; "differs {at}\n"))
}
