//! The reply to the command `list`.
ghost use Rattle.std.specs.Prelude.{◌<◌, ◌≡◌, IfOk, length, string_bytes};
ghost use Rattle.std.specs.Cow.{cow_slice_items};
ghost use Rattle.s390x_tool.specs.Answers.{IsCodeOfJob, IsLinked};
ghost use Rattle.s390x_tool.specs.Ends.{too_many};
ghost use Rattle.s390x_binary_tool.specs.CodeListing.{IsCodeListing};
ghost use Rattle.s390x_binary_tool.specs.Listing.{IsListAnswer, IsListReply};

use crate::code_listing::listed_code;
use crate::reply::{BinaryReply, shared_reply, with_text};
use crate::status::BinaryStatus;
use s390x_buffer::MachBufferFinalized;
use s390x_emit_int::emit_function;
use s390x_image::Image;
use s390x_job::{Job, LineError, read_lines};
use s390x_text::valid_blocks_have_texts;
use s390x_tool::{Status, link_job, link_refused, no_memory, refusal_reply, syntax};
use std::alloc::{AllocError, Global};

/// The answer to `list` at this base and its whole input.
pub fn list(alloc: Global, base: u64, input: &[u8]) -> BinaryReply
    requires { length input.now < too_many }
    ensures { IsListAnswer base input.now result.status (cow_slice_items result.text) }
{
    match read_lines(alloc, input) {
        Ok(job) => list_of_job(alloc, base, &job),
        Err(LineError::Syntax { line }) => shared_reply(syntax(alloc, line)),
        Err(LineError::NoMemory) => shared_reply(no_memory()),
    }
}

// The reply to a job.
fn list_of_job(alloc: Global, base: u64, job: &Job) -> BinaryReply
    ensures { IsListReply base job.now result.status (cow_slice_items result.text) }
{
    match emit_function(alloc, &job.function, &job.info, job.state) {
        Ok(code) => list_of_code(alloc, base, job, &code),
        Err(error) => shared_reply(refusal_reply(error)),
    }
}

// The reply to a job with this code.
fn list_of_code(alloc: Global, base: u64, job: &Job, code: &MachBufferFinalized) -> BinaryReply
    requires { IsCodeOfJob job.now code.now }
    ensures { IsListReply base job.now result.status (cow_slice_items result.text) }
{
    match link_job(alloc, base, job, code) {
        Ok(image) => list_of_image(alloc, base, job, code, &image),
        Err(error) => shared_reply(link_refused(error)),
    }
}

// The reply to a job with this code and its image at the base.
fn list_of_image(
    alloc: Global,
    base: u64,
    job: &Job,
    code: &MachBufferFinalized,
    image: &Image,
) -> BinaryReply
    requires code { IsCodeOfJob job.now code.now }
    requires linked { IsLinked base job.now code.now image.now.bytes.items }
    requires base { image.now.base ≡ base }
    ensures { IsListReply base job.now result.status (cow_slice_items result.text) }
{
    match listing(alloc, base, job, code, image) {
        Ok(text) => with_text(BinaryStatus::Shared(Status::Ok), text),
        Err(_) => shared_reply(no_memory()),
    }
}

// The listing of a job's code and its image at the base; each of its instructions has a text.
fn listing(
    alloc: Global,
    base: u64,
    job: &Job,
    code: &MachBufferFinalized,
    image: &Image,
) -> Result<String, AllocError>
    requires code { IsCodeOfJob job.now code.now }
    requires base { image.now.base ≡ base }
    ensures { IfOk result
        (λ text. IsCodeListing job.now.info.isa_flags job.now.state job.now.function.blocks.items
        code.now base image.now.bytes.items (string_bytes text)) }
{
    valid_blocks_have_texts();
    listed_code(
        alloc,
        &job.info,
        job.state,
        &job.function.blocks,
        code,
        image,
    )
}
