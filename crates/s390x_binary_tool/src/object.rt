//! The reply to the command `object`.
ghost use Rattle.std.specs.Prelude.{◌<◌, ◌≡◌, length};
ghost use Rattle.std.specs.Cow.{cow_slice_items};
ghost use Rattle.s390x_tool.specs.Answers.{IsCodeOfJob};
ghost use Rattle.s390x_tool.specs.Ends.{too_many};
ghost use Rattle.s390x_binary_tool.specs.Object.{IsObjectAnswer, IsObjectRefusal, IsObjectReply, object_line};

use crate::reply::{BinaryReply, shared_reply, with_file, with_line};
use crate::status::BinaryStatus;
use s390x_buffer::MachBufferFinalized;
use s390x_elf::ObjectError;
use s390x_emit_int::emit_function;
use s390x_job::{Job, LineError, read_lines};
use s390x_tool::{no_memory, refusal_reply, syntax};
use std::alloc::Global;

/// The answer to `object` with this name for the function, and its whole input.
pub fn object(alloc: Global, name: &str, input: &[u8]) -> BinaryReply
    requires { length input.now < too_many }
    ensures { IsObjectAnswer name.now input.now result.status (cow_slice_items result.text) }
{
    match read_lines(alloc, input) {
        Ok(job) => object_of_job(alloc, name, &job),
        Err(LineError::Syntax { line }) => shared_reply(syntax(alloc, line)),
        Err(LineError::NoMemory) => shared_reply(no_memory()),
    }
}

// The reply to a job.
fn object_of_job(alloc: Global, name: &str, job: &Job) -> BinaryReply
    ensures { IsObjectReply name.now job.now result.status (cow_slice_items result.text) }
{
    match emit_function(alloc, &job.function, &job.info, job.state) {
        Ok(code) => object_of_code(alloc, name, job, &code),
        Err(error) => shared_reply(refusal_reply(error)),
    }
}

// The reply to a job with this code.
fn object_of_code(alloc: Global, name: &str, job: &Job, code: &MachBufferFinalized) -> BinaryReply
    requires { IsCodeOfJob job.now code.now }
    ensures { IsObjectReply name.now job.now result.status (cow_slice_items result.text) }
{
    match s390x_elf::object(alloc, name, code) {
        Ok(file) => with_file(file),
        Err(error) => object_refused(error),
    }
}

/// The reply to code that is not made an object.
pub fn object_refused(error: ObjectError) -> BinaryReply
    ensures { IsObjectRefusal error result.status (cow_slice_items result.text) }
{
    match error {
        ObjectError::NoMemory => shared_reply(no_memory()),
        _ => with_line(BinaryStatus::ObjectRefused, object_line(error)),
    }
}

// The line of a cause.
fn object_line(error: ObjectError) -> &'static str
    ensures { result.now ≡ object_line error }
{
    match error {
        ObjectError::EmptyName => "object EmptyName\n",
        ObjectError::ZeroByte => "object ZeroByte\n",
        ObjectError::DuplicateName => "object DuplicateName\n",
        ObjectError::EmptyMember => "object EmptyMember\n",
        ObjectError::TooLong => "object TooLong\n",
        ObjectError::NoMemory => "object NoMemory\n",
    }
}
