//! The reply to the command `refusal`.
ghost use Rattle.std.specs.Prelude.{◌≡◌, ◌<◌, ◌++◌, IfOk, OnOk, length, string_bytes};
ghost use Rattle.std.specs.Cow.{cow_slice_items};
ghost use Rattle.s390x_job.specs.Completions.{text_limit};
ghost use Rattle.s390x_tool.specs.declared.status.Status.TheVariants as status;
ghost use Rattle.s390x_binary_tool.specs.Made.{IsMadeReply};
ghost use Rattle.s390x_binary_tool.specs.declared.status.BinaryStatus.TheVariants.{Shared};
ghost use Rattle.s390x_binary_tool.specs.Refusal.{IsRefusalAnswer, IsRefusalReply, more_numbers, path_text, position_text, refusal_line};

use crate::reply::{BinaryReply, shared_reply, text_reply};
use crate::status::BinaryStatus;
use s390x_base::NoMemory;
use s390x_job::{Job, LineError, read_lines};
use s390x_refusal::{Position, Refusal, first_refusal};
use s390x_tool::{Status, emit_error_name, no_memory, static_reply, syntax};
use std::alloc::{AllocError, Global};

/// The answer to `refusal` and its whole input.
pub fn refusal(alloc: Global, input: &[u8]) -> BinaryReply
    requires { length input.now < text_limit }
    ensures { IsRefusalAnswer input.now result.status (cow_slice_items result.text) }
{
    match read_lines(alloc, input) {
        Ok(job) => refusal_of_job(alloc, &job),
        Err(LineError::Syntax { line }) => shared_reply(syntax(alloc, line)),
        Err(LineError::NoMemory) => shared_reply(no_memory()),
    }
}

// The reply to a job.
fn refusal_of_job(alloc: Global, job: &Job) -> BinaryReply
    ensures { IsRefusalReply job.now result.status (cow_slice_items result.text) }
{
    match first_refusal(alloc, &job.function, &job.info, job.state) {
        Ok(None) => shared_reply(static_reply(Status::Ok, "none\n")),
        Ok(Some(refusal)) => refusal_with_place(alloc, &refusal),
        Err(NoMemory) => shared_reply(no_memory()),
    }
}

// The reply with a cause and its place.
fn refusal_with_place(alloc: Global, refusal: &Refusal) -> BinaryReply
    ensures { IsMadeReply (Shared status.Refused)
        (refusal_line refusal.now.error refusal.now.position) result.status
        (cow_slice_items result.text) }
{
    text_reply(
        BinaryStatus::Shared(Status::Refused),
        refusal_line(alloc, refusal),
    )
}

// The cause and its place, and a line feed.
fn refusal_line(alloc: Global, refusal: &Refusal) -> Result<String, AllocError>
    ensures { IfOk result
        (λ text. string_bytes text ≡ refusal_line refusal.now.error refusal.now.position) }
{
    let mut out = String::new(alloc);
    let name = emit_error_name(refusal.error);
    write!(out, "refusal {name} ")?;
    put_position(&mut out, &refusal.position)?;
    out.push_str("\n")?;
    Ok(out)
}

// A place in a function.
fn put_position(out: &mut String, position: &Position) -> Result<(), AllocError>
    ensures { OnOk result
        (string_bytes out.new ≡ string_bytes out.old ++ position_text position.now) }
{
    match position {
        Position::Start => out.push_str("start"),
        Position::Instruction { block, path } => {
            write!(out, "block {block} inst ")?;
            put_path(out, path)
        }
        Position::BlockEnd { block } => write!(out, "block {block} end"),
        Position::Length => out.push_str("length"),
    }
}

// The numbers of a path, with a point between them.
fn put_path(out: &mut String, path: &[usize]) -> Result<(), AllocError>
    ensures { OnOk result (string_bytes out.new ≡ string_bytes out.old ++ path_text path.now) }
{
    match path {
        [] => Ok(()),
        [first, rest @ ..] => {
            write!(out, "{first}")?;
            put_more_numbers(out, rest)
        }
    }
}

// Each number behind a point.
fn put_more_numbers(out: &mut String, numbers: &[usize]) -> Result<(), AllocError>
    ensures { OnOk result
        (string_bytes out.new ≡ string_bytes out.old ++ more_numbers numbers.now) }
{
    for number in numbers {
        write!(out, ".{number}")?;
    }
    Ok(())
}
