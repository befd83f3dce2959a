//! The answer to a command and its whole input.
ghost use Rattle.std.specs.Prelude.{◌≡◌, ◌<◌, ◌⊎◌, length, IfOk, IfErr, Some, None};
ghost use Rattle.std.specs.Cow.{cow_str_bytes};
ghost use Rattle.s390x_job.specs.Completions.{text_limit};
ghost use Rattle.s390x_job.specs.Jobs.{IsJob};
ghost use Rattle.s390x_tool.specs.Answers.{IsAnswer, IsCodeOfJob, IsEmitReply, IsImageReply, IsJobReply, IsLinked, IsOperandsReply, IsRunReply, IsShowReply, job_cause, link_cause_of, texts_of};

use crate::JobCommand;
use crate::reply::{
    Reply, in_hex, link_refused, no_memory, operands_refused, refusal_reply, syntax, with_tables,
    with_text,
};
use crate::status::Status;
use s390x_buffer::MachBufferFinalized;
use s390x_bundle::symbol_table;
use s390x_emit_int::{emit_function, linked_code_runs_as_typed};
use s390x_execution::run_text;
use s390x_image::{Image, LinkError, link};
use s390x_job::{Job, LineError, read_lines};
use s390x_listing::{listed_operands, listed_texts};
use s390x_text::{TextError, valid_blocks_have_texts};
use std::alloc::Global;
use std::borrow::CowStr;

/// The answer to a command and its whole input, whose memory is given back once it is read.
pub fn answer(alloc: Global, command: JobCommand, input: Vec<u8>) -> Reply
    requires { length input.items < text_limit }
    ensures { IsAnswer command input.items result.status (cow_str_bytes result.text) }
{
    match read_lines(alloc, &input) {
        Ok(job) => {
            drop(input);
            reply_to_job(alloc, command, &job)
        }
        Err(LineError::Syntax { line }) => syntax(alloc, line),
        Err(LineError::NoMemory) => no_memory(),
    }
}

// The command's reply to a job.
fn reply_to_job(alloc: Global, command: JobCommand, job: &Job) -> Reply
    requires { IsJob job.now }
    ensures { IsJobReply command job.now result.status (cow_str_bytes result.text) }
{
    match command {
        JobCommand::Image { base } => image(alloc, base, job),
        JobCommand::Emit => emit(alloc, job),
        JobCommand::Run { base, steps } => execution(alloc, base, steps, job),
        JobCommand::Operands => operands(alloc, job),
        JobCommand::Show => show(alloc, job),
    }
}

// The code of the job's function with its tables.
fn emit(alloc: Global, job: &Job) -> Reply
    ensures { IsEmitReply job.now result.status (cow_str_bytes result.text) }
{
    match emit_function(alloc, &job.function, &job.info, job.state) {
        Ok(code) => with_tables(alloc, &code),
        Err(error) => refusal_reply(error),
    }
}

// What the job's instructions report.
fn operands(alloc: Global, job: &Job) -> Reply
    ensures { IsOperandsReply job.now result.status (cow_str_bytes result.text) }
{
    match listed_operands(alloc, &job.function.blocks) {
        Ok(text) => Reply {
            status: Status::Ok,
            text: CowStr::Owned(text),
        },
        Err(error) => operands_refused(error),
    }
}

// The texts of the job's instructions, where its function has a code.
fn show(alloc: Global, job: &Job) -> Reply
    ensures { IsShowReply job.now result.status (cow_str_bytes result.text) }
{
    match emit_function(alloc, &job.function, &job.info, job.state) {
        Ok(code) => {
            drop(code);
            valid_blocks_have_texts();
            texts(alloc, job)
        }
        Err(error) => refusal_reply(error),
    }
}

// The texts of the job's instructions, each of which has one.
fn texts(alloc: Global, job: &Job) -> Reply
    requires valid { job_cause job.now ≡ None }
    requires told { (texts_of job.now).cause ≡ None }
    ensures { IsShowReply job.now result.status (cow_str_bytes result.text) }
{
    match listed_texts(alloc, &job.info, job.state, &job.function.blocks) {
        Ok(text) => Reply {
            status: Status::Ok,
            text: CowStr::Owned(text),
        },
        Err(error) => {
            prove!(matches!(&error, TextError::NoMemory));
            no_memory()
        }
    }
}

// The image of the job's function at the base.
fn image(alloc: Global, base: u64, job: &Job) -> Reply
    ensures { IsImageReply base job.now result.status (cow_str_bytes result.text) }
{
    match emit_function(alloc, &job.function, &job.info, job.state) {
        Ok(code) => image_reply(alloc, base, job, &code),
        Err(error) => refusal_reply(error),
    }
}

// The image of the job's code at the base.
fn image_reply(alloc: Global, base: u64, job: &Job, code: &MachBufferFinalized) -> Reply
    requires { IsCodeOfJob job.now code.now }
    ensures { IsImageReply base job.now result.status (cow_str_bytes result.text) }
{
    match link_job(alloc, base, job, code) {
        Ok(image) => {
            linked_code_runs_as_typed();
            in_hex(alloc, &image.bytes)
        }
        Err(error) => link_refused(error),
    }
}

/// The image of the job's code at the base, with the job's symbols; an error by the first cause by which linking refuses it, or for want of memory.
pub fn link_job(
    alloc: Global,
    base: u64,
    job: &Job,
    code: &MachBufferFinalized,
) -> Result<Image, LinkError>
    requires { IsCodeOfJob job.now code.now }
    ensures linked { IfOk result (λ image. IsLinked base job.now code.now image.bytes.items) }
    ensures base { IfOk result (λ image. image.base ≡ base) }
    ensures size { IfOk result (λ image. length image.bytes.items ≡ length code.now.bytes.items) }
    ensures refused { IfErr result
        (λ e. (e ≡ LinkError.NoMemory) ⊎ (link_cause_of base job.now code.now ≡ Some e)) }
{
    match symbol_table(alloc, &job.symbols) {
        Ok(symbols) => link(alloc, code, base, &symbols),
        Err(_) => Err(LinkError::NoMemory),
    }
}

// What the machine does with the job's image at the base.
fn execution(alloc: Global, base: u64, steps: u32, job: &Job) -> Reply
    requires { IsJob job.now }
    ensures { IsRunReply base steps job.now result.status (cow_str_bytes result.text) }
{
    match emit_function(alloc, &job.function, &job.info, job.state) {
        Ok(code) => run_reply(alloc, base, steps, job, &code),
        Err(error) => refusal_reply(error),
    }
}

// What the machine does with the image of the job's code at the base.
fn run_reply(alloc: Global, base: u64, steps: u32, job: &Job, code: &MachBufferFinalized) -> Reply
    requires job { IsJob job.now }
    requires code { IsCodeOfJob job.now code.now }
    ensures { IsRunReply base steps job.now result.status (cow_str_bytes result.text) }
{
    match link_job(alloc, base, job, code) {
        Ok(image) => with_text(run_text(alloc, job, code, &image, steps)),
        Err(error) => link_refused(error),
    }
}
