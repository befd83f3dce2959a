//! The reply to the command `gen`.
ghost use Rattle.std.specs.Prelude.{◌≤◌};
ghost use Rattle.std.specs.Cow.{cow_str_bytes};
ghost use Rattle.s390x_generator.specs.Generator.{IsGenerated, most_blocks};
ghost use Rattle.s390x_tool.specs.Generated.{IsGenerateReply, summary_line};
ghost use Rattle.s390x_tool.specs.Lines.{IsMade};

use crate::reply::{Reply, link_refused, no_memory, refusal_reply, text_reply};
use crate::status::Status;
use s390x_emit_int::{ImageError, emit_image};
use s390x_generator::{byte_sum, generated_function, generated_functions_are_valid};
use s390x_image::SymbolTable;
use s390x_inst::{AllocatedFunction, EmitInfo, EmitState, IsaFlags};
use std::alloc::Global;

/// The address at which a generated function is linked.
const BASE: u64 = 4096;

/// How many bytes the image of the generated function of so many blocks has, and their sum.
pub fn generate(alloc: Global, count: u32, start: u32) -> Reply
    requires { count ≤ most_blocks }
    ensures { IsGenerateReply count start result.status (cow_str_bytes result.text) }
{
    match generated_function(alloc, count, start) {
        Ok(function) => image_told(alloc, count, start, &function),
        Err(_) => no_memory(),
    }
}

// What is told of the function's image, or of its refusal.
fn image_told(alloc: Global, count: u32, start: u32, function: &AllocatedFunction) -> Reply
    requires few { count ≤ most_blocks }
    requires generated { IsGenerated count start function.now }
    ensures { IsGenerateReply count start result.status (cow_str_bytes result.text) }
{
    generated_functions_are_valid();
    let info = EmitInfo::new(IsaFlags::default());
    let symbols = SymbolTable::new(alloc);
    match emit_image(alloc, function, &info, EmitState::default(), BASE, &symbols) {
        Ok(image) => summary(alloc, count, &image.bytes),
        Err(ImageError::Refused(error)) => refusal_reply(error),
        Err(ImageError::Link(error)) => link_refused(error),
    }
}

// The line of the image of a function of so many blocks.
fn summary(alloc: Global, count: u32, bytes: &[u8]) -> Reply
    ensures { IsMade Status.Ok (summary_line count bytes.now) result.status
        (cow_str_bytes result.text) }
{
    let size = bytes.len();
    let total = byte_sum(bytes);
    text_reply(
        Status::Ok,
        format!(in alloc; "blocks {count} bytes {size} sum {total}\n"),
    )
}
