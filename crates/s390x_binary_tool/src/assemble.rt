//! The reply to the command `assemble`.
ghost use Rattle.std.specs.Cow.{cow_slice_items};
ghost use Rattle.s390x_binary_tool.specs.Assemble.{IsAssembleAnswer};

use crate::reply::{BinaryReply, shared_reply, wrong_at};
use s390x_disassembler::AssembleError;
use s390x_tool::{in_hex, no_memory};
use std::alloc::Global;

/// The answer to `assemble` at this base and its whole input.
pub fn assemble(alloc: Global, base: u64, input: &[u8]) -> BinaryReply
    ensures { IsAssembleAnswer base input.now result.status (cow_slice_items result.text) }
{
    match s390x_disassembler::assemble(alloc, base, input) {
        Ok(code) => shared_reply(in_hex(alloc, &code)),
        Err(AssembleError::Syntax { line }) => wrong_at(alloc, line),
        Err(AssembleError::OutOfMemory) => shared_reply(no_memory()),
    }
}
