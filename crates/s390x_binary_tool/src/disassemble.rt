//! The reply to the command `disassemble`.
ghost use Rattle.std.specs.Prelude.{◌<◌, length};
ghost use Rattle.std.specs.Cow.{cow_slice_items};
ghost use Rattle.s390x_tool.specs.Ends.{too_many};
ghost use Rattle.s390x_binary_tool.specs.Disassemble.{IsDisassembleAnswer, IsDisassembleReply};

use crate::image_text::read_image;
use crate::reply::{BinaryReply, shared_reply, with_text, wrong_at};
use crate::status::BinaryStatus;
use s390x_tool::{Status, no_memory};
use std::alloc::Global;

/// The answer to `disassemble` at this base and its whole input.
pub fn disassemble(alloc: Global, base: u64, input: &[u8]) -> BinaryReply
    requires { length input.now < too_many }
    ensures { IsDisassembleAnswer base input.now result.status (cow_slice_items result.text) }
{
    match read_image(alloc, input) {
        Ok(Ok(code)) => disassembly(alloc, base, &code),
        Ok(Err(number)) => wrong_at(alloc, number),
        Err(_) => shared_reply(no_memory()),
    }
}

// The reply with the disassembly of the code.
fn disassembly(alloc: Global, base: u64, code: &[u8]) -> BinaryReply
    ensures { IsDisassembleReply base code.now result.status (cow_slice_items result.text) }
{
    match s390x_disassembler::disassemble(alloc, base, code) {
        Ok(text) => with_text(BinaryStatus::Shared(Status::Ok), text),
        Err(_) => shared_reply(no_memory()),
    }
}
