//! Replies: a status, and the text that is written with it.
ghost use Rattle.std.specs.Prelude.{◌≡◌, ◌++◌, codes, IfOk, MatchResult, OnErr, string_bytes};
ghost use Rattle.std.specs.Cow.{cow_str_bytes};
ghost use Rattle.std.specs.Fmt.{decimal};
ghost use Rattle.hex.specs.Hex.{encode_lower};
ghost use Rattle.s390x_tool.specs.Emitted.{emit_text};
ghost use Rattle.s390x_tool.specs.Lines.{line, IsLinkRefusal, IsMade, IsOperandRefusal, IsRefusal, IsUnread};

use crate::emitted::emitted_text;
use crate::error_names::{emit_error_line, link_error_line, operand_error_line};
use crate::input::InputError;
use crate::status::Status;
use s390x_base::{EmitError, NoMemory};
use s390x_buffer::MachBufferFinalized;
use s390x_image::LinkError;
use s390x_operands::OperandError;
use std::alloc::{AllocError, Global};
use std::borrow::CowStr;

/// A status, and the text that is written with it.
#[derive(Drop)]
pub struct Reply {
    pub status: Status,
    pub text: CowStr<'static>,
}

/// A reply with a line that is the same each time.
pub fn static_reply(status: Status, text: &'static str) -> Reply
    ensures status { result.status ≡ status }
    ensures text { cow_str_bytes result.text ≡ text.entry.now }
{
    Reply {
        status,
        text: CowStr::Borrowed(text),
    }
}

/// The reply where memory doesn't suffice.
pub fn no_memory() -> Reply
    ensures status { result.status ≡ Status.NoMemory }
    ensures text { cow_str_bytes result.text ≡ line (codes "no memory") }
{
    static_reply(Status::NoMemory, "no memory\n")
}

/// The reply where the input isn't read to its end.
pub fn unread(error: InputError) -> Reply
    ensures { IsUnread error result.status (cow_str_bytes result.text) }
{
    match error {
        InputError::Fault => static_reply(Status::ReadFault, "read fault\n"),
        InputError::TooLong => static_reply(Status::InputTooLong, "input too long\n"),
        InputError::NoMemory => no_memory(),
    }
}

/// A reply with a text that was made, or that memory doesn't suffice for.
pub fn text_reply(status: Status, text: Result<String, AllocError>) -> Reply
    ensures ok { IfOk text
        (λ t. (result.status ≡ status) × (cow_str_bytes result.text ≡ string_bytes t)) }
    ensures err { OnErr text
        ((result.status ≡ Status.NoMemory)
        × (cow_str_bytes result.text ≡ line (codes "no memory"))) }
{
    match text {
        Ok(text) => Reply {
            status,
            text: CowStr::Owned(text),
        },
        Err(_) => no_memory(),
    }
}

/// The reply to an input that is no text of what the command reads: the number of its first line that is at fault.
pub fn syntax(alloc: Global, number: u32) -> Reply
    ensures { IsMade Status.Syntax (line (codes "syntax " ++ decimal number)) result.status
        (cow_str_bytes result.text) }
{
    text_reply(Status::Syntax, format!(in alloc; "syntax {number}\n"))
}

/// The reply with bytes in hex.
pub fn in_hex(alloc: Global, bytes: &[u8]) -> Reply
    ensures { IsMade Status.Ok (line (encode_lower bytes.now)) result.status
        (cow_str_bytes result.text) }
{
    text_reply(Status::Ok, hex_line(alloc, bytes))
}

// Bytes in lower-case hex, and a line feed.
fn hex_line(alloc: Global, bytes: &[u8]) -> Result<String, AllocError>
    ensures { IfOk result (λ text. string_bytes text ≡ line (encode_lower bytes.now)) }
{
    let mut text = hex::encode(alloc, bytes)?;
    text.push_str("\n")?;
    Ok(text)
}

/// The reply with a finished code and its tables.
pub fn with_tables(alloc: Global, code: &MachBufferFinalized) -> Reply
    ensures { IsMade Status.Ok (emit_text code.now) result.status (cow_str_bytes result.text) }
{
    text_reply(Status::Ok, emitted_text(alloc, code))
}

/// The reply with a text that was made, or that memory doesn't suffice for.
pub fn with_text(text: Result<String, NoMemory>) -> Reply
    ensures { MatchResult text
        (λ t. (result.status ≡ Status.Ok) × (cow_str_bytes result.text ≡ string_bytes t))
        (λ _. (result.status ≡ Status.NoMemory)
        × (cow_str_bytes result.text ≡ line (codes "no memory"))) }
{
    match text {
        Ok(text) => Reply {
            status: Status::Ok,
            text: CowStr::Owned(text),
        },
        Err(_) => no_memory(),
    }
}

/// The reply to a job that emission refuses.
pub fn refusal_reply(error: EmitError) -> Reply
    ensures { IsRefusal error result.status (cow_str_bytes result.text) }
{
    match error {
        EmitError::NoMemory => no_memory(),
        _ => static_reply(Status::Refused, emit_error_line(error)),
    }
}

/// The reply to a job whose code isn't linked.
pub fn link_refused(error: LinkError) -> Reply
    ensures { IsLinkRefusal error result.status (cow_str_bytes result.text) }
{
    match error {
        LinkError::NoMemory => no_memory(),
        _ => static_reply(Status::LinkRefused, link_error_line(error)),
    }
}

/// The reply to a job whose operands aren't reported.
pub fn operands_refused(error: OperandError) -> Reply
    ensures { IsOperandRefusal error result.status (cow_str_bytes result.text) }
{
    match error {
        OperandError::NoMemory => no_memory(),
        _ => static_reply(Status::Refused, operand_error_line(error)),
    }
}
