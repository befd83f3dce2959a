//! Replies of the second program: a status, and what is written with it.
ghost use Rattle.std.specs.Prelude.{◌≡◌, ◌++◌, codes, IfOk, OnErr, string_bytes};
ghost use Rattle.std.specs.Cow.{cow_slice_items, cow_str_bytes};
ghost use Rattle.std.specs.Fmt.{decimal};
ghost use Rattle.s390x_tool.specs.Lines.{line};
ghost use Rattle.s390x_tool.specs.declared.status.Status.TheVariants as first;
ghost use Rattle.s390x_binary_tool.specs.Made.{IsMadeReply};
ghost use Rattle.s390x_binary_tool.specs.declared.status.BinaryStatus.TheVariants.{Shared};

use crate::status::BinaryStatus;
use s390x_tool::{Reply, Status, no_memory};
use std::alloc::{AllocError, Global};
use std::borrow::{CowSlice, CowStr};

/// A status, and what is written with it: a text, or the bytes of a file.
#[derive(Drop)]
pub struct BinaryReply {
    pub status: BinaryStatus,
    pub text: CowSlice<'static, u8>,
}

/// A reply that the first program has too.
pub fn shared_reply(reply: Reply) -> BinaryReply
    ensures status { result.status ≡ Shared reply.status }
    ensures text { cow_slice_items result.text ≡ cow_str_bytes reply.text }
{
    BinaryReply {
        status: BinaryStatus::Shared(reply.status),
        text: bytes_of(reply.text),
    }
}

// A text's bytes.
fn bytes_of(text: CowStr<'static>) -> CowSlice<'static, u8>
    ensures { cow_slice_items result ≡ cow_str_bytes text.entry }
{
    match text {
        CowStr::Borrowed(text) => CowSlice::Borrowed(text.as_bytes()),
        CowStr::Owned(text) => CowSlice::Owned(text.into_bytes()),
    }
}

/// A reply with a text that was made, or that memory doesn't suffice for.
pub fn text_reply(status: BinaryStatus, text: Result<String, AllocError>) -> BinaryReply
    ensures ok { IfOk text
        (λ t. (result.status ≡ status) × (cow_slice_items result.text ≡ string_bytes t)) }
    ensures err { OnErr text
        ((result.status ≡ Shared first.NoMemory)
        × (cow_slice_items result.text ≡ line (codes "no memory"))) }
{
    match text {
        Ok(text) => with_text(status, text),
        Err(_) => shared_reply(no_memory()),
    }
}

/// A reply with a text.
pub fn with_text(status: BinaryStatus, text: String) -> BinaryReply
    ensures status { result.status ≡ status }
    ensures text { cow_slice_items result.text ≡ string_bytes text }
{
    BinaryReply {
        status,
        text: CowSlice::Owned(text.into_bytes()),
    }
}

/// A reply with a line that is the same each time.
pub fn with_line(status: BinaryStatus, text: &'static str) -> BinaryReply
    ensures status { result.status ≡ status }
    ensures text { cow_slice_items result.text ≡ text.entry.now }
{
    BinaryReply {
        status,
        text: CowSlice::Borrowed(text.as_bytes()),
    }
}

/// A reply with a file.
pub fn with_file(file: Vec<u8>) -> BinaryReply
    ensures status { result.status ≡ Shared first.Ok }
    ensures text { cow_slice_items result.text ≡ file.items }
{
    BinaryReply {
        status: BinaryStatus::Shared(Status::Ok),
        text: CowSlice::Owned(file),
    }
}

/// The reply to an input that is no text of what the command reads: the number of its first line that is at fault.
pub fn wrong_at(alloc: Global, number: usize) -> BinaryReply
    ensures { IsMadeReply (Shared first.Syntax) (line (codes "syntax " ++ decimal number))
        result.status (cow_slice_items result.text) }
{
    text_reply(
        BinaryStatus::Shared(Status::Syntax),
        format!(in alloc; "syntax {number}\n"),
    )
}
