//! The top call of the second program.
ghost use Rattle.std.specs.Prelude.{◌≡◌, ◌<◌, ◌⊎◌, ℕ, List, Some, None, length};
ghost use Rattle.std.specs.Cow.{cow_slice_items};
ghost use Rattle.s390x_tool.specs.Words.{texts};
ghost use Rattle.s390x_tool.specs.Causes.{FaultCountRose};
ghost use Rattle.s390x_tool.specs.Ends.{IsTooLong, too_many};
ghost use Rattle.s390x_tool.specs.Replies.{call_context};
ghost use Rattle.s390x_binary_tool.specs.Words.{IsForm, IsNoForm};
ghost use Rattle.s390x_binary_tool.specs.declared.words.Command.{Command};
ghost use Rattle.s390x_binary_tool.specs.Accepted.{IsAccepted};
ghost use Rattle.s390x_binary_tool.specs.Replies.{IsDelivered, IsDone, IsEnded, IsInputAnswer, IsReply};
ghost use Rattle.s390x_binary_tool.specs.declared.status.BinaryStatus.TheVariants.{Shared};
ghost use Rattle.s390x_tool.specs.declared.status.Status.TheVariants as status;

use crate::assemble::assemble;
use crate::disassemble::disassemble;
use crate::functions::objects;
use crate::list::list;
use crate::object::object;
use crate::refusal::refusal;
use crate::reply::{BinaryReply, shared_reply};
use crate::status::BinaryStatus;
use crate::verify::verify;
use crate::{Command, object_name, read_words};
use s390x_tool::{Failed, Sink, Source, Status, read_input, static_reply, unread, write_text};
use std::alloc::Global;

/// Does what the words ask for with what the source holds, and writes the text or the line of the status to the sink. It reads the source to its end first, and writes
/// nothing before all is computed.
pub fn run<S: Source, K: Sink>(
    alloc: Global,
    words: &[String],
    source: &mut S,
    sink: &mut K,
) -> BinaryStatus
    // The words and the input have this reply, and its text was written whole, or else a prefix of it.
    ensures ended { IsEnded
        (call_context (texts words.now) (S.left source.old) (S.left source.new)
        (S.faults source.old) (S.faults source.new)) (K.told sink.old)
        (K.told sink.new) (K.faults sink.old) (K.faults sink.new) result }
    // At `Ok` the source held what the command reads, which nothing refuses, and the sink was told the command's text for it: `none` of a job that emission
    // doesn't refuse; nothing of a job and its image at this base; the disassembly of code, and of no other; the code of a source; the listing of a job; the object of a job, which
    // runs as typed wherever it is linked; the object of functions.
    ensures ok { result ≡ Shared status.Ok
        → IsDone
        (call_context (texts words.now) (S.left source.old) (S.left source.new)
        (S.faults source.old) (S.faults source.new)) (K.told sink.old)
        (K.told sink.new) }
    // What nothing refuses is done, where no read and no write fails.
    ensures complete { (command : Command) (input : List ℕ) → IsForm (texts words.now) command
        → S.left source.old ≡ Some input → IsAccepted command (texts words.now) input
        → (FaultCountRose (S.faults source.old) (S.faults source.new) → ⊥)
        → (FaultCountRose (K.faults sink.old) (K.faults sink.new) → ⊥)
        → (result ≡ Shared status.Ok) ⊎ (result ≡ Shared status.NoMemory) }
    ensures usage { result ≡ Shared status.Usage → IsNoForm (texts words.now) }
    ensures always_usage { IsNoForm (texts words.now)
        → (result ≡ Shared status.Usage) ⊎ (result ≡ Shared status.WriteFault) }
    ensures read_fault { result ≡ Shared status.ReadFault
        → FaultCountRose (S.faults source.old) (S.faults source.new) }
    ensures always_read_fault { S.faults source.old < S.faults source.new
        → (result ≡ Shared status.ReadFault) ⊎ (result ≡ Shared status.WriteFault) }
    ensures write_fault { result ≡ Shared status.WriteFault
        → FaultCountRose (K.faults sink.old) (K.faults sink.new) }
    ensures always_write_fault { K.faults sink.old < K.faults sink.new
        → result ≡ Shared status.WriteFault }
    ensures too_long { result ≡ Shared status.InputTooLong
        → IsTooLong (S.left source.old) (S.left source.new) }
{
    let reply = reply_to(alloc, words, source);
    deliver(&reply, sink)
}

// The reply to these words and to what the source holds.
fn reply_to<S: Source>(alloc: Global, words: &[String], source: &mut S) -> BinaryReply
    ensures { IsReply
        (call_context (texts words.now) (S.left source.old) (S.left source.new)
        (S.faults source.old) (S.faults source.new)) result.status
        (cow_slice_items result.text) }
{
    let Some(command) = read_words(words) else {
        return shared_reply(static_reply(Status::Usage, "usage\n"));
    };
    match read_input(alloc, source) {
        Ok(input) => answer(alloc, command, words, &input),
        Err(error) => shared_reply(unread(error)),
    }
}

// The answer to a command, which these words are, and its whole input.
fn answer(alloc: Global, command: Command, words: &[String], input: &[u8]) -> BinaryReply
    requires { length input.now < too_many }
    ensures { IsInputAnswer command (texts words.now) input.now result.status
        (cow_slice_items result.text) }
{
    match command {
        Command::Refusal => refusal(alloc, input),
        Command::Verify { base } => verify(alloc, base, input),
        Command::Disassemble { base } => disassemble(alloc, base, input),
        Command::Assemble { base } => assemble(alloc, base, input),
        Command::Listing { base } => list(alloc, base, input),
        Command::Object => object(alloc, object_name(words), input),
        Command::Objects => objects(alloc, input),
    }
}

// Writes the reply's text, and answers how all ended.
fn deliver<K: Sink>(reply: &BinaryReply, sink: &mut K) -> BinaryStatus
    ensures { IsDelivered (K.told sink.old) (K.told sink.new) (K.faults sink.old)
        (K.faults sink.new) reply.now.status (cow_slice_items reply.now.text) result }
{
    match write_text(reply.text.as_slice(), sink) {
        Ok(()) => reply.status,
        Err(Failed) => BinaryStatus::Shared(Status::WriteFault),
    }
}
