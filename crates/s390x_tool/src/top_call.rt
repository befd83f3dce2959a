//! The top call.
ghost use Rattle.std.specs.Prelude.{◌≡◌, ◌<◌, ◌⊎◌, ℕ, List, Some, None, length};
ghost use Rattle.s390x_tool.specs.declared.words.Command.TheVariants.{Allocate, Bundle, Generate, OnJob, Simulate};
ghost use Rattle.s390x_tool.specs.declared.words.JobCommand.{JobCommand};
ghost use Rattle.std.specs.Cow.{cow_str_bytes};
ghost use Rattle.s390x_smp.specs.Image.{start_cause};
ghost use Rattle.s390x_tool.specs.Allocated.{IsPlanAccepted};
ghost use Rattle.s390x_tool.specs.Answers.{IsAccepted};
ghost use Rattle.s390x_tool.specs.Bundled.{IsBundleAccepted};
ghost use Rattle.s390x_tool.specs.Causes.{FaultCountRose};
ghost use Rattle.s390x_tool.specs.Ends.{IsTooLong, too_many};
ghost use Rattle.s390x_tool.specs.Replies.{IsAboutInput, IsDelivered, IsDone, IsEnded, IsInputAnswer, IsReply, call_context};
ghost use Rattle.s390x_tool.specs.Words.{IsForm, IsNoForm, texts};

use crate::alloc_command::alloc_reply;
use crate::bundle_command::bundle_reply;
use crate::ends::{Failed, Sink, Source};
use crate::gen_command::generate;
use crate::input::read_input;
use crate::job_command::answer;
use crate::output::write_text;
use crate::reply::{Reply, static_reply, unread};
use crate::smp_command::simulate;
use crate::status::Status;
use crate::{Command, read_words};
use std::alloc::Global;

/// Does what the words ask for with what the source holds, and writes the text or the line of the status to the sink. It
/// reads the source to its end first, for a generated function or a simulation not at all, and writes nothing before all is computed.
pub fn run<S: Source, K: Sink>(
    alloc: Global,
    words: &[String],
    source: &mut S,
    sink: &mut K,
) -> Status
    // The words and the input have this reply, and its text was written whole, or else a prefix of it.
    ensures ended { IsEnded
        (call_context (texts words.now) (S.left source.old) (S.left source.new)
        (S.faults source.old) (S.faults source.new)) (K.told sink.old)
        (K.told sink.new) (K.faults sink.old) (K.faults sink.new) result }
    // At `Ok` the source held the text of one job, and the sink was told the command's text for it; or it held the text of functions, and the sink was told
    // their image, which does only what they and their calls of each other allow; or it held a job and a plan, and the sink was told the job with the function
    // that the plan gives; or, with nothing read, that for a generated function or a simulation.
    ensures ok { result ≡ Status.Ok
        → IsDone
        (call_context (texts words.now) (S.left source.old) (S.left source.new)
        (S.faults source.old) (S.faults source.new)) (K.told sink.old)
        (K.told sink.new) }
    // A generated function is done, where no write fails.
    ensures generates { (count start : ℕ) → IsForm (texts words.now) (Generate count start)
        → (FaultCountRose (K.faults sink.old) (K.faults sink.new) → ⊥)
        → (result ≡ Status.Ok) ⊎ (result ≡ Status.NoMemory) }
    // A simulation that nothing refuses is done, where no write fails.
    ensures simulates { (base word count steps start : ℕ)
        → IsForm (texts words.now) (Simulate base word count steps start)
        → start_cause base word ≡ None
        → (FaultCountRose (K.faults sink.old) (K.faults sink.new) → ⊥)
        → (result ≡ Status.Ok) ⊎ (result ≡ Status.NoMemory) }
    // A job that neither emission nor linking has a cause to refuse is done, where no read and no write fails.
    ensures complete { (command : JobCommand) (input : List ℕ)
        → IsForm (texts words.now) (OnJob command) → S.left source.old ≡ Some input
        → IsAccepted command input
        → (FaultCountRose (S.faults source.old) (S.faults source.new) → ⊥)
        → (FaultCountRose (K.faults sink.old) (K.faults sink.new) → ⊥)
        → (result ≡ Status.Ok) ⊎ (result ≡ Status.NoMemory) }
    // A plan without a fault is done, where no read and no write fails.
    ensures allocates { (input : List ℕ) → IsForm (texts words.now) Allocate
        → S.left source.old ≡ Some input → IsPlanAccepted input
        → (FaultCountRose (S.faults source.old) (S.faults source.new) → ⊥)
        → (FaultCountRose (K.faults sink.old) (K.faults sink.new) → ⊥)
        → (result ≡ Status.Ok) ⊎ (result ≡ Status.NoMemory) }
    // Functions that nothing keeps from standing in one image are done, where no read and no write fails.
    ensures bundles { (base : ℕ) (input : List ℕ) → IsForm (texts words.now) (Bundle base)
        → S.left source.old ≡ Some input → IsBundleAccepted base input
        → (FaultCountRose (S.faults source.old) (S.faults source.new) → ⊥)
        → (FaultCountRose (K.faults sink.old) (K.faults sink.new) → ⊥)
        → (result ≡ Status.Ok) ⊎ (result ≡ Status.NoMemory) }
    ensures usage { result ≡ Status.Usage → IsNoForm (texts words.now) }
    ensures always_usage { IsNoForm (texts words.now)
        → (result ≡ Status.Usage) ⊎ (result ≡ Status.WriteFault) }
    ensures read_fault { result ≡ Status.ReadFault
        → FaultCountRose (S.faults source.old) (S.faults source.new) }
    ensures always_read_fault { S.faults source.old < S.faults source.new
        → (result ≡ Status.ReadFault) ⊎ (result ≡ Status.WriteFault) }
    ensures write_fault { result ≡ Status.WriteFault
        → FaultCountRose (K.faults sink.old) (K.faults sink.new) }
    ensures always_write_fault { K.faults sink.old < K.faults sink.new
        → result ≡ Status.WriteFault }
    ensures too_long { result ≡ Status.InputTooLong
        → IsTooLong (S.left source.old) (S.left source.new) }
{
    let reply = reply_to(alloc, words, source);
    deliver(&reply, sink)
}

// The reply to these words and to what the source holds.
fn reply_to<S: Source>(alloc: Global, words: &[String], source: &mut S) -> Reply
    ensures { IsReply
        (call_context (texts words.now) (S.left source.old) (S.left source.new)
        (S.faults source.old) (S.faults source.new)) result.status
        (cow_str_bytes result.text) }
{
    let Some(command) = read_words(words) else {
        return static_reply(Status::Usage, "usage\n");
    };
    match command {
        Command::Generate { count, start } => generate(alloc, count, start),
        Command::Simulate {
            base,
            word,
            count,
            steps,
            start,
        } => simulate(alloc, base, word, count, steps, start),
        command => match read_input(alloc, source) {
            Ok(input) => answer_to_input(alloc, command, input),
            Err(error) => unread(error),
        },
    }
}

// The answer to a command about what the source held, and to all of that.
fn answer_to_input(alloc: Global, command: Command, input: Vec<u8>) -> Reply
    requires about { IsAboutInput command }
    requires short { length input.items < too_many }
    ensures { IsInputAnswer command input.items result.status (cow_str_bytes result.text) }
{
    match command {
        Command::OnJob(command) => answer(alloc, command, input),
        Command::Allocate => alloc_reply(alloc, &input),
        Command::Bundle { base } => bundle_reply(alloc, base, input),
        Command::Generate { .. } | Command::Simulate { .. } => unreachable!(),
    }
}

// Writes the reply's text, and answers how all ended.
fn deliver<K: Sink>(reply: &Reply, sink: &mut K) -> Status
    ensures { IsDelivered (K.told sink.old) (K.told sink.new) (K.faults sink.old)
        (K.faults sink.new) reply.now.status (cow_str_bytes reply.now.text) result }
{
    match write_text(reply.text.as_bytes(), sink) {
        Ok(()) => reply.status,
        Err(Failed) => Status::WriteFault,
    }
}
