//! The reply to the command `smp`.
ghost use Rattle.std.specs.Prelude.{◌<◌};
ghost use Rattle.std.specs.Cow.{cow_str_bytes};
ghost use Rattle.s390x_tool.specs.Simulated.{IsSimulateReply, IsSimulationRefusal};

use crate::reply::{Reply, no_memory, static_reply};
use crate::status::Status;
use s390x_smp::{SmpError, simulation_text};
use std::alloc::Global;
use std::borrow::CowStr;

/// What so many processors do that add to one word, by a schedule of so many steps that is drawn from `start` on.
pub fn simulate(alloc: Global, base: u64, word: u64, count: u32, steps: u32, start: u32) -> Reply
    requires { 0 < count }
    ensures { IsSimulateReply base word count steps start result.status
        (cow_str_bytes result.text) }
{
    match simulation_text(alloc, base, word, count, steps, start) {
        Ok(text) => Reply {
            status: Status::Ok,
            text: CowStr::Owned(text),
        },
        Err(error) => simulation_refused(error),
    }
}

// The reply to the refusal of a simulation.
fn simulation_refused(error: SmpError) -> Reply
    ensures { IsSimulationRefusal error result.status (cow_str_bytes result.text) }
{
    match error {
        SmpError::MisalignedBase => static_reply(Status::LinkRefused, "link MisalignedBase\n"),
        SmpError::ImageTooHigh => static_reply(Status::LinkRefused, "link ImageTooHigh\n"),
        SmpError::BadWord => static_reply(Status::BadWord, "bad word\n"),
        SmpError::NoMemory => no_memory(),
    }
}
