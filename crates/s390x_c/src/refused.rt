//! How a call ends for a job that emission refuses.
ghost use Rattle.std.specs.Prelude.{◌≡◌, ◌≢◌, None};
ghost use Rattle.s390x_c.specs.Refused.{IsRefusalTold, job_cause, place_of, reason_of};

use s390x_base::NoMemory;
use s390x_calls::{Place, Reason, Status};
use s390x_job::Job;
use s390x_refusal::{Position, Refusal, first_refusal};
use std::alloc::Global;

/// The first cause by which emission refuses the job's function, and where it stands.
#[tactic(auto, using(crate::proofs::Answering::refusal_told))]
pub fn refusal_status(alloc: Global, job: &Job, reason: &mut Reason) -> Status
    requires { job_cause job.now ≢ None }
    ensures { IsRefusalTold job.now reason.old reason.new result }
{
    match first_refusal(alloc, &job.function, &job.info, job.state) {
        Ok(Some(refusal)) => {
            *reason = reason_of(&refusal);
            Status::Refused
        }
        Ok(None) => unreachable!(),
        Err(NoMemory) => Status::NoMemory,
    }
}

// A cause, at its place.
fn reason_of(refusal: &Refusal) -> Reason
    ensures { result ≡ reason_of refusal.now.error refusal.now.position }
{
    Reason::by_cause(refusal.error.number(), place_of(&refusal.position))
}

// A place as C sees it.
fn place_of(position: &Position) -> Place
    ensures { result ≡ place_of position.now }
{
    match position {
        Position::Start => Place::start(),
        Position::Instruction { block, path } => Place::of_instruction(*block, path),
        Position::BlockEnd { block } => Place::block_end(*block),
        Position::Length => Place::whole_code(),
    }
}
