//! The code of a job's function, with its tables.
ghost use Rattle.std.specs.Prelude.{◌≡◌, ◌⊎◌};
ghost use Rattle.s390x_tables.specs.Buffers.{LieInPlace};
ghost use Rattle.s390x_c.specs.Emit.{EmitsTo, EmitsJobTo, IsEmitCall, IsEmitted};

use crate::refused::refusal_status;
use s390x_base::EmitError;
use s390x_calls::{MOST_BYTES, Reason, Status};
use s390x_emit_int::emit_function;
use s390x_job::{Job, LineError, read_lines};
use s390x_tables::{Buffers, Sizes, sizes_of, write_tables};
use std::alloc::Global;

/// The code of a job's function before linking, with its tables. The input is the job's text.
///
/// - `Done`: each buffer of `out` begins with its table, and `sizes` says how many entries that has.
/// - `TooLong`: the input has more than 16777216 bytes.
/// - `Syntax`: it is no job's text; `reason.line` is its first wrong line.
/// - `Refused`: emission refuses the job's function; `reason.cause` is the number of the first cause, and `reason.place` where it stands.
/// - `TooSmall`: a table has no room in its buffer; `sizes` says how many entries each one has.
/// - `NoMemory`: there was none.
///
/// No buffer is written but with `Done`, `sizes` but with `Done` and `TooSmall`, `reason` but with `Syntax` and `Refused`.
#[unsafe(no_mangle)]
pub extern "C" fn s390x_emit(
    alloc: Global,
    input: &[u8],
    out: &mut Buffers,
    sizes: &mut Sizes,
    reason: &mut Reason,
) -> u32
    ensures answer { IsEmitCall input.now out.old out.new sizes.old sizes.new
        reason.old reason.new result }
    // A job that emission has no cause to refuse is done, where the buffers have room.
    ensures complete { IsEmitted input.now out.old → (result ≡ 0) ⊎ (result ≡ 9) }
    ensures places { LieInPlace out.old out.new }
{
    emit(alloc, input, out, sizes, reason).number()
}

// The code of the function of the job whose text the input is.
#[tactic(auto, using(s390x_calls::proofs::Ending::no_job))]
fn emit(
    alloc: Global,
    input: &[u8],
    out: &mut Buffers,
    sizes: &mut Sizes,
    reason: &mut Reason,
) -> Status
    ensures answer { EmitsTo input.now out.old out.new sizes.old sizes.new
        reason.old reason.new result }
    ensures places { LieInPlace out.old out.new }
{
    if input.len() > MOST_BYTES {
        return Status::TooLong;
    }
    match read_lines(alloc, input) {
        Ok(job) => emit_job(alloc, &job, out, sizes, reason),
        Err(LineError::Syntax { line }) => {
            *reason = Reason::at_line(line);
            Status::Syntax
        }
        Err(LineError::NoMemory) => Status::NoMemory,
    }
}

// The code of this job's function.
#[tactic(auto, using(crate::proofs::Answering::refusable, crate::proofs::Answering::emission_refused))]
fn emit_job(
    alloc: Global,
    job: &Job,
    out: &mut Buffers,
    sizes: &mut Sizes,
    reason: &mut Reason,
) -> Status
    ensures answer { EmitsJobTo out.old out.new sizes.old sizes.new
        reason.old reason.new job.now result }
    ensures places { LieInPlace out.old out.new }
{
    match emit_function(alloc, &job.function, &job.info, job.state) {
        Ok(code) => {
            *sizes = sizes_of(&code);
            if write_tables(&code, out) {
                Status::Done
            } else {
                Status::TooSmall
            }
        }
        Err(EmitError::NoMemory) => Status::NoMemory,
        Err(_) => refusal_status(alloc, job, reason),
    }
}
