//! What the instructions of a job report.
ghost use Rattle.std.specs.Prelude.{◌≡◌};
ghost use Rattle.s390x_c_allocation.specs.Operands.{ReportsJobTo, ReportsTo, reason_of_unreported};

use crate::numbers::operand_error_number;
use crate::operand_entries::OperandEntry;
use crate::report::{ReportError, Unreported, entries_of_blocks};
use s390x_calls::{MOST_BYTES, Place, Reason, Status, put_entries};
use s390x_job::{Job, LineError, read_lines};
use std::alloc::Global;

/// What each instruction of a job reports to a register allocator. The input is the job's text.
#[tactic(auto, using(s390x_calls::proofs::Ending::no_job))]
pub fn operands(
    alloc: Global,
    input: &[u8],
    out: &mut [OperandEntry],
    count: &mut usize,
    reason: &mut Reason,
) -> Status
    ensures { ReportsTo input.now out.old out.new count.old count.new
        reason.old reason.new result }
{
    if input.len() > MOST_BYTES {
        return Status::TooLong;
    }
    match read_lines(alloc, input) {
        Ok(job) => operands_of_job(alloc, &job, out, count, reason),
        Err(LineError::Syntax { line }) => {
            *reason = Reason::at_line(line);
            Status::Syntax
        }
        Err(LineError::NoMemory) => Status::NoMemory,
    }
}

// What the instructions of this job report.
#[tactic(auto, using(crate::proofs::Answering::report_put))]
fn operands_of_job(
    alloc: Global,
    job: &Job,
    out: &mut [OperandEntry],
    count: &mut usize,
    reason: &mut Reason,
) -> Status
    ensures { ReportsJobTo out.old out.new count.old count.new
        reason.old reason.new job.now result }
{
    match entries_of_blocks(alloc, &job.function.blocks) {
        Ok(entries) => put_entries(&entries, out, count),
        Err(ReportError::Unreported(unreported)) => {
            *reason = unreported_reason(unreported);
            Status::Refused
        }
        Err(ReportError::NoMemory) => Status::NoMemory,
    }
}

// The cause with its instruction.
fn unreported_reason(unreported: Unreported) -> Reason
    ensures { result ≡ reason_of_unreported unreported }
{
    let place = Place::of_instruction(unreported.block, &[unreported.instruction]);
    Reason::by_cause(operand_error_number(unreported.cause), place)
}
