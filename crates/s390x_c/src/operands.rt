//! What a job's instructions report.
ghost use Rattle.std.specs.Prelude.{◌≡◌, ◌⊎◌};
ghost use Rattle.s390x_c_allocation.specs.Operands.{IsOperandsCall, IsReported};

use s390x_c_allocation::{OperandEntry, operands};
use s390x_calls::Reason;
use std::alloc::Global;

/// What each of a job's instructions reports to a register allocator: an entry for each of its operands, in order, for each real register
/// that it reads or writes beside them, and for each one whose value is lost. The input is the job's text.
///
/// - `Done`: `out` begins with the entries, of which there are `count`.
/// - `TooLong`: the input has more than 16777216 bytes.
/// - `Syntax`: it is no job's text; `reason.line` is its first wrong line.
/// - `Refused`: the operands of an instruction can't be reported; `reason.cause` is the number of the cause, and `reason.place` is the first such
///   instruction.
/// - `TooSmall`: the entries have no room in the buffer; `count` says how many there are.
/// - `NoMemory`: there was none.
///
/// The buffer isn't written but with `Done`, `count` but with `Done` and `TooSmall`, `reason` but with `Syntax` and `Refused`.
#[unsafe(no_mangle)]
pub extern "C" fn s390x_operands(
    alloc: Global,
    input: &[u8],
    out: &mut [OperandEntry],
    count: &mut usize,
    reason: &mut Reason,
) -> u32
    ensures answer { IsOperandsCall input.now out.old out.new count.old count.new
        reason.old reason.new result }
    // A job whose instructions can all be reported is done, where the buffer has room.
    ensures complete { IsReported input.now out.old → (result ≡ 0) ⊎ (result ≡ 9) }
{
    operands(alloc, input, out, count, reason).number()
}
