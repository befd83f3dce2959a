//! The check of a plan of registers.
ghost use Rattle.std.specs.Prelude.{◌≡◌, ◌⊎◌};
ghost use Rattle.s390x_c_allocation.specs.Plans.{IsCheckPlanCall, IsChecked};

use s390x_c_allocation::{PlanReason, checked_plan};
use std::alloc::Global;

/// Whether the plan of a job has a fault. The input is the text of the job with its plan.
///
/// - `Done`: it has none. On every walk from the first block, and whatever the values are, each instruction reads by the registers of the plan the
///   values of its virtual registers.
/// - `TooLong`: the input has more than 16777216 bytes.
/// - `Syntax`: it is no text of a job with a plan; `reason.line` is its first wrong line.
/// - `PlanRefused`: `reason.fault` is the number of the plan's first fault, and the other fields where it stands.
/// - `NoMemory`: there was none.
///
/// `reason` isn't written but with `Syntax` and `PlanRefused`.
#[unsafe(no_mangle)]
pub extern "C" fn s390x_check_plan(alloc: Global, input: &[u8], reason: &mut PlanReason) -> u32
    ensures answer { IsCheckPlanCall input.now reason.old reason.new result }
    // A plan without a fault is done.
    ensures complete { IsChecked input.now → (result ≡ 0) ⊎ (result ≡ 9) }
{
    checked_plan(alloc, input, reason).number()
}
