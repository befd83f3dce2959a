//! The image of several functions that call each other by name.
ghost use Rattle.std.specs.Prelude.{◌≡◌, ◌⊎◌};
ghost use Rattle.s390x_c.specs.Bundle.{BundlesFunctionsTo, BundlesTo, IsBundleCall, IsBundleRefusal, IsBundled, reason_of_bundle};

use s390x_bundle::{BundleError, bundle, members_of};
use s390x_calls::{MOST_BYTES, Reason, Status, put_entries};
use s390x_job_bundle::{BundleTextError, NamedJob, read_bundle};
use std::alloc::Global;

/// The image at a base of several functions that call each other by name. The input is their text.
///
/// A machine that fetches it there does only what the functions and their calls of each other allow.
///
/// - `Done`: `out` begins with the image, which has `count` bytes.
/// - `TooLong`: the input has more than 16777216 bytes.
/// - `Syntax`: it is no text of functions; `reason.line` is its first wrong line.
/// - `Refused`, `LinkRefused`, `BundleRefused`: emission or linking refuses a function, its name comes twice, or it has no place in the image;
///   `reason.cause` is the number of the first cause, and `reason.member` that of the function's name.
/// - `TooSmall`: the image has no room in the buffer; `count` says how many bytes it has.
/// - `NoMemory`: there was none.
///
/// The buffer isn't written but with `Done`, `count` but with `Done` and `TooSmall`, `reason` but with `Syntax` and the three refusals.
#[unsafe(no_mangle)]
pub extern "C" fn s390x_bundle(
    alloc: Global,
    input: &[u8],
    base: u64,
    out: &mut [u8],
    count: &mut usize,
    reason: &mut Reason,
) -> u32
    ensures answer { IsBundleCall base input.now out.old out.new count.old count.new
        reason.old reason.new result }
    // Functions that nothing keeps from an image are done, where the buffer has room.
    ensures complete { IsBundled base input.now out.old → (result ≡ 0) ⊎ (result ≡ 9) }
{
    bundle_status(alloc, input, base, out, count, reason).number()
}

// The image of the functions whose text the input is.
fn bundle_status(
    alloc: Global,
    input: &[u8],
    base: u64,
    out: &mut [u8],
    count: &mut usize,
    reason: &mut Reason,
) -> Status
    ensures { BundlesTo base input.now out.old out.new count.old count.new
        reason.old reason.new result }
{
    if input.len() > MOST_BYTES {
        return Status::TooLong;
    }
    match read_bundle(alloc, input) {
        Ok(functions) => image_of_functions(alloc, functions, base, out, count, reason),
        Err(BundleTextError::Syntax { line }) => {
            *reason = Reason::at_line(line);
            Status::Syntax
        }
        Err(BundleTextError::NoMemory) => Status::NoMemory,
    }
}

// The image of these functions.
#[tactic(auto, using(crate::proofs::Answering::bundle_refused, crate::proofs::Answering::bundle_put))]
fn image_of_functions(
    alloc: Global,
    functions: Vec<NamedJob>,
    base: u64,
    out: &mut [u8],
    count: &mut usize,
    reason: &mut Reason,
) -> Status
    ensures { BundlesFunctionsTo base out.old out.new count.old count.new
        reason.old reason.new functions.items result }
{
    let Ok(members) = members_of(alloc, functions) else {
        return Status::NoMemory;
    };
    match bundle(alloc, &members, base) {
        Ok(bundle) => put_entries(&bundle.image.bytes, out, count),
        Err(error) => refusal(error, reason),
    }
}

// How the call ends for functions without an image.
fn refusal(error: BundleError, reason: &mut Reason) -> Status
    ensures { IsBundleRefusal error reason.old reason.new result }
{
    match error {
        BundleError::NoMemory => Status::NoMemory,
        BundleError::Emit { .. } => {
            *reason = reason_of(error);
            Status::Refused
        }
        BundleError::Link { .. } => {
            *reason = reason_of(error);
            Status::LinkRefused
        }
        error => {
            *reason = reason_of(error);
            Status::BundleRefused
        }
    }
}

// The cause, and the function that has it.
fn reason_of(error: BundleError) -> Reason
    ensures { result ≡ reason_of_bundle error }
{
    match error {
        BundleError::DuplicateName { name } => Reason::by_member(1, name.0),
        BundleError::Emit { name, error } => Reason::by_member(error.number(), name.0),
        BundleError::EmptyMember { name } => Reason::by_member(2, name.0),
        BundleError::TooLong { name } => Reason::by_member(3, name.0),
        BundleError::AddressTooHigh { name } => Reason::by_member(4, name.0),
        BundleError::Link { name, error } => Reason::by_member(error.number(), name.0),
        BundleError::NoMemory => Reason::by_member(0, 0),
    }
}
