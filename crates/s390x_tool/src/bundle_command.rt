//! The reply to the command `bundle`.
ghost use Rattle.std.specs.Prelude.{◌<◌, length};
ghost use Rattle.std.specs.Cow.{cow_str_bytes};
ghost use Rattle.s390x_job_bundle.specs.Completions.{bundle_limit};
ghost use Rattle.s390x_job_bundle.specs.Text.{AreFunctionsOf};
ghost use Rattle.s390x_tool.specs.Bundled.{IsBundleAnswer, IsBundleRefusal, inner_refusal, named_refusal};
ghost use Rattle.s390x_tool.specs.Lines.{IsMade, line};

use crate::error_names::{emit_error_name, link_error_name};
use crate::reply::{Reply, in_hex, no_memory, syntax, text_reply};
use crate::status::Status;
use s390x_base::ExternalName;
use s390x_bundle::{BundleError, bundle, members_of};
use s390x_job_bundle::{BundleTextError, NamedJob, read_bundle};
use std::alloc::Global;

/// The answer to `bundle` at this base and its whole input:
///
/// - `Ok`, where the input is the text of functions that nothing keeps from standing in one image: that image in hex;
/// - `BundleRefused`, where it is the text of others: the line of the first cause by which they have none (`BundleError` of `s390x_bundle`);
/// - `Syntax`, where it is the text of no functions: the number of its first wrong line;
/// - `NoMemory`, which may come in place of any of these.
///
/// The input's memory is given back once it is read.
pub fn bundle_reply(alloc: Global, base: u64, input: Vec<u8>) -> Reply
    requires { length input.items < bundle_limit }
    ensures { IsBundleAnswer base input.items result.status (cow_str_bytes result.text) }
{
    match read_bundle(alloc, &input) {
        Ok(functions) => image_of_functions(alloc, base, input, functions),
        Err(BundleTextError::Syntax { line }) => syntax(alloc, line),
        Err(BundleTextError::NoMemory) => no_memory(),
    }
}

// The image at this base of these functions, which are those of the input.
fn image_of_functions(alloc: Global, base: u64, input: Vec<u8>, functions: Vec<NamedJob>) -> Reply
    requires { AreFunctionsOf input.items functions.items }
    ensures { IsBundleAnswer base input.items result.status (cow_str_bytes result.text) }
{
    drop(input);
    let Ok(members) = members_of(alloc, functions) else {
        return no_memory();
    };
    match bundle(alloc, &members, base) {
        Ok(bundle) => in_hex(alloc, &bundle.image.bytes),
        Err(error) => bundle_refused(alloc, error),
    }
}

/// The reply to functions that are not put into one image.
pub fn bundle_refused(alloc: Global, error: BundleError) -> Reply
    ensures { IsBundleRefusal error result.status (cow_str_bytes result.text) }
{
    match error {
        BundleError::DuplicateName { name } => bundle_line(alloc, "DuplicateName", name),
        BundleError::Emit { name, error } => bundle_line_with(
            alloc,
            "Emit",
            name,
            emit_error_name(error),
        ),
        BundleError::EmptyMember { name } => bundle_line(alloc, "EmptyMember", name),
        BundleError::TooLong { name } => bundle_line(alloc, "TooLong", name),
        BundleError::AddressTooHigh { name } => bundle_line(alloc, "AddressTooHigh", name),
        BundleError::Link { name, error } => bundle_line_with(
            alloc,
            "Link",
            name,
            link_error_name(error),
        ),
        BundleError::NoMemory => no_memory(),
    }
}

// The reply with a cause and the name of a function.
fn bundle_line(alloc: Global, cause: &'static str, name: ExternalName) -> Reply
    ensures { IsMade Status.BundleRefused (line (named_refusal cause.entry.now name)) result.status
        (cow_str_bytes result.text) }
{
    let number = name.0;
    text_reply(
        Status::BundleRefused,
        format!(in alloc; "bundle {cause} u{number}\n"),
    )
}

// The reply with a cause, the name of a function and the cause by which it is refused.
fn bundle_line_with(
    alloc: Global,
    cause: &'static str,
    name: ExternalName,
    inner: &'static str,
) -> Reply
    ensures { IsMade Status.BundleRefused
        (line (inner_refusal cause.entry.now name inner.entry.now)) result.status
        (cow_str_bytes result.text) }
{
    let number = name.0;
    text_reply(
        Status::BundleRefused,
        format!(in alloc; "bundle {cause} u{number} {inner}\n"),
    )
}
