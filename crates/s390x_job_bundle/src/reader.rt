//! The exact reader of several functions' text.
ghost use Rattle.std.specs.Prelude.{◌<◌, [], IfErr, IfOk, MatchResult, length};
ghost use Rattle.s390x_job_bundle.specs.Completions.{IsBundleText, bundle_completion, bundle_limit};
ghost use Rattle.s390x_job_bundle.specs.Errors.{HasNoFunctions, HasTakenText};
ghost use Rattle.s390x_job_bundle.specs.Text.{AreFunctionsOf};

use crate::completeness::complete;
use crate::error::BundleTextError;
use crate::find::{ParseOutcome, find_functions, take_functions};
use crate::named_job::NamedJob;
use crate::sink::FunctionSink;
use s390x_job::{Completes, first_wrong};
use std::alloc::{AllocError, Global};

/// The text of functions.
struct BundleText;

impl Completes for BundleText {
    ghost limit = { bundle_limit };

    ghost completed = { bundle_completion };

    ghost IsWhole = { IsBundleText };

    fn complete(alloc: Global, ws: &[&[u8]]) -> Result<Vec<u8>, AllocError> {
        complete(alloc, ws)
    }

    fn is_whole(alloc: Global, bytes: &[u8]) -> Result<bool, AllocError> {
        match find_functions(alloc, bytes)? {
            ParseOutcome::Whole(_) => Ok(true),
            ParseOutcome::Stuck(_) => Ok(false),
        }
    }
}

fn read_inner<S: FunctionSink>(
    alloc: Global,
    bytes: &[u8],
    sink: &mut S,
) -> Result<Result<(), BundleTextError>, AllocError>
    requires short { length bytes.now < bundle_limit }
    requires none { S.HasTaken sink.old [] }
    ensures { IfOk result
        (λ r. MatchResult r (λ _. HasTakenText S.HasTaken bytes.now sink.new)
        (HasNoFunctions bytes.now)) }
{
    match take_functions(alloc, bytes, sink)? {
        None => Ok(Ok(())),
        Some(top) => {
            let line = first_wrong::<BundleText>(alloc, bytes, top)?;
            Ok(Err(BundleTextError::Syntax { line }))
        }
    }
}

/// Hands the functions whose text this is to a sink, one behind the other: for each a line `function uN` with its name and a job, and then a line `close`. The
/// functions of a sink that keeps less of them than a job take less memory.
///
/// `Syntax` comes exactly where the bytes are the text of no functions, with the line of `read_bundle`. `NoMemory` comes for want of memory alone, of the
/// sink too. Behind an error the sink has taken some functions.
pub fn read_functions<S: FunctionSink>(
    alloc: Global,
    bytes: &[u8],
    sink: &mut S,
) -> Result<(), BundleTextError>
    requires short { length bytes.now < bundle_limit }
    requires none { S.HasTaken sink.old [] }
    ensures functions { IfOk result (λ _. HasTakenText S.HasTaken bytes.now sink.new) }
    ensures error { IfErr result (HasNoFunctions bytes.now) }
{
    match read_inner(alloc, bytes, sink) {
        Ok(read) => read,
        Err(_) => Err(BundleTextError::NoMemory),
    }
}

/// The functions whose text this is: for each a line `function uN` with its name and a job, and then a line `close`.
///
/// `Syntax` comes exactly where the bytes are the text of no functions. Its line is 1 plus the greatest k that is 0 or for which the first k lines can be
/// completed to such a text. Completing adds, where more of the lines begin with `function ` than are `end`, a line `endloop` for each line that begins with
/// `Loop ` beyond those that are `endloop`, and a line `end`; then a line `close`, where none is one. `NoMemory` comes for want of memory alone.
pub fn read_bundle(alloc: Global, bytes: &[u8]) -> Result<Vec<NamedJob>, BundleTextError>
    requires { length bytes.now < bundle_limit }
    ensures functions { IfOk result (λ functions. AreFunctionsOf bytes.now functions.items) }
    ensures error { IfErr result (HasNoFunctions bytes.now) }
{
    let mut functions = Vec::new(alloc);
    match read_functions(alloc, bytes, &mut functions) {
        Ok(()) => Ok(functions),
        Err(error) => Err(error),
    }
}
