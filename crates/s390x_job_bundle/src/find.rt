//! The functions of a text.
ghost use Rattle.std.specs.Prelude.{◌≡◌, ◌+◌, ◌≤◌, ◌<◌, [], IfOk, length};
ghost use Rattle.s390x_job.specs.Completions.{pieces, text_limit};
ghost use Rattle.s390x_job_bundle.specs.Errors.{AreTaken, IsParseOutcome};

use crate::cut::{count_lines, job_size, read_job};
use crate::head::{Head, read_head};
use crate::named_job::NamedJob;
use crate::sink::FunctionSink;
use s390x_job_fields::separators::{after, before};
use std::alloc::{AllocError, Global};

/// What a reader found: the functions, or a number of lines where the text is no functions': no more of them can be completed to one.
#[derive(Drop)]
pub enum ParseOutcome {
    Whole(Vec<NamedJob>),
    Stuck(usize),
}

// How many lines stand before the rest of a text.
fn lines_before(bytes: &[u8], rest: &[u8]) -> usize
    requires { length (pieces rest.now) ≤ length (pieces bytes.now) }
    ensures count { result + length (pieces rest.now) ≡ length (pieces bytes.now) }
    ensures bound { result ≤ length bytes.now }
{
    count_lines(bytes) - count_lines(rest)
}

/// Hands the functions whose text this is to a sink, one behind the other. Where there are none, a number of its lines: no more of them can be
/// completed to the text of functions; the sink has taken some then.
pub fn take_functions<S: FunctionSink>(
    alloc: Global,
    bytes: &[u8],
    sink: &mut S,
) -> Result<Option<usize>, AllocError>
    requires short { length bytes.now < text_limit }
    requires none { S.HasTaken sink.old [] }
    ensures { IfOk result (AreTaken S.HasTaken bytes.now sink.new) }
{
    let mut rest = bytes;
    while !rest.is_empty() {
        let line = before(rest, b'\n');
        if line.len() == rest.len() {
            return Ok(Some(lines_before(bytes, rest)));
        }
        let behind = after(rest, b'\n');
        match read_head(alloc, line)? {
            Head::Other => return Ok(Some(lines_before(bytes, rest))),
            Head::Close if behind.is_empty() => return Ok(None),
            Head::Close => return Ok(Some(lines_before(bytes, rest) + 1)),
            Head::Function(name) => {
                let size = job_size(behind);
                match read_job(alloc, &behind[..size])? {
                    Ok(job) => sink.take(alloc, NamedJob { name, job })?,
                    Err(line) => return Ok(Some(lines_before(bytes, rest) + line as usize)),
                }
                rest = &behind[size..];
            }
        }
    }
    Ok(Some(lines_before(bytes, rest)))
}

/// The functions whose text this is. Where there are none, a number of its lines: no more of them can be completed to the text of functions.
pub fn find_functions(alloc: Global, bytes: &[u8]) -> Result<ParseOutcome, AllocError>
    requires { length bytes.now < text_limit }
    ensures { IfOk result (IsParseOutcome bytes.now) }
{
    let mut functions = Vec::new(alloc);
    match take_functions(alloc, bytes, &mut functions)? {
        None => Ok(ParseOutcome::Whole(functions)),
        Some(count) => Ok(ParseOutcome::Stuck(count)),
    }
}
