//! The lines between jobs: the one with a function's name, and the last one.
ghost use Rattle.std.specs.Prelude.{◌≡◌, IfOk, drop};
ghost use Rattle.std.specs.Str.{bytes_eq};
ghost use Rattle.s390x_job_fields.specs.Atoms.{name_of};
ghost use Rattle.s390x_job_bundle.specs.Errors.{IsHead};
ghost use Rattle.s390x_job_bundle.specs.Text.{head_line};

use crate::completeness::closes_text;
use s390x_base::ExternalName;
use s390x_job_fields::atoms;
use s390x_job_fields::number::tail;
use std::alloc::{AllocError, Global};

/// What stands between two jobs.
#[derive(Clone, Copy)]
pub enum Head {
    /// A function with this name begins.
    Function(ExternalName),
    /// The text ends.
    Close,
    /// No line that may stand there.
    Other,
}

// Where the name begins in a line `function uN`.
const NAME_PLACE: usize = 9;

// The name behind the first word of a line, some name for any other line.
fn name_in(line: &[u8]) -> ExternalName
    ensures { result.0 ≡ name_of (drop 9 line.now) }
{
    atoms::name(tail(line, NAME_PLACE))
}

// Whether the line begins the function with this name.
fn is_head(alloc: Global, line: &[u8], name: ExternalName) -> Result<bool, AllocError>
    ensures { IfOk result (λ b. b ≡ bytes_eq (head_line name) line.now) }
{
    let number = name.0;
    let text = format!(in alloc; "function u{number}")?;
    Ok(text.as_bytes() == line)
}

/// What the line says between two jobs.
pub fn read_head(alloc: Global, line: &[u8]) -> Result<Head, AllocError>
    ensures { IfOk result (IsHead line.now) }
{
    if closes_text(line) {
        return Ok(Head::Close);
    }
    let name = name_in(line);
    if is_head(alloc, line, name)? {
        Ok(Head::Function(name))
    } else {
        Ok(Head::Other)
    }
}
