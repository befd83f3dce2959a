//! Formats as small numbers, for callers that know no enum of Rust: the decoder for C and the page.
#![tactic(auto)]

ghost use Rattle.std.specs.Prelude.{◌≡◌};
ghost use Rattle.s390x_format.specs.Formats.{length_of};
ghost use Rattle.s390x_format_numbers.specs.Formats.{number_of_format};

use s390x_format::{FormatKind, length};

/// The number of a format, 0 to 35, in the order of the manual's names.
pub fn format_number(kind: FormatKind) -> u8
    ensures { result ≡ number_of_format kind }
{
    kind as u8
}

/// How many bytes an instruction in the format has: 2, 4 or 6.
pub fn short_length(kind: FormatKind) -> u8
    ensures { result ≡ length_of kind }
{
    length(kind) as u8
}
