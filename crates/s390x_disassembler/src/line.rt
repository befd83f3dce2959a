//! What stands at a place of some code.
ghost use Rattle.std.specs.Prelude.{◌≡◌, ◌+◌, ◌<◌, ◌≤◌, length, take, drop};
ghost use Rattle.s390x_disassembler.specs.Lines.{IsFound, IsLine, bytes_at};

use s390x_format::{Located, fetch_length, locate};

/// What stands at a place of some code.
#[derive(Clone, Copy)]
pub struct Line {
    /// How many bytes stand before it.
    pub offset: usize,
    /// How many bytes it has.
    pub length: usize,
    /// The instruction, where there is one.
    pub found: Option<Located>,
}

/// What stands at a place: an instruction's bytes, or others; as many as the first one tells, if the code has them.
pub fn line_at(code: &[u8], offset: usize) -> Line
    requires { offset < length code.now }
    ensures line { IsLine code.now result }
    ensures place { result.offset ≡ offset }
    ensures goes_on { offset < offset + result.length }
    ensures inside { offset + result.length ≤ length code.now }
{
    let rest = &code[offset..];
    let length = fetch_length(rest[0]).min(rest.len());
    Line {
        offset,
        length,
        found: found_in(&rest[..length]),
    }
}

/// The instruction whose bytes these are.
#[tactic(auto, using(crate::proofs::Covering::answered))]
pub fn found_in(bytes: &[u8]) -> Option<Located>
    ensures { IsFound bytes.now result }
{
    locate(bytes)
}

/// A line's bytes; fewer where the code ends.
pub fn line_bytes<'a>(code: &'a [u8], line: &Line) -> &'a [u8]
    ensures { result.now ≡ bytes_at code.now line.now }
{
    let rest = if line.offset <= code.len() {
        &code[line.offset..]
    } else {
        &[]
    };
    if line.length <= rest.len() {
        &rest[..line.length]
    } else {
        rest
    }
}
