//! Reads and writes that a signal interrupts.
ghost use Rattle.std.specs.Io.{ReadsAtMost, WritesAtMost};
ghost use Rattle.std.specs.Io.KnownBytes.{ReadConsumes, WriteAppends};

use std::io;
use std::io::{ErrorKind, Read, Write};

/// How often a call is made that a signal interrupts each time.
const MOST_TRIES: u32 = 16;

/// Reads once, and again where a signal interrupts it.
#[tactic(auto, using(crate::proofs::Kept::kept_so_far, crate::proofs::Kept::kept_again, crate::proofs::Kept::read_after))]
pub fn read_again<R: Read>(input: &mut R, buf: &mut [u8]) -> io::Result<usize>
    ensures bound { ReadsAtMost result buf.new }
    ensures bytes { ReadConsumes (R.remaining input.old) (R.remaining input.new) result buf.new }
{
    for _ in 1..MOST_TRIES {
        match input.read(buf) {
            Err(error) if error.kind() == ErrorKind::Interrupted => {}
            answer => return answer,
        }
    }
    input.read(buf)
}

/// Writes once, and again where a signal interrupts it.
#[tactic(auto, using(crate::proofs::Kept::kept_so_far, crate::proofs::Kept::kept_again, crate::proofs::Kept::write_after))]
pub fn write_again<W: Write>(output: &mut W, piece: &[u8]) -> io::Result<usize>
    ensures bound { WritesAtMost result piece.now }
    ensures bytes { WriteAppends (W.contents output.old) (W.contents output.new) result piece.now }
{
    for _ in 1..MOST_TRIES {
        match output.write(piece) {
            Err(error) if error.kind() == ErrorKind::Interrupted => {}
            answer => return answer,
        }
    }
    output.write(piece)
}
