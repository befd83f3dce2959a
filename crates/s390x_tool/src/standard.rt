//! Standard input and output as a source and a sink.
ghost use Rattle.std.specs.Io.{ReadsAtMost, WritesAtMost};
ghost use Rattle.std.specs.Io.KnownBytes.{ReadConsumes, WriteAppends};
ghost use Rattle.std.specs.Prelude.{◌≡◌, ◌<◌, length, IfOk, OnErr};
ghost use Rattle.s390x_tool.specs.Causes.{next_count, HasCause};

use crate::ends::{Failed, Sink, Source};
use crate::interrupted::{read_again, write_again};
use std::io::{Read, Write};

/// The source over a reader. It tells what its reader tells: nothing, for standard input.
#[derive(Drop)]
pub struct StdSource<R: Read> {
    input: R,
    faults: u64,
}

impl<R: Read> StdSource<R> {
    /// The source over this reader, with no fault counted.
    pub fn new(input: R) -> StdSource<R>
        ensures { result ≡ record { input = input; faults = 0 } }
    {
        StdSource { input, faults: 0 }
    }
}

impl<R: Read> Source for StdSource<R> {
    ghost left = { λ s. R.remaining s.input };

    ghost faults = { λ s. s.faults };

    /// Reads once, and again where a signal interrupts it, at most 16 times in all. An error that is left counts once, unless the count stands at its last
    /// value.
    fn read(&mut self, buf: &mut [u8]) -> Result<usize, Failed>
        ensures bound { ReadsAtMost result buf.new }
        ensures bytes { ReadConsumes (R.remaining self.old.input) (R.remaining self.new.input)
            result buf.new }
        ensures cause { HasCause self.old.faults self.new.faults result }
        ensures faults { OnErr result (self.new.faults ≡ next_count self.old.faults) }
    {
        match read_again(&mut self.input, buf) {
            Ok(count) => Ok(count),
            Err(_) => {
                self.faults = self.faults.saturating_add(1);
                Err(Failed)
            }
        }
    }
}

/// The sink over a writer. It tells what its writer tells: nothing, for standard output.
#[derive(Drop)]
pub struct StdSink<W: Write> {
    output: W,
    faults: u64,
}

impl<W: Write> StdSink<W> {
    /// The sink over this writer, with no fault counted.
    pub fn new(output: W) -> StdSink<W>
        ensures { result ≡ record { output = output; faults = 0 } }
    {
        StdSink { output, faults: 0 }
    }
}

impl<W: Write> Sink for StdSink<W> {
    ghost told = { λ s. W.contents s.output };

    ghost faults = { λ s. s.faults };

    /// Writes once, and again where a signal interrupts it, at most 16 times in all. An error that is left counts once, and so does a write that takes
    /// nothing of a piece that isn't empty, unless the count stands at its last value.
    fn write(&mut self, piece: &[u8]) -> Result<usize, Failed>
        ensures bound { WritesAtMost result piece.now }
        ensures some { IfOk result (λ n. 0 < length piece.now → 0 < n) }
        ensures bytes { WriteAppends (W.contents self.old.output) (W.contents self.new.output)
            result piece.now }
        ensures cause { HasCause self.old.faults self.new.faults result }
        ensures faults { OnErr result (self.new.faults ≡ next_count self.old.faults) }
    {
        match write_again(&mut self.output, piece) {
            Ok(count) if count > 0 || piece.is_empty() => Ok(count),
            _ => {
                self.faults = self.faults.saturating_add(1);
                Err(Failed)
            }
        }
    }
}
