//! Where a job comes from, and where the text goes.
ghost use Rattle.std.specs.Prelude.{ℕ, ◌<◌, List, length, Option, IfOk};
ghost use Rattle.std.specs.Io.{ReadsAtMost, WritesAtMost};
ghost use Rattle.std.specs.Io.KnownBytes.{ReadConsumes, WriteAppends};
ghost use Rattle.s390x_tool.specs.Causes.{HasCause};

/// A read or a write failed. The count of faults of its source or sink tells of it.
#[derive(Clone, Copy)]
pub struct Failed;

/// Where a job is read from.
pub trait Source {
    // The bytes that it has left, where it tells them.
    ghost left: { Self → Option (List ℕ) };

    // How often reading failed. The count stands still at its last value, 2^64 less 1.
    ghost faults: { Self → ℕ };

    /// Puts the next bytes into the front of the buffer and answers how many. No byte for a buffer that isn't empty is
    /// the end. A failed call leaves what is left as it was, and its count of faults has risen or stands at its last
    /// value.
    fn read(&mut self, buf: &mut [u8]) -> Result<usize, Failed>
        ensures bound { ReadsAtMost result buf.new }
        ensures bytes { ReadConsumes (left self.old) (left self.new) result buf.new }
        ensures cause { HasCause (faults self.old) (faults self.new) result };
}

/// Where a text is written to.
pub trait Sink {
    // The bytes that it was told so far, where it tells them.
    ghost told: { Self → Option (List ℕ) };

    // How often writing failed. The count stands still at its last value, 2^64 less 1.
    ghost faults: { Self → ℕ };

    /// Takes bytes from the front of the piece and answers how many: at least one of a piece that isn't empty. A failed
    /// call takes none, and its count of faults has risen or stands at its last value.
    fn write(&mut self, piece: &[u8]) -> Result<usize, Failed>
        ensures bound { WritesAtMost result piece.now }
        ensures some { IfOk result (λ n. 0 < length piece.now → 0 < n) }
        ensures bytes { WriteAppends (told self.old) (told self.new) result piece.now }
        ensures cause { HasCause (faults self.old) (faults self.new) result };
}
