//! What a case reads from and writes to.

use s390x_case_runner::LineError;
use std::io;
use std::io::{Error, ErrorKind, Read, Write};

/// What a reader and a writer do behind the calls that a signal interrupts.
#[derive(Clone, Copy)]
pub enum Then {
    /// Their calls go.
    Goes,
    /// Each read fails.
    ReadFails,
    /// Each write fails.
    WriteFails,
    /// Each write takes nothing.
    IsFull,
}

// A decimal number.
fn number(word: &str) -> Result<u64, LineError> {
    word.parse::<u64>().map_err(|_| LineError::Unreadable)
}

// What a word says of the calls behind those that are interrupted.
fn then_of(word: &str) -> Result<Then, LineError> {
    match word {
        "goes" => Ok(Then::Goes),
        "read_fails" => Ok(Then::ReadFails),
        "write_fails" => Ok(Then::WriteFails),
        "full" => Ok(Then::IsFull),
        _ => Err(LineError::Unreadable),
    }
}

/// A source and a sink in memory, or a reader and a writer of the standard library's traits.
#[derive(Clone, Copy)]
pub struct Ends {
    /// The number of the read that fails in memory, counted from 1, or 0.
    pub failing_read: u64,
    /// The number of the write that fails in memory, or 0.
    pub failing_write: u64,
    /// The most bytes that a write takes in memory.
    pub most: usize,
    /// Whether a reader and a writer stand in place of memory.
    pub is_standard: bool,
    /// How many reads a signal interrupts first.
    pub interrupted_reads: u64,
    /// How many writes a signal interrupts first.
    pub interrupted_writes: u64,
    /// What the reader and the writer do then.
    pub then: Then,
}

impl Ends {
    /// Memory in which no call fails.
    pub fn new() -> Ends {
        Ends {
            failing_read: 0,
            failing_write: 0,
            most: usize::MAX,
            is_standard: false,
            interrupted_reads: 0,
            interrupted_writes: 0,
            then: Then::Goes,
        }
    }

    /// Reads what differs from memory in which no call fails: words `NAME=VALUE`. `Unreadable` where a word is none.
    pub fn read(text: &str) -> Result<Ends, LineError> {
        let mut ends = Ends::new();
        for word in text.split(' ') {
            let Some((name, value)) = word.split_once("=") else {
                return Err(LineError::Unreadable);
            };
            ends.set(name, value)?;
        }
        Ok(ends)
    }

    // Sets what is named.
    fn set(&mut self, name: &str, value: &str) -> Result<(), LineError> {
        match name {
            "read" => self.failing_read = number(value)?,
            "write" => self.failing_write = number(value)?,
            "most" => self.most = number(value)? as usize,
            _ => return self.set_calls(name, value),
        }
        Ok(())
    }

    // Sets what is named of a reader and a writer.
    fn set_calls(&mut self, name: &str, value: &str) -> Result<(), LineError> {
        self.is_standard = true;
        match name {
            "interrupted_reads" => self.interrupted_reads = number(value)?,
            "interrupted_writes" => self.interrupted_writes = number(value)?,
            "then" => self.then = then_of(value)?,
            _ => return Err(LineError::Unreadable),
        }
        Ok(())
    }
}

/// A reader of bytes, or a writer that keeps what it takes. A signal interrupts its first calls.
#[derive(Drop)]
pub struct Interrupted {
    calls: u64,
    then: Then,
    bytes: Vec<u8>,
}

impl Interrupted {
    /// One with these bytes, of which so many calls are interrupted.
    pub fn new(calls: u64, then: Then, bytes: Vec<u8>) -> Interrupted {
        Interrupted { calls, then, bytes }
    }

    /// The bytes that it has.
    pub fn bytes(&self) -> &[u8] {
        self.bytes.as_slice()
    }

    // Whether a signal interrupts this call.
    fn is_interrupted(&mut self) -> bool {
        let left = self.calls;
        self.calls = left.saturating_sub(1);
        left > 0
    }
}

impl Read for Interrupted {
    // Gives the bytes at once, and has none then.
    fn read(&mut self, buf: &mut [u8]) -> io::Result<usize> {
        if self.is_interrupted() {
            return Err(Error::from(ErrorKind::Interrupted));
        }
        if matches!(self.then, Then::ReadFails) {
            return Err(Error::from(ErrorKind::TimedOut));
        }
        let count = self.bytes.len().min(buf.len());
        buf[..count].copy_from_slice(&self.bytes[..count]);
        self.bytes.clear();
        Ok(count)
    }
}

impl Write for Interrupted {
    fn write(&mut self, piece: &[u8]) -> io::Result<usize> {
        if self.is_interrupted() {
            return Err(Error::from(ErrorKind::Interrupted));
        }
        if matches!(self.then, Then::WriteFails) {
            return Err(Error::from(ErrorKind::TimedOut));
        }
        if matches!(self.then, Then::IsFull) {
            return Ok(0);
        }
        self.bytes.extend_from_slice(piece)?;
        Ok(piece.len())
    }

    fn flush(&mut self) -> io::Result<()> {
        Ok(())
    }
}
