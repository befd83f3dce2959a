//! A run of the program whose answer is known.

use crate::ends::{Ends, Interrupted};
use s390x_base::NoMemory;
use s390x_tool::{BytesSink, BytesSource, StdSink, StdSource, run};
use std::alloc::{AllocError, Global};

/// What the program is asked, and what it must answer.
#[derive(Drop)]
pub struct Case {
    /// The number of the line at which it begins.
    pub line: u64,
    /// What its input comes from, and where its text goes.
    pub ends: Ends,
    /// The program's words, one space between two of them.
    pub words: String,
    pub input: String,
    pub wanted: Wanted,
}

/// How the program must end.
#[derive(Drop)]
pub struct Wanted {
    /// The number of its status.
    pub status: u8,
    /// What it must write.
    pub text: String,
}

/// The most bytes that the program can write here; a longer text is another than the wanted one.
const MOST_BYTES: usize = 65_536;

/// Whether the program ends as it must, and writes what it must.
pub fn is_met(alloc: Global, case: Case) -> Result<bool, NoMemory> {
    let words = words_of(alloc, &case.words).map_err(|_| NoMemory)?;
    let input = case.input.into_bytes();
    if case.ends.is_standard {
        Ok(is_met_by_calls(alloc, words.as_slice(), input, &case.ends, &case.wanted))
    } else {
        is_met_in_memory(alloc, words.as_slice(), input, &case.ends, &case.wanted)
    }
}

// Runs the program over a source and a sink in memory.
fn is_met_in_memory(
    alloc: Global,
    words: &[String],
    input: Vec<u8>,
    ends: &Ends,
    wanted: &Wanted,
) -> Result<bool, NoMemory> {
    let failing_reads = one(alloc, ends.failing_read).map_err(|_| NoMemory)?;
    let failing_writes = one(alloc, ends.failing_write).map_err(|_| NoMemory)?;
    let mut source = BytesSource::new(input, failing_reads);
    let most = ends.most.max(1);
    let mut sink = BytesSink::new(alloc, MOST_BYTES, failing_writes, most)?;
    let status = run(alloc, words, &mut source, &mut sink);
    Ok(status.number() == wanted.status && sink.told() == wanted.text.as_bytes())
}

// Runs the program over a reader and a writer whose first calls a signal interrupts.
fn is_met_by_calls(
    alloc: Global,
    words: &[String],
    input: Vec<u8>,
    ends: &Ends,
    wanted: &Wanted,
) -> bool {
    let mut source = StdSource::new(Interrupted::new(ends.interrupted_reads, ends.then, input));
    let mut writer = Interrupted::new(ends.interrupted_writes, ends.then, Vec::new(alloc));
    let status = run(alloc, words, &mut source, &mut StdSink::new(&mut writer));
    status.number() == wanted.status && writer.bytes() == wanted.text.as_bytes()
}

// A list of one number.
fn one(alloc: Global, number: u64) -> Result<Vec<u64>, AllocError> {
    Vec::from_slice(alloc, &[number])
}

// The words of a line; an empty one has none.
fn words_of(alloc: Global, line: &str) -> Result<Vec<String>, AllocError> {
    let mut words = Vec::new(alloc);
    if !line.is_empty() {
        for word in line.split(' ') {
            words.push(String::from_str(alloc, word)?)?;
        }
    }
    Ok(words)
}
