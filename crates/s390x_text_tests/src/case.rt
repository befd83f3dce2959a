//! A run of the second program whose answer is known, or errors whose texts are.

use crate::errors::texts_of_errors;
use s390x_base::NoMemory;
use s390x_binary_tool::run;
use s390x_tool::{BytesSink, BytesSource};
use std::alloc::{AllocError, Global};

/// What the program is asked, and what it must answer.
#[derive(Drop)]
pub struct Case {
    /// The number of the line at which it begins.
    pub line: u64,
    /// The program's words, one space between two of them, or the errors' name.
    pub words: String,
    /// Whether it is about errors, and no run.
    pub is_of_errors: bool,
    pub input: String,
    /// The number of the status with which the program must end.
    pub status: u8,
    /// What it must write, or the errors' texts.
    pub text: String,
    /// Whether the text has the hex digits of what it must write, in a line.
    pub in_hex: bool,
}

/// The most bytes that the program can write here; a longer text is another than the wanted one.
const MOST_BYTES: usize = 65_536;

/// Whether the program ends as it must, and writes what it must, or the errors have these texts.
pub fn is_met(alloc: Global, case: Case) -> Result<bool, NoMemory> {
    if case.is_of_errors {
        let text = texts_of_errors(alloc, &case.words).map_err(|_| NoMemory)?;
        Ok(text.as_str() == case.text.as_str())
    } else {
        is_run_met(alloc, case)
    }
}

// Whether the program ends as it must, and writes what it must.
fn is_run_met(alloc: Global, case: Case) -> Result<bool, NoMemory> {
    let words = words_of(alloc, &case.words).map_err(|_| NoMemory)?;
    let mut source = BytesSource::new(case.input.into_bytes(), Vec::new(alloc));
    let mut sink = BytesSink::new(alloc, MOST_BYTES, Vec::new(alloc), MOST_BYTES)?;
    let status = run(alloc, words.as_slice(), &mut source, &mut sink);
    let is_same = is_told(alloc, &case.text, case.in_hex, sink.told())?;
    Ok(is_same && status.number() == case.status)
}

// Whether the program wrote this text, or what its hex digits tell.
fn is_told(alloc: Global, text: &str, in_hex: bool, told: &[u8]) -> Result<bool, NoMemory> {
    if !in_hex {
        return Ok(told == text.as_bytes());
    }
    let mut digits = hex::encode(alloc, told).map_err(|_| NoMemory)?;
    digits.push_str("\n").map_err(|_| NoMemory)?;
    Ok(digits.as_bytes() == text.as_bytes())
}

// The words of a line; an empty one has none.
fn words_of(alloc: Global, line: &str) -> Result<Vec<String>, AllocError> {
    let mut words = Vec::new(alloc);
    if !line.is_empty() {
        for word in line.split(' ') {
            words.push(String::from_str(alloc, word)?)?;
        }
    }
    Ok(words)
}
