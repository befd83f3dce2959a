//! A line of an instruction that the exact readers take, or leave to others.

use s390x_job_exact::exact_line;
use std::alloc::Global;

/// A line, and whether the exact readers must take it.
#[derive(Drop)]
pub struct ExactLine {
    /// The number of the line of the input.
    pub line: u64,
    pub text: String,
    pub is_taken: bool,
}

/// Whether they do.
pub fn is_as_told(alloc: Global, exact: &ExactLine) -> bool {
    exact_line(alloc, exact.text.as_bytes()).is_some() == exact.is_taken
}
