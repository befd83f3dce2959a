//! Why bytes are not read as a planned job.
use thiserror::Error;

/// Why bytes are not read as a planned job.
#[derive(Debug, Drop, Error)]
pub enum PlanTextError {
    /// They are the text of no planned job. The line is 1 plus the greatest k that is 0 or for which the first k lines can be completed to such a text.
    #[error("syntax {line}")]
    Syntax { line: u32 },
    /// No memory.
    #[error("no memory")]
    NoMemory,
}
