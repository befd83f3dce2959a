//! Why bytes are not read as functions.
use thiserror::Error;

/// Why bytes are not read as functions.
#[derive(Debug, Drop, Error)]
pub enum BundleTextError {
    /// They are the text of no functions. The line is 1 plus the greatest k that is 0 or for which the first k lines can be completed to the text of functions.
    #[error("syntax {line}")]
    Syntax { line: u32 },
    /// No memory.
    #[error("no memory")]
    NoMemory,
}
