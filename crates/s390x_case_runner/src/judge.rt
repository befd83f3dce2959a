//! What a program judges its input by.

use std::alloc::{AllocError, Global};

/// Why a line isn't judged.
#[derive(Clone, Copy)]
pub enum LineError {
    /// It isn't of the form that the judge reads.
    Unreadable,
    /// No memory.
    NoMemory,
}

impl From<AllocError> for LineError {
    fn from(_: AllocError) -> LineError {
        LineError::NoMemory
    }
}

/// How a case is judged.
#[derive(Clone, Copy)]
pub struct Verdict {
    /// The number of the line at which the case begins, counted from 1.
    pub line: u64,
    /// Whether the case is as the lines tell.
    pub is_met: bool,
}

/// A judge of cases, to which lines are given in order.
pub trait Judge {
    /// Takes the line of this number, counted from 1, and judges the case that it ends or is, where it ends or is one.
    ///
    /// `Unreadable` where no such line can stand there; `NoMemory` for want of memory.
    fn take(
        &mut self,
        alloc: Global,
        number: u64,
        line: &str,
    ) -> Result<Option<Verdict>, LineError>;

    /// Judges the case that the end of the lines ends, where it ends one.
    ///
    /// `Unreadable` where the case lacks lines; `NoMemory` for want of memory.
    fn end(&mut self, _alloc: Global) -> Result<Option<Verdict>, LineError> {
        Ok(None)
    }
}
