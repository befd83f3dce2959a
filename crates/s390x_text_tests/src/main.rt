//! Compares what standard input tells with what is written: the texts of jobs' instructions, the answers of the second program, and the texts of
//! errors. It prints how many differ, and before that the numbers of the first ten lines at which such a case begins.
#![tactic(auto)]

mod case;
mod errors;
mod lines;
mod reading;
mod texts;

use crate::case::{Case, is_met};
use crate::reading::{Asked, Reader};
use crate::texts::is_line_met;
use s390x_case_runner::{Judge, LineError, Verdict, judge_input};
use std::alloc::Global;
use std::process::ExitCode;

impl Judge for Reader {
    fn take(
        &mut self,
        alloc: Global,
        number: u64,
        line: &str,
    ) -> Result<Option<Verdict>, LineError> {
        match self.take_line(alloc, number, line)? {
            Some(Asked::Case(case)) => verdict_of(alloc, case),
            Some(Asked::Texts) => verdict_of_line(alloc, number, line),
            None => Ok(None),
        }
    }

    fn end(&mut self, alloc: Global) -> Result<Option<Verdict>, LineError> {
        match self.take_end(alloc)? {
            Some(Asked::Case(case)) => verdict_of(alloc, case),
            _ => Ok(None),
        }
    }
}

// Judges a case of several lines.
fn verdict_of(alloc: Global, case: Case) -> Result<Option<Verdict>, LineError> {
    let line = case.line;
    let is_met = is_met(alloc, case).map_err(|_| LineError::NoMemory)?;
    Ok(Some(Verdict { line, is_met }))
}

// Judges the texts of a job, in the line of this number.
fn verdict_of_line(alloc: Global, number: u64, line: &str) -> Result<Option<Verdict>, LineError> {
    let is_met = is_line_met(alloc, line)?;
    Ok(Some(Verdict {
        line: number,
        is_met,
    }))
}

fn main(rt: HostRuntime) -> ExitCode {
    let mut reader = Reader::new(rt.alloc());
    judge_input(&rt, rt.alloc(), &mut reader, "cases")
}
