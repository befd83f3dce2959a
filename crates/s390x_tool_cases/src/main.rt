//! Runs the program on each case that standard input tells of, and prints how many answers are others than the wanted ones.
//! Before that it prints the numbers of the first ten lines at which such a case begins.
#![tactic(auto)]

mod case;
mod ends;
mod exact;
mod reading;

use crate::case::is_met;
use crate::exact::is_as_told;
use crate::reading::{Asked, Reader};
use s390x_case_runner::{Judge, LineError, Verdict, judge_input};
use std::alloc::Global;
use std::process::ExitCode;

impl Judge for Reader {
    fn take(
        &mut self,
        alloc: Global,
        number: u64,
        line: &str,
    ) -> Result<Option<Verdict>, LineError> {
        match self.take_line(alloc, number, line)? {
            Some(asked) => verdict_of(alloc, asked),
            None => Ok(None),
        }
    }

    fn end(&mut self, alloc: Global) -> Result<Option<Verdict>, LineError> {
        match self.take_end(alloc)? {
            Some(asked) => verdict_of(alloc, asked),
            None => Ok(None),
        }
    }
}

// Runs the program on a case, or reads a line.
fn verdict_of(alloc: Global, asked: Asked) -> Result<Option<Verdict>, LineError> {
    let (line, is_met) = match asked {
        Asked::Run(case) => (
            case.line,
            is_met(alloc, case).map_err(|_| LineError::NoMemory)?,
        ),
        Asked::Exact(exact) => (exact.line, is_as_told(alloc, &exact)),
    };
    Ok(Some(Verdict { line, is_met }))
}

fn main(rt: HostRuntime) -> ExitCode {
    let mut reader = Reader::new(rt.alloc());
    judge_input(&rt, rt.alloc(), &mut reader, "cases")
}
