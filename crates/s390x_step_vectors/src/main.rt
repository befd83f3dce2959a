//! Takes each step that standard input tells of on the machine, and looks up each row, and prints how many are otherwise than they are told.
//! Before that it prints the numbers of the first ten lines whose steps or rows are.
#![tactic(auto)]

mod contents;
mod known_row;
mod known_step;
mod reading;
mod region;

use crate::known_row::has_row_as_told;
use crate::known_step::ends_as_told;
use crate::reading::{read_row, read_step, tells_row};
use s390x_case_runner::{Judge, LineError, Verdict, judge_input};
use std::alloc::Global;
use std::process::ExitCode;

/// A judge of steps and rows, each in a line of its own.
#[derive(Clone, Copy)]
struct LineJudge;

impl Judge for LineJudge {
    fn take(
        &mut self,
        alloc: Global,
        number: u64,
        line: &str,
    ) -> Result<Option<Verdict>, LineError> {
        if line.starts_with("#") {
            return Ok(None);
        }
        let is_met = is_as_told(alloc, line.as_bytes())?;
        Ok(Some(Verdict {
            line: number,
            is_met,
        }))
    }
}

// Whether the step or the row of a line is as it tells.
fn is_as_told(alloc: Global, line: &[u8]) -> Result<bool, LineError> {
    if tells_row(line) {
        let known = read_row(alloc, line)?;
        Ok(has_row_as_told(&known))
    } else {
        let known = read_step(alloc, line)?;
        ends_as_told(alloc, &known).map_err(|_| LineError::NoMemory)
    }
}

fn main(rt: HostRuntime) -> ExitCode {
    judge_input(&rt, rt.alloc(), &mut LineJudge, "cases")
}
