//! Makes the calls that standard input tells of, compares what each answers with what is told, and prints how many differ.
//! Before that it prints the numbers of the first ten lines that do.
#![tactic(auto)]

mod accesses;
mod conditions;
mod instructions;
mod moves;
mod queries;
mod tables;
mod uses;
mod words;

use crate::conditions::answer;
use s390x_case_runner::{Judge, LineError, Verdict, judge_input};
use std::alloc::Global;
use std::process::ExitCode;

/// A judge of calls with their answers, each in a line of its own.
#[derive(Clone, Copy)]
struct AnswerJudge;

impl Judge for AnswerJudge {
    fn take(
        &mut self,
        alloc: Global,
        number: u64,
        line: &str,
    ) -> Result<Option<Verdict>, LineError> {
        if line.starts_with("#") {
            return Ok(None);
        }
        let is_met = is_as_told(alloc, line)?;
        Ok(Some(Verdict {
            line: number,
            is_met,
        }))
    }
}

// Whether a call answers what its line tells: the call with its words, ` = `, and its answer.
fn is_as_told(alloc: Global, line: &str) -> Result<bool, LineError> {
    let Some((asked, told)) = line.split_once(" = ") else {
        return Err(LineError::Unreadable);
    };
    let (call, words) = asked.split_once(" ").unwrap_or((asked, ""));
    let answer = answer(alloc, call, words)?;
    Ok(answer.as_str() == told)
}

fn main(rt: HostRuntime) -> ExitCode {
    judge_input(&rt, rt.alloc(), &mut AnswerJudge, "calls")
}
