//! Judging cases that the lines of standard input tell of, and counting those that aren't as they are told.
#![tactic(auto)]

mod judge;
mod report;

pub use judge::{Judge, LineError, Verdict};
pub use report::{count_differing, exit_code, first_differing, judge_input};
