//! The execution of a job's image by the machine, and its text.
#![tactic(auto)]

mod execution;
mod report;
mod start;

pub use execution::{End, Execution, execute};
pub use report::run_text;
pub use start::{start_machine, start_memory};
