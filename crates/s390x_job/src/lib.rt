//! The text of a job: its printer, and its exact reader.
#![tactic(auto)]

mod build;
mod completing;
mod heading;
mod item;
mod job;
mod jobs;
mod lines;
mod print_line;
mod read_line;
mod reader;
mod split;

pub use completing::{
    Completes, count_closes, count_opens, first_wrong, put, put_closing, put_joined, split_lines,
};
pub use job::{Job, LineError, MemLine, StartRegs, SymbolLine};
pub use jobs::{lines_of_job, put_registers};
pub use lines::read_lines;
