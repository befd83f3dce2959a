//! The text of a job with a plan of its registers: its exact reader.
#![tactic(auto)]

mod allocated_jobs;
mod completeness;
mod error;
mod find;
mod law;
mod line;
mod planned_job;
mod progress;
mod reader;

pub use allocated_jobs::{answered_jobs_are_jobs, answered_jobs_are_read_back};
pub use completeness::complete;
pub use error::PlanTextError;
pub use find::{find_plan, find_planned};
pub use law::{descriptions_name_each_register, no_blocks_are_text, some_lines_are_text};
pub use line::read_line;
pub use planned_job::PlannedJob;
pub use reader::read_plan;
