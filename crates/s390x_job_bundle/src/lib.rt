//! The text of several functions in one image: its exact reader.
#![tactic(auto)]

mod completeness;
mod cut;
mod error;
mod find;
mod head;
mod named_job;
mod reader;
mod sink;

pub use completeness::{complete, has_line, put_line_ending};
pub use cut::{count_lines, job_size, read_job};
pub use error::BundleTextError;
pub use find::{find_functions, take_functions};
pub use named_job::NamedJob;
pub use reader::{read_bundle, read_functions};
pub use sink::FunctionSink;
