//! A simulator of several processors that add to one word.
#![tactic(auto)]

mod drawn;
mod error;
mod report;
mod smp;

pub use drawn::drawn_schedule;
pub use error::SmpError;
pub use report::simulation_text;
pub use smp::Smp;
