//! Several machines over one memory: their steps by a schedule, and what one of them sees of the others.
#![tactic(auto)]

mod joint_runs;
mod law;
mod schedule;

pub use joint_runs::{
    every_joint_block_run, every_joint_return_run, every_joint_run, premises_can_be_met,
};
pub use law::{ends_are_schedules, others_store_as_writes};
pub use schedule::{ScheduleEnd, run_schedule};
