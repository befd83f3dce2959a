//! Instructions of the s390x back end with the registers that an allocator chose for their operands.
#![tactic(auto)]

mod assign_calls;
mod assign_control;
mod assigned_registers;
mod assigning;

pub use assigning::{AssignError, assign};
