//! What a register allocator asks, for callers in C: what instructions report, and whether a plan of registers has a fault.
#![tactic(auto)]

mod job_operands;
mod numbers;
mod operand_entries;
mod plan;
mod report;

pub use job_operands::operands;
pub use operand_entries::{Constraint, OperandEntry, Register};
pub use plan::{PlanReason, checked_plan};
