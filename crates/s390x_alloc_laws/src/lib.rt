//! What holds of the function that a plan without a fault gives, by its typed steps.
#![tactic(auto)]

mod assign;
mod law;
mod outputs;

pub use assign::{registers_are_not_blamed, some_are_allocatable};
pub use law::{
    edits_keep_classes, moves_are_not_blamed, operands_are_seen, some_step_leads,
    steps_are_not_blamed, steps_lead_to_successors,
};
pub use outputs::{only_outputs_change, some_are_meant};
