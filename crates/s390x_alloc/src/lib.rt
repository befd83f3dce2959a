//! A checker of register allocations: whether every value arrives where it is used, and the function with real registers.
#![tactic(auto)]

mod answer;
mod assigned;
mod blocks;
mod contents;
mod edits;
mod entries;
mod fault;
mod law;
mod location_map;
mod memory;
mod moves;
mod place_values;
mod plan;
mod plan_check;
mod register_homes;
mod register_set;
mod same;
mod shape;
mod step;
mod successors;

pub use entries::entry_fault;
pub use fault::PlanFault;
pub use law::{accepted_registers_meet, some_plan_is_accepted, walks_read_alike};
pub use plan::{BlockPlan, Edit, EntryPair, Place, Plan};
pub use plan_check::check_plan;
