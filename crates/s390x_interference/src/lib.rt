//! What retry loops store under every schedule of processors.
#![tactic(auto)]

mod adder;
mod law;
mod linked;

pub use adder::{adding_function, adding_loop};
pub use law::{
    a_break_can_come, folded_loops_are_retry_loops, listed_instructions_are_register_work,
    loops_are_retry_loops, premises_can_be_met, retry_loops, scheduled_retry_loops,
};
pub use linked::{emit_guarded_image, image_retry_loops, linked_retry_loops};
