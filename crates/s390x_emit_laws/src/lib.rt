//! Laws above emission: what it lets pass is built, linked branches lead to their places, and an instruction runs as its typed steps wherever its bytes stand.
#![tactic(auto)]

mod law;

pub use law::{
    a_jump_stands_anywhere, emitted_bytes_are_the_steps, emitted_instructions_run_anywhere,
    emitted_instructions_run_in_a_buffer, functions_are_built, instructions_stand_behind_others,
    linked_branches_lead, linked_instructions_run_anywhere, placed_branches_lead,
    premises_are_met_by_calls, valid_steps_are_built,
};
