//! The machine, the typed steps, and the law that ties them: what a machine does that fetches the code is what the typed steps allow.
#![tactic(auto)]

mod access;
mod action_type;
mod codes;
mod elements_step;
mod field_values;
mod flat;
mod instruction_fetch;
mod law;
mod machine;
mod memory;
mod perform;
mod progress;
mod register_action;
mod registers;
mod row_action;
mod step;
mod storage_action;
mod store_step;
mod value_step;
mod vector_action;
mod vector_step;

pub use codes::code_at;
pub use flat::FlatMemory;
pub use instruction_fetch::{fetch, fetch_row};
pub use law::{
    a_constant_is_loaded, a_loop_runs, access_takes_its_operand, checked_steps_are_valid,
    code_is_placed, each_row_has_semantics, each_step, each_step_anywhere, each_step_tells,
    every_block_run, every_return_run, every_run, folded_steps_are_valid, helpers_keep_the_address,
    helpers_where_needed, one_instruction, operands_are_addressable, relative_accesses_are_aligned,
    relative_accesses_never_misalign, relative_rows_access_their_bytes,
};
pub use machine::Machine;
pub use memory::Memory;
pub use progress::{
    a_state_is_in_range, all_writes_have_a_run, every_run_goes_on, every_state_has_a_step,
    every_write_leaves_a_step, runs_keep_ranges, steps_keep_ranges,
};
pub use row_action::action;
pub use step::StepEnd;
