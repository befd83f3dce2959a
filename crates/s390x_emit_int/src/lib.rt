//! Emission: from typed instructions to finished code.
#![tactic(auto)]

mod baseline;
mod calls;
mod causes;
mod check;
mod check_calls;
mod completeness;
mod composite;
mod conditional;
mod context;
mod doubleword;
mod emit;
mod fast_path;
mod folding;
mod function;
mod headline;
mod image;
mod instruction;
mod last_choice;
mod stack;
mod symbol;
mod table;
mod tree;

pub use baseline::{check_on_machine, emit_on_machine};
pub use calls::{emit_call, emit_tail_call};
pub use causes::branch_cause;
pub use check::{CodeSize, check_block, check_inst, check_leaf, check_members, open_loop};
pub use check_calls::{check_call, check_tail_call};
pub use completeness::{accesses_are_emitted, checked_functions_finish};
pub use context::Context;
pub use emit::{MachInstEmit, emit_vector, put, put_with_trap};
pub use function::emit_function;
pub use headline::{linked_code_is_placed, linked_code_runs_as_typed, premises_can_be_met};
pub use image::{ImageError, emit_image};
pub use instruction::{emit_leaf, put_branch};
pub use stack::{advance, mark_safepoint};
pub use tree::{emit_inst, emit_members};
