//! What the flags of a machine and the ends of blocks change of a function's typed steps.
#![tactic(auto)]

mod law;

pub use law::{
    available_instructions_need_no_more, functions_do_as_given, no_relative_access_without_rows,
};
