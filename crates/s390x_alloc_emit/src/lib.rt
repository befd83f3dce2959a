//! Emission of an instruction with the registers that an allocator chose for it.
#![tactic(auto)]

mod emitting;

pub use emitting::{AssignedError, emit_assigned};
