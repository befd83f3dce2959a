//! The code of vector instructions that are one machine instruction on registers and immediates, and the rows of those with an operand in memory.
#![tactic(auto)]

mod codes;
mod conditional;
mod lanes;
mod memory;
mod opcodes;
mod single_vector;

pub use codes::{
    compared_vectors, shifted_vector, three_vectors, two_vectors, vector as real_vector,
};
pub use conditional::{MoveUnder, find_move_under};
pub use memory::vector_memory_rows;
pub use single_vector::{encode_vector, stop_of};
