//! The code of instructions that are one machine instruction, and the rows of those with an operand in memory.
#![tactic(auto)]

mod arithmetic;
mod bits;
mod codes;
mod encode;
mod memory;
mod moves;
mod opcode;
mod registers;
mod single_instruction;
mod trapping;

pub use arithmetic::encode_rrr;
pub use memory::{memory_of_load, memory_of_store, memory_rows};
pub use single_instruction::encode_single;
pub use trapping::stop_code;
