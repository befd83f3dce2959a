//! The opcodes of the machine rows, by their mnemonics.
#![tactic(auto)]

pub mod opcodes;
