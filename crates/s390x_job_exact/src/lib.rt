//! Exact readers of the most frequent lines: a field is taken only as it is printed, so that nothing is printed to compare.
#![tactic(auto)]

mod calls;
mod control;
mod cursor;
mod fields;
mod integer;
mod line;
mod list;
mod literal;
mod memory;
mod number;
mod operand;
mod rows;
mod vector;

pub use line::exact_line;
