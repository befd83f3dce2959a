//! The words of a job's text: how each value is spelled, and how it is read from any text.
#![tactic(auto)]

pub mod atoms;
pub mod bytes;
pub mod calls;
mod cursor;
pub mod list;
pub mod memory;
pub mod number;
pub mod operators;
mod part;
mod parts;
mod read;
pub mod separators;
pub mod sets;
pub mod vector_operators;
pub mod word;

pub use cursor::Cursor;
pub use part::Part;
pub use parts::{GeneralStart, VectorStart};
