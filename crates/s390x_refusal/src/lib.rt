//! Where emission stops: the first cause by which it refuses a function, with the place where that stands.
#![tactic(auto)]

mod blocks;
mod members;
mod position;
mod search;

pub use position::{Position, Refusal};
pub use search::first_refusal;
