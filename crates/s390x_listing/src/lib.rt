//! Listings of a function, a line for each instruction behind that of its block.
#![tactic(auto)]

mod head;
mod item_list;
mod items;
mod members;
mod operands;
mod texts;

pub use operands::listed_operands;
pub use texts::listed_texts;
