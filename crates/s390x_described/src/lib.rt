//! Instructions, each described once: by the roles of its registers, and what it is with others in their place.
#![tactic(auto)]

mod law;
mod replacer;
mod replacing;
mod rows;

pub use law::descriptions_give_instructions;
pub use replacer::Replacer;
pub use replacing::replace;
