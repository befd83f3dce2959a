//! Finished code as flat tables, in buffers of the caller's.
#![tactic(auto)]

mod buffers;
mod entries;
mod numbers;
mod sites;
mod sizes;
mod write;

pub use buffers::{Buffers, write_tables};
pub use entries::{Handler, PatchableCall, Relocation, StackMap, Trap, Try};
pub use numbers::{relocation_number, trap_number};
pub use sizes::{Sizes, sizes_of};
