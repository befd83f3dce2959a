//! The generator of a large function that emission doesn't refuse.
#![tactic(auto)]

mod checksum;
mod function;
mod law;

pub use checksum::byte_sum;
pub use function::generated_function;
pub use law::generated_functions_are_valid;
