//! Finished code as an object that linkers take: big-endian ELF64 for s390x.
#![tactic(auto)]

mod error;
mod fields;
mod file;
mod law;
mod members;
mod metadata;
mod names;
mod object_file;
mod relocations;
mod symbols;

pub use error::ObjectError;
pub use members::{ObjectMember, objects, objects_with_names};
pub use names::GivenName;
pub use object_file::{object, object_with_names, text_object};
pub use symbols::TextFunction;
