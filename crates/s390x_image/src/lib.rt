//! The image: finished code at a base address, with its relocations filled.
#![tactic(auto)]

mod error;
mod fields;
mod image;
mod law;
mod linking;
mod symbols;

pub use error::LinkError;
pub use image::Image;
pub use law::{
    absolute_fields_read_back, fields_stand, relative_distances_lead, relative_fields_read_back,
};
pub use linking::link;
pub use symbols::SymbolTable;
