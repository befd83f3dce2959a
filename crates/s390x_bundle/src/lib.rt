//! Several functions in one image, where they call each other by name.
#![tactic(auto)]

mod bundling;
mod bytes;
mod error;
mod joining;
mod law;
mod linking;
mod member;
mod members;
mod names;
mod places;
mod table;

pub use bundling::bundle;
pub use error::{BundleError, named_error};
pub use joining::{Bundle, JoinError, join_members};
pub use law::{members_rise, parts_stand, placed_members_have_bytes, zeros_stand_between};
pub use linking::{LinkRefusal, link_members};
pub use member::Member;
pub use members::members_of;
pub use names::duplicate_name;
pub use places::{Extent, PlaceCause, PlaceError, starts_of};
pub use table::{joint_table, member_table, symbol_table};
