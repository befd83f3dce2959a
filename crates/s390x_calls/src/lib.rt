//! What the calls for C tell of themselves: statuses, reasons and places, and entries in the caller's buffer.
#![tactic(auto)]

mod place;
mod put;
mod reason;
mod status;

pub use place::{MOST_NUMBERS, Place};
pub use put::put_entries;
pub use reason::Reason;
pub use status::{MOST_BYTES, Status};
