//! The top call of the second program: its statuses, its replies, and `run`.
#![tactic(auto)]

mod assemble;
mod block_notes;
mod code_listing;
mod disassemble;
mod entry_notes;
mod functions;
mod image_text;
mod inst_steps;
mod list;
mod notes;
mod object;
mod refusal;
mod reply;
mod status;
mod top_call;
mod verify;
mod words;

pub use reply::BinaryReply;
pub use status::BinaryStatus;
pub use top_call::run;
pub use words::{Command, object_name, read_words};
