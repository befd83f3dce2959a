//! The top call of the s390x machine layer: its sources and sinks, its words, and `run`.
#![tactic(auto)]

mod alloc_command;
mod bundle_command;
mod emitted;
mod ends;
mod error_names;
mod gen_command;
mod in_memory;
mod input;
mod interrupted;
mod job_command;
mod law;
mod output;
mod reply;
mod smp_command;
mod standard;
mod status;
mod top_call;
mod words;

pub use alloc_command::alloc_reply;
pub use bundle_command::{bundle_refused, bundle_reply};
pub use emitted::{emitted_text, reloc_kind_name};
pub use ends::{Failed, Sink, Source};
pub use error_names::{emit_error_line, emit_error_name};
pub use gen_command::generate;
pub use in_memory::{BytesSink, BytesSource};
pub use input::read_input;
pub use job_command::{answer, link_job};
pub use law::{
    no_blocks_are_accepted, no_functions_are_accepted, one_function_is_accepted,
    one_job_is_accepted, one_step_is_accepted,
};
pub use output::write_text;
pub use reply::{
    Reply, in_hex, link_refused, no_memory, refusal_reply, static_reply, syntax, unread,
};
pub use smp_command::simulate;
pub use standard::{StdSink, StdSource};
pub use status::Status;
pub use top_call::run;
pub use words::{Command, JobCommand, read_number, read_words};
