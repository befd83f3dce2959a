//! The buffer of emission: bytes, labels and their uses, constants and tables, and what they become once finished.
#![tactic(auto)]

mod block_end;
mod buffer;
mod entries;
mod finish;
mod label_use;
mod law;
mod mach_inst_label_use;
mod patch;

pub use buffer::{MachBuffer, all_aligned};
pub use entries::{
    HandlerEntry, LabelFixup, MachBufferFinalized, MapEntry, PatchEntry, RelocEntry, TrapEntry,
    TryEntry, TryHandler,
};
pub use finish::constants_fit;
pub use label_use::LabelUse;
pub use law::{others_stand, sums_stand};
pub use mach_inst_label_use::MachInstLabelUse;
