//! What a page asks that shows instructions: which one some bytes are, the parts of its format, its text, and a step of a
//! small machine. Nothing here allocates: answers go into the caller's structs.
#![tactic(auto)]

mod assembling;
mod halves;
mod instruction;
mod parts;
mod registers;
mod stepping;
mod storage;
mod text;

pub use assembling::{InstructionBytes, s390x_page_assemble};
pub use instruction::{Instruction, s390x_page_decode};
pub use parts::{FormatPart, s390x_page_part};
pub use registers::Registers;
pub use stepping::s390x_page_step;
pub use storage::Storage;
pub use text::{InstructionText, s390x_page_text};
