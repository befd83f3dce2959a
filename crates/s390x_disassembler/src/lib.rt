//! A disassembler and an assembler of code, whose lines are the code.
#![tactic(auto)]

mod assembly;
mod candidate;
mod first_line;
mod fitted_text;
mod forms;
mod glyphs;
mod line;
mod listing;
mod noted;
mod one_line;
mod reading;
mod room;
mod scan;
mod spelling;
mod text;

pub use assembly::{AssembleError, assemble};
pub use fitted_text::located_text;
pub use forms::{Operand, operands};
pub use line::{Line, found_in, line_at};
pub use listing::{disassemble, instruction_text};
pub use noted::{Note, disassemble_with_notes};
pub use one_line::assembled_line;
pub use room::Text;
