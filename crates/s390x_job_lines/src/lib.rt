//! The lines of instructions: their names, their printer and their reader.
#![tactic(auto)]

mod access_names;
mod inst_name;
mod law;
mod name;
mod name_hash;
mod print;
mod print_call;
mod print_vector;
mod put_line;
mod read_control;
mod read_integer;
mod read_memory;
mod read_vector;
mod rows;

pub use access_names::{LOAD_NAMES, STORE_NAMES, WHOLE_LOAD_NAMES, WHOLE_STORE_NAMES};
pub use inst_name::{ControlName, IntegerName, MemoryName, VectorName};
pub use law::lines_tell_instructions;
pub use name::{LineName, candidate, find_name};
pub use print::put_inst;
pub use put_line::{line0, line1, line2};
pub use read_control::control;
pub use read_integer::integer;
pub use read_memory::{load, memory, store};
pub use read_vector::{vector, whole_register};
