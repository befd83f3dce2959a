//! What machine instructions do, apart from their bytes: operands, operators and effects, and the one relation that gives them meaning.
#![tactic(auto)]

mod bits;
mod byte_values;
mod effect;
mod operand;
mod operating;
mod operator;
mod signed_values;
mod size;
mod stop;
mod unsigned;
mod vectors;

pub use bits::{leftmost, rotate_value, selection};
pub use byte_values::{bytes, extended_bits};
pub use effect::{CodeRule, Effect, Operation, VectorLayout};
pub use operand::{Operand, Pair, Source};
pub use operating::{in_byte_order, operate, width_of};
pub use operator::{BitOperator, LogicalOperator, Operator, SelectedBitsOperator, SignedOperator};
pub use signed_values::{code_s, fits, low, signed_number, signed_op};
pub use size::{Size, Width};
pub use stop::{ConditionCode, StopKind};
pub use unsigned::{compare_code, modulus, read, signed_division, unsigned_division, wide_product};
pub use vectors::{layout_bytes, register_after_load, vector_stored};
