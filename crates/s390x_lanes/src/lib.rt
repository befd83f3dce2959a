// The results of the vector rows whose operands are vector registers and immediates.
#![tactic(auto)]

mod binary;
mod ends;
mod lane;
mod lookup;
mod number;
mod operators;
mod places;
mod products;
mod results;
mod row;
mod size;
mod step;
mod unary;

pub use ends::{code, divides_by_zero, division_overflows};
pub use lane::{append, element};
pub use lookup::{computes, operation, size_from};
pub use operators::{
    BinaryOperator, Comparison, Division, Half, Narrowing, Parity, ShiftOperator, Signedness,
    UnaryOperator, VectorOperation,
};
pub use results::result;
pub use row::{RowKind, VectorRow};
pub use size::ElementSize;
pub use step::{LaneEnd, lane_step};
