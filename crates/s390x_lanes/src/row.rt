// What a vector row on registers and immediates does.
#![tactic(auto)]

use crate::operators::{
    BinaryOperator, Comparison, Division, Half, Narrowing, Parity, ShiftOperator, Signedness,
    UnaryOperator,
};
use crate::size::ElementSize;

/// What a row does, but for its element size and immediates (z/Architecture Principles of Operation, "Vector Support",
/// "Vector Integer" and "Vector Facility" instructions, in formats VRI, VRR and VRS-a).
#[derive(Clone, Copy)]
pub enum RowKind {
    Binary(BinaryOperator),
    /// On all 128 bits, with the element-size code 0.
    Whole(BinaryOperator),
    Compare(Comparison),
    MultiplyHigh(Signedness),
    MultiplyPairs(Signedness, Parity),
    Divide(Division, Signedness),
    Unary(UnaryOperator),
    ShiftElements(ShiftOperator),
    Pack(Narrowing),
    Merge(Half),
    Unpack(Signedness, Half),
    Replicate,
    ByteMask,
    BitMask,
    Select,
    Permute,
    PermuteDoublewords,
    ShiftByBits(ShiftOperator),
    ShiftByBytes(ShiftOperator),
    Move,
    InsertImmediate(ElementSize),
    ReplicateImmediate,
    BitPermute,
    CompareElement(Signedness),
    Blend,
    Evaluate,
}

/// What a row does, and the least and the greatest value of the mask that tells the element size or the lane: the third one of
/// a bit mask, else the first.
#[derive(Clone, Copy)]
pub struct VectorRow {
    pub kind: RowKind,
    pub least: u8,
    pub greatest: u8,
}
