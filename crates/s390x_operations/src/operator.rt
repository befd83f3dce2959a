//! Operators on two numbers (Principles of Operation, chapter 7, "General instructions").

use s390x_lanes::ShiftOperator;

/// An operator on signed numbers. `Negate` and `Absolute` read the second operand alone.
#[derive(Clone, Copy)]
pub enum SignedOperator {
    Add,
    Subtract,
    Multiply,
    Negate,
    Absolute,
}

/// An operator on unsigned numbers.
#[derive(Clone, Copy)]
pub enum LogicalOperator {
    Add,
    Subtract,
}

/// An operator on bits.
#[derive(Clone, Copy)]
pub enum BitOperator {
    And,
    Or,
    Xor,
    NotAnd,
    NotOr,
    NotXor,
    /// The first and the complement of the second.
    AndNot,
    /// The first or the complement of the second.
    OrNot,
}

/// What ROTATE THEN .. SELECTED BITS does with the selected bits.
#[derive(Clone, Copy)]
pub enum SelectedBitsOperator {
    Insert,
    And,
    Or,
    Xor,
}

/// What makes a value and a condition code of two numbers; an operator on one number reads the second.
#[derive(Clone, Copy)]
pub enum Operator {
    Signed(SignedOperator),
    Logical(LogicalOperator),
    Bit(BitOperator),
    /// The first by the low six bits of the second.
    Shift(ShiftOperator),
    /// On the bits under a mask.
    SelectedBits(SelectedBitsOperator, u64),
    /// The second operand: a load or a move.
    Move,
    /// The ones of each byte.
    PopulationCountByByte,
    PopulationCount,
    LeadingZeros,
    TrailingZeros,
}
