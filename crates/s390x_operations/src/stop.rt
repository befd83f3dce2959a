//! Condition codes, and why an instruction stops.

/// A condition code (Principles of Operation, chapter 4, "Condition code").
#[derive(Clone, Copy)]
pub enum ConditionCode {
    Code0,
    Code1,
    Code2,
    Code3,
}

/// Why a step of the machine stops (Principles of Operation, chapter 6, "Program interruption").
#[derive(Clone, Copy, PartialEq, Eq, Debug)]
pub enum StopKind {
    /// The bytes are no instruction.
    Operation,
    /// A byte of the instruction or of its operand isn't accessible.
    Access,
    /// An odd place, an odd register of a pair, or an operand that isn't aligned.
    Specification,
    /// A divisor 0, or a quotient that doesn't fit.
    Divide,
    /// A compare and trap whose mask selects the outcome.
    CompareTrap,
}
