//! Sizes of operations and widths of operands.

/// The part of a general register that an operation works on.
#[derive(Clone, Copy)]
pub enum Size {
    /// Bits 48 to 63: the others stay.
    Halfword,
    /// Bits 32 to 63: the others stay.
    Word,
    /// All 64 bits.
    Doubleword,
}

/// How many bits an operand has before it is extended.
#[derive(Clone, Copy)]
pub enum Width {
    Bits8,
    Bits16,
    Bits32,
    Bits64,
}
