//! The machine row of an operator on vectors.

/// An opcode, and the mask that tells the size of its elements; 0 where the row has one size.
#[derive(Clone, Copy)]
pub struct VectorOpcode {
    /// The opcode, of four digits.
    pub opcode: u16,
    /// The element-size code: 0 to 4 for 8 to 128 bits.
    pub code: u8,
}
