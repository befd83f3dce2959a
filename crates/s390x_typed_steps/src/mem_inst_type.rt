//! The forms that an instruction has for its memory operand.

/// Type(s) of memory instructions available for finalizing an operand: which displacements, relative forms and registers the machine
/// rows of an instruction have.
#[derive(Clone, Copy)]
pub struct MemInstType {
    /// An unsigned displacement of 12 bits.
    pub have_d12: bool,
    /// A signed displacement of 20 bits.
    pub have_d20: bool,
    /// An address relative to the instruction.
    pub have_pcrel: bool,
    /// An address relative to the instruction that needn't be a multiple of the width.
    pub have_unaligned_pcrel: bool,
    /// An index register.
    pub have_index: bool,
}
