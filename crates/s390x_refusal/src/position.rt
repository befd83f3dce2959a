//! Places in a function.

use s390x_base::EmitError;

/// Where in a function a cause stands. Blocks and instructions are counted from 0.
#[derive(Drop, PartialEq, Debug)]
pub enum Position {
    /// Before the blocks: a stack size of the state that isn't 0, a constant's alignment, or the count of blocks and constants.
    Start,
    /// An instruction of a block. The path has its number in the block; for a member of a `Loop`, the number of the outermost `Loop` in the block, and then, from
    /// the outside in, each member's number in the `Loop` around it.
    Instruction { block: usize, path: Vec<usize> },
    /// The end of a block, where its arguments are still allocated.
    BlockEnd { block: usize },
    /// The length of the whole code.
    Length,
}

/// The first cause by which emission refuses a function, and where it stands.
#[derive(Drop, PartialEq, Debug)]
pub struct Refusal {
    pub error: EmitError,
    pub position: Position,
}
