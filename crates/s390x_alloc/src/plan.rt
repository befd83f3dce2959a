//! What an allocator plans for a function.

use s390x_base::{PReg, Reg};

/// Where a value may stand.
#[derive(Clone, Copy, PartialEq, Debug)]
pub enum Place {
    /// In a real register.
    Reg(PReg),
    /// In a slot of the spill area, by its number: slot s stands at 16s bytes and has room for 128 bits.
    Slot(u32),
}

/// One member of a planned block.
#[derive(Drop)]
pub enum Edit {
    /// What stands in `from` is copied to `to`.
    Move { to: Place, from: Place },
    /// The next instruction of the block, with a register for each operand that it reports, in order.
    Step { regs: Vec<Reg> },
}

/// A virtual register whose value stands in a place.
#[derive(Clone, Copy, PartialEq, Debug)]
pub struct EntryPair {
    pub place: Place,
    pub vreg: Reg,
}

/// The plan of a block.
#[derive(Drop)]
pub struct BlockPlan {
    /// What is held where the block begins.
    pub entry: Vec<EntryPair>,
    /// The moves and the instructions, in order. The k-th `Step` is the k-th instruction.
    pub edits: Vec<Edit>,
}

/// The plan of a function, block by block.
#[derive(Drop)]
pub struct Plan {
    pub blocks: Vec<BlockPlan>,
}
