//! Operands, with their values or addresses.

use crate::size::Width;
use s390x_lanes::Signedness;

/// Where an operand's bits are.
#[derive(Clone, Copy)]
pub enum Source {
    /// A register's value or an immediate.
    Value(u64),
    /// In memory.
    Memory(u64),
    /// In memory, at an address that has to be a multiple of the width.
    AlignedMemory(u64),
}

/// An operand: its bits, how many of them count, how they are extended, and whether its bytes stand in reverse order.
#[derive(Clone, Copy)]
pub struct Operand {
    pub source: Source,
    pub width: Width,
    pub sign: Signedness,
    pub reversed: bool,
}

/// The values of an even-odd pair of registers.
#[derive(Clone, Copy)]
pub struct Pair {
    pub high: u64,
    pub low: u64,
}
