//! What is reported of an operand.

use s390x_base::{PReg, PRegSet, Reg};

/// Where an operand may stand.
#[derive(Clone, Copy, PartialEq)]
pub enum OperandConstraint {
    /// In a register or on the stack.
    Any,
    /// In a register of its class.
    Reg,
    /// In this register.
    FixedReg(PReg),
    /// In the register of the operand with this index, counted from 0 in the order of reporting.
    Reuse(usize),
}

/// Whether an operand is written or read.
#[derive(Clone, Copy, PartialEq)]
pub enum OperandKind {
    Def,
    Use,
}

/// When an operand is written or read: before the instruction's effects, or after them.
#[derive(Clone, Copy, PartialEq)]
pub enum OperandPos {
    Early,
    Late,
}

/// Why the operands of an instruction can't be reported.
#[derive(Clone, Copy, PartialEq, Debug)]
pub enum OperandError {
    /// An output that has to be an input stands where that is denied, as in a `Loop`.
    ReuseInLoop,
    /// A register that has to be real is virtual.
    NotReal,
    /// No memory.
    NoMemory,
}

/// One item of what an instruction reports.
#[derive(Clone, Copy, PartialEq)]
pub enum Reported {
    /// A register to be placed, or one that is placed already where its constraint names it.
    Operand {
        reg: Reg,
        constraint: OperandConstraint,
        kind: OperandKind,
        pos: OperandPos,
    },
    /// A real register that the instruction reads or writes.
    Fixed(PReg),
    /// Real registers whose values are lost.
    Clobbers(PRegSet),
}
