//! What a machine row does with its fields (Principles of Operation, chapter 7, "General
//! instructions", and chapters 21 and 22 on vectors).

use s390x_lanes::{ElementSize, Signedness, VectorRow};
use s390x_operations::{CodeRule, Operator, SelectedBitsOperator, Size, Width};

/// Where a row's second operand stands. The first one is register r1, but r2 in `ThreeRegisters`, `ThreeImmediate` and `Amount`.
///
/// r1, r2 and r3 are the format's register slots, in the order of its encoding call. They aren't the manual's operand numbers:
/// r2 is R3 in `ThreeImmediate`; r2 and r3 are R3 and B2 in `Amount`, and B2 and X2 in `Indexed` and `IndexedAddress`.
#[derive(Clone, Copy)]
pub enum OperandSource {
    /// Register r2.
    Register,
    /// Register r3; the first operand is r2.
    ThreeRegisters,
    /// In memory, at base r2 plus index r3 plus a displacement.
    Indexed,
    /// The address at base r2 plus index r3 plus a displacement.
    IndexedAddress,
    /// In memory, at a distance from the instruction.
    Relative,
    /// The address at a distance from the instruction.
    RelativeAddress,
    /// The immediate.
    Immediate,
    /// The immediate; the first operand is r2.
    ThreeImmediate,
    /// The immediate, so many bits further to the left.
    ShiftedImmediate(u8),
    /// Base r3 plus a displacement, as an amount; the first operand is r2.
    Amount,
    /// Access register r2.
    AccessRegister,
}

/// A row's second operand: where it stands, how wide it is, how it is extended, and whether its bytes are reversed.
#[derive(Clone, Copy)]
pub struct SecondOperand {
    pub operand_source: OperandSource,
    pub width: Width,
    pub sign: Signedness,
    pub reversed: bool,
}

/// How a vector row's operand lies in memory; sizes and places that aren't told here stand in the row's mask.
#[derive(Clone, Copy)]
pub enum VectorStorage {
    /// 16 bytes as they are.
    Whole,
    /// The bytes of each element reversed; the mask tells the elements' size.
    ReversedBytes,
    /// The elements in reverse order; the mask tells their size.
    ReversedElements,
    /// One element for all places, its bytes reversed where the flag says so; the mask tells its size.
    Replicated(bool),
    /// The element whose place the mask tells, its bytes reversed where the flag says so.
    Element(ElementSize, bool),
}

/// What a row does with its fields.
#[derive(Clone, Copy)]
pub enum RowSemantics {
    /// Register r1 gets any value. It stands first, since a read past the table's end gives the first variant.
    Havoc,
    /// Register r1 gets an operator's value.
    Compute(Operator, Size, SecondOperand, CodeRule),
    /// The condition code becomes the order of two values.
    Compare(Signedness, Size, SecondOperand),
    /// Register r1 gets the second operand where the mask selects the condition code.
    MoveWhere(Size, SecondOperand),
    /// Register r1 gets how many ones each byte of r2 has, or all of it in mode 8.
    CountOnes,
    /// The selected bits of r1 are joined with those of r2 rotated; the start with 128 added means that only the code is set.
    RotateThen(SelectedBitsOperator, CodeRule),
    /// The pair r1 gets the product of r2 and r3, with their signs.
    MultiplySigned,
    /// The pair r1 gets the product of its second register and r2, without signs.
    MultiplyLogical,
    /// The pair r1 gets the remainder and the quotient of its second register by r2, of this width, with their signs.
    DivideSigned(Width),
    /// The pair r1 gets the remainder and the quotient of the number in its two parts by r2, without signs.
    DivideLogical(Size),
    /// A stop where the first mask selects the order of r1 and r2.
    CompareAndTrap(Signedness, Size),
    /// A stop where the first mask selects the order of r1 and the immediate of 16 bits.
    CompareImmediateAndTrap(Signedness, Size),
    /// The pair r1 gets the number of leading zeros of r2, and r2 without its leftmost one.
    FindLeftmostOne,
    /// A branch to the address in r2 under the mask r1; none for r2 = 0.
    BranchToRegister,
    /// A branch to a distance from the instruction, under the first mask.
    BranchRelative,
    /// Memory gets the lowest bits of r1, as many as the second operand has.
    Store(SecondOperand),
    /// Memory at base r1 plus a displacement gets the immediate of 8 bits.
    StoreByte,
    /// Memory at base r1 plus a displacement gets the immediate of 16 bits, extended to this width with its sign.
    StoreImmediate(Width),
    /// The registers from r1 to r2, register 0 after 15, get the doublewords at base r3 plus a displacement.
    LoadMultiple,
    /// The registers from r1 to r2, register 0 after 15, go to the doublewords at base r3 plus a displacement.
    StoreMultiple,
    /// Register r1 gets the number at base r3 plus a displacement, which becomes an operator's value of it and r2, as one access.
    LoadAndOperate(Operator, Size),
    /// The number at base r3 plus a displacement becomes r2 where it is r1, else r1 gets it, as one access.
    CompareAndSwap(Size),
    /// Register r1 gets the address of the next instruction; a branch to the address in r2, none for r2 = 0.
    BranchAndSaveToRegister,
    /// Register r1 gets the address of the next instruction; a branch to a distance from the instruction.
    BranchAndSaveRelative,
    /// Vector register r1 gets what the row makes of the vector registers that it names, under its masks and its immediate.
    Elements(VectorRow),
    /// Vector register r1 gets what the row makes of vector register r3, by the amount at base r2 plus a displacement.
    ShiftElements(VectorRow),
    /// Vector register r1 gets what is in memory at base r2 plus index r3 plus a displacement.
    LoadVector(VectorStorage),
    /// What is in vector register r1 goes to memory at base r2 plus index r3 plus a displacement.
    StoreVector(VectorStorage),
    /// The leftmost element of vector register r1 gets that in memory at base r2 plus index r3 plus a displacement; the rest may be any.
    LoadLeft(ElementSize),
    /// The leftmost element of vector register r1 goes to memory at base r2 plus index r3 plus a displacement.
    StoreLeft(ElementSize),
    /// The leftmost element of vector register r1 gets that of r2; the rest may be any.
    MoveLeft(ElementSize),
    /// The leftmost 64 bits of vector register r1 get register r2; the rest may be any.
    RegisterToLeft,
    /// Register r1 gets the leftmost 64 bits of vector register r2.
    LeftToRegister,
    /// Vector register r1 gets registers r2 and r3, one behind the other.
    JoinRegisters,
    /// The element of vector register r1 at place base r2 plus a displacement gets the lowest bits of register r3.
    InsertElement,
    /// Register r1 gets the element of vector register r3 at place base r2 plus a displacement.
    ExtractElement,
}

/// Register r2, whole.
pub const REGISTER: SecondOperand = SecondOperand {
    operand_source: OperandSource::Register,
    width: Width::Bits64,
    sign: Signedness::Unsigned,
    reversed: false,
};

/// The right half of register r2.
pub const WORD_REGISTER: SecondOperand = SecondOperand {
    operand_source: OperandSource::Register,
    width: Width::Bits32,
    sign: Signedness::Unsigned,
    reversed: false,
};

/// The right half of register r2, with its sign.
pub const SIGNED_WORD_REGISTER: SecondOperand = SecondOperand {
    operand_source: OperandSource::Register,
    width: Width::Bits32,
    sign: Signedness::Signed,
    reversed: false,
};

/// Register r2, its bytes reversed.
pub const REVERSED_REGISTER: SecondOperand = SecondOperand {
    operand_source: OperandSource::Register,
    width: Width::Bits64,
    sign: Signedness::Unsigned,
    reversed: true,
};

/// The right half of register r2, its bytes reversed.
pub const REVERSED_WORD_REGISTER: SecondOperand = SecondOperand {
    operand_source: OperandSource::Register,
    width: Width::Bits32,
    sign: Signedness::Unsigned,
    reversed: true,
};

/// Register r3, whole.
pub const THREE_REGISTERS: SecondOperand = SecondOperand {
    operand_source: OperandSource::ThreeRegisters,
    width: Width::Bits64,
    sign: Signedness::Unsigned,
    reversed: false,
};

/// The right half of register r3.
pub const THREE_WORD_REGISTERS: SecondOperand = SecondOperand {
    operand_source: OperandSource::ThreeRegisters,
    width: Width::Bits32,
    sign: Signedness::Unsigned,
    reversed: false,
};

/// The immediate of 16 bits, with its sign.
pub const HALFWORD_IMMEDIATE: SecondOperand = SecondOperand {
    operand_source: OperandSource::Immediate,
    width: Width::Bits16,
    sign: Signedness::Signed,
    reversed: false,
};

/// The immediate of 32 bits, with its sign.
pub const SIGNED_WORD_IMMEDIATE: SecondOperand = SecondOperand {
    operand_source: OperandSource::Immediate,
    width: Width::Bits32,
    sign: Signedness::Signed,
    reversed: false,
};

/// The immediate of 32 bits.
pub const WORD_IMMEDIATE: SecondOperand = SecondOperand {
    operand_source: OperandSource::Immediate,
    width: Width::Bits32,
    sign: Signedness::Unsigned,
    reversed: false,
};

/// The immediate of 16 bits, with its sign; the first operand is in another register than the result.
pub const THREE_HALFWORD_IMMEDIATE: SecondOperand = SecondOperand {
    operand_source: OperandSource::ThreeImmediate,
    width: Width::Bits16,
    sign: Signedness::Signed,
    reversed: false,
};

/// The right byte of register r2.
pub const BYTE_REGISTER: SecondOperand = SecondOperand {
    operand_source: OperandSource::Register,
    width: Width::Bits8,
    sign: Signedness::Unsigned,
    reversed: false,
};

/// The right byte of register r2, with its sign.
pub const SIGNED_BYTE_REGISTER: SecondOperand = SecondOperand {
    operand_source: OperandSource::Register,
    width: Width::Bits8,
    sign: Signedness::Signed,
    reversed: false,
};

/// The right 16 bits of register r2.
pub const HALFWORD_REGISTER: SecondOperand = SecondOperand {
    operand_source: OperandSource::Register,
    width: Width::Bits16,
    sign: Signedness::Unsigned,
    reversed: false,
};

/// The right 16 bits of register r2, with their sign.
pub const SIGNED_HALFWORD_REGISTER: SecondOperand = SecondOperand {
    operand_source: OperandSource::Register,
    width: Width::Bits16,
    sign: Signedness::Signed,
    reversed: false,
};

/// Access register r2.
pub const ACCESS_REGISTER: SecondOperand = SecondOperand {
    operand_source: OperandSource::AccessRegister,
    width: Width::Bits32,
    sign: Signedness::Unsigned,
    reversed: false,
};

/// An amount.
pub const AMOUNT: SecondOperand = SecondOperand {
    operand_source: OperandSource::Amount,
    width: Width::Bits8,
    sign: Signedness::Unsigned,
    reversed: false,
};

/// The immediate where it is.
pub const AT_0: SecondOperand = SecondOperand {
    operand_source: OperandSource::ShiftedImmediate(0),
    width: Width::Bits64,
    sign: Signedness::Unsigned,
    reversed: false,
};

/// The immediate, 16 bits further to the left.
pub const AT_16: SecondOperand = SecondOperand {
    operand_source: OperandSource::ShiftedImmediate(16),
    width: Width::Bits64,
    sign: Signedness::Unsigned,
    reversed: false,
};

/// The immediate, 32 bits further to the left.
pub const AT_32: SecondOperand = SecondOperand {
    operand_source: OperandSource::ShiftedImmediate(32),
    width: Width::Bits64,
    sign: Signedness::Unsigned,
    reversed: false,
};

/// The immediate, 48 bits further to the left.
pub const AT_48: SecondOperand = SecondOperand {
    operand_source: OperandSource::ShiftedImmediate(48),
    width: Width::Bits64,
    sign: Signedness::Unsigned,
    reversed: false,
};

/// The address at a distance from the instruction.
pub const RELATIVE_ADDRESS: SecondOperand = SecondOperand {
    operand_source: OperandSource::RelativeAddress,
    width: Width::Bits64,
    sign: Signedness::Unsigned,
    reversed: false,
};

/// A byte in memory.
pub const BYTE_IN_MEMORY: SecondOperand = SecondOperand {
    operand_source: OperandSource::Indexed,
    width: Width::Bits8,
    sign: Signedness::Unsigned,
    reversed: false,
};

/// A byte in memory, with its sign.
pub const SIGNED_BYTE_IN_MEMORY: SecondOperand = SecondOperand {
    operand_source: OperandSource::Indexed,
    width: Width::Bits8,
    sign: Signedness::Signed,
    reversed: false,
};

/// A halfword in memory.
pub const HALFWORD_IN_MEMORY: SecondOperand = SecondOperand {
    operand_source: OperandSource::Indexed,
    width: Width::Bits16,
    sign: Signedness::Unsigned,
    reversed: false,
};

/// A halfword in memory, with its sign.
pub const SIGNED_HALFWORD_IN_MEMORY: SecondOperand = SecondOperand {
    operand_source: OperandSource::Indexed,
    width: Width::Bits16,
    sign: Signedness::Signed,
    reversed: false,
};

/// A word in memory.
pub const WORD_IN_MEMORY: SecondOperand = SecondOperand {
    operand_source: OperandSource::Indexed,
    width: Width::Bits32,
    sign: Signedness::Unsigned,
    reversed: false,
};

/// A word in memory, with its sign.
pub const SIGNED_WORD_IN_MEMORY: SecondOperand = SecondOperand {
    operand_source: OperandSource::Indexed,
    width: Width::Bits32,
    sign: Signedness::Signed,
    reversed: false,
};

/// A doubleword in memory.
pub const DOUBLEWORD_IN_MEMORY: SecondOperand = SecondOperand {
    operand_source: OperandSource::Indexed,
    width: Width::Bits64,
    sign: Signedness::Unsigned,
    reversed: false,
};

/// A halfword in memory, its bytes reversed.
pub const REVERSED_HALFWORD_IN_MEMORY: SecondOperand = SecondOperand {
    operand_source: OperandSource::Indexed,
    width: Width::Bits16,
    sign: Signedness::Unsigned,
    reversed: true,
};

/// A word in memory, its bytes reversed.
pub const REVERSED_WORD_IN_MEMORY: SecondOperand = SecondOperand {
    operand_source: OperandSource::Indexed,
    width: Width::Bits32,
    sign: Signedness::Unsigned,
    reversed: true,
};

/// A doubleword in memory, its bytes reversed.
pub const REVERSED_DOUBLEWORD_IN_MEMORY: SecondOperand = SecondOperand {
    operand_source: OperandSource::Indexed,
    width: Width::Bits64,
    sign: Signedness::Unsigned,
    reversed: true,
};

/// A halfword at a distance from the instruction.
pub const RELATIVE_HALFWORD: SecondOperand = SecondOperand {
    operand_source: OperandSource::Relative,
    width: Width::Bits16,
    sign: Signedness::Unsigned,
    reversed: false,
};

/// A halfword at a distance from the instruction, with its sign.
pub const SIGNED_RELATIVE_HALFWORD: SecondOperand = SecondOperand {
    operand_source: OperandSource::Relative,
    width: Width::Bits16,
    sign: Signedness::Signed,
    reversed: false,
};

/// A word at a distance from the instruction.
pub const RELATIVE_WORD: SecondOperand = SecondOperand {
    operand_source: OperandSource::Relative,
    width: Width::Bits32,
    sign: Signedness::Unsigned,
    reversed: false,
};

/// A word at a distance from the instruction, with its sign.
pub const SIGNED_RELATIVE_WORD: SecondOperand = SecondOperand {
    operand_source: OperandSource::Relative,
    width: Width::Bits32,
    sign: Signedness::Signed,
    reversed: false,
};

/// A doubleword at a distance from the instruction.
pub const RELATIVE_DOUBLEWORD: SecondOperand = SecondOperand {
    operand_source: OperandSource::Relative,
    width: Width::Bits64,
    sign: Signedness::Unsigned,
    reversed: false,
};

/// The address at base plus index plus a displacement.
pub const INDEXED_ADDRESS: SecondOperand = SecondOperand {
    operand_source: OperandSource::IndexedAddress,
    width: Width::Bits64,
    sign: Signedness::Unsigned,
    reversed: false,
};
