//! What an instruction does, with its operands' values and addresses.

use crate::operand::{Operand, Source};
use crate::operator::Operator;
use crate::size::{Size, Width};
use s390x_lanes::{ElementSize, Signedness, VectorOperation};

/// How the elements of a vector lie in memory.
#[derive(Clone, Copy)]
pub enum VectorLayout {
    /// 16 bytes as they are.
    Whole,
    /// 16 bytes, those of each element reversed.
    ReversedBytes(ElementSize),
    /// 16 bytes, the elements in reverse order.
    ReversedElements(ElementSize),
    /// One element, which a load puts into each place; its bytes reversed where the flag says so.
    Replicated(ElementSize, bool),
    /// The element at one place; its bytes reversed where the flag says so.
    Element(ElementSize, u8, bool),
}

/// What an instruction does. Numbers of registers are `target`, `pair` (the even one) and `first_register`; all else are values and addresses.
#[derive(Clone, Copy)]
pub enum Effect {
    /// Nothing.
    Nothing,
    /// A general register gets an operator's value.
    Compute {
        operator: Operator,
        size: Size,
        target: u8,
        first: u64,
        second: Operand,
    },
    /// An operator sets the condition code alone.
    Test {
        operator: Operator,
        size: Size,
        first: u64,
        second: Operand,
    },
    /// A comparison sets the condition code.
    Compare {
        sign: Signedness,
        size: Size,
        first: u64,
        second: Operand,
    },
    /// A stop where the mask selects the outcome of a comparison.
    CompareAndTrap {
        sign: Signedness,
        size: Size,
        first: u64,
        second: u64,
        mask: u8,
    },
    /// A pair gets the whole product.
    MultiplyPair {
        sign: Signedness,
        pair: u8,
        first: u64,
        second: u64,
    },
    /// A pair gets the remainder and the quotient of signed numbers.
    DividePair {
        pair: u8,
        dividend: u64,
        divisor: u64,
    },
    /// A pair gets the remainder and the quotient of an unsigned number in two parts.
    DivideLogicalPair {
        size: Size,
        pair: u8,
        high: u64,
        low: u64,
        divisor: u64,
    },
    /// A pair gets the number of leading zeros, and the value without its leftmost one.
    FindLeftmostOne {
        pair: u8,
        value: u64,
    },
    /// The lowest bits of a value go to memory. The destination is no `Source::Value`.
    Store {
        width: Width,
        value: u64,
        destination: Source,
    },
    /// A register gets the number in memory, which becomes an operator's value, as one access.
    LoadAndOperate {
        operator: Operator,
        size: Size,
        target: u8,
        second: u64,
        address: u64,
    },
    /// Memory gets the replacement where it holds the expected number, else the register gets what it holds, as one access.
    CompareAndSwap {
        size: Size,
        target: u8,
        expected: u64,
        replacement: u64,
        address: u64,
    },
    /// So many registers from one on, register 0 after 15, get the doublewords in memory.
    LoadMultiple {
        first_register: u8,
        count: u8,
        address: u64,
    },
    /// So many of the values go to memory as doublewords.
    StoreMultiple {
        values: [u64; 16],
        count: u8,
        address: u64,
    },
    /// A general register gets any value.
    Havoc {
        target: u8,
    },
    /// A vector register gets an operation's result.
    ComputeVector {
        operation: VectorOperation,
        target: u8,
        first: u128,
        second: u128,
        third: u128,
        fourth: u128,
    },
    /// A vector register gets a value; the bits that aren't known get any.
    PutVector {
        target: u8,
        known: u128,
        value: u128,
    },
    /// A vector register, which held `old`, gets elements in memory; the bits that aren't known get any.
    LoadVector {
        layout: VectorLayout,
        target: u8,
        old: u128,
        known: u128,
        address: u64,
    },
    /// Elements of a value go to memory.
    StoreVector {
        layout: VectorLayout,
        value: u128,
        address: u64,
    },
}

/// What becomes of the condition code.
#[derive(Clone, Copy)]
pub enum CodeRule {
    /// It stays.
    Kept,
    /// It is that of the effect.
    Set,
    /// It may be any.
    Unspecified,
}

/// An effect, and what becomes of the condition code.
#[derive(Clone, Copy)]
pub struct Operation {
    pub effect: Effect,
    pub rule: CodeRule,
}
