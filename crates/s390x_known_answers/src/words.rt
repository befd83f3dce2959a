//! The words of a line: numbers, and names of variants.

use s390x_base::{FloatCC, IntCC, RegClass, Reloc, ValueType};
use s390x_buffer::LabelUse;
use s390x_case_runner::LineError;
use std::alloc::Global;
use std::fmt::Debug;

/// The comparisons of integers.
pub const INTEGER_COMPARISONS: [IntCC; 10] = [
    IntCC::Equal,
    IntCC::NotEqual,
    IntCC::SignedLessThan,
    IntCC::SignedGreaterThanOrEqual,
    IntCC::SignedGreaterThan,
    IntCC::SignedLessThanOrEqual,
    IntCC::UnsignedLessThan,
    IntCC::UnsignedGreaterThanOrEqual,
    IntCC::UnsignedGreaterThan,
    IntCC::UnsignedLessThanOrEqual,
];

/// The comparisons of floats.
pub const FLOAT_COMPARISONS: [FloatCC; 14] = [
    FloatCC::Ordered,
    FloatCC::Unordered,
    FloatCC::Equal,
    FloatCC::NotEqual,
    FloatCC::OrderedNotEqual,
    FloatCC::UnorderedOrEqual,
    FloatCC::LessThan,
    FloatCC::LessThanOrEqual,
    FloatCC::GreaterThan,
    FloatCC::GreaterThanOrEqual,
    FloatCC::UnorderedOrLessThan,
    FloatCC::UnorderedOrLessThanOrEqual,
    FloatCC::UnorderedOrGreaterThan,
    FloatCC::UnorderedOrGreaterThanOrEqual,
];

/// The types of values.
pub const TYPES: [ValueType; 16] = [
    ValueType::I8,
    ValueType::I16,
    ValueType::I32,
    ValueType::I64,
    ValueType::I128,
    ValueType::F16,
    ValueType::F32,
    ValueType::F64,
    ValueType::F128,
    ValueType::I8X8,
    ValueType::I8X16,
    ValueType::I16X8,
    ValueType::I32X4,
    ValueType::I64X2,
    ValueType::F32X4,
    ValueType::F64X2,
];

/// The classes of registers.
pub const CLASSES: [RegClass; 2] = [RegClass::Int, RegClass::Float];

/// The kinds of uses of labels.
pub const USES: [LabelUse; 4] = [
    LabelUse::BranchRI,
    LabelUse::BranchRIL,
    LabelUse::PCRel32,
    LabelUse::PCRel32Dbl,
];

/// The kinds of relocations.
pub const RELOCATIONS: [Reloc; 3] = [Reloc::S390xPCRel32Dbl, Reloc::S390xPLTRel32Dbl, Reloc::Abs8];

/// A word, and those behind it.
pub fn first_word(words: &str) -> Result<(&str, &str), LineError> {
    words.split_once(" ").ok_or(LineError::Unreadable)
}

/// A decimal number.
pub fn number(word: &str) -> Result<u32, LineError> {
    word.parse().map_err(|_| LineError::Unreadable)
}

/// The one of these whose `Debug` is this name.
pub fn named<T: Copy + Debug>(alloc: Global, all: &[T], name: &str) -> Result<T, LineError> {
    for one in all {
        if format!(in alloc; "{one:?}")?.as_str() == name {
            return Ok(*one);
        }
    }
    Err(LineError::Unreadable)
}

/// What a call answered, by its `Debug`.
pub fn text_of<T: Debug + Drop>(alloc: Global, answer: T) -> Result<String, LineError> {
    Ok(format!(in alloc; "{answer:?}")?)
}
