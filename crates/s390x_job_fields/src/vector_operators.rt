//! Vector operators, by their names.
ghost use Rattle.std.specs.Prelude.{◌≡◌};
ghost use Rattle.s390x_job_fields.specs.Operators.{vec_binary_text, vec_binary_of, vec_unary_text, vec_unary_of, vec_shift_text, vec_shift_of, vec_compare_text, vec_compare_of, vec_element_compare_text, vec_element_compare_of};

use crate::word::{Names, Word, find, name_at};
use s390x_inst::{VecBinaryOp, VecIntCmpOp, VecIntEltCmpOp, VecShiftOp, VecUnaryOp};

/// Each value with its name, in the order of the declaration.
pub const VEC_BINARY_NAMES: Names<VecBinaryOp> = &[
    (VecBinaryOp::Add8x16, "Add8x16"),
    (VecBinaryOp::Add16x8, "Add16x8"),
    (VecBinaryOp::Add32x4, "Add32x4"),
    (VecBinaryOp::Add64x2, "Add64x2"),
    (VecBinaryOp::Add128, "Add128"),
    (VecBinaryOp::Sub8x16, "Sub8x16"),
    (VecBinaryOp::Sub16x8, "Sub16x8"),
    (VecBinaryOp::Sub32x4, "Sub32x4"),
    (VecBinaryOp::Sub64x2, "Sub64x2"),
    (VecBinaryOp::Sub128, "Sub128"),
    (VecBinaryOp::Add128Cout, "Add128Cout"),
    (VecBinaryOp::Sub128Cout, "Sub128Cout"),
    (VecBinaryOp::Mul8x16, "Mul8x16"),
    (VecBinaryOp::Mul16x8, "Mul16x8"),
    (VecBinaryOp::Mul32x4, "Mul32x4"),
    (VecBinaryOp::Mul64x2, "Mul64x2"),
    (VecBinaryOp::Mul128, "Mul128"),
    (VecBinaryOp::UMulHi8x16, "UMulHi8x16"),
    (VecBinaryOp::UMulHi16x8, "UMulHi16x8"),
    (VecBinaryOp::UMulHi32x4, "UMulHi32x4"),
    (VecBinaryOp::UMulHi64x2, "UMulHi64x2"),
    (VecBinaryOp::UMulHi128, "UMulHi128"),
    (VecBinaryOp::SMulHi8x16, "SMulHi8x16"),
    (VecBinaryOp::SMulHi16x8, "SMulHi16x8"),
    (VecBinaryOp::SMulHi32x4, "SMulHi32x4"),
    (VecBinaryOp::SMulHi64x2, "SMulHi64x2"),
    (VecBinaryOp::SMulHi128, "SMulHi128"),
    (VecBinaryOp::UMulEven8x16, "UMulEven8x16"),
    (VecBinaryOp::UMulEven16x8, "UMulEven16x8"),
    (VecBinaryOp::UMulEven32x4, "UMulEven32x4"),
    (VecBinaryOp::UMulEven64x2, "UMulEven64x2"),
    (VecBinaryOp::SMulEven8x16, "SMulEven8x16"),
    (VecBinaryOp::SMulEven16x8, "SMulEven16x8"),
    (VecBinaryOp::SMulEven32x4, "SMulEven32x4"),
    (VecBinaryOp::SMulEven64x2, "SMulEven64x2"),
    (VecBinaryOp::UMulOdd8x16, "UMulOdd8x16"),
    (VecBinaryOp::UMulOdd16x8, "UMulOdd16x8"),
    (VecBinaryOp::UMulOdd32x4, "UMulOdd32x4"),
    (VecBinaryOp::UMulOdd64x2, "UMulOdd64x2"),
    (VecBinaryOp::SMulOdd8x16, "SMulOdd8x16"),
    (VecBinaryOp::SMulOdd16x8, "SMulOdd16x8"),
    (VecBinaryOp::SMulOdd32x4, "SMulOdd32x4"),
    (VecBinaryOp::SMulOdd64x2, "SMulOdd64x2"),
    (VecBinaryOp::UDiv32x4, "UDiv32x4"),
    (VecBinaryOp::UDiv64x2, "UDiv64x2"),
    (VecBinaryOp::UDiv128, "UDiv128"),
    (VecBinaryOp::SDiv32x4, "SDiv32x4"),
    (VecBinaryOp::SDiv64x2, "SDiv64x2"),
    (VecBinaryOp::SDiv128, "SDiv128"),
    (VecBinaryOp::URem32x4, "URem32x4"),
    (VecBinaryOp::URem64x2, "URem64x2"),
    (VecBinaryOp::URem128, "URem128"),
    (VecBinaryOp::SRem32x4, "SRem32x4"),
    (VecBinaryOp::SRem64x2, "SRem64x2"),
    (VecBinaryOp::SRem128, "SRem128"),
    (VecBinaryOp::UMax8x16, "UMax8x16"),
    (VecBinaryOp::UMax16x8, "UMax16x8"),
    (VecBinaryOp::UMax32x4, "UMax32x4"),
    (VecBinaryOp::UMax64x2, "UMax64x2"),
    (VecBinaryOp::UMax128, "UMax128"),
    (VecBinaryOp::SMax8x16, "SMax8x16"),
    (VecBinaryOp::SMax16x8, "SMax16x8"),
    (VecBinaryOp::SMax32x4, "SMax32x4"),
    (VecBinaryOp::SMax64x2, "SMax64x2"),
    (VecBinaryOp::SMax128, "SMax128"),
    (VecBinaryOp::UMin8x16, "UMin8x16"),
    (VecBinaryOp::UMin16x8, "UMin16x8"),
    (VecBinaryOp::UMin32x4, "UMin32x4"),
    (VecBinaryOp::UMin64x2, "UMin64x2"),
    (VecBinaryOp::UMin128, "UMin128"),
    (VecBinaryOp::SMin8x16, "SMin8x16"),
    (VecBinaryOp::SMin16x8, "SMin16x8"),
    (VecBinaryOp::SMin32x4, "SMin32x4"),
    (VecBinaryOp::SMin64x2, "SMin64x2"),
    (VecBinaryOp::SMin128, "SMin128"),
    (VecBinaryOp::UAvg8x16, "UAvg8x16"),
    (VecBinaryOp::UAvg16x8, "UAvg16x8"),
    (VecBinaryOp::UAvg32x4, "UAvg32x4"),
    (VecBinaryOp::UAvg64x2, "UAvg64x2"),
    (VecBinaryOp::UAvg128, "UAvg128"),
    (VecBinaryOp::SAvg8x16, "SAvg8x16"),
    (VecBinaryOp::SAvg16x8, "SAvg16x8"),
    (VecBinaryOp::SAvg32x4, "SAvg32x4"),
    (VecBinaryOp::SAvg64x2, "SAvg64x2"),
    (VecBinaryOp::SAvg128, "SAvg128"),
    (VecBinaryOp::And128, "And128"),
    (VecBinaryOp::Orr128, "Orr128"),
    (VecBinaryOp::Xor128, "Xor128"),
    (VecBinaryOp::NotAnd128, "NotAnd128"),
    (VecBinaryOp::NotOrr128, "NotOrr128"),
    (VecBinaryOp::NotXor128, "NotXor128"),
    (VecBinaryOp::AndNot128, "AndNot128"),
    (VecBinaryOp::OrrNot128, "OrrNot128"),
    (VecBinaryOp::BitPermute128, "BitPermute128"),
    (VecBinaryOp::LShLByByte128, "LShLByByte128"),
    (VecBinaryOp::LShRByByte128, "LShRByByte128"),
    (VecBinaryOp::AShRByByte128, "AShRByByte128"),
    (VecBinaryOp::LShLByBit128, "LShLByBit128"),
    (VecBinaryOp::LShRByBit128, "LShRByBit128"),
    (VecBinaryOp::AShRByBit128, "AShRByBit128"),
    (VecBinaryOp::Pack16x8, "Pack16x8"),
    (VecBinaryOp::Pack32x4, "Pack32x4"),
    (VecBinaryOp::Pack64x2, "Pack64x2"),
    (VecBinaryOp::PackUSat16x8, "PackUSat16x8"),
    (VecBinaryOp::PackUSat32x4, "PackUSat32x4"),
    (VecBinaryOp::PackUSat64x2, "PackUSat64x2"),
    (VecBinaryOp::PackSSat16x8, "PackSSat16x8"),
    (VecBinaryOp::PackSSat32x4, "PackSSat32x4"),
    (VecBinaryOp::PackSSat64x2, "PackSSat64x2"),
    (VecBinaryOp::MergeLow8x16, "MergeLow8x16"),
    (VecBinaryOp::MergeLow16x8, "MergeLow16x8"),
    (VecBinaryOp::MergeLow32x4, "MergeLow32x4"),
    (VecBinaryOp::MergeLow64x2, "MergeLow64x2"),
    (VecBinaryOp::MergeHigh8x16, "MergeHigh8x16"),
    (VecBinaryOp::MergeHigh16x8, "MergeHigh16x8"),
    (VecBinaryOp::MergeHigh32x4, "MergeHigh32x4"),
    (VecBinaryOp::MergeHigh64x2, "MergeHigh64x2"),
];

impl Word for VecBinaryOp {
    ghost spelling = { vec_binary_text };

    #[tactic(auto, unfolding(crate::specs::Operators::vec_binary_text))]
    fn text(self) -> &'static str {
        name_at(VEC_BINARY_NAMES, self as usize)
    }
}

/// The value that a word names, the table's first for any other word.
#[tactic(auto, unfolding(crate::specs::Operators::vec_binary_of))]
#[inline(always)]
pub fn vec_binary(word: &[u8]) -> VecBinaryOp
    ensures { result ≡ vec_binary_of word.now }
{
    find(VEC_BINARY_NAMES, word, VecBinaryOp::Add8x16)
}

/// Each value with its name, in the order of the declaration.
pub const VEC_UNARY_NAMES: Names<VecUnaryOp> = &[
    (VecUnaryOp::Abs8x16, "Abs8x16"),
    (VecUnaryOp::Abs16x8, "Abs16x8"),
    (VecUnaryOp::Abs32x4, "Abs32x4"),
    (VecUnaryOp::Abs64x2, "Abs64x2"),
    (VecUnaryOp::Abs128, "Abs128"),
    (VecUnaryOp::Neg8x16, "Neg8x16"),
    (VecUnaryOp::Neg16x8, "Neg16x8"),
    (VecUnaryOp::Neg32x4, "Neg32x4"),
    (VecUnaryOp::Neg64x2, "Neg64x2"),
    (VecUnaryOp::Neg128, "Neg128"),
    (VecUnaryOp::Popcnt8x16, "Popcnt8x16"),
    (VecUnaryOp::Popcnt16x8, "Popcnt16x8"),
    (VecUnaryOp::Popcnt32x4, "Popcnt32x4"),
    (VecUnaryOp::Popcnt64x2, "Popcnt64x2"),
    (VecUnaryOp::Clz8x16, "Clz8x16"),
    (VecUnaryOp::Clz16x8, "Clz16x8"),
    (VecUnaryOp::Clz32x4, "Clz32x4"),
    (VecUnaryOp::Clz64x2, "Clz64x2"),
    (VecUnaryOp::Clz128, "Clz128"),
    (VecUnaryOp::Ctz8x16, "Ctz8x16"),
    (VecUnaryOp::Ctz16x8, "Ctz16x8"),
    (VecUnaryOp::Ctz32x4, "Ctz32x4"),
    (VecUnaryOp::Ctz64x2, "Ctz64x2"),
    (VecUnaryOp::Ctz128, "Ctz128"),
    (VecUnaryOp::UnpackULow8x16, "UnpackULow8x16"),
    (VecUnaryOp::UnpackULow16x8, "UnpackULow16x8"),
    (VecUnaryOp::UnpackULow32x4, "UnpackULow32x4"),
    (VecUnaryOp::UnpackULow64x2, "UnpackULow64x2"),
    (VecUnaryOp::UnpackUHigh8x16, "UnpackUHigh8x16"),
    (VecUnaryOp::UnpackUHigh16x8, "UnpackUHigh16x8"),
    (VecUnaryOp::UnpackUHigh32x4, "UnpackUHigh32x4"),
    (VecUnaryOp::UnpackUHigh64x2, "UnpackUHigh64x2"),
    (VecUnaryOp::UnpackSLow8x16, "UnpackSLow8x16"),
    (VecUnaryOp::UnpackSLow16x8, "UnpackSLow16x8"),
    (VecUnaryOp::UnpackSLow32x4, "UnpackSLow32x4"),
    (VecUnaryOp::UnpackSLow64x2, "UnpackSLow64x2"),
    (VecUnaryOp::UnpackSHigh8x16, "UnpackSHigh8x16"),
    (VecUnaryOp::UnpackSHigh16x8, "UnpackSHigh16x8"),
    (VecUnaryOp::UnpackSHigh32x4, "UnpackSHigh32x4"),
    (VecUnaryOp::UnpackSHigh64x2, "UnpackSHigh64x2"),
];

impl Word for VecUnaryOp {
    ghost spelling = { vec_unary_text };

    #[tactic(auto, unfolding(crate::specs::Operators::vec_unary_text))]
    fn text(self) -> &'static str {
        name_at(VEC_UNARY_NAMES, self as usize)
    }
}

/// The value that a word names, the table's first for any other word.
#[tactic(auto, unfolding(crate::specs::Operators::vec_unary_of))]
#[inline(always)]
pub fn vec_unary(word: &[u8]) -> VecUnaryOp
    ensures { result ≡ vec_unary_of word.now }
{
    find(VEC_UNARY_NAMES, word, VecUnaryOp::Abs8x16)
}

/// Each value with its name, in the order of the declaration.
pub const VEC_SHIFT_NAMES: Names<VecShiftOp> = &[
    (VecShiftOp::RotL8x16, "RotL8x16"),
    (VecShiftOp::RotL16x8, "RotL16x8"),
    (VecShiftOp::RotL32x4, "RotL32x4"),
    (VecShiftOp::RotL64x2, "RotL64x2"),
    (VecShiftOp::LShL8x16, "LShL8x16"),
    (VecShiftOp::LShL16x8, "LShL16x8"),
    (VecShiftOp::LShL32x4, "LShL32x4"),
    (VecShiftOp::LShL64x2, "LShL64x2"),
    (VecShiftOp::LShR8x16, "LShR8x16"),
    (VecShiftOp::LShR16x8, "LShR16x8"),
    (VecShiftOp::LShR32x4, "LShR32x4"),
    (VecShiftOp::LShR64x2, "LShR64x2"),
    (VecShiftOp::AShR8x16, "AShR8x16"),
    (VecShiftOp::AShR16x8, "AShR16x8"),
    (VecShiftOp::AShR32x4, "AShR32x4"),
    (VecShiftOp::AShR64x2, "AShR64x2"),
];

impl Word for VecShiftOp {
    ghost spelling = { vec_shift_text };

    #[tactic(auto, unfolding(crate::specs::Operators::vec_shift_text))]
    fn text(self) -> &'static str {
        name_at(VEC_SHIFT_NAMES, self as usize)
    }
}

/// The value that a word names, the table's first for any other word.
#[tactic(auto, unfolding(crate::specs::Operators::vec_shift_of))]
#[inline(always)]
pub fn vec_shift(word: &[u8]) -> VecShiftOp
    ensures { result ≡ vec_shift_of word.now }
{
    find(VEC_SHIFT_NAMES, word, VecShiftOp::RotL8x16)
}

/// Each value with its name, in the order of the declaration.
pub const VEC_COMPARE_NAMES: Names<VecIntCmpOp> = &[
    (VecIntCmpOp::CmpEq8x16, "CmpEq8x16"),
    (VecIntCmpOp::CmpEq16x8, "CmpEq16x8"),
    (VecIntCmpOp::CmpEq32x4, "CmpEq32x4"),
    (VecIntCmpOp::CmpEq64x2, "CmpEq64x2"),
    (VecIntCmpOp::CmpEq128, "CmpEq128"),
    (VecIntCmpOp::SCmpHi8x16, "SCmpHi8x16"),
    (VecIntCmpOp::SCmpHi16x8, "SCmpHi16x8"),
    (VecIntCmpOp::SCmpHi32x4, "SCmpHi32x4"),
    (VecIntCmpOp::SCmpHi64x2, "SCmpHi64x2"),
    (VecIntCmpOp::SCmpHi128, "SCmpHi128"),
    (VecIntCmpOp::UCmpHi8x16, "UCmpHi8x16"),
    (VecIntCmpOp::UCmpHi16x8, "UCmpHi16x8"),
    (VecIntCmpOp::UCmpHi32x4, "UCmpHi32x4"),
    (VecIntCmpOp::UCmpHi64x2, "UCmpHi64x2"),
    (VecIntCmpOp::UCmpHi128, "UCmpHi128"),
];

impl Word for VecIntCmpOp {
    ghost spelling = { vec_compare_text };

    #[tactic(auto, unfolding(crate::specs::Operators::vec_compare_text))]
    fn text(self) -> &'static str {
        name_at(VEC_COMPARE_NAMES, self as usize)
    }
}

/// The value that a word names, the table's first for any other word.
#[tactic(auto, unfolding(crate::specs::Operators::vec_compare_of))]
#[inline(always)]
pub fn vec_compare(word: &[u8]) -> VecIntCmpOp
    ensures { result ≡ vec_compare_of word.now }
{
    find(VEC_COMPARE_NAMES, word, VecIntCmpOp::CmpEq8x16)
}

/// Each value with its name, in the order of the declaration.
pub const VEC_ELEMENT_COMPARE_NAMES: Names<VecIntEltCmpOp> = &[
    (VecIntEltCmpOp::SCmp128, "SCmp128"),
    (VecIntEltCmpOp::UCmp128, "UCmp128"),
];

impl Word for VecIntEltCmpOp {
    ghost spelling = { vec_element_compare_text };

    #[tactic(auto, unfolding(crate::specs::Operators::vec_element_compare_text))]
    fn text(self) -> &'static str {
        name_at(VEC_ELEMENT_COMPARE_NAMES, self as usize)
    }
}

/// The value that a word names, the table's first for any other word.
#[tactic(auto, unfolding(crate::specs::Operators::vec_element_compare_of))]
#[inline(always)]
pub fn vec_element_compare(word: &[u8]) -> VecIntEltCmpOp
    ensures { result ≡ vec_element_compare_of word.now }
{
    find(VEC_ELEMENT_COMPARE_NAMES, word, VecIntEltCmpOp::SCmp128)
}
