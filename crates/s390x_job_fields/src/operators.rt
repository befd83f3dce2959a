//! Integer operators, conventions and types, by their names.
ghost use Rattle.std.specs.Prelude.{◌≡◌};
ghost use Rattle.s390x_job_fields.specs.Operators.{alu_text, alu_of, cmp_text, cmp_of, shift_text, shift_of, rxsbg_text, rxsbg_of, unary_text, unary_of, convention_text, convention_of, type_text, value_type_of};

use crate::word::{Names, Word, find, name_at};
use s390x_base::ValueType;
use s390x_inst::{ALUOp, CallConv, CmpOp, RxSBGOp, ShiftOp, UnaryOp};

/// Each value with its name, in the order of the declaration.
pub const ALU_NAMES: Names<ALUOp> = &[
    (ALUOp::Add32, "Add32"),
    (ALUOp::Add32Ext16, "Add32Ext16"),
    (ALUOp::Add64, "Add64"),
    (ALUOp::Add64Ext16, "Add64Ext16"),
    (ALUOp::Add64Ext32, "Add64Ext32"),
    (ALUOp::AddLogical32, "AddLogical32"),
    (ALUOp::AddLogical64, "AddLogical64"),
    (ALUOp::AddLogical64Ext32, "AddLogical64Ext32"),
    (ALUOp::Sub32, "Sub32"),
    (ALUOp::Sub32Ext16, "Sub32Ext16"),
    (ALUOp::Sub64, "Sub64"),
    (ALUOp::Sub64Ext16, "Sub64Ext16"),
    (ALUOp::Sub64Ext32, "Sub64Ext32"),
    (ALUOp::SubLogical32, "SubLogical32"),
    (ALUOp::SubLogical64, "SubLogical64"),
    (ALUOp::SubLogical64Ext32, "SubLogical64Ext32"),
    (ALUOp::Mul32, "Mul32"),
    (ALUOp::Mul32Ext16, "Mul32Ext16"),
    (ALUOp::Mul32CC, "Mul32CC"),
    (ALUOp::Mul64, "Mul64"),
    (ALUOp::Mul64Ext16, "Mul64Ext16"),
    (ALUOp::Mul64Ext32, "Mul64Ext32"),
    (ALUOp::Mul64CC, "Mul64CC"),
    (ALUOp::And32, "And32"),
    (ALUOp::And64, "And64"),
    (ALUOp::Orr32, "Orr32"),
    (ALUOp::Orr64, "Orr64"),
    (ALUOp::Xor32, "Xor32"),
    (ALUOp::Xor64, "Xor64"),
    (ALUOp::NotAnd32, "NotAnd32"),
    (ALUOp::NotAnd64, "NotAnd64"),
    (ALUOp::NotOrr32, "NotOrr32"),
    (ALUOp::NotOrr64, "NotOrr64"),
    (ALUOp::NotXor32, "NotXor32"),
    (ALUOp::NotXor64, "NotXor64"),
    (ALUOp::AndNot32, "AndNot32"),
    (ALUOp::AndNot64, "AndNot64"),
    (ALUOp::OrrNot32, "OrrNot32"),
    (ALUOp::OrrNot64, "OrrNot64"),
];

impl Word for ALUOp {
    ghost spelling = { alu_text };

    #[tactic(auto, unfolding(crate::specs::Operators::alu_text))]
    fn text(self) -> &'static str {
        name_at(ALU_NAMES, self as usize)
    }
}

/// The value that a word names, the table's first for any other word.
#[tactic(auto, unfolding(crate::specs::Operators::alu_of))]
#[inline(always)]
pub fn alu(word: &[u8]) -> ALUOp
    ensures { result ≡ alu_of word.now }
{
    find(ALU_NAMES, word, ALUOp::Add32)
}

/// Each value with its name, in the order of the declaration.
pub const CMP_NAMES: Names<CmpOp> = &[
    (CmpOp::CmpS32, "CmpS32"),
    (CmpOp::CmpS32Ext16, "CmpS32Ext16"),
    (CmpOp::CmpS64, "CmpS64"),
    (CmpOp::CmpS64Ext16, "CmpS64Ext16"),
    (CmpOp::CmpS64Ext32, "CmpS64Ext32"),
    (CmpOp::CmpL32, "CmpL32"),
    (CmpOp::CmpL32Ext16, "CmpL32Ext16"),
    (CmpOp::CmpL64, "CmpL64"),
    (CmpOp::CmpL64Ext16, "CmpL64Ext16"),
    (CmpOp::CmpL64Ext32, "CmpL64Ext32"),
];

impl Word for CmpOp {
    ghost spelling = { cmp_text };

    #[tactic(auto, unfolding(crate::specs::Operators::cmp_text))]
    fn text(self) -> &'static str {
        name_at(CMP_NAMES, self as usize)
    }
}

/// The value that a word names, the table's first for any other word.
#[tactic(auto, unfolding(crate::specs::Operators::cmp_of))]
#[inline(always)]
pub fn cmp(word: &[u8]) -> CmpOp
    ensures { result ≡ cmp_of word.now }
{
    find(CMP_NAMES, word, CmpOp::CmpS32)
}

/// Each value with its name, in the order of the declaration.
pub const SHIFT_NAMES: Names<ShiftOp> = &[
    (ShiftOp::RotL32, "RotL32"),
    (ShiftOp::RotL64, "RotL64"),
    (ShiftOp::LShL32, "LShL32"),
    (ShiftOp::LShL64, "LShL64"),
    (ShiftOp::LShR32, "LShR32"),
    (ShiftOp::LShR64, "LShR64"),
    (ShiftOp::AShR32, "AShR32"),
    (ShiftOp::AShR64, "AShR64"),
];

impl Word for ShiftOp {
    ghost spelling = { shift_text };

    #[tactic(auto, unfolding(crate::specs::Operators::shift_text))]
    fn text(self) -> &'static str {
        name_at(SHIFT_NAMES, self as usize)
    }
}

/// The value that a word names, the table's first for any other word.
#[tactic(auto, unfolding(crate::specs::Operators::shift_of))]
#[inline(always)]
pub fn shift(word: &[u8]) -> ShiftOp
    ensures { result ≡ shift_of word.now }
{
    find(SHIFT_NAMES, word, ShiftOp::RotL32)
}

/// Each value with its name, in the order of the declaration.
pub const RXSBG_NAMES: Names<RxSBGOp> = &[
    (RxSBGOp::Insert, "Insert"),
    (RxSBGOp::And, "And"),
    (RxSBGOp::Or, "Or"),
    (RxSBGOp::Xor, "Xor"),
];

impl Word for RxSBGOp {
    ghost spelling = { rxsbg_text };

    #[tactic(auto, unfolding(crate::specs::Operators::rxsbg_text))]
    fn text(self) -> &'static str {
        name_at(RXSBG_NAMES, self as usize)
    }
}

/// The value that a word names, the table's first for any other word.
#[tactic(auto, unfolding(crate::specs::Operators::rxsbg_of))]
#[inline(always)]
pub fn rxsbg(word: &[u8]) -> RxSBGOp
    ensures { result ≡ rxsbg_of word.now }
{
    find(RXSBG_NAMES, word, RxSBGOp::Insert)
}

/// Each value with its name, in the order of the declaration.
pub const UNARY_NAMES: Names<UnaryOp> = &[
    (UnaryOp::Abs32, "Abs32"),
    (UnaryOp::Abs64, "Abs64"),
    (UnaryOp::Abs64Ext32, "Abs64Ext32"),
    (UnaryOp::Neg32, "Neg32"),
    (UnaryOp::Neg64, "Neg64"),
    (UnaryOp::Neg64Ext32, "Neg64Ext32"),
    (UnaryOp::PopcntByte, "PopcntByte"),
    (UnaryOp::PopcntReg, "PopcntReg"),
    (UnaryOp::BSwap32, "BSwap32"),
    (UnaryOp::BSwap64, "BSwap64"),
    (UnaryOp::Clz64, "Clz64"),
    (UnaryOp::Ctz64, "Ctz64"),
];

impl Word for UnaryOp {
    ghost spelling = { unary_text };

    #[tactic(auto, unfolding(crate::specs::Operators::unary_text))]
    fn text(self) -> &'static str {
        name_at(UNARY_NAMES, self as usize)
    }
}

/// The value that a word names, the table's first for any other word.
#[tactic(auto, unfolding(crate::specs::Operators::unary_of))]
#[inline(always)]
pub fn unary(word: &[u8]) -> UnaryOp
    ensures { result ≡ unary_of word.now }
{
    find(UNARY_NAMES, word, UnaryOp::Abs32)
}

/// Each value with its name, in the order of the declaration.
pub const CONVENTION_NAMES: Names<CallConv> = &[
    (CallConv::Fast, "Fast"),
    (CallConv::Tail, "Tail"),
    (CallConv::SystemV, "SystemV"),
];

impl Word for CallConv {
    ghost spelling = { convention_text };

    #[tactic(auto, unfolding(crate::specs::Operators::convention_text))]
    fn text(self) -> &'static str {
        name_at(CONVENTION_NAMES, self as usize)
    }
}

/// The value that a word names, the table's first for any other word.
#[tactic(auto, unfolding(crate::specs::Operators::convention_of))]
#[inline(always)]
pub fn convention(word: &[u8]) -> CallConv
    ensures { result ≡ convention_of word.now }
{
    find(CONVENTION_NAMES, word, CallConv::Fast)
}

/// Each value with its name, in the order of the declaration.
pub const TYPE_NAMES: Names<ValueType> = &[
    (ValueType::I8, "I8"),
    (ValueType::I16, "I16"),
    (ValueType::I32, "I32"),
    (ValueType::I64, "I64"),
    (ValueType::I128, "I128"),
    (ValueType::F16, "F16"),
    (ValueType::F32, "F32"),
    (ValueType::F64, "F64"),
    (ValueType::F128, "F128"),
    (ValueType::I8X8, "I8X8"),
    (ValueType::I8X16, "I8X16"),
    (ValueType::I16X8, "I16X8"),
    (ValueType::I32X4, "I32X4"),
    (ValueType::I64X2, "I64X2"),
    (ValueType::F32X4, "F32X4"),
    (ValueType::F64X2, "F64X2"),
];

impl Word for ValueType {
    ghost spelling = { type_text };

    #[tactic(auto, unfolding(crate::specs::Operators::type_text))]
    fn text(self) -> &'static str {
        name_at(TYPE_NAMES, self as usize)
    }
}

/// The type that a word names, the table's first for any other word.
#[tactic(auto, unfolding(crate::specs::Operators::value_type_of))]
#[inline(always)]
pub fn value_type(word: &[u8]) -> ValueType
    ensures { result ≡ value_type_of word.now }
{
    find(TYPE_NAMES, word, ValueType::I8)
}
