//! The machine rows: every opcode that an instruction of the code generator uses, in rising order,
//! with its format, the masks and immediates that it allows, how it is written, the facility that
//! it needs, and what it does.
//! The comment is the mnemonic of the Principles of Operation, with those of its element sizes where
//! they are several.
use crate::facility::{Facility, FacilityRule};
use crate::kind::FormatKind;
use crate::row::{Allowed, MachineRow};
use crate::semantics::{
    ACCESS_REGISTER, AMOUNT, AT_0, AT_16, AT_32, AT_48, BYTE_IN_MEMORY, BYTE_REGISTER,
    DOUBLEWORD_IN_MEMORY, HALFWORD_IMMEDIATE, HALFWORD_IN_MEMORY, HALFWORD_REGISTER,
    INDEXED_ADDRESS, REGISTER, RELATIVE_ADDRESS, RELATIVE_DOUBLEWORD, RELATIVE_HALFWORD,
    RELATIVE_WORD, REVERSED_DOUBLEWORD_IN_MEMORY, REVERSED_HALFWORD_IN_MEMORY, REVERSED_REGISTER,
    REVERSED_WORD_IN_MEMORY, REVERSED_WORD_REGISTER, RowSemantics, SIGNED_BYTE_IN_MEMORY,
    SIGNED_BYTE_REGISTER, SIGNED_HALFWORD_IN_MEMORY, SIGNED_HALFWORD_REGISTER,
    SIGNED_RELATIVE_HALFWORD, SIGNED_RELATIVE_WORD, SIGNED_WORD_IMMEDIATE, SIGNED_WORD_IN_MEMORY,
    SIGNED_WORD_REGISTER, THREE_HALFWORD_IMMEDIATE, THREE_REGISTERS, THREE_WORD_REGISTERS,
    VectorStorage, WORD_IMMEDIATE, WORD_IN_MEMORY, WORD_REGISTER,
};
use crate::spelling::{Form, Spelling, Suffix};
use s390x_lanes::{
    BinaryOperator, Comparison, Division, ElementSize, Half, Narrowing, Parity, RowKind,
    ShiftOperator, Signedness, UnaryOperator, VectorRow,
};
use s390x_operations::{
    BitOperator, CodeRule, LogicalOperator, Operator, SelectedBitsOperator, SignedOperator, Size,
    Width,
};
use s390x_rows::opcodes;

// A constant that is used in definitions has no text in a struct, so a row's spelling stands beside its other columns. Both are
// made of the same line.
macro_rules! row {
    ($format:ident, $opcode:ident, $allowed:expr, ($stem:literal, $suffix:ident, $form:ident), $facility:expr, $semantics:expr) => {
        MachineRow {
            format: FormatKind::$format,
            opcode: opcodes::$opcode,
            allowed: $allowed,
            facility: $facility,
            semantics: $semantics,
        }
    };
}

macro_rules! spelling {
    ($format:ident, $opcode:ident, $allowed:expr, ($stem:literal, $suffix:ident, $form:ident), $facility:expr, $semantics:expr) => {
        ($stem, Suffix::$suffix, Form::$form)
    };
}

/// The machine rows, in rising order of their opcodes: what is made of each.
#[rattlefmt::skip]
macro_rules! machine_rows {
    ($each:ident) => {
        [
            $each!(Rr, BCR, Allowed::Any, ("", Return, BranchRegister), FacilityRule::Always(Facility::Base), RowSemantics::BranchToRegister), // bcr
            $each!(Rr, BASR, Allowed::Any, ("basr", Plain, General2), FacilityRule::Always(Facility::Base), RowSemantics::BranchAndSaveToRegister), // basr
            $each!(Rr, LPR, Allowed::Any, ("lpr", Plain, General2), FacilityRule::Always(Facility::Base), RowSemantics::Compute(Operator::Signed(SignedOperator::Absolute), Size::Word, WORD_REGISTER, CodeRule::Set)), // lpr
            $each!(Rr, LCR, Allowed::Any, ("lcr", Plain, General2), FacilityRule::Always(Facility::Base), RowSemantics::Compute(Operator::Signed(SignedOperator::Negate), Size::Word, WORD_REGISTER, CodeRule::Set)), // lcr
            $each!(Rr, NR, Allowed::Any, ("nr", Plain, General2), FacilityRule::Always(Facility::Base), RowSemantics::Compute(Operator::Bit(BitOperator::And), Size::Word, WORD_REGISTER, CodeRule::Set)), // nr
            $each!(Rr, CLR, Allowed::Any, ("clr", Plain, General2), FacilityRule::Always(Facility::Base), RowSemantics::Compare(Signedness::Unsigned, Size::Word, WORD_REGISTER)), // clr
            $each!(Rr, OR, Allowed::Any, ("or", Plain, General2), FacilityRule::Always(Facility::Base), RowSemantics::Compute(Operator::Bit(BitOperator::Or), Size::Word, WORD_REGISTER, CodeRule::Set)), // or
            $each!(Rr, XR, Allowed::Any, ("xr", Plain, General2), FacilityRule::Always(Facility::Base), RowSemantics::Compute(Operator::Bit(BitOperator::Xor), Size::Word, WORD_REGISTER, CodeRule::Set)), // xr
            $each!(Rr, LR, Allowed::Any, ("lr", Plain, General2), FacilityRule::Always(Facility::Base), RowSemantics::Compute(Operator::Move, Size::Word, WORD_REGISTER, CodeRule::Kept)), // lr
            $each!(Rr, CR, Allowed::Any, ("cr", Plain, General2), FacilityRule::Always(Facility::Base), RowSemantics::Compare(Signedness::Signed, Size::Word, WORD_REGISTER)), // cr
            $each!(Rr, AR, Allowed::Any, ("ar", Plain, General2), FacilityRule::Always(Facility::Base), RowSemantics::Compute(Operator::Signed(SignedOperator::Add), Size::Word, WORD_REGISTER, CodeRule::Set)), // ar
            $each!(Rr, SR, Allowed::Any, ("sr", Plain, General2), FacilityRule::Always(Facility::Base), RowSemantics::Compute(Operator::Signed(SignedOperator::Subtract), Size::Word, WORD_REGISTER, CodeRule::Set)), // sr
            $each!(Rr, ALR, Allowed::Any, ("alr", Plain, General2), FacilityRule::Always(Facility::Base), RowSemantics::Compute(Operator::Logical(LogicalOperator::Add), Size::Word, WORD_REGISTER, CodeRule::Set)), // alr
            $each!(Rr, SLR, Allowed::Any, ("slr", Plain, General2), FacilityRule::Always(Facility::Base), RowSemantics::Compute(Operator::Logical(LogicalOperator::Subtract), Size::Word, WORD_REGISTER, CodeRule::Set)), // slr
            $each!(Rr, LDR, Allowed::Any, ("ldr", Plain, Float2), FacilityRule::Always(Facility::Base), RowSemantics::MoveLeft(ElementSize::Doubleword)), // ldr
            $each!(Rr, LER, Allowed::Any, ("ler", Plain, Float2), FacilityRule::Always(Facility::Base), RowSemantics::MoveLeft(ElementSize::Word)), // ler
            $each!(Rx, STH, Allowed::Any, ("sth", Plain, GeneralIndexed), FacilityRule::Always(Facility::Base), RowSemantics::Store(HALFWORD_IN_MEMORY)), // sth
            $each!(Rx, LA, Allowed::Any, ("la", Plain, GeneralIndexed), FacilityRule::Always(Facility::Base), RowSemantics::Compute(Operator::Move, Size::Doubleword, INDEXED_ADDRESS, CodeRule::Kept)), // la
            $each!(Rx, STC, Allowed::Any, ("stc", Plain, GeneralIndexed), FacilityRule::Always(Facility::Base), RowSemantics::Store(BYTE_IN_MEMORY)), // stc
            $each!(Rx, LH, Allowed::Any, ("lh", Plain, GeneralIndexed), FacilityRule::Always(Facility::Base), RowSemantics::Compute(Operator::Move, Size::Word, SIGNED_HALFWORD_IN_MEMORY, CodeRule::Kept)), // lh
            $each!(Rx, CH, Allowed::Any, ("ch", Plain, GeneralIndexed), FacilityRule::Always(Facility::Base), RowSemantics::Compare(Signedness::Signed, Size::Word, SIGNED_HALFWORD_IN_MEMORY)), // ch
            $each!(Rx, AH, Allowed::Any, ("ah", Plain, GeneralIndexed), FacilityRule::Always(Facility::Base), RowSemantics::Compute(Operator::Signed(SignedOperator::Add), Size::Word, SIGNED_HALFWORD_IN_MEMORY, CodeRule::Set)), // ah
            $each!(Rx, SH, Allowed::Any, ("sh", Plain, GeneralIndexed), FacilityRule::Always(Facility::Base), RowSemantics::Compute(Operator::Signed(SignedOperator::Subtract), Size::Word, SIGNED_HALFWORD_IN_MEMORY, CodeRule::Set)), // sh
            $each!(Rx, MH, Allowed::Any, ("mh", Plain, GeneralIndexed), FacilityRule::Always(Facility::Base), RowSemantics::Compute(Operator::Signed(SignedOperator::Multiply), Size::Word, SIGNED_HALFWORD_IN_MEMORY, CodeRule::Kept)), // mh
            $each!(Rx, ST, Allowed::Any, ("st", Plain, GeneralIndexed), FacilityRule::Always(Facility::Base), RowSemantics::Store(WORD_IN_MEMORY)), // st
            $each!(Rx, N, Allowed::Any, ("n", Plain, GeneralIndexed), FacilityRule::Always(Facility::Base), RowSemantics::Compute(Operator::Bit(BitOperator::And), Size::Word, WORD_IN_MEMORY, CodeRule::Set)), // n
            $each!(Rx, CL, Allowed::Any, ("cl", Plain, GeneralIndexed), FacilityRule::Always(Facility::Base), RowSemantics::Compare(Signedness::Unsigned, Size::Word, WORD_IN_MEMORY)), // cl
            $each!(Rx, O, Allowed::Any, ("o", Plain, GeneralIndexed), FacilityRule::Always(Facility::Base), RowSemantics::Compute(Operator::Bit(BitOperator::Or), Size::Word, WORD_IN_MEMORY, CodeRule::Set)), // o
            $each!(Rx, X, Allowed::Any, ("x", Plain, GeneralIndexed), FacilityRule::Always(Facility::Base), RowSemantics::Compute(Operator::Bit(BitOperator::Xor), Size::Word, WORD_IN_MEMORY, CodeRule::Set)), // x
            $each!(Rx, L, Allowed::Any, ("l", Plain, GeneralIndexed), FacilityRule::Always(Facility::Base), RowSemantics::Compute(Operator::Move, Size::Word, WORD_IN_MEMORY, CodeRule::Kept)), // l
            $each!(Rx, C, Allowed::Any, ("c", Plain, GeneralIndexed), FacilityRule::Always(Facility::Base), RowSemantics::Compare(Signedness::Signed, Size::Word, WORD_IN_MEMORY)), // c
            $each!(Rx, A, Allowed::Any, ("a", Plain, GeneralIndexed), FacilityRule::Always(Facility::Base), RowSemantics::Compute(Operator::Signed(SignedOperator::Add), Size::Word, WORD_IN_MEMORY, CodeRule::Set)), // a
            $each!(Rx, S, Allowed::Any, ("s", Plain, GeneralIndexed), FacilityRule::Always(Facility::Base), RowSemantics::Compute(Operator::Signed(SignedOperator::Subtract), Size::Word, WORD_IN_MEMORY, CodeRule::Set)), // s
            $each!(Rx, AL, Allowed::Any, ("al", Plain, GeneralIndexed), FacilityRule::Always(Facility::Base), RowSemantics::Compute(Operator::Logical(LogicalOperator::Add), Size::Word, WORD_IN_MEMORY, CodeRule::Set)), // al
            $each!(Rx, SL, Allowed::Any, ("sl", Plain, GeneralIndexed), FacilityRule::Always(Facility::Base), RowSemantics::Compute(Operator::Logical(LogicalOperator::Subtract), Size::Word, WORD_IN_MEMORY, CodeRule::Set)), // sl
            $each!(Rx, STD, Allowed::Any, ("std", Plain, FloatIndexed), FacilityRule::Always(Facility::Base), RowSemantics::StoreLeft(ElementSize::Doubleword)), // std
            $each!(Rx, LD, Allowed::Any, ("ld", Plain, FloatIndexed), FacilityRule::Always(Facility::Base), RowSemantics::LoadLeft(ElementSize::Doubleword)), // ld
            $each!(Rx, STE, Allowed::Any, ("ste", Plain, FloatIndexed), FacilityRule::Always(Facility::Base), RowSemantics::StoreLeft(ElementSize::Word)), // ste
            $each!(Rx, MS, Allowed::Any, ("ms", Plain, GeneralIndexed), FacilityRule::Always(Facility::Base), RowSemantics::Compute(Operator::Signed(SignedOperator::Multiply), Size::Word, WORD_IN_MEMORY, CodeRule::Kept)), // ms
            $each!(Rx, LE, Allowed::Any, ("le", Plain, FloatIndexed), FacilityRule::Always(Facility::Base), RowSemantics::LoadLeft(ElementSize::Word)), // le
            $each!(Si, MVI, Allowed::Any, ("mvi", Plain, StorageByte), FacilityRule::Always(Facility::Base), RowSemantics::StoreByte), // mvi
            $each!(Rs, CS, Allowed::Any, ("cs", Plain, General2Storage), FacilityRule::Always(Facility::Base), RowSemantics::CompareAndSwap(Size::Word)), // cs
            $each!(RiA, IIHH, Allowed::Any, ("iihh", Plain, GeneralUnsigned), FacilityRule::Always(Facility::Base), RowSemantics::Compute(Operator::SelectedBits(SelectedBitsOperator::Insert, 0xffff000000000000), Size::Doubleword, AT_48, CodeRule::Kept)), // iihh
            $each!(RiA, IIHL, Allowed::Any, ("iihl", Plain, GeneralUnsigned), FacilityRule::Always(Facility::Base), RowSemantics::Compute(Operator::SelectedBits(SelectedBitsOperator::Insert, 0xffff00000000), Size::Doubleword, AT_32, CodeRule::Kept)), // iihl
            $each!(RiA, IILH, Allowed::Any, ("iilh", Plain, GeneralUnsigned), FacilityRule::Always(Facility::Base), RowSemantics::Compute(Operator::SelectedBits(SelectedBitsOperator::Insert, 0xffff0000), Size::Doubleword, AT_16, CodeRule::Kept)), // iilh
            $each!(RiA, IILL, Allowed::Any, ("iill", Plain, GeneralUnsigned), FacilityRule::Always(Facility::Base), RowSemantics::Compute(Operator::SelectedBits(SelectedBitsOperator::Insert, 0xffff), Size::Doubleword, AT_0, CodeRule::Kept)), // iill
            $each!(RiA, NIHH, Allowed::Any, ("nihh", Plain, GeneralUnsigned), FacilityRule::Always(Facility::Base), RowSemantics::Compute(Operator::SelectedBits(SelectedBitsOperator::And, 0xffff000000000000), Size::Doubleword, AT_48, CodeRule::Set)), // nihh
            $each!(RiA, NIHL, Allowed::Any, ("nihl", Plain, GeneralUnsigned), FacilityRule::Always(Facility::Base), RowSemantics::Compute(Operator::SelectedBits(SelectedBitsOperator::And, 0xffff00000000), Size::Doubleword, AT_32, CodeRule::Set)), // nihl
            $each!(RiA, NILH, Allowed::Any, ("nilh", Plain, GeneralUnsigned), FacilityRule::Always(Facility::Base), RowSemantics::Compute(Operator::SelectedBits(SelectedBitsOperator::And, 0xffff0000), Size::Doubleword, AT_16, CodeRule::Set)), // nilh
            $each!(RiA, NILL, Allowed::Any, ("nill", Plain, GeneralUnsigned), FacilityRule::Always(Facility::Base), RowSemantics::Compute(Operator::SelectedBits(SelectedBitsOperator::And, 0xffff), Size::Doubleword, AT_0, CodeRule::Set)), // nill
            $each!(RiA, OIHH, Allowed::Any, ("oihh", Plain, GeneralUnsigned), FacilityRule::Always(Facility::Base), RowSemantics::Compute(Operator::SelectedBits(SelectedBitsOperator::Or, 0xffff000000000000), Size::Doubleword, AT_48, CodeRule::Set)), // oihh
            $each!(RiA, OIHL, Allowed::Any, ("oihl", Plain, GeneralUnsigned), FacilityRule::Always(Facility::Base), RowSemantics::Compute(Operator::SelectedBits(SelectedBitsOperator::Or, 0xffff00000000), Size::Doubleword, AT_32, CodeRule::Set)), // oihl
            $each!(RiA, OILH, Allowed::Any, ("oilh", Plain, GeneralUnsigned), FacilityRule::Always(Facility::Base), RowSemantics::Compute(Operator::SelectedBits(SelectedBitsOperator::Or, 0xffff0000), Size::Doubleword, AT_16, CodeRule::Set)), // oilh
            $each!(RiA, OILL, Allowed::Any, ("oill", Plain, GeneralUnsigned), FacilityRule::Always(Facility::Base), RowSemantics::Compute(Operator::SelectedBits(SelectedBitsOperator::Or, 0xffff), Size::Doubleword, AT_0, CodeRule::Set)), // oill
            $each!(RiA, LLIHH, Allowed::Any, ("llihh", Plain, GeneralUnsigned), FacilityRule::Always(Facility::Base), RowSemantics::Compute(Operator::Move, Size::Doubleword, AT_48, CodeRule::Kept)), // llihh
            $each!(RiA, LLIHL, Allowed::Any, ("llihl", Plain, GeneralUnsigned), FacilityRule::Always(Facility::Base), RowSemantics::Compute(Operator::Move, Size::Doubleword, AT_32, CodeRule::Kept)), // llihl
            $each!(RiA, LLILH, Allowed::Any, ("llilh", Plain, GeneralUnsigned), FacilityRule::Always(Facility::Base), RowSemantics::Compute(Operator::Move, Size::Doubleword, AT_16, CodeRule::Kept)), // llilh
            $each!(RiA, LLILL, Allowed::Any, ("llill", Plain, GeneralUnsigned), FacilityRule::Always(Facility::Base), RowSemantics::Compute(Operator::Move, Size::Doubleword, AT_0, CodeRule::Kept)), // llill
            $each!(RiC, BRC, Allowed::Any, ("j", Jump, Target), FacilityRule::Always(Facility::Base), RowSemantics::BranchRelative), // brc
            $each!(RiB, BRAS, Allowed::Any, ("bras", Plain, GeneralTarget), FacilityRule::Always(Facility::Base), RowSemantics::BranchAndSaveRelative), // bras
            $each!(RiA, LHI, Allowed::Any, ("lhi", Plain, GeneralSigned16), FacilityRule::Always(Facility::Base), RowSemantics::Compute(Operator::Move, Size::Word, HALFWORD_IMMEDIATE, CodeRule::Kept)), // lhi
            $each!(RiA, LGHI, Allowed::Any, ("lghi", Plain, GeneralSigned16), FacilityRule::Always(Facility::Base), RowSemantics::Compute(Operator::Move, Size::Doubleword, HALFWORD_IMMEDIATE, CodeRule::Kept)), // lghi
            $each!(RiA, AHI, Allowed::Any, ("ahi", Plain, GeneralSigned16), FacilityRule::Always(Facility::Base), RowSemantics::Compute(Operator::Signed(SignedOperator::Add), Size::Word, HALFWORD_IMMEDIATE, CodeRule::Set)), // ahi
            $each!(RiA, AGHI, Allowed::Any, ("aghi", Plain, GeneralSigned16), FacilityRule::Always(Facility::Base), RowSemantics::Compute(Operator::Signed(SignedOperator::Add), Size::Doubleword, HALFWORD_IMMEDIATE, CodeRule::Set)), // aghi
            $each!(RiA, MHI, Allowed::Any, ("mhi", Plain, GeneralSigned16), FacilityRule::Always(Facility::Base), RowSemantics::Compute(Operator::Signed(SignedOperator::Multiply), Size::Word, HALFWORD_IMMEDIATE, CodeRule::Kept)), // mhi
            $each!(RiA, MGHI, Allowed::Any, ("mghi", Plain, GeneralSigned16), FacilityRule::Always(Facility::Base), RowSemantics::Compute(Operator::Signed(SignedOperator::Multiply), Size::Doubleword, HALFWORD_IMMEDIATE, CodeRule::Kept)), // mghi
            $each!(RiA, CHI, Allowed::Any, ("chi", Plain, GeneralSigned16), FacilityRule::Always(Facility::Base), RowSemantics::Compare(Signedness::Signed, Size::Word, HALFWORD_IMMEDIATE)), // chi
            $each!(RiA, CGHI, Allowed::Any, ("cghi", Plain, GeneralSigned16), FacilityRule::Always(Facility::Base), RowSemantics::Compare(Signedness::Signed, Size::Doubleword, HALFWORD_IMMEDIATE)), // cghi
            $each!(RilB, LARL, Allowed::Any, ("larl", Plain, GeneralTarget), FacilityRule::Always(Facility::Base), RowSemantics::Compute(Operator::Move, Size::Doubleword, RELATIVE_ADDRESS, CodeRule::Kept)), // larl
            $each!(RilA, LGFI, Allowed::Any, ("lgfi", Plain, GeneralSigned32), FacilityRule::Always(Facility::Base), RowSemantics::Compute(Operator::Move, Size::Doubleword, SIGNED_WORD_IMMEDIATE, CodeRule::Kept)), // lgfi
            $each!(RilC, BRCL, Allowed::Any, ("jg", Jump, Target), FacilityRule::Always(Facility::Base), RowSemantics::BranchRelative), // brcl
            $each!(RilB, BRASL, Allowed::Any, ("brasl", Plain, GeneralTarget), FacilityRule::Always(Facility::Base), RowSemantics::BranchAndSaveRelative), // brasl
            $each!(RilA, XIHF, Allowed::Any, ("xihf", Plain, GeneralUnsigned), FacilityRule::Always(Facility::Base), RowSemantics::Compute(Operator::SelectedBits(SelectedBitsOperator::Xor, 0xffffffff00000000), Size::Doubleword, AT_32, CodeRule::Set)), // xihf
            $each!(RilA, XILF, Allowed::Any, ("xilf", Plain, GeneralUnsigned), FacilityRule::Always(Facility::Base), RowSemantics::Compute(Operator::SelectedBits(SelectedBitsOperator::Xor, 0xffffffff), Size::Doubleword, AT_0, CodeRule::Set)), // xilf
            $each!(RilA, IIHF, Allowed::Any, ("iihf", Plain, GeneralUnsigned), FacilityRule::Always(Facility::Base), RowSemantics::Compute(Operator::SelectedBits(SelectedBitsOperator::Insert, 0xffffffff00000000), Size::Doubleword, AT_32, CodeRule::Kept)), // iihf
            $each!(RilA, IILF, Allowed::Any, ("iilf", Plain, GeneralUnsigned), FacilityRule::Always(Facility::Base), RowSemantics::Compute(Operator::Move, Size::Word, WORD_IMMEDIATE, CodeRule::Kept)), // iilf
            $each!(RilA, NIHF, Allowed::Any, ("nihf", Plain, GeneralUnsigned), FacilityRule::Always(Facility::Base), RowSemantics::Compute(Operator::SelectedBits(SelectedBitsOperator::And, 0xffffffff00000000), Size::Doubleword, AT_32, CodeRule::Set)), // nihf
            $each!(RilA, NILF, Allowed::Any, ("nilf", Plain, GeneralUnsigned), FacilityRule::Always(Facility::Base), RowSemantics::Compute(Operator::SelectedBits(SelectedBitsOperator::And, 0xffffffff), Size::Doubleword, AT_0, CodeRule::Set)), // nilf
            $each!(RilA, OIHF, Allowed::Any, ("oihf", Plain, GeneralUnsigned), FacilityRule::Always(Facility::Base), RowSemantics::Compute(Operator::SelectedBits(SelectedBitsOperator::Or, 0xffffffff00000000), Size::Doubleword, AT_32, CodeRule::Set)), // oihf
            $each!(RilA, OILF, Allowed::Any, ("oilf", Plain, GeneralUnsigned), FacilityRule::Always(Facility::Base), RowSemantics::Compute(Operator::SelectedBits(SelectedBitsOperator::Or, 0xffffffff), Size::Doubleword, AT_0, CodeRule::Set)), // oilf
            $each!(RilA, LLIHF, Allowed::Any, ("llihf", Plain, GeneralUnsigned), FacilityRule::Always(Facility::Base), RowSemantics::Compute(Operator::Move, Size::Doubleword, AT_32, CodeRule::Kept)), // llihf
            $each!(RilA, LLILF, Allowed::Any, ("llilf", Plain, GeneralUnsigned), FacilityRule::Always(Facility::Base), RowSemantics::Compute(Operator::Move, Size::Doubleword, AT_0, CodeRule::Kept)), // llilf
            $each!(RilA, MSGFI, Allowed::Any, ("msgfi", Plain, GeneralSigned32), FacilityRule::Always(Facility::Base), RowSemantics::Compute(Operator::Signed(SignedOperator::Multiply), Size::Doubleword, SIGNED_WORD_IMMEDIATE, CodeRule::Kept)), // msgfi
            $each!(RilA, MSFI, Allowed::Any, ("msfi", Plain, GeneralSigned32), FacilityRule::Always(Facility::Base), RowSemantics::Compute(Operator::Signed(SignedOperator::Multiply), Size::Word, SIGNED_WORD_IMMEDIATE, CodeRule::Kept)), // msfi
            $each!(RilA, SLGFI, Allowed::Any, ("slgfi", Plain, GeneralUnsigned), FacilityRule::Always(Facility::Base), RowSemantics::Compute(Operator::Logical(LogicalOperator::Subtract), Size::Doubleword, WORD_IMMEDIATE, CodeRule::Set)), // slgfi
            $each!(RilA, SLFI, Allowed::Any, ("slfi", Plain, GeneralUnsigned), FacilityRule::Always(Facility::Base), RowSemantics::Compute(Operator::Logical(LogicalOperator::Subtract), Size::Word, WORD_IMMEDIATE, CodeRule::Set)), // slfi
            $each!(RilA, AGFI, Allowed::Any, ("agfi", Plain, GeneralSigned32), FacilityRule::Always(Facility::Base), RowSemantics::Compute(Operator::Signed(SignedOperator::Add), Size::Doubleword, SIGNED_WORD_IMMEDIATE, CodeRule::Set)), // agfi
            $each!(RilA, AFI, Allowed::Any, ("afi", Plain, GeneralSigned32), FacilityRule::Always(Facility::Base), RowSemantics::Compute(Operator::Signed(SignedOperator::Add), Size::Word, SIGNED_WORD_IMMEDIATE, CodeRule::Set)), // afi
            $each!(RilA, ALGFI, Allowed::Any, ("algfi", Plain, GeneralUnsigned), FacilityRule::Always(Facility::Base), RowSemantics::Compute(Operator::Logical(LogicalOperator::Add), Size::Doubleword, WORD_IMMEDIATE, CodeRule::Set)), // algfi
            $each!(RilA, ALFI, Allowed::Any, ("alfi", Plain, GeneralUnsigned), FacilityRule::Always(Facility::Base), RowSemantics::Compute(Operator::Logical(LogicalOperator::Add), Size::Word, WORD_IMMEDIATE, CodeRule::Set)), // alfi
            $each!(RilA, CGFI, Allowed::Any, ("cgfi", Plain, GeneralSigned32), FacilityRule::Always(Facility::Base), RowSemantics::Compare(Signedness::Signed, Size::Doubleword, SIGNED_WORD_IMMEDIATE)), // cgfi
            $each!(RilA, CFI, Allowed::Any, ("cfi", Plain, GeneralSigned32), FacilityRule::Always(Facility::Base), RowSemantics::Compare(Signedness::Signed, Size::Word, SIGNED_WORD_IMMEDIATE)), // cfi
            $each!(RilA, CLGFI, Allowed::Any, ("clgfi", Plain, GeneralUnsigned), FacilityRule::Always(Facility::Base), RowSemantics::Compare(Signedness::Unsigned, Size::Doubleword, WORD_IMMEDIATE)), // clgfi
            $each!(RilA, CLFI, Allowed::Any, ("clfi", Plain, GeneralUnsigned), FacilityRule::Always(Facility::Base), RowSemantics::Compare(Signedness::Unsigned, Size::Word, WORD_IMMEDIATE)), // clfi
            $each!(RilB, LLHRL, Allowed::Any, ("llhrl", Plain, GeneralTarget), FacilityRule::Always(Facility::Base), RowSemantics::Compute(Operator::Move, Size::Word, RELATIVE_HALFWORD, CodeRule::Kept)), // llhrl
            $each!(RilB, LGHRL, Allowed::Any, ("lghrl", Plain, GeneralTarget), FacilityRule::Always(Facility::Base), RowSemantics::Compute(Operator::Move, Size::Doubleword, SIGNED_RELATIVE_HALFWORD, CodeRule::Kept)), // lghrl
            $each!(RilB, LHRL, Allowed::Any, ("lhrl", Plain, GeneralTarget), FacilityRule::Always(Facility::Base), RowSemantics::Compute(Operator::Move, Size::Word, SIGNED_RELATIVE_HALFWORD, CodeRule::Kept)), // lhrl
            $each!(RilB, LLGHRL, Allowed::Any, ("llghrl", Plain, GeneralTarget), FacilityRule::Always(Facility::Base), RowSemantics::Compute(Operator::Move, Size::Doubleword, RELATIVE_HALFWORD, CodeRule::Kept)), // llghrl
            $each!(RilB, STHRL, Allowed::Any, ("sthrl", Plain, GeneralTarget), FacilityRule::Always(Facility::Base), RowSemantics::Store(RELATIVE_HALFWORD)), // sthrl
            $each!(RilB, LGRL, Allowed::Any, ("lgrl", Plain, GeneralTarget), FacilityRule::Always(Facility::Base), RowSemantics::Compute(Operator::Move, Size::Doubleword, RELATIVE_DOUBLEWORD, CodeRule::Kept)), // lgrl
            $each!(RilB, STGRL, Allowed::Any, ("stgrl", Plain, GeneralTarget), FacilityRule::Always(Facility::Base), RowSemantics::Store(RELATIVE_DOUBLEWORD)), // stgrl
            $each!(RilB, LGFRL, Allowed::Any, ("lgfrl", Plain, GeneralTarget), FacilityRule::Always(Facility::Base), RowSemantics::Compute(Operator::Move, Size::Doubleword, SIGNED_RELATIVE_WORD, CodeRule::Kept)), // lgfrl
            $each!(RilB, LRL, Allowed::Any, ("lrl", Plain, GeneralTarget), FacilityRule::Always(Facility::Base), RowSemantics::Compute(Operator::Move, Size::Word, RELATIVE_WORD, CodeRule::Kept)), // lrl
            $each!(RilB, LLGFRL, Allowed::Any, ("llgfrl", Plain, GeneralTarget), FacilityRule::Always(Facility::Base), RowSemantics::Compute(Operator::Move, Size::Doubleword, RELATIVE_WORD, CodeRule::Kept)), // llgfrl
            $each!(RilB, STRL, Allowed::Any, ("strl", Plain, GeneralTarget), FacilityRule::Always(Facility::Base), RowSemantics::Store(RELATIVE_WORD)), // strl
            $each!(RilB, CGHRL, Allowed::Any, ("cghrl", Plain, GeneralTarget), FacilityRule::Always(Facility::Base), RowSemantics::Compare(Signedness::Signed, Size::Doubleword, SIGNED_RELATIVE_HALFWORD)), // cghrl
            $each!(RilB, CHRL, Allowed::Any, ("chrl", Plain, GeneralTarget), FacilityRule::Always(Facility::Base), RowSemantics::Compare(Signedness::Signed, Size::Word, SIGNED_RELATIVE_HALFWORD)), // chrl
            $each!(RilB, CLGHRL, Allowed::Any, ("clghrl", Plain, GeneralTarget), FacilityRule::Always(Facility::Base), RowSemantics::Compare(Signedness::Unsigned, Size::Doubleword, RELATIVE_HALFWORD)), // clghrl
            $each!(RilB, CLHRL, Allowed::Any, ("clhrl", Plain, GeneralTarget), FacilityRule::Always(Facility::Base), RowSemantics::Compare(Signedness::Unsigned, Size::Word, RELATIVE_HALFWORD)), // clhrl
            $each!(RilB, CGRL, Allowed::Any, ("cgrl", Plain, GeneralTarget), FacilityRule::Always(Facility::Base), RowSemantics::Compare(Signedness::Signed, Size::Doubleword, RELATIVE_DOUBLEWORD)), // cgrl
            $each!(RilB, CLGRL, Allowed::Any, ("clgrl", Plain, GeneralTarget), FacilityRule::Always(Facility::Base), RowSemantics::Compare(Signedness::Unsigned, Size::Doubleword, RELATIVE_DOUBLEWORD)), // clgrl
            $each!(RilB, CGFRL, Allowed::Any, ("cgfrl", Plain, GeneralTarget), FacilityRule::Always(Facility::Base), RowSemantics::Compare(Signedness::Signed, Size::Doubleword, SIGNED_RELATIVE_WORD)), // cgfrl
            $each!(RilB, CRL, Allowed::Any, ("crl", Plain, GeneralTarget), FacilityRule::Always(Facility::Base), RowSemantics::Compare(Signedness::Signed, Size::Word, RELATIVE_WORD)), // crl
            $each!(RilB, CLGFRL, Allowed::Any, ("clgfrl", Plain, GeneralTarget), FacilityRule::Always(Facility::Base), RowSemantics::Compare(Signedness::Unsigned, Size::Doubleword, RELATIVE_WORD)), // clgfrl
            $each!(RilB, CLRL, Allowed::Any, ("clrl", Plain, GeneralTarget), FacilityRule::Always(Facility::Base), RowSemantics::Compare(Signedness::Unsigned, Size::Word, RELATIVE_WORD)), // clrl
            $each!(Rre, EAR, Allowed::Any, ("ear", Plain, GeneralAccess), FacilityRule::Always(Facility::Base), RowSemantics::Compute(Operator::Move, Size::Word, ACCESS_REGISTER, CodeRule::Kept)), // ear
            $each!(Rre, MSR, Allowed::Any, ("msr", Plain, General2), FacilityRule::Always(Facility::Base), RowSemantics::Compute(Operator::Signed(SignedOperator::Multiply), Size::Word, WORD_REGISTER, CodeRule::Kept)), // msr
            $each!(Rre, LDGR, Allowed::Any, ("ldgr", Plain, FloatGeneral), FacilityRule::Always(Facility::Base), RowSemantics::RegisterToLeft), // ldgr
            $each!(Rre, LGDR, Allowed::Any, ("lgdr", Plain, GeneralFloat), FacilityRule::Always(Facility::Base), RowSemantics::LeftToRegister), // lgdr
            $each!(Rre, LPGR, Allowed::Any, ("lpgr", Plain, General2), FacilityRule::Always(Facility::Base), RowSemantics::Compute(Operator::Signed(SignedOperator::Absolute), Size::Doubleword, REGISTER, CodeRule::Set)), // lpgr
            $each!(Rre, LCGR, Allowed::Any, ("lcgr", Plain, General2), FacilityRule::Always(Facility::Base), RowSemantics::Compute(Operator::Signed(SignedOperator::Negate), Size::Doubleword, REGISTER, CodeRule::Set)), // lcgr
            $each!(Rre, LGR, Allowed::Any, ("lgr", Plain, General2), FacilityRule::Always(Facility::Base), RowSemantics::Compute(Operator::Move, Size::Doubleword, REGISTER, CodeRule::Kept)), // lgr
            $each!(Rre, LGBR, Allowed::Any, ("lgbr", Plain, General2), FacilityRule::Always(Facility::Base), RowSemantics::Compute(Operator::Move, Size::Doubleword, SIGNED_BYTE_REGISTER, CodeRule::Kept)), // lgbr
            $each!(Rre, LGHR, Allowed::Any, ("lghr", Plain, General2), FacilityRule::Always(Facility::Base), RowSemantics::Compute(Operator::Move, Size::Doubleword, SIGNED_HALFWORD_REGISTER, CodeRule::Kept)), // lghr
            $each!(Rre, AGR, Allowed::Any, ("agr", Plain, General2), FacilityRule::Always(Facility::Base), RowSemantics::Compute(Operator::Signed(SignedOperator::Add), Size::Doubleword, REGISTER, CodeRule::Set)), // agr
            $each!(Rre, SGR, Allowed::Any, ("sgr", Plain, General2), FacilityRule::Always(Facility::Base), RowSemantics::Compute(Operator::Signed(SignedOperator::Subtract), Size::Doubleword, REGISTER, CodeRule::Set)), // sgr
            $each!(Rre, ALGR, Allowed::Any, ("algr", Plain, General2), FacilityRule::Always(Facility::Base), RowSemantics::Compute(Operator::Logical(LogicalOperator::Add), Size::Doubleword, REGISTER, CodeRule::Set)), // algr
            $each!(Rre, SLGR, Allowed::Any, ("slgr", Plain, General2), FacilityRule::Always(Facility::Base), RowSemantics::Compute(Operator::Logical(LogicalOperator::Subtract), Size::Doubleword, REGISTER, CodeRule::Set)), // slgr
            $each!(Rre, MSGR, Allowed::Any, ("msgr", Plain, General2), FacilityRule::Always(Facility::Base), RowSemantics::Compute(Operator::Signed(SignedOperator::Multiply), Size::Doubleword, REGISTER, CodeRule::Kept)), // msgr
            $each!(Rre, DSGR, Allowed::Any, ("dsgr", Plain, General2), FacilityRule::Always(Facility::Base), RowSemantics::DivideSigned(Width::Bits64)), // dsgr
            $each!(Rre, LRVGR, Allowed::Any, ("lrvgr", Plain, General2), FacilityRule::Always(Facility::Base), RowSemantics::Compute(Operator::Move, Size::Doubleword, REVERSED_REGISTER, CodeRule::Kept)), // lrvgr
            $each!(Rre, LPGFR, Allowed::Any, ("lpgfr", Plain, General2), FacilityRule::Always(Facility::Base), RowSemantics::Compute(Operator::Signed(SignedOperator::Absolute), Size::Doubleword, SIGNED_WORD_REGISTER, CodeRule::Set)), // lpgfr
            $each!(Rre, LCGFR, Allowed::Any, ("lcgfr", Plain, General2), FacilityRule::Always(Facility::Base), RowSemantics::Compute(Operator::Signed(SignedOperator::Negate), Size::Doubleword, SIGNED_WORD_REGISTER, CodeRule::Set)), // lcgfr
            $each!(Rre, LGFR, Allowed::Any, ("lgfr", Plain, General2), FacilityRule::Always(Facility::Base), RowSemantics::Compute(Operator::Move, Size::Doubleword, SIGNED_WORD_REGISTER, CodeRule::Kept)), // lgfr
            $each!(Rre, LLGFR, Allowed::Any, ("llgfr", Plain, General2), FacilityRule::Always(Facility::Base), RowSemantics::Compute(Operator::Move, Size::Doubleword, WORD_REGISTER, CodeRule::Kept)), // llgfr
            $each!(Rre, AGFR, Allowed::Any, ("agfr", Plain, General2), FacilityRule::Always(Facility::Base), RowSemantics::Compute(Operator::Signed(SignedOperator::Add), Size::Doubleword, SIGNED_WORD_REGISTER, CodeRule::Set)), // agfr
            $each!(Rre, SGFR, Allowed::Any, ("sgfr", Plain, General2), FacilityRule::Always(Facility::Base), RowSemantics::Compute(Operator::Signed(SignedOperator::Subtract), Size::Doubleword, SIGNED_WORD_REGISTER, CodeRule::Set)), // sgfr
            $each!(Rre, ALGFR, Allowed::Any, ("algfr", Plain, General2), FacilityRule::Always(Facility::Base), RowSemantics::Compute(Operator::Logical(LogicalOperator::Add), Size::Doubleword, WORD_REGISTER, CodeRule::Set)), // algfr
            $each!(Rre, SLGFR, Allowed::Any, ("slgfr", Plain, General2), FacilityRule::Always(Facility::Base), RowSemantics::Compute(Operator::Logical(LogicalOperator::Subtract), Size::Doubleword, WORD_REGISTER, CodeRule::Set)), // slgfr
            $each!(Rre, MSGFR, Allowed::Any, ("msgfr", Plain, General2), FacilityRule::Always(Facility::Base), RowSemantics::Compute(Operator::Signed(SignedOperator::Multiply), Size::Doubleword, SIGNED_WORD_REGISTER, CodeRule::Kept)), // msgfr
            $each!(Rre, DSGFR, Allowed::Any, ("dsgfr", Plain, General2), FacilityRule::Always(Facility::Base), RowSemantics::DivideSigned(Width::Bits32)), // dsgfr
            $each!(Rre, LRVR, Allowed::Any, ("lrvr", Plain, General2), FacilityRule::Always(Facility::Base), RowSemantics::Compute(Operator::Move, Size::Word, REVERSED_WORD_REGISTER, CodeRule::Kept)), // lrvr
            $each!(Rre, CGR, Allowed::Any, ("cgr", Plain, General2), FacilityRule::Always(Facility::Base), RowSemantics::Compare(Signedness::Signed, Size::Doubleword, REGISTER)), // cgr
            $each!(Rre, CLGR, Allowed::Any, ("clgr", Plain, General2), FacilityRule::Always(Facility::Base), RowSemantics::Compare(Signedness::Unsigned, Size::Doubleword, REGISTER)), // clgr
            $each!(Rre, LBR, Allowed::Any, ("lbr", Plain, General2), FacilityRule::Always(Facility::Base), RowSemantics::Compute(Operator::Move, Size::Word, SIGNED_BYTE_REGISTER, CodeRule::Kept)), // lbr
            $each!(Rre, LHR, Allowed::Any, ("lhr", Plain, General2), FacilityRule::Always(Facility::Base), RowSemantics::Compute(Operator::Move, Size::Word, SIGNED_HALFWORD_REGISTER, CodeRule::Kept)), // lhr
            $each!(Rre, CGFR, Allowed::Any, ("cgfr", Plain, General2), FacilityRule::Always(Facility::Base), RowSemantics::Compare(Signedness::Signed, Size::Doubleword, SIGNED_WORD_REGISTER)), // cgfr
            $each!(Rre, CLGFR, Allowed::Any, ("clgfr", Plain, General2), FacilityRule::Always(Facility::Base), RowSemantics::Compare(Signedness::Unsigned, Size::Doubleword, WORD_REGISTER)), // clgfr
            $each!(RrfCde, CGRT, Allowed::FirstMask { low: 0, high: 15 }, ("cgrt", Trap, General2Mask), FacilityRule::Always(Facility::Base), RowSemantics::CompareAndTrap(Signedness::Signed, Size::Doubleword)), // cgrt
            $each!(RrfCde, CLGRT, Allowed::FirstMask { low: 0, high: 15 }, ("clgrt", Trap, General2Mask), FacilityRule::Always(Facility::Base), RowSemantics::CompareAndTrap(Signedness::Unsigned, Size::Doubleword)), // clgrt
            $each!(RrfAb, NNGRK, Allowed::FirstMask { low: 0, high: 0 }, ("nngrk", Plain, General3), FacilityRule::Always(Facility::Mie3), RowSemantics::Compute(Operator::Bit(BitOperator::NotAnd), Size::Doubleword, THREE_REGISTERS, CodeRule::Set)), // nngrk
            $each!(RrfAb, OCGRK, Allowed::FirstMask { low: 0, high: 0 }, ("ocgrk", Plain, General3), FacilityRule::Always(Facility::Mie3), RowSemantics::Compute(Operator::Bit(BitOperator::OrNot), Size::Doubleword, THREE_REGISTERS, CodeRule::Set)), // ocgrk
            $each!(RrfAb, NOGRK, Allowed::FirstMask { low: 0, high: 0 }, ("nogrk", Plain, General3), FacilityRule::Always(Facility::Mie3), RowSemantics::Compute(Operator::Bit(BitOperator::NotOr), Size::Doubleword, THREE_REGISTERS, CodeRule::Set)), // nogrk
            $each!(RrfAb, NXGRK, Allowed::FirstMask { low: 0, high: 0 }, ("nxgrk", Plain, General3), FacilityRule::Always(Facility::Mie3), RowSemantics::Compute(Operator::Bit(BitOperator::NotXor), Size::Doubleword, THREE_REGISTERS, CodeRule::Set)), // nxgrk
            $each!(Rre, CLZG, Allowed::Any, ("clzg", Plain, General2), FacilityRule::Always(Facility::Mie4), RowSemantics::Compute(Operator::LeadingZeros, Size::Doubleword, REGISTER, CodeRule::Unspecified)), // clzg
            $each!(Rre, CTZG, Allowed::Any, ("ctzg", Plain, General2), FacilityRule::Always(Facility::Mie4), RowSemantics::Compute(Operator::TrailingZeros, Size::Doubleword, REGISTER, CodeRule::Unspecified)), // ctzg
            $each!(RrfCde, CRT, Allowed::FirstMask { low: 0, high: 15 }, ("crt", Trap, General2Mask), FacilityRule::Always(Facility::Base), RowSemantics::CompareAndTrap(Signedness::Signed, Size::Word)), // crt
            $each!(RrfCde, CLRT, Allowed::FirstMask { low: 0, high: 15 }, ("clrt", Trap, General2Mask), FacilityRule::Always(Facility::Base), RowSemantics::CompareAndTrap(Signedness::Unsigned, Size::Word)), // clrt
            $each!(RrfAb, NNRK, Allowed::FirstMask { low: 0, high: 0 }, ("nnrk", Plain, General3), FacilityRule::Always(Facility::Mie3), RowSemantics::Compute(Operator::Bit(BitOperator::NotAnd), Size::Word, THREE_WORD_REGISTERS, CodeRule::Set)), // nnrk
            $each!(RrfAb, OCRK, Allowed::FirstMask { low: 0, high: 0 }, ("ocrk", Plain, General3), FacilityRule::Always(Facility::Mie3), RowSemantics::Compute(Operator::Bit(BitOperator::OrNot), Size::Word, THREE_WORD_REGISTERS, CodeRule::Set)), // ocrk
            $each!(RrfAb, NORK, Allowed::FirstMask { low: 0, high: 0 }, ("nork", Plain, General3), FacilityRule::Always(Facility::Mie3), RowSemantics::Compute(Operator::Bit(BitOperator::NotOr), Size::Word, THREE_WORD_REGISTERS, CodeRule::Set)), // nork
            $each!(RrfAb, NXRK, Allowed::FirstMask { low: 0, high: 0 }, ("nxrk", Plain, General3), FacilityRule::Always(Facility::Mie3), RowSemantics::Compute(Operator::Bit(BitOperator::NotXor), Size::Word, THREE_WORD_REGISTERS, CodeRule::Set)), // nxrk
            $each!(Rre, NGR, Allowed::Any, ("ngr", Plain, General2), FacilityRule::Always(Facility::Base), RowSemantics::Compute(Operator::Bit(BitOperator::And), Size::Doubleword, REGISTER, CodeRule::Set)), // ngr
            $each!(Rre, OGR, Allowed::Any, ("ogr", Plain, General2), FacilityRule::Always(Facility::Base), RowSemantics::Compute(Operator::Bit(BitOperator::Or), Size::Doubleword, REGISTER, CodeRule::Set)), // ogr
            $each!(Rre, XGR, Allowed::Any, ("xgr", Plain, General2), FacilityRule::Always(Facility::Base), RowSemantics::Compute(Operator::Bit(BitOperator::Xor), Size::Doubleword, REGISTER, CodeRule::Set)), // xgr
            $each!(Rre, FLOGR, Allowed::Any, ("flogr", Plain, General2), FacilityRule::Always(Facility::Base), RowSemantics::FindLeftmostOne), // flogr
            $each!(Rre, LLGCR, Allowed::Any, ("llgcr", Plain, General2), FacilityRule::Always(Facility::Base), RowSemantics::Compute(Operator::Move, Size::Doubleword, BYTE_REGISTER, CodeRule::Kept)), // llgcr
            $each!(Rre, LLGHR, Allowed::Any, ("llghr", Plain, General2), FacilityRule::Always(Facility::Base), RowSemantics::Compute(Operator::Move, Size::Doubleword, HALFWORD_REGISTER, CodeRule::Kept)), // llghr
            $each!(Rre, MLGR, Allowed::Any, ("mlgr", Plain, General2), FacilityRule::Always(Facility::Base), RowSemantics::MultiplyLogical), // mlgr
            $each!(Rre, DLGR, Allowed::Any, ("dlgr", Plain, General2), FacilityRule::Always(Facility::Base), RowSemantics::DivideLogical(Size::Doubleword)), // dlgr
            $each!(Rre, LLCR, Allowed::Any, ("llcr", Plain, General2), FacilityRule::Always(Facility::Base), RowSemantics::Compute(Operator::Move, Size::Word, BYTE_REGISTER, CodeRule::Kept)), // llcr
            $each!(Rre, LLHR, Allowed::Any, ("llhr", Plain, General2), FacilityRule::Always(Facility::Base), RowSemantics::Compute(Operator::Move, Size::Word, HALFWORD_REGISTER, CodeRule::Kept)), // llhr
            $each!(Rre, DLR, Allowed::Any, ("dlr", Plain, General2), FacilityRule::Always(Facility::Base), RowSemantics::DivideLogical(Size::Word)), // dlr
            $each!(RrfCde, POPCNT, Allowed::CountMode, ("popcnt", Plain, General2Count), FacilityRule::WholeCount, RowSemantics::CountOnes), // popcnt
            $each!(RrfCde, LOCGR, Allowed::FirstMask { low: 0, high: 15 }, ("locgr", Condition, General2Mask), FacilityRule::Always(Facility::Base), RowSemantics::MoveWhere(Size::Doubleword, REGISTER)), // locgr
            $each!(RrfAb, NGRK, Allowed::FirstMask { low: 0, high: 0 }, ("ngrk", Plain, General3), FacilityRule::Always(Facility::Base), RowSemantics::Compute(Operator::Bit(BitOperator::And), Size::Doubleword, THREE_REGISTERS, CodeRule::Set)), // ngrk
            $each!(RrfAb, NCGRK, Allowed::FirstMask { low: 0, high: 0 }, ("ncgrk", Plain, General3), FacilityRule::Always(Facility::Mie3), RowSemantics::Compute(Operator::Bit(BitOperator::AndNot), Size::Doubleword, THREE_REGISTERS, CodeRule::Set)), // ncgrk
            $each!(RrfAb, OGRK, Allowed::FirstMask { low: 0, high: 0 }, ("ogrk", Plain, General3), FacilityRule::Always(Facility::Base), RowSemantics::Compute(Operator::Bit(BitOperator::Or), Size::Doubleword, THREE_REGISTERS, CodeRule::Set)), // ogrk
            $each!(RrfAb, XGRK, Allowed::FirstMask { low: 0, high: 0 }, ("xgrk", Plain, General3), FacilityRule::Always(Facility::Base), RowSemantics::Compute(Operator::Bit(BitOperator::Xor), Size::Doubleword, THREE_REGISTERS, CodeRule::Set)), // xgrk
            $each!(RrfAb, AGRK, Allowed::FirstMask { low: 0, high: 0 }, ("agrk", Plain, General3), FacilityRule::Always(Facility::Base), RowSemantics::Compute(Operator::Signed(SignedOperator::Add), Size::Doubleword, THREE_REGISTERS, CodeRule::Set)), // agrk
            $each!(RrfAb, SGRK, Allowed::FirstMask { low: 0, high: 0 }, ("sgrk", Plain, General3), FacilityRule::Always(Facility::Base), RowSemantics::Compute(Operator::Signed(SignedOperator::Subtract), Size::Doubleword, THREE_REGISTERS, CodeRule::Set)), // sgrk
            $each!(RrfAb, ALGRK, Allowed::FirstMask { low: 0, high: 0 }, ("algrk", Plain, General3), FacilityRule::Always(Facility::Base), RowSemantics::Compute(Operator::Logical(LogicalOperator::Add), Size::Doubleword, THREE_REGISTERS, CodeRule::Set)), // algrk
            $each!(RrfAb, SLGRK, Allowed::FirstMask { low: 0, high: 0 }, ("slgrk", Plain, General3), FacilityRule::Always(Facility::Base), RowSemantics::Compute(Operator::Logical(LogicalOperator::Subtract), Size::Doubleword, THREE_REGISTERS, CodeRule::Set)), // slgrk
            $each!(RrfAb, MGRK, Allowed::FirstMask { low: 0, high: 0 }, ("mgrk", Plain, General3), FacilityRule::Always(Facility::Base), RowSemantics::MultiplySigned), // mgrk
            $each!(RrfAb, MSGRKC, Allowed::FirstMask { low: 0, high: 0 }, ("msgrkc", Plain, General3), FacilityRule::Always(Facility::Base), RowSemantics::Compute(Operator::Signed(SignedOperator::Multiply), Size::Doubleword, THREE_REGISTERS, CodeRule::Set)), // msgrkc
            $each!(RrfCde, LOCR, Allowed::FirstMask { low: 0, high: 15 }, ("locr", Condition, General2Mask), FacilityRule::Always(Facility::Base), RowSemantics::MoveWhere(Size::Word, WORD_REGISTER)), // locr
            $each!(RrfAb, NRK, Allowed::FirstMask { low: 0, high: 0 }, ("nrk", Plain, General3), FacilityRule::Always(Facility::Base), RowSemantics::Compute(Operator::Bit(BitOperator::And), Size::Word, THREE_WORD_REGISTERS, CodeRule::Set)), // nrk
            $each!(RrfAb, NCRK, Allowed::FirstMask { low: 0, high: 0 }, ("ncrk", Plain, General3), FacilityRule::Always(Facility::Mie3), RowSemantics::Compute(Operator::Bit(BitOperator::AndNot), Size::Word, THREE_WORD_REGISTERS, CodeRule::Set)), // ncrk
            $each!(RrfAb, ORK, Allowed::FirstMask { low: 0, high: 0 }, ("ork", Plain, General3), FacilityRule::Always(Facility::Base), RowSemantics::Compute(Operator::Bit(BitOperator::Or), Size::Word, THREE_WORD_REGISTERS, CodeRule::Set)), // ork
            $each!(RrfAb, XRK, Allowed::FirstMask { low: 0, high: 0 }, ("xrk", Plain, General3), FacilityRule::Always(Facility::Base), RowSemantics::Compute(Operator::Bit(BitOperator::Xor), Size::Word, THREE_WORD_REGISTERS, CodeRule::Set)), // xrk
            $each!(RrfAb, ARK, Allowed::FirstMask { low: 0, high: 0 }, ("ark", Plain, General3), FacilityRule::Always(Facility::Base), RowSemantics::Compute(Operator::Signed(SignedOperator::Add), Size::Word, THREE_WORD_REGISTERS, CodeRule::Set)), // ark
            $each!(RrfAb, SRK, Allowed::FirstMask { low: 0, high: 0 }, ("srk", Plain, General3), FacilityRule::Always(Facility::Base), RowSemantics::Compute(Operator::Signed(SignedOperator::Subtract), Size::Word, THREE_WORD_REGISTERS, CodeRule::Set)), // srk
            $each!(RrfAb, ALRK, Allowed::FirstMask { low: 0, high: 0 }, ("alrk", Plain, General3), FacilityRule::Always(Facility::Base), RowSemantics::Compute(Operator::Logical(LogicalOperator::Add), Size::Word, THREE_WORD_REGISTERS, CodeRule::Set)), // alrk
            $each!(RrfAb, SLRK, Allowed::FirstMask { low: 0, high: 0 }, ("slrk", Plain, General3), FacilityRule::Always(Facility::Base), RowSemantics::Compute(Operator::Logical(LogicalOperator::Subtract), Size::Word, THREE_WORD_REGISTERS, CodeRule::Set)), // slrk
            $each!(RrfAb, MSRKC, Allowed::FirstMask { low: 0, high: 0 }, ("msrkc", Plain, General3), FacilityRule::Always(Facility::Base), RowSemantics::Compute(Operator::Signed(SignedOperator::Multiply), Size::Word, THREE_WORD_REGISTERS, CodeRule::Set)), // msrkc
            $each!(Rxy, LG, Allowed::Any, ("lg", Plain, GeneralIndexed), FacilityRule::Always(Facility::Base), RowSemantics::Compute(Operator::Move, Size::Doubleword, DOUBLEWORD_IN_MEMORY, CodeRule::Kept)), // lg
            $each!(Rxy, AG, Allowed::Any, ("ag", Plain, GeneralIndexed), FacilityRule::Always(Facility::Base), RowSemantics::Compute(Operator::Signed(SignedOperator::Add), Size::Doubleword, DOUBLEWORD_IN_MEMORY, CodeRule::Set)), // ag
            $each!(Rxy, SG, Allowed::Any, ("sg", Plain, GeneralIndexed), FacilityRule::Always(Facility::Base), RowSemantics::Compute(Operator::Signed(SignedOperator::Subtract), Size::Doubleword, DOUBLEWORD_IN_MEMORY, CodeRule::Set)), // sg
            $each!(Rxy, ALG, Allowed::Any, ("alg", Plain, GeneralIndexed), FacilityRule::Always(Facility::Base), RowSemantics::Compute(Operator::Logical(LogicalOperator::Add), Size::Doubleword, DOUBLEWORD_IN_MEMORY, CodeRule::Set)), // alg
            $each!(Rxy, SLG, Allowed::Any, ("slg", Plain, GeneralIndexed), FacilityRule::Always(Facility::Base), RowSemantics::Compute(Operator::Logical(LogicalOperator::Subtract), Size::Doubleword, DOUBLEWORD_IN_MEMORY, CodeRule::Set)), // slg
            $each!(Rxy, MSG, Allowed::Any, ("msg", Plain, GeneralIndexed), FacilityRule::Always(Facility::Base), RowSemantics::Compute(Operator::Signed(SignedOperator::Multiply), Size::Doubleword, DOUBLEWORD_IN_MEMORY, CodeRule::Kept)), // msg
            $each!(Rxy, LRVG, Allowed::Any, ("lrvg", Plain, GeneralIndexed), FacilityRule::Always(Facility::Base), RowSemantics::Compute(Operator::Move, Size::Doubleword, REVERSED_DOUBLEWORD_IN_MEMORY, CodeRule::Kept)), // lrvg
            $each!(Rxy, LGF, Allowed::Any, ("lgf", Plain, GeneralIndexed), FacilityRule::Always(Facility::Base), RowSemantics::Compute(Operator::Move, Size::Doubleword, SIGNED_WORD_IN_MEMORY, CodeRule::Kept)), // lgf
            $each!(Rxy, LGH, Allowed::Any, ("lgh", Plain, GeneralIndexed), FacilityRule::Always(Facility::Base), RowSemantics::Compute(Operator::Move, Size::Doubleword, SIGNED_HALFWORD_IN_MEMORY, CodeRule::Kept)), // lgh
            $each!(Rxy, LLGF, Allowed::Any, ("llgf", Plain, GeneralIndexed), FacilityRule::Always(Facility::Base), RowSemantics::Compute(Operator::Move, Size::Doubleword, WORD_IN_MEMORY, CodeRule::Kept)), // llgf
            $each!(Rxy, AGF, Allowed::Any, ("agf", Plain, GeneralIndexed), FacilityRule::Always(Facility::Base), RowSemantics::Compute(Operator::Signed(SignedOperator::Add), Size::Doubleword, SIGNED_WORD_IN_MEMORY, CodeRule::Set)), // agf
            $each!(Rxy, SGF, Allowed::Any, ("sgf", Plain, GeneralIndexed), FacilityRule::Always(Facility::Base), RowSemantics::Compute(Operator::Signed(SignedOperator::Subtract), Size::Doubleword, SIGNED_WORD_IN_MEMORY, CodeRule::Set)), // sgf
            $each!(Rxy, ALGF, Allowed::Any, ("algf", Plain, GeneralIndexed), FacilityRule::Always(Facility::Base), RowSemantics::Compute(Operator::Logical(LogicalOperator::Add), Size::Doubleword, WORD_IN_MEMORY, CodeRule::Set)), // algf
            $each!(Rxy, SLGF, Allowed::Any, ("slgf", Plain, GeneralIndexed), FacilityRule::Always(Facility::Base), RowSemantics::Compute(Operator::Logical(LogicalOperator::Subtract), Size::Doubleword, WORD_IN_MEMORY, CodeRule::Set)), // slgf
            $each!(Rxy, MSGF, Allowed::Any, ("msgf", Plain, GeneralIndexed), FacilityRule::Always(Facility::Base), RowSemantics::Compute(Operator::Signed(SignedOperator::Multiply), Size::Doubleword, SIGNED_WORD_IN_MEMORY, CodeRule::Kept)), // msgf
            $each!(Rxy, LRV, Allowed::Any, ("lrv", Plain, GeneralIndexed), FacilityRule::Always(Facility::Base), RowSemantics::Compute(Operator::Move, Size::Word, REVERSED_WORD_IN_MEMORY, CodeRule::Kept)), // lrv
            $each!(Rxy, LRVH, Allowed::Any, ("lrvh", Plain, GeneralIndexed), FacilityRule::Always(Facility::Base), RowSemantics::Compute(Operator::Move, Size::Halfword, REVERSED_HALFWORD_IN_MEMORY, CodeRule::Kept)), // lrvh
            $each!(Rxy, CG, Allowed::Any, ("cg", Plain, GeneralIndexed), FacilityRule::Always(Facility::Base), RowSemantics::Compare(Signedness::Signed, Size::Doubleword, DOUBLEWORD_IN_MEMORY)), // cg
            $each!(Rxy, CLG, Allowed::Any, ("clg", Plain, GeneralIndexed), FacilityRule::Always(Facility::Base), RowSemantics::Compare(Signedness::Unsigned, Size::Doubleword, DOUBLEWORD_IN_MEMORY)), // clg
            $each!(Rxy, STG, Allowed::Any, ("stg", Plain, GeneralIndexed), FacilityRule::Always(Facility::Base), RowSemantics::Store(DOUBLEWORD_IN_MEMORY)), // stg
            $each!(Rxy, STRVG, Allowed::Any, ("strvg", Plain, GeneralIndexed), FacilityRule::Always(Facility::Base), RowSemantics::Store(REVERSED_DOUBLEWORD_IN_MEMORY)), // strvg
            $each!(Rxy, CGF, Allowed::Any, ("cgf", Plain, GeneralIndexed), FacilityRule::Always(Facility::Base), RowSemantics::Compare(Signedness::Signed, Size::Doubleword, SIGNED_WORD_IN_MEMORY)), // cgf
            $each!(Rxy, CLGF, Allowed::Any, ("clgf", Plain, GeneralIndexed), FacilityRule::Always(Facility::Base), RowSemantics::Compare(Signedness::Unsigned, Size::Doubleword, WORD_IN_MEMORY)), // clgf
            $each!(Rxy, CGH, Allowed::Any, ("cgh", Plain, GeneralIndexed), FacilityRule::Always(Facility::Base), RowSemantics::Compare(Signedness::Signed, Size::Doubleword, SIGNED_HALFWORD_IN_MEMORY)), // cgh
            $each!(Rxy, AGH, Allowed::Any, ("agh", Plain, GeneralIndexed), FacilityRule::Always(Facility::Base), RowSemantics::Compute(Operator::Signed(SignedOperator::Add), Size::Doubleword, SIGNED_HALFWORD_IN_MEMORY, CodeRule::Set)), // agh
            $each!(Rxy, SGH, Allowed::Any, ("sgh", Plain, GeneralIndexed), FacilityRule::Always(Facility::Base), RowSemantics::Compute(Operator::Signed(SignedOperator::Subtract), Size::Doubleword, SIGNED_HALFWORD_IN_MEMORY, CodeRule::Set)), // sgh
            $each!(Rxy, MGH, Allowed::Any, ("mgh", Plain, GeneralIndexed), FacilityRule::Always(Facility::Base), RowSemantics::Compute(Operator::Signed(SignedOperator::Multiply), Size::Doubleword, SIGNED_HALFWORD_IN_MEMORY, CodeRule::Kept)), // mgh
            $each!(Rxy, STRV, Allowed::Any, ("strv", Plain, GeneralIndexed), FacilityRule::Always(Facility::Base), RowSemantics::Store(REVERSED_WORD_IN_MEMORY)), // strv
            $each!(Rxy, STRVH, Allowed::Any, ("strvh", Plain, GeneralIndexed), FacilityRule::Always(Facility::Base), RowSemantics::Store(REVERSED_HALFWORD_IN_MEMORY)), // strvh
            $each!(Rxy, STY, Allowed::Any, ("sty", Plain, GeneralIndexed), FacilityRule::Always(Facility::Base), RowSemantics::Store(WORD_IN_MEMORY)), // sty
            $each!(Rxy, MSY, Allowed::Any, ("msy", Plain, GeneralIndexed), FacilityRule::Always(Facility::Base), RowSemantics::Compute(Operator::Signed(SignedOperator::Multiply), Size::Word, WORD_IN_MEMORY, CodeRule::Kept)), // msy
            $each!(Rxy, NY, Allowed::Any, ("ny", Plain, GeneralIndexed), FacilityRule::Always(Facility::Base), RowSemantics::Compute(Operator::Bit(BitOperator::And), Size::Word, WORD_IN_MEMORY, CodeRule::Set)), // ny
            $each!(Rxy, CLY, Allowed::Any, ("cly", Plain, GeneralIndexed), FacilityRule::Always(Facility::Base), RowSemantics::Compare(Signedness::Unsigned, Size::Word, WORD_IN_MEMORY)), // cly
            $each!(Rxy, OY, Allowed::Any, ("oy", Plain, GeneralIndexed), FacilityRule::Always(Facility::Base), RowSemantics::Compute(Operator::Bit(BitOperator::Or), Size::Word, WORD_IN_MEMORY, CodeRule::Set)), // oy
            $each!(Rxy, XY, Allowed::Any, ("xy", Plain, GeneralIndexed), FacilityRule::Always(Facility::Base), RowSemantics::Compute(Operator::Bit(BitOperator::Xor), Size::Word, WORD_IN_MEMORY, CodeRule::Set)), // xy
            $each!(Rxy, LY, Allowed::Any, ("ly", Plain, GeneralIndexed), FacilityRule::Always(Facility::Base), RowSemantics::Compute(Operator::Move, Size::Word, WORD_IN_MEMORY, CodeRule::Kept)), // ly
            $each!(Rxy, CY, Allowed::Any, ("cy", Plain, GeneralIndexed), FacilityRule::Always(Facility::Base), RowSemantics::Compare(Signedness::Signed, Size::Word, WORD_IN_MEMORY)), // cy
            $each!(Rxy, AY, Allowed::Any, ("ay", Plain, GeneralIndexed), FacilityRule::Always(Facility::Base), RowSemantics::Compute(Operator::Signed(SignedOperator::Add), Size::Word, WORD_IN_MEMORY, CodeRule::Set)), // ay
            $each!(Rxy, SY, Allowed::Any, ("sy", Plain, GeneralIndexed), FacilityRule::Always(Facility::Base), RowSemantics::Compute(Operator::Signed(SignedOperator::Subtract), Size::Word, WORD_IN_MEMORY, CodeRule::Set)), // sy
            $each!(Rxy, ALY, Allowed::Any, ("aly", Plain, GeneralIndexed), FacilityRule::Always(Facility::Base), RowSemantics::Compute(Operator::Logical(LogicalOperator::Add), Size::Word, WORD_IN_MEMORY, CodeRule::Set)), // aly
            $each!(Rxy, SLY, Allowed::Any, ("sly", Plain, GeneralIndexed), FacilityRule::Always(Facility::Base), RowSemantics::Compute(Operator::Logical(LogicalOperator::Subtract), Size::Word, WORD_IN_MEMORY, CodeRule::Set)), // sly
            $each!(Rxy, LXAH, Allowed::Any, ("lxah", Plain, GeneralIndexed), FacilityRule::Always(Facility::Mie4), RowSemantics::Havoc), // lxah
            $each!(Rxy, LLXAH, Allowed::Any, ("llxah", Plain, GeneralIndexed), FacilityRule::Always(Facility::Mie4), RowSemantics::Havoc), // llxah
            $each!(Rxy, LXAF, Allowed::Any, ("lxaf", Plain, GeneralIndexed), FacilityRule::Always(Facility::Mie4), RowSemantics::Havoc), // lxaf
            $each!(Rxy, LLXAF, Allowed::Any, ("llxaf", Plain, GeneralIndexed), FacilityRule::Always(Facility::Mie4), RowSemantics::Havoc), // llxaf
            $each!(Rxy, LXAG, Allowed::Any, ("lxag", Plain, GeneralIndexed), FacilityRule::Always(Facility::Mie4), RowSemantics::Havoc), // lxag
            $each!(Rxy, LLXAG, Allowed::Any, ("llxag", Plain, GeneralIndexed), FacilityRule::Always(Facility::Mie4), RowSemantics::Havoc), // llxag
            $each!(Rxy, LXAQ, Allowed::Any, ("lxaq", Plain, GeneralIndexed), FacilityRule::Always(Facility::Mie4), RowSemantics::Havoc), // lxaq
            $each!(Rxy, LLXAQ, Allowed::Any, ("llxaq", Plain, GeneralIndexed), FacilityRule::Always(Facility::Mie4), RowSemantics::Havoc), // llxaq
            $each!(Rxy, STHY, Allowed::Any, ("sthy", Plain, GeneralIndexed), FacilityRule::Always(Facility::Base), RowSemantics::Store(HALFWORD_IN_MEMORY)), // sthy
            $each!(Rxy, LAY, Allowed::Any, ("lay", Plain, GeneralIndexed), FacilityRule::Always(Facility::Base), RowSemantics::Compute(Operator::Move, Size::Doubleword, INDEXED_ADDRESS, CodeRule::Kept)), // lay
            $each!(Rxy, STCY, Allowed::Any, ("stcy", Plain, GeneralIndexed), FacilityRule::Always(Facility::Base), RowSemantics::Store(BYTE_IN_MEMORY)), // stcy
            $each!(Rxy, LB, Allowed::Any, ("lb", Plain, GeneralIndexed), FacilityRule::Always(Facility::Base), RowSemantics::Compute(Operator::Move, Size::Word, SIGNED_BYTE_IN_MEMORY, CodeRule::Kept)), // lb
            $each!(Rxy, LGB, Allowed::Any, ("lgb", Plain, GeneralIndexed), FacilityRule::Always(Facility::Base), RowSemantics::Compute(Operator::Move, Size::Doubleword, SIGNED_BYTE_IN_MEMORY, CodeRule::Kept)), // lgb
            $each!(Rxy, LHY, Allowed::Any, ("lhy", Plain, GeneralIndexed), FacilityRule::Always(Facility::Base), RowSemantics::Compute(Operator::Move, Size::Word, SIGNED_HALFWORD_IN_MEMORY, CodeRule::Kept)), // lhy
            $each!(Rxy, CHY, Allowed::Any, ("chy", Plain, GeneralIndexed), FacilityRule::Always(Facility::Base), RowSemantics::Compare(Signedness::Signed, Size::Word, SIGNED_HALFWORD_IN_MEMORY)), // chy
            $each!(Rxy, AHY, Allowed::Any, ("ahy", Plain, GeneralIndexed), FacilityRule::Always(Facility::Base), RowSemantics::Compute(Operator::Signed(SignedOperator::Add), Size::Word, SIGNED_HALFWORD_IN_MEMORY, CodeRule::Set)), // ahy
            $each!(Rxy, SHY, Allowed::Any, ("shy", Plain, GeneralIndexed), FacilityRule::Always(Facility::Base), RowSemantics::Compute(Operator::Signed(SignedOperator::Subtract), Size::Word, SIGNED_HALFWORD_IN_MEMORY, CodeRule::Set)), // shy
            $each!(Rxy, MHY, Allowed::Any, ("mhy", Plain, GeneralIndexed), FacilityRule::Always(Facility::Base), RowSemantics::Compute(Operator::Signed(SignedOperator::Multiply), Size::Word, SIGNED_HALFWORD_IN_MEMORY, CodeRule::Kept)), // mhy
            $each!(Rxy, NG, Allowed::Any, ("ng", Plain, GeneralIndexed), FacilityRule::Always(Facility::Base), RowSemantics::Compute(Operator::Bit(BitOperator::And), Size::Doubleword, DOUBLEWORD_IN_MEMORY, CodeRule::Set)), // ng
            $each!(Rxy, OG, Allowed::Any, ("og", Plain, GeneralIndexed), FacilityRule::Always(Facility::Base), RowSemantics::Compute(Operator::Bit(BitOperator::Or), Size::Doubleword, DOUBLEWORD_IN_MEMORY, CodeRule::Set)), // og
            $each!(Rxy, XG, Allowed::Any, ("xg", Plain, GeneralIndexed), FacilityRule::Always(Facility::Base), RowSemantics::Compute(Operator::Bit(BitOperator::Xor), Size::Doubleword, DOUBLEWORD_IN_MEMORY, CodeRule::Set)), // xg
            $each!(Rxy, LLGC, Allowed::Any, ("llgc", Plain, GeneralIndexed), FacilityRule::Always(Facility::Base), RowSemantics::Compute(Operator::Move, Size::Doubleword, BYTE_IN_MEMORY, CodeRule::Kept)), // llgc
            $each!(Rxy, LLGH, Allowed::Any, ("llgh", Plain, GeneralIndexed), FacilityRule::Always(Facility::Base), RowSemantics::Compute(Operator::Move, Size::Doubleword, HALFWORD_IN_MEMORY, CodeRule::Kept)), // llgh
            $each!(Rxy, LLC, Allowed::Any, ("llc", Plain, GeneralIndexed), FacilityRule::Always(Facility::Base), RowSemantics::Compute(Operator::Move, Size::Word, BYTE_IN_MEMORY, CodeRule::Kept)), // llc
            $each!(Rxy, LLH, Allowed::Any, ("llh", Plain, GeneralIndexed), FacilityRule::Always(Facility::Base), RowSemantics::Compute(Operator::Move, Size::Word, HALFWORD_IN_MEMORY, CodeRule::Kept)), // llh
            $each!(Sil, MVHHI, Allowed::Any, ("mvhhi", Plain, StorageSigned), FacilityRule::Always(Facility::Base), RowSemantics::StoreImmediate(Width::Bits16)), // mvhhi
            $each!(Sil, MVGHI, Allowed::Any, ("mvghi", Plain, StorageSigned), FacilityRule::Always(Facility::Base), RowSemantics::StoreImmediate(Width::Bits64)), // mvghi
            $each!(Sil, MVHI, Allowed::Any, ("mvhi", Plain, StorageSigned), FacilityRule::Always(Facility::Base), RowSemantics::StoreImmediate(Width::Bits32)), // mvhi
            $each!(Vrx, VLEBRH, Allowed::FirstMask { low: 0, high: 7 }, ("vlebrh", Plain, VectorIndexedLane), FacilityRule::Always(Facility::VxrsExt2), RowSemantics::LoadVector(VectorStorage::Element(ElementSize::Halfword, true))), // vlebrh
            $each!(Vrx, VLEBRG, Allowed::FirstMask { low: 0, high: 1 }, ("vlebrg", Plain, VectorIndexedLane), FacilityRule::Always(Facility::VxrsExt2), RowSemantics::LoadVector(VectorStorage::Element(ElementSize::Doubleword, true))), // vlebrg
            $each!(Vrx, VLEBRF, Allowed::FirstMask { low: 0, high: 3 }, ("vlebrf", Plain, VectorIndexedLane), FacilityRule::Always(Facility::VxrsExt2), RowSemantics::LoadVector(VectorStorage::Element(ElementSize::Word, true))), // vlebrf
            $each!(Vrx, VLBRREP, Allowed::FirstMask { low: 1, high: 3 }, ("vlbrrep", Size, VectorIndexed), FacilityRule::Always(Facility::VxrsExt2), RowSemantics::LoadVector(VectorStorage::Replicated(true))), // vlbrreph vlbrrepf vlbrrepg
            $each!(Vrx, VLBR, Allowed::FirstMask { low: 1, high: 4 }, ("vlbr", Size, VectorIndexed), FacilityRule::Always(Facility::VxrsExt2), RowSemantics::LoadVector(VectorStorage::ReversedBytes)), // vlbrq vlbrh vlbrf vlbrg
            $each!(Vrx, VLER, Allowed::FirstMask { low: 1, high: 3 }, ("vler", Size, VectorIndexed), FacilityRule::Always(Facility::VxrsExt2), RowSemantics::LoadVector(VectorStorage::ReversedElements)), // vlerh vlerf vlerg
            $each!(Vrx, VSTEBRH, Allowed::FirstMask { low: 0, high: 7 }, ("vstebrh", Plain, VectorIndexedLane), FacilityRule::Always(Facility::VxrsExt2), RowSemantics::StoreVector(VectorStorage::Element(ElementSize::Halfword, true))), // vstebrh
            $each!(Vrx, VSTEBRG, Allowed::FirstMask { low: 0, high: 1 }, ("vstebrg", Plain, VectorIndexedLane), FacilityRule::Always(Facility::VxrsExt2), RowSemantics::StoreVector(VectorStorage::Element(ElementSize::Doubleword, true))), // vstebrg
            $each!(Vrx, VSTEBRF, Allowed::FirstMask { low: 0, high: 3 }, ("vstebrf", Plain, VectorIndexedLane), FacilityRule::Always(Facility::VxrsExt2), RowSemantics::StoreVector(VectorStorage::Element(ElementSize::Word, true))), // vstebrf
            $each!(Vrx, VSTBR, Allowed::FirstMask { low: 1, high: 4 }, ("vstbr", Size, VectorIndexed), FacilityRule::Always(Facility::VxrsExt2), RowSemantics::StoreVector(VectorStorage::ReversedBytes)), // vstbrq vstbrh vstbrf vstbrg
            $each!(Vrx, VSTER, Allowed::FirstMask { low: 1, high: 3 }, ("vster", Size, VectorIndexed), FacilityRule::Always(Facility::VxrsExt2), RowSemantics::StoreVector(VectorStorage::ReversedElements)), // vsterh vsterf vsterg
            $each!(Vrx, VLEB, Allowed::FirstMask { low: 0, high: 15 }, ("vleb", Plain, VectorIndexedLane), FacilityRule::Always(Facility::Base), RowSemantics::LoadVector(VectorStorage::Element(ElementSize::Byte, false))), // vleb
            $each!(Vrx, VLEH, Allowed::FirstMask { low: 0, high: 7 }, ("vleh", Plain, VectorIndexedLane), FacilityRule::Always(Facility::Base), RowSemantics::LoadVector(VectorStorage::Element(ElementSize::Halfword, false))), // vleh
            $each!(Vrx, VLEG, Allowed::FirstMask { low: 0, high: 1 }, ("vleg", Plain, VectorIndexedLane), FacilityRule::Always(Facility::Base), RowSemantics::LoadVector(VectorStorage::Element(ElementSize::Doubleword, false))), // vleg
            $each!(Vrx, VLEF, Allowed::FirstMask { low: 0, high: 3 }, ("vlef", Plain, VectorIndexedLane), FacilityRule::Always(Facility::Base), RowSemantics::LoadVector(VectorStorage::Element(ElementSize::Word, false))), // vlef
            $each!(Vrx, VLREP, Allowed::FirstMask { low: 0, high: 3 }, ("vlrep", Size, VectorIndexed), FacilityRule::Always(Facility::Base), RowSemantics::LoadVector(VectorStorage::Replicated(false))), // vlrepb vlreph vlrepf vlrepg
            $each!(Vrx, VL, Allowed::FirstMask { low: 0, high: 0 }, ("vl", Plain, VectorIndexed), FacilityRule::Always(Facility::Base), RowSemantics::LoadVector(VectorStorage::Whole)), // vl
            $each!(Vrx, VSTEB, Allowed::FirstMask { low: 0, high: 15 }, ("vsteb", Plain, VectorIndexedLane), FacilityRule::Always(Facility::Base), RowSemantics::StoreVector(VectorStorage::Element(ElementSize::Byte, false))), // vsteb
            $each!(Vrx, VSTEH, Allowed::FirstMask { low: 0, high: 7 }, ("vsteh", Plain, VectorIndexedLane), FacilityRule::Always(Facility::Base), RowSemantics::StoreVector(VectorStorage::Element(ElementSize::Halfword, false))), // vsteh
            $each!(Vrx, VSTEG, Allowed::FirstMask { low: 0, high: 1 }, ("vsteg", Plain, VectorIndexedLane), FacilityRule::Always(Facility::Base), RowSemantics::StoreVector(VectorStorage::Element(ElementSize::Doubleword, false))), // vsteg
            $each!(Vrx, VSTEF, Allowed::FirstMask { low: 0, high: 3 }, ("vstef", Plain, VectorIndexedLane), FacilityRule::Always(Facility::Base), RowSemantics::StoreVector(VectorStorage::Element(ElementSize::Word, false))), // vstef
            $each!(Vrx, VST, Allowed::FirstMask { low: 0, high: 0 }, ("vst", Plain, VectorIndexed), FacilityRule::Always(Facility::Base), RowSemantics::StoreVector(VectorStorage::Whole)), // vst
            $each!(VrsC, VLGV, Allowed::FirstMask { low: 0, high: 3 }, ("vlgv", Size, GeneralVectorStorage), FacilityRule::Always(Facility::Base), RowSemantics::ExtractElement), // vlgvb vlgvh vlgvf vlgvg
            $each!(VrsB, VLVG, Allowed::FirstMask { low: 0, high: 3 }, ("vlvg", Size, VectorGeneralStorage), FacilityRule::Always(Facility::Base), RowSemantics::InsertElement), // vlvgb vlvgh vlvgf vlvgg
            $each!(VrsA, VESL, Allowed::FirstMask { low: 0, high: 3 }, ("vesl", Size, Vector2Storage), FacilityRule::Always(Facility::Base), RowSemantics::ShiftElements(VectorRow { kind: RowKind::ShiftElements(ShiftOperator::ShiftLeft), least: 0, greatest: 3 })), // veslb veslh veslf veslg
            $each!(VrsA, VERLL, Allowed::FirstMask { low: 0, high: 3 }, ("verll", Size, Vector2Storage), FacilityRule::Always(Facility::Base), RowSemantics::ShiftElements(VectorRow { kind: RowKind::ShiftElements(ShiftOperator::RotateLeft), least: 0, greatest: 3 })), // verllb verllh verllf verllg
            $each!(VrsA, VESRL, Allowed::FirstMask { low: 0, high: 3 }, ("vesrl", Size, Vector2Storage), FacilityRule::Always(Facility::Base), RowSemantics::ShiftElements(VectorRow { kind: RowKind::ShiftElements(ShiftOperator::ShiftRightLogical), least: 0, greatest: 3 })), // vesrlb vesrlh vesrlf vesrlg
            $each!(VrsA, VESRA, Allowed::FirstMask { low: 0, high: 3 }, ("vesra", Size, Vector2Storage), FacilityRule::Always(Facility::Base), RowSemantics::ShiftElements(VectorRow { kind: RowKind::ShiftElements(ShiftOperator::ShiftRightArithmetic), least: 0, greatest: 3 })), // vesrab vesrah vesraf vesrag
            $each!(VriA, VLEIB, Allowed::FirstMask { low: 0, high: 15 }, ("vleib", Plain, VectorSignedLane), FacilityRule::Always(Facility::Base), RowSemantics::Elements(VectorRow { kind: RowKind::InsertImmediate(ElementSize::Byte), least: 0, greatest: 15 })), // vleib
            $each!(VriA, VLEIH, Allowed::FirstMask { low: 0, high: 7 }, ("vleih", Plain, VectorSignedLane), FacilityRule::Always(Facility::Base), RowSemantics::Elements(VectorRow { kind: RowKind::InsertImmediate(ElementSize::Halfword), least: 0, greatest: 7 })), // vleih
            $each!(VriA, VLEIG, Allowed::FirstMask { low: 0, high: 1 }, ("vleig", Plain, VectorSignedLane), FacilityRule::Always(Facility::Base), RowSemantics::Elements(VectorRow { kind: RowKind::InsertImmediate(ElementSize::Doubleword), least: 0, greatest: 1 })), // vleig
            $each!(VriA, VLEIF, Allowed::FirstMask { low: 0, high: 3 }, ("vleif", Plain, VectorSignedLane), FacilityRule::Always(Facility::Base), RowSemantics::Elements(VectorRow { kind: RowKind::InsertImmediate(ElementSize::Word), least: 0, greatest: 3 })), // vleif
            $each!(VriA, VGBM, Allowed::FirstMask { low: 0, high: 0 }, ("vgbm", Plain, VectorUnsigned), FacilityRule::Always(Facility::Base), RowSemantics::Elements(VectorRow { kind: RowKind::ByteMask, least: 0, greatest: 0 })), // vgbm
            $each!(VriA, VREPI, Allowed::FirstMask { low: 0, high: 3 }, ("vrepi", Size, VectorSigned), FacilityRule::Always(Facility::Base), RowSemantics::Elements(VectorRow { kind: RowKind::ReplicateImmediate, least: 0, greatest: 3 })), // vrepib vrepih vrepif vrepig
            $each!(VriB, VGM, Allowed::BitRange, ("vgm", ThirdSize, VectorBits), FacilityRule::Always(Facility::Base), RowSemantics::Elements(VectorRow { kind: RowKind::BitMask, least: 0, greatest: 3 })), // vgmb vgmh vgmf vgmg
            $each!(VriC, VREP, Allowed::ReplicatedLane, ("vrep", Size, Vector2Lane), FacilityRule::Always(Facility::Base), RowSemantics::Elements(VectorRow { kind: RowKind::Replicate, least: 0, greatest: 3 })), // vrepb vreph vrepf vrepg
            $each!(VrrA, VPOPCT, Allowed::FirstMask { low: 0, high: 3 }, ("vpopct", Size, Vector2), FacilityRule::Always(Facility::Base), RowSemantics::Elements(VectorRow { kind: RowKind::Unary(UnaryOperator::PopulationCount), least: 0, greatest: 3 })), // vpopctb vpopcth vpopctf vpopctg
            $each!(VrrA, VCTZ, Allowed::FirstMask { low: 0, high: 4 }, ("vctz", Size, Vector2), FacilityRule::UpTo(ElementSize::Doubleword), RowSemantics::Elements(VectorRow { kind: RowKind::Unary(UnaryOperator::TrailingZeros), least: 0, greatest: 4 })), // vctzb vctzh vctzf vctzg vctzq
            $each!(VrrA, VCLZ, Allowed::FirstMask { low: 0, high: 4 }, ("vclz", Size, Vector2), FacilityRule::UpTo(ElementSize::Doubleword), RowSemantics::Elements(VectorRow { kind: RowKind::Unary(UnaryOperator::LeadingZeros), least: 0, greatest: 4 })), // vclzb vclzh vclzf vclzg vclzq
            $each!(VrrA, VLR, Allowed::FirstMask { low: 0, high: 0 }, ("vlr", Plain, Vector2), FacilityRule::Always(Facility::Base), RowSemantics::Elements(VectorRow { kind: RowKind::Move, least: 0, greatest: 0 })), // vlr
            $each!(VrrC, VMRL, Allowed::FirstMask { low: 0, high: 3 }, ("vmrl", Size, Vector3), FacilityRule::Always(Facility::Base), RowSemantics::Elements(VectorRow { kind: RowKind::Merge(Half::Low), least: 0, greatest: 3 })), // vmrlb vmrlh vmrlf vmrlg
            $each!(VrrC, VMRH, Allowed::FirstMask { low: 0, high: 3 }, ("vmrh", Size, Vector3), FacilityRule::Always(Facility::Base), RowSemantics::Elements(VectorRow { kind: RowKind::Merge(Half::High), least: 0, greatest: 3 })), // vmrhb vmrhh vmrhf vmrhg
            $each!(VrrF, VLVGP, Allowed::Any, ("vlvgp", Plain, VectorGeneral2), FacilityRule::Always(Facility::Base), RowSemantics::JoinRegisters), // vlvgp
            $each!(VrrC, VN, Allowed::FirstMask { low: 0, high: 0 }, ("vn", Plain, Vector3), FacilityRule::Always(Facility::Base), RowSemantics::Elements(VectorRow { kind: RowKind::Whole(BinaryOperator::And), least: 0, greatest: 0 })), // vn
            $each!(VrrC, VNC, Allowed::FirstMask { low: 0, high: 0 }, ("vnc", Plain, Vector3), FacilityRule::Always(Facility::Base), RowSemantics::Elements(VectorRow { kind: RowKind::Whole(BinaryOperator::AndNot), least: 0, greatest: 0 })), // vnc
            $each!(VrrC, VO, Allowed::FirstMask { low: 0, high: 0 }, ("vo", Plain, Vector3), FacilityRule::Always(Facility::Base), RowSemantics::Elements(VectorRow { kind: RowKind::Whole(BinaryOperator::Or), least: 0, greatest: 0 })), // vo
            $each!(VrrC, VNO, Allowed::FirstMask { low: 0, high: 0 }, ("vno", Plain, Vector3), FacilityRule::Always(Facility::Base), RowSemantics::Elements(VectorRow { kind: RowKind::Whole(BinaryOperator::NotOr), least: 0, greatest: 0 })), // vno
            $each!(VrrC, VNX, Allowed::FirstMask { low: 0, high: 0 }, ("vnx", Plain, Vector3), FacilityRule::Always(Facility::Base), RowSemantics::Elements(VectorRow { kind: RowKind::Whole(BinaryOperator::NotXor), least: 0, greatest: 0 })), // vnx
            $each!(VrrC, VX, Allowed::FirstMask { low: 0, high: 0 }, ("vx", Plain, Vector3), FacilityRule::Always(Facility::Base), RowSemantics::Elements(VectorRow { kind: RowKind::Whole(BinaryOperator::Xor), least: 0, greatest: 0 })), // vx
            $each!(VrrC, VNN, Allowed::FirstMask { low: 0, high: 0 }, ("vnn", Plain, Vector3), FacilityRule::Always(Facility::Base), RowSemantics::Elements(VectorRow { kind: RowKind::Whole(BinaryOperator::NotAnd), least: 0, greatest: 0 })), // vnn
            $each!(VrrC, VOC, Allowed::FirstMask { low: 0, high: 0 }, ("voc", Plain, Vector3), FacilityRule::Always(Facility::Base), RowSemantics::Elements(VectorRow { kind: RowKind::Whole(BinaryOperator::OrNot), least: 0, greatest: 0 })), // voc
            $each!(VrrC, VSL, Allowed::FirstMask { low: 0, high: 0 }, ("vsl", Plain, Vector3), FacilityRule::Always(Facility::Base), RowSemantics::Elements(VectorRow { kind: RowKind::ShiftByBits(ShiftOperator::ShiftLeft), least: 0, greatest: 0 })), // vsl
            $each!(VrrC, VSLB, Allowed::FirstMask { low: 0, high: 0 }, ("vslb", Plain, Vector3), FacilityRule::Always(Facility::Base), RowSemantics::Elements(VectorRow { kind: RowKind::ShiftByBytes(ShiftOperator::ShiftLeft), least: 0, greatest: 0 })), // vslb
            $each!(VrrC, VSRL, Allowed::FirstMask { low: 0, high: 0 }, ("vsrl", Plain, Vector3), FacilityRule::Always(Facility::Base), RowSemantics::Elements(VectorRow { kind: RowKind::ShiftByBits(ShiftOperator::ShiftRightLogical), least: 0, greatest: 0 })), // vsrl
            $each!(VrrC, VSRLB, Allowed::FirstMask { low: 0, high: 0 }, ("vsrlb", Plain, Vector3), FacilityRule::Always(Facility::Base), RowSemantics::Elements(VectorRow { kind: RowKind::ShiftByBytes(ShiftOperator::ShiftRightLogical), least: 0, greatest: 0 })), // vsrlb
            $each!(VrrC, VSRA, Allowed::FirstMask { low: 0, high: 0 }, ("vsra", Plain, Vector3), FacilityRule::Always(Facility::Base), RowSemantics::Elements(VectorRow { kind: RowKind::ShiftByBits(ShiftOperator::ShiftRightArithmetic), least: 0, greatest: 0 })), // vsra
            $each!(VrrC, VSRAB, Allowed::FirstMask { low: 0, high: 0 }, ("vsrab", Plain, Vector3), FacilityRule::Always(Facility::Base), RowSemantics::Elements(VectorRow { kind: RowKind::ShiftByBytes(ShiftOperator::ShiftRightArithmetic), least: 0, greatest: 0 })), // vsrab
            $each!(VrrC, VPDI, Allowed::DoublewordPair, ("vpdi", Plain, Vector3Mask), FacilityRule::Always(Facility::Base), RowSemantics::Elements(VectorRow { kind: RowKind::PermuteDoublewords, least: 0, greatest: 5 })), // vpdi
            $each!(VrrC, VBPERM, Allowed::FirstMask { low: 0, high: 0 }, ("vbperm", Plain, Vector3), FacilityRule::Always(Facility::Base), RowSemantics::Elements(VectorRow { kind: RowKind::BitPermute, least: 0, greatest: 0 })), // vbperm
            $each!(VriK, VEVAL, Allowed::Any, ("veval", Plain, Vector4Byte), FacilityRule::Always(Facility::VxrsExt3), RowSemantics::Elements(VectorRow { kind: RowKind::Evaluate, least: 0, greatest: 255 })), // veval
            $each!(VrrD, VBLEND, Allowed::FirstMask { low: 0, high: 0 }, ("vblend", Size, Vector4), FacilityRule::Always(Facility::VxrsExt3), RowSemantics::Elements(VectorRow { kind: RowKind::Blend, least: 0, greatest: 0 })), // vblend
            $each!(VrrE, VPERM, Allowed::FirstMask { low: 0, high: 0 }, ("vperm", Plain, Vector4), FacilityRule::Always(Facility::Base), RowSemantics::Elements(VectorRow { kind: RowKind::Permute, least: 0, greatest: 0 })), // vperm
            $each!(VrrE, VSEL, Allowed::FirstMask { low: 0, high: 0 }, ("vsel", Plain, Vector4), FacilityRule::Always(Facility::Base), RowSemantics::Elements(VectorRow { kind: RowKind::Select, least: 0, greatest: 0 })), // vsel
            $each!(VrrC, VPK, Allowed::FirstMask { low: 1, high: 3 }, ("vpk", Size, Vector3), FacilityRule::Always(Facility::Base), RowSemantics::Elements(VectorRow { kind: RowKind::Pack(Narrowing::Modulo), least: 1, greatest: 3 })), // vpkh vpkf vpkg
            $each!(VrrC, VPKLS, Allowed::FirstMask { low: 1, high: 3 }, ("vpkls", Size, Vector3), FacilityRule::Always(Facility::Base), RowSemantics::Elements(VectorRow { kind: RowKind::Pack(Narrowing::Saturate(Signedness::Unsigned)), least: 1, greatest: 3 })), // vpklsh vpklsf vpklsg
            $each!(VrrC, VPKS, Allowed::FirstMask { low: 1, high: 3 }, ("vpks", Size, Vector3), FacilityRule::Always(Facility::Base), RowSemantics::Elements(VectorRow { kind: RowKind::Pack(Narrowing::Saturate(Signedness::Signed)), least: 1, greatest: 3 })), // vpksh vpksf vpksg
            $each!(VrrC, VMLH, Allowed::FirstMask { low: 0, high: 4 }, ("vmlh", Size, Vector3), FacilityRule::UpTo(ElementSize::Word), RowSemantics::Elements(VectorRow { kind: RowKind::MultiplyHigh(Signedness::Unsigned), least: 0, greatest: 4 })), // vmlhb vmlhh vmlhf vmlhg vmlhq
            $each!(VrrC, VML, Allowed::FirstMask { low: 0, high: 4 }, ("vml", HalfwordSize, Vector3), FacilityRule::UpTo(ElementSize::Word), RowSemantics::Elements(VectorRow { kind: RowKind::Binary(BinaryOperator::Mul), least: 0, greatest: 4 })), // vmlb vmlhw vmlf vmlg vmlq
            $each!(VrrC, VMH, Allowed::FirstMask { low: 0, high: 4 }, ("vmh", Size, Vector3), FacilityRule::UpTo(ElementSize::Word), RowSemantics::Elements(VectorRow { kind: RowKind::MultiplyHigh(Signedness::Signed), least: 0, greatest: 4 })), // vmhb vmhh vmhf vmhg vmhq
            $each!(VrrC, VMLE, Allowed::FirstMask { low: 0, high: 3 }, ("vmle", Size, Vector3), FacilityRule::UpTo(ElementSize::Word), RowSemantics::Elements(VectorRow { kind: RowKind::MultiplyPairs(Signedness::Unsigned, Parity::Even), least: 0, greatest: 3 })), // vmleb vmleh vmlef vmleg
            $each!(VrrC, VMLO, Allowed::FirstMask { low: 0, high: 3 }, ("vmlo", Size, Vector3), FacilityRule::UpTo(ElementSize::Word), RowSemantics::Elements(VectorRow { kind: RowKind::MultiplyPairs(Signedness::Unsigned, Parity::Odd), least: 0, greatest: 3 })), // vmlob vmloh vmlof vmlog
            $each!(VrrC, VME, Allowed::FirstMask { low: 0, high: 3 }, ("vme", Size, Vector3), FacilityRule::UpTo(ElementSize::Word), RowSemantics::Elements(VectorRow { kind: RowKind::MultiplyPairs(Signedness::Signed, Parity::Even), least: 0, greatest: 3 })), // vmeb vmeh vmef vmeg
            $each!(VrrC, VMO, Allowed::FirstMask { low: 0, high: 3 }, ("vmo", Size, Vector3), FacilityRule::UpTo(ElementSize::Word), RowSemantics::Elements(VectorRow { kind: RowKind::MultiplyPairs(Signedness::Signed, Parity::Odd), least: 0, greatest: 3 })), // vmob vmoh vmof vmog
            $each!(VrrC, VDL, Allowed::FirstMask { low: 2, high: 4 }, ("vdl", Size, Vector3Control), FacilityRule::Always(Facility::VxrsExt3), RowSemantics::Elements(VectorRow { kind: RowKind::Divide(Division::Quotient, Signedness::Unsigned), least: 2, greatest: 4 })), // vdlf vdlg vdlq
            $each!(VrrC, VRL, Allowed::FirstMask { low: 2, high: 4 }, ("vrl", Size, Vector3Control), FacilityRule::Always(Facility::VxrsExt3), RowSemantics::Elements(VectorRow { kind: RowKind::Divide(Division::Remainder, Signedness::Unsigned), least: 2, greatest: 4 })), // vrlf vrlg vrlq
            $each!(VrrC, VD, Allowed::FirstMask { low: 2, high: 4 }, ("vd", Size, Vector3Control), FacilityRule::Always(Facility::VxrsExt3), RowSemantics::Elements(VectorRow { kind: RowKind::Divide(Division::Quotient, Signedness::Signed), least: 2, greatest: 4 })), // vdf vdg vdq
            $each!(VrrC, VR, Allowed::FirstMask { low: 2, high: 4 }, ("vr", Size, Vector3Control), FacilityRule::Always(Facility::VxrsExt3), RowSemantics::Elements(VectorRow { kind: RowKind::Divide(Division::Remainder, Signedness::Signed), least: 2, greatest: 4 })), // vrf vrg vrq
            $each!(VrrA, VUPLL, Allowed::FirstMask { low: 0, high: 3 }, ("vupll", Size, Vector2), FacilityRule::UpTo(ElementSize::Word), RowSemantics::Elements(VectorRow { kind: RowKind::Unpack(Signedness::Unsigned, Half::Low), least: 0, greatest: 3 })), // vupllb vupllh vupllf vupllg
            $each!(VrrA, VUPLH, Allowed::FirstMask { low: 0, high: 3 }, ("vuplh", Size, Vector2), FacilityRule::UpTo(ElementSize::Word), RowSemantics::Elements(VectorRow { kind: RowKind::Unpack(Signedness::Unsigned, Half::High), least: 0, greatest: 3 })), // vuplhb vuplhh vuplhf vuplhg
            $each!(VrrA, VUPL, Allowed::FirstMask { low: 0, high: 3 }, ("vupl", HalfwordSize, Vector2), FacilityRule::UpTo(ElementSize::Word), RowSemantics::Elements(VectorRow { kind: RowKind::Unpack(Signedness::Signed, Half::Low), least: 0, greatest: 3 })), // vuplb vuplh vuplf vuplg
            $each!(VrrA, VUPH, Allowed::FirstMask { low: 0, high: 3 }, ("vuph", Size, Vector2), FacilityRule::UpTo(ElementSize::Word), RowSemantics::Elements(VectorRow { kind: RowKind::Unpack(Signedness::Signed, Half::High), least: 0, greatest: 3 })), // vuphb vuphh vuphf vuphg
            $each!(VrrA, VECL, Allowed::FirstMask { low: 3, high: 4 }, ("vecl", Size, Vector2), FacilityRule::UpTo(ElementSize::Doubleword), RowSemantics::Elements(VectorRow { kind: RowKind::CompareElement(Signedness::Unsigned), least: 3, greatest: 4 })), // veclq veclg
            $each!(VrrA, VEC, Allowed::FirstMask { low: 3, high: 4 }, ("vec", Size, Vector2), FacilityRule::UpTo(ElementSize::Doubleword), RowSemantics::Elements(VectorRow { kind: RowKind::CompareElement(Signedness::Signed), least: 3, greatest: 4 })), // vecq vecg
            $each!(VrrA, VLC, Allowed::FirstMask { low: 0, high: 4 }, ("vlc", Size, Vector2), FacilityRule::UpTo(ElementSize::Doubleword), RowSemantics::Elements(VectorRow { kind: RowKind::Unary(UnaryOperator::Neg), least: 0, greatest: 4 })), // vlcb vlch vlcf vlcg vlcq
            $each!(VrrA, VLP, Allowed::FirstMask { low: 0, high: 4 }, ("vlp", Size, Vector2), FacilityRule::UpTo(ElementSize::Doubleword), RowSemantics::Elements(VectorRow { kind: RowKind::Unary(UnaryOperator::Abs), least: 0, greatest: 4 })), // vlpb vlph vlpf vlpg vlpq
            $each!(VrrC, VAVGL, Allowed::FirstMask { low: 0, high: 4 }, ("vavgl", Size, Vector3), FacilityRule::UpTo(ElementSize::Doubleword), RowSemantics::Elements(VectorRow { kind: RowKind::Binary(BinaryOperator::Average(Signedness::Unsigned)), least: 0, greatest: 4 })), // vavglb vavglh vavglf vavglg vavglq
            $each!(VrrC, VACCQ, Allowed::FirstMask { low: 4, high: 4 }, ("vaccq", Plain, Vector3), FacilityRule::Always(Facility::Base), RowSemantics::Elements(VectorRow { kind: RowKind::Binary(BinaryOperator::AddCarryOut), least: 4, greatest: 4 })), // vaccq
            $each!(VrrC, VAVG, Allowed::FirstMask { low: 0, high: 4 }, ("vavg", Size, Vector3), FacilityRule::UpTo(ElementSize::Doubleword), RowSemantics::Elements(VectorRow { kind: RowKind::Binary(BinaryOperator::Average(Signedness::Signed)), least: 0, greatest: 4 })), // vavgb vavgh vavgf vavgg vavgq
            $each!(VrrC, VA, Allowed::FirstMask { low: 0, high: 4 }, ("va", Size, Vector3), FacilityRule::Always(Facility::Base), RowSemantics::Elements(VectorRow { kind: RowKind::Binary(BinaryOperator::Add), least: 0, greatest: 4 })), // vab vah vaf vag vaq
            $each!(VrrC, VSCBIQ, Allowed::FirstMask { low: 4, high: 4 }, ("vscbiq", Plain, Vector3), FacilityRule::Always(Facility::Base), RowSemantics::Elements(VectorRow { kind: RowKind::Binary(BinaryOperator::SubBorrowOut), least: 4, greatest: 4 })), // vscbiq
            $each!(VrrC, VS, Allowed::FirstMask { low: 0, high: 4 }, ("vs", Size, Vector3), FacilityRule::Always(Facility::Base), RowSemantics::Elements(VectorRow { kind: RowKind::Binary(BinaryOperator::Sub), least: 0, greatest: 4 })), // vsb vsh vsf vsg vsq
            $each!(VrrB, VCEQ, Allowed::ComparedLanes, ("vceq", SizeAndCode, Vector3), FacilityRule::UpTo(ElementSize::Doubleword), RowSemantics::Elements(VectorRow { kind: RowKind::Compare(Comparison::Equal), least: 0, greatest: 4 })), // vceqb vceqbs vceqh vceqhs vceqf vceqfs vceqg vceqgs vceqq vceqqs
            $each!(VrrB, VCHL, Allowed::ComparedLanes, ("vchl", SizeAndCode, Vector3), FacilityRule::UpTo(ElementSize::Doubleword), RowSemantics::Elements(VectorRow { kind: RowKind::Compare(Comparison::High(Signedness::Unsigned)), least: 0, greatest: 4 })), // vchlb vchlbs vchlh vchlhs vchlf vchlfs vchlg vchlgs vchlq vchlqs
            $each!(VrrB, VCH, Allowed::ComparedLanes, ("vch", SizeAndCode, Vector3), FacilityRule::UpTo(ElementSize::Doubleword), RowSemantics::Elements(VectorRow { kind: RowKind::Compare(Comparison::High(Signedness::Signed)), least: 0, greatest: 4 })), // vchb vchbs vchh vchhs vchf vchfs vchg vchgs vchq vchqs
            $each!(VrrC, VMNL, Allowed::FirstMask { low: 0, high: 4 }, ("vmnl", Size, Vector3), FacilityRule::UpTo(ElementSize::Doubleword), RowSemantics::Elements(VectorRow { kind: RowKind::Binary(BinaryOperator::Min(Signedness::Unsigned)), least: 0, greatest: 4 })), // vmnlb vmnlh vmnlf vmnlg vmnlq
            $each!(VrrC, VMXL, Allowed::FirstMask { low: 0, high: 4 }, ("vmxl", Size, Vector3), FacilityRule::UpTo(ElementSize::Doubleword), RowSemantics::Elements(VectorRow { kind: RowKind::Binary(BinaryOperator::Max(Signedness::Unsigned)), least: 0, greatest: 4 })), // vmxlb vmxlh vmxlf vmxlg vmxlq
            $each!(VrrC, VMN, Allowed::FirstMask { low: 0, high: 4 }, ("vmn", Size, Vector3), FacilityRule::UpTo(ElementSize::Doubleword), RowSemantics::Elements(VectorRow { kind: RowKind::Binary(BinaryOperator::Min(Signedness::Signed)), least: 0, greatest: 4 })), // vmnb vmnh vmnf vmng vmnq
            $each!(VrrC, VMX, Allowed::FirstMask { low: 0, high: 4 }, ("vmx", Size, Vector3), FacilityRule::UpTo(ElementSize::Doubleword), RowSemantics::Elements(VectorRow { kind: RowKind::Binary(BinaryOperator::Max(Signedness::Signed)), least: 0, greatest: 4 })), // vmxb vmxh vmxf vmxg vmxq
            $each!(Rsy, LMG, Allowed::Any, ("lmg", Plain, General2Storage), FacilityRule::Always(Facility::Base), RowSemantics::LoadMultiple), // lmg
            $each!(Rsy, SRAG, Allowed::Any, ("srag", Plain, General2Storage), FacilityRule::Always(Facility::Base), RowSemantics::Compute(Operator::Shift(ShiftOperator::ShiftRightArithmetic), Size::Doubleword, AMOUNT, CodeRule::Set)), // srag
            $each!(Rsy, SRLG, Allowed::Any, ("srlg", Plain, General2Storage), FacilityRule::Always(Facility::Base), RowSemantics::Compute(Operator::Shift(ShiftOperator::ShiftRightLogical), Size::Doubleword, AMOUNT, CodeRule::Kept)), // srlg
            $each!(Rsy, SLLG, Allowed::Any, ("sllg", Plain, General2Storage), FacilityRule::Always(Facility::Base), RowSemantics::Compute(Operator::Shift(ShiftOperator::ShiftLeft), Size::Doubleword, AMOUNT, CodeRule::Kept)), // sllg
            $each!(Rsy, CSY, Allowed::Any, ("csy", Plain, General2Storage), FacilityRule::Always(Facility::Base), RowSemantics::CompareAndSwap(Size::Word)), // csy
            $each!(Rsy, RLLG, Allowed::Any, ("rllg", Plain, General2Storage), FacilityRule::Always(Facility::Base), RowSemantics::Compute(Operator::Shift(ShiftOperator::RotateLeft), Size::Doubleword, AMOUNT, CodeRule::Kept)), // rllg
            $each!(Rsy, RLL, Allowed::Any, ("rll", Plain, General2Storage), FacilityRule::Always(Facility::Base), RowSemantics::Compute(Operator::Shift(ShiftOperator::RotateLeft), Size::Word, AMOUNT, CodeRule::Kept)), // rll
            $each!(Rsy, STMG, Allowed::Any, ("stmg", Plain, General2Storage), FacilityRule::Always(Facility::Base), RowSemantics::StoreMultiple), // stmg
            $each!(Rsy, CSG, Allowed::Any, ("csg", Plain, General2Storage), FacilityRule::Always(Facility::Base), RowSemantics::CompareAndSwap(Size::Doubleword)), // csg
            $each!(Siy, MVIY, Allowed::Any, ("mviy", Plain, StorageByte), FacilityRule::Always(Facility::Base), RowSemantics::StoreByte), // mviy
            $each!(Rsy, SRAK, Allowed::Any, ("srak", Plain, General2Storage), FacilityRule::Always(Facility::Base), RowSemantics::Compute(Operator::Shift(ShiftOperator::ShiftRightArithmetic), Size::Word, AMOUNT, CodeRule::Set)), // srak
            $each!(Rsy, SRLK, Allowed::Any, ("srlk", Plain, General2Storage), FacilityRule::Always(Facility::Base), RowSemantics::Compute(Operator::Shift(ShiftOperator::ShiftRightLogical), Size::Word, AMOUNT, CodeRule::Kept)), // srlk
            $each!(Rsy, SLLK, Allowed::Any, ("sllk", Plain, General2Storage), FacilityRule::Always(Facility::Base), RowSemantics::Compute(Operator::Shift(ShiftOperator::ShiftLeft), Size::Word, AMOUNT, CodeRule::Kept)), // sllk
            $each!(Rsy, LANG, Allowed::Any, ("lang", Plain, General2Storage), FacilityRule::Always(Facility::Base), RowSemantics::LoadAndOperate(Operator::Bit(BitOperator::And), Size::Doubleword)), // lang
            $each!(Rsy, LAOG, Allowed::Any, ("laog", Plain, General2Storage), FacilityRule::Always(Facility::Base), RowSemantics::LoadAndOperate(Operator::Bit(BitOperator::Or), Size::Doubleword)), // laog
            $each!(Rsy, LAXG, Allowed::Any, ("laxg", Plain, General2Storage), FacilityRule::Always(Facility::Base), RowSemantics::LoadAndOperate(Operator::Bit(BitOperator::Xor), Size::Doubleword)), // laxg
            $each!(Rsy, LAAG, Allowed::Any, ("laag", Plain, General2Storage), FacilityRule::Always(Facility::Base), RowSemantics::LoadAndOperate(Operator::Signed(SignedOperator::Add), Size::Doubleword)), // laag
            $each!(Rsy, LAALG, Allowed::Any, ("laalg", Plain, General2Storage), FacilityRule::Always(Facility::Base), RowSemantics::LoadAndOperate(Operator::Logical(LogicalOperator::Add), Size::Doubleword)), // laalg
            $each!(Rsy, LAN, Allowed::Any, ("lan", Plain, General2Storage), FacilityRule::Always(Facility::Base), RowSemantics::LoadAndOperate(Operator::Bit(BitOperator::And), Size::Word)), // lan
            $each!(Rsy, LAO, Allowed::Any, ("lao", Plain, General2Storage), FacilityRule::Always(Facility::Base), RowSemantics::LoadAndOperate(Operator::Bit(BitOperator::Or), Size::Word)), // lao
            $each!(Rsy, LAX, Allowed::Any, ("lax", Plain, General2Storage), FacilityRule::Always(Facility::Base), RowSemantics::LoadAndOperate(Operator::Bit(BitOperator::Xor), Size::Word)), // lax
            $each!(Rsy, LAA, Allowed::Any, ("laa", Plain, General2Storage), FacilityRule::Always(Facility::Base), RowSemantics::LoadAndOperate(Operator::Signed(SignedOperator::Add), Size::Word)), // laa
            $each!(Rsy, LAAL, Allowed::Any, ("laal", Plain, General2Storage), FacilityRule::Always(Facility::Base), RowSemantics::LoadAndOperate(Operator::Logical(LogicalOperator::Add), Size::Word)), // laal
            $each!(RieG, LOCHI, Allowed::Any, ("lochi", Condition, GeneralSignedMask), FacilityRule::Always(Facility::Base), RowSemantics::MoveWhere(Size::Word, HALFWORD_IMMEDIATE)), // lochi
            $each!(RieG, LOCGHI, Allowed::Any, ("locghi", Condition, GeneralSignedMask), FacilityRule::Always(Facility::Base), RowSemantics::MoveWhere(Size::Doubleword, HALFWORD_IMMEDIATE)), // locghi
            $each!(RieF, RNSBG, Allowed::RotateBitsOrTest, ("rnsbg", Plain, General2Bits), FacilityRule::Always(Facility::Base), RowSemantics::RotateThen(SelectedBitsOperator::And, CodeRule::Set)), // rnsbg
            $each!(RieF, ROSBG, Allowed::RotateBitsOrTest, ("rosbg", Plain, General2Bits), FacilityRule::Always(Facility::Base), RowSemantics::RotateThen(SelectedBitsOperator::Or, CodeRule::Set)), // rosbg
            $each!(RieF, RXSBG, Allowed::RotateBitsOrTest, ("rxsbg", Plain, General2Bits), FacilityRule::Always(Facility::Base), RowSemantics::RotateThen(SelectedBitsOperator::Xor, CodeRule::Set)), // rxsbg
            $each!(RieF, RISBGN, Allowed::RotateBits, ("risbgn", Plain, General2Bits), FacilityRule::Always(Facility::Base), RowSemantics::RotateThen(SelectedBitsOperator::Insert, CodeRule::Kept)), // risbgn
            $each!(RieA, CGIT, Allowed::Any, ("cgit", Trap, GeneralSignedMask), FacilityRule::Always(Facility::Base), RowSemantics::CompareImmediateAndTrap(Signedness::Signed, Size::Doubleword)), // cgit
            $each!(RieA, CLGIT, Allowed::Any, ("clgit", Trap, GeneralUnsignedMask), FacilityRule::Always(Facility::Base), RowSemantics::CompareImmediateAndTrap(Signedness::Unsigned, Size::Doubleword)), // clgit
            $each!(RieA, CIT, Allowed::Any, ("cit", Trap, GeneralSignedMask), FacilityRule::Always(Facility::Base), RowSemantics::CompareImmediateAndTrap(Signedness::Signed, Size::Word)), // cit
            $each!(RieA, CLFIT, Allowed::Any, ("clfit", Trap, GeneralUnsignedMask), FacilityRule::Always(Facility::Base), RowSemantics::CompareImmediateAndTrap(Signedness::Unsigned, Size::Word)), // clfit
            $each!(RieD, AHIK, Allowed::Any, ("ahik", Plain, General2Signed), FacilityRule::Always(Facility::Base), RowSemantics::Compute(Operator::Signed(SignedOperator::Add), Size::Word, THREE_HALFWORD_IMMEDIATE, CodeRule::Set)), // ahik
            $each!(RieD, AGHIK, Allowed::Any, ("aghik", Plain, General2Signed), FacilityRule::Always(Facility::Base), RowSemantics::Compute(Operator::Signed(SignedOperator::Add), Size::Doubleword, THREE_HALFWORD_IMMEDIATE, CodeRule::Set)), // aghik
            $each!(Rxy, LEY, Allowed::Any, ("ley", Plain, FloatIndexed), FacilityRule::Always(Facility::Base), RowSemantics::LoadLeft(ElementSize::Word)), // ley
            $each!(Rxy, LDY, Allowed::Any, ("ldy", Plain, FloatIndexed), FacilityRule::Always(Facility::Base), RowSemantics::LoadLeft(ElementSize::Doubleword)), // ldy
            $each!(Rxy, STEY, Allowed::Any, ("stey", Plain, FloatIndexed), FacilityRule::Always(Facility::Base), RowSemantics::StoreLeft(ElementSize::Word)), // stey
            $each!(Rxy, STDY, Allowed::Any, ("stdy", Plain, FloatIndexed), FacilityRule::Always(Facility::Base), RowSemantics::StoreLeft(ElementSize::Doubleword)), // stdy
        ]
    };
}

/// The machine rows, in rising order of their opcodes.
pub const MACHINE_ROWS: [MachineRow; 401] = machine_rows!(row);

/// The spellings of the machine rows, in the same order: GNU's assembler's, and for the rows that it lacks LLVM's.
pub const SPELLINGS: [Spelling; 401] = machine_rows!(spelling);
