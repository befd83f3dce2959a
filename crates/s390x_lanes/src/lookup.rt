// The operation of a row, masks and an immediate.
#![tactic(auto)]

ghost use Rattle.std.specs.Prelude.{◌≡◌, ℕ, ◌+◌, ◌-◌, ◌*◌, ◌/◌, ◌%◌, ◌^◌, ◌<◌, ◌≤◌, IsTrue, MatchOption};
ghost use Rattle.s390x_lanes.specs.Size.{size_of_code, narrower_of_code};
ghost use Rattle.s390x_lanes.specs.Rows.{operation_from, is_mask_within, kind_allows, is_operation, is_computed, where_operation, row_operation, immediate_bits as immediate_bits_of, with_immediate, operation_of};

use crate::operators::VectorOperation;
use crate::row::{RowKind, VectorRow};
use crate::size::ElementSize;

/// The size with an element-size code of 0 to 4.
pub fn size_from(code: u8) -> ElementSize
    ensures { result ≡ size_of_code code }
{
    if code == 0 {
        ElementSize::Byte
    } else if code == 1 {
        ElementSize::Halfword
    } else if code == 2 {
        ElementSize::Word
    } else if code == 3 {
        ElementSize::Doubleword
    } else {
        ElementSize::Quadword
    }
}

/// The size of half the bits.
fn narrower_from(code: u8) -> ElementSize
    ensures { result ≡ narrower_of_code code }
{
    if code == 0 {
        ElementSize::Byte
    } else {
        size_from(code - 1)
    }
}

/// The operation of a row with masks `a`, `b`, `c` and an immediate.
#[rattlefmt::skip]
fn operation_with(kind: RowKind, a: u8, b: u8, c: u8, imm: u16) -> VectorOperation
    ensures { result ≡ operation_from kind a b c imm }
{
    match kind {
        RowKind::Binary(operator) => VectorOperation::Binary { operator, size: size_from(a) },
        RowKind::Whole(operator) => VectorOperation::Binary { operator, size: ElementSize::Quadword },
        RowKind::Compare(comparison) => VectorOperation::Compare { comparison, size: size_from(a), sets_code: b == 1 },
        RowKind::MultiplyHigh(sign) => VectorOperation::MultiplyHigh { sign, size: size_from(a) },
        RowKind::MultiplyPairs(sign, parity) => VectorOperation::MultiplyPairs { sign, parity, size: size_from(a) },
        RowKind::Divide(division, sign) => VectorOperation::Divide { division, sign, size: size_from(a) },
        RowKind::Unary(operator) => VectorOperation::Unary { operator, size: size_from(a) },
        RowKind::ShiftElements(operator) => VectorOperation::ShiftElements { operator, size: size_from(a), amount: imm as u32 },
        RowKind::Pack(narrowing) => VectorOperation::Pack { narrowing, size: narrower_from(a) },
        RowKind::Merge(half) => VectorOperation::Merge { half, size: size_from(a) },
        RowKind::Unpack(sign, half) => VectorOperation::Unpack { sign, half, size: size_from(a) },
        RowKind::Replicate => VectorOperation::Replicate { size: size_from(a), index: imm as u32 },
        RowKind::ByteMask => VectorOperation::ByteMask { mask: imm },
        RowKind::BitMask => VectorOperation::BitMask { size: size_from(c), start: a as u32, end: b as u32 },
        RowKind::Select => VectorOperation::Select,
        RowKind::Permute => VectorOperation::Permute,
        RowKind::PermuteDoublewords => VectorOperation::PermuteDoublewords { a: a as u32 / 4, b: a as u32 % 4 },
        RowKind::ShiftByBits(operator) => VectorOperation::ShiftByBits { operator },
        RowKind::ShiftByBytes(operator) => VectorOperation::ShiftByBytes { operator },
        RowKind::Move => VectorOperation::Move,
        RowKind::InsertImmediate(size) => VectorOperation::InsertImmediate { size, value: imm, index: a as u32 },
        RowKind::ReplicateImmediate => VectorOperation::ReplicateImmediate { size: size_from(a), value: imm },
        RowKind::BitPermute => VectorOperation::BitPermute,
        RowKind::CompareElement(sign) => VectorOperation::CompareElement { sign, size: size_from(a) },
        RowKind::Blend => VectorOperation::Blend,
        RowKind::Evaluate => VectorOperation::Evaluate { table: a },
    }
}

/// Whether an operation has its sizes, lane numbers and bit numbers.
fn has_operation(operation: VectorOperation) -> bool
    ensures { result ≡ is_operation operation }
{
    match operation {
        VectorOperation::MultiplyPairs { size, .. } => size.bits() <= 64,
        VectorOperation::Pack { size, .. } => size.bits() <= 64,
        VectorOperation::Merge { size, .. } => size.bits() <= 64,
        VectorOperation::Unpack { size, .. } => size.bits() <= 64,
        VectorOperation::Replicate { size, index } => index < size.lane_count(),
        VectorOperation::BitMask { size, start, end } => size.bits() <= 64
            && start < size.bits()
            && end < size.bits(),
        VectorOperation::PermuteDoublewords { a, b } => a < 2 && b < 2,
        VectorOperation::InsertImmediate { size, index, .. } => index < size.lane_count(),
        _ => true,
    }
}

/// The operation where it is one.
fn valid_operation(operation: VectorOperation) -> Option<VectorOperation>
    ensures value { result ≡ where_operation operation }
    ensures is_operation { MatchOption result (Unit {0}) (λ o. IsTrue (is_operation o)) }
{
    if has_operation(operation) {
        Some(operation)
    } else {
        None
    }
}

/// Whether a mask lies from the row's least to its greatest.
fn within(row: VectorRow, mask: u8) -> bool
    ensures { result ≡ is_mask_within row mask }
{
    row.least <= mask && mask <= row.greatest
}

/// Whether a row may have these masks and this immediate.
fn allows(row: VectorRow, a: u8, b: u8, c: u8, imm: u16) -> bool
    ensures { result ≡ kind_allows row.kind row a b c imm }
{
    match row.kind {
        RowKind::Compare(_) => within(row, a) && b <= 1 && c == 0 && imm == 0,
        RowKind::ShiftElements(_) => within(row, a) && b == 0 && c == 0 && imm < 64,
        RowKind::Replicate => within(row, a) && b == 0 && c == 0,
        RowKind::ByteMask => within(row, a) && b == 0 && c == 0,
        RowKind::InsertImmediate(_) => within(row, a) && b == 0 && c == 0,
        RowKind::ReplicateImmediate => within(row, a) && b == 0 && c == 0,
        RowKind::BitMask => within(row, c) && imm == 0,
        _ => within(row, a) && b == 0 && c == 0 && imm == 0,
    }
}

/// The operation of a row.
fn operation_at(row: VectorRow, masks: [u8; 3], imm: u16) -> Option<VectorOperation>
    ensures value { result ≡ row_operation row masks imm }
    ensures is_operation { MatchOption result (Unit {0}) (λ o. IsTrue (is_operation o)) }
{
    if allows(row, masks[0], masks[1], masks[2], imm) {
        valid_operation(operation_with(row.kind, masks[0], masks[1], masks[2], imm))
    } else {
        None
    }
}

/// The 16 bits of an immediate.
fn immediate_bits(imm: i64) -> Option<u16>
    ensures { result ≡ immediate_bits_of imm }
{
    if imm < 0 || imm > 65535 {
        None
    } else {
        Some(imm as u16)
    }
}

/// The operation of a row, where its immediate has 16 bits.
fn operation_in_row(row: VectorRow, masks: [u8; 3], imm: i64) -> Option<VectorOperation>
    ensures value { result ≡ with_immediate row masks (immediate_bits_of imm) }
    ensures is_operation { MatchOption result (Unit {0}) (λ o. IsTrue (is_operation o)) }
{
    match immediate_bits(imm) {
        None => None,
        Some(k) => operation_at(row, masks, k),
    }
}

/// The operation of a row with these masks and this immediate, where it allows them.
pub fn operation(row: VectorRow, masks: [u8; 3], imm: i64) -> Option<VectorOperation>
    ensures value { result ≡ operation_of row masks imm }
    ensures is_operation { MatchOption result (Unit {0}) (λ o. IsTrue (is_operation o)) }
{
    operation_in_row(row, masks, imm)
}

/// Whether the result of an operation is computed.
pub fn computes(operation: VectorOperation) -> bool
    ensures { result ≡ is_computed operation }
{
    match operation {
        VectorOperation::MultiplyHigh { size, .. } => size.bits() <= 64,
        VectorOperation::Blend => false,
        VectorOperation::Evaluate { .. } => false,
        _ => true,
    }
}
