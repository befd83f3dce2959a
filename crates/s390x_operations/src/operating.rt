//! Operators, and how operands are read.

ghost use Rattle.std.specs.Prelude.{◌≡◌, ◌<◌};
ghost use Rattle.s390x_operations.specs.Numbers.{modulus};
ghost use Rattle.s390x_operations.specs.Values.{value, code_of_value, in_byte_order, width_of};

use crate::bits::{bit_op, code_z, select_op, shift_code, shift_value};
use crate::byte_values::{bytes, bytes_in_reverse, ones_by_byte};
use crate::unsigned::logical_op;
use crate::{ConditionCode, Operator, Size, Width, signed_op};

/// The width of a whole number of a size.
pub fn width_of(size: Size) -> Width
    ensures { result ≡ width_of size }
{
    match size {
        Size::Halfword => Width::Bits16,
        Size::Word => Width::Bits32,
        Size::Doubleword => Width::Bits64,
    }
}

/// The number, its bytes in reverse order where the flag says so.
pub fn in_byte_order(backwards: bool, width: Width, x: u64) -> u64
    ensures { result ≡ in_byte_order backwards width x }
{
    if backwards {
        bytes_in_reverse(bytes(width), x)
    } else {
        x
    }
}

/// The value and the condition code of an operator on two numbers of a size.
pub fn operate(op: Operator, size: Size, x: u64, y: u64) -> (u64, ConditionCode)
    requires x_below { x < modulus size }
    requires y_below { y < modulus size }
    ensures value { result.0 ≡ value op size x y }
    ensures code { result.1 ≡ code_of_value op size x y }
    ensures below { result.0 < modulus size }
{
    match op {
        Operator::Signed(op) => signed_op(op, size, x, y),
        Operator::Logical(op) => logical_op(op, size, x, y),
        Operator::Bit(op) => {
            let z = bit_op(op, size, x, y);
            (z, code_z(z))
        }
        Operator::Shift(op) => (
            shift_value(op, size, x, (y % 64) as u32),
            shift_code(size, x, (y % 64) as u32),
        ),
        Operator::SelectedBits(op, mask) => select_op(op, mask, size, x, y),
        Operator::Move => (y, ConditionCode::Code0),
        Operator::PopulationCountByByte => (ones_by_byte(8, y), code_z(y)),
        Operator::PopulationCount => (y.count_ones() as u64, code_z(y)),
        Operator::LeadingZeros => (y.leading_zeros() as u64, ConditionCode::Code0),
        Operator::TrailingZeros => (y.trailing_zeros() as u64, ConditionCode::Code0),
    }
}
