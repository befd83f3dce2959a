//! Instructions on one element of a vector, by its number.
ghost use Rattle.std.specs.Prelude.{◌≡◌, ◌≤◌, ◌<◌, ◌&&◌, IfSome, true, nat_lt};
ghost use Rattle.s390x_base.specs.Regs.{number_of};
ghost use Rattle.s390x_typed_steps.specs.General.{low_halfword, is_general};
ghost use Rattle.s390x_typed_steps.specs.SingleCode.{single_code};
ghost use Rattle.s390x_typed_steps.specs.SingleInstruction.{single_with};
ghost use Rattle.s390x_typed_steps.specs.VectorInstruction.{element_code, extract_lane_row, extract_row, insert_alone_row, insert_immediate_opcode, insert_immediate_row, insert_lane_row, is_float_doubleword, is_lane, is_vector, replicate_lane_row, reuses_vector};

use crate::codes::{
    extract_valid, extracted_element, from_float, immediate_where, insert_valid, inserted_element,
    is_float_doubleword, number, replicated_lane, reuse_insert_valid, reuses, to_float, vector,
};
use s390x_base::{Code, EmitError, Reg};
use s390x_rows::opcodes;
use s390x_typed_steps::{VectorOpcode, bits_of_halfword};

/// The code of elements of 8 to 64 bits.
pub fn element_code(size: u32) -> Option<u8>
    ensures code { result ≡ element_code size }
    ensures few { IfSome result (λ c. c < 4) }
    ensures size { IfSome result (λ _. 8 ≤ size) }
{
    match size {
        8 => Some(0),
        16 => Some(1),
        32 => Some(2),
        64 => Some(3),
        _ => None,
    }
}

/// Whether the number is one of an element of so many bits.
pub fn is_lane(size: u32, lane: u8) -> bool
    ensures { result ≡ is_lane size lane }
{
    u64::from(lane) * u64::from(size) < 128
}

fn bits_of_lane(lane: u8) -> u16
    ensures { result ≡ lane }
{
    u16::from(lane)
}

/// One element for all. None where there is no row; `BadRegister` comes where a register is not general, or an input
/// that has to be the output isn't it.
pub fn replicated_lane_of(size: u32, v1: Reg, v3: Reg, lane: u8) -> Option<Result<Code, EmitError>>
    ensures { result
        ≡ single_code
        (single_with (is_vector v1 && is_vector v3)
        (replicate_lane_row (element_code size) size (number_of v1) (number_of v3) lane)) }
{
    match element_code(size) {
        Some(code) => {
            if is_lane(size, lane) {
                Some(replicated_lane(code, v1, v3, bits_of_lane(lane)))
            } else {
                None
            }
        }
        None => None,
    }
}

fn insert_immediate_opcode(code: u8) -> u16
    ensures { result ≡ insert_immediate_opcode code }
{
    match code {
        0 => opcodes::VLEIB,
        1 => opcodes::VLEIH,
        2 => opcodes::VLEIF,
        _ => opcodes::VLEIG,
    }
}

// The row of an immediate in one element, with the element's number in the place of a code.
fn insert_row(code: u8, lane: u8) -> VectorOpcode
    requires { lane < 16 }
    ensures opcode { result.opcode ≡ insert_immediate_opcode code }
    ensures lane { result.code ≡ lane }
{
    VectorOpcode {
        opcode: insert_immediate_opcode(code),
        code: lane,
    }
}

// An immediate in one element, where the registers may stand there.
fn inserted_where(
    valid: bool,
    size: u32,
    v1: Reg,
    imm: i16,
    lane: u8,
) -> Option<Result<Code, EmitError>>
    requires { valid ≡ true → is_vector v1 ≡ true }
    ensures { result
        ≡ single_code
        (single_with valid
        (insert_immediate_row (element_code size) size (number_of v1) (low_halfword imm)
        lane)) }
{
    match element_code(size) {
        Some(code) => {
            if is_lane(size, lane) {
                Some(immediate_where(valid, insert_row(code, lane), v1, bits_of_halfword(imm)))
            } else {
                None
            }
        }
        None => None,
    }
}

/// An immediate in one element, where the others may become any. None where there is no row; `BadRegister` comes
/// where a register is not general, or an input that has to be the output isn't it.
pub fn insert_immediate(size: u32, v1: Reg, imm: i16, lane: u8) -> Option<Result<Code, EmitError>>
    ensures { result
        ≡ single_code
        (single_with (is_vector v1)
        (insert_immediate_row (element_code size) size (number_of v1) (low_halfword imm)
        lane)) }
{
    let valid = vector(&v1);
    inserted_where(valid, size, v1, imm, lane)
}

/// An immediate in one element of a register that is also an input. None where there is no row; `BadRegister` comes
/// where a register is not general, or an input that has to be the output isn't it.
pub fn inserted_into(
    size: u32,
    v1: Reg,
    input: Reg,
    imm: i16,
    lane: u8,
) -> Option<Result<Code, EmitError>>
    ensures { result
        ≡ single_code
        (single_with (reuses_vector v1 input)
        (insert_immediate_row (element_code size) size (number_of v1) (low_halfword imm)
        lane)) }
{
    let valid = reuses(&v1, &input);
    inserted_where(valid, size, v1, imm, lane)
}

// The low bits of a general register in one element, where the registers may stand there.
fn lane_inserted_where(
    valid: bool,
    size: u32,
    v1: Reg,
    r3: Reg,
    lane: u8,
    base: Reg,
) -> Option<Result<Code, EmitError>>
    requires { valid ≡ true → (is_vector v1 && is_general r3 && is_general base) ≡ true }
    ensures { result
        ≡ single_code
        (single_with valid
        (insert_lane_row (element_code size) size (number_of v1) (number_of r3) (number_of base)
        lane)) }
{
    match element_code(size) {
        Some(code) => {
            if is_lane(size, lane) {
                Some(inserted_element(valid, code, v1, r3, base, lane))
            } else {
                None
            }
        }
        None => None,
    }
}

/// The low bits of a general register in one element of a register that is also an input. None where there is no row;
/// `BadRegister` comes where a register is not general, or an input that has to be the output isn't it.
pub fn lane_inserted_into(
    size: u32,
    v1: Reg,
    input: Reg,
    r3: Reg,
    lane: u8,
    base: Reg,
) -> Option<Result<Code, EmitError>>
    ensures { result
        ≡ single_code
        (single_with (reuses_vector v1 input && is_general r3 && is_general base)
        (insert_lane_row (element_code size) size (number_of v1) (number_of r3) (number_of base)
        lane)) }
{
    let valid = reuse_insert_valid(&v1, &input, &r3, &base);
    lane_inserted_where(valid, size, v1, r3, lane, base)
}

/// The low bits of a general register in one element, where the others may become any. None where there is no row;
/// `BadRegister` comes where a register is not general, or an input that has to be the output isn't it.
pub fn lane_inserted(
    size: u32,
    v1: Reg,
    r3: Reg,
    lane: u8,
    base: Reg,
) -> Option<Result<Code, EmitError>>
    ensures { result
        ≡ single_code
        (single_with (is_vector v1 && is_general r3 && is_general base)
        (insert_alone_row size (number_of v1) (number_of r3) (number_of base) lane)) }
{
    let valid = insert_valid(&v1, &r3, &base);
    if is_float_doubleword(size, number(&v1), number(&base), lane) {
        Some(to_float(valid, v1, r3))
    } else {
        lane_inserted_where(valid, size, v1, r3, lane, base)
    }
}

// One element, as a general register, where the registers may stand there.
fn lane_extracted_where(
    valid: bool,
    size: u32,
    r1: Reg,
    v3: Reg,
    lane: u8,
    base: Reg,
) -> Option<Result<Code, EmitError>>
    requires { valid ≡ true → (is_general r1 && is_vector v3 && is_general base) ≡ true }
    ensures { result
        ≡ single_code
        (single_with valid
        (extract_lane_row (element_code size) size (number_of r1) (number_of v3)
        (number_of base) lane)) }
{
    match element_code(size) {
        Some(code) => {
            if is_lane(size, lane) {
                Some(extracted_element(valid, code, r1, v3, base, lane))
            } else {
                None
            }
        }
        None => None,
    }
}

/// One element, as a general register. None where there is no row; `BadRegister` comes where a register is not
/// general, or an input that has to be the output isn't it.
pub fn lane_extracted(
    size: u32,
    r1: Reg,
    v3: Reg,
    lane: u8,
    base: Reg,
) -> Option<Result<Code, EmitError>>
    ensures { result
        ≡ single_code
        (single_with (is_general r1 && is_vector v3 && is_general base)
        (extract_row size (number_of r1) (number_of v3) (number_of base) lane)) }
{
    let valid = extract_valid(&r1, &v3, &base);
    if is_float_doubleword(size, number(&v3), number(&base), lane) {
        Some(from_float(valid, r1, v3))
    } else {
        lane_extracted_where(valid, size, r1, v3, lane, base)
    }
}
