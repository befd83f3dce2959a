//! Operators on parts of a register and on pairs, shifts and rotations that are one machine instruction.
ghost use Rattle.std.specs.Prelude.{◌≡◌, ◌+◌, ◌<◌, ◌&&◌, true, Some, nat_lt};
ghost use Rattle.std.specs.Option.{option_map};
ghost use Rattle.s390x_base.specs.Regs.{number_of};
ghost use Rattle.s390x_rows.specs.declared.opcodes.TheConstants as opcodes;
ghost use Rattle.s390x_typed_steps.specs.General.{is_general, is_even_pair, reuses, rotation};
ghost use Rattle.s390x_typed_steps.specs.MachineInstruction.{rrf_ab};
ghost use Rattle.s390x_typed_steps.specs.Opcodes.{alu_part, alu_half, shift_opcode, rotate_then, rotate_then_test};
ghost use Rattle.s390x_typed_steps.specs.SingleCode.{code_where, single_code};
ghost use Rattle.s390x_typed_steps.specs.SingleInstruction.{single_instruction, single_with, two_operands, rotated_row};
ghost use Rattle.s390x_emit_rows.specs.SingleInstruction.{opcode_of, takes_general};

use crate::codes::{
    BitRange, selected_code, shifted_code, short_where, three_operands, two_operands,
};
use crate::opcode::ShortOpcode;
use crate::registers::{is_even_pair, is_reused, three_general, two_general};
use s390x_address::general;
use s390x_base::{Code, EmitError, Reg, Writable, WritableRegPair};
use s390x_inst::{ALUOp, Inst, RxSBGOp, ShiftOp};
use s390x_rows::opcodes;
use s390x_typed_steps::{low_byte, row_of_part, row_of_shift, rows_of_alu, rows_of_rotate};

/// The opcode of an operator with an immediate at a 16-bit part of a register, counted from the right. None where it
/// has none.
#[tactic(auto, using(crate::proofs::Opcodes::alu_part_short))]
pub fn part_opcode(op: ALUOp, shift: u8) -> Option<ShortOpcode>
    ensures { option_map opcode_of result ≡ alu_part op shift }
{
    short_where(row_of_part(rows_of_alu(op).parts, shift))
}

/// The opcode of an operator with an immediate at a half of a register, counted from the right. None where it has
/// none.
#[tactic(auto, using(crate::proofs::Opcodes::alu_half_short))]
pub fn half_opcode(op: ALUOp, shift: u8) -> Option<ShortOpcode>
    ensures { option_map opcode_of result ≡ alu_half op shift }
{
    short_where(row_of_part(rows_of_alu(op).halves, shift))
}

fn shift_opcode(op: ShiftOp) -> u16
    ensures { result ≡ shift_opcode op }
{
    row_of_shift(op)
}

fn rotate_opcode(op: RxSBGOp) -> u16
    ensures { result ≡ rotate_then op }
{
    rows_of_rotate(op).change
}

fn test_opcode(op: RxSBGOp) -> Option<u16>
    ensures { result ≡ rotate_then_test op }
{
    rows_of_rotate(op).test
}

// An amount to the right counts as one to the left.
fn rotation(amount: i8) -> u8
    ensures { result ≡ rotation amount }
{
    i32::from(amount).rem_euclid(64) as u8
}

/// The bits that a rotation selects, of one register into another that is read too. None where there is no row;
/// `BadRegister` comes where a register is not general, or an input that has to be the output isn't it.
#[tactic(auto, using(crate::proofs::Encoding::reused_pair_general))]
pub fn rotated_row(
    op: RxSBGOp,
    rd: &Writable<Reg>,
    ri: &Reg,
    rn: &Reg,
    bits: BitRange,
    amount: i8,
) -> Option<Result<Code, EmitError>>
    ensures { result
        ≡ single_code
        (single_with (reuses rd.now ri.now && is_general rn.now)
        (rotated_row (Some (rotate_then op)) (number_of rd.now) (number_of rn.now) bits.start
        bits.end bits.start (rotation amount))) }
{
    let output = rd.to_reg();
    let rotated = rotation(amount);
    if bits.start < 64 && bits.end < 64 {
        let valid = is_reused(&output, ri) && general(rn);
        Some(selected_code(valid, rotate_opcode(op), output, *rn, bits, rotated))
    } else {
        None
    }
}

/// The code of a rotate-then-operate row whose result is tested alone, and not kept: 128 is added to the start. An
/// error comes where a register is not general.
#[tactic(auto, using(crate::proofs::Encoding::itself))]
pub fn tested_row(
    op: RxSBGOp,
    rd: &Reg,
    rn: &Reg,
    bits: BitRange,
    amount: i8,
) -> Option<Result<Code, EmitError>>
    ensures { result
        ≡ single_code
        (single_with (is_general rd.now && is_general rn.now)
        (rotated_row (rotate_then_test op) (number_of rd.now) (number_of rn.now) bits.start
        bits.end (bits.start + 128) (rotation amount))) }
{
    let opcode = test_opcode(op)?;
    let rotated = rotation(amount);
    if bits.start < 64 && bits.end < 64 {
        let tested = BitRange {
            start: bits.start + 128,
            end: bits.end,
        };
        Some(selected_code(two_general(rd, rn), opcode, *rd, *rn, tested, rotated))
    } else {
        None
    }
}

/// A shift by a number plus a register. None where there is no row; `BadRegister` comes where a register is not
/// general, or an input that has to be the output isn't it.
#[tactic(auto, using(crate::proofs::Encoding::itself))]
fn shift_row(
    op: ShiftOp,
    rd: &Writable<Reg>,
    rn: &Reg,
    amount: u8,
    register: &Reg,
) -> Option<Result<Code, EmitError>>
    ensures { result
        ≡ single_code
        (single_instruction (Inst.ShiftRR op rd.now rn.now amount register.now)) }
{
    let output = rd.to_reg();
    Some(shifted_code(
        three_general(&output, rn, register),
        shift_opcode(op),
        output,
        *rn,
        *register,
        low_byte(amount),
    ))
}

/// The code of an instruction that is this shift. `BadRegister` comes where a register is not general.
pub fn shift(
    op: ShiftOp,
    rd: &Writable<Reg>,
    rn: &Reg,
    amount: u8,
    register: &Reg,
) -> Option<Result<Code, EmitError>>
    ensures { (i : _) → i ≡ Inst.ShiftRR op rd.now rn.now amount register.now
        → result ≡ single_code (single_instruction i) }
{
    shift_row(op, rd, rn, amount, register)
}

/// The signed product of two registers, into a pair. None where there is no row; `BadRegister` comes where a register
/// is not general, or an input that has to be the output isn't it.
#[tactic(auto, unfolding(s390x_typed_steps::specs::SingleCode::code_where))]
pub fn product_row(rd: &WritableRegPair, rn: &Reg, rm: &Reg) -> Option<Result<Code, EmitError>>
    ensures { result
        ≡ single_code
        (single_with
        (is_even_pair rd.now.hi rd.now.lo && is_general rn.now && is_general rm.now)
        (Some
        (rrf_ab opcodes.MGRK (number_of rd.now.hi) (number_of rn.now) (number_of rm.now) 0))) }
{
    if is_even_pair(rd) {
        Some(three_operands(opcodes::MGRK, &rd.hi.to_reg(), rn, rm))
    } else {
        Some(Err(EmitError::BadRegister))
    }
}

/// A count of a register's bits, into a pair. None where there is no row; `BadRegister` comes where a register is not
/// general, or an input that has to be the output isn't it.
#[tactic(auto, using(crate::proofs::Encoding::even_general))]
pub fn pair_row(opcode: u16, rd: &WritableRegPair, rn: &Reg) -> Option<Result<Code, EmitError>>
    requires { takes_general (Some opcode) ≡ true }
    ensures { result
        ≡ single_code
        (single_with (is_even_pair rd.now.hi rd.now.lo && is_general rn.now)
        (Some (two_operands opcode (number_of rd.now.hi) (number_of rn.now)))) }
{
    Some(two_operands(is_even_pair(rd) && general(rn), opcode, rd.hi.to_reg(), *rn))
}

/// An operator on a pair, whose second register is read too, and another register. None where there is no row;
/// `BadRegister` comes where a register is not general, or an input that has to be the output isn't it.
#[tactic(auto, using(crate::proofs::Encoding::even_reused_general))]
pub fn reused_low_row(
    opcode: u16,
    rd: &WritableRegPair,
    ri: &Reg,
    rn: &Reg,
) -> Option<Result<Code, EmitError>>
    requires { takes_general (Some opcode) ≡ true }
    ensures { result
        ≡ single_code
        (single_with
        (is_even_pair rd.now.hi rd.now.lo && reuses rd.now.lo ri.now && is_general rn.now)
        (Some (two_operands opcode (number_of rd.now.hi) (number_of rn.now)))) }
{
    Some(two_operands(
        is_even_pair(rd) && is_reused(&rd.lo.to_reg(), ri) && general(rn),
        opcode,
        rd.hi.to_reg(),
        *rn,
    ))
}
