//! Arithmetic and comparisons that are one machine instruction.
ghost use Rattle.std.specs.Prelude.{◌≡◌, ◌<◌, ◌&&◌, true, Some};
ghost use Rattle.std.specs.Option.{option_map};
ghost use Rattle.s390x_base.specs.Regs.{number_of};
ghost use Rattle.s390x_rows.specs.declared.opcodes.TheConstants as opcodes;
ghost use Rattle.s390x_typed_steps.specs.General.{is_general, low_halfword};
ghost use Rattle.s390x_typed_steps.specs.MachineInstruction.{rrf_cde};
ghost use Rattle.s390x_typed_steps.specs.Opcodes.{alu_three, alu_two, cmp_two, unary_two, alu_halfword, alu_three_halfword, alu_signed_word, alu_unsigned_word, cmp_halfword, cmp_signed_word, cmp_unsigned_word};
ghost use Rattle.s390x_typed_steps.specs.SingleCode.{code_where, single_code};
ghost use Rattle.s390x_typed_steps.specs.SingleInstruction.{single_with, two_operands, unary_row, three_row, three_halfword_row, allocate_row};
ghost use Rattle.s390x_emit_rows.specs.SingleInstruction.{opcode_of, takes_general};

use crate::codes::{
    halfword, masked_code, short_opcode, short_where, three_operands, two_and_halfword,
    two_operands, word,
};
use crate::encode::encode_rr_into;
use crate::opcode::ShortOpcode;
use crate::registers::{same_number, three_general, two_general};
use s390x_base::{Code, EmitError, Reg, Writable, gpr};
use s390x_inst::{ALUOp, CmpOp, UnaryOp};
use s390x_rows::opcodes;
use s390x_typed_steps::{
    bits_of_halfword, bits_of_unsigned, row_of_unary, rows_of_alu, rows_of_cmp,
};

/// The opcode of an operator's row with an output and two inputs (RRF). None where it has none.
pub fn three_opcode(op: ALUOp) -> Option<u16>
    ensures { result ≡ alu_three op }
{
    rows_of_alu(op).three
}

/// The opcode of an operator's row on two registers (RR or RRE). None where it has none.
pub fn two_opcode(op: ALUOp) -> Option<u16>
    ensures { result ≡ alu_two op }
{
    rows_of_alu(op).two
}

/// The opcode of a comparison of two registers (RR or RRE). None where it has none.
pub fn compare_opcode(op: CmpOp) -> Option<u16>
    ensures { result ≡ cmp_two op }
{
    rows_of_cmp(op).two
}

/// The opcode of an operator on one register (RR or RRE). None where it has none.
pub fn unary_opcode(op: UnaryOp) -> Option<u16>
    ensures { result ≡ unary_two op }
{
    row_of_unary(op)
}

/// The opcode of an operator's row with a signed immediate of 16 bits (RI). None where it has none.
#[tactic(auto, using(crate::proofs::Opcodes::alu_halfword_short))]
pub fn halfword_opcode(op: ALUOp) -> Option<ShortOpcode>
    ensures { option_map opcode_of result ≡ alu_halfword op }
{
    short_where(rows_of_alu(op).halfword)
}

/// The opcode of an operator's row with another output and a signed immediate of 16 bits (RIE). None where it has
/// none.
pub fn three_halfword_opcode(op: ALUOp) -> Option<u16>
    ensures { result ≡ alu_three_halfword op }
{
    rows_of_alu(op).three_halfword
}

/// The opcode of an operator's row with a signed immediate of 32 bits (RIL). None where it has none.
#[tactic(auto, using(crate::proofs::Opcodes::alu_signed_word_short))]
pub fn signed_word_opcode(op: ALUOp) -> Option<ShortOpcode>
    ensures { option_map opcode_of result ≡ alu_signed_word op }
{
    short_where(rows_of_alu(op).signed_word)
}

/// The opcode of an operator's row with an unsigned immediate of 32 bits (RIL). None where it has none.
#[tactic(auto, using(crate::proofs::Opcodes::alu_unsigned_word_short))]
pub fn unsigned_word_opcode(op: ALUOp) -> Option<ShortOpcode>
    ensures { option_map opcode_of result ≡ alu_unsigned_word op }
{
    short_where(rows_of_alu(op).unsigned_word)
}

/// The opcode of a comparison with a signed immediate of 16 bits (RI). None where it has none.
#[tactic(auto, using(crate::proofs::Opcodes::cmp_halfword_short))]
pub fn compare_halfword_opcode(op: CmpOp) -> Option<ShortOpcode>
    ensures { option_map opcode_of result ≡ cmp_halfword op }
{
    short_where(rows_of_cmp(op).halfword)
}

/// The opcode of a comparison with a signed immediate of 32 bits (RIL). None where it has none.
#[tactic(auto, using(crate::proofs::Opcodes::cmp_signed_word_short))]
pub fn compare_signed_word_opcode(op: CmpOp) -> Option<ShortOpcode>
    ensures { option_map opcode_of result ≡ cmp_signed_word op }
{
    short_where(rows_of_cmp(op).signed_word)
}

/// The opcode of a comparison with an unsigned immediate of 32 bits (RIL). None where it has none.
#[tactic(auto, using(crate::proofs::Opcodes::cmp_unsigned_word_short))]
pub fn compare_unsigned_word_opcode(op: CmpOp) -> Option<ShortOpcode>
    ensures { option_map opcode_of result ≡ cmp_unsigned_word op }
{
    short_where(rows_of_cmp(op).unsigned_word)
}

// A mode stands in a mask.
#[tactic(auto, using(crate::proofs::Encoding::itself))]
fn count_ones(rd: &Writable<Reg>, rn: &Reg, mode: u8) -> Result<Code, EmitError>
    requires { mode < 16 }
    ensures { result
        ≡ code_where (is_general rd.now && is_general rn.now)
        (rrf_cde opcodes.POPCNT (number_of rd.now) (number_of rn.now) mode 0) }
{
    let output = rd.to_reg();
    masked_code(two_general(&output, rn), opcodes::POPCNT, output, *rn, mode)
}

/// One operand. The count of ones has its mode in a mask. None where there is no row; `BadRegister` comes where a
/// register is not general, or an input that has to be the output isn't it.
#[tactic(auto, using(crate::proofs::Encoding::unary_two_general))]
pub fn encode_unary(op: UnaryOp, rd: &Writable<Reg>, rn: &Reg) -> Option<Result<Code, EmitError>>
    ensures { result
        ≡ single_code
        (single_with (is_general rd.now && is_general rn.now)
        (unary_row op (number_of rd.now) (number_of rn.now))) }
{
    match op {
        UnaryOp::PopcntByte => Some(count_ones(rd, rn, 0)),
        UnaryOp::PopcntReg => Some(count_ones(rd, rn, 8)),
        _ => encode_rr_into(unary_opcode(op), rd, rn),
    }
}

/// The row of three operands, or that of two where there is one and the first input is the output. None where there
/// is no row; `BadRegister` comes where a register is not general, or an input that has to be the output isn't it.
#[tactic(auto, using(crate::proofs::Encoding::alu_two_general))]
pub fn encode_rrr(
    op: ALUOp,
    rd: &Writable<Reg>,
    rn: &Reg,
    rm: &Reg,
) -> Option<Result<Code, EmitError>>
    ensures { result
        ≡ single_code
        (single_with (is_general rd.now && is_general rn.now && is_general rm.now)
        (three_row (alu_three op) (alu_two op) (number_of rd.now) (number_of rn.now)
        (number_of rm.now))) }
{
    let three = three_opcode(op)?;
    match two_opcode(op) {
        Some(two) => Some(shorter_code(three, two, rd, rn, rm)),
        None => Some(three_operands(three, &rd.to_reg(), rn, rm)),
    }
}

// The row of two operands, out of the way of that of three.
#[inline(never)]
fn two_code(two: u16, rd: &Writable<Reg>, rn: &Reg, rm: &Reg) -> Result<Code, EmitError>
    requires { takes_general (Some two) ≡ true }
    ensures { result
        ≡ code_where (is_general rd.now && is_general rn.now && is_general rm.now)
        (two_operands two (number_of rd.now) (number_of rm.now)) }
{
    let output = rd.to_reg();
    two_operands(three_general(&output, rn, rm), two, output, *rm)
}

#[inline(always)]
#[tactic(auto, using(crate::proofs::Encoding::outer_general))]
fn shorter_code(
    three: u16,
    two: u16,
    rd: &Writable<Reg>,
    rn: &Reg,
    rm: &Reg,
) -> Result<Code, EmitError>
    requires { takes_general (Some two) ≡ true }
    ensures { Some result
        ≡ single_code
        (single_with (is_general rd.now && is_general rn.now && is_general rm.now)
        (three_row (Some three) (Some two) (number_of rd.now) (number_of rn.now)
        (number_of rm.now))) }
{
    let output = rd.to_reg();
    if same_number(&output, rn) {
        two_code(two, rd, rn, rm)
    } else {
        three_operands(three, &output, rn, rm)
    }
}

/// Into another register, or two operands where the input is the output. None where there is no row; `BadRegister`
/// comes where a register is not general, or an input that has to be the output isn't it.
#[tactic(auto, using(crate::proofs::Encoding::itself))]
pub fn encode_rri(
    op: ALUOp,
    rd: &Writable<Reg>,
    rn: &Reg,
    imm: i16,
) -> Option<Result<Code, EmitError>>
    ensures { result
        ≡ single_code
        (single_with (is_general rd.now && is_general rn.now)
        (three_halfword_row (alu_three_halfword op) (alu_halfword op) (number_of rd.now)
        (number_of rn.now) (low_halfword imm))) }
{
    let three = three_halfword_opcode(op)?;
    let output = rd.to_reg();
    let bits = bits_of_halfword(imm);
    match halfword_opcode(op) {
        Some(two) => Some(shorter_halfword_code(three, two, &output, rn, bits)),
        None => Some(two_and_halfword(two_general(&output, rn), three, output, *rn, bits)),
    }
}

#[tactic(auto, using(crate::proofs::Encoding::first_general, crate::proofs::Encoding::itself))]
fn shorter_halfword_code(
    three: u16,
    two: ShortOpcode,
    rd: &Reg,
    rn: &Reg,
    imm: u16,
) -> Result<Code, EmitError>
    ensures { Some result
        ≡ single_code
        (single_with (is_general rd.now && is_general rn.now)
        (three_halfword_row (Some three) (Some (opcode_of two)) (number_of rd.now)
        (number_of rn.now) imm)) }
{
    let valid = two_general(rd, rn);
    if same_number(rd, rn) {
        halfword(valid, two, *rd, imm)
    } else {
        two_and_halfword(valid, three, *rd, *rn, imm)
    }
}

/// So many bytes are taken from the stack pointer: their number is added with a minus sign where that fits, else it
/// is subtracted. None where there is no row; `BadRegister` comes where a register is not general, or an input that
/// has to be the output isn't it.
pub fn encode_allocate(size: u32) -> Option<Result<Code, EmitError>>
    ensures { result ≡ single_code (single_with true (Some (allocate_row size))) }
{
    if size < 32768 {
        Some(halfword(
            true,
            short_opcode(opcodes::AGHI),
            gpr(15),
            bits_of_halfword(-(size as i16)),
        ))
    } else {
        Some(word(
            true,
            short_opcode(opcodes::SLGFI),
            gpr(15),
            bits_of_unsigned(size),
        ))
    }
}
