//! The look-up of a vector instruction.
ghost use Rattle.std.specs.Prelude.{◌≡◌, ◌<◌, ◌&&◌, pos};
ghost use Rattle.s390x_base.specs.Regs.{number_of};
ghost use Rattle.s390x_rows.specs.declared.opcodes.TheConstants as opcodes;
ghost use Rattle.s390x_typed_steps.specs.General.{is_general, low_halfword, low_byte};
ghost use Rattle.s390x_typed_steps.specs.MachineInstruction.{vri_a, vrs_a};
ghost use Rattle.s390x_typed_steps.specs.SingleCode.{code_where, single_code};
ghost use Rattle.s390x_typed_steps.specs.SingleInstruction.{single_with};
ghost use Rattle.s390x_typed_steps.specs.VectorInstruction.{bit_mask_row, divides, is_vector, element_code, doublewords_row, replicate_row, vector_row, vector_operands_valid, vector_stop};
ghost use Rattle.s390x_typed_steps.specs.VectorOpcodes.{shift_row};

use crate::codes::{
    bit_mask, blended_vectors, compared_vectors, evaluated_vectors, four_vectors, immediate_vector,
    joined_registers, moved_left, shifted_vector, three_vectors, two_vectors,
};
use crate::lanes::{
    element_code, insert_immediate, inserted_into, lane_extracted, lane_inserted,
    lane_inserted_into, replicated_lane_of,
};
use crate::opcodes::{
    binary_row, comparison_row, element_comparison_row, is_division, shift_row, unary_row,
};
use s390x_base::{Code, EmitError, Reg, TrapCode, Writable};
use s390x_inst::{VecInst, VecShiftOp, rows};
use s390x_rows::opcodes;
use s390x_typed_steps::{VectorOpcode, bits_of_halfword, bits_of_unsigned_halfword, low_byte};

fn displacement_of(imm: u8) -> u32
    ensures value { result ≡ low_byte imm }
    ensures below { result < 4096 }
{
    u32::from(imm)
}

// A shift or rotation of each element, by an amount and a register.
#[inline(always)]
fn shifted(
    op: VecShiftOp,
    rd: Writable<Reg>,
    rn: Reg,
    amount: u8,
    register: Reg,
) -> Result<Code, EmitError>
    ensures { result
        ≡ code_where (is_vector rd && is_vector rn && is_general register)
        (vrs_a (shift_row op).opcode (number_of rd) (number_of register) (number_of rn)
        (shift_row op).code (low_byte amount)) }
{
    let row = shift_row(op);
    let amount = displacement_of(amount);
    shifted_vector(row, rd.to_reg(), rn, register, amount)
}

// A byte of ones for each bit of a mask.
#[inline(always)]
fn byte_mask(rd: Writable<Reg>, mask: u16) -> Result<Code, EmitError>
    ensures { result
        ≡ code_where (is_vector rd)
        (vri_a opcodes.VGBM (number_of rd) (low_halfword (pos mask)) 0) }
{
    let row = VectorOpcode {
        opcode: opcodes::VGBM,
        code: 0,
    };
    immediate_vector(row, rd.to_reg(), bits_of_unsigned_halfword(mask))
}

// Two doublewords, by their numbers 0 and 1.
fn doublewords(v1: Reg, v2: Reg, v3: Reg, first: u8, second: u8) -> Option<Result<Code, EmitError>>
    ensures { result
        ≡ single_code
        (single_with (is_vector v1 && is_vector v2 && is_vector v3)
        (doublewords_row (number_of v1) (number_of v2) (number_of v3) first second)) }
{
    if first < 2 && second < 2 {
        let row = VectorOpcode {
            opcode: opcodes::VPDI,
            code: 4 * first + second,
        };
        Some(three_vectors(row, v1, v2, v3))
    } else {
        None
    }
}

// An immediate in each element.
fn replicate_immediate(size: u32, v1: Reg, imm: i16) -> Option<Result<Code, EmitError>>
    ensures { result
        ≡ single_code
        (single_with (is_vector v1)
        (replicate_row (element_code size) (number_of v1) (low_halfword imm))) }
{
    match element_code(size) {
        Some(code) => {
            let row = VectorOpcode {
                opcode: opcodes::VREPI,
                code,
            };
            Some(immediate_vector(row, v1, bits_of_halfword(imm)))
        }
        None => None,
    }
}

// Ones from a bit to another one in each element.
fn bit_mask_of(size: u32, v1: Reg, start: u8, end: u8) -> Option<Result<Code, EmitError>>
    ensures { result
        ≡ single_code
        (single_with (is_vector v1)
        (bit_mask_row (element_code size) size (number_of v1) start end)) }
{
    match element_code(size) {
        Some(code) => {
            if u32::from(start) < size && u32::from(end) < size {
                Some(bit_mask(code, v1, start, end))
            } else {
                None
            }
        }
        None => None,
    }
}

/// The code of a vector instruction that is one machine instruction; None for any other. `BadRegister` exactly where a register
/// isn't a real one of the row's class, or an input that has to be the output isn't it.
#[inline(always)]
pub fn encode_vector(inst: &VecInst) -> Option<Result<Code, EmitError>>
    ensures { result
        ≡ single_code (single_with (vector_operands_valid inst.now) (vector_row inst.now)) }
{
    rows! { inst,
        VecInst {
            VecRRR { op, rd, rn, rm } => Some(three_vectors(binary_row(*op), rd.to_reg(), *rn, *rm)),
        }
        _ => encode_any(inst),
    }
}

// The code of any of these instructions, in one match.
fn encode_any(inst: &VecInst) -> Option<Result<Code, EmitError>>
    ensures { result
        ≡ single_code (single_with (vector_operands_valid inst.now) (vector_row inst.now)) }
{
    rows! { inst,
        VecInst {
            VecRRR { op, rd, rn, rm } => Some(three_vectors(binary_row(*op), rd.to_reg(), *rn, *rm)),
            VecRR { op, rd, rn } => Some(two_vectors(unary_row(*op), rd.to_reg(), *rn)),
            VecSelect { rd, rn, rm, ra } => Some(four_vectors(opcodes::VSEL, rd.to_reg(), *rn, *rm, *ra)),
            VecPermute { rd, rn, rm, ra } => Some(four_vectors(opcodes::VPERM, rd.to_reg(), *rn, *rm, *ra)),
            VecBlend { rd, rn, rm, ra } => Some(blended_vectors(rd.to_reg(), *rn, *rm, *ra)),
            VecIntCmp { op, rd, rn, rm } => Some(compared_vectors(comparison_row(*op), rd.to_reg(), *rn, *rm, 0)),
            VecIntCmpS { op, rd, rn, rm } => Some(compared_vectors(comparison_row(*op), rd.to_reg(), *rn, *rm, 1)),
            VecIntEltCmp { op, rn, rm } => Some(two_vectors(element_comparison_row(*op), *rn, *rm)),
            VecMov { rd, rn } => Some(two_vectors(VectorOpcode { opcode: opcodes::VLR, code: 0 }, rd.to_reg(), *rn)),
            VecShiftRR { shift_op, rd, rn, shift_imm, shift_reg } =>
                Some(shifted(*shift_op, *rd, *rn, *shift_imm, *shift_reg)),
            VecEvaluate { imm, rd, rn, rm, ra } => Some(evaluated_vectors(low_byte(*imm), rd.to_reg(), *rn, *rm, *ra)),
            VecPermuteDWImm { rd, rn, rm, idx1, idx2 } => doublewords(rd.to_reg(), *rn, *rm, *idx1, *idx2),
            MovToVec128 { rd, rn, rm } => Some(joined_registers(rd.to_reg(), *rn, *rm)),
            VecImmByteMask { rd, mask } => Some(byte_mask(*rd, *mask)),
            VecImmReplicate { size, rd, imm } => replicate_immediate(*size, rd.to_reg(), *imm),
            VecImmBitMask { size, rd, start_bit, end_bit } => bit_mask_of(*size, rd.to_reg(), *start_bit, *end_bit),
            VecReplicateLane { size, rd, rn, lane_imm } => replicated_lane_of(*size, rd.to_reg(), *rn, *lane_imm),
            VecInsertLane { size, rd, ri, rn, lane_imm, lane_reg } =>
                lane_inserted_into(*size, rd.to_reg(), *ri, *rn, *lane_imm, *lane_reg),
            VecInsertLaneUndef { size, rd, rn, lane_imm, lane_reg } => lane_inserted(*size, rd.to_reg(), *rn, *lane_imm, *lane_reg),
            VecExtractLane { size, rd, rn, lane_imm, lane_reg } => lane_extracted(*size, rd.to_reg(), *rn, *lane_imm, *lane_reg),
            VecInsertLaneImm { size, rd, ri, imm, lane_imm } => inserted_into(*size, rd.to_reg(), *ri, *imm, *lane_imm),
            VecInsertLaneImmUndef { size, rd, imm, lane_imm } => insert_immediate(*size, rd.to_reg(), *imm, *lane_imm),
            FpuMove32 { rd, rn } => Some(moved_left(opcodes::LER, rd.to_reg(), *rn)),
            FpuMove64 { rd, rn } => Some(moved_left(opcodes::LDR, rd.to_reg(), *rn)),
        }
        _ => None,
    }
}

/// The code of the stop of a division; None where an instruction stops by no values.
pub fn stop_of(inst: &VecInst) -> Option<TrapCode>
    ensures { result ≡ vector_stop inst.now }
{
    if divides(inst) {
        Some(TrapCode::INTEGER_DIVISION_BY_ZERO)
    } else {
        None
    }
}

// Whether it divides, and may so stop by its values.
fn divides(inst: &VecInst) -> bool
    ensures { result ≡ divides inst.now }
{
    match inst {
        VecInst::VecRRR { op, .. } => is_division(*op),
        _ => false,
    }
}
