//! Instructions that are one machine instruction on registers and immediates.
#![tactic(auto, using(crate::proofs::Encoding::alu_two_general, crate::proofs::Encoding::cmp_two_general))]

ghost use Rattle.std.specs.Prelude.{◌≡◌};
ghost use Rattle.s390x_typed_steps.specs.SingleCode.{single_code};
ghost use Rattle.s390x_typed_steps.specs.SingleInstruction.{single_instruction};

use crate::arithmetic::{
    compare_halfword_opcode, compare_opcode, compare_signed_word_opcode,
    compare_unsigned_word_opcode, encode_allocate, encode_rri, encode_rrr, encode_unary,
    halfword_opcode, signed_word_opcode, two_opcode, unsigned_word_opcode,
};
use crate::bits::{
    half_opcode, pair_row, part_opcode, product_row, reused_low_row, rotated_row, shift, tested_row,
};
use crate::codes::BitRange;
use crate::encode::{
    encode_ri, encode_ri_into, encode_ri_reused, encode_ril, encode_ril_into, encode_ril_reused,
    encode_rr, encode_rr_into, encode_rr_reused,
};
use crate::moves::{
    branch_nowhere, conditional_doubleword, conditional_row, conditional_word, extend_opcode,
    indexed_opcode, indexed_row, insert_access_row, insert_half, insert_part, load_access_row,
    load_half, load_part, logical_indexed_opcode, set_doubleword, set_short_doubleword,
    set_short_word, set_word,
};
use crate::trapping::{
    compare_opcode as trap_opcode, compare_signed_opcode as trap_signed_opcode,
    compare_unsigned_opcode as trap_unsigned_opcode, encode_masked, encode_masked_ri,
    encode_reused_pair,
};
use s390x_base::{Code, EmitError, Reg};
use s390x_emit_vec::encode_vector;
use s390x_inst::{Inst, rows};
use s390x_rows::opcodes;
use s390x_typed_steps::{
    bits_of_halfword, bits_of_unsigned, bits_of_unsigned_halfword, bits_of_word,
};

/// The code of the one machine instruction of an instruction that is one, or `BadRegister` where its registers may not stand there: real general
/// ones, and the input that has to be the output is it.
///
/// What it calls takes references and small values alone, so that little has to be made ready for an instruction that is none of these.
pub fn encode_single(inst: &Inst) -> Option<Result<Code, EmitError>>
    ensures { result ≡ single_code (single_instruction inst.now) }
{
    rows! { inst,
        Inst {
            AluRRR { alu_op, rd, rn, rm } => encode_rrr(*alu_op, rd, rn, rm),
            AluRR { alu_op, rd, ri, rm } => encode_rr_reused(two_opcode(*alu_op), rd, ri, rm),
            UnaryRR { op, rd, rn } => encode_unary(*op, rd, rn),
            CmpRR { op, rn, rm } => encode_rr(compare_opcode(*op), rn, rm),
            AluRRSImm16 { alu_op, rd, rn, imm } => encode_rri(*alu_op, rd, rn, *imm),
            AluRSImm16 { alu_op, rd, ri, imm } => encode_ri_reused(halfword_opcode(*alu_op), rd, ri, bits_of_halfword(*imm)),
            AluRSImm32 { alu_op, rd, ri, imm } => encode_ril_reused(signed_word_opcode(*alu_op), rd, ri, bits_of_word(*imm)),
            AluRUImm32 { alu_op, rd, ri, imm } => encode_ril_reused(unsigned_word_opcode(*alu_op), rd, ri, bits_of_unsigned(*imm)),
            CmpRSImm16 { op, rn, imm } => encode_ri(compare_halfword_opcode(*op), rn, bits_of_halfword(*imm)),
            CmpRSImm32 { op, rn, imm } => encode_ril(compare_signed_word_opcode(*op), rn, bits_of_word(*imm)),
            CmpRUImm32 { op, rn, imm } => encode_ril(compare_unsigned_word_opcode(*op), rn, bits_of_unsigned(*imm)),
            AllocateArgs { size } => encode_allocate(*size),
            AluRUImm16Shifted { alu_op, rd, ri, imm } =>
                encode_ri_reused(part_opcode(*alu_op, imm.shift), rd, ri, bits_of_unsigned_halfword(imm.bits)),
            AluRUImm32Shifted { alu_op, rd, ri, imm } =>
                encode_ril_reused(half_opcode(*alu_op, imm.shift), rd, ri, bits_of_unsigned(imm.bits)),
            ShiftRR { shift_op, rd, rn, shift_imm, shift_reg } => shift(*shift_op, rd, rn, *shift_imm, shift_reg),
            RxSBG { op, rd, ri, rn, start_bit, end_bit, rotate_amt } =>
                rotated_row(*op, rd, ri, rn, BitRange { start: *start_bit, end: *end_bit }, *rotate_amt),
            RxSBGTest { op, rd, rn, start_bit, end_bit, rotate_amt } =>
                tested_row(*op, rd, rn, BitRange { start: *start_bit, end: *end_bit }, *rotate_amt),
            SMulWide { rd, rn, rm } => product_row(rd, rn, rm),
            UMulWide { rd, ri, rn } => reused_low_row(opcodes::MLGR, rd, ri, rn),
            Flogr { rd, rn } => pair_row(opcodes::FLOGR, rd, rn),
            Mov64 { rd, rm } => encode_rr_into(Some(opcodes::LGR), rd, rm),
            MovPReg { rd, rm } => encode_rr_into(Some(opcodes::LGR), rd, &Reg::Real(*rm)),
            Mov32 { rd, rm } => encode_rr_into(Some(opcodes::LR), rd, rm),
            Mov32Imm { rd, imm } => set_word(rd, *imm),
            Mov32SImm16 { rd, imm } => set_short_word(rd, imm),
            Mov64SImm16 { rd, imm } => set_short_doubleword(rd, imm),
            Mov64SImm32 { rd, imm } => set_doubleword(rd, imm),
            Mov64UImm16Shifted { rd, imm } => encode_ri_into(load_part(imm.shift), rd, bits_of_unsigned_halfword(imm.bits)),
            Mov64UImm32Shifted { rd, imm } => encode_ril_into(load_half(imm.shift), rd, bits_of_unsigned(imm.bits)),
            Insert64UImm16Shifted { rd, ri, imm } =>
                encode_ri_reused(insert_part(imm.shift), rd, ri, bits_of_unsigned_halfword(imm.bits)),
            Insert64UImm32Shifted { rd, ri, imm } => encode_ril_reused(insert_half(imm.shift), rd, ri, bits_of_unsigned(imm.bits)),
            CMov32 { rd, cond, ri, rm } => conditional_row(opcodes::LOCR, rd, ri, rm, *cond),
            CMov64 { rd, cond, ri, rm } => conditional_row(opcodes::LOCGR, rd, ri, rm, *cond),
            CMov32SImm16 { rd, cond, ri, imm } => conditional_word(rd, *cond, ri, imm),
            CMov64SImm16 { rd, cond, ri, imm } => conditional_doubleword(rd, *cond, ri, imm),
            Extend { rd, rn, signed, from_bits, to_bits } => encode_rr_into(extend_opcode(*signed, *from_bits, *to_bits), rd, rn),
            LoadAR { rd, ar } => load_access_row(rd, *ar),
            InsertAR { rd, ri, ar } => insert_access_row(rd, ri, *ar),
            LoadIndexedAddr { rd, base, index, offset, size } => indexed_row(indexed_opcode(*size), rd, base, index, *offset),
            LoadLogicalIndexedAddr { rd, base, index, offset, size } =>
                indexed_row(logical_indexed_opcode(*size), rd, base, index, *offset),
            SDivMod32 { rd, ri, rn } => reused_low_row(opcodes::DSGFR, rd, ri, rn),
            SDivMod64 { rd, ri, rn } => reused_low_row(opcodes::DSGR, rd, ri, rn),
            UDivMod32 { rd, ri, rn } => encode_reused_pair(opcodes::DLR, rd, ri, rn),
            UDivMod64 { rd, ri, rn } => encode_reused_pair(opcodes::DLGR, rd, ri, rn),
            CmpTrapRR { op, rn, rm, cond, .. } => encode_masked(trap_opcode(*op), rn, rm, *cond),
            CmpTrapRSImm16 { op, rn, imm, cond, .. } =>
                encode_masked_ri(trap_signed_opcode(*op), rn, bits_of_halfword(*imm), *cond),
            CmpTrapRUImm16 { op, rn, imm, cond, .. } =>
                encode_masked_ri(trap_unsigned_opcode(*op), rn, bits_of_unsigned_halfword(*imm), *cond),
        }
        Inst::Fence => branch_nowhere(14, 0),
        Inst::Nop2 => branch_nowhere(0, 7),
        Inst::Vector(inst) => encode_vector(inst),
        _ => None,
    }
}
