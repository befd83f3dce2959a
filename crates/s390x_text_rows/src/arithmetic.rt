//! The texts of operators on registers and immediates.
ghost use Rattle.std.specs.Prelude.{◌≡◌, ◌∷◌, [], Some, string_bytes};
ghost use Rattle.std.specs.Option.{option_map};
ghost use Rattle.s390x_typed_steps.specs.General.{rotation};
ghost use Rattle.s390x_job_fields.specs.Atoms.{reg_text};
ghost use Rattle.s390x_text_rows.specs.Texts.{Prints, PrintsWhere, fixed_text, instruction_text};
ghost use Rattle.s390x_text_rows.specs.Integer.{arithmetic_text, three_text, pair_instruction_text, pair_row, unary_operands, alu_part_name, alu_half_name, selected_name};
ghost use Rattle.s390x_text_rows.specs.Mnemonics.{unary_name, alu_three_name, alu_two_name};

use crate::error::TextError;
use crate::mnemonics::{
    alu_halfword_name, alu_signed_word_name, alu_two_name, alu_unsigned_word_name, rotate_name,
    rotate_test_name, shift_name, stem_where, unary_name,
};
use crate::operand::{Amount, Operand, Reused, ReusedLow, ReusedPair, RotatedBits};
use crate::regs::pair_refusal;
use crate::row::{fixed2, fixed3, row2, row3, spelled2, spelled3, three};
use s390x_base::{Reg, RegPair, Writable, WritableRegPair};
use s390x_inst::{ALUOp, Inst, UnaryOp, rows};
use s390x_typed_steps::{row_of_part, rows_of_alu};

// On a part of 16 bits.
fn alu_part_name(op: ALUOp, shift: u8) -> Option<&'static str>
    ensures { option_map (λ s. s.now) result ≡ alu_part_name op shift }
{
    stem_where(row_of_part(rows_of_alu(op).parts, shift))
}

// On a half of 32 bits.
fn alu_half_name(op: ALUOp, shift: u8) -> Option<&'static str>
    ensures { option_map (λ s. s.now) result ≡ alu_half_name op shift }
{
    stem_where(row_of_part(rows_of_alu(op).halves, shift))
}

// No row where a selected bit isn't below 64.
fn selected_name(name: Option<&'static str>, start: u8, end: u8) -> Option<&'static str>
    ensures { option_map (λ s. s.now) result
        ≡ selected_name (option_map (λ s. s.now) name.entry) start end }
{
    if start < 64 && end < 64 { name } else { None }
}

// How far bits are rotated to the left.
fn rotation(amount: i8) -> u8
    ensures { result ≡ rotation amount }
{
    i16::from(amount).rem_euclid(64) as u8
}

fn put_unary(out: &mut String, op: UnaryOp, rd: &Writable<Reg>, rn: &Reg) -> Result<(), TextError>
    ensures { Prints result (string_bytes out.old) (string_bytes out.new)
        (fixed_text (instruction_text (unary_name op) (unary_operands op rd.now rn.now))) }
{
    match op {
        UnaryOp::PopcntReg => fixed3(out, unary_name(op), rd, rn, &8u8),
        _ => fixed2(out, unary_name(op), rd, rn),
    }
}

/// Appends the text of an operator with an output and two inputs in registers.
#[inline(never)]
#[tactic(auto, unfolding(crate::specs::Mnemonics::alu_three_name, crate::specs::Mnemonics::alu_two_name))]
pub fn put_alu_three(
    out: &mut String,
    op: ALUOp,
    rd: &Writable<Reg>,
    rn: &Reg,
    rm: &Reg,
) -> Result<(), TextError>
    ensures { Prints result (string_bytes out.old) (string_bytes out.new)
        (three_text (alu_three_name op) (alu_two_name op) rd.now rn.now (reg_text rm.now)) }
{
    let rows = rows_of_alu(op);
    three(out, rows.three, rows.two, rd, rn, rm)
}

/// Appends the text of an operator on registers and immediates; None for another instruction.
#[inline(never)]
#[tactic(auto, unfolding(crate::specs::Mnemonics::alu_three_name, crate::specs::Mnemonics::alu_two_name, crate::specs::Mnemonics::alu_three_halfword_name, crate::specs::Mnemonics::alu_halfword_name))]
pub fn put_arithmetic(out: &mut String, inst: &Inst) -> Option<Result<(), TextError>>
    ensures { PrintsWhere result (string_bytes out.old) (string_bytes out.new)
        (arithmetic_text inst.now) }
{
    rows! { inst,
        Inst {
            AluRRR { alu_op, rd, rn, rm } => Some(put_alu_three(out, *alu_op, rd, rn, rm)),
            AluRRSImm16 { alu_op, rd, rn, imm } =>
                { let rows = rows_of_alu(*alu_op); Some(three(out, rows.three_halfword, rows.halfword, rd, rn, imm)) },
            AluRR { alu_op, rd, ri, rm } => Some(row2(out, alu_two_name(*alu_op), &reused_operand(rd, ri), rm)),
            AluRSImm16 { alu_op, rd, ri, imm } => Some(row2(out, alu_halfword_name(*alu_op), &reused_operand(rd, ri), imm)),
            AluRSImm32 { alu_op, rd, ri, imm } => Some(row2(out, alu_signed_word_name(*alu_op), &reused_operand(rd, ri), imm)),
            AluRUImm32 { alu_op, rd, ri, imm } => Some(row2(out, alu_unsigned_word_name(*alu_op), &reused_operand(rd, ri), imm)),
            AluRUImm16Shifted { alu_op, rd, ri, imm } =>
                Some(row2(out, alu_part_name(*alu_op, imm.shift), &reused_operand(rd, ri), imm)),
            AluRUImm32Shifted { alu_op, rd, ri, imm } =>
                Some(row2(out, alu_half_name(*alu_op, imm.shift), &reused_operand(rd, ri), imm)),
            UnaryRR { op, rd, rn } => Some(put_unary(out, *op, rd, rn)),
            ShiftRR { shift_op, rd, rn, shift_imm, shift_reg } =>
                Some(fixed3(out, shift_name(*shift_op), rd, rn, &Amount { imm: *shift_imm, reg: *shift_reg })),
            RxSBG { op, rd, ri, rn, start_bit, end_bit, rotate_amt } =>
                Some(row3(out, selected_name(Some(rotate_name(*op)), *start_bit, *end_bit), &reused_operand(rd, ri), rn,
                    &RotatedBits { start: u16::from(*start_bit), end: *end_bit, amount: rotation(*rotate_amt) })),
            RxSBGTest { op, rd, rn, start_bit, end_bit, rotate_amt } =>
                Some(row3(out, selected_name(rotate_test_name(*op), *start_bit, *end_bit), rd, rn,
                    &RotatedBits { start: u16::from(*start_bit) + 128, end: *end_bit, amount: rotation(*rotate_amt) })),
        }
        _ => None,
    }
}

/// An output that is also an input, as one operand.
pub fn reused_operand(rd: &Writable<Reg>, ri: &Reg) -> Reused
    ensures { result ≡ record { rd = rd.now; ri = ri.now } }
{
    Reused {
        rd: rd.to_reg(),
        ri: *ri,
    }
}

// A pair whose second register is also an input, as one operand.
fn reused_low(rd: &WritableRegPair, ri: &Reg) -> ReusedLow
    ensures { result ≡ record { rd = record { hi = rd.now.hi; lo = rd.now.lo }; ri = ri.now } }
{
    ReusedLow {
        rd: rd.to_regpair(),
        ri: *ri,
    }
}

// A pair that is also an input, as one operand.
fn reused_pair(rd: &WritableRegPair, ri: &RegPair) -> ReusedPair
    ensures { result ≡ record { rd = record { hi = rd.now.hi; lo = rd.now.lo }; ri = ri.now } }
{
    ReusedPair {
        rd: rd.to_regpair(),
        ri: *ri,
    }
}

fn pair_row2<A: Operand>(
    out: &mut String,
    mnemonic: &str,
    rd: &WritableRegPair,
    a: &A,
) -> Result<(), TextError>
    ensures { Prints result (string_bytes out.old) (string_bytes out.new)
        (pair_row mnemonic.now rd.now (A.shown a.now ∷ [])) }
{
    let pair = rd.to_regpair();
    match pair_refusal(pair) {
        Some(error) => Err(error),
        None => Ok(spelled2(out, mnemonic, &pair, a)?),
    }
}

fn pair_row3<A: Operand, B: Operand>(
    out: &mut String,
    mnemonic: &str,
    rd: &WritableRegPair,
    a: &A,
    b: &B,
) -> Result<(), TextError>
    ensures { Prints result (string_bytes out.old) (string_bytes out.new)
        (pair_row mnemonic.now rd.now (A.shown a.now ∷ B.shown b.now ∷ [])) }
{
    let pair = rd.to_regpair();
    match pair_refusal(pair) {
        Some(error) => Err(error),
        None => Ok(spelled3(out, mnemonic, &pair, a, b)?),
    }
}

/// Appends the text of an instruction whose output is a pair; None for another one.
pub fn put_pair_instruction(out: &mut String, inst: &Inst) -> Option<Result<(), TextError>>
    ensures { PrintsWhere result (string_bytes out.old) (string_bytes out.new)
        (pair_instruction_text inst.now) }
{
    rows! { inst,
        Inst {
            SMulWide { rd, rn, rm } => Some(pair_row3(out, "mgrk", rd, rn, rm)),
            UMulWide { rd, ri, rn } => Some(fixed2(out, "mlgr", &reused_low(rd, ri), rn)),
            SDivMod32 { rd, ri, rn } => Some(fixed2(out, "dsgfr", &reused_low(rd, ri), rn)),
            SDivMod64 { rd, ri, rn } => Some(fixed2(out, "dsgr", &reused_low(rd, ri), rn)),
            UDivMod32 { rd, ri, rn } => Some(fixed2(out, "dlr", &reused_pair(rd, ri), rn)),
            UDivMod64 { rd, ri, rn } => Some(fixed2(out, "dlgr", &reused_pair(rd, ri), rn)),
            Flogr { rd, rn } => Some(pair_row2(out, "flogr", rd, rn)),
        }
        _ => None,
    }
}
