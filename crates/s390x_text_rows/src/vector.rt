//! The texts of operators, moves and lanes of vector and float registers.
ghost use Rattle.std.specs.Prelude.{◌≡◌, ◌++◌, ◌∷◌, [], codes, cond, OnOk, string_bytes};
ghost use Rattle.std.specs.Fmt.{decimal};
ghost use Rattle.std.specs.Option.{option_map};
ghost use Rattle.s390x_format.specs.Stems.{stem_of};
ghost use Rattle.s390x_job_fields.specs.Atoms.{reg_text};
ghost use Rattle.s390x_text_rows.specs.Texts.{Prints, PrintsWhere, instruction_text, fixed_text};
ghost use Rattle.s390x_text_rows.specs.Operands.{reused_text};
ghost use Rattle.s390x_text_rows.specs.VectorMnemonics.{vec_binary_name, vec_compare_set_name};
ghost use Rattle.s390x_text_rows.specs.Vector.{lane_name, reversed_name, mask_name, vec_binary_operands, doublewords_text, wide_compare_text, are_floats, float_move_text, unless_text, float_cmov_text, is_float_lane, reverse2_text, reverse4_text, reverse8_text, reverse16_text, reverse_text, insert_lane_text, extract_lane_text, vec_operator_text, vec_move_text, vec_lane_text};

use crate::arithmetic::reused_operand;
use crate::error::TextError;
use crate::operand::{Amount, Float, Operand, Reused, cond_name, is_zero};
use crate::piece::put;
use crate::regs::is_float;
use crate::row::{
    fixed2, fixed3, lettered2, lettered3, lettered4, row2, row3, spelled2, spelled3, spelled4,
    text_result,
};
use crate::vector_mnemonics::{
    put_letters, vec_binary_name, vec_compare_name, vec_element_compare_name, vec_shift_name,
    vec_unary_name,
};
use s390x_base::{Cond, Reg, Writable};
use s390x_format::stem;
use s390x_inst::{VecBinaryOp, VecInst, VecIntCmpOp, rows};
use std::alloc::AllocError;

/// By the width of a lane in bits: 8, 16, 32 or 64; None for another width, or where the lane's number isn't below the count of lanes.
pub fn lane_name(
    b: &'static str,
    h: &'static str,
    f: &'static str,
    g: &'static str,
    size: u32,
    lane: u8,
) -> Option<&'static str>
    ensures { option_map (λ s. s.now) result ≡ lane_name b.now h.now f.now g.now size lane }
{
    if size == 8 && lane < 16 {
        return Some(b);
    }
    if size == 16 && lane < 8 {
        return Some(h);
    }
    if size == 32 && lane < 4 {
        return Some(f);
    }
    if size == 64 && lane < 2 {
        Some(g)
    } else {
        None
    }
}

/// The row of a lane by its width in bits: 8, 16, 32 or 64; None for another width, or where the lane's number isn't below the count of lanes.
pub fn lane_row(b: u16, h: u16, f: u16, g: u16, size: u32, lane: u8) -> Option<u16>
    ensures { option_map stem_of result
        ≡ lane_name (stem_of b) (stem_of h) (stem_of f) (stem_of g) size lane }
{
    if size == 8 && lane < 16 {
        return Some(b);
    }
    if size == 16 && lane < 8 {
        return Some(h);
    }
    if size == 32 && lane < 4 {
        return Some(f);
    }
    if size == 64 && lane < 2 {
        Some(g)
    } else {
        None
    }
}

/// The row of a lane by its width in bits from 16 on, where bytes are reversed.
pub fn reversed_row(h: u16, f: u16, g: u16, size: u32, lane: u8) -> Option<u16>
    ensures { option_map stem_of result
        ≡ reversed_name (stem_of h) (stem_of f) (stem_of g) size lane }
{
    if size == 16 && lane < 8 {
        return Some(h);
    }
    if size == 32 && lane < 4 {
        return Some(f);
    }
    if size == 64 && lane < 2 {
        Some(g)
    } else {
        None
    }
}

// Both bit numbers lie below the width.
fn mask_name(size: u32, start: u8, end: u8) -> Option<&'static str>
    ensures { option_map (λ s. s.now) result ≡ mask_name size start end }
{
    if u32::from(start) < size && u32::from(end) < size {
        lane_name("vgmb", "vgmh", "vgmf", "vgmg", size, 0)
    } else {
        None
    }
}

fn put_binary(
    out: &mut String,
    op: VecBinaryOp,
    rd: &Writable<Reg>,
    rn: &Reg,
    rm: &Reg,
) -> Result<(), AllocError>
    ensures { OnOk result
        (string_bytes out.new
        ≡ string_bytes out.old
        ++ instruction_text (vec_binary_name op) (vec_binary_operands op rd.now rn.now rm.now)) }
{
    match op {
        VecBinaryOp::UDiv32x4
        | VecBinaryOp::UDiv64x2
        | VecBinaryOp::UDiv128
        | VecBinaryOp::SDiv32x4
        | VecBinaryOp::SDiv64x2
        | VecBinaryOp::SDiv128
        | VecBinaryOp::URem32x4
        | VecBinaryOp::URem64x2
        | VecBinaryOp::URem128
        | VecBinaryOp::SRem32x4
        | VecBinaryOp::SRem64x2
        | VecBinaryOp::SRem128 => lettered4(out, vec_binary_name(op), rd, rn, rm, &0u8),
        _ => lettered3(out, vec_binary_name(op), rd, rn, rm),
    }
}

/// Appends the text of an operator on two vectors.
pub fn put_vec_binary(
    out: &mut String,
    op: VecBinaryOp,
    rd: &Writable<Reg>,
    rn: &Reg,
    rm: &Reg,
) -> Result<(), TextError>
    ensures { Prints result (string_bytes out.old) (string_bytes out.new)
        (fixed_text
        (instruction_text (vec_binary_name op)
        (vec_binary_operands op rd.now rn.now rm.now))) }
{
    Ok(put_binary(out, op, rd, rn, rm)?)
}

// Doublewords are chosen by 0 or 1.
fn put_doublewords(
    out: &mut String,
    rd: Reg,
    rn: Reg,
    rm: Reg,
    idx1: u8,
    idx2: u8,
) -> Result<(), TextError>
    ensures { Prints result (string_bytes out.old) (string_bytes out.new)
        (doublewords_text rd rn rm idx1 idx2) }
{
    if idx1 < 2 && idx2 < 2 {
        text_result(spelled4(out, "vpdi", &rd, &rn, &rm, &(4 * idx1 + idx2)))
    } else {
        Err(TextError::NoRow)
    }
}

// Any operator on the bits of three vectors.
fn put_evaluate(
    out: &mut String,
    rd: Reg,
    rn: Reg,
    rm: Reg,
    ra: Reg,
    imm: u8,
) -> Result<(), AllocError>
    ensures { OnOk result
        (string_bytes out.new
        ≡ string_bytes out.old
        ++ instruction_text (codes "veval")
        (reg_text rd ∷ reg_text rn ∷ reg_text rm ∷ reg_text ra ∷ decimal imm ∷ [])) }
{
    spelled4(out, "veval", &rd, &rn, &rm, &ra)?;
    put(out, ", ")?;
    imm.put(out)
}

// A comparison of lanes that sets the condition code.
fn put_compare_set(
    out: &mut String,
    op: VecIntCmpOp,
    rd: Reg,
    rn: Reg,
    rm: Reg,
) -> Result<(), AllocError>
    ensures { OnOk result
        (string_bytes out.new
        ≡ string_bytes out.old
        ++ instruction_text (vec_compare_set_name op)
        (reg_text rd ∷ reg_text rn ∷ reg_text rm ∷ [])) }
{
    let name = vec_compare_name(op);
    put(out, stem(name.opcode))?;
    put_letters(out, name.letters)?;
    spelled3(out, "s", &rd, &rn, &rm)
}

// A comparison of two numbers of 128 bits.
fn put_wide_compare(
    out: &mut String,
    name: &str,
    tmp: Reg,
    rn: Reg,
    rm: Reg,
) -> Result<(), AllocError>
    ensures { OnOk result
        (string_bytes out.new ≡ string_bytes out.old ++ wide_compare_text name.now tmp rn rm) }
{
    spelled2(out, name, &rm, &rn)?;
    put(out, " ; jne 10 ; ")?;
    spelled3(out, "vchlgs", &tmp, &rn, &rm)
}

/// Appends the text of an operator on vectors; None for another instruction.
pub fn put_vec_operator(out: &mut String, inst: &VecInst) -> Option<Result<(), TextError>>
    ensures { PrintsWhere result (string_bytes out.old) (string_bytes out.new)
        (vec_operator_text inst.now) }
{
    rows! { inst,
        VecInst {
            VecRRR { op, rd, rn, rm } => Some(put_vec_binary(out, *op, rd, rn, rm)),
            VecRR { op, rd, rn } => Some(text_result(lettered2(out, vec_unary_name(*op), rd, rn))),
            VecShiftRR { shift_op, rd, rn, shift_imm, shift_reg } =>
                Some(text_result(lettered3(out, vec_shift_name(*shift_op), rd, rn, &Amount { imm: *shift_imm, reg: *shift_reg }))),
            VecSelect { rd, rn, rm, ra } => Some(text_result(spelled4(out, "vsel", rd, rn, rm, ra))),
            VecPermute { rd, rn, rm, ra } => Some(text_result(spelled4(out, "vperm", rd, rn, rm, ra))),
            VecBlend { rd, rn, rm, ra } => Some(text_result(spelled4(out, "vblend", rd, rn, rm, ra))),
            VecEvaluate { imm, rd, rn, rm, ra } => Some(text_result(put_evaluate(out, rd.to_reg(), *rn, *rm, *ra, *imm))),
            VecPermuteDWImm { rd, rn, rm, idx1, idx2 } => Some(put_doublewords(out, rd.to_reg(), *rn, *rm, *idx1, *idx2)),
            VecIntCmp { op, rd, rn, rm } => Some(text_result(lettered3(out, vec_compare_name(*op), rd, rn, rm))),
            VecIntCmpS { op, rd, rn, rm } => Some(text_result(put_compare_set(out, *op, rd.to_reg(), *rn, *rm))),
            VecIntEltCmp { op, rn, rm } => Some(text_result(lettered2(out, vec_element_compare_name(*op), rn, rm))),
            VecInt128SCmpHi { tmp, rn, rm } => Some(text_result(put_wide_compare(out, "vecg", tmp.to_reg(), *rn, *rm))),
            VecInt128UCmpHi { tmp, rn, rm } => Some(text_result(put_wide_compare(out, "veclg", tmp.to_reg(), *rn, *rm))),
        }
        _ => None,
    }
}

// Whether both registers are float registers.
fn are_floats(r: &Reg, s: &Reg) -> bool
    ensures { result ≡ are_floats r.now s.now }
{
    is_float(r) && is_float(s)
}

// A move of float registers, or of whole ones.
fn put_float_move(out: &mut String, name: &str, rd: &Reg, rn: &Reg) -> Result<(), AllocError>
    ensures { OnOk result
        (string_bytes out.new ≡ string_bytes out.old ++ float_move_text name.now rd.now rn.now) }
{
    if are_floats(rd, rn) {
        spelled2(out, name, &Float(*rd), &Float(*rn))
    } else {
        spelled2(out, "vlr", rd, rn)
    }
}

// A branch over what follows, where a condition doesn't hold.
fn put_unless(out: &mut String, cond: Cond, over: &str) -> Result<(), AllocError>
    ensures { OnOk result
        (string_bytes out.new ≡ string_bytes out.old ++ unless_text cond over.now) }
{
    put(out, "j")?;
    put(out, cond_name(cond.invert()))?;
    put(out, " ")?;
    put(out, over)?;
    put(out, " ; ")
}

// How far a branch goes over a move of float registers, or of whole ones.
fn move_end(rd: &Reg, rm: &Reg) -> &'static str
    ensures { result.now ≡ cond (are_floats rd.now rm.now) (codes "6") (codes "10") }
{
    if are_floats(rd, rm) { "6" } else { "10" }
}

// A move where a condition holds.
fn put_float_cmov(
    out: &mut String,
    name: &str,
    rd: &Reg,
    cond: Cond,
    rm: &Reg,
) -> Result<(), AllocError>
    ensures { OnOk result
        (string_bytes out.new
        ≡ string_bytes out.old ++ float_cmov_text name.now rd.now cond rm.now) }
{
    put_unless(out, cond, move_end(rd, rm))?;
    put_float_move(out, name, rd, rm)
}

fn put_vec_cmov(out: &mut String, operand: &Reused, cond: Cond, rm: Reg) -> Result<(), AllocError>
    ensures { OnOk result
        (string_bytes out.new
        ≡ string_bytes out.old
        ++ (unless_text cond (codes "10")
        ++ instruction_text (codes "vlr")
        (reused_text operand.now.rd operand.now.ri ∷ reg_text rm ∷ []))) }
{
    put_unless(out, cond, "10")?;
    spelled2(out, "vlr", operand, &rm)
}

/// Appends the text of a move of vector or float registers, or of an immediate; None for another instruction.
pub fn put_vec_move(out: &mut String, inst: &VecInst) -> Option<Result<(), TextError>>
    ensures { PrintsWhere result (string_bytes out.old) (string_bytes out.new)
        (vec_move_text inst.now) }
{
    rows! { inst,
        VecInst {
            VecMov { rd, rn } => Some(fixed2(out, "vlr", rd, rn)),
            FpuMove32 { rd, rn } => Some(text_result(put_float_move(out, "ler", &rd.to_reg(), rn))),
            FpuMove64 { rd, rn } => Some(text_result(put_float_move(out, "ldr", &rd.to_reg(), rn))),
            FpuCMov32 { rd, cond, rm, .. } => Some(text_result(put_float_cmov(out, "ler", &rd.to_reg(), *cond, rm))),
            FpuCMov64 { rd, cond, rm, .. } => Some(text_result(put_float_cmov(out, "ldr", &rd.to_reg(), *cond, rm))),
            VecCMov { rd, cond, ri, rm } => Some(text_result(put_vec_cmov(out, &reused_operand(rd, ri), *cond, *rm))),
            MovToVec128 { rd, rn, rm } => Some(fixed3(out, "vlvgp", rd, rn, rm)),
            VecImmByteMask { rd, mask } => Some(fixed2(out, "vgbm", rd, mask)),
            VecImmBitMask { size, rd, start_bit, end_bit } =>
                Some(row3(out, mask_name(*size, *start_bit, *end_bit), rd, start_bit, end_bit)),
            VecImmReplicate { size, rd, imm } =>
                Some(row2(out, lane_name("vrepib", "vrepih", "vrepif", "vrepig", *size, 0), rd, imm)),
        }
        _ => None,
    }
}

// Lane 0 of 64 bits of a float register, where no register is added to the lane.
fn is_float_lane(size: u32, r: &Reg, lane: &Amount) -> bool
    ensures { result ≡ is_float_lane size r.now lane.now.imm lane.now.reg }
{
    size == 64 && lane.imm == 0 && is_zero(&lane.reg) && is_float(r)
}

// A general register into a lane, where the other lanes may change.
fn put_insert_lane(
    out: &mut String,
    size: u32,
    rd: Reg,
    rn: Reg,
    lane: &Amount,
) -> Result<(), TextError>
    ensures { Prints result (string_bytes out.old) (string_bytes out.new)
        (insert_lane_text size rd rn lane.now.imm lane.now.reg) }
{
    if is_float_lane(size, &rd, lane) {
        fixed2(out, "ldgr", &Float(rd), &rn)
    } else {
        row3(
            out,
            lane_name("vlvgb", "vlvgh", "vlvgf", "vlvgg", size, lane.imm),
            &rd,
            &rn,
            lane,
        )
    }
}

// A lane into a general register.
fn put_extract_lane(
    out: &mut String,
    size: u32,
    rd: Reg,
    rn: Reg,
    lane: &Amount,
) -> Result<(), TextError>
    ensures { Prints result (string_bytes out.old) (string_bytes out.new)
        (extract_lane_text size rd rn lane.now.imm lane.now.reg) }
{
    if is_float_lane(size, &rn, lane) {
        fixed2(out, "lgdr", &rd, &Float(rn))
    } else {
        row3(
            out,
            lane_name("vlgvb", "vlgvh", "vlgvf", "vlgvg", size, lane.imm),
            &rd,
            &rn,
            lane,
        )
    }
}

fn put_reverse2(out: &mut String, rd: Reg, rn: Reg) -> Result<(), AllocError>
    ensures { OnOk result (string_bytes out.new ≡ string_bytes out.old ++ reverse2_text rd rn) }
{
    spelled4(out, "vpdi", &rd, &rn, &rn, &4u8)
}

fn put_reverse4(out: &mut String, rd: Reg, rn: Reg) -> Result<(), AllocError>
    ensures { OnOk result (string_bytes out.new ≡ string_bytes out.old ++ reverse4_text rd rn) }
{
    put_reverse2(out, rd, rn)?;
    put(out, " ; ")?;
    spelled3(out, "verllg", &rd, &rd, &32u8)
}

fn put_reverse8(out: &mut String, rd: Reg, rn: Reg) -> Result<(), AllocError>
    ensures { OnOk result (string_bytes out.new ≡ string_bytes out.old ++ reverse8_text rd rn) }
{
    put_reverse4(out, rd, rn)?;
    put(out, " ; ")?;
    spelled3(out, "verllf", &rd, &rd, &16u8)
}

fn put_reverse16(out: &mut String, rd: Reg, rn: Reg) -> Result<(), AllocError>
    ensures { OnOk result (string_bytes out.new ≡ string_bytes out.old ++ reverse16_text rd rn) }
{
    put_reverse8(out, rd, rn)?;
    put(out, " ; ")?;
    spelled3(out, "verllh", &rd, &rd, &8u8)
}

// Lanes in reverse order, by their count.
fn put_reverse(out: &mut String, rd: Reg, rn: Reg, count: u64) -> Result<(), TextError>
    ensures { Prints result (string_bytes out.old) (string_bytes out.new)
        (reverse_text rd rn count) }
{
    match count {
        2 => text_result(put_reverse2(out, rd, rn)),
        4 => text_result(put_reverse4(out, rd, rn)),
        8 => text_result(put_reverse8(out, rd, rn)),
        16 => text_result(put_reverse16(out, rd, rn)),
        _ => Err(TextError::NoRow),
    }
}

// A lane, and the register that is added to it.
fn amount(imm: &u8, reg: &Reg) -> Amount
    ensures { result ≡ record { imm = imm.now; reg = reg.now } }
{
    Amount {
        imm: *imm,
        reg: *reg,
    }
}

/// Appends the text of an instruction on a lane of registers; None for another one.
pub fn put_vec_lane(out: &mut String, inst: &VecInst) -> Option<Result<(), TextError>>
    ensures { PrintsWhere result (string_bytes out.old) (string_bytes out.new)
        (vec_lane_text inst.now) }
{
    rows! { inst,
        VecInst {
            VecInsertLane { size, rd, ri, rn, lane_imm, lane_reg } =>
                Some(row3(out, lane_name("vlvgb", "vlvgh", "vlvgf", "vlvgg", *size, *lane_imm), &reused_operand(rd, ri), rn,
                    &amount(lane_imm, lane_reg))),
            VecInsertLaneUndef { size, rd, rn, lane_imm, lane_reg } =>
                Some(put_insert_lane(out, *size, rd.to_reg(), *rn, &amount(lane_imm, lane_reg))),
            VecExtractLane { size, rd, rn, lane_imm, lane_reg } =>
                Some(put_extract_lane(out, *size, rd.to_reg(), *rn, &amount(lane_imm, lane_reg))),
            VecInsertLaneImm { size, rd, ri, imm, lane_imm } =>
                Some(row3(out, lane_name("vleib", "vleih", "vleif", "vleig", *size, *lane_imm), &reused_operand(rd, ri), imm, lane_imm)),
            VecInsertLaneImmUndef { size, rd, imm, lane_imm } =>
                Some(row3(out, lane_name("vleib", "vleih", "vleif", "vleig", *size, *lane_imm), rd, imm, lane_imm)),
            VecReplicateLane { size, rd, rn, lane_imm } =>
                Some(row3(out, lane_name("vrepb", "vreph", "vrepf", "vrepg", *size, *lane_imm), rd, rn, lane_imm)),
            VecEltRev { lane_count, rd, rn } => Some(put_reverse(out, rd.to_reg(), *rn, *lane_count)),
        }
        _ => None,
    }
}
