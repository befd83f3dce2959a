//! Divisions and comparisons that trap: one machine instruction each, whose stop has a code.
ghost use Rattle.std.specs.Prelude.{◌≡◌, ◌&&◌, true, Some};
ghost use Rattle.s390x_base.specs.Regs.{number_of};
ghost use Rattle.s390x_typed_steps.specs.General.{is_general, is_even_pair, reuses_pair, four_bits};
ghost use Rattle.s390x_typed_steps.specs.Opcodes.{cmp_trap, cmp_trap_signed, cmp_trap_unsigned};
ghost use Rattle.s390x_typed_steps.specs.SingleCode.{code_where, single_code};
ghost use Rattle.s390x_typed_steps.specs.SingleInstruction.{single_with, stop_code, two_operands, masked_row, masked_halfword_row};
ghost use Rattle.s390x_emit_rows.specs.SingleInstruction.{takes_general};

use crate::codes::{masked_code, masked_halfword, two_operands};
use crate::registers::{is_even_pair, is_reused_pair, two_general};
use s390x_address::general;
use s390x_base::{Code, Cond, EmitError, Reg, RegPair, TrapCode, WritableRegPair};
use s390x_emit_vec::stop_of;
use s390x_inst::{CmpOp, Inst};
use s390x_typed_steps::rows_of_cmp;

/// The opcodes of a comparison that traps, by what its second operand is.
pub fn compare_opcode(op: CmpOp) -> Option<u16>
    ensures { result ≡ cmp_trap op }
{
    rows_of_cmp(op).trap
}

/// The opcode of a comparison with a signed immediate that traps (RIE). None where it has none.
pub fn compare_signed_opcode(op: CmpOp) -> Option<u16>
    ensures { result ≡ cmp_trap_signed op }
{
    rows_of_cmp(op).trap_signed
}

/// The opcode of a comparison with an unsigned immediate that traps (RIE). None where it has none.
pub fn compare_unsigned_opcode(op: CmpOp) -> Option<u16>
    ensures { result ≡ cmp_trap_unsigned op }
{
    rows_of_cmp(op).trap_unsigned
}

/// A comparison of two registers that traps, where there is a row. None where there is no row; `BadRegister` comes
/// where a register is not general, or an input that has to be the output isn't it.
#[tactic(auto, using(crate::proofs::Encoding::itself))]
pub fn encode_masked(
    opcode: Option<u16>,
    rn: &Reg,
    rm: &Reg,
    cond: Cond,
) -> Option<Result<Code, EmitError>>
    ensures { result
        ≡ single_code
        (single_with (is_general rn.now && is_general rm.now)
        (masked_row opcode (number_of rn.now) (number_of rm.now) (four_bits cond))) }
{
    match opcode {
        Some(opcode) => Some(masked_code(two_general(rn, rm), opcode, *rn, *rm, cond.bits())),
        None => None,
    }
}

/// A comparison of a register and an immediate that traps, where there is a row. None where there is no row;
/// `BadRegister` comes where a register is not general, or an input that has to be the output isn't it.
#[tactic(auto, using(crate::proofs::Encoding::itself))]
pub fn encode_masked_ri(
    opcode: Option<u16>,
    rn: &Reg,
    imm: u16,
    cond: Cond,
) -> Option<Result<Code, EmitError>>
    ensures { result
        ≡ single_code
        (single_with (is_general rn.now)
        (masked_halfword_row opcode (number_of rn.now) imm (four_bits cond))) }
{
    match opcode {
        Some(opcode) => Some(masked_halfword(general(rn), opcode, *rn, imm, cond.bits())),
        None => None,
    }
}

/// A division of a pair by a register. None where there is no row; `BadRegister` comes where a register is not
/// general, or an input that has to be the output isn't it.
#[tactic(auto, using(crate::proofs::Encoding::even_reused_pair_general))]
pub fn encode_reused_pair(
    opcode: u16,
    rd: &WritableRegPair,
    ri: &RegPair,
    rn: &Reg,
) -> Option<Result<Code, EmitError>>
    requires { takes_general (Some opcode) ≡ true }
    ensures { result
        ≡ single_code
        (single_with
        (is_even_pair rd.now.hi rd.now.lo && reuses_pair rd.now ri.now && is_general rn.now)
        (Some (two_operands opcode (number_of rd.now.hi) (number_of rn.now)))) }
{
    Some(two_operands(
        is_even_pair(rd) && is_reused_pair(rd, ri) && general(rn),
        opcode,
        rd.hi.to_reg(),
        *rn,
    ))
}

/// The code of the stop of a division, or of a comparison that traps.
pub fn stop_code(inst: &Inst) -> Option<TrapCode>
    ensures { result ≡ stop_code inst.now }
{
    match inst {
        Inst::SDivMod32 { .. }
        | Inst::SDivMod64 { .. }
        | Inst::UDivMod32 { .. }
        | Inst::UDivMod64 { .. } => Some(TrapCode::INTEGER_DIVISION_BY_ZERO),
        Inst::CmpTrapRR { trap_code, .. }
        | Inst::CmpTrapRSImm16 { trap_code, .. }
        | Inst::CmpTrapRUImm16 { trap_code, .. } => Some(*trap_code),
        Inst::Vector(inst) => stop_of(inst),
        _ => None,
    }
}
