//! Reporting the operands of operators.
ghost use Rattle.s390x_operands.specs.Requests.{Reports};
ghost use Rattle.s390x_operands.specs.Operands.{leaf_requests};

use crate::constraint::OperandError;
use crate::moves::report_move;
use crate::report::{
    report_inputs, report_output, report_pair, report_pair_low, report_pair_whole, report_reused,
    report_reused_from, report_uses,
};
use crate::visitor::OperandVisitor;
use s390x_inst::{Inst, rows};

/// Reports the operands of an instruction.
pub fn report_arithmetic<V: OperandVisitor>(
    v: &mut V,
    denied: bool,
    inst: &Inst,
) -> Result<(), OperandError>
    ensures { Reports denied (leaf_requests inst.now) (V.items v.old) (V.items v.new)
        (V.denies v.old) (V.denies v.new) result }
{
    rows! { inst,
        Inst {
            AluRRR { rd, rn, rm, .. } => report_output(v, denied, rd, &[*rn, *rm]),
            AluRRSImm16 { rd, rn, .. } | UnaryRR { rd, rn, .. } => report_output(v, denied, rd, &[*rn]),
            AluRR { rd, ri, rm, .. } => report_reused(v, denied, rd, &[*ri, *rm]),
            AluRX { rd, ri, mem, .. } => report_reused_from(v, denied, rd, &[*ri], mem),
            AluRSImm16 { rd, ri, .. } | AluRSImm32 { rd, ri, .. } | AluRUImm32 { rd, ri, .. } | AluRUImm16Shifted { rd, ri, .. }
            | AluRUImm32Shifted { rd, ri, .. } => report_reused(v, denied, rd, &[*ri]),
            ShiftRR { rd, rn, shift_reg, .. } => report_output(v, denied, rd, &[*rn, *shift_reg]),
            RxSBG { rd, ri, rn, .. } => report_reused(v, denied, rd, &[*ri, *rn]),
            RxSBGTest { rd, rn, .. } => report_uses(v, denied, &[*rd, *rn]),
            CmpRR { rn, rm, .. } | CmpTrapRR { rn, rm, .. } => report_uses(v, denied, &[*rn, *rm]),
            CmpRX { rn, mem, .. } => report_inputs(v, denied, &[*rn], mem),
            CmpRSImm16 { rn, .. } | CmpRSImm32 { rn, .. } | CmpRUImm32 { rn, .. } | CmpTrapRSImm16 { rn, .. }
            | CmpTrapRUImm16 { rn, .. } => report_uses(v, denied, &[*rn]),
            SMulWide { rd, rn, rm } => report_pair(v, denied, rd, &[*rn, *rm]),
            Flogr { rd, rn } => report_pair(v, denied, rd, &[*rn]),
            UMulWide { rd, ri, rn } | SDivMod32 { rd, ri, rn } | SDivMod64 { rd, ri, rn } => report_pair_low(v, denied, rd, ri, rn),
            UDivMod32 { rd, ri, rn } | UDivMod64 { rd, ri, rn } => report_pair_whole(v, denied, rd, ri, rn),
        }
        _ => report_move(v, denied, inst),
    }
}
