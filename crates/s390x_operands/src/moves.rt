//! Reporting the operands of moves.
ghost use Rattle.s390x_operands.specs.Requests.{Reports};
ghost use Rattle.s390x_operands.specs.Operands.{move_requests};

use crate::constraint::OperandError;
use crate::report::{report_output, report_output_fixed, report_reused};
use crate::storage::report_storage;
use crate::visitor::OperandVisitor;
use s390x_inst::Inst;

/// Reports the operands of an instruction that is no operator.
pub fn report_move<V: OperandVisitor>(
    v: &mut V,
    denied: bool,
    inst: &Inst,
) -> Result<(), OperandError>
    ensures { Reports denied (move_requests inst.now) (V.items v.old) (V.items v.new)
        (V.denies v.old) (V.denies v.new) result }
{
    match inst {
        Inst::Mov64 { rd, rm } | Inst::Mov32 { rd, rm } => { report_output(v, denied, rd, &[*rm]) }
        Inst::Mov32Imm { rd, .. }
        | Inst::Mov32SImm16 { rd, .. }
        | Inst::Mov64SImm16 { rd, .. }
        | Inst::Mov64SImm32 { rd, .. }
        | Inst::Mov64UImm16Shifted { rd, .. }
        | Inst::Mov64UImm32Shifted { rd, .. }
        | Inst::LoadAR { rd, .. } => { report_output(v, denied, rd, &[]) }
        Inst::Insert64UImm16Shifted { rd, ri, .. }
        | Inst::Insert64UImm32Shifted { rd, ri, .. }
        | Inst::CMov32SImm16 { rd, ri, .. }
        | Inst::CMov64SImm16 { rd, ri, .. }
        | Inst::InsertAR { rd, ri, .. } => { report_reused(v, denied, rd, &[*ri]) }
        Inst::CMov32 { rd, ri, rm, .. } | Inst::CMov64 { rd, ri, rm, .. } => {
            report_reused(v, denied, rd, &[*ri, *rm])
        }
        Inst::Extend { rd, rn, .. } => { report_output(v, denied, rd, &[*rn]) }
        Inst::MovPReg { rd, rm } => report_output_fixed(v, denied, rd, *rm),
        _ => report_storage(v, denied, inst),
    }
}
