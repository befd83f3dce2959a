//! Reporting the operands of branches, calls and the rest.
ghost use Rattle.s390x_operands.specs.Requests.{Reports};
ghost use Rattle.s390x_operands.specs.Operands.{control_requests};

use crate::calls::{report_arguments, report_call, report_results, report_return_call};
use crate::constraint::OperandError;
use crate::report::{
    report_nothing, report_output, report_output_scratch, report_use_scratch, report_uses,
};
use crate::vectors::report_vector;
use crate::visitor::OperandVisitor;
use s390x_inst::Inst;

/// Reports the operands of an instruction that is no operator, no move, no load and no store.
pub fn report_control<V: OperandVisitor>(
    v: &mut V,
    denied: bool,
    inst: &Inst,
) -> Result<(), OperandError>
    ensures { Reports denied (control_requests inst.now) (V.items v.old) (V.items v.new)
        (V.denies v.old) (V.denies v.new) result }
{
    match inst {
        Inst::IndirectBr { rn, .. } => report_uses(v, denied, &[*rn]),
        Inst::JTSequence { ridx, .. } => report_use_scratch(v, denied, ridx),
        Inst::Call { link, info } => report_call(v, denied, link, info),
        Inst::ReturnCall { info } => report_return_call(v, denied, info),
        Inst::LoadSymbolReloc { rd, .. } => report_output_scratch(v, denied, rd),
        Inst::LabelAddress { dst, .. } => report_output(v, denied, dst, &[]),
        Inst::Args { args } => report_arguments(v, denied, args),
        Inst::Rets { rets } => report_results(v, denied, rets),
        Inst::DummyUse { reg } => report_uses(v, denied, &[*reg]),
        Inst::Vector(vector) => report_vector(v, denied, vector),
        // no other has operands of this group
        _ => report_nothing(v, denied),
    }
}
