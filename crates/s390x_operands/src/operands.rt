//! Reporting the operands of any instruction.
ghost use Rattle.std.specs.Prelude.{◌||◌, true};
ghost use Rattle.s390x_operands.specs.Requests.{Reports};
ghost use Rattle.s390x_operands.specs.Operands.{is_loop, requests, members_requests};

use crate::arithmetic::report_arithmetic;
use crate::calls::report_call;
use crate::constraint::OperandError;
use crate::report::{report_input_from, report_output_from};
use crate::vectors::report_vector;
use crate::visitor::OperandVisitor;
use s390x_inst::Inst;

/// Reports the operands of the members of a loop, where a reuse is denied.
#[cycle(members)]
fn report_members<V: OperandVisitor>(v: &mut V, insts: &[Inst]) -> Result<(), OperandError>
    ensures { Reports true (members_requests insts.now) (V.items v.old) (V.items v.new)
        (V.denies v.old) (V.denies v.new) result }
{
    for inst in insts {
        report_inst(v, true, inst)?;
    }
    Ok(())
}

/// Reports the operands of an instruction.
#[cycle(members)]
pub fn report_inst<V: OperandVisitor>(
    v: &mut V,
    denied: bool,
    inst: &Inst,
) -> Result<(), OperandError>
    ensures { Reports (is_loop inst.now || denied) (requests inst.now) (V.items v.old)
        (V.items v.new) (V.denies v.old) (V.denies v.new) result }
{
    match inst {
        Inst::Loop { body, .. } => report_members(v, body),
        // asked first, since they are many and the groups are long
        Inst::Load32 { rd, mem } | Inst::Load64 { rd, mem } => {
            report_output_from(v, denied, rd, mem)
        }
        Inst::Store32 { rd, mem } | Inst::Store64 { rd, mem } => {
            report_input_from(v, denied, rd, mem)
        }
        Inst::Call { link, info } => report_call(v, denied, link, info),
        Inst::Vector(vector) => report_vector(v, denied, vector),
        _ => report_arithmetic(v, denied, inst),
    }
}
