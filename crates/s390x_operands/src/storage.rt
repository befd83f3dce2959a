//! Reporting the operands of loads and stores.
ghost use Rattle.s390x_operands.specs.Requests.{Reports};
ghost use Rattle.s390x_operands.specs.Operands.{storage_requests, rest_requests};

use crate::constraint::OperandError;
use crate::control::report_control;
use crate::multiple::report_multiple;
use crate::report::{
    report_inputs, report_output, report_output_from, report_reused_from, report_update,
};
use crate::visitor::OperandVisitor;
use s390x_inst::{Inst, rows};

// Reports the operands of an instruction that is neither an operator nor a move, nor a load or a store of one register.
fn report_rest<V: OperandVisitor>(v: &mut V, denied: bool, inst: &Inst) -> Result<(), OperandError>
    ensures { Reports denied (rest_requests inst.now) (V.items v.old) (V.items v.new)
        (V.denies v.old) (V.denies v.new) result }
{
    rows! { inst,
        Inst {
            LoadAddr { rd, mem } => report_output_from(v, denied, rd, mem),
            StoreImm8 { mem, .. } | StoreImm16 { mem, .. } | StoreImm32SExt16 { mem, .. } | StoreImm64SExt16 { mem, .. } =>
                report_inputs(v, denied, &[], mem),
            LoadIndexedAddr { rd, base, index, .. } | LoadLogicalIndexedAddr { rd, base, index, .. } =>
                report_output(v, denied, rd, &[*base, *index]),
            AtomicRmw { rd, rn, mem, .. } => report_update(v, denied, rd, rn, mem),
            AtomicCas32 { rd, ri, rn, mem } | AtomicCas64 { rd, ri, rn, mem } =>
                report_reused_from(v, denied, rd, &[*ri, *rn], mem),
            LoadMultiple64 { rt, rt2, mem } => report_multiple(v, denied, mem, &rt.to_reg(), &rt2.to_reg()),
            StoreMultiple64 { rt, rt2, mem } => report_multiple(v, denied, mem, rt, rt2),
        }
        _ => report_control(v, denied, inst),
    }
}

/// Reports the operands of an instruction that is neither an operator nor a move.
pub fn report_storage<V: OperandVisitor>(
    v: &mut V,
    denied: bool,
    inst: &Inst,
) -> Result<(), OperandError>
    ensures { Reports denied (storage_requests inst.now) (V.items v.old) (V.items v.new)
        (V.denies v.old) (V.denies v.new) result }
{
    match inst.as_load() {
        Some(load) => report_output_from(v, denied, &load.rd, &load.mem),
        None => match inst.as_store() {
            Some(store) => report_inputs(v, denied, &[store.rd], &store.mem),
            None => report_rest(v, denied, inst),
        },
    }
}
