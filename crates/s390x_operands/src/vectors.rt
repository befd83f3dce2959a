//! Reporting the operands of vector instructions.
ghost use Rattle.s390x_operands.specs.Requests.{Reports};
ghost use Rattle.s390x_operands.specs.Operands.{register_vector_requests, vector_move_requests, part_requests, whole_requests, vector_requests};

use crate::constraint::OperandError;
use crate::report::{
    report_input_from, report_inputs, report_nothing, report_output, report_output_from,
    report_reused, report_reused_from, report_uses,
};
use crate::visitor::OperandVisitor;
use s390x_base::Writable;
use s390x_inst::{Direction, VecInst, WholeAccess, rows};

// Reports the operands of a load or a store of a whole register.
fn report_whole<V: OperandVisitor>(
    v: &mut V,
    denied: bool,
    whole: &WholeAccess,
) -> Result<(), OperandError>
    ensures { Reports denied (whole_requests whole.now) (V.items v.old) (V.items v.new)
        (V.denies v.old) (V.denies v.new) result }
{
    match whole.direction {
        Direction::Load => {
            let rd = Writable::from_reg(whole.rd);
            report_output_from(v, denied, &rd, &whole.mem)
        }
        Direction::Store => report_inputs(v, denied, &[whole.rd], &whole.mem),
    }
}

/// Reports the operands of a vector instruction.
pub fn report_vector<V: OperandVisitor>(
    v: &mut V,
    denied: bool,
    inst: &VecInst,
) -> Result<(), OperandError>
    ensures { Reports denied (vector_requests inst.now) (V.items v.old) (V.items v.new)
        (V.denies v.old) (V.denies v.new) result }
{
    match inst {
        // asked first, since they are many
        VecInst::VecLoad { rd, mem } => report_output_from(v, denied, rd, mem),
        VecInst::VecStore { rd, mem } => report_input_from(v, denied, rd, mem),
        _ => match inst.as_whole() {
            Some(whole) => report_whole(v, denied, &whole),
            None => report_part(v, denied, inst),
        },
    }
}

// Reports the operands of a vector instruction that is no load or store of a whole register.
fn report_part<V: OperandVisitor>(
    v: &mut V,
    denied: bool,
    inst: &VecInst,
) -> Result<(), OperandError>
    ensures { Reports denied (part_requests inst.now) (V.items v.old) (V.items v.new)
        (V.denies v.old) (V.denies v.new) result }
{
    match inst {
        VecInst::VecLoadReplicate { rd, mem, .. }
        | VecInst::VecLoadReplicateRev { rd, mem, .. }
        | VecInst::VecLoadLaneUndef { rd, mem, .. }
        | VecInst::VecLoadLaneRevUndef { rd, mem, .. } => { report_output_from(v, denied, rd, mem) }
        VecInst::VecStoreLane { rd, mem, .. } | VecInst::VecStoreLaneRev { rd, mem, .. } => {
            report_inputs(v, denied, &[*rd], mem)
        }
        VecInst::VecLoadLane { rd, ri, mem, .. } | VecInst::VecLoadLaneRev { rd, ri, mem, .. } => {
            report_reused_from(v, denied, rd, &[*ri], mem)
        }
        _ => report_register_vector(v, denied, inst),
    }
}

// Reports the operands of a vector instruction without memory.
fn report_register_vector<V: OperandVisitor>(
    v: &mut V,
    denied: bool,
    inst: &VecInst,
) -> Result<(), OperandError>
    ensures { Reports denied (register_vector_requests inst.now) (V.items v.old) (V.items v.new)
        (V.denies v.old) (V.denies v.new) result }
{
    rows! { inst,
        VecInst {
            VecRRR { rd, rn, rm, .. } | VecPermuteDWImm { rd, rn, rm, .. } | VecIntCmp { rd, rn, rm, .. }
            | VecIntCmpS { rd, rn, rm, .. } => report_output(v, denied, rd, &[*rn, *rm]),
            VecRR { rd, rn, .. } => report_output(v, denied, rd, &[*rn]),
            VecShiftRR { rd, rn, shift_reg, .. } => report_output(v, denied, rd, &[*rn, *shift_reg]),
            VecSelect { rd, rn, rm, ra } | VecPermute { rd, rn, rm, ra } | VecBlend { rd, rn, rm, ra }
            | VecEvaluate { rd, rn, rm, ra, .. } => report_output(v, denied, rd, &[*rn, *rm, *ra]),
            VecIntEltCmp { rn, rm, .. } => report_uses(v, denied, &[*rn, *rm]),
            VecInt128SCmpHi { tmp, rn, rm } | VecInt128UCmpHi { tmp, rn, rm } => report_output(v, denied, tmp, &[*rn, *rm]),
        }
        _ => report_vector_move(v, denied, inst),
    }
}

// Reports the operands of a move, an immediate or an element of vector registers.
fn report_vector_move<V: OperandVisitor>(
    v: &mut V,
    denied: bool,
    inst: &VecInst,
) -> Result<(), OperandError>
    ensures { Reports denied (vector_move_requests inst.now) (V.items v.old) (V.items v.new)
        (V.denies v.old) (V.denies v.new) result }
{
    rows! { inst,
        VecInst {
            VecMov { rd, rn } | FpuMove32 { rd, rn } | FpuMove64 { rd, rn } | VecReplicateLane { rd, rn, .. }
            | VecEltRev { rd, rn, .. } => report_output(v, denied, rd, &[*rn]),
            MovToVec128 { rd, rn, rm } => report_output(v, denied, rd, &[*rn, *rm]),
            FpuCMov32 { rd, ri, rm, .. } | FpuCMov64 { rd, ri, rm, .. } | VecCMov { rd, ri, rm, .. } =>
                report_reused(v, denied, rd, &[*ri, *rm]),
            VecImmByteMask { rd, .. } | VecImmBitMask { rd, .. } | VecImmReplicate { rd, .. } | VecInsertLaneImmUndef { rd, .. } =>
                report_output(v, denied, rd, &[]),
            VecInsertLane { rd, ri, rn, lane_reg, .. } => report_reused(v, denied, rd, &[*ri, *rn, *lane_reg]),
            VecInsertLaneUndef { rd, rn, lane_reg, .. } | VecExtractLane { rd, rn, lane_reg, .. } =>
                report_output(v, denied, rd, &[*rn, *lane_reg]),
            VecInsertLaneImm { rd, ri, .. } => report_reused(v, denied, rd, &[*ri]),
        }
        _ => report_nothing(v, denied),
    }
}
