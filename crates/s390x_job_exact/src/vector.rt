//! Lines of instructions on vectors, taken only as they are printed.
ghost use Rattle.std.specs.Prelude.{IfSome};
ghost use Rattle.s390x_job_lines.specs.Instructions.{inst_line};
ghost use Rattle.s390x_job_exact.specs.Exact.{AreFields};

use crate::cursor::ExactCursor;
use crate::rows::take_vector_fields;
use s390x_inst::{Inst, VecInst};
use s390x_job_lines::{LineName, VectorName};

/// Takes the fields of an operation on two vectors.
#[tactic(auto, using(crate::proofs::Lines::four))]
#[inline(never)]
fn binary(cursor: &mut ExactCursor) -> Option<Inst>
    ensures { IfSome result
        (λ x. AreFields (LineName.Vector VectorName.VecRRR) (inst_line x) cursor.old) }
{
    take_vector_fields!(VecRRR, cursor, op: vec_binary, rd: written_reg, rn: reg, rm: reg)
}

/// Takes the fields of an operation on one vector.
#[tactic(auto, using(crate::proofs::Lines::three))]
#[inline(never)]
fn unary(cursor: &mut ExactCursor) -> Option<Inst>
    ensures { IfSome result
        (λ x. AreFields (LineName.Vector VectorName.VecRR) (inst_line x) cursor.old) }
{
    take_vector_fields!(VecRR, cursor, op: vec_unary, rd: written_reg, rn: reg)
}

/// Takes the fields of a shift of a vector.
#[tactic(auto, using(crate::proofs::Lines::five))]
#[inline(never)]
fn shift(cursor: &mut ExactCursor) -> Option<Inst>
    ensures { IfSome result
        (λ x. AreFields (LineName.Vector VectorName.VecShiftRR) (inst_line x) cursor.old) }
{
    take_vector_fields!(VecShiftRR, cursor, shift_op: vec_shift_op, rd: written_reg, rn: reg, shift_imm: u8, shift_reg: reg)
}

/// Takes the fields of a comparison of vectors.
#[tactic(auto, using(crate::proofs::Lines::four))]
#[inline(never)]
fn compare(cursor: &mut ExactCursor) -> Option<Inst>
    ensures { IfSome result
        (λ x. AreFields (LineName.Vector VectorName.VecIntCmp) (inst_line x) cursor.old) }
{
    take_vector_fields!(VecIntCmp, cursor, op: vec_compare, rd: written_reg, rn: reg, rm: reg)
}

/// Takes the fields of a comparison of vectors that sets the condition code.
#[tactic(auto, using(crate::proofs::Lines::four))]
#[inline(never)]
fn compare_all(cursor: &mut ExactCursor) -> Option<Inst>
    ensures { IfSome result
        (λ x. AreFields (LineName.Vector VectorName.VecIntCmpS) (inst_line x) cursor.old) }
{
    take_vector_fields!(VecIntCmpS, cursor, op: vec_compare, rd: written_reg, rn: reg, rm: reg)
}

/// Takes the fields of a selection.
#[tactic(auto, using(crate::proofs::Lines::four))]
#[inline(never)]
fn select(cursor: &mut ExactCursor) -> Option<Inst>
    ensures { IfSome result
        (λ x. AreFields (LineName.Vector VectorName.VecSelect) (inst_line x) cursor.old) }
{
    take_vector_fields!(VecSelect, cursor, rd: written_reg, rn: reg, rm: reg, ra: reg)
}

/// Takes the fields of a move of a vector.
#[tactic(auto, using(crate::proofs::Lines::two))]
#[inline(never)]
fn move_vector(cursor: &mut ExactCursor) -> Option<Inst>
    ensures { IfSome result
        (λ x. AreFields (LineName.Vector VectorName.VecMov) (inst_line x) cursor.old) }
{
    take_vector_fields!(VecMov, cursor, rd: written_reg, rn: reg)
}

/// Takes the fields of a move of 64 bits.
#[tactic(auto, using(crate::proofs::Lines::two))]
#[inline(never)]
fn move64(cursor: &mut ExactCursor) -> Option<Inst>
    ensures { IfSome result
        (λ x. AreFields (LineName.Vector VectorName.FpuMove64) (inst_line x) cursor.old) }
{
    take_vector_fields!(FpuMove64, cursor, rd: written_reg, rn: reg)
}

/// Takes the fields of an instruction of this name, where it is a frequent one.
#[inline(always)]
pub fn vector(name: VectorName, cursor: &mut ExactCursor) -> Option<Inst>
    ensures { IfSome result (λ x. AreFields (LineName.Vector name) (inst_line x) cursor.old) }
{
    match name {
        VectorName::VecRRR => binary(cursor),
        VectorName::VecRR => unary(cursor),
        VectorName::VecShiftRR => shift(cursor),
        VectorName::VecIntCmp => compare(cursor),
        VectorName::VecIntCmpS => compare_all(cursor),
        VectorName::VecSelect => select(cursor),
        VectorName::VecMov => move_vector(cursor),
        VectorName::FpuMove64 => move64(cursor),
        _ => None,
    }
}
