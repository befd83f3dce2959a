//! The machine row of each operator on vectors: its opcode and the code of its elements' size.
ghost use Rattle.std.specs.Prelude.{◌≡◌, ◌<◌};
ghost use Rattle.s390x_typed_steps.specs.VectorOpcodes.{is_division, binary_row, unary_row, shift_row, comparison_row, element_comparison_row};

use s390x_inst::{VecBinaryOp, VecIntCmpOp, VecIntEltCmpOp, VecShiftOp, VecUnaryOp};
use s390x_typed_steps::{
    VectorOpcode, row_of_vec_binary, row_of_vec_comparison, row_of_vec_element_comparison,
    row_of_vec_shift, row_of_vec_unary,
};

/// An operator on two vectors.
#[tactic(auto, using(crate::proofs::ElementCodes::binary_row_code))]
pub fn binary_row(op: VecBinaryOp) -> VectorOpcode
    ensures row { result ≡ binary_row op }
    ensures code { result.code < 16 }
{
    row_of_vec_binary(op)
}

/// An operator on one vector.
#[tactic(auto, using(crate::proofs::ElementCodes::unary_row_code))]
pub fn unary_row(op: VecUnaryOp) -> VectorOpcode
    ensures row { result ≡ unary_row op }
    ensures code { result.code < 16 }
{
    row_of_vec_unary(op)
}

/// A comparison of each element.
#[tactic(auto, using(crate::proofs::ElementCodes::comparison_row_code))]
pub fn comparison_row(op: VecIntCmpOp) -> VectorOpcode
    ensures row { result ≡ comparison_row op }
    ensures code { result.code < 16 }
{
    row_of_vec_comparison(op)
}

/// A comparison of one element.
#[tactic(auto, using(crate::proofs::ElementCodes::element_comparison_row_code))]
pub fn element_comparison_row(op: VecIntEltCmpOp) -> VectorOpcode
    ensures row { result ≡ element_comparison_row op }
    ensures code { result.code < 16 }
{
    row_of_vec_element_comparison(op)
}

/// A division, which stops by a divisor 0.
pub fn is_division(op: VecBinaryOp) -> bool
    ensures { result ≡ is_division op }
{
    matches!(
        op,
        VecBinaryOp::UDiv32x4
            | VecBinaryOp::UDiv64x2
            | VecBinaryOp::UDiv128
            | VecBinaryOp::SDiv32x4
            | VecBinaryOp::SDiv64x2
            | VecBinaryOp::SDiv128
            | VecBinaryOp::URem32x4
            | VecBinaryOp::URem64x2
            | VecBinaryOp::URem128
            | VecBinaryOp::SRem32x4
            | VecBinaryOp::SRem64x2
            | VecBinaryOp::SRem128
    )
}

/// A shift or rotation of each element.
#[tactic(auto, using(crate::proofs::ElementCodes::shift_row_code))]
pub fn shift_row(op: VecShiftOp) -> VectorOpcode
    ensures row { result ≡ shift_row op }
    ensures code { result.code < 16 }
{
    row_of_vec_shift(op)
}
