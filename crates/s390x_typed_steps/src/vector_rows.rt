//! The machine row of each operator on vectors: its opcode and the code of its elements' size (cranelift-codegen, `emit.rs`). A row is read through a borrow of its table, which indexing by itself would copy.
ghost use Rattle.std.specs.Prelude.{◌≡◌};
ghost use Rattle.s390x_typed_steps.specs.VectorOpcodes.{binary_row, unary_row, shift_row, comparison_row, element_comparison_row};

use crate::vector_opcode::VectorOpcode;
use s390x_inst::{VecBinaryOp, VecIntCmpOp, VecIntEltCmpOp, VecShiftOp, VecUnaryOp};
use s390x_rows::opcodes;

pub const VEC_BINARY_COUNT: usize = VecBinaryOp::MergeHigh64x2 as usize + 1;

pub const VEC_UNARY_COUNT: usize = VecUnaryOp::UnpackSHigh64x2 as usize + 1;

pub const VEC_SHIFT_COUNT: usize = VecShiftOp::AShR64x2 as usize + 1;

pub const VEC_COMPARISON_COUNT: usize = VecIntCmpOp::UCmpHi128 as usize + 1;

pub const VEC_ELEMENT_COMPARISON_COUNT: usize = VecIntEltCmpOp::UCmp128 as usize + 1;

/// The row of an operator on two vectors.
#[rattlefmt::skip]
pub const VEC_BINARY_ROWS: [VectorOpcode; VEC_BINARY_COUNT] = [
    VectorOpcode { opcode: opcodes::VA, code: 0 }, // Add8x16
    VectorOpcode { opcode: opcodes::VA, code: 1 }, // Add16x8
    VectorOpcode { opcode: opcodes::VA, code: 2 }, // Add32x4
    VectorOpcode { opcode: opcodes::VA, code: 3 }, // Add64x2
    VectorOpcode { opcode: opcodes::VA, code: 4 }, // Add128
    VectorOpcode { opcode: opcodes::VS, code: 0 }, // Sub8x16
    VectorOpcode { opcode: opcodes::VS, code: 1 }, // Sub16x8
    VectorOpcode { opcode: opcodes::VS, code: 2 }, // Sub32x4
    VectorOpcode { opcode: opcodes::VS, code: 3 }, // Sub64x2
    VectorOpcode { opcode: opcodes::VS, code: 4 }, // Sub128
    VectorOpcode { opcode: opcodes::VACCQ, code: 4 }, // Add128Cout
    VectorOpcode { opcode: opcodes::VSCBIQ, code: 4 }, // Sub128Cout
    VectorOpcode { opcode: opcodes::VML, code: 0 }, // Mul8x16
    VectorOpcode { opcode: opcodes::VML, code: 1 }, // Mul16x8
    VectorOpcode { opcode: opcodes::VML, code: 2 }, // Mul32x4
    VectorOpcode { opcode: opcodes::VML, code: 3 }, // Mul64x2
    VectorOpcode { opcode: opcodes::VML, code: 4 }, // Mul128
    VectorOpcode { opcode: opcodes::VMLH, code: 0 }, // UMulHi8x16
    VectorOpcode { opcode: opcodes::VMLH, code: 1 }, // UMulHi16x8
    VectorOpcode { opcode: opcodes::VMLH, code: 2 }, // UMulHi32x4
    VectorOpcode { opcode: opcodes::VMLH, code: 3 }, // UMulHi64x2
    VectorOpcode { opcode: opcodes::VMLH, code: 4 }, // UMulHi128
    VectorOpcode { opcode: opcodes::VMH, code: 0 }, // SMulHi8x16
    VectorOpcode { opcode: opcodes::VMH, code: 1 }, // SMulHi16x8
    VectorOpcode { opcode: opcodes::VMH, code: 2 }, // SMulHi32x4
    VectorOpcode { opcode: opcodes::VMH, code: 3 }, // SMulHi64x2
    VectorOpcode { opcode: opcodes::VMH, code: 4 }, // SMulHi128
    VectorOpcode { opcode: opcodes::VMLE, code: 0 }, // UMulEven8x16
    VectorOpcode { opcode: opcodes::VMLE, code: 1 }, // UMulEven16x8
    VectorOpcode { opcode: opcodes::VMLE, code: 2 }, // UMulEven32x4
    VectorOpcode { opcode: opcodes::VMLE, code: 3 }, // UMulEven64x2
    VectorOpcode { opcode: opcodes::VME, code: 0 }, // SMulEven8x16
    VectorOpcode { opcode: opcodes::VME, code: 1 }, // SMulEven16x8
    VectorOpcode { opcode: opcodes::VME, code: 2 }, // SMulEven32x4
    VectorOpcode { opcode: opcodes::VME, code: 3 }, // SMulEven64x2
    VectorOpcode { opcode: opcodes::VMLO, code: 0 }, // UMulOdd8x16
    VectorOpcode { opcode: opcodes::VMLO, code: 1 }, // UMulOdd16x8
    VectorOpcode { opcode: opcodes::VMLO, code: 2 }, // UMulOdd32x4
    VectorOpcode { opcode: opcodes::VMLO, code: 3 }, // UMulOdd64x2
    VectorOpcode { opcode: opcodes::VMO, code: 0 }, // SMulOdd8x16
    VectorOpcode { opcode: opcodes::VMO, code: 1 }, // SMulOdd16x8
    VectorOpcode { opcode: opcodes::VMO, code: 2 }, // SMulOdd32x4
    VectorOpcode { opcode: opcodes::VMO, code: 3 }, // SMulOdd64x2
    VectorOpcode { opcode: opcodes::VDL, code: 2 }, // UDiv32x4
    VectorOpcode { opcode: opcodes::VDL, code: 3 }, // UDiv64x2
    VectorOpcode { opcode: opcodes::VDL, code: 4 }, // UDiv128
    VectorOpcode { opcode: opcodes::VD, code: 2 }, // SDiv32x4
    VectorOpcode { opcode: opcodes::VD, code: 3 }, // SDiv64x2
    VectorOpcode { opcode: opcodes::VD, code: 4 }, // SDiv128
    VectorOpcode { opcode: opcodes::VRL, code: 2 }, // URem32x4
    VectorOpcode { opcode: opcodes::VRL, code: 3 }, // URem64x2
    VectorOpcode { opcode: opcodes::VRL, code: 4 }, // URem128
    VectorOpcode { opcode: opcodes::VR, code: 2 }, // SRem32x4
    VectorOpcode { opcode: opcodes::VR, code: 3 }, // SRem64x2
    VectorOpcode { opcode: opcodes::VR, code: 4 }, // SRem128
    VectorOpcode { opcode: opcodes::VMXL, code: 0 }, // UMax8x16
    VectorOpcode { opcode: opcodes::VMXL, code: 1 }, // UMax16x8
    VectorOpcode { opcode: opcodes::VMXL, code: 2 }, // UMax32x4
    VectorOpcode { opcode: opcodes::VMXL, code: 3 }, // UMax64x2
    VectorOpcode { opcode: opcodes::VMXL, code: 4 }, // UMax128
    VectorOpcode { opcode: opcodes::VMX, code: 0 }, // SMax8x16
    VectorOpcode { opcode: opcodes::VMX, code: 1 }, // SMax16x8
    VectorOpcode { opcode: opcodes::VMX, code: 2 }, // SMax32x4
    VectorOpcode { opcode: opcodes::VMX, code: 3 }, // SMax64x2
    VectorOpcode { opcode: opcodes::VMX, code: 4 }, // SMax128
    VectorOpcode { opcode: opcodes::VMNL, code: 0 }, // UMin8x16
    VectorOpcode { opcode: opcodes::VMNL, code: 1 }, // UMin16x8
    VectorOpcode { opcode: opcodes::VMNL, code: 2 }, // UMin32x4
    VectorOpcode { opcode: opcodes::VMNL, code: 3 }, // UMin64x2
    VectorOpcode { opcode: opcodes::VMNL, code: 4 }, // UMin128
    VectorOpcode { opcode: opcodes::VMN, code: 0 }, // SMin8x16
    VectorOpcode { opcode: opcodes::VMN, code: 1 }, // SMin16x8
    VectorOpcode { opcode: opcodes::VMN, code: 2 }, // SMin32x4
    VectorOpcode { opcode: opcodes::VMN, code: 3 }, // SMin64x2
    VectorOpcode { opcode: opcodes::VMN, code: 4 }, // SMin128
    VectorOpcode { opcode: opcodes::VAVGL, code: 0 }, // UAvg8x16
    VectorOpcode { opcode: opcodes::VAVGL, code: 1 }, // UAvg16x8
    VectorOpcode { opcode: opcodes::VAVGL, code: 2 }, // UAvg32x4
    VectorOpcode { opcode: opcodes::VAVGL, code: 3 }, // UAvg64x2
    VectorOpcode { opcode: opcodes::VAVGL, code: 4 }, // UAvg128
    VectorOpcode { opcode: opcodes::VAVG, code: 0 }, // SAvg8x16
    VectorOpcode { opcode: opcodes::VAVG, code: 1 }, // SAvg16x8
    VectorOpcode { opcode: opcodes::VAVG, code: 2 }, // SAvg32x4
    VectorOpcode { opcode: opcodes::VAVG, code: 3 }, // SAvg64x2
    VectorOpcode { opcode: opcodes::VAVG, code: 4 }, // SAvg128
    VectorOpcode { opcode: opcodes::VN, code: 0 }, // And128
    VectorOpcode { opcode: opcodes::VO, code: 0 }, // Orr128
    VectorOpcode { opcode: opcodes::VX, code: 0 }, // Xor128
    VectorOpcode { opcode: opcodes::VNN, code: 0 }, // NotAnd128
    VectorOpcode { opcode: opcodes::VNO, code: 0 }, // NotOrr128
    VectorOpcode { opcode: opcodes::VNX, code: 0 }, // NotXor128
    VectorOpcode { opcode: opcodes::VNC, code: 0 }, // AndNot128
    VectorOpcode { opcode: opcodes::VOC, code: 0 }, // OrrNot128
    VectorOpcode { opcode: opcodes::VBPERM, code: 0 }, // BitPermute128
    VectorOpcode { opcode: opcodes::VSLB, code: 0 }, // LShLByByte128
    VectorOpcode { opcode: opcodes::VSRLB, code: 0 }, // LShRByByte128
    VectorOpcode { opcode: opcodes::VSRAB, code: 0 }, // AShRByByte128
    VectorOpcode { opcode: opcodes::VSL, code: 0 }, // LShLByBit128
    VectorOpcode { opcode: opcodes::VSRL, code: 0 }, // LShRByBit128
    VectorOpcode { opcode: opcodes::VSRA, code: 0 }, // AShRByBit128
    VectorOpcode { opcode: opcodes::VPK, code: 1 }, // Pack16x8
    VectorOpcode { opcode: opcodes::VPK, code: 2 }, // Pack32x4
    VectorOpcode { opcode: opcodes::VPK, code: 3 }, // Pack64x2
    VectorOpcode { opcode: opcodes::VPKLS, code: 1 }, // PackUSat16x8
    VectorOpcode { opcode: opcodes::VPKLS, code: 2 }, // PackUSat32x4
    VectorOpcode { opcode: opcodes::VPKLS, code: 3 }, // PackUSat64x2
    VectorOpcode { opcode: opcodes::VPKS, code: 1 }, // PackSSat16x8
    VectorOpcode { opcode: opcodes::VPKS, code: 2 }, // PackSSat32x4
    VectorOpcode { opcode: opcodes::VPKS, code: 3 }, // PackSSat64x2
    VectorOpcode { opcode: opcodes::VMRL, code: 0 }, // MergeLow8x16
    VectorOpcode { opcode: opcodes::VMRL, code: 1 }, // MergeLow16x8
    VectorOpcode { opcode: opcodes::VMRL, code: 2 }, // MergeLow32x4
    VectorOpcode { opcode: opcodes::VMRL, code: 3 }, // MergeLow64x2
    VectorOpcode { opcode: opcodes::VMRH, code: 0 }, // MergeHigh8x16
    VectorOpcode { opcode: opcodes::VMRH, code: 1 }, // MergeHigh16x8
    VectorOpcode { opcode: opcodes::VMRH, code: 2 }, // MergeHigh32x4
    VectorOpcode { opcode: opcodes::VMRH, code: 3 }, // MergeHigh64x2
];

/// The row of an operator on one vector.
#[rattlefmt::skip]
pub const VEC_UNARY_ROWS: [VectorOpcode; VEC_UNARY_COUNT] = [
    VectorOpcode { opcode: opcodes::VLP, code: 0 }, // Abs8x16
    VectorOpcode { opcode: opcodes::VLP, code: 1 }, // Abs16x8
    VectorOpcode { opcode: opcodes::VLP, code: 2 }, // Abs32x4
    VectorOpcode { opcode: opcodes::VLP, code: 3 }, // Abs64x2
    VectorOpcode { opcode: opcodes::VLP, code: 4 }, // Abs128
    VectorOpcode { opcode: opcodes::VLC, code: 0 }, // Neg8x16
    VectorOpcode { opcode: opcodes::VLC, code: 1 }, // Neg16x8
    VectorOpcode { opcode: opcodes::VLC, code: 2 }, // Neg32x4
    VectorOpcode { opcode: opcodes::VLC, code: 3 }, // Neg64x2
    VectorOpcode { opcode: opcodes::VLC, code: 4 }, // Neg128
    VectorOpcode { opcode: opcodes::VPOPCT, code: 0 }, // Popcnt8x16
    VectorOpcode { opcode: opcodes::VPOPCT, code: 1 }, // Popcnt16x8
    VectorOpcode { opcode: opcodes::VPOPCT, code: 2 }, // Popcnt32x4
    VectorOpcode { opcode: opcodes::VPOPCT, code: 3 }, // Popcnt64x2
    VectorOpcode { opcode: opcodes::VCLZ, code: 0 }, // Clz8x16
    VectorOpcode { opcode: opcodes::VCLZ, code: 1 }, // Clz16x8
    VectorOpcode { opcode: opcodes::VCLZ, code: 2 }, // Clz32x4
    VectorOpcode { opcode: opcodes::VCLZ, code: 3 }, // Clz64x2
    VectorOpcode { opcode: opcodes::VCLZ, code: 4 }, // Clz128
    VectorOpcode { opcode: opcodes::VCTZ, code: 0 }, // Ctz8x16
    VectorOpcode { opcode: opcodes::VCTZ, code: 1 }, // Ctz16x8
    VectorOpcode { opcode: opcodes::VCTZ, code: 2 }, // Ctz32x4
    VectorOpcode { opcode: opcodes::VCTZ, code: 3 }, // Ctz64x2
    VectorOpcode { opcode: opcodes::VCTZ, code: 4 }, // Ctz128
    VectorOpcode { opcode: opcodes::VUPLL, code: 0 }, // UnpackULow8x16
    VectorOpcode { opcode: opcodes::VUPLL, code: 1 }, // UnpackULow16x8
    VectorOpcode { opcode: opcodes::VUPLL, code: 2 }, // UnpackULow32x4
    VectorOpcode { opcode: opcodes::VUPLL, code: 3 }, // UnpackULow64x2
    VectorOpcode { opcode: opcodes::VUPLH, code: 0 }, // UnpackUHigh8x16
    VectorOpcode { opcode: opcodes::VUPLH, code: 1 }, // UnpackUHigh16x8
    VectorOpcode { opcode: opcodes::VUPLH, code: 2 }, // UnpackUHigh32x4
    VectorOpcode { opcode: opcodes::VUPLH, code: 3 }, // UnpackUHigh64x2
    VectorOpcode { opcode: opcodes::VUPL, code: 0 }, // UnpackSLow8x16
    VectorOpcode { opcode: opcodes::VUPL, code: 1 }, // UnpackSLow16x8
    VectorOpcode { opcode: opcodes::VUPL, code: 2 }, // UnpackSLow32x4
    VectorOpcode { opcode: opcodes::VUPL, code: 3 }, // UnpackSLow64x2
    VectorOpcode { opcode: opcodes::VUPH, code: 0 }, // UnpackSHigh8x16
    VectorOpcode { opcode: opcodes::VUPH, code: 1 }, // UnpackSHigh16x8
    VectorOpcode { opcode: opcodes::VUPH, code: 2 }, // UnpackSHigh32x4
    VectorOpcode { opcode: opcodes::VUPH, code: 3 }, // UnpackSHigh64x2
];

/// The row of a shift or rotation of each element.
#[rattlefmt::skip]
pub const VEC_SHIFT_ROWS: [VectorOpcode; VEC_SHIFT_COUNT] = [
    VectorOpcode { opcode: opcodes::VERLL, code: 0 }, // RotL8x16
    VectorOpcode { opcode: opcodes::VERLL, code: 1 }, // RotL16x8
    VectorOpcode { opcode: opcodes::VERLL, code: 2 }, // RotL32x4
    VectorOpcode { opcode: opcodes::VERLL, code: 3 }, // RotL64x2
    VectorOpcode { opcode: opcodes::VESL, code: 0 }, // LShL8x16
    VectorOpcode { opcode: opcodes::VESL, code: 1 }, // LShL16x8
    VectorOpcode { opcode: opcodes::VESL, code: 2 }, // LShL32x4
    VectorOpcode { opcode: opcodes::VESL, code: 3 }, // LShL64x2
    VectorOpcode { opcode: opcodes::VESRL, code: 0 }, // LShR8x16
    VectorOpcode { opcode: opcodes::VESRL, code: 1 }, // LShR16x8
    VectorOpcode { opcode: opcodes::VESRL, code: 2 }, // LShR32x4
    VectorOpcode { opcode: opcodes::VESRL, code: 3 }, // LShR64x2
    VectorOpcode { opcode: opcodes::VESRA, code: 0 }, // AShR8x16
    VectorOpcode { opcode: opcodes::VESRA, code: 1 }, // AShR16x8
    VectorOpcode { opcode: opcodes::VESRA, code: 2 }, // AShR32x4
    VectorOpcode { opcode: opcodes::VESRA, code: 3 }, // AShR64x2
];

/// The row of a comparison of each element.
#[rattlefmt::skip]
pub const VEC_COMPARISON_ROWS: [VectorOpcode; VEC_COMPARISON_COUNT] = [
    VectorOpcode { opcode: opcodes::VCEQ, code: 0 }, // CmpEq8x16
    VectorOpcode { opcode: opcodes::VCEQ, code: 1 }, // CmpEq16x8
    VectorOpcode { opcode: opcodes::VCEQ, code: 2 }, // CmpEq32x4
    VectorOpcode { opcode: opcodes::VCEQ, code: 3 }, // CmpEq64x2
    VectorOpcode { opcode: opcodes::VCEQ, code: 4 }, // CmpEq128
    VectorOpcode { opcode: opcodes::VCH, code: 0 }, // SCmpHi8x16
    VectorOpcode { opcode: opcodes::VCH, code: 1 }, // SCmpHi16x8
    VectorOpcode { opcode: opcodes::VCH, code: 2 }, // SCmpHi32x4
    VectorOpcode { opcode: opcodes::VCH, code: 3 }, // SCmpHi64x2
    VectorOpcode { opcode: opcodes::VCH, code: 4 }, // SCmpHi128
    VectorOpcode { opcode: opcodes::VCHL, code: 0 }, // UCmpHi8x16
    VectorOpcode { opcode: opcodes::VCHL, code: 1 }, // UCmpHi16x8
    VectorOpcode { opcode: opcodes::VCHL, code: 2 }, // UCmpHi32x4
    VectorOpcode { opcode: opcodes::VCHL, code: 3 }, // UCmpHi64x2
    VectorOpcode { opcode: opcodes::VCHL, code: 4 }, // UCmpHi128
];

/// The row of a comparison of one element.
#[rattlefmt::skip]
pub const VEC_ELEMENT_COMPARISON_ROWS: [VectorOpcode; VEC_ELEMENT_COMPARISON_COUNT] = [
    VectorOpcode { opcode: opcodes::VEC, code: 4 }, // SCmp128
    VectorOpcode { opcode: opcodes::VECL, code: 4 }, // UCmp128
];

/// The row of an operator on two vectors.
pub fn row_of_vec_binary(op: VecBinaryOp) -> VectorOpcode
    ensures { result ≡ binary_row op }
{
    (&VEC_BINARY_ROWS)[op as usize]
}

/// The row of an operator on one vector.
pub fn row_of_vec_unary(op: VecUnaryOp) -> VectorOpcode
    ensures { result ≡ unary_row op }
{
    (&VEC_UNARY_ROWS)[op as usize]
}

/// The row of a shift or rotation of each element.
pub fn row_of_vec_shift(op: VecShiftOp) -> VectorOpcode
    ensures { result ≡ shift_row op }
{
    (&VEC_SHIFT_ROWS)[op as usize]
}

/// The row of a comparison of each element.
pub fn row_of_vec_comparison(op: VecIntCmpOp) -> VectorOpcode
    ensures { result ≡ comparison_row op }
{
    (&VEC_COMPARISON_ROWS)[op as usize]
}

/// The row of a comparison of one element.
pub fn row_of_vec_element_comparison(op: VecIntEltCmpOp) -> VectorOpcode
    ensures { result ≡ element_comparison_row op }
{
    (&VEC_ELEMENT_COMPARISON_ROWS)[op as usize]
}
