//! The facilities that instructions need.
ghost use Rattle.std.specs.Prelude.{◌≡◌};
ghost use Rattle.s390x_inst.specs.Facilities.{alu_facility, unary_facility, vec_binary_facility, vec_unary_facility, vec_compare_facility, whole_facility, vec_facility, facility_of, has_facility};
ghost use Rattle.s390x_inst.specs.Wholes.{as_whole};

use crate::inst::Inst;
use crate::ops::{ALUOp, UnaryOp};
use crate::state::IsaFlags;
use crate::vec_inst::VecInst;
use crate::vec_ops::{VecBinaryOp, VecIntCmpOp, VecUnaryOp};
use crate::whole::WholeLayout;

/// A set of instructions that a machine has as a whole, or not at all.
#[derive(Clone, Copy, PartialEq, Eq, Debug)]
pub enum InstructionSet {
    /// What the crate's least machine has; no flag tells it.
    Base,
    /// The miscellaneous-instruction-extensions facility 3.
    MIE3,
    /// The miscellaneous-instruction-extensions facility 4.
    MIE4,
    /// The vector-enhancements facility 2.
    VXRS_EXT2,
    /// The vector-enhancements facility 3.
    VXRS_EXT3,
}

impl IsaFlags {
    /// Whether the code may use the instructions of the set; the base always.
    pub fn has(self, set: InstructionSet) -> bool
        ensures { result ≡ has_facility self set }
    {
        match set {
            InstructionSet::Base => true,
            InstructionSet::MIE3 => self.has_mie3,
            InstructionSet::MIE4 => self.has_mie4,
            InstructionSet::VXRS_EXT2 => self.has_vxrs_ext2,
            InstructionSet::VXRS_EXT3 => self.has_vxrs_ext3,
        }
    }
}

impl Inst {
    /// The set that has the instruction. A `Loop` is of the base: its members are asked by themselves.
    pub fn available_in_isa(&self) -> InstructionSet
        ensures { result ≡ facility_of self.now }
    {
        match self {
            Inst::AluRRR { alu_op, .. } => of_alu(*alu_op),
            Inst::UnaryRR { op, .. } => of_unary(*op),
            Inst::LoadIndexedAddr { .. } | Inst::LoadLogicalIndexedAddr { .. } => {
                InstructionSet::MIE4
            }
            Inst::Vector(vector) => of_vector(vector),
            _ => InstructionSet::Base,
        }
    }
}

fn of_alu(op: ALUOp) -> InstructionSet
    ensures { result ≡ alu_facility op }
{
    match op {
        ALUOp::NotAnd32
        | ALUOp::NotAnd64
        | ALUOp::NotOrr32
        | ALUOp::NotOrr64
        | ALUOp::NotXor32
        | ALUOp::NotXor64
        | ALUOp::AndNot32
        | ALUOp::AndNot64
        | ALUOp::OrrNot32
        | ALUOp::OrrNot64 => InstructionSet::MIE3,
        _ => InstructionSet::Base,
    }
}

fn of_unary(op: UnaryOp) -> InstructionSet
    ensures { result ≡ unary_facility op }
{
    match op {
        UnaryOp::PopcntReg => InstructionSet::MIE3,
        UnaryOp::Clz64 | UnaryOp::Ctz64 => InstructionSet::MIE4,
        _ => InstructionSet::Base,
    }
}

fn of_vector(inst: &VecInst) -> InstructionSet
    ensures { result ≡ vec_facility inst.now }
{
    match inst {
        VecInst::VecRRR { op, .. } => of_vec_binary(*op),
        VecInst::VecRR { op, .. } => of_vec_unary(*op),
        VecInst::VecIntCmp { op, .. } | VecInst::VecIntCmpS { op, .. } => of_vec_compare(*op),
        VecInst::VecIntEltCmp { .. } | VecInst::VecBlend { .. } | VecInst::VecEvaluate { .. } => {
            InstructionSet::VXRS_EXT3
        }
        VecInst::VecLoadReplicateRev { .. }
        | VecInst::VecLoadLaneRev { .. }
        | VecInst::VecLoadLaneRevUndef { .. }
        | VecInst::VecStoreLaneRev { .. } => InstructionSet::VXRS_EXT2,
        _ => of_whole(inst),
    }
}

// Of a load or a store of a whole register; of another one the base.
fn of_whole(inst: &VecInst) -> InstructionSet
    ensures { result ≡ whole_facility (as_whole inst.now) }
{
    match inst.as_whole() {
        Some(whole) => match whole.layout {
            WholeLayout::Straight => InstructionSet::Base,
            _ => InstructionSet::VXRS_EXT2,
        },
        None => InstructionSet::Base,
    }
}

fn of_vec_binary(op: VecBinaryOp) -> InstructionSet
    ensures { result ≡ vec_binary_facility op }
{
    match op {
        VecBinaryOp::Mul64x2
        | VecBinaryOp::Mul128
        | VecBinaryOp::UMulHi64x2
        | VecBinaryOp::UMulHi128
        | VecBinaryOp::SMulHi64x2
        | VecBinaryOp::SMulHi128
        | VecBinaryOp::UMulEven64x2
        | VecBinaryOp::SMulEven64x2
        | VecBinaryOp::UMulOdd64x2
        | VecBinaryOp::SMulOdd64x2 => InstructionSet::VXRS_EXT3,
        VecBinaryOp::UDiv32x4
        | VecBinaryOp::UDiv64x2
        | VecBinaryOp::UDiv128
        | VecBinaryOp::SDiv32x4
        | VecBinaryOp::SDiv64x2
        | VecBinaryOp::SDiv128
        | VecBinaryOp::URem32x4
        | VecBinaryOp::URem64x2
        | VecBinaryOp::URem128
        | VecBinaryOp::SRem32x4
        | VecBinaryOp::SRem64x2
        | VecBinaryOp::SRem128 => InstructionSet::VXRS_EXT3,
        VecBinaryOp::UMax128
        | VecBinaryOp::SMax128
        | VecBinaryOp::UMin128
        | VecBinaryOp::SMin128
        | VecBinaryOp::UAvg128
        | VecBinaryOp::SAvg128 => InstructionSet::VXRS_EXT3,
        _ => InstructionSet::Base,
    }
}

fn of_vec_unary(op: VecUnaryOp) -> InstructionSet
    ensures { result ≡ vec_unary_facility op }
{
    match op {
        VecUnaryOp::Abs128
        | VecUnaryOp::Neg128
        | VecUnaryOp::Clz128
        | VecUnaryOp::Ctz128
        | VecUnaryOp::UnpackULow64x2
        | VecUnaryOp::UnpackUHigh64x2
        | VecUnaryOp::UnpackSLow64x2
        | VecUnaryOp::UnpackSHigh64x2 => InstructionSet::VXRS_EXT3,
        _ => InstructionSet::Base,
    }
}

fn of_vec_compare(op: VecIntCmpOp) -> InstructionSet
    ensures { result ≡ vec_compare_facility op }
{
    match op {
        VecIntCmpOp::CmpEq128 | VecIntCmpOp::SCmpHi128 | VecIntCmpOp::UCmpHi128 => {
            InstructionSet::VXRS_EXT3
        }
        _ => InstructionSet::Base,
    }
}
