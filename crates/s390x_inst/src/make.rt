//! Moves between registers, loads and stores, by class and type.
ghost use Rattle.std.specs.Prelude.{◌≡◌, Some};
ghost use Rattle.s390x_base.specs.Regs.{class_of};
ghost use Rattle.s390x_base.specs.declared.regs.RegClass.TheVariants.{Float};
ghost use Rattle.s390x_inst.specs.Constructors.{move32_of, move64_of, load_of, store_of};

use crate::args::MemArg;
use crate::inst::Inst;
use crate::vec_inst::VecInst;
use s390x_base::{Reg, RegClass, ValueType, Writable};

impl Inst {
    /// A move of 32 bits between registers of one class: the low half of an Int register, the left 32 bits of a Float one.
    pub fn mov32(to_reg: Writable<Reg>, from_reg: Reg) -> Inst
        requires { class_of to_reg ≡ class_of from_reg }
        ensures { result ≡ move32_of to_reg from_reg }
    {
        match class(&from_reg) {
            RegClass::Int => Inst::Mov32 {
                rd: to_reg,
                rm: from_reg,
            },
            RegClass::Float => Inst::Vector(VecInst::FpuMove32 {
                rd: to_reg,
                rn: from_reg,
            }),
        }
    }

    /// A move of 64 bits between registers of one class: a whole Int register, the left 64 bits of a Float one.
    pub fn mov64(to_reg: Writable<Reg>, from_reg: Reg) -> Inst
        requires { class_of to_reg ≡ class_of from_reg }
        ensures { result ≡ move64_of to_reg from_reg }
    {
        match class(&from_reg) {
            RegClass::Int => Inst::Mov64 {
                rd: to_reg,
                rm: from_reg,
            },
            RegClass::Float => Inst::Vector(VecInst::FpuMove64 {
                rd: to_reg,
                rn: from_reg,
            }),
        }
    }

    /// A move of 128 bits between Float registers.
    pub fn mov128(to_reg: Writable<Reg>, from_reg: Reg) -> Inst
        requires to { class_of to_reg ≡ Float }
        requires from { class_of from_reg ≡ Float }
        ensures { result ≡ Inst.Vector (VecInst.VecMov to_reg from_reg) }
    {
        Inst::Vector(VecInst::VecMov {
            rd: to_reg,
            rn: from_reg,
        })
    }

    /// A load of a value of the type. Integers below 128 bits go to an Int register, zero-extended to 64; all else goes
    /// to a Float register, scalars up to 64 bits into lane 0, after which the other lanes may have any value.
    ///
    /// None exactly for `I8X8`.
    pub fn gen_load(into_reg: Writable<Reg>, mem: MemArg, ty: ValueType) -> Option<Inst>
        ensures { result ≡ load_of into_reg mem ty }
    {
        let rd = into_reg;
        match ty {
            ValueType::I8 => Some(Inst::Load64ZExt8 { rd, mem }),
            ValueType::I16 => Some(Inst::Load64ZExt16 { rd, mem }),
            ValueType::I32 => Some(Inst::Load64ZExt32 { rd, mem }),
            ValueType::I64 => Some(Inst::Load64 { rd, mem }),
            ValueType::F16 => Some(lane_load(16, rd, mem)),
            ValueType::F32 => Some(lane_load(32, rd, mem)),
            ValueType::F64 => Some(lane_load(64, rd, mem)),
            ValueType::I8X8 => None,
            ValueType::I128
            | ValueType::F128
            | ValueType::I8X16
            | ValueType::I16X8
            | ValueType::I32X4
            | ValueType::I64X2
            | ValueType::F32X4
            | ValueType::F64X2 => Some(Inst::Vector(VecInst::VecLoad { rd, mem })),
        }
    }

    /// A store of a value of the type, from the register into which `gen_load` loads it.
    ///
    /// None exactly for `I8X8`.
    pub fn gen_store(mem: MemArg, from_reg: Reg, ty: ValueType) -> Option<Inst>
        ensures { result ≡ store_of mem from_reg ty }
    {
        let rd = from_reg;
        match ty {
            ValueType::I8 => Some(Inst::Store8 { rd, mem }),
            ValueType::I16 => Some(Inst::Store16 { rd, mem }),
            ValueType::I32 => Some(Inst::Store32 { rd, mem }),
            ValueType::I64 => Some(Inst::Store64 { rd, mem }),
            ValueType::F16 => Some(lane_store(16, rd, mem)),
            ValueType::F32 => Some(lane_store(32, rd, mem)),
            ValueType::F64 => Some(lane_store(64, rd, mem)),
            ValueType::I8X8 => None,
            ValueType::I128
            | ValueType::F128
            | ValueType::I8X16
            | ValueType::I16X8
            | ValueType::I32X4
            | ValueType::I64X2
            | ValueType::F32X4
            | ValueType::F64X2 => Some(Inst::Vector(VecInst::VecStore { rd, mem })),
        }
    }
}

/// The class of a register that is used again.
fn class(reg: &Reg) -> RegClass
    ensures { result ≡ class_of reg.now }
{
    reg.class()
}

/// A load of lane 0, which leaves the other lanes to chance.
fn lane_load(size: u32, rd: Writable<Reg>, mem: MemArg) -> Inst
    ensures { result ≡ Inst.Vector (VecInst.VecLoadLaneUndef size rd mem 0) }
{
    Inst::Vector(VecInst::VecLoadLaneUndef {
        size,
        rd,
        mem,
        lane_imm: 0,
    })
}

/// A store of lane 0.
fn lane_store(size: u32, rd: Reg, mem: MemArg) -> Inst
    ensures { result ≡ Inst.Vector (VecInst.VecStoreLane size rd mem 0) }
{
    Inst::Vector(VecInst::VecStoreLane {
        size,
        rd,
        mem,
        lane_imm: 0,
    })
}
