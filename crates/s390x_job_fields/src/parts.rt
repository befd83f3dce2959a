//! Each type of a field as a part of a line.
ghost use Rattle.s390x_base.specs.Registers.{general, vector};
ghost use Rattle.s390x_base.specs.Sets.{has};
ghost use Rattle.s390x_job_fields.specs.Numbers.{W8, W16, W32, W64, S8, S16, S20, S32};
ghost use Rattle.s390x_job_fields.specs.Calls.{try_part};
ghost use Rattle.s390x_job_fields.specs.Sets.{members_of};
ghost use Rattle.s390x_job_fields.specs.Fields.{FAlu, FArgs, FBool, FBytes, FCmp, FCond, FConvention, FDefs, FFlags, FInteger, FLabels, FMemory, FName, FNatural, FOption, FPair, FReal, FReg, FReloc, FRets, FRxsbg, FSet, FShift, FShifted, FStart, FTarget, FTrap, FTry, FUnary, FUses, FVecBinary, FVecCompare, FVecElementCompare, FVecShift, FVecUnary};

use crate::atoms::{put_bool, put_name, put_real, put_reg, put_trap};
use crate::bytes::{put_bytes, put_facilities, put_vector};
use crate::calls::{put_reloc, put_target, put_try};
use crate::list::put_list;
use crate::memory::put_memory;
use crate::number::{put, put_char, put_integer, put_natural};
use crate::part::Part;
use crate::sets::set_members;
use crate::word::Word;
use s390x_base::{
    Cond, ExternalName, MachLabel, PReg, PRegSet, Reg, RegPair, SImm20, TrapCode, UImm16Shifted,
    UImm32Shifted, Writable, WritableRegPair, gpr_preg, vr_preg,
};
use s390x_inst::{
    ALUOp, ArgPair, CallArgPair, CallConv, CallInstDest, CallRetPair, CmpOp, IsaFlags, MemArg,
    RetPair, RxSBGOp, ShiftOp, SymbolReloc, TryCallInfo, UnaryOp, VecBinaryOp, VecIntCmpOp,
    VecIntEltCmpOp, VecShiftOp, VecUnaryOp,
};
use std::alloc::{AllocError, Global};

impl Part for Reg {
    ghost field = { FReg };

    fn put(&self, _alloc: Global, out: &mut String) -> Result<(), AllocError> {
        put_char(out, ' ')?;
        put_reg(out, *self)
    }
}

impl Part for Writable<Reg> {
    ghost field = { FReg };

    fn put(&self, _alloc: Global, out: &mut String) -> Result<(), AllocError> {
        put_char(out, ' ')?;
        put_reg(out, self.to_reg())
    }
}

impl Part for PReg {
    ghost field = { FReal };

    fn put(&self, _alloc: Global, out: &mut String) -> Result<(), AllocError> {
        put_char(out, ' ')?;
        put_real(out, *self)
    }
}

impl Part for RegPair {
    ghost field = { λ p. FPair p.hi p.lo };

    fn put(&self, _alloc: Global, out: &mut String) -> Result<(), AllocError> {
        put_char(out, ' ')?;
        put_reg(out, self.hi)?;
        put_char(out, '/')?;
        put_reg(out, self.lo)
    }
}

impl Part for WritableRegPair {
    ghost field = { λ p. FPair p.hi p.lo };

    fn put(&self, _alloc: Global, out: &mut String) -> Result<(), AllocError> {
        put_char(out, ' ')?;
        put_reg(out, self.hi.to_reg())?;
        put_char(out, '/')?;
        put_reg(out, self.lo.to_reg())
    }
}

impl Part for ALUOp {
    ghost field = { FAlu };

    fn put(&self, _alloc: Global, out: &mut String) -> Result<(), AllocError> {
        put_char(out, ' ')?;
        put(out, self.text())
    }
}

impl Part for CmpOp {
    ghost field = { FCmp };

    fn put(&self, _alloc: Global, out: &mut String) -> Result<(), AllocError> {
        put_char(out, ' ')?;
        put(out, self.text())
    }
}

impl Part for ShiftOp {
    ghost field = { FShift };

    fn put(&self, _alloc: Global, out: &mut String) -> Result<(), AllocError> {
        put_char(out, ' ')?;
        put(out, self.text())
    }
}

impl Part for RxSBGOp {
    ghost field = { FRxsbg };

    fn put(&self, _alloc: Global, out: &mut String) -> Result<(), AllocError> {
        put_char(out, ' ')?;
        put(out, self.text())
    }
}

impl Part for UnaryOp {
    ghost field = { FUnary };

    fn put(&self, _alloc: Global, out: &mut String) -> Result<(), AllocError> {
        put_char(out, ' ')?;
        put(out, self.text())
    }
}

impl Part for VecBinaryOp {
    ghost field = { FVecBinary };

    fn put(&self, _alloc: Global, out: &mut String) -> Result<(), AllocError> {
        put_char(out, ' ')?;
        put(out, self.text())
    }
}

impl Part for VecUnaryOp {
    ghost field = { FVecUnary };

    fn put(&self, _alloc: Global, out: &mut String) -> Result<(), AllocError> {
        put_char(out, ' ')?;
        put(out, self.text())
    }
}

impl Part for VecShiftOp {
    ghost field = { FVecShift };

    fn put(&self, _alloc: Global, out: &mut String) -> Result<(), AllocError> {
        put_char(out, ' ')?;
        put(out, self.text())
    }
}

impl Part for VecIntCmpOp {
    ghost field = { FVecCompare };

    fn put(&self, _alloc: Global, out: &mut String) -> Result<(), AllocError> {
        put_char(out, ' ')?;
        put(out, self.text())
    }
}

impl Part for VecIntEltCmpOp {
    ghost field = { FVecElementCompare };

    fn put(&self, _alloc: Global, out: &mut String) -> Result<(), AllocError> {
        put_char(out, ' ')?;
        put(out, self.text())
    }
}

impl Part for CallConv {
    ghost field = { FConvention };

    fn put(&self, _alloc: Global, out: &mut String) -> Result<(), AllocError> {
        put_char(out, ' ')?;
        put(out, self.text())
    }
}

impl Part for bool {
    ghost field = { FBool };

    fn put(&self, _alloc: Global, out: &mut String) -> Result<(), AllocError> {
        put_char(out, ' ')?;
        put_bool(out, *self)
    }
}

impl Part for u8 {
    ghost field = { FNatural W8 };

    fn put(&self, _alloc: Global, out: &mut String) -> Result<(), AllocError> {
        put_char(out, ' ')?;
        put_natural(out, u64::from(*self))
    }
}

impl Part for u16 {
    ghost field = { FNatural W16 };

    fn put(&self, _alloc: Global, out: &mut String) -> Result<(), AllocError> {
        put_char(out, ' ')?;
        put_natural(out, u64::from(*self))
    }
}

impl Part for u32 {
    ghost field = { FNatural W32 };

    fn put(&self, _alloc: Global, out: &mut String) -> Result<(), AllocError> {
        put_char(out, ' ')?;
        put_natural(out, u64::from(*self))
    }
}

impl Part for u64 {
    ghost field = { FNatural W64 };

    fn put(&self, _alloc: Global, out: &mut String) -> Result<(), AllocError> {
        put_char(out, ' ')?;
        put_natural(out, *self)
    }
}

impl Part for i8 {
    ghost field = { FInteger S8 };

    fn put(&self, _alloc: Global, out: &mut String) -> Result<(), AllocError> {
        put_char(out, ' ')?;
        put_integer(out, i64::from(*self))
    }
}

impl Part for i16 {
    ghost field = { FInteger S16 };

    fn put(&self, _alloc: Global, out: &mut String) -> Result<(), AllocError> {
        put_char(out, ' ')?;
        put_integer(out, i64::from(*self))
    }
}

impl Part for i32 {
    ghost field = { FInteger S32 };

    fn put(&self, _alloc: Global, out: &mut String) -> Result<(), AllocError> {
        put_char(out, ' ')?;
        put_integer(out, i64::from(*self))
    }
}

impl Part for SImm20 {
    ghost field = { FInteger S20 };

    fn put(&self, _alloc: Global, out: &mut String) -> Result<(), AllocError> {
        put_char(out, ' ')?;
        put_integer(out, i64::from(self.value()))
    }
}

impl Part for UImm16Shifted {
    ghost field = { λ i. FShifted W16 i.bits i.shift };

    fn put(&self, _alloc: Global, out: &mut String) -> Result<(), AllocError> {
        put_char(out, ' ')?;
        put_natural(out, u64::from(self.bits))?;
        put_char(out, ':')?;
        put_natural(out, u64::from(self.shift))
    }
}

impl Part for UImm32Shifted {
    ghost field = { λ i. FShifted W32 i.bits i.shift };

    fn put(&self, _alloc: Global, out: &mut String) -> Result<(), AllocError> {
        put_char(out, ' ')?;
        put_natural(out, u64::from(self.bits))?;
        put_char(out, ':')?;
        put_natural(out, u64::from(self.shift))
    }
}

impl Part for MemArg {
    ghost field = { FMemory };

    fn put(&self, _alloc: Global, out: &mut String) -> Result<(), AllocError> {
        put_char(out, ' ')?;
        put_memory(out, *self)
    }
}

impl Part for Cond {
    ghost field = { FCond };

    fn put(&self, _alloc: Global, out: &mut String) -> Result<(), AllocError> {
        put_char(out, ' ')?;
        put_natural(out, u64::from(self.bits()))
    }
}

impl Part for TrapCode {
    ghost field = { FTrap };

    fn put(&self, _alloc: Global, out: &mut String) -> Result<(), AllocError> {
        put_char(out, ' ')?;
        put_trap(out, *self)
    }
}

impl Part for MachLabel {
    ghost field = { λ l. FNatural W32 l.0 };

    fn put(&self, _alloc: Global, out: &mut String) -> Result<(), AllocError> {
        put_char(out, ' ')?;
        put_natural(out, u64::from(self.0))
    }
}

impl Part for Vec<MachLabel> {
    ghost field = { λ v. FLabels v.items };

    fn put(&self, _alloc: Global, out: &mut String) -> Result<(), AllocError> {
        put_char(out, ' ')?;
        put_list(out, self)
    }
}

impl Part for Vec<ArgPair> {
    ghost field = { λ v. FArgs v.items };

    fn put(&self, _alloc: Global, out: &mut String) -> Result<(), AllocError> {
        put_char(out, ' ')?;
        put_list(out, self)
    }
}

impl Part for Vec<RetPair> {
    ghost field = { λ v. FRets v.items };

    fn put(&self, _alloc: Global, out: &mut String) -> Result<(), AllocError> {
        put_char(out, ' ')?;
        put_list(out, self)
    }
}

impl Part for Vec<CallArgPair> {
    ghost field = { λ v. FUses v.items };

    fn put(&self, _alloc: Global, out: &mut String) -> Result<(), AllocError> {
        put_char(out, ' ')?;
        put_list(out, self)
    }
}

impl Part for Vec<CallRetPair> {
    ghost field = { λ v. FDefs v.items };

    fn put(&self, _alloc: Global, out: &mut String) -> Result<(), AllocError> {
        put_char(out, ' ')?;
        put_list(out, self)
    }
}

impl Part for PRegSet {
    ghost field = { λ p. FSet (members_of (has p)) };

    fn put(&self, alloc: Global, out: &mut String) -> Result<(), AllocError> {
        put_char(out, ' ')?;
        let list = set_members(alloc, *self)?;
        put_list(out, &list)
    }
}

impl Part for CallInstDest {
    ghost field = { FTarget };

    fn put(&self, _alloc: Global, out: &mut String) -> Result<(), AllocError> {
        put_char(out, ' ')?;
        put_target(out, *self)
    }
}

impl Part for Option<TryCallInfo> {
    ghost field = { λ t. FTry (try_part t) };

    fn put(&self, _alloc: Global, out: &mut String) -> Result<(), AllocError> {
        put_char(out, ' ')?;
        put_try(out, self)
    }
}

impl Part for SymbolReloc {
    ghost field = { FReloc };

    fn put(&self, _alloc: Global, out: &mut String) -> Result<(), AllocError> {
        put_char(out, ' ')?;
        put_reloc(out, *self)
    }
}

impl Part for ExternalName {
    ghost field = { λ n. FName n.0 };

    fn put(&self, _alloc: Global, out: &mut String) -> Result<(), AllocError> {
        put_char(out, ' ')?;
        put_name(out, *self)
    }
}

impl Part for Vec<u8> {
    ghost field = { λ v. FBytes v.items };

    fn put(&self, alloc: Global, out: &mut String) -> Result<(), AllocError> {
        put_char(out, ' ')?;
        put_bytes(alloc, out, self)
    }
}

impl Part for Option<u32> {
    ghost field = { FOption W32 };

    fn put(&self, _alloc: Global, out: &mut String) -> Result<(), AllocError> {
        match self {
            None => put(out, " -"),
            Some(n) => {
                put_char(out, ' ')?;
                put_natural(out, u64::from(*n))
            }
        }
    }
}

impl Part for Option<u8> {
    ghost field = { FOption W8 };

    fn put(&self, _alloc: Global, out: &mut String) -> Result<(), AllocError> {
        match self {
            None => put(out, " -"),
            Some(n) => {
                put_char(out, ' ')?;
                put_natural(out, u64::from(*n))
            }
        }
    }
}

impl Part for IsaFlags {
    ghost field = { FFlags };

    fn put(&self, _alloc: Global, out: &mut String) -> Result<(), AllocError> {
        put_facilities(out, *self)
    }
}

/// What a general register starts with.
#[derive(Clone, Copy)]
pub struct GeneralStart {
    pub number: u8,
    pub value: u64,
}

/// What a vector register starts with.
#[derive(Clone, Copy)]
pub struct VectorStart {
    pub number: u8,
    pub value: u128,
}

impl Part for GeneralStart {
    ghost field = { λ r. FStart (general r.number) r.value };

    fn put(&self, _alloc: Global, out: &mut String) -> Result<(), AllocError> {
        put_char(out, ' ')?;
        put(out, "%r")?;
        put_natural(out, u64::from(self.number))?;
        put_char(out, ' ')?;
        put_natural(out, self.value)
    }
}

impl Part for VectorStart {
    ghost field = { λ r. FStart (vector r.number) r.value };

    fn put(&self, _alloc: Global, out: &mut String) -> Result<(), AllocError> {
        put_char(out, ' ')?;
        put(out, "%v")?;
        put_natural(out, u64::from(self.number))?;
        put_char(out, ' ')?;
        put_vector(out, self.value)
    }
}
