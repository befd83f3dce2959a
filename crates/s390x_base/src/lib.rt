//! Registers, immediates, conditions, flags, trap codes and errors of the s390x machine layer.
#![tactic(auto)]

mod code;
mod cond;
mod error;
mod imms;
mod ir;
mod regs;
mod sets;
mod trap;

pub use code::Code;
pub use cond::{Cond, FloatCC, IntCC};
pub use error::{EmitError, NoMemory};
pub use imms::{SImm20, UImm12, UImm16Shifted, UImm32Shifted};
pub use ir::{
    Addend, CodeOffset, ConstantData, ExternalName, MachLabel, MachMemFlags, Reloc, VCodeConstant,
    ValueType,
};
pub use regs::{
    PReg, Reg, RegClass, RegPair, Writable, WritableRegPair, gpr, gpr_preg, is_fpr, spilltmp_reg,
    stack_reg, valid_regpair, vr, vr_preg, writable_gpr, writable_spilltmp_reg, writable_stack_reg,
    writable_vr, zero_reg,
};
pub use sets::PRegSet;
pub use trap::{TrapCode, TrapKind};
