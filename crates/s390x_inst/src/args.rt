//! Memory operands.
ghost use Rattle.std.specs.Prelude.{◌≡◌};
ghost use Rattle.s390x_base.specs.Registers.{general};
ghost use Rattle.s390x_inst.specs.Memory.{flags_of};

use s390x_base::{
    ExternalName, MachLabel, MachMemFlags, Reg, SImm20, UImm12, VCodeConstant, zero_reg,
};

/// A memory argument to a load or store, encapsulating the possible addressing modes.
#[derive(Clone, Copy, PartialEq, Eq, Debug)]
pub enum MemArg {
    /// Base plus index plus an unsigned displacement of 12 bits. `%r0` as base or index counts as zero.
    BXD12 {
        base: Reg,
        index: Reg,
        disp: UImm12,
        flags: MachMemFlags,
    },
    /// Base plus index plus a signed displacement of 20 bits. `%r0` as base or index counts as zero.
    BXD20 {
        base: Reg,
        index: Reg,
        disp: SImm20,
        flags: MachMemFlags,
    },
    /// The address of a label.
    Label {
        target: MachLabel,
    },
    /// The address of a declared constant.
    Constant {
        constant: VCodeConstant,
    },
    /// The address of a symbol, plus an offset.
    Symbol {
        name: ExternalName,
        offset: i32,
        flags: MachMemFlags,
    },
    /// A register plus an offset, which emission lowers to one of the forms above. `%r0` counts as zero.
    RegOffset {
        reg: Reg,
        off: i64,
        flags: MachMemFlags,
    },
    /// Offset from the stack pointer at the function's entry.
    InitialSPOffset {
        off: i64,
    },
    /// Offset into the function's incoming arguments.
    IncomingArgOffset {
        off: i64,
    },
    /// Offset into the outgoing arguments of a call.
    OutgoingArgOffset {
        off: i64,
    },
    /// Offset into the function's stack slots.
    SlotOffset {
        off: i64,
    },
    /// Offset into the function's spill area.
    SpillOffset {
        off: i64,
    },
}

impl MemArg {
    /// The address in a register.
    pub fn reg(reg: Reg, flags: MachMemFlags) -> MemArg
        ensures { result ≡ MemArg.BXD12 reg (Reg.Real (general 0)) 0 flags }
    {
        MemArg::BXD12 {
            base: reg,
            index: zero_reg(),
            disp: UImm12::zero(),
            flags,
        }
    }

    /// The sum of two registers.
    pub fn reg_plus_reg(reg1: Reg, reg2: Reg, flags: MachMemFlags) -> MemArg
        ensures { result ≡ MemArg.BXD12 reg1 reg2 0 flags }
    {
        MemArg::BXD12 {
            base: reg1,
            index: reg2,
            disp: UImm12::zero(),
            flags,
        }
    }

    /// A register plus an offset.
    pub fn reg_plus_off(reg: Reg, off: i64, flags: MachMemFlags) -> MemArg
        ensures { result ≡ MemArg.RegOffset reg off flags }
    {
        MemArg::RegOffset { reg, off, flags }
    }

    /// The flags, or trusted ones where the form has none.
    pub fn get_flags(&self) -> MachMemFlags
        ensures { result ≡ flags_of self.now }
    {
        match self {
            MemArg::BXD12 { flags, .. } | MemArg::BXD20 { flags, .. } => *flags,
            MemArg::Symbol { flags, .. } | MemArg::RegOffset { flags, .. } => *flags,
            _ => MachMemFlags::trusted(),
        }
    }
}
