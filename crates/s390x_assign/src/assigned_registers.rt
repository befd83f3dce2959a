//! The registers that an allocator assigned, as they are taken one by one.
ghost use Rattle.std.specs.Prelude.{◌≡◌, List, drop};
ghost use Rattle.s390x_base.specs.declared.regs.Reg.{Reg};
ghost use Rattle.s390x_assign.specs.Assignments.{operand_at, assigned_role, placed_at, after_placed, result_at, destination_at};

use s390x_base::{Reg, RegPair, Writable, WritableRegPair};
use s390x_described::Replacer;
use s390x_inst::{CallInstDest, MemArg, RetLocation};

/// Registers for the operands of an instruction, in the order of its report.
#[derive(Drop)]
pub struct AssignedRegisters<'a> {
    /// Those that no operand took yet.
    pub left: &'a [Reg],
}

impl<'a> AssignedRegisters<'a> {
    /// The next register, in place of an operand; the operand where none is left.
    pub fn operand(&mut self, reg: Reg) -> Reg
        ensures value { result ≡ operand_at reg self.old.left.now }
        ensures left { self.new.left.now ≡ drop 1 self.old.left.now }
    {
        match self.left.split_first() {
            Some((first, rest)) => {
                self.left = rest;
                *first
            }
            None => reg,
        }
    }

    /// An operand that stands in a place that has to be real; the operand itself where that is virtual.
    pub fn operand_in_place(&mut self, place: Reg, reg: Reg) -> Reg
        ensures value { result ≡ placed_at place reg self.old.left.now }
        ensures left { self.new.left.now ≡ after_placed place self.old.left.now }
    {
        match place {
            Reg::Real(_) => self.operand(reg),
            Reg::Virtual { .. } => reg,
        }
    }

    /// A result of a call: an operand in a place that has to be real, or one that is read from the stack.
    pub fn result(&mut self, location: &RetLocation, reg: Reg) -> Reg
        ensures value { result ≡ (result_at reg location.now self.old.left.now).0 }
        ensures left { self.new.left.now ≡ (result_at reg location.now self.old.left.now).1 }
    {
        match location {
            RetLocation::Reg(place, _) => self.operand_in_place(*place, reg),
            RetLocation::Stack(..) => self.operand(reg),
        }
    }

    /// The target of a call.
    pub fn destination(&mut self, dest: &CallInstDest) -> CallInstDest
        ensures value { result ≡ (destination_at dest.now self.old.left.now).0 }
        ensures left { self.new.left.now ≡ (destination_at dest.now self.old.left.now).1 }
    {
        match dest {
            CallInstDest::Direct { .. } => *dest,
            CallInstDest::Indirect { reg } => CallInstDest::Indirect {
                reg: self.input(*reg),
            },
        }
    }
}

impl<'a> Replacer for AssignedRegisters<'a> {
    ghost State = { List Reg };

    ghost state = { λ s. s.left.now };

    ghost role_at = { assigned_role };

    // A real register is no operand, so it stays.
    fn input(&mut self, reg: Reg) -> Reg {
        match reg {
            Reg::Real(_) => reg,
            Reg::Virtual { .. } => self.operand(reg),
        }
    }

    fn output(&mut self, reg: Writable<Reg>) -> Writable<Reg> {
        Writable::from_reg(self.input(reg.to_reg()))
    }

    fn tied_output(&mut self, reg: Writable<Reg>) -> Writable<Reg> {
        self.output(reg)
    }

    fn output_pair(&mut self, pair: WritableRegPair) -> WritableRegPair {
        WritableRegPair {
            hi: Writable::from_reg(self.operand(pair.hi.to_reg())),
            lo: Writable::from_reg(self.operand(pair.lo.to_reg())),
        }
    }

    fn low_input(&mut self, reg: Reg) -> Reg {
        self.operand(reg)
    }

    fn input_pair(&mut self, pair: RegPair) -> RegPair {
        RegPair {
            hi: self.operand(pair.hi),
            lo: self.operand(pair.lo),
        }
    }

    fn memory(&mut self, mem: MemArg) -> MemArg {
        match mem {
            MemArg::BXD12 {
                base,
                index,
                disp,
                flags,
            } => MemArg::BXD12 {
                base: self.input(base),
                index: self.input(index),
                disp,
                flags,
            },
            MemArg::BXD20 {
                base,
                index,
                disp,
                flags,
            } => MemArg::BXD20 {
                base: self.input(base),
                index: self.input(index),
                disp,
                flags,
            },
            MemArg::RegOffset { reg, off, flags } => MemArg::RegOffset {
                reg: self.input(reg),
                off,
                flags,
            },
            _ => mem,
        }
    }
}
