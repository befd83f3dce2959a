//! Those to whom operands are reported.
ghost use Rattle.std.specs.Prelude.{◌≡◌, ◌++◌, ◌∷◌, ◌||◌, [], Bool, List, IfErr};
ghost use Rattle.s390x_operands.specs.declared.constraint.Reported.{Reported};
ghost use Rattle.s390x_operands.specs.declared.constraint.OperandConstraint.TheVariants.{Any, Reuse, FixedReg, Reg as InRegister};
ghost use Rattle.s390x_operands.specs.declared.constraint.OperandKind.TheVariants.{Def, Use};
ghost use Rattle.s390x_operands.specs.declared.constraint.OperandPos.TheVariants.{Early, Late};
ghost use Rattle.s390x_operands.specs.declared.constraint.Reported.TheVariants.{Operand, Fixed, Clobbers};
ghost use Rattle.s390x_operands.specs.Visits.{Takes, placed_or};

use crate::constraint::{OperandConstraint, OperandError, OperandKind, OperandPos};
use s390x_base::{PReg, PRegSet, Reg, Writable};

/// One who is told the operands of an instruction, in order.
///
/// A call that succeeds appends one item to what was reported so far, and a refused one none. It is refused with
/// `ReuseInLoop` exactly where the visitor denies and the item's constraint is a `Reuse`, never with `NotReal`, and
/// with `NoMemory` where the visitor has no room.
pub trait OperandVisitor {
    // What was reported so far.
    ghost items: { Self → List Reported };

    // Whether a `Reuse` is denied.
    ghost denies: { Self → Bool };

    /// Reports a register with its constraint.
    fn add_operand(
        &mut self,
        reg: Reg,
        constraint: OperandConstraint,
        kind: OperandKind,
        pos: OperandPos,
    ) -> Result<(), OperandError>
        ensures takes { Takes (denies self.old) (Operand reg constraint kind pos) (items self.old)
            (items self.new) result }
        ensures denies { denies self.new ≡ denies self.old };

    /// Reports a real register that no operand stands for.
    fn reg_fixed_nonallocatable(&mut self, preg: PReg) -> Result<(), OperandError>
        ensures takes { Takes (denies self.old) (Fixed preg) (items self.old) (items self.new)
            result }
        ensures denies { denies self.new ≡ denies self.old };

    /// Reports real registers whose values are lost.
    fn reg_clobbers(&mut self, regs: PRegSet) -> Result<(), OperandError>
        ensures takes { Takes (denies self.old) (Clobbers regs) (items self.old) (items self.new)
            result }
        ensures denies { denies self.new ≡ denies self.old };

    /// Reports a register that is read at the beginning; a real one as fixed.
    #[inline(always)]
    fn reg_use(&mut self, reg: Reg) -> Result<(), OperandError>
        ensures takes { Takes (denies self.old) (placed_or InRegister Use Early reg)
            (items self.old) (items self.new) result }
        ensures denies { denies self.new ≡ denies self.old }
    {
        match reg {
            Reg::Real(preg) => self.reg_fixed_nonallocatable(preg),
            Reg::Virtual { .. } => self.add_operand(
                reg,
                OperandConstraint::Reg,
                OperandKind::Use,
                OperandPos::Early,
            ),
        }
    }

    /// Reports a register that is written at the end; a real one as fixed.
    #[inline(always)]
    fn reg_def(&mut self, reg: Writable<Reg>) -> Result<(), OperandError>
        ensures takes { Takes (denies self.old) (placed_or InRegister Def Late reg) (items self.old)
            (items self.new) result }
        ensures denies { denies self.new ≡ denies self.old }
    {
        match reg.to_reg() {
            Reg::Real(preg) => self.reg_fixed_nonallocatable(preg),
            Reg::Virtual { num, class } => self.add_operand(
                Reg::Virtual { num, class },
                OperandConstraint::Reg,
                OperandKind::Def,
                OperandPos::Late,
            ),
        }
    }

    /// Reports a register that is written at the end and has to be that of the operand `idx`; a real one as fixed.
    fn reg_reuse_def(&mut self, reg: Writable<Reg>, idx: usize) -> Result<(), OperandError>
        ensures takes { Takes (denies self.old) (placed_or (Reuse idx) Def Late reg)
            (items self.old) (items self.new) result }
        ensures denies { denies self.new ≡ denies self.old }
    {
        match reg.to_reg() {
            Reg::Real(preg) => self.reg_fixed_nonallocatable(preg),
            Reg::Virtual { num, class } => self.add_operand(
                Reg::Virtual { num, class },
                OperandConstraint::Reuse(idx),
                OperandKind::Def,
                OperandPos::Late,
            ),
        }
    }

    /// Reports a register that is read at the beginning, in the register `preg`.
    fn reg_fixed_use(&mut self, reg: Reg, preg: PReg) -> Result<(), OperandError>
        ensures takes { Takes (denies self.old) (Operand reg (FixedReg preg) Use Early)
            (items self.old) (items self.new) result }
        ensures denies { denies self.new ≡ denies self.old }
    {
        self.add_operand(
            reg,
            OperandConstraint::FixedReg(preg),
            OperandKind::Use,
            OperandPos::Early,
        )
    }

    /// Reports a register that is written at the end, in the register `preg`.
    fn reg_fixed_def(&mut self, reg: Writable<Reg>, preg: PReg) -> Result<(), OperandError>
        ensures takes { Takes (denies self.old) (Operand reg (FixedReg preg) Def Late)
            (items self.old) (items self.new) result }
        ensures denies { denies self.new ≡ denies self.old }
    {
        self.add_operand(
            reg.to_reg(),
            OperandConstraint::FixedReg(preg),
            OperandKind::Def,
            OperandPos::Late,
        )
    }

    /// Reports a register or a place on the stack that is written at the end.
    fn any_def(&mut self, reg: Writable<Reg>) -> Result<(), OperandError>
        ensures takes { Takes (denies self.old) (Operand reg Any Def Late) (items self.old)
            (items self.new) result }
        ensures denies { denies self.new ≡ denies self.old }
    {
        self.add_operand(
            reg.to_reg(),
            OperandConstraint::Any,
            OperandKind::Def,
            OperandPos::Late,
        )
    }
}

/// A visitor that passes items on in order, and denies a `Reuse` where `deny_reuse` is true or the inner visitor denies.
#[derive(Drop)]
pub struct DenyReuseVisitor<'a, T> {
    pub inner: &'a mut T,
    pub deny_reuse: bool,
}

impl<'a, T: OperandVisitor> OperandVisitor for DenyReuseVisitor<'a, T> {
    ghost items = { λ v. T.items v.inner.now };

    ghost denies = { λ v. v.deny_reuse || T.denies v.inner.now };

    fn add_operand(
        &mut self,
        reg: Reg,
        constraint: OperandConstraint,
        kind: OperandKind,
        pos: OperandPos,
    ) -> Result<(), OperandError> {
        match constraint {
            OperandConstraint::Reuse(_) if self.deny_reuse => Err(OperandError::ReuseInLoop),
            _ => self.inner.add_operand(reg, constraint, kind, pos),
        }
    }

    fn reg_fixed_nonallocatable(&mut self, preg: PReg) -> Result<(), OperandError> {
        self.inner.reg_fixed_nonallocatable(preg)
    }

    fn reg_clobbers(&mut self, regs: PRegSet) -> Result<(), OperandError> {
        self.inner.reg_clobbers(regs)
    }
}
