//! A visitor that collects.
ghost use Rattle.std.specs.Prelude.{◌≡◌, false, []};
ghost use Rattle.s390x_operands.specs.Visits.{Takes};

use crate::constraint::{OperandConstraint, OperandError, OperandKind, OperandPos, Reported};
use crate::visitor::OperandVisitor;
use s390x_base::{PReg, PRegSet, Reg};
use std::alloc::Global;

/// A visitor that keeps what it is told, and denies nothing. It refuses for want of memory alone.
#[derive(Drop)]
pub struct OperandList {
    items: Vec<Reported>,
}

impl OperandList {
    /// A visitor that was told nothing yet.
    pub fn new(alloc: Global) -> OperandList
        ensures { result.items.items ≡ [] }
    {
        OperandList {
            items: Vec::new(alloc),
        }
    }

    /// What was reported so far, in order.
    pub fn items(&self) -> &[Reported]
        ensures { result.now ≡ self.now.items.items }
    {
        &self.items
    }

    /// Forgets what was reported, and keeps the room for it.
    pub fn clear(&mut self)
        ensures { self.new.items.items ≡ [] }
    {
        self.items.clear();
    }

    // Keeps one item.
    #[inline(always)]
    fn take(&mut self, item: Reported) -> Result<(), OperandError>
        ensures { Takes false item self.old.items.items self.new.items.items result }
    {
        match self.items.extend_from_slice(&[item]) {
            Ok(()) => Ok(()),
            Err(_) => Err(OperandError::NoMemory),
        }
    }
}

impl OperandVisitor for OperandList {
    ghost items = { λ v. v.items.items };

    ghost denies = { λ v. false };

    fn add_operand(
        &mut self,
        reg: Reg,
        constraint: OperandConstraint,
        kind: OperandKind,
        pos: OperandPos,
    ) -> Result<(), OperandError> {
        self.take(Reported::Operand {
            reg,
            constraint,
            kind,
            pos,
        })
    }

    fn reg_fixed_nonallocatable(&mut self, preg: PReg) -> Result<(), OperandError> {
        self.take(Reported::Fixed(preg))
    }

    fn reg_clobbers(&mut self, regs: PRegSet) -> Result<(), OperandError> {
        self.take(Reported::Clobbers(regs))
    }
}
