//! A visitor that keeps the items of one instruction.
ghost use Rattle.std.specs.Prelude.{◌≡◌, ◌++◌, false, []};
ghost use Rattle.s390x_operands.specs.Visits.{Takes};

use s390x_base::{PReg, PRegSet, Reg};
use s390x_operands::{
    OperandConstraint, OperandError, OperandKind, OperandList, OperandPos, OperandVisitor, Reported,
};
use std::alloc::Global;

/// A visitor that keeps what it is told, and denies nothing: the real registers that come before any other item by
/// themselves, since where all registers are real most lines have no other. It refuses for want of memory alone.
#[derive(Drop)]
pub struct ItemList {
    fixed: Vec<PReg>,
    others: OperandList,
}

impl ItemList {
    ghost use Rattle.s390x_listing.specs.Lists.{items_in};

    /// A visitor that was told nothing yet.
    pub fn new(alloc: Global) -> ItemList {
        ItemList {
            fixed: Vec::new(alloc),
            others: OperandList::new(alloc),
        }
    }

    /// The real registers that came before any other item.
    pub fn fixed(&self) -> &[PReg]
        ensures { result.now ≡ self.now.fixed.items }
    {
        &self.fixed
    }

    /// The items behind those.
    pub fn others(&self) -> &[Reported]
        ensures { result.now ≡ self.now.others.items.items }
    {
        self.others.items()
    }

    /// Forgets what was reported, and keeps the room for it.
    pub fn clear(&mut self)
        ensures { items_in self.new ≡ [] }
    {
        self.fixed.clear();
        self.others.clear();
    }

    // Keeps one of the first real registers.
    #[inline(always)]
    fn take_fixed(&mut self, preg: PReg) -> Result<(), OperandError>
        requires { self.old.others.items.items ≡ [] }
        ensures { Takes false (Reported.Fixed preg) (items_in self.old) (items_in self.new) result }
    {
        match self.fixed.push(preg) {
            Ok(()) => Ok(()),
            Err(_) => Err(OperandError::NoMemory),
        }
    }

    // Keeps a real register behind all others. It is rare, so its code doesn't stand in each instruction's report.
    #[inline(never)]
    #[tactic(auto, using(crate::proofs::Lines::taken_behind))]
    fn take_late(&mut self, preg: PReg) -> Result<(), OperandError>
        ensures { Takes false (Reported.Fixed preg) (items_in self.old) (items_in self.new) result }
    {
        self.others.reg_fixed_nonallocatable(preg)
    }
}

impl OperandVisitor for ItemList {
    ghost use Rattle.s390x_listing.specs.Lists.{items_in};

    ghost items = { items_in };

    ghost denies = { λ v. false };

    #[tactic(auto, using(crate::proofs::Lines::taken_behind))]
    fn add_operand(
        &mut self,
        reg: Reg,
        constraint: OperandConstraint,
        kind: OperandKind,
        pos: OperandPos,
    ) -> Result<(), OperandError> {
        self.others.add_operand(reg, constraint, kind, pos)
    }

    #[inline(always)]
    fn reg_fixed_nonallocatable(&mut self, preg: PReg) -> Result<(), OperandError> {
        if self.others.items().is_empty() {
            self.take_fixed(preg)
        } else {
            self.take_late(preg)
        }
    }

    #[tactic(auto, using(crate::proofs::Lines::taken_behind))]
    fn reg_clobbers(&mut self, regs: PRegSet) -> Result<(), OperandError> {
        self.others.reg_clobbers(regs)
    }
}
