//! Sets of virtual registers.
ghost use Rattle.std.specs.Prelude.{◌≡◌, ℕ, ◌&&◌, ◌||◌, false, true, not, IfOk};
ghost use Rattle.s390x_base.specs.declared.regs.RegClass.{RegClass as Class};
ghost use Rattle.s390x_alloc.specs.Registers.{HasOther, HasNoOther, has_register, same_virtual};

use s390x_base::RegClass;
use std::alloc::{AllocError, Global};
use std::collections::BTreeSet;

/// A set of virtual registers.
#[derive(Drop)]
pub struct RegisterSet {
    /// The numbers of those of class Int.
    pub integers: BTreeSet<u32>,
    /// The numbers of those of class Float.
    pub floats: BTreeSet<u32>,
}

impl RegisterSet {
    /// The empty set.
    pub fn new(alloc: Global) -> RegisterSet
        ensures { (n : ℕ) (c : Class) → has_register result n c ≡ false }
    {
        RegisterSet {
            integers: BTreeSet::new(alloc),
            floats: BTreeSet::new(alloc),
        }
    }

    /// Whether the register is in the set.
    pub fn contains(&self, num: u32, class: RegClass) -> bool
        ensures { result ≡ has_register self.now num class }
    {
        match class {
            RegClass::Int => self.integers.contains(&num),
            RegClass::Float => self.floats.contains(&num),
        }
    }

    /// Whether the set has a register of another class than this one.
    pub fn has_other(&self, class: RegClass) -> bool
        ensures some { result ≡ true → HasOther class self.now }
        ensures none { result ≡ false → HasNoOther class self.now }
    {
        match class {
            RegClass::Int => !self.floats.is_empty(),
            RegClass::Float => !self.integers.is_empty(),
        }
    }

    /// Puts the register into the set. `AllocError` leaves it as it was.
    pub fn insert(&mut self, num: u32, class: RegClass) -> Result<(), AllocError>
        ensures { IfOk result (λ _. (n : ℕ) (c : Class) → has_register self.new n c
            ≡ (same_virtual n c num class || has_register self.old n c)) }
    {
        match class {
            RegClass::Int => self.integers.insert(num)?,
            RegClass::Float => self.floats.insert(num)?,
        };
        Ok(())
    }

    /// Takes the register out of the set.
    pub fn remove(&mut self, num: u32, class: RegClass)
        ensures { (n : ℕ) (c : Class) → has_register self.new n c ≡
            (not (same_virtual n c num class) && has_register self.old n c) }
    {
        match class {
            RegClass::Int => self.integers.remove(&num),
            RegClass::Float => self.floats.remove(&num),
        };
    }
}
