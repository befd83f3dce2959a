//! Sets of real registers.
ghost use Rattle.std.specs.Prelude.{◌≡◌, ◌≢◌, true, false};
ghost use Rattle.s390x_base.specs.Registers.{RealRegister};

use crate::regs::{PReg, RegClass};

/// A set of real registers.
#[derive(Clone, Copy, PartialEq, Eq, Debug)]
pub struct PRegSet {
    general: [bool; 16],
    vector: [bool; 32],
}

impl PRegSet {
    ghost use Rattle.s390x_base.specs.Sets.{has, with_register};

    /// The set without a register.
    pub fn empty() -> PRegSet
        ensures { (r : RealRegister) → has result r ≡ false }
    {
        PRegSet {
            general: [false; 16],
            vector: [false; 32],
        }
    }

    /// Adds the register.
    pub fn add(&mut self, reg: PReg)
        ensures value { self.new ≡ with_register self.old reg }
        ensures added { has self.new reg ≡ true }
        ensures others { (r : RealRegister) → r ≢ reg → has self.new r ≡ has self.old r }
    {
        let number = reg.hw_enc() as usize;
        match reg.class() {
            RegClass::Int => self.general[number] = true,
            RegClass::Float => self.vector[number] = true,
        }
    }

    /// Whether the register is in the set.
    pub fn contains(self, reg: PReg) -> bool
        ensures { result ≡ has self reg }
    {
        let number = reg.hw_enc() as usize;
        match reg.class() {
            RegClass::Int => self.general[number],
            RegClass::Float => self.vector[number],
        }
    }
}
