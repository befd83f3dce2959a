//! Where virtual registers may be.
ghost use Rattle.std.specs.Prelude.{◌≡◌, ℕ, ◌&&◌, ◌||◌, false, nat_eq, IfOk};
ghost use Rattle.std.specs.Ordering.{nat_cmp};
ghost use Rattle.std.specs.BTreeMap.{get};
ghost use Rattle.s390x_base.specs.declared.regs.RegClass.{RegClass as Class};
ghost use Rattle.s390x_alloc.specs.Registers.{is_home, is_in, same_virtual};

use s390x_base::RegClass;
use std::alloc::{AllocError, Global};
use std::collections::BTreeMap;

/// For each virtual register the numbers of the sets in which it may be.
#[derive(Drop)]
pub struct RegisterHomes {
    /// Of class Int, by their numbers.
    pub integers: BTreeMap<u32, Vec<usize>>,
    /// Of class Float, by their numbers.
    pub floats: BTreeMap<u32, Vec<usize>>,
}

// One more number for a register.
fn add_home(
    alloc: Global,
    homes: &mut BTreeMap<u32, Vec<usize>>,
    num: u32,
    home: usize,
) -> Result<(), AllocError>
    ensures { IfOk result (λ _. (n h : ℕ) → is_in (get nat_cmp homes.new n) h
        ≡ ((nat_eq n num && nat_eq h home) || is_in (get nat_cmp homes.old n) h)) }
{
    homes.entry(num)?.or_insert(Vec::new(alloc)).push(home)?;
    Ok(())
}

impl RegisterHomes {
    /// No register is in any set.
    pub fn new(alloc: Global) -> RegisterHomes {
        RegisterHomes {
            integers: BTreeMap::new(alloc),
            floats: BTreeMap::new(alloc),
        }
    }

    /// The register may be in a set. After `AllocError` that may be missing.
    pub fn add(
        &mut self,
        alloc: Global,
        num: u32,
        class: RegClass,
        home: usize,
    ) -> Result<(), AllocError>
        ensures { IfOk result (λ _. (n : ℕ) (c : Class) (h : ℕ) → is_home self.new n c h
            ≡ ((same_virtual n c num class && nat_eq h home) || is_home self.old n c h)) }
    {
        match class {
            RegClass::Int => add_home(alloc, &mut self.integers, num, home),
            RegClass::Float => add_home(alloc, &mut self.floats, num, home),
        }
    }

    /// The numbers of all sets in which the register may be; after that it is in none.
    pub fn take(&mut self, num: u32, class: RegClass) -> Option<Vec<usize>>
        ensures taken { (h : ℕ) → is_in result h ≡ is_home self.old num class h }
        ensures others { (n : ℕ) (c : Class) (h : ℕ) → same_virtual n c num class ≡ false
            → is_home self.new n c h ≡ is_home self.old n c h }
    {
        match class {
            RegClass::Int => self.integers.remove(&num),
            RegClass::Float => self.floats.remove(&num),
        }
    }
}
