//! The values that stand in places, by their numbers.
ghost use Rattle.std.specs.Prelude.{◌≡◌, if◌then◌else◌, None, Some, IfOk, not, filter};
ghost use Rattle.s390x_alloc.specs.Contents.{is_in_set};
ghost use Rattle.s390x_alloc.specs.Locations.{value_in, value_of};
ghost use Rattle.s390x_alloc.specs.Same.{same_place};
ghost use Rattle.s390x_alloc.specs.declared.plan.Place.{Place as AnyPlace};

use crate::plan::Place;
use crate::same::same_real;
use s390x_base::{PReg, PRegSet};
use std::alloc::{AllocError, Global};
use std::collections::BTreeMap;

/// The number of the value that stands in a real register.
#[derive(Clone, Copy)]
pub struct RegisterValue {
    pub preg: PReg,
    pub value: usize,
}

/// The numbers of the values that stand in places.
#[derive(Drop)]
pub struct PlaceValues {
    /// Each real register stands here once, so that there are few.
    pub in_registers: Vec<RegisterValue>,
    /// By the number of the slot.
    pub in_slots: BTreeMap<u32, usize>,
}

// The value that stands in a real register.
fn value_in(values: &[RegisterValue], preg: PReg) -> Option<usize>
    ensures { result ≡ value_in values.now preg }
{
    for register in values {
        if same_real(register.preg, preg) {
            return Some(register.value);
        }
    }
    None
}

impl PlaceValues {
    /// Nothing stands in any place.
    pub fn new(alloc: Global) -> PlaceValues
        ensures { (q : AnyPlace) → value_of result q ≡ None }
    {
        PlaceValues {
            in_registers: Vec::new(alloc),
            in_slots: BTreeMap::new(alloc),
        }
    }

    /// The value that stands in a place.
    pub fn get(&self, place: Place) -> Option<usize>
        ensures { result ≡ value_of self.now place }
    {
        match place {
            Place::Reg(preg) => value_in(&self.in_registers, preg),
            Place::Slot(slot) => self.in_slots.get(&slot).copied(),
        }
    }

    // Nothing stands in a register.
    fn clear_register(&mut self, preg: PReg)
        ensures registers { self.new.in_registers.items ≡
            filter (λ x. not (same_place (AnyPlace.Reg x.preg) (AnyPlace.Reg preg)))
            self.old.in_registers.items }
        ensures slots { self.new.in_slots ≡ self.old.in_slots }
    {
        self.in_registers
            .retain(|register| !same_real(register.preg, preg));
    }

    /// Nothing stands in a place.
    pub fn clear(&mut self, place: Place)
        ensures { (q : AnyPlace) → value_of self.new q
            ≡ (if same_place q place then None else value_of self.old q) }
    {
        match place {
            Place::Reg(preg) => self.clear_register(preg),
            Place::Slot(slot) => {
                self.in_slots.remove(&slot);
            }
        }
    }

    /// Nothing stands in the registers of a set.
    pub fn clear_set(&mut self, set: PRegSet)
        ensures { (q : AnyPlace) → value_of self.new q
            ≡ (if is_in_set set q then None else value_of self.old q) }
    {
        self.in_registers
            .retain(|register| !set.contains(register.preg));
    }

    /// A value stands in a place, in place of what stood there. After `AllocError` nothing may stand there.
    pub fn set(&mut self, place: Place, value: usize) -> Result<(), AllocError>
        ensures { IfOk result (λ _. (q : AnyPlace) → value_of self.new q
            ≡ (if same_place q place then Some value else value_of self.old q)) }
    {
        match place {
            Place::Reg(preg) => {
                self.clear_register(preg);
                self.in_registers.push(RegisterValue { preg, value })?;
            }
            Place::Slot(slot) => {
                self.in_slots.insert(slot, value)?;
            }
        }
        Ok(())
    }

    /// What stands in `from` stands in `to` too, in place of what stood there. After `AllocError` nothing may stand there.
    pub fn copy(&mut self, to: Place, from: Place) -> Result<(), AllocError>
        ensures { IfOk result (λ _. (q : AnyPlace) → value_of self.new q
            ≡ (if same_place q to then value_of self.old from else value_of self.old q)) }
    {
        match self.get(from) {
            Some(value) => self.set(to, value),
            None => {
                self.clear(to);
                Ok(())
            }
        }
    }
}
