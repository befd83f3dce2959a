//! Which places hold which virtual registers.
ghost use Rattle.std.specs.Prelude.{◌≡◌, ℕ, ◌&&◌, ◌||◌, ◌<◌, ◌++◌, ◌∷◌, [], List, filter, not, nat_eq, false, IfOk, length};
ghost use Rattle.std.specs.List.{list_any};
ghost use Rattle.s390x_base.specs.declared.regs.RegClass.{RegClass as Class};
ghost use Rattle.s390x_base.specs.declared.regs.Reg.{Reg as AnyRegister};
ghost use Rattle.s390x_alloc.specs.Contents.{holds, is_in_set, contents_after_move, with_output, without_place};
ghost use Rattle.s390x_alloc.specs.Locations.{IsAlone, IsApart, IsMapOf, is_located, is_value_of};
ghost use Rattle.s390x_alloc.specs.Same.{same_register};
ghost use Rattle.s390x_alloc.specs.Moves.{holds_other_class};
ghost use Rattle.s390x_alloc.specs.Registers.{same_virtual};
ghost use Rattle.s390x_alloc.specs.declared.plan.EntryPair.{EntryPair as Pair};
ghost use Rattle.s390x_alloc.specs.declared.plan.Place.{Place as AnyPlace};

use crate::place_values::PlaceValues;
use crate::plan::{EntryPair, Place};
use crate::register_homes::RegisterHomes;
use crate::register_set::RegisterSet;
use s390x_base::{PReg, PRegSet, Reg, RegClass};
use std::alloc::{AllocError, Global};

/// Which places hold the values of which virtual registers. A move copies the number of a value, and an output takes its register out of the few sets in which
/// it is, so that each change costs the logarithm of what is held.
#[derive(Drop)]
pub struct LocationMap {
    pub values: PlaceValues,
    /// The virtual registers that have a value, by its number.
    pub sets: Vec<RegisterSet>,
    pub homes: RegisterHomes,
}

// A register is one of a value, where there is one with the number.
fn insert_at(
    sets: &mut [RegisterSet],
    value: usize,
    num: u32,
    class: RegClass,
) -> Result<(), AllocError>
    ensures count { length sets.new ≡ length sets.old }
    ensures sets { value < length sets.old →
        IfOk result (λ _. (v n : ℕ) (c : Class) → is_value_of sets.new v n c
        ≡ ((nat_eq v value && same_virtual n c num class) || is_value_of sets.old v n c)) }
{
    if value < sets.len() {
        sets[value].insert(num, class)?;
    }
    Ok(())
}

// A register is none of a value, where there is one with the number.
fn remove_at(sets: &mut [RegisterSet], value: usize, num: u32, class: RegClass)
    ensures count { length sets.new ≡ length sets.old }
    ensures sets { (v n : ℕ) (c : Class) → is_value_of sets.new v n c ≡
        (not (nat_eq v value && same_virtual n c num class) && is_value_of sets.old v n c) }
{
    if value < sets.len() {
        sets[value].remove(num, class);
    }
}

// A register is none of these values.
fn remove_all(sets: &mut [RegisterSet], values: &[usize], num: u32, class: RegClass)
    ensures count { length sets.new ≡ length sets.old }
    ensures sets { (v n : ℕ) (c : Class) → is_value_of sets.new v n c ≡
        (not (list_any (nat_eq v) values.now && same_virtual n c num class)
        && is_value_of sets.old v n c) }
{
    for value in values {
        remove_at(sets, *value, num, class);
    }
}

impl LocationMap {
    /// Nothing is held.
    pub fn new(alloc: Global) -> LocationMap
        ensures map { IsMapOf result [] }
        ensures apart { IsApart result }
    {
        LocationMap {
            values: PlaceValues::new(alloc),
            sets: Vec::new(alloc),
            homes: RegisterHomes::new(alloc),
        }
    }

    /// Whether the place holds the virtual register.
    pub fn holds(&self, place: Place, num: u32, class: RegClass) -> bool
        ensures { result ≡ is_located self.now place num class }
    {
        match self.values.get(place) {
            Some(value) => match self.sets.get(value) {
                Some(set) => set.contains(num, class),
                None => false,
            },
            None => false,
        }
    }

    /// Whether the place holds a virtual register of another class.
    pub fn holds_other_class(&self, place: Place, class: RegClass) -> bool
        ensures { (held : List Pair) → IsMapOf self.now held →
            result ≡ holds_other_class place class held }
    {
        match self.values.get(place) {
            Some(value) => match self.sets.get(value) {
                Some(set) => set.has_other(class),
                None => false,
            },
            None => false,
        }
    }

    /// The place holds nothing.
    pub fn drop_place(&mut self, place: Place)
        ensures { (held : List Pair) → IsMapOf self.old held →
            IsMapOf self.new (without_place place held) }
    {
        self.values.clear(place);
    }

    /// The registers of the set hold nothing.
    pub fn drop_set(&mut self, set: PRegSet)
        ensures { (held : List Pair) → IsMapOf self.old held →
            IsMapOf self.new (filter (λ x. not (is_in_set set x.place)) held) }
    {
        self.values.clear_set(set);
    }

    /// `to` holds what `from` held before. After `AllocError` it may hold nothing.
    pub fn move_value(&mut self, to: Place, from: Place) -> Result<(), AllocError>
        ensures { (held : List Pair) → IsMapOf self.old held →
            IfOk result (λ _. IsMapOf self.new (contents_after_move to from held)) }
    {
        self.values.copy(to, from)
    }

    // No place holds the register.
    fn forget(&mut self, num: u32, class: RegClass)
        ensures { (held : List Pair) → IsMapOf self.old held →
            IsMapOf self.new (filter
            (λ x. not (same_register x.vreg (AnyRegister.Virtual num class))) held) }
    {
        match self.homes.take(num, class) {
            Some(values) => remove_all(&mut self.sets, &values, num, class),
            None => {}
        }
    }

    // A new value stands in the place; no register has it yet.
    fn put_value(&mut self, alloc: Global, place: Place) -> Result<usize, AllocError>
        ensures map { (held : List Pair) → IsMapOf self.old held →
            IfOk result (λ _. IsMapOf self.new (without_place place held)) }
        ensures alone { (held : List Pair) → IsMapOf self.old held →
            IfOk result (λ v. IsAlone self.new place v) }
        ensures apart { (held : List Pair) → IsMapOf self.old held → IsApart self.old →
            IfOk result (λ _. IsApart self.new) }
    {
        let value = self.sets.len();
        self.sets.push(RegisterSet::new(alloc))?;
        self.values.set(place, value)?;
        Ok(value)
    }

    // A register has the value that stands in one place alone.
    fn add(
        &mut self,
        alloc: Global,
        value: usize,
        num: u32,
        class: RegClass,
    ) -> Result<(), AllocError>
        ensures map { (held : List Pair) (p : AnyPlace) → IsMapOf self.old held
            → IsAlone self.old p value →
            IfOk result (λ _. IsMapOf self.new (held
            ++ record { place = p; vreg = AnyRegister.Virtual num class } ∷ [])) }
        ensures apart { IsApart self.old → IfOk result (λ _. IsApart self.new) }
    {
        insert_at(&mut self.sets, value, num, class)?;
        self.homes.add(alloc, num, class, value)
    }

    /// An output stands in its register alone, and nothing else stands there. After `AllocError` some of that may be missing.
    pub fn put_output(&mut self, alloc: Global, preg: PReg, reg: Reg) -> Result<(), AllocError>
        ensures { (held : List Pair) → IsMapOf self.old held →
            IfOk result (λ _. IsMapOf self.new (with_output preg reg held)) }
    {
        match reg {
            Reg::Virtual { num, class } => {
                self.forget(num, class);
                let value = self.put_value(alloc, Place::Reg(preg))?;
                self.add(alloc, value, num, class)
            }
            Reg::Real(_) => {
                self.drop_place(Place::Reg(preg));
                Ok(())
            }
        }
    }

    // The value that stands in a place alone, where no two places have the same one; a new value, where none stands there.
    fn value_at(&mut self, alloc: Global, place: &Place) -> Result<usize, AllocError>
        ensures map { (held : List Pair) → IsMapOf self.old held → IsApart self.old →
            IfOk result (λ _. IsMapOf self.new held) }
        ensures apart { (held : List Pair) → IsMapOf self.old held → IsApart self.old →
            IfOk result (λ _. IsApart self.new) }
        ensures alone { (held : List Pair) → IsMapOf self.old held → IsApart self.old →
            IfOk result (λ v. IsAlone self.new place.now v) }
    {
        let found = self.values.get(*place);
        match found {
            Some(value) => Ok(value),
            None => self.put_value(alloc, *place),
        }
    }

    // One more pair is held, where no two places have the same value.
    fn hold(&mut self, alloc: Global, pair: &EntryPair) -> Result<(), AllocError>
        ensures map { (held : List Pair) → IsMapOf self.old held → IsApart self.old →
            IfOk result (λ _. IsMapOf self.new (held ++ pair.now ∷ [])) }
        ensures apart { (held : List Pair) → IsMapOf self.old held → IsApart self.old →
            IfOk result (λ _. IsApart self.new) }
    {
        match pair.vreg {
            Reg::Virtual { num, class } => {
                let value = self.value_at(alloc, &pair.place)?;
                self.add(alloc, value, num, class)
            }
            Reg::Real(_) => Ok(()),
        }
    }

    /// What these pairs hold.
    pub fn from_pairs(alloc: Global, pairs: &[EntryPair]) -> Result<LocationMap, AllocError>
        ensures { IfOk result (λ m. IsMapOf m pairs.now) }
    {
        let mut map = LocationMap::new(alloc);
        for pair in pairs {
            map.hold(alloc, pair)?;
        }
        Ok(map)
    }
}
