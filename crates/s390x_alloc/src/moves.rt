//! Which moves there are, and which instructions they are.
ghost use Rattle.std.specs.Prelude.{◌≡◌, IfOk, List, Some};
ghost use Rattle.s390x_alloc.specs.Contents.{contents_after_move};
ghost use Rattle.s390x_alloc.specs.Locations.{IsMapOf};
ghost use Rattle.s390x_alloc.specs.Moves.{IsMoved, copy_of, is_no_move, is_unlike, is_unlike_register, is_unmovable, load_of, move_inst, slot_operand, store_of};
ghost use Rattle.s390x_alloc.specs.declared.plan.EntryPair.{EntryPair as Pair};

use crate::fault::EditCause;
use crate::location_map::LocationMap;
use crate::plan::Place;
use crate::same::{is_reserved, same_class};
use s390x_base::{PReg, Reg, RegClass, Writable};
use s390x_inst::{FrameLayout, Inst, MemArg, VecInst};

// Where a slot stands.
fn slot_operand(slot: u32) -> MemArg
    ensures { result ≡ slot_operand slot }
{
    MemArg::SpillOffset {
        off: 16 * i64::from(slot),
    }
}

// The copy of a register.
fn copy_of(to: PReg, from: PReg) -> Inst
    ensures { result ≡ copy_of to.class to from }
{
    let rd = Writable::from_reg(Reg::Real(to));
    match to.class() {
        RegClass::Int => Inst::Mov64 {
            rd,
            rm: Reg::Real(from),
        },
        RegClass::Float => Inst::Vector(VecInst::VecMov {
            rd,
            rn: Reg::Real(from),
        }),
    }
}

// The load of a slot.
fn load_of(to: PReg, slot: u32) -> Inst
    ensures { result ≡ load_of to.class to slot }
{
    let rd = Writable::from_reg(Reg::Real(to));
    let mem = slot_operand(slot);
    match to.class() {
        RegClass::Int => Inst::Load64 { rd, mem },
        RegClass::Float => Inst::Vector(VecInst::VecLoad { rd, mem }),
    }
}

// The store to a slot.
fn store_of(from: PReg, slot: u32) -> Inst
    ensures { result ≡ store_of from.class from slot }
{
    let rd = Reg::Real(from);
    let mem = slot_operand(slot);
    match from.class() {
        RegClass::Int => Inst::Store64 { rd, mem },
        RegClass::Float => Inst::Vector(VecInst::VecStore { rd, mem }),
    }
}

// The move to a register.
fn move_to_register(to: PReg, from: &Place) -> Inst
    ensures { Some result ≡ move_inst (Place.Reg to) from.now }
{
    match *from {
        Place::Reg(from) => copy_of(to, from),
        Place::Slot(from) => load_of(to, from),
    }
}

// The move to a slot; there is none from a slot.
fn move_to_slot(to: u32, from: &Place) -> Option<Inst>
    ensures { result ≡ move_inst (Place.Slot to) from.now }
{
    match *from {
        Place::Reg(from) => Some(store_of(from, to)),
        Place::Slot(_) => None,
    }
}

/// The instruction that a move is; there is none from slot to slot.
pub fn move_inst(to: &Place, from: &Place) -> Option<Inst>
    ensures { result ≡ move_inst to.now from.now }
{
    match *to {
        Place::Reg(to) => Some(move_to_register(to, from)),
        Place::Slot(to) => move_to_slot(to, from),
    }
}

// Whether nothing is moved to or from the place: a reserved register, or a slot that ends behind the spill area.
fn is_unmovable(layout: &FrameLayout, place: &Place) -> bool
    ensures { result ≡ is_unmovable layout.now place.now }
{
    match *place {
        Place::Reg(preg) => is_reserved(preg),
        Place::Slot(slot) => {
            let end = 16 * u64::from(slot) + 16 + u64::from(layout.stackslots_size);
            u64::from(layout.fixed_frame_storage_size) < end
        }
    }
}

// Whether no value of the place is one for a register of this class.
fn is_unlike_register(class: RegClass, from: &Place, held: &LocationMap) -> bool
    ensures { (list : List Pair) → IsMapOf held.now list →
        result ≡ is_unlike_register class from.now list }
{
    match *from {
        Place::Reg(preg) => !same_class(class, preg.class()),
        Place::Slot(slot) => held.holds_other_class(Place::Slot(slot), class),
    }
}

// Whether no instruction moves from the one place to the other, or the value would change its class.
fn is_unlike(to: &Place, from: &Place, held: &LocationMap) -> bool
    ensures { (list : List Pair) → IsMapOf held.now list → result ≡ is_unlike to.now from.now list }
{
    match *to {
        Place::Reg(to) => is_unlike_register(to.class(), from, held),
        Place::Slot(_) => match *from {
            Place::Reg(_) => false,
            Place::Slot(_) => true,
        },
    }
}

// Whether there is no such move.
fn is_no_move(layout: &FrameLayout, held: &LocationMap, to: &Place, from: &Place) -> bool
    ensures { (list : List Pair) → IsMapOf held.now list →
        result ≡ is_no_move layout.now to.now from.now list }
{
    is_unmovable(layout, to) || is_unmovable(layout, from) || is_unlike(to, from, held)
}

/// What is held behind a move. Refused where there is no such move, or for want of memory.
pub fn check_move(
    layout: &FrameLayout,
    held: &mut LocationMap,
    to: &Place,
    from: &Place,
) -> Result<(), EditCause>
    ensures cause { (list : List Pair) → IsMapOf held.old list
        → IsMoved layout.now to.now from.now list (contents_after_move to.now from.now list)
        result }
    ensures held { (list : List Pair) → IsMapOf held.old list →
        IfOk result (λ _. IsMapOf held.new (contents_after_move to.now from.now list)) }
{
    if is_no_move(layout, held, to, from) {
        return Err(EditCause::Immovable);
    }
    match held.move_value(*to, *from) {
        Ok(()) => Ok(()),
        Err(_) => Err(EditCause::NoMemory),
    }
}
