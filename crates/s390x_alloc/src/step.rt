//! Whether a plan's registers do for an instruction.
ghost use Rattle.std.specs.Prelude.{◌≡◌, ◌⊎◌, false, List, MatchResult, None, Some, slice_get};
ghost use Rattle.s390x_alloc.specs.Locations.{IsMapOf, LeadsTo};
ghost use Rattle.s390x_operands.specs.Operands.{operands, operands_cause};
ghost use Rattle.s390x_alloc.specs.Steps.{IsCause, after_step, first_unheld, first_unsuited, is_given, is_held, operands_fault, suits_constraint, suits_operand, unreported_cause};
ghost use Rattle.s390x_alloc.specs.declared.plan.EntryPair.{EntryPair as Pair};

use crate::assigned::{GivenOperand, count_operands, given_operands};
use crate::contents::take_step;
use crate::fault::EditCause;
use crate::location_map::LocationMap;
use crate::plan::Place;
use crate::same::{is_reserved, same_class, same_register};
use s390x_base::Reg;
use s390x_inst::Inst;
use s390x_operands::{MachInst, OperandConstraint, OperandError, OperandKind, OperandList};
use std::alloc::Global;

// Whether an operand may be given a register, whatever its constraint.
fn suits_operand(operand: &Reg, given: &Reg) -> bool
    ensures { result ≡ suits_operand operand.now given.now }
{
    match (*operand, *given) {
        (Reg::Real(_), _) => same_register(*given, *operand),
        (Reg::Virtual { class, .. }, Reg::Real(preg)) => {
            same_class(preg.class(), class) && !is_reserved(preg)
        }
        (Reg::Virtual { .. }, Reg::Virtual { .. }) => false,
    }
}

// Whether the register at some index of a list is this one.
fn is_given(all: &[Reg], index: usize, given: Reg) -> bool
    ensures { result ≡ is_given (slice_get all.now index) given }
{
    match all.get(index) {
        Some(reg) => same_register(*reg, given),
        None => false,
    }
}

// Whether a register meets a constraint, where all operands are given those of a whole list.
fn suits_constraint(constraint: OperandConstraint, all: &[Reg], given: Reg) -> bool
    ensures { result ≡ suits_constraint constraint all.now given }
{
    match constraint {
        OperandConstraint::Any | OperandConstraint::Reg => true,
        OperandConstraint::FixedReg(preg) => same_register(given, Reg::Real(preg)),
        OperandConstraint::Reuse(index) => is_given(all, index, given),
    }
}

// The first operand that its register doesn't suit, by its number.
fn first_unsuited(all: &[Reg], operands: &[GivenOperand]) -> Option<usize>
    ensures { result ≡ first_unsuited all.now 0 operands.now }
{
    for (number, operand) in operands.iter().enumerate() {
        let suits = suits_operand(&operand.reg, &operand.given)
            && suits_constraint(operand.constraint, all, operand.given);
        if !suits {
            return Some(number);
        }
    }
    None
}

// Whether a virtual register that is read stands in its place.
fn is_held(operand: &GivenOperand, held: &LocationMap) -> bool
    ensures { (list : List Pair) → IsMapOf held.now list →
        result ≡ is_held operand.now.kind operand.now.reg operand.now.given list }
{
    match (operand.kind, operand.reg, operand.given) {
        (OperandKind::Def, _, _) | (OperandKind::Use, Reg::Real(_), _) => true,
        (OperandKind::Use, Reg::Virtual { num, class }, Reg::Real(preg)) => {
            held.holds(Place::Reg(preg), num, class)
        }
        (OperandKind::Use, Reg::Virtual { .. }, Reg::Virtual { .. }) => false,
    }
}

// The first operand that reads a register which its place doesn't hold, by its number.
fn first_unheld(held: &LocationMap, operands: &[GivenOperand]) -> Option<usize>
    ensures { (list : List Pair) → IsMapOf held.now list →
        result ≡ first_unheld list 0 operands.now }
{
    for (number, operand) in operands.iter().enumerate() {
        if !is_held(operand, held) {
            return Some(number);
        }
    }
    None
}

// The first operand whose register doesn't do, and why.
fn operands_fault(regs: &[Reg], operands: &[GivenOperand], held: &LocationMap) -> Option<EditCause>
    ensures { (list : List Pair) → IsMapOf held.now list →
        result ≡ operands_fault regs.now operands.now list }
{
    if let Some(operand) = first_unsuited(regs, operands) {
        return Some(EditCause::Unsuited(operand));
    }
    match first_unheld(held, operands) {
        Some(operand) => Some(EditCause::Unheld(operand)),
        None => None,
    }
}

// What the instruction reports, or the cause why it doesn't.
fn operands_or_cause(alloc: Global, inst: &Inst) -> Result<OperandList, EditCause>
    ensures { MatchResult result
        (λ list. (operands_cause false inst.now ≡ None) × (list.items.items ≡ operands inst.now))
        (λ c. (c ≡ EditCause.NoMemory)
        ⊎ (unreported_cause (operands_cause false inst.now) ≡ Some c)) }
{
    let mut list = OperandList::new(alloc);
    match inst.get_operands(&mut list) {
        Ok(()) => Ok(list),
        Err(OperandError::NoMemory) => Err(EditCause::NoMemory),
        Err(error) => Err(EditCause::Unreported(error)),
    }
}

/// What is held behind an instruction with a plan's registers. Refused by the first cause: `get_operands` refuses it, there are more or fewer registers than
/// operands, a register doesn't suit its operand, or doesn't hold what the operand reads; or for want of memory, after which what is held may be anything.
pub fn check_step(
    alloc: Global,
    held: &mut LocationMap,
    inst: &Inst,
    regs: &[Reg],
) -> Result<(), EditCause>
    ensures { (list : List Pair) → IsMapOf held.old list → MatchResult result
        (λ _. LeadsTo (after_step inst.now regs.now list) held.new)
        (IsCause (after_step inst.now regs.now list)) }
{
    let list = operands_or_cause(alloc, inst)?;
    if count_operands(list.items()) != regs.len() {
        return Err(EditCause::Miscounted);
    }
    let Ok(operands) = given_operands(alloc, list.items(), regs) else {
        return Err(EditCause::NoMemory);
    };
    if let Some(cause) = operands_fault(regs, &operands, held) {
        return Err(cause);
    }
    match take_step(alloc, held, list.items(), &operands) {
        Ok(()) => Ok(()),
        Err(_) => Err(EditCause::NoMemory),
    }
}
