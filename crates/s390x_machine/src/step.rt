//! One step of the machine.

ghost use Rattle.std.specs.Prelude.{◌≡◌, ◌<◌, ◌%◌, ℕ, Bool, ◌==◌, List, Option, Some, get_or, length, true, false, IsTrue, IsFalse};
ghost use Rattle.s390x_format.specs.Fetch.{machine_rows};
ghost use Rattle.s390x_format.specs.Formats.{length_of};
ghost use Rattle.s390x_format.specs.Reading.{HasOpcode, no_row};
ghost use Rattle.s390x_format.specs.Rows.{fetch_length_of};
ghost use Rattle.s390x_machine.specs.Fetch.{IsFound};
ghost use Rattle.s390x_machine.specs.Semantics.{action, names_pair, is_odd_pair, semantics_of};
ghost use Rattle.s390x_machine.specs.State.{AreBytes, memory_of, registers_of, state_of};
ghost use Rattle.s390x_machine.specs.Sound.{HasRegisters, IsSoundAction, is_free, is_uncomputed};
ghost use Rattle.s390x_machine.specs.Step.{Executes, Steps};

use crate::access::operand_address;
use crate::action_type::Action;
use crate::elements_step::{elements_step, plain_operation};
use crate::field_values::{relative_address, source};
use crate::instruction_fetch::reached_bytes;
use crate::machine::Machine;
use crate::memory::Memory;
use crate::perform::{is_selected, perform};
use crate::row_action::action;
use crate::store_step::store_step;
use crate::value_step::{Computation, compare_step, operand_bits, value_step};
use crate::vector_action::shift_amount;
use crate::vector_step::{vector_load_step, vector_store_step};
use s390x_format::{
    Decoded, Fields, Located, MACHINE_ROWS, MachineRow, RowSemantics, fetch_length, length, locate,
};
use s390x_lanes::{VectorOperation, computes, operation};
use s390x_operations::{StopKind, bytes};

/// How a step ends.
#[derive(Clone, Copy, PartialEq, Eq, Debug)]
pub enum StepEnd {
    /// The instruction is done.
    Went,
    /// The instruction at this place stops, and everything is as before.
    Stopped(StopKind, u64),
    /// The row's result is free or isn't computed; everything is as before.
    NoRow,
}

/// The semantics at a place in a list of them.
fn semantics_in(rows: &[MachineRow], at: usize) -> &RowSemantics
    requires { at < length rows.now }
    ensures { (z : MachineRow) → result.now ≡ (get_or rows.now at z).semantics }
{
    &rows[at].semantics
}

/// The semantics of the row at a place in the table of machine rows.
fn semantics_at(at: usize) -> &'static RowSemantics
    requires { at < length machine_rows }
    ensures { semantics_of (get_or machine_rows at no_row).opcode ≡ Some result.now }
{
    semantics_in(&MACHINE_ROWS, at)
}

/// Whether the row's r1 is the first of an even-odd pair.
fn names_pair(semantics: RowSemantics) -> bool
    ensures { result ≡ names_pair semantics }
{
    match semantics {
        RowSemantics::MultiplySigned => true,
        RowSemantics::MultiplyLogical => true,
        RowSemantics::DivideSigned(_) => true,
        RowSemantics::DivideLogical(_) => true,
        RowSemantics::FindLeftmostOne => true,
        _ => false,
    }
}

/// Whether the row names a pair that begins at an odd register.
fn is_odd_pair(semantics: RowSemantics, fields: &Fields) -> bool
    ensures { result ≡ is_odd_pair semantics fields.now }
{
    names_pair(semantics) && fields.regs[0] % 2 == 1
}

/// Whether an operation on vectors isn't computed.
fn is_uncomputed(operation: Option<VectorOperation>) -> bool
    ensures { result ≡ is_uncomputed operation }
{
    match operation {
        None => false,
        Some(operation) => !computes(operation),
    }
}

/// Whether the row leaves its result free, or is a high product of 128-bit elements.
fn is_free(machine: &Machine, semantics: RowSemantics, fields: &Fields) -> bool
    requires { HasRegisters semantics fields.now }
    ensures { result ≡ is_free semantics fields.now (registers_of machine.now) }
{
    match semantics {
        RowSemantics::Havoc => true,
        RowSemantics::Elements(row) => is_uncomputed(operation(row, fields.masks, fields.imm)),
        RowSemantics::ShiftElements(row) => {
            is_uncomputed(operation(row, fields.masks, shift_amount(machine, fields)))
        }
        _ => false,
    }
}

/// A branch under a mask, of an instruction of so many bytes.
fn branch(machine: &mut Machine, mask: u8, target: u64, size: u64) -> StepEnd
    ensures { (held : ℕ → Bool) (byte : ℕ → ℕ)
        → Executes (Action.Branch mask target) size (state_of machine.old held byte) result
        (state_of machine.new held byte) }
{
    machine.place = if is_selected(mask, machine.condition_code()) {
        target
    } else {
        machine.place.wrapping_add(size)
    };
    StepEnd::Went
}

/// An action of an instruction of so many bytes.
fn execute<M: Memory>(machine: &mut Machine, memory: &mut M, action: &Action, size: u64) -> StepEnd
    requires { IsSoundAction action.now }
    ensures { Executes action.now size
        (state_of machine.old (M.held memory.old) (M.byte memory.old)) result
        (state_of machine.new (M.held memory.new) (M.byte memory.new)) }
{
    let place = machine.place;
    match action {
        Action::Perform(op) => match perform(machine, memory, op) {
            None => {
                machine.place = place.wrapping_add(size);
                StepEnd::Went
            }
            Some(kind) => StepEnd::Stopped(kind, place),
        },
        Action::Branch { mask, target } => branch(machine, *mask, *target, size),
        Action::BranchAndSave { link, target } => {
            machine.put(*link, place.wrapping_add(size));
            machine.place = *target;
            StepEnd::Went
        }
    }
}

/// The step at an instruction that was fetched, whose row means this. It takes a copy: an instruction that is lent has to
/// lie in memory, and that of the more frequent steps needn't.
fn semantics_step<M: Memory>(
    machine: &mut Machine,
    memory: &mut M,
    decoded: Decoded,
    semantics: &RowSemantics,
) -> StepEnd
    requires found { IsFound (memory_of (M.held memory.old) (M.byte memory.old)) machine.old.place
        decoded }
    requires is { semantics_of decoded.row.opcode ≡ Some semantics.now }
    ensures { Steps (state_of machine.old (M.held memory.old) (M.byte memory.old)) result
        (state_of machine.new (M.held memory.new) (M.byte memory.new)) }
{
    if is_free(machine, *semantics, &decoded.fields) {
        return StepEnd::NoRow;
    }
    if is_odd_pair(*semantics, &decoded.fields) {
        return StepEnd::Stopped(StopKind::Specification, machine.place);
    }
    let action = action(machine, *semantics, &decoded.fields);
    execute(machine, memory, &action, length(decoded.row.format) as u64)
}

/// The step at an operator that was fetched. Where its second operand can be read, it builds no operation.
fn operator_step<M: Memory>(
    machine: &mut Machine,
    memory: &mut M,
    decoded: &Decoded,
    semantics: &RowSemantics,
) -> StepEnd
    requires found { IsFound (memory_of (M.held memory.old) (M.byte memory.old)) machine.old.place
        decoded.now }
    requires is { semantics_of decoded.now.row.opcode ≡ Some semantics.now }
    ensures { Steps (state_of machine.old (M.held memory.old) (M.byte memory.old)) result
        (state_of machine.new (M.held memory.new) (M.byte memory.new)) }
{
    match semantics {
        RowSemantics::Compute(operator, size, second, rule) => {
            match operand_bits(machine, memory, *second, &decoded.fields) {
                Some(bits) => {
                    let computation = Computation {
                        operator: *operator,
                        size: *size,
                        rule: *rule,
                    };
                    value_step(machine, decoded, computation, *second, bits)
                }
                None => semantics_step(machine, memory, *decoded, semantics),
            }
        }
        _ => semantics_step(machine, memory, *decoded, semantics),
    }
}

/// The step at a comparison that was fetched. Where its second operand can be read, it builds no operation.
fn comparison_step<M: Memory>(
    machine: &mut Machine,
    memory: &mut M,
    decoded: &Decoded,
    semantics: &RowSemantics,
) -> StepEnd
    requires found { IsFound (memory_of (M.held memory.old) (M.byte memory.old)) machine.old.place
        decoded.now }
    requires is { semantics_of decoded.now.row.opcode ≡ Some semantics.now }
    ensures { Steps (state_of machine.old (M.held memory.old) (M.byte memory.old)) result
        (state_of machine.new (M.held memory.new) (M.byte memory.new)) }
{
    match semantics {
        RowSemantics::Compare(sign, size, second) => {
            match operand_bits(machine, memory, *second, &decoded.fields) {
                Some(bits) => compare_step(machine, decoded, *sign, *size, *second, bits),
                None => semantics_step(machine, memory, *decoded, semantics),
            }
        }
        _ => semantics_step(machine, memory, *decoded, semantics),
    }
}

/// The step at a store of a register that was fetched. Where its operand is aligned as it has to be, it builds no operation.
fn storing_step<M: Memory>(
    machine: &mut Machine,
    memory: &mut M,
    decoded: &Decoded,
    semantics: &RowSemantics,
) -> StepEnd
    requires found { IsFound (memory_of (M.held memory.old) (M.byte memory.old)) machine.old.place
        decoded.now }
    requires is { semantics_of decoded.now.row.opcode ≡ Some semantics.now }
    ensures { Steps (state_of machine.old (M.held memory.old) (M.byte memory.old)) result
        (state_of machine.new (M.held memory.new) (M.byte memory.new)) }
{
    match semantics {
        RowSemantics::Store(second) => {
            let destination = source(machine, second.operand_source, &decoded.fields);
            match operand_address(destination, bytes(second.width) as u64) {
                Some(address) => store_step(machine, memory, decoded, *second, address),
                None => semantics_step(machine, memory, *decoded, semantics),
            }
        }
        _ => semantics_step(machine, memory, *decoded, semantics),
    }
}

/// The step at a row on vector registers that was fetched. Where its result is computed, it builds no operation.
fn vectors_step<M: Memory>(
    machine: &mut Machine,
    memory: &mut M,
    decoded: &Decoded,
    semantics: &RowSemantics,
) -> StepEnd
    requires found { IsFound (memory_of (M.held memory.old) (M.byte memory.old)) machine.old.place
        decoded.now }
    requires is { semantics_of decoded.now.row.opcode ≡ Some semantics.now }
    ensures { Steps (state_of machine.old (M.held memory.old) (M.byte memory.old)) result
        (state_of machine.new (M.held memory.new) (M.byte memory.new)) }
{
    match semantics {
        RowSemantics::Elements(row) => match plain_operation(machine, *row, &decoded.fields) {
            Some(operation) => elements_step(machine, decoded, *row, operation),
            None => semantics_step(machine, memory, *decoded, semantics),
        },
        _ => semantics_step(machine, memory, *decoded, semantics),
    }
}

/// The step at a branch to a distance that was fetched. It is the most frequent step, and has none of the others' values.
fn relative_step(machine: &mut Machine, decoded: &Decoded) -> StepEnd
    requires { semantics_of decoded.now.row.opcode ≡ Some RowSemantics.BranchRelative }
    ensures { (held : ℕ → Bool) (byte : ℕ → ℕ)
        → IsFound (memory_of held byte) machine.old.place decoded.now
        → Steps (state_of machine.old held byte) result (state_of machine.new held byte) }
{
    let target = relative_address(machine, &decoded.fields);
    let size = length(decoded.row.format) as u64;
    branch(machine, decoded.fields.masks[0], target, size)
}

/// The step at an instruction that was fetched.
fn row_step<M: Memory>(machine: &mut Machine, memory: &mut M, located: &Located) -> StepEnd
    requires found { IsFound (memory_of (M.held memory.old) (M.byte memory.old)) machine.old.place
        located.now.decoded }
    requires row { HasOpcode machine_rows located.now.decoded.row.opcode located.now.at }
    ensures { Steps (state_of machine.old (M.held memory.old) (M.byte memory.old)) result
        (state_of machine.new (M.held memory.new) (M.byte memory.new)) }
{
    let semantics = semantics_at(located.at);
    match semantics {
        RowSemantics::BranchRelative => relative_step(machine, &located.decoded),
        RowSemantics::Compute(..) => operator_step(machine, memory, &located.decoded, semantics),
        RowSemantics::Compare(..) => comparison_step(machine, memory, &located.decoded, semantics),
        RowSemantics::Store(_) => storing_step(machine, memory, &located.decoded, semantics),
        RowSemantics::Elements(_) => vectors_step(machine, memory, &located.decoded, semantics),
        RowSemantics::LoadVector(storage) => {
            vector_load_step(machine, memory, &located.decoded, *storage)
        }
        RowSemantics::StoreVector(storage) => {
            vector_store_step(machine, memory, &located.decoded, *storage)
        }
        _ => semantics_step(machine, memory, located.decoded, semantics),
    }
}

/// The step at an even place from which these bytes stand. The first one tells how many the instruction has.
fn bytes_step<M: Memory>(
    machine: &mut Machine,
    memory: &mut M,
    place: u64,
    bytes: &[u8; 6],
) -> StepEnd
    requires at { machine.old.place ≡ place }
    requires even { place % 2 ≡ 0 }
    requires there { AreBytes (M.held memory.old) (M.byte memory.old) place
        (fetch_length_of (M.byte memory.old place)) bytes.now }
    ensures { Steps (state_of machine.old (M.held memory.old) (M.byte memory.old)) result
        (state_of machine.new (M.held memory.new) (M.byte memory.new)) }
{
    let n = fetch_length(bytes[0]);
    match locate(&bytes[..n]) {
        Some(located) => row_step(machine, memory, &located),
        None => StepEnd::Stopped(StopKind::Operation, place),
    }
}

impl Machine {
    /// One step: the instruction at the machine's place is done, or it stops (Principles of Operation, chapter 5, "Program execution", and
    /// chapter 6, "Program interruption").
    ///
    /// At `Went` the machine and the memory are as a step of the definitions allows. At `Stopped` they are as before; the kind is the first
    /// that applies, in this order: `Specification` where the place is odd, `Access` where a byte of the instruction isn't accessible,
    /// `Operation` where no row has its bytes, `Specification` where a row of an even-odd pair names an odd register, and where an operand that
    /// has to be aligned isn't, `Access` where a byte of the operand isn't accessible, and `Divide` or `CompareTrap` where the values bring
    /// them about. The carried number is the instruction's place. `NoRow` comes exactly at a row whose result is free (LXA, LLXA, VBLEND, VEVAL) and
    /// at a high product of 128-bit elements, and then everything is as before.
    pub fn step<M: Memory>(&mut self, memory: &mut M) -> StepEnd
        ensures { Steps (state_of self.old (M.held memory.old) (M.byte memory.old)) result
            (state_of self.new (M.held memory.new) (M.byte memory.new)) }
    {
        let place = self.place;
        if place % 2 == 1 {
            return StepEnd::Stopped(StopKind::Specification, place);
        }
        match reached_bytes(memory, place) {
            Some(bytes) => bytes_step(self, memory, place, &bytes),
            None => StepEnd::Stopped(StopKind::Access, place),
        }
    }
}
