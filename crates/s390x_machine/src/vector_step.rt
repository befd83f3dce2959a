//! The steps at rows that load or store a vector register. They are frequent, and build no operation.

ghost use Rattle.std.specs.Prelude.{◌≡◌, Some};
ghost use Rattle.s390x_machine.specs.Fetch.{IsFound};
ghost use Rattle.s390x_machine.specs.Semantics.{semantics_of};
ghost use Rattle.s390x_machine.specs.State.{memory_of, state_of};
ghost use Rattle.s390x_machine.specs.Sound.{CanPerform};
ghost use Rattle.s390x_machine.specs.Step.{Steps};

use crate::field_values::indexed_address;
use crate::machine::Machine;
use crate::memory::Memory;
use crate::perform::vector_in;
use crate::step::StepEnd;
use crate::vector_action::layout_of;
use s390x_format::{Decoded, RowSemantics, VectorStorage, length};
use s390x_operations::{StopKind, layout_bytes, vector_stored};

/// The step at a row that was fetched, which loads a vector register.
pub fn vector_load_step<M: Memory>(
    machine: &mut Machine,
    memory: &M,
    decoded: &Decoded,
    storage: VectorStorage,
) -> StepEnd
    requires found { IsFound (memory_of (M.held memory.now) (M.byte memory.now)) machine.old.place
        decoded.now }
    requires is { semantics_of decoded.now.row.opcode ≡ Some (RowSemantics.LoadVector storage) }
    requires fit { CanPerform (RowSemantics.LoadVector storage) decoded.now.fields }
    ensures { Steps (state_of machine.old (M.held memory.now) (M.byte memory.now)) result
        (state_of machine.new (M.held memory.now) (M.byte memory.now)) }
{
    let layout = layout_of(storage, &decoded.fields);
    let address = indexed_address(machine, &decoded.fields);
    if !memory.has_all(address, layout_bytes(layout) as u64) {
        return StepEnd::Stopped(StopKind::Access, machine.place);
    }
    let old = machine.vector(decoded.fields.regs[0]);
    let value = vector_in(memory, layout, old, address);
    machine.put_vector(decoded.fields.regs[0], value);
    machine.place = machine
        .place
        .wrapping_add(length(decoded.row.format) as u64);
    StepEnd::Went
}

/// The step at a row that was fetched, which stores a vector register.
pub fn vector_store_step<M: Memory>(
    machine: &mut Machine,
    memory: &mut M,
    decoded: &Decoded,
    storage: VectorStorage,
) -> StepEnd
    requires found { IsFound (memory_of (M.held memory.old) (M.byte memory.old)) machine.old.place
        decoded.now }
    requires is { semantics_of decoded.now.row.opcode ≡ Some (RowSemantics.StoreVector storage) }
    requires fit { CanPerform (RowSemantics.StoreVector storage) decoded.now.fields }
    ensures { Steps (state_of machine.old (M.held memory.old) (M.byte memory.old)) result
        (state_of machine.new (M.held memory.new) (M.byte memory.new)) }
{
    let layout = layout_of(storage, &decoded.fields);
    let address = indexed_address(machine, &decoded.fields);
    let value = vector_stored(layout, machine.vector(decoded.fields.regs[0]));
    if !memory.put_reached(address, layout_bytes(layout) as u64, value) {
        return StepEnd::Stopped(StopKind::Access, machine.place);
    }
    machine.place = machine
        .place
        .wrapping_add(length(decoded.row.format) as u64);
    StepEnd::Went
}
