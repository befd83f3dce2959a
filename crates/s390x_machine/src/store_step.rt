//! The step at a row that stores a register. It is frequent, and builds no operation.

ghost use Rattle.std.specs.Prelude.{◌≡◌, Some};
ghost use Rattle.s390x_operations.specs.Bits.{bytes};
ghost use Rattle.s390x_machine.specs.Fetch.{IsFound};
ghost use Rattle.s390x_machine.specs.Semantics.{semantics_of, source};
ghost use Rattle.s390x_machine.specs.State.{memory_of, registers_of, state_of};
ghost use Rattle.s390x_machine.specs.Sound.{CanPerform};
ghost use Rattle.s390x_machine.specs.Step.{StandsAt, Steps};

use crate::machine::Machine;
use crate::memory::Memory;
use crate::step::StepEnd;
use s390x_format::{Decoded, RowSemantics, SecondOperand, length};
use s390x_operations::{StopKind, bytes, in_byte_order};

/// The step at a row that was fetched, which stores a register at an address.
pub fn store_step<M: Memory>(
    machine: &mut Machine,
    memory: &mut M,
    decoded: &Decoded,
    second: SecondOperand,
    address: u64,
) -> StepEnd
    requires found { IsFound (memory_of (M.held memory.old) (M.byte memory.old)) machine.old.place
        decoded.now }
    requires is { semantics_of decoded.now.row.opcode ≡ Some (RowSemantics.Store second) }
    requires fit { CanPerform (RowSemantics.Store second) decoded.now.fields }
    requires there { StandsAt
        (source second.operand_source decoded.now.fields (registers_of machine.old)
        machine.old.place) address (bytes second.width) }
    ensures { Steps (state_of machine.old (M.held memory.old) (M.byte memory.old)) result
        (state_of machine.new (M.held memory.new) (M.byte memory.new)) }
{
    let register = machine.general(decoded.fields.regs[0]);
    let value = in_byte_order(second.reversed, second.width, register);
    if !memory.put_reached(address, bytes(second.width) as u64, value as u128) {
        return StepEnd::Stopped(StopKind::Access, machine.place);
    }
    machine.place = machine
        .place
        .wrapping_add(length(decoded.row.format) as u64);
    StepEnd::Went
}
