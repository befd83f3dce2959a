//! What a row that stores, or that loads several registers or under a lock, does with its fields.

ghost use Rattle.std.specs.Prelude.{◌≡◌, ◌<◌, ◌≤◌};
ghost use Rattle.s390x_machine.specs.Operands.{values_from};
ghost use Rattle.s390x_machine.specs.Semantics.{registers_between, action};
ghost use Rattle.s390x_machine.specs.State.{registers_of};
ghost use Rattle.s390x_machine.specs.Sound.{FieldsFit, IsSoundAction};

use crate::action_type::Action;
use crate::field_values::{address_by_base, immediate, performs, source, value_in};
use crate::machine::Machine;
use s390x_format::{Fields, RowSemantics, SecondOperand};
use s390x_operations::{CodeRule, Effect, Operator, Size, Source, Width, in_byte_order};

/// How many registers there are from one to another, register 0 after 15.
fn register_count(first: u8, last: u8) -> u8
    requires first_there { first < 16 }
    requires last_there { last < 16 }
    ensures value { result ≡ registers_between first last }
    ensures few { result ≤ 16 }
{
    (last + 16 - first) % 16 + 1
}

/// The values of all registers from one on, register 0 after 15.
fn values_from(machine: &Machine, first: u8) -> [u64; 16]
    requires { first < 16 }
    ensures { result ≡ values_from (registers_of machine.now) first 16 }
{
    [
        machine.general(first % 16),
        machine.general((first + 1) % 16),
        machine.general((first + 2) % 16),
        machine.general((first + 3) % 16),
        machine.general((first + 4) % 16),
        machine.general((first + 5) % 16),
        machine.general((first + 6) % 16),
        machine.general((first + 7) % 16),
        machine.general((first + 8) % 16),
        machine.general((first + 9) % 16),
        machine.general((first + 10) % 16),
        machine.general((first + 11) % 16),
        machine.general((first + 12) % 16),
        machine.general((first + 13) % 16),
        machine.general((first + 14) % 16),
        machine.general((first + 15) % 16),
    ]
}

/// Memory gets the lowest bits of r1.
pub fn store(machine: &Machine, fields: &Fields, destination: SecondOperand) -> Action
    requires { FieldsFit (RowSemantics.Store destination) fields.now }
    ensures value { result
        ≡ action (RowSemantics.Store destination) fields.now (registers_of machine.now)
        machine.now.place }
    ensures sound { IsSoundAction result }
{
    let value = machine.general(fields.regs[0]);
    performs(
        CodeRule::Kept,
        Effect::Store {
            width: destination.width,
            value: in_byte_order(destination.reversed, destination.width, value),
            destination: source(machine, destination.operand_source, fields),
        },
    )
}

/// Memory gets the immediate of 8 bits.
pub fn store_byte(machine: &Machine, fields: &Fields) -> Action
    requires { FieldsFit RowSemantics.StoreByte fields.now }
    ensures value { result
        ≡ action RowSemantics.StoreByte fields.now (registers_of machine.now) machine.now.place }
    ensures sound { IsSoundAction result }
{
    performs(
        CodeRule::Kept,
        Effect::Store {
            width: Width::Bits8,
            value: fields.masks[0] as u64,
            destination: Source::Memory(address_by_base(machine, fields.regs[0], fields.disp)),
        },
    )
}

/// Memory gets the immediate of 16 bits, extended to this width with its sign.
pub fn store_immediate(machine: &Machine, fields: &Fields, width: Width) -> Action
    requires { FieldsFit (RowSemantics.StoreImmediate width) fields.now }
    ensures value { result
        ≡ action (RowSemantics.StoreImmediate width) fields.now (registers_of machine.now)
        machine.now.place }
    ensures sound { IsSoundAction result }
{
    performs(
        CodeRule::Kept,
        Effect::Store {
            width,
            value: immediate(fields),
            destination: Source::Memory(address_by_base(machine, fields.regs[0], fields.disp)),
        },
    )
}

/// The registers from r1 to r2 get the doublewords in memory.
pub fn load_multiple(machine: &Machine, fields: &Fields) -> Action
    requires { FieldsFit RowSemantics.LoadMultiple fields.now }
    ensures value { result
        ≡ action RowSemantics.LoadMultiple fields.now (registers_of machine.now) machine.now.place }
    ensures sound { IsSoundAction result }
{
    performs(
        CodeRule::Kept,
        Effect::LoadMultiple {
            first_register: fields.regs[0],
            count: register_count(fields.regs[0], fields.regs[1]),
            address: address_by_base(machine, fields.regs[2], fields.disp),
        },
    )
}

/// The registers from r1 to r2 go to doublewords in memory.
pub fn store_multiple(machine: &Machine, fields: &Fields) -> Action
    requires { FieldsFit RowSemantics.StoreMultiple fields.now }
    ensures value { result
        ≡ action RowSemantics.StoreMultiple fields.now (registers_of machine.now)
        machine.now.place }
    ensures sound { IsSoundAction result }
{
    performs(
        CodeRule::Kept,
        Effect::StoreMultiple {
            values: values_from(machine, fields.regs[0]),
            count: register_count(fields.regs[0], fields.regs[1]),
            address: address_by_base(machine, fields.regs[2], fields.disp),
        },
    )
}

/// Register r1 gets the number in memory, which becomes an operator's value of it and r2.
pub fn load_and_operate(
    machine: &Machine,
    fields: &Fields,
    operator: Operator,
    size: Size,
) -> Action
    requires { FieldsFit (RowSemantics.LoadAndOperate operator size) fields.now }
    ensures value { result
        ≡ action (RowSemantics.LoadAndOperate operator size) fields.now (registers_of machine.now)
        machine.now.place }
    ensures sound { IsSoundAction result }
{
    performs(
        CodeRule::Set,
        Effect::LoadAndOperate {
            operator,
            size,
            target: fields.regs[0],
            second: value_in(machine, size, fields.regs[1]),
            address: address_by_base(machine, fields.regs[2], fields.disp),
        },
    )
}

/// The number in memory becomes r2 where it is r1, else r1 gets it.
pub fn compare_and_swap(machine: &Machine, fields: &Fields, size: Size) -> Action
    requires { FieldsFit (RowSemantics.CompareAndSwap size) fields.now }
    ensures value { result
        ≡ action (RowSemantics.CompareAndSwap size) fields.now (registers_of machine.now)
        machine.now.place }
    ensures sound { IsSoundAction result }
{
    performs(
        CodeRule::Set,
        Effect::CompareAndSwap {
            size,
            target: fields.regs[0],
            expected: value_in(machine, size, fields.regs[0]),
            replacement: value_in(machine, size, fields.regs[1]),
            address: address_by_base(machine, fields.regs[2], fields.disp),
        },
    )
}
