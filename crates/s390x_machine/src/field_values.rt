//! The values and addresses that a row's fields name.

ghost use Rattle.std.specs.Prelude.{◌≡◌, ◌<◌, ◌*◌, ◌^◌, false};
ghost use Rattle.s390x_operations.specs.Numbers.{modulus, low};
ghost use Rattle.s390x_machine.specs.Operands.{value_in, address_part, address_by_base};
ghost use Rattle.s390x_machine.specs.Semantics.{register_field, indexed_address, relative_address, first_register, source, operand, performs};
ghost use Rattle.s390x_machine.specs.State.{registers_of};
ghost use Rattle.s390x_machine.specs.Sound.{AreGeneral, ShiftFits};

use crate::action_type::Action;
use crate::machine::Machine;
use s390x_format::{Fields, OperandSource, SecondOperand};
use s390x_lanes::Signedness;
use s390x_operations::{CodeRule, Effect, Operand, Operation, Size, Source, Width, low};

/// The part of a register that a size names.
pub fn value_in(machine: &Machine, size: Size, register: u8) -> u64
    requires { register < 16 }
    ensures value { result ≡ value_in size (registers_of machine.now) register }
    ensures below { result < modulus size }
{
    match size {
        Size::Halfword => machine.general(register) % 65536,
        Size::Word => machine.general(register) % 4294967296,
        Size::Doubleword => machine.general(register),
    }
}

/// A base or an index: register 0 counts as zero.
pub fn address_part(machine: &Machine, register: u8) -> u64
    requires { register < 16 }
    ensures { result ≡ address_part (registers_of machine.now) register }
{
    if register == 0 {
        0
    } else {
        machine.general(register)
    }
}

/// A base plus a displacement.
pub fn address_by_base(machine: &Machine, base: u8, displacement: i32) -> u64
    requires { base < 16 }
    ensures { result ≡ address_by_base (registers_of machine.now) base displacement }
{
    low(
        Size::Doubleword,
        address_part(machine, base) as i128 + displacement as i128,
    )
}

/// A base plus an index plus a displacement.
pub fn indexed_address(machine: &Machine, fields: &Fields) -> u64
    requires base { register_field fields.now 1 < 16 }
    requires index { register_field fields.now 2 < 16 }
    ensures { result ≡ indexed_address fields.now (registers_of machine.now) }
{
    let base = address_part(machine, fields.regs[1]);
    let sum = base as u128 + address_part(machine, fields.regs[2]) as u128;
    low(Size::Doubleword, sum as i128 + fields.disp as i128)
}

/// The instruction's own place plus its distance.
pub fn relative_address(machine: &Machine, fields: &Fields) -> u64
    ensures { result ≡ relative_address fields.now machine.now.place }
{
    low(Size::Doubleword, machine.place as i128 + fields.imm as i128)
}

/// The immediate modulo 2^64.
pub fn immediate(fields: &Fields) -> u64
    ensures { result ≡ low Size.Doubleword fields.now.imm }
{
    low(Size::Doubleword, fields.imm as i128)
}

/// The first operand's register.
pub fn first_register(operand_source: OperandSource, fields: &Fields) -> u8
    requires { AreGeneral fields.now }
    ensures value { result ≡ first_register operand_source fields.now }
    ensures there { result < 16 }
{
    match operand_source {
        OperandSource::ThreeRegisters => fields.regs[1],
        OperandSource::ThreeImmediate => fields.regs[1],
        OperandSource::Amount => fields.regs[1],
        _ => fields.regs[0],
    }
}

/// The immediate, so many bits further to the left.
fn shifted_immediate(fields: &Fields, n: u8) -> u64
    requires few { n < 64 }
    requires room { low Size.Doubleword fields.now.imm * 2 ^ n < 2 ^ 64 }
    ensures { result ≡ low Size.Doubleword fields.now.imm * 2 ^ n }
{
    immediate(fields) << n
}

/// The second operand's value, or its address where it is in memory.
#[inline(always)]
pub fn source(machine: &Machine, operand_source: OperandSource, fields: &Fields) -> Source
    requires general { AreGeneral fields.now }
    requires room { ShiftFits operand_source fields.now }
    ensures { result
        ≡ source operand_source fields.now (registers_of machine.now) machine.now.place }
{
    match operand_source {
        OperandSource::Register => Source::Value(machine.general(fields.regs[1])),
        OperandSource::ThreeRegisters => Source::Value(machine.general(fields.regs[2])),
        OperandSource::Indexed => Source::Memory(indexed_address(machine, fields)),
        OperandSource::IndexedAddress => Source::Value(indexed_address(machine, fields)),
        OperandSource::Relative => Source::AlignedMemory(relative_address(machine, fields)),
        OperandSource::RelativeAddress => Source::Value(relative_address(machine, fields)),
        OperandSource::Immediate => Source::Value(immediate(fields)),
        OperandSource::ThreeImmediate => Source::Value(immediate(fields)),
        OperandSource::ShiftedImmediate(n) => Source::Value(shifted_immediate(fields, n)),
        OperandSource::Amount => Source::Value(address_by_base(
            machine,
            fields.regs[2],
            fields.disp,
        )),
        OperandSource::AccessRegister => Source::Value(
            machine.aregs[fields.regs[1] as usize] as u64,
        ),
    }
}

/// The second operand, and how it is read.
pub fn operand(machine: &Machine, second: SecondOperand, fields: &Fields) -> Operand
    requires general { AreGeneral fields.now }
    requires room { ShiftFits second.operand_source fields.now }
    ensures { result ≡ operand second fields.now (registers_of machine.now) machine.now.place }
{
    Operand {
        source: source(machine, second.operand_source, fields),
        width: second.width,
        sign: second.sign,
        reversed: second.reversed,
    }
}

/// An effect with its rule for the condition code; the next instruction follows.
pub fn performs(rule: CodeRule, effect: Effect) -> Action
    ensures { result ≡ performs rule effect }
{
    Action::Perform(Operation { effect, rule })
}

/// A register's value as an operand.
pub fn whole_operand(value: u64) -> Operand
    ensures source { result.source ≡ Source.Value value }
    ensures width { result.width ≡ Width.Bits64 }
    ensures sign { result.sign ≡ Signedness.Unsigned }
    ensures reversed { result.reversed ≡ false }
{
    Operand {
        source: Source::Value(value),
        width: Width::Bits64,
        sign: Signedness::Unsigned,
        reversed: false,
    }
}
