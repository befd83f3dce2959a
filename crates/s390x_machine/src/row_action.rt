//! What each machine row does with its fields.

ghost use Rattle.std.specs.Prelude.{◌≡◌, IsFalse};
ghost use Rattle.s390x_machine.specs.Semantics.{action};
ghost use Rattle.s390x_machine.specs.State.{registers_of};
ghost use Rattle.s390x_machine.specs.Sound.{FieldsFit, IsSoundAction, is_free};

use crate::action_type::Action;
use crate::field_values::{performs, relative_address};
use crate::machine::Machine;
use crate::register_action::{
    branch_and_save, branch_to_register, compare, compare_and_trap, compare_immediate_and_trap,
    compute, count_ones, divide_logical, divide_signed, find_leftmost_one, move_where,
    multiply_logical, multiply_signed, rotate_then,
};
use crate::storage_action::{
    compare_and_swap, load_and_operate, load_multiple, store, store_byte, store_immediate,
    store_multiple,
};
use crate::vector_action::{
    elements, extract_element, insert_element, join_registers, left_to_register, load_left,
    load_vector, move_left, register_to_left, shift_elements, store_left, store_vector,
};
use s390x_format::{Fields, RowSemantics};
use s390x_operations::{CodeRule, Effect};

/// What a row does, with these fields and the machine's registers, at its place.
pub fn action(machine: &Machine, semantics: RowSemantics, fields: &Fields) -> Action
    requires determined { IsFalse (is_free semantics fields.now (registers_of machine.now)) }
    requires fit { FieldsFit semantics fields.now }
    ensures value { result
        ≡ action semantics fields.now (registers_of machine.now) machine.now.place }
    ensures sound { IsSoundAction result }
{
    match semantics {
        RowSemantics::Compute(operator, size, second, rule) => compute(
            machine, fields, operator, size, second, rule,
        ),
        RowSemantics::Compare(sign, size, second) => compare(machine, fields, sign, size, second),
        RowSemantics::MoveWhere(size, second) => move_where(machine, fields, size, second),
        RowSemantics::CountOnes => count_ones(machine, fields),
        RowSemantics::RotateThen(operator, rule) => rotate_then(machine, fields, operator, rule),
        RowSemantics::MultiplySigned => multiply_signed(machine, fields),
        RowSemantics::MultiplyLogical => multiply_logical(machine, fields),
        RowSemantics::DivideSigned(width) => divide_signed(machine, fields, width),
        RowSemantics::DivideLogical(size) => divide_logical(machine, fields, size),
        RowSemantics::CompareAndTrap(sign, size) => compare_and_trap(machine, fields, sign, size),
        RowSemantics::CompareImmediateAndTrap(sign, size) => compare_immediate_and_trap(
            machine, fields, sign, size,
        ),
        RowSemantics::FindLeftmostOne => find_leftmost_one(machine, fields),
        RowSemantics::Havoc => performs(
            CodeRule::Kept,
            Effect::Havoc {
                target: fields.regs[0],
            },
        ),
        RowSemantics::BranchToRegister => branch_to_register(machine, fields),
        RowSemantics::BranchRelative => Action::Branch {
            mask: fields.masks[0],
            target: relative_address(machine, fields),
        },
        RowSemantics::Store(destination) => store(machine, fields, destination),
        RowSemantics::StoreByte => store_byte(machine, fields),
        RowSemantics::StoreImmediate(width) => store_immediate(machine, fields, width),
        RowSemantics::LoadMultiple => load_multiple(machine, fields),
        RowSemantics::StoreMultiple => store_multiple(machine, fields),
        RowSemantics::LoadAndOperate(operator, size) => load_and_operate(
            machine, fields, operator, size,
        ),
        RowSemantics::CompareAndSwap(size) => compare_and_swap(machine, fields, size),
        RowSemantics::BranchAndSaveToRegister => branch_and_save(machine, fields),
        RowSemantics::BranchAndSaveRelative => Action::BranchAndSave {
            link: fields.regs[0],
            target: relative_address(machine, fields),
        },
        RowSemantics::Elements(row) => elements(machine, fields, row),
        RowSemantics::ShiftElements(row) => shift_elements(machine, fields, row),
        RowSemantics::LoadVector(storage) => load_vector(machine, fields, storage),
        RowSemantics::StoreVector(storage) => store_vector(machine, fields, storage),
        RowSemantics::LoadLeft(size) => load_left(machine, fields, size),
        RowSemantics::StoreLeft(size) => store_left(machine, fields, size),
        RowSemantics::MoveLeft(size) => move_left(machine, fields, size),
        RowSemantics::RegisterToLeft => register_to_left(machine, fields),
        RowSemantics::LeftToRegister => left_to_register(machine, fields),
        RowSemantics::JoinRegisters => join_registers(machine, fields),
        RowSemantics::InsertElement => insert_element(machine, fields),
        RowSemantics::ExtractElement => extract_element(machine, fields),
    }
}
