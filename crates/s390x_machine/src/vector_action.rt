//! What a machine row on vector registers does with its fields.

ghost use Rattle.std.specs.Prelude.{◌≡◌, ◌<◌, ◌≤◌, ◌+◌, ◌*◌, ◌%◌, ◌^◌, true, false, IsTrue, IsFalse, MatchOption, slice_index};
ghost use Rattle.s390x_lanes.specs.Size.{element_bits, lane_count};
ghost use Rattle.s390x_lanes.specs.Lanes.{lane};
ghost use Rattle.s390x_lanes.specs.Rows.{is_operation};
ghost use Rattle.s390x_operations.specs.Vectors.{layout_bytes, register_after_load};
ghost use Rattle.s390x_machine.specs.Semantics.{register_field, performs, element_size, left_bits, vector_layout_of, on_elements, moves_value, action};
ghost use Rattle.s390x_machine.specs.State.{registers_of};
ghost use Rattle.s390x_machine.specs.Sound.{FieldsFit, IsSoundAction, is_free, is_uncomputed, shift_amount};

use crate::action_type::Action;
use crate::field_values::{address_by_base, indexed_address, performs, value_in, whole_operand};
use crate::machine::Machine;
use s390x_format::{Fields, RowSemantics, VectorStorage};
use s390x_lanes::{ElementSize, VectorOperation, VectorRow, element, operation, size_from};
use s390x_operations::{CodeRule, Effect, Operator, Size, VectorLayout, register_after_load};

/// The element size that the first mask tells.
fn element_size(fields: &Fields) -> ElementSize
    ensures { result ≡ element_size fields.now }
{
    size_from(fields.masks[0])
}

/// The bits of a vector register's leftmost element.
fn left_bits(size: ElementSize) -> u128
    ensures { result ≡ left_bits size }
{
    match size {
        ElementSize::Byte => 0xff00_0000_0000_0000_0000_0000_0000_0000,
        ElementSize::Halfword => 0xffff_0000_0000_0000_0000_0000_0000_0000,
        ElementSize::Word => 0xffff_ffff_0000_0000_0000_0000_0000_0000,
        ElementSize::Doubleword => 0xffff_ffff_ffff_ffff_0000_0000_0000_0000,
        ElementSize::Quadword => 0xffff_ffff_ffff_ffff_ffff_ffff_ffff_ffff,
    }
}

/// Where an operand lies in memory and how, by the first mask.
pub fn layout_of(storage: VectorStorage, fields: &Fields) -> VectorLayout
    ensures { result ≡ vector_layout_of storage fields.now }
{
    match storage {
        VectorStorage::Whole => VectorLayout::Whole,
        VectorStorage::ReversedBytes => VectorLayout::ReversedBytes(element_size(fields)),
        VectorStorage::ReversedElements => VectorLayout::ReversedElements(element_size(fields)),
        VectorStorage::Replicated(backwards) => {
            VectorLayout::Replicated(element_size(fields), backwards)
        }
        VectorStorage::Element(size, backwards) => {
            VectorLayout::Element(size, fields.masks[0], backwards)
        }
    }
}

/// A vector register gets a value; the bits that aren't known get any.
fn puts_vector(target: u8, known: u128, value: u128) -> Action
    ensures { result ≡ performs CodeRule.Kept (Effect.PutVector target known value) }
{
    performs(
        CodeRule::Kept,
        Effect::PutVector {
            target,
            known,
            value,
        },
    )
}

/// What a row on vector registers does.
fn on_elements(operation: Option<VectorOperation>, target: u8, values: [u128; 4]) -> Action
    requires there { target < 32 }
    requires is_operation { MatchOption operation (Unit {0}) (λ o. IsTrue (is_operation o)) }
    requires is_computed { IsFalse (is_uncomputed operation) }
    ensures value { result
        ≡ on_elements operation target (slice_index values 0) (slice_index values 1)
        (slice_index values 2) (slice_index values 3) }
    ensures sound { IsSoundAction result }
{
    match operation {
        None => puts_vector(target, 0, 0),
        Some(operation) => performs(
            CodeRule::Set,
            Effect::ComputeVector {
                operation,
                target,
                first: values[0],
                second: values[1],
                third: values[2],
                fourth: values[3],
            },
        ),
    }
}

/// Vector register r1 gets what the row makes of the vector registers that it names.
pub fn elements(machine: &Machine, fields: &Fields, row: VectorRow) -> Action
    requires determined { IsFalse
        (is_free (RowSemantics.Elements row) fields.now (registers_of machine.now)) }
    requires fit { FieldsFit (RowSemantics.Elements row) fields.now }
    ensures value { result
        ≡ action (RowSemantics.Elements row) fields.now (registers_of machine.now)
        machine.now.place }
    ensures sound { IsSoundAction result }
{
    let values = [
        machine.vector(fields.regs[0]),
        machine.vector(fields.regs[1]),
        machine.vector(fields.regs[2]),
        machine.vector(fields.regs[3]),
    ];
    on_elements(
        operation(row, fields.masks, fields.imm),
        fields.regs[0],
        values,
    )
}

/// The amount of an element shift.
pub fn shift_amount(machine: &Machine, fields: &Fields) -> i64
    requires { register_field fields.now 1 < 16 }
    ensures { result ≡ shift_amount fields.now (registers_of machine.now) }
{
    (address_by_base(machine, fields.regs[1], fields.disp) % 64) as i64
}

/// Vector register r1 becomes r3 with its elements shifted by the amount at base r2 plus a displacement.
pub fn shift_elements(machine: &Machine, fields: &Fields, row: VectorRow) -> Action
    requires determined { IsFalse
        (is_free (RowSemantics.ShiftElements row) fields.now (registers_of machine.now)) }
    requires fit { FieldsFit (RowSemantics.ShiftElements row) fields.now }
    ensures value { result
        ≡ action (RowSemantics.ShiftElements row) fields.now (registers_of machine.now)
        machine.now.place }
    ensures sound { IsSoundAction result }
{
    let values = [
        machine.vector(fields.regs[0]),
        machine.vector(fields.regs[2]),
        0,
        0,
    ];
    on_elements(
        operation(row, fields.masks, shift_amount(machine, fields)),
        fields.regs[0],
        values,
    )
}

/// Vector register r1 gets what is in memory.
pub fn load_vector(machine: &Machine, fields: &Fields, storage: VectorStorage) -> Action
    requires { FieldsFit (RowSemantics.LoadVector storage) fields.now }
    ensures value { result
        ≡ action (RowSemantics.LoadVector storage) fields.now (registers_of machine.now)
        machine.now.place }
    ensures sound { IsSoundAction result }
{
    performs(
        CodeRule::Kept,
        Effect::LoadVector {
            layout: layout_of(storage, fields),
            target: fields.regs[0],
            old: machine.vector(fields.regs[0]),
            known: u128::MAX,
            address: indexed_address(machine, fields),
        },
    )
}

/// What is in vector register r1 goes to memory.
pub fn store_vector(machine: &Machine, fields: &Fields, storage: VectorStorage) -> Action
    requires { FieldsFit (RowSemantics.StoreVector storage) fields.now }
    ensures value { result
        ≡ action (RowSemantics.StoreVector storage) fields.now (registers_of machine.now)
        machine.now.place }
    ensures sound { IsSoundAction result }
{
    performs(
        CodeRule::Kept,
        Effect::StoreVector {
            layout: layout_of(storage, fields),
            value: machine.vector(fields.regs[0]),
            address: indexed_address(machine, fields),
        },
    )
}

/// The leftmost element of vector register r1 gets that in memory.
pub fn load_left(machine: &Machine, fields: &Fields, size: ElementSize) -> Action
    requires { FieldsFit (RowSemantics.LoadLeft size) fields.now }
    ensures value { result
        ≡ action (RowSemantics.LoadLeft size) fields.now (registers_of machine.now)
        machine.now.place }
    ensures sound { IsSoundAction result }
{
    performs(
        CodeRule::Kept,
        Effect::LoadVector {
            layout: VectorLayout::Element(size, 0, false),
            target: fields.regs[0],
            old: machine.vector(fields.regs[0]),
            known: left_bits(size),
            address: indexed_address(machine, fields),
        },
    )
}

/// The leftmost element of vector register r1 goes to memory.
pub fn store_left(machine: &Machine, fields: &Fields, size: ElementSize) -> Action
    requires { FieldsFit (RowSemantics.StoreLeft size) fields.now }
    ensures value { result
        ≡ action (RowSemantics.StoreLeft size) fields.now (registers_of machine.now)
        machine.now.place }
    ensures sound { IsSoundAction result }
{
    performs(
        CodeRule::Kept,
        Effect::StoreVector {
            layout: VectorLayout::Element(size, 0, false),
            value: machine.vector(fields.regs[0]),
            address: indexed_address(machine, fields),
        },
    )
}

/// The leftmost element of vector register r1 gets that of r2.
pub fn move_left(machine: &Machine, fields: &Fields, size: ElementSize) -> Action
    requires { FieldsFit (RowSemantics.MoveLeft size) fields.now }
    ensures value { result
        ≡ action (RowSemantics.MoveLeft size) fields.now (registers_of machine.now)
        machine.now.place }
    ensures sound { IsSoundAction result }
{
    puts_vector(
        fields.regs[0],
        left_bits(size),
        machine.vector(fields.regs[1]),
    )
}

/// Two doublewords, one behind the other.
fn doubleword_pair(high: u64, low: u64) -> u128
    ensures value { result ≡ high * 2 ^ 64 + low }
    ensures fits { result < 2 ^ 128 }
{
    high as u128 * 18446744073709551616 + low as u128
}

/// A general register gets a value.
fn moves_value(machine: &Machine, fields: &Fields, value: u64) -> Action
    requires { register_field fields.now 0 < 16 }
    ensures value { result ≡ moves_value fields.now (registers_of machine.now) value }
    ensures sound { IsSoundAction result }
{
    performs(
        CodeRule::Kept,
        Effect::Compute {
            operator: Operator::Move,
            size: Size::Doubleword,
            target: fields.regs[0],
            first: value_in(machine, Size::Doubleword, fields.regs[0]),
            second: whole_operand(value),
        },
    )
}

/// The leftmost 64 bits of vector register r1 get register r2.
pub fn register_to_left(machine: &Machine, fields: &Fields) -> Action
    requires { FieldsFit RowSemantics.RegisterToLeft fields.now }
    ensures value { result
        ≡ action RowSemantics.RegisterToLeft fields.now (registers_of machine.now)
        machine.now.place }
    ensures sound { IsSoundAction result }
{
    let value = doubleword_pair(machine.general(fields.regs[1]), 0);
    puts_vector(fields.regs[0], left_bits(ElementSize::Doubleword), value)
}

/// An element of at most 64 bits.
fn element_of(size: ElementSize, value: u128, index: u32) -> u64
    requires narrow { element_bits size ≤ 64 }
    requires inside { index < lane_count size }
    ensures { result ≡ lane (element_bits size) value index }
{
    element(size, value, index) as u64
}

/// Register r1 gets the leftmost 64 bits of vector register r2.
pub fn left_to_register(machine: &Machine, fields: &Fields) -> Action
    requires { FieldsFit RowSemantics.LeftToRegister fields.now }
    ensures value { result
        ≡ action RowSemantics.LeftToRegister fields.now (registers_of machine.now)
        machine.now.place }
    ensures sound { IsSoundAction result }
{
    let value = element_of(ElementSize::Doubleword, machine.vector(fields.regs[1]), 0);
    moves_value(machine, fields, value)
}

/// Vector register r1 gets registers r2 and r3, one behind the other.
pub fn join_registers(machine: &Machine, fields: &Fields) -> Action
    requires { FieldsFit RowSemantics.JoinRegisters fields.now }
    ensures value { result
        ≡ action RowSemantics.JoinRegisters fields.now (registers_of machine.now)
        machine.now.place }
    ensures sound { IsSoundAction result }
{
    let value = doubleword_pair(
        machine.general(fields.regs[1]),
        machine.general(fields.regs[2]),
    );
    puts_vector(fields.regs[0], u128::MAX, value)
}

/// The lowest bits of a number, as many as an element has.
fn low_bits(size: ElementSize, x: u64) -> u128
    ensures value { result ≡ x % 2 ^ element_bits size }
    ensures fits { result < 2 ^ (8 * layout_bytes (VectorLayout.Element size 0 false)) }
{
    match size {
        ElementSize::Byte => x as u128 % 256,
        ElementSize::Halfword => x as u128 % 65536,
        ElementSize::Word => x as u128 % 4294967296,
        ElementSize::Doubleword => x as u128,
        ElementSize::Quadword => x as u128,
    }
}

/// A register that held `old`, with a number at one place.
fn with_element(size: ElementSize, old: u128, index: u64, x: u64) -> u128
    requires { index < lane_count size }
    ensures value { result
        ≡ register_after_load (VectorLayout.Element size index false) old
        (x % 2 ^ element_bits size) }
    ensures fits { result < 2 ^ 128 }
{
    register_after_load(
        VectorLayout::Element(size, index as u8, false),
        old,
        low_bits(size, x),
    )
}

/// The element of vector register r1 at base r2 plus a displacement gets the lowest bits of register r3.
pub fn insert_element(machine: &Machine, fields: &Fields) -> Action
    requires { FieldsFit RowSemantics.InsertElement fields.now }
    ensures value { result
        ≡ action RowSemantics.InsertElement fields.now (registers_of machine.now)
        machine.now.place }
    ensures sound { IsSoundAction result }
{
    let size = element_size(fields);
    let target = fields.regs[0];
    let index = address_by_base(machine, fields.regs[1], fields.disp);
    let x = machine.general(fields.regs[2]);
    if index < size.lane_count() as u64 {
        puts_vector(
            target,
            u128::MAX,
            with_element(size, machine.vector(target), index, x),
        )
    } else {
        puts_vector(target, 0, 0)
    }
}

/// Register r1 gets the element of vector register r3 at base r2 plus a displacement.
pub fn extract_element(machine: &Machine, fields: &Fields) -> Action
    requires { FieldsFit RowSemantics.ExtractElement fields.now }
    ensures value { result
        ≡ action RowSemantics.ExtractElement fields.now (registers_of machine.now)
        machine.now.place }
    ensures sound { IsSoundAction result }
{
    let size = element_size(fields);
    let index = address_by_base(machine, fields.regs[1], fields.disp);
    if index < size.lane_count() as u64 {
        let value = element_of(size, machine.vector(fields.regs[2]), index as u32);
        moves_value(machine, fields, value)
    } else {
        performs(
            CodeRule::Kept,
            Effect::Havoc {
                target: fields.regs[0],
            },
        )
    }
}
