//! Performing an operation on a machine and a memory.

ghost use Rattle.std.specs.Prelude.{◌≡◌, ◌<◌, ◌≤◌, ◌*◌, true, IsTrue, Option};
ghost use Rattle.s390x_operations.specs.Numbers.{modulus};
ghost use Rattle.s390x_operations.specs.Bits.{bytes, IsWithin};
ghost use Rattle.s390x_operations.specs.State.{number_at, reaches, with_code, write_get, writes_of};
ghost use Rattle.s390x_operations.specs.Vectors.{layout_bytes, register_after_load};
ghost use Rattle.s390x_operations.specs.Access.{store_event};
ghost use Rattle.s390x_operations.specs.Values.{raw, operand_value};
ghost use Rattle.s390x_operations.specs.Effects.{source_access, store_access, access, is_selected, divide_stop, stop_of_effect, MayRefuse, set_multiple, vector_code, code_numbered, effect_code, CodeAfter};
ghost use Rattle.s390x_machine.specs.State.{memory_of, registers_of, core_of};
ghost use Rattle.s390x_machine.specs.Sound.{is_reached, IsSound, outcome, HasOutcome};
ghost use Rattle.s390x_machine.specs.Step.{ExecutesOperation};

use crate::access::{access_fault, load, number_in_memory, size_in_bytes, store_multiple};
use crate::machine::Machine;
use crate::memory::Memory;
use s390x_lanes::{code, divides_by_zero, division_overflows, result};
use s390x_operations::{
    CodeRule, ConditionCode, Effect, Operand, Operation, Pair, Size, Source, StopKind,
    VectorLayout, Width, bytes, compare_code, extended_bits, in_byte_order, layout_bytes, leftmost,
    modulus, operate, register_after_load, signed_division, unsigned_division, vector_stored,
    wide_product,
};

/// Whether the mask has the condition code's bit, the leftmost one for code 0.
pub fn is_selected(mask: u8, code: ConditionCode) -> bool
    ensures { result ≡ is_selected mask code }
{
    match code {
        ConditionCode::Code0 => mask / 8 % 2 == 1,
        ConditionCode::Code1 => mask / 4 % 2 == 1,
        ConditionCode::Code2 => mask / 2 % 2 == 1,
        ConditionCode::Code3 => mask % 2 == 1,
    }
}

/// The bits of an operand.
fn raw<M: Memory>(memory: &M, source: Source, width: Width) -> u64
    requires { IsTrue (is_reached (source_access source (bytes width)) (M.held memory.now)) }
    ensures { result ≡ raw source width (memory_of (M.held memory.now) (M.byte memory.now)) }
{
    match source {
        Source::Value(x) => x,
        Source::Memory(a) => load(memory, a, bytes(width) as u64),
        Source::AlignedMemory(a) => load(memory, a, bytes(width) as u64),
    }
}

/// An operand's value at a size.
fn operand_value<M: Memory>(memory: &M, size: Size, y: Operand) -> u64
    requires within { IsWithin y.width size }
    requires there { IsTrue
        (is_reached (source_access y.source (bytes y.width)) (M.held memory.now)) }
    ensures value { result
        ≡ operand_value size y (memory_of (M.held memory.now) (M.byte memory.now)) }
    ensures below { result < modulus size }
{
    let bits = raw(memory, y.source, y.width);
    extended_bits(
        y.sign,
        y.width,
        size,
        in_byte_order(y.reversed, y.width, bits),
    )
}

/// The stop of a division without a result.
fn divide_stop(pair: Option<Pair>) -> Option<StopKind>
    ensures { result ≡ divide_stop pair }
{
    match pair {
        None => Some(StopKind::Divide),
        Some(_) => None,
    }
}

/// The stop that the values bring about.
fn stop_of_effect(effect: &Effect) -> Option<StopKind>
    requires { IsSound effect.now }
    ensures { result ≡ stop_of_effect effect.now }
{
    match *effect {
        Effect::CompareAndTrap {
            sign,
            size,
            first,
            second,
            mask,
        } => {
            if is_selected(mask, compare_code(sign, size, first, second)) {
                Some(StopKind::CompareTrap)
            } else {
                None
            }
        }
        Effect::DividePair {
            dividend,
            divisor,
            ..
        } => { divide_stop(signed_division(dividend, divisor)) }
        Effect::DivideLogicalPair {
            size,
            high,
            low,
            divisor,
            ..
        } => {
            let n = high as u128 * modulus(size) + low as u128;
            divide_stop(unsigned_division(size, n, divisor))
        }
        Effect::ComputeVector {
            operation,
            third,
            ..
        } => {
            if divides_by_zero(operation, third) {
                Some(StopKind::Divide)
            } else {
                None
            }
        }
        _ => None,
    }
}

/// Whether a lane's quotient doesn't fit: the operation may stop then, and this machine does.
fn overflows(effect: &Effect) -> bool
    ensures may { result ≡ true → MayRefuse effect.now StopKind.Divide }
    ensures must { MayRefuse effect.now StopKind.Divide → result ≡ true }
{
    match *effect {
        Effect::ComputeVector {
            operation,
            second,
            third,
            ..
        } => { division_overflows(operation, second, third) }
        _ => false,
    }
}

/// A vector register that held `old` gets what is in memory.
#[tactic(auto, using(crate::proofs::Vectors::bytes_bits))]
pub fn vector_in<M: Memory>(memory: &M, layout: VectorLayout, old: u128, address: u64) -> u128
    requires { IsTrue (reaches (M.held memory.now) address (layout_bytes layout)) }
    ensures { result
        ≡ register_after_load layout old
        (number_at (M.byte memory.now) address (layout_bytes layout)) }
{
    register_after_load(
        layout,
        old,
        memory.number(address, layout_bytes(layout) as u64),
    )
}

/// So many registers from one on, register 0 after 15, get doublewords.
#[tactic(auto, using(crate::proofs::Multiples::put_none, crate::proofs::Multiples::put_more, crate::proofs::Multiples::reaches_part))]
fn put_multiple<M: Memory>(machine: &mut Machine, memory: &M, first: u8, address: u64, count: u8)
    requires first { first < 16 }
    requires few { count ≤ 16 }
    requires there { IsTrue (reaches (M.held memory.now) address (8 * count)) }
    ensures registers { registers_of machine.new
        ≡ set_multiple (registers_of machine.old) (M.byte memory.now) first address count }
    ensures place { machine.new.place ≡ machine.old.place }
{
    for i in 0..count {
        let x = load(memory, address.wrapping_add(8 * i as u64), 8);
        machine.put((first + i) % 16, x);
    }
}

/// The registers after an effect, but for the condition code.
fn put_results<M: Memory>(machine: &mut Machine, memory: &M, effect: &Effect)
    requires sound { IsSound effect.now }
    requires there { IsTrue (is_reached (access effect.now) (M.held memory.now)) }
    ensures registers { registers_of machine.new
        ≡ outcome effect.now (core_of machine.old (M.held memory.now) (M.byte memory.now)) }
    ensures fits { HasOutcome effect.now
        (core_of machine.old (M.held memory.now) (M.byte memory.now)) }
    ensures place { machine.new.place ≡ machine.old.place }
{
    match *effect {
        Effect::Compute {
            operator,
            size,
            target,
            first,
            second,
        } => {
            let y = operand_value(memory, size, second);
            machine.put_sized(size, target, operate(operator, size, first, y).0);
        }
        Effect::MultiplyPair {
            sign,
            pair,
            first,
            second,
        } => {
            machine.put_pair(Size::Doubleword, pair, wide_product(sign, first, second));
        }
        Effect::DividePair {
            pair,
            dividend,
            divisor,
        } => {
            machine.put_divided(Size::Doubleword, pair, signed_division(dividend, divisor));
        }
        Effect::DivideLogicalPair {
            size,
            pair,
            high,
            low,
            divisor,
        } => {
            let n = high as u128 * modulus(size) + low as u128;
            machine.put_divided(size, pair, unsigned_division(size, n, divisor));
        }
        Effect::FindLeftmostOne { pair, value } => {
            machine.put_pair(Size::Doubleword, pair, leftmost(value));
        }
        Effect::LoadAndOperate {
            size,
            target,
            address,
            ..
        } => {
            machine.put_sized(size, target, number_in_memory(memory, size, address));
        }
        Effect::CompareAndSwap {
            size,
            target,
            address,
            ..
        } => {
            machine.put_sized(size, target, number_in_memory(memory, size, address));
        }
        Effect::LoadMultiple {
            first_register,
            count,
            address,
        } => {
            put_multiple(machine, memory, first_register, address, count);
        }
        Effect::Havoc { target } => machine.put(target, 0),
        Effect::ComputeVector {
            operation,
            target,
            first,
            second,
            third,
            fourth,
        } => {
            machine.put_vector(target, result(operation, first, second, third, fourth));
        }
        Effect::PutVector { target, value, .. } => machine.put_vector(target, value),
        Effect::LoadVector {
            layout,
            target,
            old,
            address,
            ..
        } => {
            machine.put_vector(target, vector_in(memory, layout, old, address));
        }
        _ => {}
    }
}

/// The code with a number; one above 3 counts as 3.
fn code_numbered(number: u8) -> ConditionCode
    ensures { result ≡ code_numbered number }
{
    match number {
        0 => ConditionCode::Code0,
        1 => ConditionCode::Code1,
        2 => ConditionCode::Code2,
        _ => ConditionCode::Code3,
    }
}

/// The code that stands, where an operation sets none.
pub fn vector_code(code: ConditionCode, number: Option<u8>) -> ConditionCode
    ensures { result ≡ vector_code code number }
{
    match number {
        None => code,
        Some(n) => code_numbered(n),
    }
}

/// The condition code of an effect.
fn effect_code<M: Memory>(machine: &Machine, memory: &M, effect: &Effect) -> ConditionCode
    requires sound { IsSound effect.now }
    requires there { IsTrue (is_reached (access effect.now) (M.held memory.now)) }
    ensures { result
        ≡ effect_code effect.now (core_of machine.now (M.held memory.now) (M.byte memory.now)) }
{
    match *effect {
        Effect::Compute {
            operator,
            size,
            first,
            second,
            ..
        } => { operate(operator, size, first, operand_value(memory, size, second)).1 }
        Effect::Test {
            operator,
            size,
            first,
            second,
        } => { operate(operator, size, first, operand_value(memory, size, second)).1 }
        Effect::Compare {
            sign,
            size,
            first,
            second,
        } => { compare_code(sign, size, first, operand_value(memory, size, second)) }
        Effect::FindLeftmostOne { value, .. } => {
            if value == 0 {
                ConditionCode::Code0
            } else {
                ConditionCode::Code2
            }
        }
        Effect::LoadAndOperate {
            operator,
            size,
            second,
            address,
            ..
        } => {
            operate(
                operator,
                size,
                number_in_memory(memory, size, address),
                second,
            )
            .1
        }
        Effect::CompareAndSwap {
            size,
            expected,
            address,
            ..
        } => {
            if number_in_memory(memory, size, address) == expected {
                ConditionCode::Code0
            } else {
                ConditionCode::Code1
            }
        }
        Effect::ComputeVector {
            operation,
            first,
            second,
            third,
            ..
        } => {
            vector_code(
                machine.condition_code(),
                code(operation, first, second, third),
            )
        }
        _ => machine.condition_code(),
    }
}

/// A condition code that an operation allows.
fn new_code<M: Memory>(machine: &Machine, memory: &M, op: &Operation) -> ConditionCode
    requires sound { IsSound op.now.effect }
    requires there { IsTrue (is_reached (access op.now.effect) (M.held memory.now)) }
    ensures { CodeAfter op.now.rule op.now.effect
        (core_of machine.now (M.held memory.now) (M.byte memory.now)) result }
{
    match op.rule {
        CodeRule::Set => effect_code(machine, memory, &op.effect),
        CodeRule::Kept => machine.condition_code(),
        CodeRule::Unspecified => machine.condition_code(),
    }
}

/// The low bytes of a value go to a place in memory.
fn store_value<M: Memory>(memory: &mut M, destination: Source, width: Width, value: u64)
    requires { IsTrue
        (is_reached (store_access destination (bytes width) value) (M.held memory.old)) }
    ensures same { M.held memory.new ≡ M.held memory.old }
    ensures written { M.byte memory.new
        ≡ write_get
        (writes_of
        (store_event (store_access destination (bytes width) value)
        (memory_of (M.held memory.old) (M.byte memory.old)))) (M.byte memory.old) }
{
    match destination {
        Source::Value(_) => {}
        Source::Memory(a) => memory.put_number(a, bytes(width) as u64, value as u128),
        Source::AlignedMemory(a) => memory.put_number(a, bytes(width) as u64, value as u128),
    }
}

/// The store of an effect, if it stores.
fn put_stored<M: Memory>(memory: &mut M, effect: &Effect)
    requires sound { IsSound effect.now }
    requires there { IsTrue (is_reached (access effect.now) (M.held memory.old)) }
    ensures same { M.held memory.new ≡ M.held memory.old }
    ensures written { M.byte memory.new
        ≡ write_get
        (writes_of
        (store_event (access effect.now) (memory_of (M.held memory.old) (M.byte memory.old))))
        (M.byte memory.old) }
{
    match *effect {
        Effect::Store {
            width,
            value,
            destination,
        } => {
            store_value(memory, destination, width, value);
        }
        Effect::LoadAndOperate {
            operator,
            size,
            second,
            address,
            ..
        } => {
            let value = operate(
                operator,
                size,
                number_in_memory(memory, size, address),
                second,
            )
            .0;
            memory.put_number(address, size_in_bytes(size), value as u128);
        }
        Effect::CompareAndSwap {
            size,
            expected,
            replacement,
            address,
            ..
        } => {
            if number_in_memory(memory, size, address) == expected {
                memory.put_number(address, size_in_bytes(size), replacement as u128);
            }
        }
        Effect::StoreMultiple {
            values,
            count,
            address,
        } => {
            store_multiple(memory, &values, address, count);
        }
        Effect::StoreVector {
            layout,
            value,
            address,
        } => {
            let stored = vector_stored(layout, value);
            memory.put_number(address, layout_bytes(layout) as u64, stored);
        }
        _ => {}
    }
}

/// An operation that doesn't stop is done.
fn act<M: Memory>(machine: &mut Machine, memory: &mut M, op: &Operation)
    requires sound { IsSound op.now.effect }
    requires there { IsTrue (is_reached (access op.now.effect) (M.held memory.old)) }
    ensures registers { registers_of machine.new
        ≡ with_code (registers_of machine.new).code
        (outcome op.now.effect (core_of machine.old (M.held memory.old) (M.byte memory.old))) }
    ensures fits { HasOutcome op.now.effect
        (core_of machine.old (M.held memory.old) (M.byte memory.old)) }
    ensures code { CodeAfter op.now.rule op.now.effect
        (core_of machine.old (M.held memory.old) (M.byte memory.old))
        (registers_of machine.new).code }
    ensures same { M.held memory.new ≡ M.held memory.old }
    ensures written { M.byte memory.new
        ≡ write_get
        (writes_of
        (store_event (access op.now.effect)
        (memory_of (M.held memory.old) (M.byte memory.old)))) (M.byte memory.old) }
    ensures place { machine.new.place ≡ machine.old.place }
{
    let code = new_code(machine, memory, op);
    put_results(machine, memory, &op.effect);
    machine.set_condition_code(code);
    put_stored(memory, &op.effect);
}

/// An operation is done, or it stops: the fault of its access comes first, then what the values bring about.
pub fn perform<M: Memory>(machine: &mut Machine, memory: &mut M, op: &Operation) -> Option<StopKind>
    requires { IsSound op.now.effect }
    ensures core { ExecutesOperation op.now
        (core_of machine.old (M.held memory.old) (M.byte memory.old)) result
        (core_of machine.new (M.held memory.new) (M.byte memory.new)) }
    ensures place { machine.new.place ≡ machine.old.place }
{
    let fault = access_fault(memory, &op.effect);
    if fault.is_some() {
        return fault;
    }
    let stop = stop_of_effect(&op.effect);
    if stop.is_some() {
        return stop;
    }
    if overflows(&op.effect) {
        return Some(StopKind::Divide);
    }
    act(machine, memory, op);
    None
}
