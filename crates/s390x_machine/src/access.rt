//! Numbers in memory, and the faults of accesses.

ghost use Rattle.std.specs.Prelude.{◌≡◌, ℕ, ◌<◌, ◌≤◌, ◌*◌, ◌^◌, true, IsTrue, IfSome, Option, Some};
ghost use Rattle.s390x_operations.specs.Bits.{bytes};
ghost use Rattle.s390x_operations.specs.Numbers.{modulus};
ghost use Rattle.s390x_operations.specs.State.{number_at, bytes_to, write_get, reaches};
ghost use Rattle.s390x_operations.specs.Access.{reach_fault, fault, is_misaligned};
ghost use Rattle.s390x_operations.specs.Values.{width_of};
ghost use Rattle.s390x_operations.specs.Effects.{source_access, store_access, access, number_in_memory, joined_doublewords};
ghost use Rattle.s390x_machine.specs.State.{memory_of};
ghost use Rattle.s390x_machine.specs.Sound.{IsSound};
ghost use Rattle.s390x_machine.specs.Step.{StandsAt};

use crate::memory::Memory;
use s390x_operations::{Effect, Size, Source, StopKind, bytes, layout_bytes};

/// The number in so many bytes, at most 8.
#[tactic(auto, using(crate::proofs::Numbers::room))]
pub fn load<M: Memory>(memory: &M, address: u64, n: u64) -> u64
    requires few { n ≤ 8 }
    requires there { IsTrue (reaches (M.held memory.now) address n) }
    ensures value { result ≡ number_at (M.byte memory.now) address n }
    ensures below { result < 256 ^ n }
{
    memory.number(address, n) as u64
}

/// So many of the values go to memory as doublewords, one after another.
#[tactic(auto, using(crate::proofs::Multiples::stored_none, crate::proofs::Multiples::stored_more))]
pub fn store_multiple<M: Memory>(memory: &mut M, values: &[u64; 16], address: u64, count: u8)
    requires few { count ≤ 16 }
    requires there { IsTrue (reaches (M.held memory.old) address (8 * count)) }
    ensures same { M.held memory.new ≡ M.held memory.old }
    ensures written { M.byte memory.new
        ≡ write_get (bytes_to address (8 * count) (joined_doublewords values.now count))
        (M.byte memory.old) }
{
    for i in (0..count).rev() {
        let value = values[i as usize];
        memory.put_number(address.wrapping_add(8 * i as u64), 8, value as u128);
    }
}

/// How many bytes a number of a size has.
pub fn size_in_bytes(size: Size) -> u64
    ensures value { result ≡ bytes (width_of size) }
    ensures at_most { result ≤ 8 }
    ensures nonzero { 0 < result }
{
    match size {
        Size::Halfword => 2,
        Size::Word => 4,
        Size::Doubleword => 8,
    }
}

/// The number of a size at an address.
#[tactic(auto, using(crate::proofs::Numbers::whole_bytes))]
pub fn number_in_memory<M: Memory>(memory: &M, size: Size, address: u64) -> u64
    requires { IsTrue (reaches (M.held memory.now) address (bytes (width_of size))) }
    ensures value { result
        ≡ number_in_memory size (memory_of (M.held memory.now) (M.byte memory.now)) address }
    ensures below { result < modulus size }
{
    load(memory, address, size_in_bytes(size))
}

/// Whether an operand that has to be aligned stands at no multiple of its size.
fn is_misaligned(address: u64, n: u64) -> bool
    requires { 0 < n }
    ensures { result ≡ is_misaligned true address n }
{
    address % n != 0
}

/// The fault of so many bytes: they are misaligned, or else one isn't accessible.
fn reach_fault<M: Memory>(memory: &M, misaligned: bool, address: u64, n: u64) -> Option<StopKind>
    ensures { result ≡ reach_fault misaligned (M.held memory.now) address n }
{
    if misaligned {
        Some(StopKind::Specification)
    } else if memory.has_all(address, n) {
        None
    } else {
        Some(StopKind::Access)
    }
}

/// The address of an operand of so many bytes in memory; `None` where it has to be aligned and isn't, and where it isn't in memory.
pub fn operand_address(operand: Source, n: u64) -> Option<u64>
    requires { 0 < n }
    ensures { IfSome result (λ address. StandsAt operand address n) }
{
    match operand {
        Source::Value(_) => None,
        Source::Memory(address) => Some(address),
        Source::AlignedMemory(address) => {
            if is_misaligned(address, n) {
                return None;
            }
            Some(address)
        }
    }
}

/// The fault of an operand of so many bytes, whether it is read or stored.
fn operand_fault<M: Memory>(memory: &M, operand: Source, n: u64) -> Option<StopKind>
    requires { 0 < n }
    ensures read { result ≡ fault (source_access operand n) (M.held memory.now) }
    ensures stored { (value : ℕ)
        → result ≡ fault (store_access operand n value) (M.held memory.now) }
{
    match operand {
        Source::Value(_) => None,
        Source::Memory(a) => reach_fault(memory, false, a, n),
        Source::AlignedMemory(a) => reach_fault(memory, is_misaligned(a, n), a, n),
    }
}

/// The fault of a locked access.
fn locked_fault<M: Memory>(memory: &M, size: Size, address: u64) -> Option<StopKind>
    ensures { result
        ≡ reach_fault (is_misaligned true address (bytes (width_of size))) (M.held memory.now)
        address (bytes (width_of size)) }
{
    let n = size_in_bytes(size);
    reach_fault(memory, is_misaligned(address, n), address, n)
}

/// The fault of an effect's access: alignment first, then accessibility.
pub fn access_fault<M: Memory>(memory: &M, effect: &Effect) -> Option<StopKind>
    requires { IsSound effect.now }
    ensures { result ≡ fault (access effect.now) (M.held memory.now) }
{
    match *effect {
        Effect::Compute { second, .. } => {
            operand_fault(memory, second.source, bytes(second.width) as u64)
        }
        Effect::Test { second, .. } => {
            operand_fault(memory, second.source, bytes(second.width) as u64)
        }
        Effect::Compare { second, .. } => {
            operand_fault(memory, second.source, bytes(second.width) as u64)
        }
        Effect::Store {
            width,
            destination,
            ..
        } => { operand_fault(memory, destination, bytes(width) as u64) }
        Effect::LoadAndOperate { size, address, .. } => locked_fault(memory, size, address),
        Effect::CompareAndSwap { size, address, .. } => locked_fault(memory, size, address),
        Effect::LoadMultiple { count, address, .. } => {
            reach_fault(memory, false, address, 8 * count as u64)
        }
        Effect::StoreMultiple { count, address, .. } => {
            reach_fault(memory, false, address, 8 * count as u64)
        }
        Effect::LoadVector {
            layout,
            address,
            ..
        } => { reach_fault(memory, false, address, layout_bytes(layout) as u64) }
        Effect::StoreVector {
            layout,
            address,
            ..
        } => { reach_fault(memory, false, address, layout_bytes(layout) as u64) }
        _ => None,
    }
}
