//! What registers and memory hold.

use crate::region::Region;
use s390x_base::NoMemory;
use s390x_machine::{FlatMemory, Machine, Memory};
use std::alloc::{AllocError, Global};

/// Bits of a vector register that may be any.
#[derive(Clone, Copy)]
pub struct FreeBits {
    pub register: usize,
    pub bits: u128,
}

/// What registers and memory hold. A byte of several regions is that of the last one.
#[derive(Drop)]
pub struct Contents {
    pub machine: Machine,
    pub free: FreeBits,
    pub regions: Vec<Region>,
}

impl Contents {
    /// A machine with the same registers.
    pub fn machine(&self) -> Machine {
        let mut machine = Machine::new(self.machine.place);
        machine.regs = self.machine.regs;
        machine.vregs = self.machine.vregs;
        machine.aregs = self.machine.aregs;
        machine.set_condition_code(self.machine.condition_code());
        machine
    }

    /// A copy of the registers and regions.
    pub fn duplicate(&self, alloc: Global) -> Result<Contents, AllocError> {
        let machine = self.machine();
        let mut regions = Vec::new(alloc);
        for region in &self.regions {
            let address = region.address;
            let bytes = region.bytes.clone()?;
            regions.push(Region { address, bytes })?;
        }
        let free = self.free;
        Ok(Contents {
            machine,
            free,
            regions,
        })
    }

    /// A memory of the regions.
    pub fn memory(&self, alloc: Global) -> Result<FlatMemory, NoMemory> {
        let mut memory = FlatMemory::new(alloc);
        for region in &self.regions {
            memory.add_region(region.address, &region.bytes)?;
        }
        Ok(memory)
    }

    /// Whether the machine's registers, but for the free bits, and its place are these.
    pub fn are_registers_of(&self, machine: &Machine) -> bool {
        let FreeBits { register, bits } = self.free;
        let register = register % 32;
        let mut vregs = machine.vregs;
        vregs[register] = vregs[register] & !bits | self.machine.vregs[register] & bits;
        machine.regs == self.machine.regs
            && vregs == self.machine.vregs
            && machine.aregs == self.machine.aregs
            && machine.cc == self.machine.cc
            && machine.place == self.machine.place
    }

    /// Whether two memories hold the same in each of the regions.
    pub fn agree<M: Memory>(&self, memory: &M, other: &M) -> bool {
        for region in &self.regions {
            for i in 0..region.bytes.len() as u64 {
                let address = region.address.wrapping_add(i);
                if byte_at(memory, address) != byte_at(other, address) {
                    return false;
                }
            }
        }
        true
    }
}

// The byte at an address, if it is accessible.
fn byte_at<M: Memory>(memory: &M, address: u64) -> Option<u8> {
    if memory.has(address) {
        Some(memory.get(address))
    } else {
        None
    }
}
