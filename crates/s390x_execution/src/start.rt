//! What an execution starts with.
ghost use Rattle.std.specs.Prelude.{◌≡◌, ◌+◌, ◌^◌, ◌≤◌, length, IfOk};
ghost use Rattle.s390x_machine.specs.Regions.{byte_of, is_held};
ghost use Rattle.s390x_machine.specs.State.{memory_of, registers_of};
ghost use Rattle.s390x_execution.specs.Start.{AllRegionsFit, start_memory, start_registers};

use s390x_base::NoMemory;
use s390x_image::Image;
use s390x_job::{MemLine, StartRegs};
use s390x_machine::{FlatMemory, Machine};
use std::alloc::Global;

/// A machine at a place, with these general and vector registers. Its access registers and its condition code are 0.
pub fn start_machine(place: u64, registers: &StartRegs) -> Machine
    ensures registers { registers_of result ≡ start_registers registers.now }
    ensures place { result.place ≡ place }
{
    let mut machine = Machine::new(place);
    let general = registers.general;
    let vector = registers.vector;
    machine.regs = general;
    machine.vregs = vector;
    machine
}

/// A memory with these regions and an image. An address in several of them has the byte of the image, or else of the last region.
pub fn start_memory(
    alloc: Global,
    regions: &[MemLine],
    image: &Image,
) -> Result<FlatMemory, NoMemory>
    requires regions { AllRegionsFit regions.now }
    requires image { image.now.base + length image.now.bytes.items ≤ 2 ^ 64 }
    ensures { IfOk result
        (λ m. memory_of (is_held m) (byte_of m)
        ≡ start_memory regions.now image.now.base image.now.bytes.items) }
{
    let mut memory = FlatMemory::new(alloc);
    for region in regions {
        memory.add_region(region.address, &region.bytes)?;
    }
    memory.add_region(image.base, &image.bytes)?;
    Ok(memory)
}
