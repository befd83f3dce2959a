//! The registers of a small machine, as the page has them.
ghost use Rattle.std.specs.Prelude.{◌≡◌, ◌<◌};
ghost use Rattle.s390x_operations.specs.Effects.{code_numbered};
ghost use Rattle.s390x_machine.specs.State.{registers_of};
ghost use Rattle.s390x_page.specs.Stepping.{registers_in};

use crate::halves::{high_halves, low_halves, numbers_of_halves};
use s390x_machine::Machine;

/// The registers of a machine.
#[repr(C)]
#[derive(Drop)]
pub struct Registers {
    pub general: [u64; 16],
    pub access: [u32; 16],
    /// The left 64 bits of each vector register.
    pub high: [u64; 32],
    /// The right 64 bits.
    pub low: [u64; 32],
    /// The address of the next instruction.
    pub place: u64,
    /// The condition code; a number above 3 counts as 3.
    pub code: u8,
}

/// The machine that has these registers.
pub fn machine_of(registers: &Registers) -> Machine
    ensures registers { registers_of result ≡ registers_in registers.now }
    ensures place { result.place ≡ registers.now.place }
{
    let regs = registers.general;
    let aregs = registers.access;
    Machine {
        regs,
        vregs: numbers_of_halves(&registers.high, &registers.low),
        aregs,
        cc: code(registers.code),
        place: registers.place,
    }
}

/// What a machine has in its registers.
pub fn registers_after(machine: &Machine) -> Registers
    ensures registers { registers_in result ≡ registers_of machine.now }
    ensures place { result.place ≡ machine.now.place }
{
    let general = machine.regs;
    let access = machine.aregs;
    Registers {
        general,
        access,
        high: high_halves(&machine.vregs),
        low: low_halves(&machine.vregs),
        place: machine.place,
        code: machine.cc,
    }
}

// The number of the condition code with a number.
fn code(number: u8) -> u8
    ensures below { result < 4 }
    ensures same { code_numbered result ≡ code_numbered number }
{
    match number {
        0 => 0,
        1 => 1,
        2 => 2,
        _ => 3,
    }
}
