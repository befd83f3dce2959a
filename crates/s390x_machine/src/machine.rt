//! The machine's registers, condition code and place.
ghost use Rattle.std.specs.Prelude.{◌<◌};

/// A machine. Its condition code is 0 to 3; its place is the address of the next instruction.
#[derive(Drop)]
pub struct Machine {
    pub regs: [u64; 16],
    pub vregs: [u128; 32],
    pub aregs: [u32; 16],
    pub cc: u8,
    pub place: u64,
    ghost code_below: { cc < 4 },
}
