//! Opcodes of three hex digits.

ghost use Rattle.std.specs.Prelude.{◌<◌};

/// An opcode of 12 bits, as rows of one register and an immediate have.
#[derive(Clone, Copy)]
pub struct ShortOpcode {
    pub value: u16,
    ghost below: { value < 4096 },
}
