//! An instruction as C sees it.
ghost use Rattle.std.specs.Prelude.{◌≡◌};
ghost use Rattle.s390x_decode_c.specs.Instructions.{Describes};

use s390x_format::Decoded;
use s390x_format_numbers::{format_number, short_length};

/// An instruction as C sees it. What its format lacks is 0.
#[repr(C)]
#[derive(Drop)]
pub struct Instruction {
    /// The opcode: its two, three or four hex digits as a number.
    pub opcode: u16,
    /// The number of the format, in the order of the manual's names.
    pub format: u8,
    /// How many bytes the instruction has: 2, 4 or 6.
    pub length: u8,
    /// The numbers of registers, base and index registers among them, in the order of the format's operands.
    pub registers: [u8; 4],
    /// Masks and immediates of 8 bits, in that order too.
    pub masks: [u8; 3],
    /// The displacement in bytes.
    pub displacement: i32,
    /// A wider immediate, or the distance of a relative operand in bytes.
    pub immediate: i64,
}

/// What was decoded, for C.
pub fn instruction_of(decoded: Decoded) -> Instruction
    ensures { Describes decoded result }
{
    let registers = decoded.fields.regs;
    let masks = decoded.fields.masks;
    Instruction {
        opcode: decoded.row.opcode,
        format: format_number(decoded.row.format),
        length: short_length(decoded.row.format),
        registers,
        masks,
        displacement: decoded.fields.disp,
        immediate: decoded.fields.imm,
    }
}
