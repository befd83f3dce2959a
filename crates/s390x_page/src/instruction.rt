//! The instruction with which some bytes begin, as the page sees it.
ghost use Rattle.std.specs.Prelude.{◌≡◌, true, false};
ghost use Rattle.s390x_format.specs.Fetch.{IsFetch};
ghost use Rattle.s390x_format.specs.declared.decoder.Decoded.{Decoded};
ghost use Rattle.s390x_page.specs.Instructions.{Begins, Describes};

use s390x_format::{Located, locate};
use s390x_format_numbers::{format_number, short_length};

/// An instruction as the page sees it. What its format lacks is 0.
#[repr(C)]
#[derive(Drop)]
pub struct Instruction {
    /// Where its row stands in the table of machine rows.
    pub row: u64,
    /// The opcode: its two, three or four hex digits as a number.
    pub opcode: u16,
    /// The number of the format, in the order of the manual's names.
    pub format: u8,
    /// How many bytes the instruction has: 2, 4 or 6.
    pub length: u8,
    /// The numbers of registers, base and index registers among them, in the order of the format's operands.
    pub registers: [u8; 4],
    /// Masks and immediates of 8 bits, in that order too.
    pub masks: [u8; 3],
    /// The displacement in bytes.
    pub displacement: i32,
    /// A wider immediate, or the distance of a relative operand in bytes.
    pub immediate: i64,
}

/// The instruction with which the bytes begin.
///
/// True, and `out` has the place of its row, its opcode, its format, its length and its operands. False exactly where no
/// machine row has these bytes, or there are fewer of them than the instruction has; then `out` is left as it was.
#[unsafe(no_mangle)]
pub extern "C" fn s390x_page_decode(bytes: &[u8], out: &mut Instruction) -> bool
    ensures found { result ≡ true → Begins bytes.now out.new }
    ensures none { result ≡ false → (d : Decoded) → IsFetch bytes.now d → ⊥ }
    ensures kept { result ≡ false → out.new ≡ out.old }
{
    match locate(bytes) {
        Some(located) => {
            *out = instruction_of(located);
            true
        }
        None => false,
    }
}

// What was found, for the page.
fn instruction_of(located: Located) -> Instruction
    ensures { Describes located result }
{
    let decoded = located.decoded;
    let registers = decoded.fields.regs;
    let masks = decoded.fields.masks;
    Instruction {
        row: located.at as u64,
        opcode: decoded.row.opcode,
        format: format_number(decoded.row.format),
        length: short_length(decoded.row.format),
        registers,
        masks,
        displacement: decoded.fields.disp,
        immediate: decoded.fields.imm,
    }
}
