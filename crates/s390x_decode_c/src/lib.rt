//! The decoder for callers in C: a static library over `s390x_format`.
#![tactic(auto)]

ghost use Rattle.std.specs.Prelude.{◌≡◌, true, false};
ghost use Rattle.s390x_format.specs.Fetch.{IsFetch};
ghost use Rattle.s390x_format.specs.declared.decoder.Decoded.{Decoded};
ghost use Rattle.s390x_decode_c.specs.Instructions.{Begins};

mod instruction;

use crate::instruction::instruction_of;
pub use instruction::Instruction;
use s390x_format::decode;

/// The instruction with which the bytes begin.
///
/// True, and `out` has its opcode, its format, its length and its operands. False exactly where no machine row has these
/// bytes, or there are fewer of them than the instruction has; then `out` is left as it was.
#[unsafe(no_mangle)]
pub extern "C" fn s390x_decode(bytes: &[u8], out: &mut Instruction) -> bool
    ensures found { result ≡ true → Begins bytes.now out.new }
    ensures none { result ≡ false → (d : Decoded) → IsFetch bytes.now d → ⊥ }
    ensures kept { result ≡ false → out.new ≡ out.old }
{
    match decode(bytes) {
        Some(decoded) => {
            *out = instruction_of(decoded);
            true
        }
        None => false,
    }
}
