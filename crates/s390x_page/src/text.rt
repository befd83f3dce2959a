//! The text of an instruction, without an allocator.
ghost use Rattle.std.specs.Prelude.{◌≡◌, true, false};
ghost use Rattle.s390x_format.specs.Fetch.{IsFetch};
ghost use Rattle.s390x_format.specs.declared.decoder.Decoded.{Decoded};
ghost use Rattle.s390x_disassembler.specs.Fitted.{fitting_text};
ghost use Rattle.s390x_page.specs.Texts.{Holds, IsTextOf};

use s390x_disassembler::{Text, located_text};
use s390x_format::locate;

/// The text of an instruction: `length` bytes, the first ones of `bytes`.
#[repr(C)]
#[derive(Drop)]
pub struct InstructionText {
    pub length: u64,
    pub bytes: [u8; 96],
}

/// The text of the instruction with which the bytes begin, at an address, as GNU's assembler writes it.
///
/// True, and `out` has it. False exactly where the bytes begin with no instruction; then `out` is left as it was.
#[unsafe(no_mangle)]
pub extern "C" fn s390x_page_text(address: u64, bytes: &[u8], out: &mut InstructionText) -> bool
    ensures found { result ≡ true → IsTextOf address bytes.now out.new }
    ensures none { result ≡ false → (d : Decoded) → IsFetch bytes.now d → ⊥ }
    ensures kept { result ≡ false → out.new ≡ out.old }
{
    match locate(bytes) {
        Some(located) => {
            let text = located_text(address, &located);
            *out = copy_of_text(&text);
            true
        }
        None => false,
    }
}

// The text's bytes.
fn copy_of_text(text: &Text) -> InstructionText
    ensures { Holds result (fitting_text text.now.items) }
{
    let mut bytes = [0u8; 96];
    for i in 0..text.len() {
        bytes[i] = text[i];
    }
    InstructionText {
        length: text.len() as u64,
        bytes,
    }
}
