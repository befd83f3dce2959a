//! The instruction of a line of assembly.
ghost use Rattle.std.specs.Prelude.{◌≡◌, ◌≤◌, length, true, false};
ghost use Rattle.s390x_disassembler.specs.Assembly.{IsNoLine};
ghost use Rattle.s390x_page.specs.Texts.{HoldsBytes, IsAssembled};

use s390x_disassembler::assembled_line;

/// The bytes of an instruction: `length` of them, the first ones of `bytes`.
#[repr(C)]
#[derive(Drop)]
pub struct InstructionBytes {
    pub length: u64,
    pub bytes: [u8; 6],
}

/// The instruction whose line this is at an address: its text, as `s390x_page_text` writes it, and a line feed.
///
/// True, and `out` has its bytes. False exactly where no instruction has this line; then `out` is left as it was.
#[unsafe(no_mangle)]
pub extern "C" fn s390x_page_assemble(address: u64, line: &[u8], out: &mut InstructionBytes) -> bool
    ensures found { result ≡ true → IsAssembled address line.now out.new }
    ensures none { result ≡ false → IsNoLine address line.now }
    ensures kept { result ≡ false → out.new ≡ out.old }
{
    match assembled_line(address, line) {
        Some(bytes) => {
            *out = copied_bytes(&bytes);
            true
        }
        None => false,
    }
}

// An instruction's bytes.
fn copied_bytes(code: &[u8]) -> InstructionBytes
    requires { length code.now ≤ 6 }
    ensures { HoldsBytes result code.now }
{
    let mut bytes = [0u8; 6];
    for i in 0..code.len() {
        bytes[i] = code[i];
    }
    InstructionBytes {
        length: code.len() as u64,
        bytes,
    }
}
