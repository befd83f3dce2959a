//! The code of one line, without an allocator.
ghost use Rattle.std.specs.Prelude.{◌≡◌, ◌<◌, ◌≤◌, length, true, false, IfNone, IfSome};
ghost use Rattle.s390x_disassembler.specs.Assembly.{IsInstructionLine, IsNoLine, IsOnlyLine, located_line};
ghost use Rattle.s390x_disassembler.specs.Bare.{is_unit};
ghost use Rattle.s390x_disassembler.specs.Fitted.{fitting_text};

use crate::candidate::instruction_bytes;
use crate::first_line::is_unit;
use crate::fitted_text::located_text;
use crate::line::found_in;
use crate::room::{Text, put_byte};
use arrayvec::ArrayVec;
use s390x_format::Located;

/// The bytes of the instruction whose line this is at an address: its text, as a disassembly has it without the address and the
/// bytes, and a line feed. `None` exactly where it is no instruction's. No memory is taken.
#[tactic(auto, using(crate::proofs::OneLine::none_long))]
pub fn assembled_line(address: u64, line: &[u8]) -> Option<ArrayVec<u8, 6>>
    ensures code { IfSome result (λ bytes. IsInstructionLine address line.now bytes.items) }
    ensures one { IfSome result (λ bytes. IsOnlyLine address line.now bytes.items) }
    ensures none { IfNone result (IsNoLine address line.now) }
{
    // No instruction's line is longer than a text has room.
    if line.len() < 96 {
        short_line(address, line)
    } else {
        None
    }
}

// The bytes of the instruction with a line that has room.
fn short_line(address: u64, line: &[u8]) -> Option<ArrayVec<u8, 6>>
    requires { length line.now < 96 }
    ensures code { IfSome result (λ bytes. IsInstructionLine address line.now bytes.items) }
    ensures one { IfSome result (λ bytes. IsOnlyLine address line.now bytes.items) }
    ensures none { IfNone result (IsNoLine address line.now) }
{
    let bytes = instruction_bytes(address, line);
    if is_code(address, line, &bytes) {
        Some(bytes)
    } else {
        None
    }
}

// Whether the bytes are those of an instruction with this line.
fn is_code(address: u64, line: &[u8], bytes: &[u8]) -> bool
    requires { length line.now < 96 }
    ensures code { result ≡ true → IsInstructionLine address line.now bytes.now }
    ensures none { result ≡ false → IsInstructionLine address line.now bytes.now → ⊥ }
{
    match found_in(bytes) {
        Some(located) => is_unit_line(address, line, bytes, &located),
        None => false,
    }
}

// Whether the bytes stand together, and a line is the instruction's.
fn is_unit_line(address: u64, line: &[u8], bytes: &[u8], located: &Located) -> bool
    requires { length line.now < 96 }
    ensures unit { result ≡ true → is_unit bytes.now ≡ true }
    ensures line { result ≡ true → line.now ≡ located_line address located.now }
    ensures none { result ≡ false → is_unit bytes.now ≡ true
        → line.now ≡ located_line address located.now → ⊥ }
{
    if is_unit(bytes) {
        is_line(address, line, located)
    } else {
        false
    }
}

// Whether a line is an instruction's.
fn is_line(address: u64, line: &[u8], located: &Located) -> bool
    requires { length line.now < 96 }
    ensures yes { result ≡ true → line.now ≡ located_line address located.now }
    ensures no { result ≡ false → line.now ≡ located_line address located.now → ⊥ }
{
    let text = written_line(address, located);
    is_text(line, &text)
}

// An instruction's line, as far as there is room.
fn written_line(address: u64, located: &Located) -> Text
    ensures { fitting_text result.items ≡ fitting_text (located_line address located.now) }
{
    let mut out = located_text(address, located);
    put_byte(&mut out, b'\n');
    out
}

// Whether a line is a text.
fn is_text(line: &[u8], text: &Text) -> bool
    ensures same { result ≡ true → line.now ≡ text.now.items }
    ensures other { result ≡ false → line.now ≡ text.now.items → ⊥ }
    ensures room { length text.now.items ≤ 96 }
{
    line == text.as_slice()
}
