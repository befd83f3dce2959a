//! The parts of an instruction's format, of which the picture of its bits is made.
ghost use Rattle.std.specs.Prelude.{◌≡◌, ◌≤◌, length, true, false};
ghost use Rattle.s390x_format.specs.Fetch.{IsFetch};
ghost use Rattle.s390x_format.specs.Formats.{layout_of};
ghost use Rattle.s390x_format.specs.declared.decoder.Decoded.{Decoded};
ghost use Rattle.s390x_page.specs.Instructions.{HasPart, IsPart};

use s390x_format::{Part, decode, layout};

/// Some neighbouring bits of an instruction: `width` bits of the value in `slot`, from its bit `low` on, where bit 0 is the
/// least significant one. Slot 0 is the opcode's, 1 to 4 are registers', 5 to 7 masks', 8 is the immediate's, 9 the
/// displacement's; the bits of slot 10 are zero.
#[repr(C)]
#[derive(Drop)]
pub struct FormatPart {
    pub slot: u8,
    pub low: u8,
    pub width: u8,
}

/// A part of the format of the instruction with which the bytes begin, counted from its first bits on.
///
/// True, and `out` has it. False exactly where the bytes begin with no instruction, or its format has no more than `k` parts;
/// then `out` is left as it was.
#[unsafe(no_mangle)]
pub extern "C" fn s390x_page_part(bytes: &[u8], k: u64, out: &mut FormatPart) -> bool
    ensures found { result ≡ true → HasPart bytes.now k out.new }
    ensures none { result ≡ false → (d : Decoded) → IsFetch bytes.now d
        → length (layout_of d.row.format) ≤ k }
    ensures kept { result ≡ false → out.new ≡ out.old }
{
    match decode(bytes) {
        Some(decoded) => put_part(layout(decoded.row.format), k, out),
        None => false,
    }
}

// The part at a place.
fn put_part(parts: &[Part], k: u64, out: &mut FormatPart) -> bool
    ensures found { result ≡ true → IsPart parts.now k out.new }
    ensures none { result ≡ false → length parts.now ≤ k }
    ensures kept { result ≡ false → out.new ≡ out.old }
{
    if k < parts.len() as u64 {
        let part = parts[k as usize];
        *out = FormatPart {
            slot: part.slot,
            low: part.low,
            width: part.width,
        };
        true
    } else {
        false
    }
}
