//! A text with room for 96 bytes. What is beyond them is left away.
ghost use Rattle.std.specs.Prelude.{◌≡◌, ◌∷◌, [], ◌++◌};
ghost use Rattle.s390x_disassembler.specs.Fitted.{Adds};

use arrayvec::ArrayVec;

/// A text as far as there is room.
pub type Text = ArrayVec<u8, 96>;

/// Appends a byte.
pub fn put_byte(out: &mut Text, byte: u8)
    ensures { Adds out.old.items (byte ∷ []) out.new.items }
{
    if out.len() < 96 {
        out.push(byte);
    }
}

/// Appends bytes.
pub fn put_bytes(out: &mut Text, bytes: &[u8])
    ensures { Adds out.old.items bytes.now out.new.items }
{
    for byte in bytes {
        put_byte(out, *byte);
    }
}

/// Appends a text.
pub fn put(out: &mut Text, text: &str)
    ensures { Adds out.old.items text.now out.new.items }
{
    put_bytes(out, text.as_bytes());
}
