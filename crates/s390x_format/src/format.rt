//! What the formats have in common.
ghost use Rattle.std.specs.Prelude.{◌≡◌, ℕ, ◌+◌, ◌-◌, ◌*◌, ◌/◌, ◌%◌, ◌^◌, ◌<◌, ◌≤◌, List, length, slice_index, true, IfSome, IsSome, IsTrue, ◌↔◌};
ghost use Rattle.s390x_base.specs.Code.{is_code_length};
ghost use Rattle.s390x_format.specs.declared.kind.FormatKind.{FormatKind};
ghost use Rattle.s390x_format.specs.Layout.{number, SlotsFit, zero_bits};
ghost use Rattle.s390x_format.specs.Formats.{layout_of, length_of};
ghost use Rattle.s390x_format.specs.Rows.{fetch_length_of};
ghost use Rattle.s390x_format.specs.Reading.{be_bytes, be_number, encode};
ghost use Rattle.s390x_format.specs.Encoded.{IsEncoded};
ghost use Rattle.s390x_format.specs.Fetch.{machine_rows};

use crate::kind::{FormatKind, layout, length};
use crate::layouts::{pack, unpack};
use crate::reading::number_of;
use s390x_base::Code;

/// The code of a number.
fn code_of(n: u64, length: usize) -> Code
    requires { IsTrue (is_code_length length) }
    ensures { result ≡ be_bytes length n }
{
    let mut bytes = [0; 6];
    for i in 0..length {
        bytes[i] = ((n >> (8 * (length - 1 - i))) % 256) as u8;
    }
    match Code::new(&bytes[..length]) {
        Some(code) => code,
        None => unreachable!(),
    }
}

/// The values of a number in the slots of a format.
fn read_slots(kind: FormatKind, n: u64) -> Option<[u32; 10]>
    ensures fit { IfSome result (λ slots. SlotsFit (layout_of kind) slots) }
    ensures number_is { IfSome result (λ slots. number (layout_of kind) slots ≡ n) }
    ensures complete { (slots : List ℕ) → SlotsFit (layout_of kind) slots
        → number (layout_of kind) slots ≡ n → result ≡ Some slots }
    ensures exact { n < 2 ^ (8 * length_of kind)
        → IsSome result ↔ zero_bits (layout_of kind) n ≡ true }
{
    let parts = layout(kind);
    let slots = unpack(parts, 8 * length(kind) as u8, n).slots;
    if pack(parts, &slots) == n {
        Some(slots)
    } else {
        None
    }
}

/// An instruction in one format: an opcode and operands, each of which fits its place.
pub trait Format {
    ghost kind_is: { FormatKind };

    ghost slots_of: { Self → List ℕ };

    /// The format.
    fn kind() -> FormatKind
        ensures { result ≡ kind_is };

    /// The values in the slots.
    fn slots(&self) -> [u32; 10]
        ensures { result ≡ slots_of self.now };

    /// The instruction with these values in the slots.
    fn from_slots(slots: &[u32; 10]) -> Self
        requires { SlotsFit (layout_of kind_is) slots.now }
        ensures { slots_of result ≡ slots.now };

    ghost fits: { (s : Self) → SlotsFit (layout_of kind_is) (slots_of s) };

    ghost same: { (s t : Self) → slots_of s ≡ slots_of t → s ≡ t };

    /// The code: the number with the values at their places, the most significant byte first. Bits
    /// of no value are zero. Where the opcode is a machine row's, which allows the masks, the first
    /// byte tells the length.
    final fn to_code(&self) -> Code
        ensures code { result ≡ encode kind_is (slots_of self.now) }
        ensures zero_bits { zero_bits (layout_of kind_is) (be_number result) ≡ true }
        ensures length { IsEncoded machine_rows kind_is (slots_of self.now)
            → fetch_length_of (slice_index result 0) ≡ length result }
    {
        let kind = Self::kind();
        code_of(pack(layout(kind), &self.slots()), length(kind))
    }

    /// The instruction with the code. `None` exactly where the length or a bit that the format
    /// leaves zero disagrees.
    final fn from_code(code: &Code) -> Option<Self>
        ensures sound { IfSome result (λ s. code.now ≡ encode kind_is (slots_of s)) }
        ensures complete { (s : Self) → code.now ≡ encode kind_is (slots_of s) → result ≡ Some s }
        ensures exact { IsSome result ↔
            ((length code.now ≡ length_of kind_is)
            × (zero_bits (layout_of kind_is) (be_number code.now) ≡ true)) }
    {
        let kind = Self::kind();
        let bytes = code.bytes();
        if bytes.len() != length(kind) {
            return None;
        }
        match read_slots(kind, number_of(bytes)) {
            Some(slots) => Some(Self::from_slots(&slots)),
            None => None,
        }
    }
}
