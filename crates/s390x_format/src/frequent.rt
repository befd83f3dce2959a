//! The slots of a number in a format.
ghost use Rattle.std.specs.Prelude.{◌≡◌, ℕ, ◌<◌, ◌^◌, length, slice_index};
ghost use Rattle.s390x_format.specs.Layout.{field, zero_bits};
ghost use Rattle.s390x_format.specs.Formats.{layout_of};

use crate::kind::{FormatKind, layout, length};
use crate::layouts::{Unpacked, unpack};

/// What a number has in a format's slots. The formats of the most frequent instructions are read at once, without their
/// lists of parts.
#[rattlefmt::skip]
pub fn unpack_as(kind: FormatKind, n: u64) -> Unpacked
    ensures ten { length result.slots ≡ 10 }
    ensures values { (k : ℕ) → k < 10 → slice_index result.slots k ≡ field (layout_of kind) n k }
    ensures zeros { result.has_zeros ≡ zero_bits (layout_of kind) n }
{
    match kind {
        FormatKind::RiA => Unpacked { has_zeros: true, slots: [(((n >> 24) % 256) * 16 + (n >> 16) % 16) as u32, ((n >> 20) % 16) as u32, 0, 0, 0, 0, 0, 0, (n % 65536) as u32, 0] },
        FormatKind::RiB => Unpacked { has_zeros: true, slots: [(((n >> 24) % 256) * 16 + (n >> 16) % 16) as u32, ((n >> 20) % 16) as u32, 0, 0, 0, 0, 0, 0, (n % 65536) as u32, 0] },
        FormatKind::RiC => Unpacked { has_zeros: true, slots: [(((n >> 24) % 256) * 16 + (n >> 16) % 16) as u32, 0, 0, 0, 0, ((n >> 20) % 16) as u32, 0, 0, (n % 65536) as u32, 0] },
        FormatKind::RilA => Unpacked { has_zeros: true, slots: [(((n >> 40) % 256) * 16 + (n >> 32) % 16) as u32, ((n >> 36) % 16) as u32, 0, 0, 0, 0, 0, 0, (n % 4294967296) as u32, 0] },
        FormatKind::RilB => Unpacked { has_zeros: true, slots: [(((n >> 40) % 256) * 16 + (n >> 32) % 16) as u32, ((n >> 36) % 16) as u32, 0, 0, 0, 0, 0, 0, (n % 4294967296) as u32, 0] },
        FormatKind::RilC => Unpacked { has_zeros: true, slots: [(((n >> 40) % 256) * 16 + (n >> 32) % 16) as u32, 0, 0, 0, 0, ((n >> 36) % 16) as u32, 0, 0, (n % 4294967296) as u32, 0] },
        FormatKind::Rr => Unpacked { has_zeros: true, slots: [((n >> 8) % 256) as u32, ((n >> 4) % 16) as u32, (n % 16) as u32, 0, 0, 0, 0, 0, 0, 0] },
        FormatKind::Rre => Unpacked { has_zeros: (n >> 8) % 256 == 0, slots: [((n >> 16) % 65536) as u32, ((n >> 4) % 16) as u32, (n % 16) as u32, 0, 0, 0, 0, 0, 0, 0] },
        FormatKind::RrfAb => Unpacked { has_zeros: true, slots: [((n >> 16) % 65536) as u32, ((n >> 4) % 16) as u32, (n % 16) as u32, ((n >> 12) % 16) as u32, 0, ((n >> 8) % 16) as u32, 0, 0, 0, 0] },
        FormatKind::RrfCde => Unpacked { has_zeros: true, slots: [((n >> 16) % 65536) as u32, ((n >> 4) % 16) as u32, (n % 16) as u32, 0, 0, ((n >> 12) % 16) as u32, ((n >> 8) % 16) as u32, 0, 0, 0] },
        FormatKind::Rx => Unpacked { has_zeros: true, slots: [((n >> 24) % 256) as u32, ((n >> 20) % 16) as u32, ((n >> 12) % 16) as u32, ((n >> 16) % 16) as u32, 0, 0, 0, 0, 0, (n % 4096) as u32] },
        FormatKind::Rxy => Unpacked { has_zeros: true, slots: [(((n >> 40) % 256) * 256 + n % 256) as u32, ((n >> 36) % 16) as u32, ((n >> 28) % 16) as u32, ((n >> 32) % 16) as u32, 0, 0, 0, 0, 0, ((n >> 16) % 4096 + ((n >> 8) % 256) * 4096) as u32] },
        FormatKind::VrrC => Unpacked { has_zeros: (n >> 24) % 16 + (n >> 8) % 2 == 0, slots: [(((n >> 40) % 256) * 256 + n % 256) as u32, ((n >> 36) % 16 + ((n >> 11) % 2) * 16) as u32, ((n >> 32) % 16 + ((n >> 10) % 2) * 16) as u32, ((n >> 28) % 16 + ((n >> 9) % 2) * 16) as u32, 0, ((n >> 12) % 16) as u32, ((n >> 16) % 16) as u32, ((n >> 20) % 16) as u32, 0, 0] },
        FormatKind::Vrx => Unpacked { has_zeros: (n >> 8) % 8 == 0, slots: [(((n >> 40) % 256) * 256 + n % 256) as u32, ((n >> 36) % 16 + ((n >> 11) % 2) * 16) as u32, ((n >> 28) % 16) as u32, ((n >> 32) % 16) as u32, 0, ((n >> 12) % 16) as u32, 0, 0, 0, ((n >> 16) % 4096) as u32] },
        _ => unpack_parts(kind, n),
    }
}

/// The slots of an instruction's bits, part by part.
fn unpack_parts(kind: FormatKind, n: u64) -> Unpacked
    ensures ten { length result.slots ≡ 10 }
    ensures values { (k : ℕ) → k < 10 → slice_index result.slots k ≡ field (layout_of kind) n k }
    ensures zeros { result.has_zeros ≡ zero_bits (layout_of kind) n }
{
    let parts = layout(kind);
    unpack(parts, 8 * length(kind) as u8, n)
}
