//! How the formats with distances or a signed immediate lie in the slots.
ghost use Rattle.std.specs.Prelude.{[], ◌∷◌};
ghost use mir.Syntax.{w16, w32};
ghost use Rattle.s390x_format.specs.Distances.{half_of, unsigned_of};
ghost use Rattle.s390x_format.specs.declared.kind.FormatKind.TheVariants.{RiB as KindRiB, RiC as KindRiC, RilB as KindRilB, RilC as KindRilC, Sil as KindSil};
ghost use Rattle.s390x_format.specs.SignedLaws.{ri_b_fit, ri_b_same, ri_c_fit, ri_c_same, ril_b_fit, ril_b_same, ril_c_fit, ril_c_same, sil_fit, sil_same};

use crate::format::Format;
use crate::kind::FormatKind;
use crate::signed_formats::{RiB, RiC, RilB, RilC, Sil};

impl Format for RiB {
    ghost kind_is = { KindRiB };

    ghost slots_of = { λ s. s.opcode ∷ s.r1 ∷ 0 ∷ 0 ∷ 0 ∷ 0 ∷ 0 ∷ 0 ∷ half_of w16 s.ri2 ∷ 0 ∷ [] };

    fn kind() -> FormatKind {
        FormatKind::RiB
    }

    fn slots(&self) -> [u32; 10] {
        let half = (self.ri2 / 2) as i16;
        [
            u32::from(self.opcode),
            u32::from(self.r1),
            0,
            0,
            0,
            0,
            0,
            0,
            u32::from(half.cast_unsigned()),
            0,
        ]
    }

    fn from_slots(slots: &[u32; 10]) -> Self {
        let half = (slots[8] as u16).cast_signed();
        RiB {
            opcode: slots[0] as u16,
            r1: slots[1] as u8,
            ri2: 2 * i64::from(half),
        }
    }

    ghost fits = { ri_b_fit };

    ghost same = { ri_b_same };
}

impl Format for RiC {
    ghost kind_is = { KindRiC };

    ghost slots_of = { λ s. s.opcode ∷ 0 ∷ 0 ∷ 0 ∷ 0 ∷ s.m1 ∷ 0 ∷ 0 ∷ half_of w16 s.ri2 ∷ 0 ∷ [] };

    fn kind() -> FormatKind {
        FormatKind::RiC
    }

    fn slots(&self) -> [u32; 10] {
        let half = (self.ri2 / 2) as i16;
        [
            u32::from(self.opcode),
            0,
            0,
            0,
            0,
            u32::from(self.m1),
            0,
            0,
            u32::from(half.cast_unsigned()),
            0,
        ]
    }

    fn from_slots(slots: &[u32; 10]) -> Self {
        let half = (slots[8] as u16).cast_signed();
        RiC {
            opcode: slots[0] as u16,
            m1: slots[5] as u8,
            ri2: 2 * i64::from(half),
        }
    }

    ghost fits = { ri_c_fit };

    ghost same = { ri_c_same };
}

impl Format for RilB {
    ghost kind_is = { KindRilB };

    ghost slots_of = { λ s. s.opcode ∷ s.r1 ∷ 0 ∷ 0 ∷ 0 ∷ 0 ∷ 0 ∷ 0 ∷ half_of w32 s.ri2 ∷ 0 ∷ [] };

    fn kind() -> FormatKind {
        FormatKind::RilB
    }

    fn slots(&self) -> [u32; 10] {
        let half = (self.ri2 / 2) as i32;
        [
            u32::from(self.opcode),
            u32::from(self.r1),
            0,
            0,
            0,
            0,
            0,
            0,
            half.cast_unsigned(),
            0,
        ]
    }

    fn from_slots(slots: &[u32; 10]) -> Self {
        let half = slots[8].cast_signed();
        RilB {
            opcode: slots[0] as u16,
            r1: slots[1] as u8,
            ri2: 2 * i64::from(half),
        }
    }

    ghost fits = { ril_b_fit };

    ghost same = { ril_b_same };
}

impl Format for RilC {
    ghost kind_is = { KindRilC };

    ghost slots_of = { λ s. s.opcode ∷ 0 ∷ 0 ∷ 0 ∷ 0 ∷ s.m1 ∷ 0 ∷ 0 ∷ half_of w32 s.ri2 ∷ 0 ∷ [] };

    fn kind() -> FormatKind {
        FormatKind::RilC
    }

    fn slots(&self) -> [u32; 10] {
        let half = (self.ri2 / 2) as i32;
        [
            u32::from(self.opcode),
            0,
            0,
            0,
            0,
            u32::from(self.m1),
            0,
            0,
            half.cast_unsigned(),
            0,
        ]
    }

    fn from_slots(slots: &[u32; 10]) -> Self {
        let half = slots[8].cast_signed();
        RilC {
            opcode: slots[0] as u16,
            m1: slots[5] as u8,
            ri2: 2 * i64::from(half),
        }
    }

    ghost fits = { ril_c_fit };

    ghost same = { ril_c_same };
}

impl Format for Sil {
    ghost kind_is = { KindSil };

    ghost slots_of = { λ s. s.opcode ∷ s.b1 ∷ 0 ∷ 0 ∷ 0 ∷ 0 ∷ 0 ∷ 0 ∷ unsigned_of w16 s.i2 ∷ s.d1 ∷ [] };

    fn kind() -> FormatKind {
        FormatKind::Sil
    }

    fn slots(&self) -> [u32; 10] {
        [
            u32::from(self.opcode),
            u32::from(self.b1),
            0,
            0,
            0,
            0,
            0,
            0,
            u32::from(self.i2.cast_unsigned()),
            self.d1,
        ]
    }

    fn from_slots(slots: &[u32; 10]) -> Self {
        Sil {
            opcode: slots[0] as u16,
            b1: slots[1] as u8,
            d1: slots[9],
            i2: (slots[8] as u16).cast_signed(),
        }
    }

    ghost fits = { sil_fit };

    ghost same = { sil_same };
}
