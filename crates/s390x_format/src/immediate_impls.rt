//! How the formats with unsigned immediates lie in the slots.
ghost use Rattle.std.specs.Prelude.{[], ◌∷◌};
ghost use Rattle.s390x_format.specs.declared.kind.FormatKind.TheVariants.{RiA as KindRiA, RieA as KindRieA, RieD as KindRieD, RieF as KindRieF, RieG as KindRieG, RilA as KindRilA};
ghost use Rattle.s390x_format.specs.ImmediateLaws.{ri_a_fit, ri_a_same, rie_a_fit, rie_a_same, rie_d_fit, rie_d_same, rie_f_fit, rie_f_same, rie_g_fit, rie_g_same, ril_a_fit, ril_a_same};

use crate::format::Format;
use crate::immediate_formats::{RiA, RieA, RieD, RieF, RieG, RilA};
use crate::kind::FormatKind;

impl Format for RiA {
    ghost kind_is = { KindRiA };

    ghost slots_of = { λ s. s.opcode ∷ s.r1 ∷ 0 ∷ 0 ∷ 0 ∷ 0 ∷ 0 ∷ 0 ∷ s.i2 ∷ 0 ∷ [] };

    fn kind() -> FormatKind {
        FormatKind::RiA
    }

    fn slots(&self) -> [u32; 10] {
        [
            u32::from(self.opcode),
            u32::from(self.r1),
            0,
            0,
            0,
            0,
            0,
            0,
            u32::from(self.i2),
            0,
        ]
    }

    fn from_slots(slots: &[u32; 10]) -> Self {
        RiA {
            opcode: slots[0] as u16,
            r1: slots[1] as u8,
            i2: slots[8] as u16,
        }
    }

    ghost fits = { ri_a_fit };

    ghost same = { ri_a_same };
}

impl Format for RieA {
    ghost kind_is = { KindRieA };

    ghost slots_of = { λ s. s.opcode ∷ s.r1 ∷ 0 ∷ 0 ∷ 0 ∷ s.m3 ∷ 0 ∷ 0 ∷ s.i2 ∷ 0 ∷ [] };

    fn kind() -> FormatKind {
        FormatKind::RieA
    }

    fn slots(&self) -> [u32; 10] {
        [
            u32::from(self.opcode),
            u32::from(self.r1),
            0,
            0,
            0,
            u32::from(self.m3),
            0,
            0,
            u32::from(self.i2),
            0,
        ]
    }

    fn from_slots(slots: &[u32; 10]) -> Self {
        RieA {
            opcode: slots[0] as u16,
            r1: slots[1] as u8,
            i2: slots[8] as u16,
            m3: slots[5] as u8,
        }
    }

    ghost fits = { rie_a_fit };

    ghost same = { rie_a_same };
}

impl Format for RieD {
    ghost kind_is = { KindRieD };

    ghost slots_of = { λ s. s.opcode ∷ s.r1 ∷ s.r3 ∷ 0 ∷ 0 ∷ 0 ∷ 0 ∷ 0 ∷ s.i2 ∷ 0 ∷ [] };

    fn kind() -> FormatKind {
        FormatKind::RieD
    }

    fn slots(&self) -> [u32; 10] {
        [
            u32::from(self.opcode),
            u32::from(self.r1),
            u32::from(self.r3),
            0,
            0,
            0,
            0,
            0,
            u32::from(self.i2),
            0,
        ]
    }

    fn from_slots(slots: &[u32; 10]) -> Self {
        RieD {
            opcode: slots[0] as u16,
            r1: slots[1] as u8,
            r3: slots[2] as u8,
            i2: slots[8] as u16,
        }
    }

    ghost fits = { rie_d_fit };

    ghost same = { rie_d_same };
}

impl Format for RieF {
    ghost kind_is = { KindRieF };

    ghost slots_of = { λ s. s.opcode ∷ s.r1 ∷ s.r2 ∷ 0 ∷ 0 ∷ s.i3 ∷ s.i4 ∷ s.i5 ∷ 0 ∷ 0 ∷ [] };

    fn kind() -> FormatKind {
        FormatKind::RieF
    }

    fn slots(&self) -> [u32; 10] {
        [
            u32::from(self.opcode),
            u32::from(self.r1),
            u32::from(self.r2),
            0,
            0,
            u32::from(self.i3),
            u32::from(self.i4),
            u32::from(self.i5),
            0,
            0,
        ]
    }

    fn from_slots(slots: &[u32; 10]) -> Self {
        RieF {
            opcode: slots[0] as u16,
            r1: slots[1] as u8,
            r2: slots[2] as u8,
            i3: slots[5] as u8,
            i4: slots[6] as u8,
            i5: slots[7] as u8,
        }
    }

    ghost fits = { rie_f_fit };

    ghost same = { rie_f_same };
}

impl Format for RieG {
    ghost kind_is = { KindRieG };

    ghost slots_of = { λ s. s.opcode ∷ s.r1 ∷ 0 ∷ 0 ∷ 0 ∷ s.m3 ∷ 0 ∷ 0 ∷ s.i2 ∷ 0 ∷ [] };

    fn kind() -> FormatKind {
        FormatKind::RieG
    }

    fn slots(&self) -> [u32; 10] {
        [
            u32::from(self.opcode),
            u32::from(self.r1),
            0,
            0,
            0,
            u32::from(self.m3),
            0,
            0,
            u32::from(self.i2),
            0,
        ]
    }

    fn from_slots(slots: &[u32; 10]) -> Self {
        RieG {
            opcode: slots[0] as u16,
            r1: slots[1] as u8,
            i2: slots[8] as u16,
            m3: slots[5] as u8,
        }
    }

    ghost fits = { rie_g_fit };

    ghost same = { rie_g_same };
}

impl Format for RilA {
    ghost kind_is = { KindRilA };

    ghost slots_of = { λ s. s.opcode ∷ s.r1 ∷ 0 ∷ 0 ∷ 0 ∷ 0 ∷ 0 ∷ 0 ∷ s.i2 ∷ 0 ∷ [] };

    fn kind() -> FormatKind {
        FormatKind::RilA
    }

    fn slots(&self) -> [u32; 10] {
        [
            u32::from(self.opcode),
            u32::from(self.r1),
            0,
            0,
            0,
            0,
            0,
            0,
            self.i2,
            0,
        ]
    }

    fn from_slots(slots: &[u32; 10]) -> Self {
        RilA {
            opcode: slots[0] as u16,
            r1: slots[1] as u8,
            i2: slots[8],
        }
    }

    ghost fits = { ril_a_fit };

    ghost same = { ril_a_same };
}
