//! How the formats with registers and masks lie in the slots.
ghost use Rattle.std.specs.Prelude.{[], ◌∷◌};
ghost use Rattle.s390x_format.specs.declared.kind.FormatKind.TheVariants.{E as KindE, Rr as KindRr, Rre as KindRre, RrfAb as KindRrfAb, RrfCde as KindRrfCde};
ghost use Rattle.s390x_format.specs.RegisterLaws.{e_fit, e_same, rr_fit, rr_same, rre_fit, rre_same, rrf_ab_fit, rrf_ab_same, rrf_cde_fit, rrf_cde_same};

use crate::format::Format;
use crate::kind::FormatKind;
use crate::register_formats::{E, Rr, Rre, RrfAb, RrfCde};

impl Format for E {
    ghost kind_is = { KindE };

    ghost slots_of = { λ s. s.opcode ∷ 0 ∷ 0 ∷ 0 ∷ 0 ∷ 0 ∷ 0 ∷ 0 ∷ 0 ∷ 0 ∷ [] };

    fn kind() -> FormatKind {
        FormatKind::E
    }

    fn slots(&self) -> [u32; 10] {
        [u32::from(self.opcode), 0, 0, 0, 0, 0, 0, 0, 0, 0]
    }

    fn from_slots(slots: &[u32; 10]) -> Self {
        E {
            opcode: slots[0] as u16,
        }
    }

    ghost fits = { e_fit };

    ghost same = { e_same };
}

impl Format for Rr {
    ghost kind_is = { KindRr };

    ghost slots_of = { λ s. s.opcode ∷ s.r1 ∷ s.r2 ∷ 0 ∷ 0 ∷ 0 ∷ 0 ∷ 0 ∷ 0 ∷ 0 ∷ [] };

    fn kind() -> FormatKind {
        FormatKind::Rr
    }

    fn slots(&self) -> [u32; 10] {
        [
            u32::from(self.opcode),
            u32::from(self.r1),
            u32::from(self.r2),
            0,
            0,
            0,
            0,
            0,
            0,
            0,
        ]
    }

    fn from_slots(slots: &[u32; 10]) -> Self {
        Rr {
            opcode: slots[0] as u16,
            r1: slots[1] as u8,
            r2: slots[2] as u8,
        }
    }

    ghost fits = { rr_fit };

    ghost same = { rr_same };
}

impl Format for Rre {
    ghost kind_is = { KindRre };

    ghost slots_of = { λ s. s.opcode ∷ s.r1 ∷ s.r2 ∷ 0 ∷ 0 ∷ 0 ∷ 0 ∷ 0 ∷ 0 ∷ 0 ∷ [] };

    fn kind() -> FormatKind {
        FormatKind::Rre
    }

    fn slots(&self) -> [u32; 10] {
        [
            u32::from(self.opcode),
            u32::from(self.r1),
            u32::from(self.r2),
            0,
            0,
            0,
            0,
            0,
            0,
            0,
        ]
    }

    fn from_slots(slots: &[u32; 10]) -> Self {
        Rre {
            opcode: slots[0] as u16,
            r1: slots[1] as u8,
            r2: slots[2] as u8,
        }
    }

    ghost fits = { rre_fit };

    ghost same = { rre_same };
}

impl Format for RrfAb {
    ghost kind_is = { KindRrfAb };

    ghost slots_of = { λ s. s.opcode ∷ s.r1 ∷ s.r2 ∷ s.r3 ∷ 0 ∷ s.m4 ∷ 0 ∷ 0 ∷ 0 ∷ 0 ∷ [] };

    fn kind() -> FormatKind {
        FormatKind::RrfAb
    }

    fn slots(&self) -> [u32; 10] {
        [
            u32::from(self.opcode),
            u32::from(self.r1),
            u32::from(self.r2),
            u32::from(self.r3),
            0,
            u32::from(self.m4),
            0,
            0,
            0,
            0,
        ]
    }

    fn from_slots(slots: &[u32; 10]) -> Self {
        RrfAb {
            opcode: slots[0] as u16,
            r1: slots[1] as u8,
            r2: slots[2] as u8,
            r3: slots[3] as u8,
            m4: slots[5] as u8,
        }
    }

    ghost fits = { rrf_ab_fit };

    ghost same = { rrf_ab_same };
}

impl Format for RrfCde {
    ghost kind_is = { KindRrfCde };

    ghost slots_of = { λ s. s.opcode ∷ s.r1 ∷ s.r2 ∷ 0 ∷ 0 ∷ s.m3 ∷ s.m4 ∷ 0 ∷ 0 ∷ 0 ∷ [] };

    fn kind() -> FormatKind {
        FormatKind::RrfCde
    }

    fn slots(&self) -> [u32; 10] {
        [
            u32::from(self.opcode),
            u32::from(self.r1),
            u32::from(self.r2),
            0,
            0,
            u32::from(self.m3),
            u32::from(self.m4),
            0,
            0,
            0,
        ]
    }

    fn from_slots(slots: &[u32; 10]) -> Self {
        RrfCde {
            opcode: slots[0] as u16,
            r1: slots[1] as u8,
            r2: slots[2] as u8,
            m3: slots[5] as u8,
            m4: slots[6] as u8,
        }
    }

    ghost fits = { rrf_cde_fit };

    ghost same = { rrf_cde_same };
}
