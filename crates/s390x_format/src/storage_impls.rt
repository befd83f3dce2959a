//! How the formats with a displacement lie in the slots.
ghost use Rattle.std.specs.Prelude.{[], ◌∷◌};
ghost use Rattle.s390x_format.specs.declared.kind.FormatKind.TheVariants.{Rs as KindRs, Rsy as KindRsy, Rx as KindRx, Rxy as KindRxy, Si as KindSi, Siy as KindSiy};
ghost use Rattle.s390x_format.specs.StorageLaws.{rs_fit, rs_same, rsy_fit, rsy_same, rx_fit, rx_same, rxy_fit, rxy_same, si_fit, si_same, siy_fit, siy_same};

use crate::format::Format;
use crate::kind::FormatKind;
use crate::storage_formats::{Rs, Rsy, Rx, Rxy, Si, Siy};

impl Format for Rs {
    ghost kind_is = { KindRs };

    ghost slots_of = { λ s. s.opcode ∷ s.r1 ∷ s.r3 ∷ s.b2 ∷ 0 ∷ 0 ∷ 0 ∷ 0 ∷ 0 ∷ s.d2 ∷ [] };

    fn kind() -> FormatKind {
        FormatKind::Rs
    }

    fn slots(&self) -> [u32; 10] {
        [
            u32::from(self.opcode),
            u32::from(self.r1),
            u32::from(self.r3),
            u32::from(self.b2),
            0,
            0,
            0,
            0,
            0,
            self.d2,
        ]
    }

    fn from_slots(slots: &[u32; 10]) -> Self {
        Rs {
            opcode: slots[0] as u16,
            r1: slots[1] as u8,
            r3: slots[2] as u8,
            b2: slots[3] as u8,
            d2: slots[9],
        }
    }

    ghost fits = { rs_fit };

    ghost same = { rs_same };
}

impl Format for Rsy {
    ghost kind_is = { KindRsy };

    ghost slots_of = { λ s. s.opcode ∷ s.r1 ∷ s.r3 ∷ s.b2 ∷ 0 ∷ 0 ∷ 0 ∷ 0 ∷ 0 ∷ s.d2 ∷ [] };

    fn kind() -> FormatKind {
        FormatKind::Rsy
    }

    fn slots(&self) -> [u32; 10] {
        [
            u32::from(self.opcode),
            u32::from(self.r1),
            u32::from(self.r3),
            u32::from(self.b2),
            0,
            0,
            0,
            0,
            0,
            self.d2,
        ]
    }

    fn from_slots(slots: &[u32; 10]) -> Self {
        Rsy {
            opcode: slots[0] as u16,
            r1: slots[1] as u8,
            r3: slots[2] as u8,
            b2: slots[3] as u8,
            d2: slots[9],
        }
    }

    ghost fits = { rsy_fit };

    ghost same = { rsy_same };
}

impl Format for Rx {
    ghost kind_is = { KindRx };

    ghost slots_of = { λ s. s.opcode ∷ s.r1 ∷ s.b2 ∷ s.x2 ∷ 0 ∷ 0 ∷ 0 ∷ 0 ∷ 0 ∷ s.d2 ∷ [] };

    fn kind() -> FormatKind {
        FormatKind::Rx
    }

    fn slots(&self) -> [u32; 10] {
        [
            u32::from(self.opcode),
            u32::from(self.r1),
            u32::from(self.b2),
            u32::from(self.x2),
            0,
            0,
            0,
            0,
            0,
            self.d2,
        ]
    }

    fn from_slots(slots: &[u32; 10]) -> Self {
        Rx {
            opcode: slots[0] as u16,
            r1: slots[1] as u8,
            b2: slots[2] as u8,
            x2: slots[3] as u8,
            d2: slots[9],
        }
    }

    ghost fits = { rx_fit };

    ghost same = { rx_same };
}

impl Format for Rxy {
    ghost kind_is = { KindRxy };

    ghost slots_of = { λ s. s.opcode ∷ s.r1 ∷ s.b2 ∷ s.x2 ∷ 0 ∷ 0 ∷ 0 ∷ 0 ∷ 0 ∷ s.d2 ∷ [] };

    fn kind() -> FormatKind {
        FormatKind::Rxy
    }

    fn slots(&self) -> [u32; 10] {
        [
            u32::from(self.opcode),
            u32::from(self.r1),
            u32::from(self.b2),
            u32::from(self.x2),
            0,
            0,
            0,
            0,
            0,
            self.d2,
        ]
    }

    fn from_slots(slots: &[u32; 10]) -> Self {
        Rxy {
            opcode: slots[0] as u16,
            r1: slots[1] as u8,
            b2: slots[2] as u8,
            x2: slots[3] as u8,
            d2: slots[9],
        }
    }

    ghost fits = { rxy_fit };

    ghost same = { rxy_same };
}

impl Format for Si {
    ghost kind_is = { KindSi };

    ghost slots_of = { λ s. s.opcode ∷ s.b1 ∷ 0 ∷ 0 ∷ 0 ∷ s.i2 ∷ 0 ∷ 0 ∷ 0 ∷ s.d1 ∷ [] };

    fn kind() -> FormatKind {
        FormatKind::Si
    }

    fn slots(&self) -> [u32; 10] {
        [
            u32::from(self.opcode),
            u32::from(self.b1),
            0,
            0,
            0,
            u32::from(self.i2),
            0,
            0,
            0,
            self.d1,
        ]
    }

    fn from_slots(slots: &[u32; 10]) -> Self {
        Si {
            opcode: slots[0] as u16,
            b1: slots[1] as u8,
            d1: slots[9],
            i2: slots[5] as u8,
        }
    }

    ghost fits = { si_fit };

    ghost same = { si_same };
}

impl Format for Siy {
    ghost kind_is = { KindSiy };

    ghost slots_of = { λ s. s.opcode ∷ s.b1 ∷ 0 ∷ 0 ∷ 0 ∷ s.i2 ∷ 0 ∷ 0 ∷ 0 ∷ s.d1 ∷ [] };

    fn kind() -> FormatKind {
        FormatKind::Siy
    }

    fn slots(&self) -> [u32; 10] {
        [
            u32::from(self.opcode),
            u32::from(self.b1),
            0,
            0,
            0,
            u32::from(self.i2),
            0,
            0,
            0,
            self.d1,
        ]
    }

    fn from_slots(slots: &[u32; 10]) -> Self {
        Siy {
            opcode: slots[0] as u16,
            b1: slots[1] as u8,
            d1: slots[9],
            i2: slots[5] as u8,
        }
    }

    ghost fits = { siy_fit };

    ghost same = { siy_same };
}
