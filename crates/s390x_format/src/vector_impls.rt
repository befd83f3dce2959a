//! How the formats with vector registers lie in the slots.
ghost use Rattle.std.specs.Prelude.{[], ◌∷◌};
ghost use Rattle.s390x_format.specs.declared.kind.FormatKind.TheVariants.{VriA as KindVriA, VriB as KindVriB, VriC as KindVriC, VriK as KindVriK, VrrA as KindVrrA, VrrB as KindVrrB, VrrC as KindVrrC, VrrD as KindVrrD, VrrE as KindVrrE, VrrF as KindVrrF, VrsA as KindVrsA, VrsB as KindVrsB, VrsC as KindVrsC, Vrx as KindVrx};
ghost use Rattle.s390x_format.specs.VectorLaws.{vri_a_fit, vri_a_same, vri_b_fit, vri_b_same, vri_c_fit, vri_c_same, vri_k_fit, vri_k_same, vrr_a_fit, vrr_a_same, vrr_b_fit, vrr_b_same, vrr_c_fit, vrr_c_same, vrr_d_fit, vrr_d_same, vrr_e_fit, vrr_e_same, vrr_f_fit, vrr_f_same, vrs_a_fit, vrs_a_same, vrs_b_fit, vrs_b_same, vrs_c_fit, vrs_c_same, vrx_fit, vrx_same};

use crate::format::Format;
use crate::kind::FormatKind;
use crate::vector_formats::{
    VriA, VriB, VriC, VriK, VrrA, VrrB, VrrC, VrrD, VrrE, VrrF, VrsA, VrsB, VrsC, Vrx,
};

impl Format for VriA {
    ghost kind_is = { KindVriA };

    ghost slots_of = { λ s. s.opcode ∷ s.v1 ∷ 0 ∷ 0 ∷ 0 ∷ s.m3 ∷ 0 ∷ 0 ∷ s.i2 ∷ 0 ∷ [] };

    fn kind() -> FormatKind {
        FormatKind::VriA
    }

    fn slots(&self) -> [u32; 10] {
        [
            u32::from(self.opcode),
            u32::from(self.v1),
            0,
            0,
            0,
            u32::from(self.m3),
            0,
            0,
            u32::from(self.i2),
            0,
        ]
    }

    fn from_slots(slots: &[u32; 10]) -> Self {
        VriA {
            opcode: slots[0] as u16,
            v1: slots[1] as u8,
            i2: slots[8] as u16,
            m3: slots[5] as u8,
        }
    }

    ghost fits = { vri_a_fit };

    ghost same = { vri_a_same };
}

impl Format for VriB {
    ghost kind_is = { KindVriB };

    ghost slots_of = { λ s. s.opcode ∷ s.v1 ∷ 0 ∷ 0 ∷ 0 ∷ s.i2 ∷ s.i3 ∷ s.m4 ∷ 0 ∷ 0 ∷ [] };

    fn kind() -> FormatKind {
        FormatKind::VriB
    }

    fn slots(&self) -> [u32; 10] {
        [
            u32::from(self.opcode),
            u32::from(self.v1),
            0,
            0,
            0,
            u32::from(self.i2),
            u32::from(self.i3),
            u32::from(self.m4),
            0,
            0,
        ]
    }

    fn from_slots(slots: &[u32; 10]) -> Self {
        VriB {
            opcode: slots[0] as u16,
            v1: slots[1] as u8,
            i2: slots[5] as u8,
            i3: slots[6] as u8,
            m4: slots[7] as u8,
        }
    }

    ghost fits = { vri_b_fit };

    ghost same = { vri_b_same };
}

impl Format for VriC {
    ghost kind_is = { KindVriC };

    ghost slots_of = { λ s. s.opcode ∷ s.v1 ∷ s.v3 ∷ 0 ∷ 0 ∷ s.m4 ∷ 0 ∷ 0 ∷ s.i2 ∷ 0 ∷ [] };

    fn kind() -> FormatKind {
        FormatKind::VriC
    }

    fn slots(&self) -> [u32; 10] {
        [
            u32::from(self.opcode),
            u32::from(self.v1),
            u32::from(self.v3),
            0,
            0,
            u32::from(self.m4),
            0,
            0,
            u32::from(self.i2),
            0,
        ]
    }

    fn from_slots(slots: &[u32; 10]) -> Self {
        VriC {
            opcode: slots[0] as u16,
            v1: slots[1] as u8,
            i2: slots[8] as u16,
            v3: slots[2] as u8,
            m4: slots[5] as u8,
        }
    }

    ghost fits = { vri_c_fit };

    ghost same = { vri_c_same };
}

impl Format for VriK {
    ghost kind_is = { KindVriK };

    ghost slots_of = { λ s. s.opcode ∷ s.v1 ∷ s.v2 ∷ s.v3 ∷ s.v4 ∷ s.i5 ∷ 0 ∷ 0 ∷ 0 ∷ 0 ∷ [] };

    fn kind() -> FormatKind {
        FormatKind::VriK
    }

    fn slots(&self) -> [u32; 10] {
        [
            u32::from(self.opcode),
            u32::from(self.v1),
            u32::from(self.v2),
            u32::from(self.v3),
            u32::from(self.v4),
            u32::from(self.i5),
            0,
            0,
            0,
            0,
        ]
    }

    fn from_slots(slots: &[u32; 10]) -> Self {
        VriK {
            opcode: slots[0] as u16,
            i5: slots[5] as u8,
            v1: slots[1] as u8,
            v2: slots[2] as u8,
            v3: slots[3] as u8,
            v4: slots[4] as u8,
        }
    }

    ghost fits = { vri_k_fit };

    ghost same = { vri_k_same };
}

impl Format for VrrA {
    ghost kind_is = { KindVrrA };

    ghost slots_of = { λ s. s.opcode ∷ s.v1 ∷ s.v2 ∷ 0 ∷ 0 ∷ s.m3 ∷ s.m4 ∷ s.m5 ∷ 0 ∷ 0 ∷ [] };

    fn kind() -> FormatKind {
        FormatKind::VrrA
    }

    fn slots(&self) -> [u32; 10] {
        [
            u32::from(self.opcode),
            u32::from(self.v1),
            u32::from(self.v2),
            0,
            0,
            u32::from(self.m3),
            u32::from(self.m4),
            u32::from(self.m5),
            0,
            0,
        ]
    }

    fn from_slots(slots: &[u32; 10]) -> Self {
        VrrA {
            opcode: slots[0] as u16,
            v1: slots[1] as u8,
            v2: slots[2] as u8,
            m3: slots[5] as u8,
            m4: slots[6] as u8,
            m5: slots[7] as u8,
        }
    }

    ghost fits = { vrr_a_fit };

    ghost same = { vrr_a_same };
}

impl Format for VrrB {
    ghost kind_is = { KindVrrB };

    ghost slots_of = { λ s. s.opcode ∷ s.v1 ∷ s.v2 ∷ s.v3 ∷ 0 ∷ s.m4 ∷ s.m5 ∷ 0 ∷ 0 ∷ 0 ∷ [] };

    fn kind() -> FormatKind {
        FormatKind::VrrB
    }

    fn slots(&self) -> [u32; 10] {
        [
            u32::from(self.opcode),
            u32::from(self.v1),
            u32::from(self.v2),
            u32::from(self.v3),
            0,
            u32::from(self.m4),
            u32::from(self.m5),
            0,
            0,
            0,
        ]
    }

    fn from_slots(slots: &[u32; 10]) -> Self {
        VrrB {
            opcode: slots[0] as u16,
            v1: slots[1] as u8,
            v2: slots[2] as u8,
            v3: slots[3] as u8,
            m4: slots[5] as u8,
            m5: slots[6] as u8,
        }
    }

    ghost fits = { vrr_b_fit };

    ghost same = { vrr_b_same };
}

impl Format for VrrC {
    ghost kind_is = { KindVrrC };

    ghost slots_of = { λ s. s.opcode ∷ s.v1 ∷ s.v2 ∷ s.v3 ∷ 0 ∷ s.m4 ∷ s.m5 ∷ s.m6 ∷ 0 ∷ 0 ∷ [] };

    fn kind() -> FormatKind {
        FormatKind::VrrC
    }

    fn slots(&self) -> [u32; 10] {
        [
            u32::from(self.opcode),
            u32::from(self.v1),
            u32::from(self.v2),
            u32::from(self.v3),
            0,
            u32::from(self.m4),
            u32::from(self.m5),
            u32::from(self.m6),
            0,
            0,
        ]
    }

    fn from_slots(slots: &[u32; 10]) -> Self {
        VrrC {
            opcode: slots[0] as u16,
            v1: slots[1] as u8,
            v2: slots[2] as u8,
            v3: slots[3] as u8,
            m4: slots[5] as u8,
            m5: slots[6] as u8,
            m6: slots[7] as u8,
        }
    }

    ghost fits = { vrr_c_fit };

    ghost same = { vrr_c_same };
}

impl Format for VrrD {
    ghost kind_is = { KindVrrD };

    ghost slots_of = { λ s. s.opcode ∷ s.v1 ∷ s.v2 ∷ s.v3 ∷ s.v4 ∷ s.m5 ∷ s.m6 ∷ 0 ∷ 0 ∷ 0 ∷ [] };

    fn kind() -> FormatKind {
        FormatKind::VrrD
    }

    fn slots(&self) -> [u32; 10] {
        [
            u32::from(self.opcode),
            u32::from(self.v1),
            u32::from(self.v2),
            u32::from(self.v3),
            u32::from(self.v4),
            u32::from(self.m5),
            u32::from(self.m6),
            0,
            0,
            0,
        ]
    }

    fn from_slots(slots: &[u32; 10]) -> Self {
        VrrD {
            opcode: slots[0] as u16,
            v1: slots[1] as u8,
            v2: slots[2] as u8,
            v3: slots[3] as u8,
            v4: slots[4] as u8,
            m5: slots[5] as u8,
            m6: slots[6] as u8,
        }
    }

    ghost fits = { vrr_d_fit };

    ghost same = { vrr_d_same };
}

impl Format for VrrE {
    ghost kind_is = { KindVrrE };

    ghost slots_of = { λ s. s.opcode ∷ s.v1 ∷ s.v2 ∷ s.v3 ∷ s.v4 ∷ s.m5 ∷ s.m6 ∷ 0 ∷ 0 ∷ 0 ∷ [] };

    fn kind() -> FormatKind {
        FormatKind::VrrE
    }

    fn slots(&self) -> [u32; 10] {
        [
            u32::from(self.opcode),
            u32::from(self.v1),
            u32::from(self.v2),
            u32::from(self.v3),
            u32::from(self.v4),
            u32::from(self.m5),
            u32::from(self.m6),
            0,
            0,
            0,
        ]
    }

    fn from_slots(slots: &[u32; 10]) -> Self {
        VrrE {
            opcode: slots[0] as u16,
            v1: slots[1] as u8,
            v2: slots[2] as u8,
            v3: slots[3] as u8,
            v4: slots[4] as u8,
            m5: slots[5] as u8,
            m6: slots[6] as u8,
        }
    }

    ghost fits = { vrr_e_fit };

    ghost same = { vrr_e_same };
}

impl Format for VrrF {
    ghost kind_is = { KindVrrF };

    ghost slots_of = { λ s. s.opcode ∷ s.v1 ∷ s.r2 ∷ s.r3 ∷ 0 ∷ 0 ∷ 0 ∷ 0 ∷ 0 ∷ 0 ∷ [] };

    fn kind() -> FormatKind {
        FormatKind::VrrF
    }

    fn slots(&self) -> [u32; 10] {
        [
            u32::from(self.opcode),
            u32::from(self.v1),
            u32::from(self.r2),
            u32::from(self.r3),
            0,
            0,
            0,
            0,
            0,
            0,
        ]
    }

    fn from_slots(slots: &[u32; 10]) -> Self {
        VrrF {
            opcode: slots[0] as u16,
            v1: slots[1] as u8,
            r2: slots[2] as u8,
            r3: slots[3] as u8,
        }
    }

    ghost fits = { vrr_f_fit };

    ghost same = { vrr_f_same };
}

impl Format for VrsA {
    ghost kind_is = { KindVrsA };

    ghost slots_of = { λ s. s.opcode ∷ s.v1 ∷ s.b2 ∷ s.v3 ∷ 0 ∷ s.m4 ∷ 0 ∷ 0 ∷ 0 ∷ s.d2 ∷ [] };

    fn kind() -> FormatKind {
        FormatKind::VrsA
    }

    fn slots(&self) -> [u32; 10] {
        [
            u32::from(self.opcode),
            u32::from(self.v1),
            u32::from(self.b2),
            u32::from(self.v3),
            0,
            u32::from(self.m4),
            0,
            0,
            0,
            self.d2,
        ]
    }

    fn from_slots(slots: &[u32; 10]) -> Self {
        VrsA {
            opcode: slots[0] as u16,
            v1: slots[1] as u8,
            b2: slots[2] as u8,
            d2: slots[9],
            v3: slots[3] as u8,
            m4: slots[5] as u8,
        }
    }

    ghost fits = { vrs_a_fit };

    ghost same = { vrs_a_same };
}

impl Format for VrsB {
    ghost kind_is = { KindVrsB };

    ghost slots_of = { λ s. s.opcode ∷ s.v1 ∷ s.b2 ∷ s.r3 ∷ 0 ∷ s.m4 ∷ 0 ∷ 0 ∷ 0 ∷ s.d2 ∷ [] };

    fn kind() -> FormatKind {
        FormatKind::VrsB
    }

    fn slots(&self) -> [u32; 10] {
        [
            u32::from(self.opcode),
            u32::from(self.v1),
            u32::from(self.b2),
            u32::from(self.r3),
            0,
            u32::from(self.m4),
            0,
            0,
            0,
            self.d2,
        ]
    }

    fn from_slots(slots: &[u32; 10]) -> Self {
        VrsB {
            opcode: slots[0] as u16,
            v1: slots[1] as u8,
            b2: slots[2] as u8,
            d2: slots[9],
            r3: slots[3] as u8,
            m4: slots[5] as u8,
        }
    }

    ghost fits = { vrs_b_fit };

    ghost same = { vrs_b_same };
}

impl Format for VrsC {
    ghost kind_is = { KindVrsC };

    ghost slots_of = { λ s. s.opcode ∷ s.r1 ∷ s.b2 ∷ s.v3 ∷ 0 ∷ s.m4 ∷ 0 ∷ 0 ∷ 0 ∷ s.d2 ∷ [] };

    fn kind() -> FormatKind {
        FormatKind::VrsC
    }

    fn slots(&self) -> [u32; 10] {
        [
            u32::from(self.opcode),
            u32::from(self.r1),
            u32::from(self.b2),
            u32::from(self.v3),
            0,
            u32::from(self.m4),
            0,
            0,
            0,
            self.d2,
        ]
    }

    fn from_slots(slots: &[u32; 10]) -> Self {
        VrsC {
            opcode: slots[0] as u16,
            r1: slots[1] as u8,
            b2: slots[2] as u8,
            d2: slots[9],
            v3: slots[3] as u8,
            m4: slots[5] as u8,
        }
    }

    ghost fits = { vrs_c_fit };

    ghost same = { vrs_c_same };
}

impl Format for Vrx {
    ghost kind_is = { KindVrx };

    ghost slots_of = { λ s. s.opcode ∷ s.v1 ∷ s.b2 ∷ s.x2 ∷ 0 ∷ s.m3 ∷ 0 ∷ 0 ∷ 0 ∷ s.d2 ∷ [] };

    fn kind() -> FormatKind {
        FormatKind::Vrx
    }

    fn slots(&self) -> [u32; 10] {
        [
            u32::from(self.opcode),
            u32::from(self.v1),
            u32::from(self.b2),
            u32::from(self.x2),
            0,
            u32::from(self.m3),
            0,
            0,
            0,
            self.d2,
        ]
    }

    fn from_slots(slots: &[u32; 10]) -> Self {
        Vrx {
            opcode: slots[0] as u16,
            v1: slots[1] as u8,
            b2: slots[2] as u8,
            x2: slots[3] as u8,
            d2: slots[9],
            m3: slots[5] as u8,
        }
    }

    ghost fits = { vrx_fit };

    ghost same = { vrx_same };
}
