//! The formats with registers and masks, one struct each.
//!
//! The fields are the opcode and what the format's encoding call takes, registers as numbers; each
//! fits its place in the format.
ghost use Rattle.std.specs.Prelude.{◌^◌, ◌<◌};

/// E: `ab cd`.
#[derive(Drop)]
pub struct E {
    /// Opcode.
    pub opcode: u16,
    ghost opcode_fits: { opcode < 2 ^ 16 },
}

/// RR: `ab`, r1 r2.
#[derive(Drop)]
pub struct Rr {
    /// Opcode.
    pub opcode: u16,
    /// General register.
    pub r1: u8,
    /// General register.
    pub r2: u8,
    ghost opcode_fits: { opcode < 2 ^ 8 },
    ghost r1_fits: { r1 < 2 ^ 4 },
    ghost r2_fits: { r2 < 2 ^ 4 },
}

/// RRE: `ab cd`, 00, r1 r2.
#[derive(Drop)]
pub struct Rre {
    /// Opcode.
    pub opcode: u16,
    /// General register.
    pub r1: u8,
    /// General register.
    pub r2: u8,
    ghost opcode_fits: { opcode < 2 ^ 16 },
    ghost r1_fits: { r1 < 2 ^ 4 },
    ghost r2_fits: { r2 < 2 ^ 4 },
}

/// RRF-AB: `ab cd`, r3 m4, r1 r2.
#[derive(Drop)]
pub struct RrfAb {
    /// Opcode.
    pub opcode: u16,
    /// General register.
    pub r1: u8,
    /// General register.
    pub r2: u8,
    /// General register.
    pub r3: u8,
    /// Mask.
    pub m4: u8,
    ghost opcode_fits: { opcode < 2 ^ 16 },
    ghost r1_fits: { r1 < 2 ^ 4 },
    ghost r2_fits: { r2 < 2 ^ 4 },
    ghost r3_fits: { r3 < 2 ^ 4 },
    ghost m4_fits: { m4 < 2 ^ 4 },
}

/// RRF-CDE: `ab cd`, m3 m4, r1 r2.
#[derive(Drop)]
pub struct RrfCde {
    /// Opcode.
    pub opcode: u16,
    /// General register.
    pub r1: u8,
    /// General register.
    pub r2: u8,
    /// Mask.
    pub m3: u8,
    /// Mask.
    pub m4: u8,
    ghost opcode_fits: { opcode < 2 ^ 16 },
    ghost r1_fits: { r1 < 2 ^ 4 },
    ghost r2_fits: { r2 < 2 ^ 4 },
    ghost m3_fits: { m3 < 2 ^ 4 },
    ghost m4_fits: { m4 < 2 ^ 4 },
}
