//! The formats with unsigned immediates, one struct each.
//!
//! The fields are the opcode and what the format's encoding call takes, registers as numbers; each
//! fits its place in the format.
ghost use Rattle.std.specs.Prelude.{◌^◌, ◌<◌};

/// RI-A: `ab`, r1 c, i2.
#[derive(Drop)]
pub struct RiA {
    /// Opcode.
    pub opcode: u16,
    /// General register.
    pub r1: u8,
    /// Immediate.
    pub i2: u16,
    ghost opcode_fits: { opcode < 2 ^ 12 },
    ghost r1_fits: { r1 < 2 ^ 4 },
    ghost i2_fits: { i2 < 2 ^ 16 },
}

/// RIE-A: `ab`, r1 0, i2, m3 0, `cd`.
#[derive(Drop)]
pub struct RieA {
    /// Opcode.
    pub opcode: u16,
    /// General register.
    pub r1: u8,
    /// Immediate.
    pub i2: u16,
    /// Mask.
    pub m3: u8,
    ghost opcode_fits: { opcode < 2 ^ 16 },
    ghost r1_fits: { r1 < 2 ^ 4 },
    ghost i2_fits: { i2 < 2 ^ 16 },
    ghost m3_fits: { m3 < 2 ^ 4 },
}

/// RIE-D: `ab`, r1 r3, i2, 00, `cd`.
#[derive(Drop)]
pub struct RieD {
    /// Opcode.
    pub opcode: u16,
    /// General register.
    pub r1: u8,
    /// General register.
    pub r3: u8,
    /// Immediate.
    pub i2: u16,
    ghost opcode_fits: { opcode < 2 ^ 16 },
    ghost r1_fits: { r1 < 2 ^ 4 },
    ghost r3_fits: { r3 < 2 ^ 4 },
    ghost i2_fits: { i2 < 2 ^ 16 },
}

/// RIE-F: `ab`, r1 r2, i3, i4, i5, `cd`.
#[derive(Drop)]
pub struct RieF {
    /// Opcode.
    pub opcode: u16,
    /// General register.
    pub r1: u8,
    /// General register.
    pub r2: u8,
    /// Immediate of 8 bits.
    pub i3: u8,
    /// Immediate of 8 bits.
    pub i4: u8,
    /// Immediate of 8 bits.
    pub i5: u8,
    ghost opcode_fits: { opcode < 2 ^ 16 },
    ghost r1_fits: { r1 < 2 ^ 4 },
    ghost r2_fits: { r2 < 2 ^ 4 },
    ghost i3_fits: { i3 < 2 ^ 8 },
    ghost i4_fits: { i4 < 2 ^ 8 },
    ghost i5_fits: { i5 < 2 ^ 8 },
}

/// RIE-G: `ab`, r1 m3, i2, 00, `cd`.
#[derive(Drop)]
pub struct RieG {
    /// Opcode.
    pub opcode: u16,
    /// General register.
    pub r1: u8,
    /// Immediate.
    pub i2: u16,
    /// Mask.
    pub m3: u8,
    ghost opcode_fits: { opcode < 2 ^ 16 },
    ghost r1_fits: { r1 < 2 ^ 4 },
    ghost i2_fits: { i2 < 2 ^ 16 },
    ghost m3_fits: { m3 < 2 ^ 4 },
}

/// RIL-A: `ab`, r1 c, i2.
#[derive(Drop)]
pub struct RilA {
    /// Opcode.
    pub opcode: u16,
    /// General register.
    pub r1: u8,
    /// Immediate.
    pub i2: u32,
    ghost opcode_fits: { opcode < 2 ^ 12 },
    ghost r1_fits: { r1 < 2 ^ 4 },
    ghost i2_fits: { i2 < 2 ^ 32 },
}
