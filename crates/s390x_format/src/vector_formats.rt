//! The formats with vector registers, one struct each.
//!
//! The fields are the opcode and what the format's encoding call takes, registers as numbers; each
//! fits its place in the format.
ghost use Rattle.std.specs.Prelude.{◌^◌, ◌<◌};

/// VRI-A: `ab`, v1 0, i2, m3 x, `cd`.
#[derive(Drop)]
pub struct VriA {
    /// Opcode.
    pub opcode: u16,
    /// Vector register.
    pub v1: u8,
    /// Immediate.
    pub i2: u16,
    /// Mask.
    pub m3: u8,
    ghost opcode_fits: { opcode < 2 ^ 16 },
    ghost v1_fits: { v1 < 2 ^ 5 },
    ghost i2_fits: { i2 < 2 ^ 16 },
    ghost m3_fits: { m3 < 2 ^ 4 },
}

/// VRI-B: `ab`, v1 0, i2, i3, m4 x, `cd`.
#[derive(Drop)]
pub struct VriB {
    /// Opcode.
    pub opcode: u16,
    /// Vector register.
    pub v1: u8,
    /// Immediate of 8 bits.
    pub i2: u8,
    /// Immediate of 8 bits.
    pub i3: u8,
    /// Mask.
    pub m4: u8,
    ghost opcode_fits: { opcode < 2 ^ 16 },
    ghost v1_fits: { v1 < 2 ^ 5 },
    ghost i2_fits: { i2 < 2 ^ 8 },
    ghost i3_fits: { i3 < 2 ^ 8 },
    ghost m4_fits: { m4 < 2 ^ 4 },
}

/// VRI-C: `ab`, v1 v3, i2, m4 x, `cd`.
#[derive(Drop)]
pub struct VriC {
    /// Opcode.
    pub opcode: u16,
    /// Vector register.
    pub v1: u8,
    /// Immediate.
    pub i2: u16,
    /// Vector register.
    pub v3: u8,
    /// Mask.
    pub m4: u8,
    ghost opcode_fits: { opcode < 2 ^ 16 },
    ghost v1_fits: { v1 < 2 ^ 5 },
    ghost i2_fits: { i2 < 2 ^ 16 },
    ghost v3_fits: { v3 < 2 ^ 5 },
    ghost m4_fits: { m4 < 2 ^ 4 },
}

/// VRI-K: `ab`, v1 v2, v3 0, i5, v4 x, `cd`.
#[derive(Drop)]
pub struct VriK {
    /// Opcode.
    pub opcode: u16,
    /// Immediate of 8 bits.
    pub i5: u8,
    /// Vector register.
    pub v1: u8,
    /// Vector register.
    pub v2: u8,
    /// Vector register.
    pub v3: u8,
    /// Vector register.
    pub v4: u8,
    ghost opcode_fits: { opcode < 2 ^ 16 },
    ghost i5_fits: { i5 < 2 ^ 8 },
    ghost v1_fits: { v1 < 2 ^ 5 },
    ghost v2_fits: { v2 < 2 ^ 5 },
    ghost v3_fits: { v3 < 2 ^ 5 },
    ghost v4_fits: { v4 < 2 ^ 5 },
}

/// VRR-A: `ab`, v1 v2, 00, m5 m4, m3 x, `cd`.
#[derive(Drop)]
pub struct VrrA {
    /// Opcode.
    pub opcode: u16,
    /// Vector register.
    pub v1: u8,
    /// Vector register.
    pub v2: u8,
    /// Mask.
    pub m3: u8,
    /// Mask.
    pub m4: u8,
    /// Mask.
    pub m5: u8,
    ghost opcode_fits: { opcode < 2 ^ 16 },
    ghost v1_fits: { v1 < 2 ^ 5 },
    ghost v2_fits: { v2 < 2 ^ 5 },
    ghost m3_fits: { m3 < 2 ^ 4 },
    ghost m4_fits: { m4 < 2 ^ 4 },
    ghost m5_fits: { m5 < 2 ^ 4 },
}

/// VRR-B: `ab`, v1 v2, v3 0, m5 0, m4 x, `cd`.
#[derive(Drop)]
pub struct VrrB {
    /// Opcode.
    pub opcode: u16,
    /// Vector register.
    pub v1: u8,
    /// Vector register.
    pub v2: u8,
    /// Vector register.
    pub v3: u8,
    /// Mask.
    pub m4: u8,
    /// Mask.
    pub m5: u8,
    ghost opcode_fits: { opcode < 2 ^ 16 },
    ghost v1_fits: { v1 < 2 ^ 5 },
    ghost v2_fits: { v2 < 2 ^ 5 },
    ghost v3_fits: { v3 < 2 ^ 5 },
    ghost m4_fits: { m4 < 2 ^ 4 },
    ghost m5_fits: { m5 < 2 ^ 4 },
}

/// VRR-C: `ab`, v1 v2, v3 0, m6 m5, m4 x, `cd`.
#[derive(Drop)]
pub struct VrrC {
    /// Opcode.
    pub opcode: u16,
    /// Vector register.
    pub v1: u8,
    /// Vector register.
    pub v2: u8,
    /// Vector register.
    pub v3: u8,
    /// Mask.
    pub m4: u8,
    /// Mask.
    pub m5: u8,
    /// Mask.
    pub m6: u8,
    ghost opcode_fits: { opcode < 2 ^ 16 },
    ghost v1_fits: { v1 < 2 ^ 5 },
    ghost v2_fits: { v2 < 2 ^ 5 },
    ghost v3_fits: { v3 < 2 ^ 5 },
    ghost m4_fits: { m4 < 2 ^ 4 },
    ghost m5_fits: { m5 < 2 ^ 4 },
    ghost m6_fits: { m6 < 2 ^ 4 },
}

/// VRR-D: `ab`, v1 v2, v3 m5, m6 0, v4 x, `cd`.
#[derive(Drop)]
pub struct VrrD {
    /// Opcode.
    pub opcode: u16,
    /// Vector register.
    pub v1: u8,
    /// Vector register.
    pub v2: u8,
    /// Vector register.
    pub v3: u8,
    /// Vector register.
    pub v4: u8,
    /// Mask.
    pub m5: u8,
    /// Mask.
    pub m6: u8,
    ghost opcode_fits: { opcode < 2 ^ 16 },
    ghost v1_fits: { v1 < 2 ^ 5 },
    ghost v2_fits: { v2 < 2 ^ 5 },
    ghost v3_fits: { v3 < 2 ^ 5 },
    ghost v4_fits: { v4 < 2 ^ 5 },
    ghost m5_fits: { m5 < 2 ^ 4 },
    ghost m6_fits: { m6 < 2 ^ 4 },
}

/// VRR-E: `ab`, v1 v2, v3 m6, 0 m5, v4 x, `cd`.
#[derive(Drop)]
pub struct VrrE {
    /// Opcode.
    pub opcode: u16,
    /// Vector register.
    pub v1: u8,
    /// Vector register.
    pub v2: u8,
    /// Vector register.
    pub v3: u8,
    /// Vector register.
    pub v4: u8,
    /// Mask.
    pub m5: u8,
    /// Mask.
    pub m6: u8,
    ghost opcode_fits: { opcode < 2 ^ 16 },
    ghost v1_fits: { v1 < 2 ^ 5 },
    ghost v2_fits: { v2 < 2 ^ 5 },
    ghost v3_fits: { v3 < 2 ^ 5 },
    ghost v4_fits: { v4 < 2 ^ 5 },
    ghost m5_fits: { m5 < 2 ^ 4 },
    ghost m6_fits: { m6 < 2 ^ 4 },
}

/// VRR-F: `ab`, v1 r2, r3 0, 00, 0 x, `cd`.
#[derive(Drop)]
pub struct VrrF {
    /// Opcode.
    pub opcode: u16,
    /// Vector register.
    pub v1: u8,
    /// General register.
    pub r2: u8,
    /// General register.
    pub r3: u8,
    ghost opcode_fits: { opcode < 2 ^ 16 },
    ghost v1_fits: { v1 < 2 ^ 5 },
    ghost r2_fits: { r2 < 2 ^ 4 },
    ghost r3_fits: { r3 < 2 ^ 4 },
}

/// VRS-A: `ab`, v1 v3, b2 d, m4 x, `cd`.
#[derive(Drop)]
pub struct VrsA {
    /// Opcode.
    pub opcode: u16,
    /// Vector register.
    pub v1: u8,
    /// Base register.
    pub b2: u8,
    /// Displacement in bytes.
    pub d2: u32,
    /// Vector register.
    pub v3: u8,
    /// Mask.
    pub m4: u8,
    ghost opcode_fits: { opcode < 2 ^ 16 },
    ghost v1_fits: { v1 < 2 ^ 5 },
    ghost b2_fits: { b2 < 2 ^ 4 },
    ghost d2_fits: { d2 < 2 ^ 12 },
    ghost v3_fits: { v3 < 2 ^ 5 },
    ghost m4_fits: { m4 < 2 ^ 4 },
}

/// VRS-B: `ab`, v1 r3, b2 d, m4 x, `cd`.
#[derive(Drop)]
pub struct VrsB {
    /// Opcode.
    pub opcode: u16,
    /// Vector register.
    pub v1: u8,
    /// Base register.
    pub b2: u8,
    /// Displacement in bytes.
    pub d2: u32,
    /// General register.
    pub r3: u8,
    /// Mask.
    pub m4: u8,
    ghost opcode_fits: { opcode < 2 ^ 16 },
    ghost v1_fits: { v1 < 2 ^ 5 },
    ghost b2_fits: { b2 < 2 ^ 4 },
    ghost d2_fits: { d2 < 2 ^ 12 },
    ghost r3_fits: { r3 < 2 ^ 4 },
    ghost m4_fits: { m4 < 2 ^ 4 },
}

/// VRS-C: `ab`, r1 v3, b2 d, m4 x, `cd`.
#[derive(Drop)]
pub struct VrsC {
    /// Opcode.
    pub opcode: u16,
    /// General register.
    pub r1: u8,
    /// Base register.
    pub b2: u8,
    /// Displacement in bytes.
    pub d2: u32,
    /// Vector register.
    pub v3: u8,
    /// Mask.
    pub m4: u8,
    ghost opcode_fits: { opcode < 2 ^ 16 },
    ghost r1_fits: { r1 < 2 ^ 4 },
    ghost b2_fits: { b2 < 2 ^ 4 },
    ghost d2_fits: { d2 < 2 ^ 12 },
    ghost v3_fits: { v3 < 2 ^ 5 },
    ghost m4_fits: { m4 < 2 ^ 4 },
}

/// VRX: `ab`, v1 x2, b2 d, m3 x, `cd`.
#[derive(Drop)]
pub struct Vrx {
    /// Opcode.
    pub opcode: u16,
    /// Vector register.
    pub v1: u8,
    /// Base register.
    pub b2: u8,
    /// Index register.
    pub x2: u8,
    /// Displacement in bytes.
    pub d2: u32,
    /// Mask.
    pub m3: u8,
    ghost opcode_fits: { opcode < 2 ^ 16 },
    ghost v1_fits: { v1 < 2 ^ 5 },
    ghost b2_fits: { b2 < 2 ^ 4 },
    ghost x2_fits: { x2 < 2 ^ 4 },
    ghost d2_fits: { d2 < 2 ^ 12 },
    ghost m3_fits: { m3 < 2 ^ 4 },
}
