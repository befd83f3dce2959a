//! The formats with a displacement, one struct each.
//!
//! The fields are the opcode and what the format's encoding call takes, registers as numbers; each
//! fits its place in the format.
ghost use Rattle.std.specs.Prelude.{◌^◌, ◌<◌};

/// RS: `ab`, r1 r3, b2 d.
#[derive(Drop)]
pub struct Rs {
    /// Opcode.
    pub opcode: u16,
    /// General register.
    pub r1: u8,
    /// General register.
    pub r3: u8,
    /// Base register.
    pub b2: u8,
    /// Displacement in bytes.
    pub d2: u32,
    ghost opcode_fits: { opcode < 2 ^ 8 },
    ghost r1_fits: { r1 < 2 ^ 4 },
    ghost r3_fits: { r3 < 2 ^ 4 },
    ghost b2_fits: { b2 < 2 ^ 4 },
    ghost d2_fits: { d2 < 2 ^ 12 },
}

/// RSY: `ab`, r1 r3, b2 dl, dh, `cd`.
#[derive(Drop)]
pub struct Rsy {
    /// Opcode.
    pub opcode: u16,
    /// General register.
    pub r1: u8,
    /// General register.
    pub r3: u8,
    /// Base register.
    pub b2: u8,
    /// Displacement in bytes, its 20 bits as an unsigned number.
    pub d2: u32,
    ghost opcode_fits: { opcode < 2 ^ 16 },
    ghost r1_fits: { r1 < 2 ^ 4 },
    ghost r3_fits: { r3 < 2 ^ 4 },
    ghost b2_fits: { b2 < 2 ^ 4 },
    ghost d2_fits: { d2 < 2 ^ 20 },
}

/// RX: `ab`, r1 x2, b2 d.
#[derive(Drop)]
pub struct Rx {
    /// Opcode.
    pub opcode: u16,
    /// General register.
    pub r1: u8,
    /// Base register.
    pub b2: u8,
    /// Index register.
    pub x2: u8,
    /// Displacement in bytes.
    pub d2: u32,
    ghost opcode_fits: { opcode < 2 ^ 8 },
    ghost r1_fits: { r1 < 2 ^ 4 },
    ghost b2_fits: { b2 < 2 ^ 4 },
    ghost x2_fits: { x2 < 2 ^ 4 },
    ghost d2_fits: { d2 < 2 ^ 12 },
}

/// RXY: `ab`, r1 x2, b2 dl, dh, `cd`.
#[derive(Drop)]
pub struct Rxy {
    /// Opcode.
    pub opcode: u16,
    /// General register.
    pub r1: u8,
    /// Base register.
    pub b2: u8,
    /// Index register.
    pub x2: u8,
    /// Displacement in bytes, its 20 bits as an unsigned number.
    pub d2: u32,
    ghost opcode_fits: { opcode < 2 ^ 16 },
    ghost r1_fits: { r1 < 2 ^ 4 },
    ghost b2_fits: { b2 < 2 ^ 4 },
    ghost x2_fits: { x2 < 2 ^ 4 },
    ghost d2_fits: { d2 < 2 ^ 20 },
}

/// SI: `ab`, i2, b1 d.
#[derive(Drop)]
pub struct Si {
    /// Opcode.
    pub opcode: u16,
    /// Base register.
    pub b1: u8,
    /// Displacement in bytes.
    pub d1: u32,
    /// Immediate of 8 bits.
    pub i2: u8,
    ghost opcode_fits: { opcode < 2 ^ 8 },
    ghost b1_fits: { b1 < 2 ^ 4 },
    ghost d1_fits: { d1 < 2 ^ 12 },
    ghost i2_fits: { i2 < 2 ^ 8 },
}

/// SIY: `ab`, i2, b1 dl, dh, `cd`.
#[derive(Drop)]
pub struct Siy {
    /// Opcode.
    pub opcode: u16,
    /// Base register.
    pub b1: u8,
    /// Displacement in bytes, its 20 bits as an unsigned number.
    pub d1: u32,
    /// Immediate of 8 bits.
    pub i2: u8,
    ghost opcode_fits: { opcode < 2 ^ 16 },
    ghost b1_fits: { b1 < 2 ^ 4 },
    ghost d1_fits: { d1 < 2 ^ 20 },
    ghost i2_fits: { i2 < 2 ^ 8 },
}
