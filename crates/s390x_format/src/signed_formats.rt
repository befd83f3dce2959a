//! The formats with distances or a signed immediate, one struct each.
//!
//! The fields are the opcode and what the format's encoding call takes, registers as numbers; each
//! fits its place in the format.
ghost use Rattle.std.specs.Prelude.{◌≡◌, ◌^◌, ◌<◌};
ghost use mir.Syntax.{w16, w32};
ghost use Rattle.s390x_format.specs.Distances.{half_of, signed_distance, signed_of, unsigned_of};

/// RI-B: `ab`, r1 c, h.
#[derive(Drop)]
pub struct RiB {
    /// Opcode.
    pub opcode: u16,
    /// General register.
    pub r1: u8,
    /// Distance in bytes, even, from the place of the instruction.
    pub ri2: i64,
    ghost opcode_fits: { opcode < 2 ^ 12 },
    ghost r1_fits: { r1 < 2 ^ 4 },
    ghost half_fits: { half_of w16 ri2 < 2 ^ 16 },
    ghost ri2_fits: { signed_distance w16 (half_of w16 ri2) ≡ ri2 },
}

/// RI-C: `ab`, m1 c, h.
#[derive(Drop)]
pub struct RiC {
    /// Opcode.
    pub opcode: u16,
    /// Mask.
    pub m1: u8,
    /// Distance in bytes, even, from the place of the instruction.
    pub ri2: i64,
    ghost opcode_fits: { opcode < 2 ^ 12 },
    ghost m1_fits: { m1 < 2 ^ 4 },
    ghost half_fits: { half_of w16 ri2 < 2 ^ 16 },
    ghost ri2_fits: { signed_distance w16 (half_of w16 ri2) ≡ ri2 },
}

/// RIL-B: `ab`, r1 c, h.
#[derive(Drop)]
pub struct RilB {
    /// Opcode.
    pub opcode: u16,
    /// General register.
    pub r1: u8,
    /// Distance in bytes, even, from the place of the instruction.
    pub ri2: i64,
    ghost opcode_fits: { opcode < 2 ^ 12 },
    ghost r1_fits: { r1 < 2 ^ 4 },
    ghost half_fits: { half_of w32 ri2 < 2 ^ 32 },
    ghost ri2_fits: { signed_distance w32 (half_of w32 ri2) ≡ ri2 },
}

/// RIL-C: `ab`, m1 c, h.
#[derive(Drop)]
pub struct RilC {
    /// Opcode.
    pub opcode: u16,
    /// Mask.
    pub m1: u8,
    /// Distance in bytes, even, from the place of the instruction.
    pub ri2: i64,
    ghost opcode_fits: { opcode < 2 ^ 12 },
    ghost m1_fits: { m1 < 2 ^ 4 },
    ghost half_fits: { half_of w32 ri2 < 2 ^ 32 },
    ghost ri2_fits: { signed_distance w32 (half_of w32 ri2) ≡ ri2 },
}

/// SIL: `ab cd`, b1 d, i2.
#[derive(Drop)]
pub struct Sil {
    /// Opcode.
    pub opcode: u16,
    /// Base register.
    pub b1: u8,
    /// Displacement in bytes.
    pub d1: u32,
    /// Signed immediate.
    pub i2: i16,
    ghost opcode_fits: { opcode < 2 ^ 16 },
    ghost b1_fits: { b1 < 2 ^ 4 },
    ghost d1_fits: { d1 < 2 ^ 12 },
    ghost bits_fit: { unsigned_of w16 i2 < 2 ^ 16 },
    ghost i2_fits: { signed_of w16 (unsigned_of w16 i2) ≡ i2 },
}
