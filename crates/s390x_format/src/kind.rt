//! The formats of instructions, as layouts of parts (Principles of Operation, chapter 5,
//! "Instruction formats").
//!
//! An opcode is `ab`, `abc` or `abcd` in hex digits. In the comments a four-bit part is named by
//! the operand that stands in it: a register's number modulo 16, a mask, or a zero. x is the sum of
//! 8, 4, 2, 1 for a vector register of 16 and above in the left half of byte 1, in the right half
//! of byte 1, in byte 2, in byte 4. d is a displacement of 12 bits, dl and dh are the low 12 and
//! the high 8 bits of one of 20 bits, and h is half of a distance in bytes.
ghost use Rattle.std.specs.Prelude.{◌≡◌};
ghost use Rattle.s390x_format.specs.Formats.{layout_of, length_of};

use crate::layouts::{
    DISPLACEMENT, IMMEDIATE, MASK_1, MASK_2, MASK_3, OPCODE, Part, REG_1, REG_2, REG_3, REG_4, ZERO,
};

/// The formats, by their names in the manual. Where several of them have the same places, one name
/// stands for them: RRF-a and RRF-b, RRF-c to RRF-e, RS-a, RX-a and so on.
#[derive(Clone, Copy, PartialEq, Debug)]
pub enum FormatKind {
    E,
    RiA,
    RiB,
    RiC,
    RieA,
    RieD,
    RieF,
    RieG,
    RilA,
    RilB,
    RilC,
    Rr,
    Rre,
    RrfAb,
    RrfCde,
    Rs,
    Rsy,
    Rx,
    Rxy,
    Si,
    Sil,
    Siy,
    VriA,
    VriB,
    VriC,
    VriK,
    VrrA,
    VrrB,
    VrrC,
    VrrD,
    VrrE,
    VrrF,
    VrsA,
    VrsB,
    VrsC,
    Vrx,
}

/// `ab cd`
#[rattlefmt::skip]
pub const E_PARTS: [Part; 2] = [
    Part { slot: OPCODE, low: 8, width: 8 },
    Part { slot: OPCODE, low: 0, width: 8 },
];

/// `ab`, r1 c, i2
#[rattlefmt::skip]
pub const RI_A_PARTS: [Part; 4] = [
    Part { slot: OPCODE, low: 4, width: 8 },
    Part { slot: REG_1, low: 0, width: 4 },
    Part { slot: OPCODE, low: 0, width: 4 },
    Part { slot: IMMEDIATE, low: 0, width: 16 },
];

/// `ab`, r1 c, h
#[rattlefmt::skip]
pub const RI_B_PARTS: [Part; 4] = [
    Part { slot: OPCODE, low: 4, width: 8 },
    Part { slot: REG_1, low: 0, width: 4 },
    Part { slot: OPCODE, low: 0, width: 4 },
    Part { slot: IMMEDIATE, low: 0, width: 16 },
];

/// `ab`, m1 c, h
#[rattlefmt::skip]
pub const RI_C_PARTS: [Part; 4] = [
    Part { slot: OPCODE, low: 4, width: 8 },
    Part { slot: MASK_1, low: 0, width: 4 },
    Part { slot: OPCODE, low: 0, width: 4 },
    Part { slot: IMMEDIATE, low: 0, width: 16 },
];

/// `ab`, r1 0, i2, m3 0, `cd`
#[rattlefmt::skip]
pub const RIE_A_PARTS: [Part; 7] = [
    Part { slot: OPCODE, low: 8, width: 8 },
    Part { slot: REG_1, low: 0, width: 4 },
    Part { slot: ZERO, low: 0, width: 4 },
    Part { slot: IMMEDIATE, low: 0, width: 16 },
    Part { slot: MASK_1, low: 0, width: 4 },
    Part { slot: ZERO, low: 0, width: 4 },
    Part { slot: OPCODE, low: 0, width: 8 },
];

/// `ab`, r1 r3, i2, 00, `cd`
#[rattlefmt::skip]
pub const RIE_D_PARTS: [Part; 6] = [
    Part { slot: OPCODE, low: 8, width: 8 },
    Part { slot: REG_1, low: 0, width: 4 },
    Part { slot: REG_2, low: 0, width: 4 },
    Part { slot: IMMEDIATE, low: 0, width: 16 },
    Part { slot: ZERO, low: 0, width: 8 },
    Part { slot: OPCODE, low: 0, width: 8 },
];

/// `ab`, r1 r2, i3, i4, i5, `cd`
#[rattlefmt::skip]
pub const RIE_F_PARTS: [Part; 7] = [
    Part { slot: OPCODE, low: 8, width: 8 },
    Part { slot: REG_1, low: 0, width: 4 },
    Part { slot: REG_2, low: 0, width: 4 },
    Part { slot: MASK_1, low: 0, width: 8 },
    Part { slot: MASK_2, low: 0, width: 8 },
    Part { slot: MASK_3, low: 0, width: 8 },
    Part { slot: OPCODE, low: 0, width: 8 },
];

/// `ab`, r1 m3, i2, 00, `cd`
#[rattlefmt::skip]
pub const RIE_G_PARTS: [Part; 6] = [
    Part { slot: OPCODE, low: 8, width: 8 },
    Part { slot: REG_1, low: 0, width: 4 },
    Part { slot: MASK_1, low: 0, width: 4 },
    Part { slot: IMMEDIATE, low: 0, width: 16 },
    Part { slot: ZERO, low: 0, width: 8 },
    Part { slot: OPCODE, low: 0, width: 8 },
];

/// `ab`, r1 c, i2
#[rattlefmt::skip]
pub const RIL_A_PARTS: [Part; 4] = [
    Part { slot: OPCODE, low: 4, width: 8 },
    Part { slot: REG_1, low: 0, width: 4 },
    Part { slot: OPCODE, low: 0, width: 4 },
    Part { slot: IMMEDIATE, low: 0, width: 32 },
];

/// `ab`, r1 c, h
#[rattlefmt::skip]
pub const RIL_B_PARTS: [Part; 4] = [
    Part { slot: OPCODE, low: 4, width: 8 },
    Part { slot: REG_1, low: 0, width: 4 },
    Part { slot: OPCODE, low: 0, width: 4 },
    Part { slot: IMMEDIATE, low: 0, width: 32 },
];

/// `ab`, m1 c, h
#[rattlefmt::skip]
pub const RIL_C_PARTS: [Part; 4] = [
    Part { slot: OPCODE, low: 4, width: 8 },
    Part { slot: MASK_1, low: 0, width: 4 },
    Part { slot: OPCODE, low: 0, width: 4 },
    Part { slot: IMMEDIATE, low: 0, width: 32 },
];

/// `ab`, r1 r2
#[rattlefmt::skip]
pub const RR_PARTS: [Part; 3] = [
    Part { slot: OPCODE, low: 0, width: 8 },
    Part { slot: REG_1, low: 0, width: 4 },
    Part { slot: REG_2, low: 0, width: 4 },
];

/// `ab cd`, 00, r1 r2
#[rattlefmt::skip]
pub const RRE_PARTS: [Part; 5] = [
    Part { slot: OPCODE, low: 8, width: 8 },
    Part { slot: OPCODE, low: 0, width: 8 },
    Part { slot: ZERO, low: 0, width: 8 },
    Part { slot: REG_1, low: 0, width: 4 },
    Part { slot: REG_2, low: 0, width: 4 },
];

/// `ab cd`, r3 m4, r1 r2
#[rattlefmt::skip]
pub const RRF_AB_PARTS: [Part; 6] = [
    Part { slot: OPCODE, low: 8, width: 8 },
    Part { slot: OPCODE, low: 0, width: 8 },
    Part { slot: REG_3, low: 0, width: 4 },
    Part { slot: MASK_1, low: 0, width: 4 },
    Part { slot: REG_1, low: 0, width: 4 },
    Part { slot: REG_2, low: 0, width: 4 },
];

/// `ab cd`, m3 m4, r1 r2
#[rattlefmt::skip]
pub const RRF_CDE_PARTS: [Part; 6] = [
    Part { slot: OPCODE, low: 8, width: 8 },
    Part { slot: OPCODE, low: 0, width: 8 },
    Part { slot: MASK_1, low: 0, width: 4 },
    Part { slot: MASK_2, low: 0, width: 4 },
    Part { slot: REG_1, low: 0, width: 4 },
    Part { slot: REG_2, low: 0, width: 4 },
];

/// `ab`, r1 r3, b2 d
#[rattlefmt::skip]
pub const RS_PARTS: [Part; 5] = [
    Part { slot: OPCODE, low: 0, width: 8 },
    Part { slot: REG_1, low: 0, width: 4 },
    Part { slot: REG_2, low: 0, width: 4 },
    Part { slot: REG_3, low: 0, width: 4 },
    Part { slot: DISPLACEMENT, low: 0, width: 12 },
];

/// `ab`, r1 r3, b2 dl, dh, `cd`
#[rattlefmt::skip]
pub const RSY_PARTS: [Part; 7] = [
    Part { slot: OPCODE, low: 8, width: 8 },
    Part { slot: REG_1, low: 0, width: 4 },
    Part { slot: REG_2, low: 0, width: 4 },
    Part { slot: REG_3, low: 0, width: 4 },
    Part { slot: DISPLACEMENT, low: 0, width: 12 },
    Part { slot: DISPLACEMENT, low: 12, width: 8 },
    Part { slot: OPCODE, low: 0, width: 8 },
];

/// `ab`, r1 x2, b2 d
#[rattlefmt::skip]
pub const RX_PARTS: [Part; 5] = [
    Part { slot: OPCODE, low: 0, width: 8 },
    Part { slot: REG_1, low: 0, width: 4 },
    Part { slot: REG_3, low: 0, width: 4 },
    Part { slot: REG_2, low: 0, width: 4 },
    Part { slot: DISPLACEMENT, low: 0, width: 12 },
];

/// `ab`, r1 x2, b2 dl, dh, `cd`
#[rattlefmt::skip]
pub const RXY_PARTS: [Part; 7] = [
    Part { slot: OPCODE, low: 8, width: 8 },
    Part { slot: REG_1, low: 0, width: 4 },
    Part { slot: REG_3, low: 0, width: 4 },
    Part { slot: REG_2, low: 0, width: 4 },
    Part { slot: DISPLACEMENT, low: 0, width: 12 },
    Part { slot: DISPLACEMENT, low: 12, width: 8 },
    Part { slot: OPCODE, low: 0, width: 8 },
];

/// `ab`, i2, b1 d
#[rattlefmt::skip]
pub const SI_PARTS: [Part; 4] = [
    Part { slot: OPCODE, low: 0, width: 8 },
    Part { slot: MASK_1, low: 0, width: 8 },
    Part { slot: REG_1, low: 0, width: 4 },
    Part { slot: DISPLACEMENT, low: 0, width: 12 },
];

/// `ab cd`, b1 d, i2
#[rattlefmt::skip]
pub const SIL_PARTS: [Part; 5] = [
    Part { slot: OPCODE, low: 8, width: 8 },
    Part { slot: OPCODE, low: 0, width: 8 },
    Part { slot: REG_1, low: 0, width: 4 },
    Part { slot: DISPLACEMENT, low: 0, width: 12 },
    Part { slot: IMMEDIATE, low: 0, width: 16 },
];

/// `ab`, i2, b1 dl, dh, `cd`
#[rattlefmt::skip]
pub const SIY_PARTS: [Part; 6] = [
    Part { slot: OPCODE, low: 8, width: 8 },
    Part { slot: MASK_1, low: 0, width: 8 },
    Part { slot: REG_1, low: 0, width: 4 },
    Part { slot: DISPLACEMENT, low: 0, width: 12 },
    Part { slot: DISPLACEMENT, low: 12, width: 8 },
    Part { slot: OPCODE, low: 0, width: 8 },
];

/// `ab`, v1 0, i2, m3 x, `cd`
#[rattlefmt::skip]
pub const VRI_A_PARTS: [Part; 10] = [
    Part { slot: OPCODE, low: 8, width: 8 },
    Part { slot: REG_1, low: 0, width: 4 },
    Part { slot: ZERO, low: 0, width: 4 },
    Part { slot: IMMEDIATE, low: 0, width: 16 },
    Part { slot: MASK_1, low: 0, width: 4 },
    Part { slot: REG_1, low: 4, width: 1 },
    Part { slot: ZERO, low: 0, width: 1 },
    Part { slot: ZERO, low: 0, width: 1 },
    Part { slot: ZERO, low: 0, width: 1 },
    Part { slot: OPCODE, low: 0, width: 8 },
];

/// `ab`, v1 0, i2, i3, m4 x, `cd`
#[rattlefmt::skip]
pub const VRI_B_PARTS: [Part; 11] = [
    Part { slot: OPCODE, low: 8, width: 8 },
    Part { slot: REG_1, low: 0, width: 4 },
    Part { slot: ZERO, low: 0, width: 4 },
    Part { slot: MASK_1, low: 0, width: 8 },
    Part { slot: MASK_2, low: 0, width: 8 },
    Part { slot: MASK_3, low: 0, width: 4 },
    Part { slot: REG_1, low: 4, width: 1 },
    Part { slot: ZERO, low: 0, width: 1 },
    Part { slot: ZERO, low: 0, width: 1 },
    Part { slot: ZERO, low: 0, width: 1 },
    Part { slot: OPCODE, low: 0, width: 8 },
];

/// `ab`, v1 v3, i2, m4 x, `cd`
#[rattlefmt::skip]
pub const VRI_C_PARTS: [Part; 10] = [
    Part { slot: OPCODE, low: 8, width: 8 },
    Part { slot: REG_1, low: 0, width: 4 },
    Part { slot: REG_2, low: 0, width: 4 },
    Part { slot: IMMEDIATE, low: 0, width: 16 },
    Part { slot: MASK_1, low: 0, width: 4 },
    Part { slot: REG_1, low: 4, width: 1 },
    Part { slot: REG_2, low: 4, width: 1 },
    Part { slot: ZERO, low: 0, width: 1 },
    Part { slot: ZERO, low: 0, width: 1 },
    Part { slot: OPCODE, low: 0, width: 8 },
];

/// `ab`, v1 v2, v3 0, i5, v4 x, `cd`
#[rattlefmt::skip]
pub const VRI_K_PARTS: [Part; 12] = [
    Part { slot: OPCODE, low: 8, width: 8 },
    Part { slot: REG_1, low: 0, width: 4 },
    Part { slot: REG_2, low: 0, width: 4 },
    Part { slot: REG_3, low: 0, width: 4 },
    Part { slot: ZERO, low: 0, width: 4 },
    Part { slot: MASK_1, low: 0, width: 8 },
    Part { slot: REG_4, low: 0, width: 4 },
    Part { slot: REG_1, low: 4, width: 1 },
    Part { slot: REG_2, low: 4, width: 1 },
    Part { slot: REG_3, low: 4, width: 1 },
    Part { slot: REG_4, low: 4, width: 1 },
    Part { slot: OPCODE, low: 0, width: 8 },
];

/// `ab`, v1 v2, 00, m5 m4, m3 x, `cd`
#[rattlefmt::skip]
pub const VRR_A_PARTS: [Part; 12] = [
    Part { slot: OPCODE, low: 8, width: 8 },
    Part { slot: REG_1, low: 0, width: 4 },
    Part { slot: REG_2, low: 0, width: 4 },
    Part { slot: ZERO, low: 0, width: 8 },
    Part { slot: MASK_3, low: 0, width: 4 },
    Part { slot: MASK_2, low: 0, width: 4 },
    Part { slot: MASK_1, low: 0, width: 4 },
    Part { slot: REG_1, low: 4, width: 1 },
    Part { slot: REG_2, low: 4, width: 1 },
    Part { slot: ZERO, low: 0, width: 1 },
    Part { slot: ZERO, low: 0, width: 1 },
    Part { slot: OPCODE, low: 0, width: 8 },
];

/// `ab`, v1 v2, v3 0, m5 0, m4 x, `cd`
#[rattlefmt::skip]
pub const VRR_B_PARTS: [Part; 13] = [
    Part { slot: OPCODE, low: 8, width: 8 },
    Part { slot: REG_1, low: 0, width: 4 },
    Part { slot: REG_2, low: 0, width: 4 },
    Part { slot: REG_3, low: 0, width: 4 },
    Part { slot: ZERO, low: 0, width: 4 },
    Part { slot: MASK_2, low: 0, width: 4 },
    Part { slot: ZERO, low: 0, width: 4 },
    Part { slot: MASK_1, low: 0, width: 4 },
    Part { slot: REG_1, low: 4, width: 1 },
    Part { slot: REG_2, low: 4, width: 1 },
    Part { slot: REG_3, low: 4, width: 1 },
    Part { slot: ZERO, low: 0, width: 1 },
    Part { slot: OPCODE, low: 0, width: 8 },
];

/// `ab`, v1 v2, v3 0, m6 m5, m4 x, `cd`
#[rattlefmt::skip]
pub const VRR_C_PARTS: [Part; 13] = [
    Part { slot: OPCODE, low: 8, width: 8 },
    Part { slot: REG_1, low: 0, width: 4 },
    Part { slot: REG_2, low: 0, width: 4 },
    Part { slot: REG_3, low: 0, width: 4 },
    Part { slot: ZERO, low: 0, width: 4 },
    Part { slot: MASK_3, low: 0, width: 4 },
    Part { slot: MASK_2, low: 0, width: 4 },
    Part { slot: MASK_1, low: 0, width: 4 },
    Part { slot: REG_1, low: 4, width: 1 },
    Part { slot: REG_2, low: 4, width: 1 },
    Part { slot: REG_3, low: 4, width: 1 },
    Part { slot: ZERO, low: 0, width: 1 },
    Part { slot: OPCODE, low: 0, width: 8 },
];

/// `ab`, v1 v2, v3 m5, m6 0, v4 x, `cd`
#[rattlefmt::skip]
pub const VRR_D_PARTS: [Part; 13] = [
    Part { slot: OPCODE, low: 8, width: 8 },
    Part { slot: REG_1, low: 0, width: 4 },
    Part { slot: REG_2, low: 0, width: 4 },
    Part { slot: REG_3, low: 0, width: 4 },
    Part { slot: MASK_1, low: 0, width: 4 },
    Part { slot: MASK_2, low: 0, width: 4 },
    Part { slot: ZERO, low: 0, width: 4 },
    Part { slot: REG_4, low: 0, width: 4 },
    Part { slot: REG_1, low: 4, width: 1 },
    Part { slot: REG_2, low: 4, width: 1 },
    Part { slot: REG_3, low: 4, width: 1 },
    Part { slot: REG_4, low: 4, width: 1 },
    Part { slot: OPCODE, low: 0, width: 8 },
];

/// `ab`, v1 v2, v3 m6, 0 m5, v4 x, `cd`
#[rattlefmt::skip]
pub const VRR_E_PARTS: [Part; 13] = [
    Part { slot: OPCODE, low: 8, width: 8 },
    Part { slot: REG_1, low: 0, width: 4 },
    Part { slot: REG_2, low: 0, width: 4 },
    Part { slot: REG_3, low: 0, width: 4 },
    Part { slot: MASK_2, low: 0, width: 4 },
    Part { slot: ZERO, low: 0, width: 4 },
    Part { slot: MASK_1, low: 0, width: 4 },
    Part { slot: REG_4, low: 0, width: 4 },
    Part { slot: REG_1, low: 4, width: 1 },
    Part { slot: REG_2, low: 4, width: 1 },
    Part { slot: REG_3, low: 4, width: 1 },
    Part { slot: REG_4, low: 4, width: 1 },
    Part { slot: OPCODE, low: 0, width: 8 },
];

/// `ab`, v1 r2, r3 0, 00, 0 x, `cd`
#[rattlefmt::skip]
pub const VRR_F_PARTS: [Part; 12] = [
    Part { slot: OPCODE, low: 8, width: 8 },
    Part { slot: REG_1, low: 0, width: 4 },
    Part { slot: REG_2, low: 0, width: 4 },
    Part { slot: REG_3, low: 0, width: 4 },
    Part { slot: ZERO, low: 0, width: 4 },
    Part { slot: ZERO, low: 0, width: 8 },
    Part { slot: ZERO, low: 0, width: 4 },
    Part { slot: REG_1, low: 4, width: 1 },
    Part { slot: ZERO, low: 0, width: 1 },
    Part { slot: ZERO, low: 0, width: 1 },
    Part { slot: ZERO, low: 0, width: 1 },
    Part { slot: OPCODE, low: 0, width: 8 },
];

/// `ab`, v1 v3, b2 d, m4 x, `cd`
#[rattlefmt::skip]
pub const VRS_A_PARTS: [Part; 11] = [
    Part { slot: OPCODE, low: 8, width: 8 },
    Part { slot: REG_1, low: 0, width: 4 },
    Part { slot: REG_3, low: 0, width: 4 },
    Part { slot: REG_2, low: 0, width: 4 },
    Part { slot: DISPLACEMENT, low: 0, width: 12 },
    Part { slot: MASK_1, low: 0, width: 4 },
    Part { slot: REG_1, low: 4, width: 1 },
    Part { slot: REG_3, low: 4, width: 1 },
    Part { slot: ZERO, low: 0, width: 1 },
    Part { slot: ZERO, low: 0, width: 1 },
    Part { slot: OPCODE, low: 0, width: 8 },
];

/// `ab`, v1 r3, b2 d, m4 x, `cd`
#[rattlefmt::skip]
pub const VRS_B_PARTS: [Part; 11] = [
    Part { slot: OPCODE, low: 8, width: 8 },
    Part { slot: REG_1, low: 0, width: 4 },
    Part { slot: REG_3, low: 0, width: 4 },
    Part { slot: REG_2, low: 0, width: 4 },
    Part { slot: DISPLACEMENT, low: 0, width: 12 },
    Part { slot: MASK_1, low: 0, width: 4 },
    Part { slot: REG_1, low: 4, width: 1 },
    Part { slot: ZERO, low: 0, width: 1 },
    Part { slot: ZERO, low: 0, width: 1 },
    Part { slot: ZERO, low: 0, width: 1 },
    Part { slot: OPCODE, low: 0, width: 8 },
];

/// `ab`, r1 v3, b2 d, m4 x, `cd`
#[rattlefmt::skip]
pub const VRS_C_PARTS: [Part; 11] = [
    Part { slot: OPCODE, low: 8, width: 8 },
    Part { slot: REG_1, low: 0, width: 4 },
    Part { slot: REG_3, low: 0, width: 4 },
    Part { slot: REG_2, low: 0, width: 4 },
    Part { slot: DISPLACEMENT, low: 0, width: 12 },
    Part { slot: MASK_1, low: 0, width: 4 },
    Part { slot: ZERO, low: 0, width: 1 },
    Part { slot: REG_3, low: 4, width: 1 },
    Part { slot: ZERO, low: 0, width: 1 },
    Part { slot: ZERO, low: 0, width: 1 },
    Part { slot: OPCODE, low: 0, width: 8 },
];

/// `ab`, v1 x2, b2 d, m3 x, `cd`
#[rattlefmt::skip]
pub const VRX_PARTS: [Part; 11] = [
    Part { slot: OPCODE, low: 8, width: 8 },
    Part { slot: REG_1, low: 0, width: 4 },
    Part { slot: REG_3, low: 0, width: 4 },
    Part { slot: REG_2, low: 0, width: 4 },
    Part { slot: DISPLACEMENT, low: 0, width: 12 },
    Part { slot: MASK_1, low: 0, width: 4 },
    Part { slot: REG_1, low: 4, width: 1 },
    Part { slot: ZERO, low: 0, width: 1 },
    Part { slot: ZERO, low: 0, width: 1 },
    Part { slot: ZERO, low: 0, width: 1 },
    Part { slot: OPCODE, low: 0, width: 8 },
];

/// The parts of a format, most significant first.
#[tactic(auto, unfolding(crate::specs::Formats::layout_of))]
pub fn layout(kind: FormatKind) -> &'static [Part]
    ensures { result.now ≡ layout_of kind }
{
    match kind {
        FormatKind::E => &E_PARTS,
        FormatKind::RiA => &RI_A_PARTS,
        FormatKind::RiB => &RI_B_PARTS,
        FormatKind::RiC => &RI_C_PARTS,
        FormatKind::RieA => &RIE_A_PARTS,
        FormatKind::RieD => &RIE_D_PARTS,
        FormatKind::RieF => &RIE_F_PARTS,
        FormatKind::RieG => &RIE_G_PARTS,
        FormatKind::RilA => &RIL_A_PARTS,
        FormatKind::RilB => &RIL_B_PARTS,
        FormatKind::RilC => &RIL_C_PARTS,
        FormatKind::Rr => &RR_PARTS,
        FormatKind::Rre => &RRE_PARTS,
        FormatKind::RrfAb => &RRF_AB_PARTS,
        FormatKind::RrfCde => &RRF_CDE_PARTS,
        FormatKind::Rs => &RS_PARTS,
        FormatKind::Rsy => &RSY_PARTS,
        FormatKind::Rx => &RX_PARTS,
        FormatKind::Rxy => &RXY_PARTS,
        FormatKind::Si => &SI_PARTS,
        FormatKind::Sil => &SIL_PARTS,
        FormatKind::Siy => &SIY_PARTS,
        FormatKind::VriA => &VRI_A_PARTS,
        FormatKind::VriB => &VRI_B_PARTS,
        FormatKind::VriC => &VRI_C_PARTS,
        FormatKind::VriK => &VRI_K_PARTS,
        FormatKind::VrrA => &VRR_A_PARTS,
        FormatKind::VrrB => &VRR_B_PARTS,
        FormatKind::VrrC => &VRR_C_PARTS,
        FormatKind::VrrD => &VRR_D_PARTS,
        FormatKind::VrrE => &VRR_E_PARTS,
        FormatKind::VrrF => &VRR_F_PARTS,
        FormatKind::VrsA => &VRS_A_PARTS,
        FormatKind::VrsB => &VRS_B_PARTS,
        FormatKind::VrsC => &VRS_C_PARTS,
        FormatKind::Vrx => &VRX_PARTS,
    }
}

/// How many bytes an instruction of the format has: 2, 4 or 6.
#[tactic(auto, unfolding(crate::specs::Formats::length_of))]
pub fn length(kind: FormatKind) -> usize
    ensures { result ≡ length_of kind }
{
    match kind {
        FormatKind::E | FormatKind::Rr => 2,
        FormatKind::RiA
        | FormatKind::RiB
        | FormatKind::RiC
        | FormatKind::Rre
        | FormatKind::RrfAb
        | FormatKind::RrfCde
        | FormatKind::Rs
        | FormatKind::Rx
        | FormatKind::Si => 4,
        FormatKind::RieA
        | FormatKind::RieD
        | FormatKind::RieF
        | FormatKind::RieG
        | FormatKind::RilA
        | FormatKind::RilB
        | FormatKind::RilC
        | FormatKind::Rsy
        | FormatKind::Rxy
        | FormatKind::Sil
        | FormatKind::Siy
        | FormatKind::VriA
        | FormatKind::VriB
        | FormatKind::VriC
        | FormatKind::VriK
        | FormatKind::VrrA
        | FormatKind::VrrB
        | FormatKind::VrrC
        | FormatKind::VrrD
        | FormatKind::VrrE
        | FormatKind::VrrF
        | FormatKind::VrsA
        | FormatKind::VrsB
        | FormatKind::VrsC
        | FormatKind::Vrx => 6,
    }
}
