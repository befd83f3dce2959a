//! The machine rows of moves, extensions and indexed addresses (cranelift-codegen, `emit.rs`).
ghost use Rattle.std.specs.Prelude.{◌≡◌, cond};
ghost use Rattle.s390x_typed_steps.specs.Opcodes.{extend_to_word, extend_to_doubleword, extend_two, indexed_opcode, logical_indexed_opcode, of_size};

use crate::operator_rows::PartRows;
use s390x_rows::opcodes;

/// The opcodes of an extension with its sign, and without (RR, RRE).
#[derive(Clone, Copy)]
pub struct ExtendRows {
    pub signed: u16,
    pub unsigned: u16,
}

/// A load of an immediate at a part of 16 bits, into a register that is zero elsewhere (RI).
pub const LOAD_PARTS: PartRows = PartRows::Four(
    opcodes::LLILL,
    opcodes::LLILH,
    opcodes::LLIHL,
    opcodes::LLIHH,
);

/// A load of an immediate at a half of 32 bits, into a register that is zero elsewhere (RIL).
pub const LOAD_HALVES: PartRows = PartRows::Two(opcodes::LLILF, opcodes::LLIHF);

/// An immediate at a part of 16 bits, in a register that is left elsewhere (RI).
pub const INSERT_PARTS: PartRows = PartRows::Four(
    opcodes::IILL,
    opcodes::IILH,
    opcodes::IIHL,
    opcodes::IIHH,
);

/// An immediate at a half of 32 bits, in a register that is left elsewhere (RIL).
pub const INSERT_HALVES: PartRows = PartRows::Two(opcodes::IILF, opcodes::IIHF);

/// A byte becomes a number of 32 bits.
pub const BYTE_TO_WORD: ExtendRows = ExtendRows {
    signed: opcodes::LBR,
    unsigned: opcodes::LLCR,
};

/// So does one of 16 bits.
pub const HALFWORD_TO_WORD: ExtendRows = ExtendRows {
    signed: opcodes::LHR,
    unsigned: opcodes::LLHR,
};

/// A byte becomes a number of 64 bits.
pub const BYTE_TO_DOUBLEWORD: ExtendRows = ExtendRows {
    signed: opcodes::LGBR,
    unsigned: opcodes::LLGCR,
};

/// So does one of 16 bits.
pub const HALFWORD_TO_DOUBLEWORD: ExtendRows = ExtendRows {
    signed: opcodes::LGHR,
    unsigned: opcodes::LLGHR,
};

/// So does one of 32 bits.
pub const WORD_TO_DOUBLEWORD: ExtendRows = ExtendRows {
    signed: opcodes::LGFR,
    unsigned: opcodes::LLGFR,
};

/// The address of an element, by its size of 2, 4, 8 or 16 bytes, where the index has a sign (RXY).
pub const INDEXED_ROWS: [u16; 4] = [opcodes::LXAH, opcodes::LXAF, opcodes::LXAG, opcodes::LXAQ];

/// The address of an element, by its size of 2, 4, 8 or 16 bytes, where the index has no sign (RXY).
pub const LOGICAL_INDEXED_ROWS: [u16; 4] = [
    opcodes::LLXAH,
    opcodes::LLXAF,
    opcodes::LLXAG,
    opcodes::LLXAQ,
];

fn with_sign(rows: ExtendRows, signed: bool) -> u16
    ensures { result ≡ cond signed rows.signed rows.unsigned }
{
    if signed { rows.signed } else { rows.unsigned }
}

fn row_to_word(signed: bool, from: u8) -> Option<u16>
    ensures { result ≡ extend_to_word signed from }
{
    match from {
        1 => Some(BYTE_TO_WORD.signed),
        8 => Some(with_sign(BYTE_TO_WORD, signed)),
        16 => Some(with_sign(HALFWORD_TO_WORD, signed)),
        _ => None,
    }
}

fn row_to_doubleword(signed: bool, from: u8) -> Option<u16>
    ensures { result ≡ extend_to_doubleword signed from }
{
    match from {
        1 => Some(BYTE_TO_DOUBLEWORD.signed),
        8 => Some(with_sign(BYTE_TO_DOUBLEWORD, signed)),
        16 => Some(with_sign(HALFWORD_TO_DOUBLEWORD, signed)),
        32 => Some(with_sign(WORD_TO_DOUBLEWORD, signed)),
        _ => None,
    }
}

/// The row of an extension of a number of so many bits to one of so many; one bit counts as a byte with its sign. None where
/// there is none.
pub fn row_of_extension(signed: bool, from: u8, to: u8) -> Option<u16>
    ensures { result ≡ extend_two signed from to }
{
    match to {
        32 => row_to_word(signed, from),
        64 => row_to_doubleword(signed, from),
        _ => None,
    }
}

fn row_of_size(rows: &[u16; 4], size: u8) -> Option<u16>
    ensures { result ≡ of_size rows.now size }
{
    match size {
        1 => Some(rows[0]),
        2 => Some(rows[1]),
        3 => Some(rows[2]),
        4 => Some(rows[3]),
        _ => None,
    }
}

/// The row of the address of an element whose index has a sign, by the element's size in powers of two. None where there is none.
pub fn row_of_index(size: u8) -> Option<u16>
    ensures { result ≡ indexed_opcode size }
{
    row_of_size(&INDEXED_ROWS, size)
}

/// The row of the address of an element whose index has no sign, by the element's size in powers of two. None where there is
/// none.
pub fn row_of_logical_index(size: u8) -> Option<u16>
    ensures { result ≡ logical_indexed_opcode size }
{
    row_of_size(&LOGICAL_INDEXED_ROWS, size)
}
