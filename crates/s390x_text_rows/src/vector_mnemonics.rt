//! The mnemonics of vector operators, and of loads and stores of whole registers, by their rows.
ghost use Rattle.std.specs.Prelude.{◌≡◌, ◌++◌, OnOk, string_bytes};
ghost use Rattle.s390x_text_rows.specs.VectorMnemonics.{letters_text, mnemonic_text, size_letter, sized_mnemonic, binary_letters, whole_letters, vec_binary_name, vec_unary_name, vec_shift_name, vec_compare_name, vec_element_compare_name, whole_name};

use crate::piece::put;
use s390x_inst::{
    Direction, VecBinaryOp, VecIntCmpOp, VecIntEltCmpOp, VecShiftOp, VecUnaryOp, WholeLayout,
};
use s390x_typed_steps::{
    VectorOpcode, row_of_vec_binary, row_of_vec_comparison, row_of_vec_element_comparison,
    row_of_vec_shift, row_of_vec_unary, rows_of_layout,
};
use std::alloc::AllocError;

/// What stands behind a stem.
#[derive(Clone, Copy)]
pub enum Letters {
    Empty,
    B,
    H,
    F,
    G,
    Q,
    Hw,
}

/// A mnemonic in two parts.
#[derive(Clone, Copy)]
pub struct Mnemonic {
    /// The opcode of a machine row, whose stem it begins with.
    pub opcode: u16,
    pub letters: Letters,
}

/// Appends letters, each by a literal, which is copied without a call.
pub fn put_letters(out: &mut String, letters: Letters) -> Result<(), AllocError>
    ensures { OnOk result (string_bytes out.new ≡ string_bytes out.old ++ letters_text letters) }
{
    match letters {
        Letters::Empty => Ok(()),
        Letters::B => put(out, "b"),
        Letters::H => put(out, "h"),
        Letters::F => put(out, "f"),
        Letters::G => put(out, "g"),
        Letters::Q => put(out, "q"),
        Letters::Hw => put(out, "hw"),
    }
}

// The letter of the elements' size, by its code.
fn size_letter(code: u8) -> Letters
    ensures { letters_text result ≡ size_letter code }
{
    match code {
        0 => Letters::B,
        1 => Letters::H,
        2 => Letters::F,
        3 => Letters::G,
        _ => Letters::Q,
    }
}

// A row's stem with this letter.
fn sized_mnemonic(row: VectorOpcode) -> Mnemonic
    ensures { mnemonic_text result ≡ sized_mnemonic row }
{
    Mnemonic {
        opcode: row.opcode,
        letters: size_letter(row.code),
    }
}

// What stands behind the stem: nothing where the row has one size alone, and `hw` where `h` would make another row's stem.
fn binary_letters(op: VecBinaryOp, code: u8) -> Letters
    ensures { letters_text result ≡ binary_letters op code }
{
    match op {
        VecBinaryOp::Mul16x8 => Letters::Hw,
        VecBinaryOp::Add128Cout
        | VecBinaryOp::Sub128Cout
        | VecBinaryOp::And128
        | VecBinaryOp::Orr128
        | VecBinaryOp::Xor128
        | VecBinaryOp::NotAnd128
        | VecBinaryOp::NotOrr128
        | VecBinaryOp::NotXor128
        | VecBinaryOp::AndNot128
        | VecBinaryOp::OrrNot128
        | VecBinaryOp::BitPermute128
        | VecBinaryOp::LShLByByte128
        | VecBinaryOp::LShRByByte128
        | VecBinaryOp::AShRByByte128
        | VecBinaryOp::LShLByBit128
        | VecBinaryOp::LShRByBit128
        | VecBinaryOp::AShRByBit128 => Letters::Empty,
        _ => size_letter(code),
    }
}

/// An operator on two vectors.
#[tactic(auto, unfolding(crate::specs::VectorMnemonics::vec_binary_name))]
pub fn vec_binary_name(op: VecBinaryOp) -> Mnemonic
    ensures { mnemonic_text result ≡ vec_binary_name op }
{
    let row = row_of_vec_binary(op);
    Mnemonic {
        opcode: row.opcode,
        letters: binary_letters(op, row.code),
    }
}

/// An operator on one vector.
#[tactic(auto, unfolding(crate::specs::VectorMnemonics::vec_unary_name))]
pub fn vec_unary_name(op: VecUnaryOp) -> Mnemonic
    ensures { mnemonic_text result ≡ vec_unary_name op }
{
    sized_mnemonic(row_of_vec_unary(op))
}

/// Lanes that are shifted by an amount.
#[tactic(auto, unfolding(crate::specs::VectorMnemonics::vec_shift_name))]
pub fn vec_shift_name(op: VecShiftOp) -> Mnemonic
    ensures { mnemonic_text result ≡ vec_shift_name op }
{
    sized_mnemonic(row_of_vec_shift(op))
}

/// A comparison of lanes.
#[tactic(auto, unfolding(crate::specs::VectorMnemonics::vec_compare_name))]
pub fn vec_compare_name(op: VecIntCmpOp) -> Mnemonic
    ensures { mnemonic_text result ≡ vec_compare_name op }
{
    sized_mnemonic(row_of_vec_comparison(op))
}

/// A comparison of two numbers of 128 bits.
#[tactic(auto, unfolding(crate::specs::VectorMnemonics::vec_element_compare_name))]
pub fn vec_element_compare_name(op: VecIntEltCmpOp) -> Mnemonic
    ensures { mnemonic_text result ≡ vec_element_compare_name op }
{
    sized_mnemonic(row_of_vec_element_comparison(op))
}

// What stands behind the stem of a load or a store of a whole register: nothing where its row has one size alone.
fn whole_letters(mask: u8) -> Letters
    ensures { letters_text result ≡ whole_letters mask }
{
    if mask == 0 {
        Letters::Empty
    } else {
        size_letter(mask)
    }
}

/// A load or a store of a whole register.
#[inline(always)]
#[tactic(auto, unfolding(crate::specs::VectorMnemonics::whole_name))]
pub fn whole_name(direction: Direction, layout: WholeLayout) -> Mnemonic
    ensures { mnemonic_text result ≡ whole_name direction layout }
{
    let rows = rows_of_layout(layout);
    let opcode = match direction {
        Direction::Load => rows.load_opcode,
        Direction::Store => rows.store_opcode,
    };
    Mnemonic {
        opcode,
        letters: whole_letters(rows.mask),
    }
}
