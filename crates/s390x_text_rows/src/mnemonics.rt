//! The mnemonics of integer operators, by the form of their operands: those of the rows that emission chooses.
ghost use Rattle.std.specs.Prelude.{◌≡◌};
ghost use Rattle.std.specs.Option.{option_map};
ghost use Rattle.s390x_format.specs.Stems.{stem_of};
ghost use Rattle.s390x_text_rows.specs.Mnemonics.{alu_two_name, alu_halfword_name, alu_signed_word_name, alu_unsigned_word_name, cmp_two_name, cmp_halfword_name, cmp_signed_word_name, cmp_unsigned_word_name};
ghost use Rattle.s390x_text_rows.specs.Mnemonics.{cmp_trap_name, cmp_trap_signed_name, cmp_trap_unsigned_name, shift_name, rotate_name, rotate_test_name, unary_name};

use s390x_format::stem;
use s390x_inst::{ALUOp, CmpOp, RxSBGOp, ShiftOp, UnaryOp};
use s390x_rows::opcodes;
use s390x_typed_steps::{row_of_shift, row_of_unary, rows_of_alu, rows_of_cmp, rows_of_rotate};

/// The stem of a row that there may be; None where there is none.
pub fn stem_where(opcode: Option<u16>) -> Option<&'static str>
    ensures { option_map (λ s. s.now) result ≡ option_map stem_of opcode }
{
    match opcode {
        Some(opcode) => Some(stem(opcode)),
        None => None,
    }
}

/// Two operands, the first of which is also the output; None where there is no row.
#[tactic(auto, unfolding(crate::specs::Mnemonics::alu_two_name))]
pub fn alu_two_name(op: ALUOp) -> Option<&'static str>
    ensures { option_map (λ s. s.now) result ≡ alu_two_name op }
{
    stem_where(rows_of_alu(op).two)
}

/// A register and an immediate of 16 bits; None where there is no row.
#[tactic(auto, unfolding(crate::specs::Mnemonics::alu_halfword_name))]
pub fn alu_halfword_name(op: ALUOp) -> Option<&'static str>
    ensures { option_map (λ s. s.now) result ≡ alu_halfword_name op }
{
    stem_where(rows_of_alu(op).halfword)
}

/// A register and an immediate of 32 bits, with its sign; None where there is no row.
#[tactic(auto, unfolding(crate::specs::Mnemonics::alu_signed_word_name))]
pub fn alu_signed_word_name(op: ALUOp) -> Option<&'static str>
    ensures { option_map (λ s. s.now) result ≡ alu_signed_word_name op }
{
    stem_where(rows_of_alu(op).signed_word)
}

/// And without a sign; None where there is no row.
#[tactic(auto, unfolding(crate::specs::Mnemonics::alu_unsigned_word_name))]
pub fn alu_unsigned_word_name(op: ALUOp) -> Option<&'static str>
    ensures { option_map (λ s. s.now) result ≡ alu_unsigned_word_name op }
{
    stem_where(rows_of_alu(op).unsigned_word)
}

/// A comparison of two registers; None where there is no row.
#[tactic(auto, unfolding(crate::specs::Mnemonics::cmp_two_name))]
pub fn cmp_two_name(op: CmpOp) -> Option<&'static str>
    ensures { option_map (λ s. s.now) result ≡ cmp_two_name op }
{
    stem_where(rows_of_cmp(op).two)
}

/// Of a register and an immediate of 16 bits; None where there is no row.
#[tactic(auto, unfolding(crate::specs::Mnemonics::cmp_halfword_name))]
pub fn cmp_halfword_name(op: CmpOp) -> Option<&'static str>
    ensures { option_map (λ s. s.now) result ≡ cmp_halfword_name op }
{
    stem_where(rows_of_cmp(op).halfword)
}

/// Of a register and an immediate of 32 bits, with its sign; None where there is no row.
#[tactic(auto, unfolding(crate::specs::Mnemonics::cmp_signed_word_name))]
pub fn cmp_signed_word_name(op: CmpOp) -> Option<&'static str>
    ensures { option_map (λ s. s.now) result ≡ cmp_signed_word_name op }
{
    stem_where(rows_of_cmp(op).signed_word)
}

/// And without a sign; None where there is no row.
#[tactic(auto, unfolding(crate::specs::Mnemonics::cmp_unsigned_word_name))]
pub fn cmp_unsigned_word_name(op: CmpOp) -> Option<&'static str>
    ensures { option_map (λ s. s.now) result ≡ cmp_unsigned_word_name op }
{
    stem_where(rows_of_cmp(op).unsigned_word)
}

/// A comparison of two registers that traps; None where there is no row.
#[tactic(auto, unfolding(crate::specs::Mnemonics::cmp_trap_name))]
pub fn cmp_trap_name(op: CmpOp) -> Option<&'static str>
    ensures { option_map (λ s. s.now) result ≡ cmp_trap_name op }
{
    stem_where(rows_of_cmp(op).trap)
}

/// One with an immediate of 16 bits, with its sign; None where there is no row.
#[tactic(auto, unfolding(crate::specs::Mnemonics::cmp_trap_signed_name))]
pub fn cmp_trap_signed_name(op: CmpOp) -> Option<&'static str>
    ensures { option_map (λ s. s.now) result ≡ cmp_trap_signed_name op }
{
    stem_where(rows_of_cmp(op).trap_signed)
}

/// And without a sign; None where there is no row.
#[tactic(auto, unfolding(crate::specs::Mnemonics::cmp_trap_unsigned_name))]
pub fn cmp_trap_unsigned_name(op: CmpOp) -> Option<&'static str>
    ensures { option_map (λ s. s.now) result ≡ cmp_trap_unsigned_name op }
{
    stem_where(rows_of_cmp(op).trap_unsigned)
}

/// A shift by an amount.
#[tactic(auto, unfolding(crate::specs::Mnemonics::shift_name))]
pub fn shift_name(op: ShiftOp) -> &'static str
    ensures { result.now ≡ shift_name op }
{
    stem(row_of_shift(op))
}

/// Bits that are rotated, and then inserted or combined.
#[tactic(auto, unfolding(crate::specs::Mnemonics::rotate_name))]
pub fn rotate_name(op: RxSBGOp) -> &'static str
    ensures { result.now ≡ rotate_name op }
{
    stem(rows_of_rotate(op).change)
}

/// Or combined to be tested alone; None where there is no row.
pub fn rotate_test_name(op: RxSBGOp) -> Option<&'static str>
    ensures { option_map (λ s. s.now) result ≡ rotate_test_name op }
{
    stem_where(rows_of_rotate(op).test)
}

/// An operator on one register.
#[tactic(auto, unfolding(crate::specs::Mnemonics::unary_name))]
pub fn unary_name(op: UnaryOp) -> &'static str
    ensures { result.now ≡ unary_name op }
{
    match row_of_unary(op) {
        Some(opcode) => stem(opcode),
        None => stem(opcodes::POPCNT),
    }
}
