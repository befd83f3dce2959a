//! The texts of comparisons.
ghost use Rattle.std.specs.Prelude.{string_bytes};
ghost use Rattle.s390x_text_rows.specs.Texts.{PrintsWhere};
ghost use Rattle.s390x_text_rows.specs.Integer.{compare_text};

use crate::error::TextError;
use crate::mnemonics::{
    cmp_halfword_name, cmp_signed_word_name, cmp_trap_name, cmp_trap_signed_name,
    cmp_trap_unsigned_name, cmp_two_name, cmp_unsigned_word_name,
};
use crate::row::{conditional_row2, row2};
use s390x_inst::{Inst, rows};

/// Appends the text of a comparison of registers and immediates; None for another instruction.
pub fn put_compare(out: &mut String, inst: &Inst) -> Option<Result<(), TextError>>
    ensures { PrintsWhere result (string_bytes out.old) (string_bytes out.new)
        (compare_text inst.now) }
{
    rows! { inst,
        Inst {
            CmpRR { op, rn, rm } => Some(row2(out, cmp_two_name(*op), rn, rm)),
            CmpRSImm16 { op, rn, imm } => Some(row2(out, cmp_halfword_name(*op), rn, imm)),
            CmpRSImm32 { op, rn, imm } => Some(row2(out, cmp_signed_word_name(*op), rn, imm)),
            CmpRUImm32 { op, rn, imm } => Some(row2(out, cmp_unsigned_word_name(*op), rn, imm)),
            CmpTrapRR { op, rn, rm, cond, .. } => Some(conditional_row2(out, cmp_trap_name(*op), *cond, rn, rm)),
            CmpTrapRSImm16 { op, rn, imm, cond, .. } => Some(conditional_row2(out, cmp_trap_signed_name(*op), *cond, rn, imm)),
            CmpTrapRUImm16 { op, rn, imm, cond, .. } => Some(conditional_row2(out, cmp_trap_unsigned_name(*op), *cond, rn, imm)),
        }
        _ => None,
    }
}
