//! The texts of moves, and of addresses that are summed.
ghost use Rattle.std.specs.Prelude.{◌≡◌, string_bytes};
ghost use Rattle.std.specs.Option.{option_map};
ghost use Rattle.s390x_text_rows.specs.Texts.{PrintsWhere};
ghost use Rattle.s390x_text_rows.specs.Integer.{move_text, extend_name, indexed_name, logical_indexed_name};

use crate::arithmetic::reused_operand;
use crate::error::TextError;
use crate::mnemonics::stem_where;
use crate::operand::{AccessRegister, Indexed};
use crate::row::{conditional2, fixed2, row2};
use s390x_base::{Reg, SImm20};
use s390x_inst::{Inst, rows};
use s390x_typed_steps::{
    INSERT_HALVES, INSERT_PARTS, LOAD_HALVES, LOAD_PARTS, row_of_extension, row_of_index,
    row_of_logical_index, row_of_part,
};

fn extend_name(signed: bool, from: u8, to: u8) -> Option<&'static str>
    ensures { option_map (λ s. s.now) result ≡ extend_name signed from to }
{
    stem_where(row_of_extension(signed, from, to))
}

fn indexed_name(size: u8) -> Option<&'static str>
    ensures { option_map (λ s. s.now) result ≡ indexed_name size }
{
    stem_where(row_of_index(size))
}

fn logical_indexed_name(size: u8) -> Option<&'static str>
    ensures { option_map (λ s. s.now) result ≡ logical_indexed_name size }
{
    stem_where(row_of_logical_index(size))
}

fn indexed_operand(offset: &SImm20, index: &Reg, base: &Reg) -> Indexed
    ensures { result ≡ record { offset = offset.now; index = index.now; base = base.now } }
{
    Indexed {
        offset: *offset,
        index: *index,
        base: *base,
    }
}

/// Appends the text of a move, or of an address that is summed; None for another instruction.
pub fn put_move(out: &mut String, inst: &Inst) -> Option<Result<(), TextError>>
    ensures { PrintsWhere result (string_bytes out.old) (string_bytes out.new)
        (move_text inst.now) }
{
    rows! { inst,
        Inst {
            Mov64 { rd, rm } => Some(fixed2(out, "lgr", rd, rm)),
            MovPReg { rd, rm } => Some(fixed2(out, "lgr", rd, rm)),
            Mov32 { rd, rm } => Some(fixed2(out, "lr", rd, rm)),
            Mov32Imm { rd, imm } => Some(fixed2(out, "iilf", rd, imm)),
            Mov32SImm16 { rd, imm } => Some(fixed2(out, "lhi", rd, imm)),
            Mov64SImm16 { rd, imm } => Some(fixed2(out, "lghi", rd, imm)),
            Mov64SImm32 { rd, imm } => Some(fixed2(out, "lgfi", rd, imm)),
            Mov64UImm16Shifted { rd, imm } => Some(row2(out, stem_where(row_of_part(LOAD_PARTS, imm.shift)), rd, imm)),
            Mov64UImm32Shifted { rd, imm } => Some(row2(out, stem_where(row_of_part(LOAD_HALVES, imm.shift)), rd, imm)),
            Insert64UImm16Shifted { rd, ri, imm } =>
                Some(row2(out, stem_where(row_of_part(INSERT_PARTS, imm.shift)), &reused_operand(rd, ri), imm)),
            Insert64UImm32Shifted { rd, ri, imm } =>
                Some(row2(out, stem_where(row_of_part(INSERT_HALVES, imm.shift)), &reused_operand(rd, ri), imm)),
            CMov32 { rd, cond, ri, rm } => Some(conditional2(out, "locr", *cond, &reused_operand(rd, ri), rm)),
            CMov64 { rd, cond, ri, rm } => Some(conditional2(out, "locgr", *cond, &reused_operand(rd, ri), rm)),
            CMov32SImm16 { rd, cond, ri, imm } => Some(conditional2(out, "lochi", *cond, &reused_operand(rd, ri), imm)),
            CMov64SImm16 { rd, cond, ri, imm } => Some(conditional2(out, "locghi", *cond, &reused_operand(rd, ri), imm)),
            Extend { rd, rn, signed, from_bits, to_bits } => Some(row2(out, extend_name(*signed, *from_bits, *to_bits), rd, rn)),
            LoadAR { rd, ar } => Some(fixed2(out, "ear", rd, &AccessRegister(*ar))),
            InsertAR { rd, ri, ar } => Some(fixed2(out, "ear", &reused_operand(rd, ri), &AccessRegister(*ar))),
            LoadIndexedAddr { rd, base, index, offset, size } =>
                Some(row2(out, indexed_name(*size), rd, &indexed_operand(offset, index, base))),
            LoadLogicalIndexedAddr { rd, base, index, offset, size } =>
                Some(row2(out, logical_indexed_name(*size), rd, &indexed_operand(offset, index, base))),
        }
        _ => None,
    }
}
