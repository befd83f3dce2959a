//! Moves, insertions, extensions and conditional moves that are one machine instruction.
ghost use Rattle.std.specs.Prelude.{◌≡◌, ◌<◌, ◌&&◌, true, Some};
ghost use Rattle.std.specs.Option.{option_map};
ghost use Rattle.s390x_base.specs.Regs.{number_of};
ghost use Rattle.s390x_rows.specs.declared.opcodes.TheConstants as opcodes;
ghost use Rattle.s390x_typed_steps.specs.General.{is_general, is_access, reuses, four_bits, low_halfword, low_displacement};
ghost use Rattle.s390x_typed_steps.specs.MachineInstruction.{rr, rrf_cde, rie_g};
ghost use Rattle.s390x_typed_steps.specs.Opcodes.{load_part, load_half, insert_part, insert_half, extend_two, indexed_opcode, logical_indexed_opcode};
ghost use Rattle.s390x_typed_steps.specs.SingleCode.{code_where, single_code};
ghost use Rattle.s390x_typed_steps.specs.SingleInstruction.{single_instruction, single_with, two_operands, indexed_row};
ghost use Rattle.s390x_emit_rows.specs.SingleInstruction.{opcode_of, takes_general, implies};

use crate::codes::{
    always, conditional_halfword, indexed_code, masked_code, short_where, two_operands,
};
use crate::encode::{encode_ril_into, encode_signed_ri_into, encode_signed_ril_into};
use crate::opcode::ShortOpcode;
use crate::registers::{is_access, is_reused, three_general};
use s390x_address::general;
use s390x_base::{Code, Cond, EmitError, Reg, SImm20, Writable, gpr};
use s390x_inst::Inst;
use s390x_rows::opcodes;
use s390x_typed_steps::{
    INSERT_HALVES, INSERT_PARTS, LOAD_HALVES, LOAD_PARTS, bits_of_halfword, bits_of_unsigned,
    row_of_extension, row_of_index, row_of_logical_index, row_of_part,
};

/// The opcode of a load of a part of 16 bits. None where there is none.
#[tactic(auto, using(crate::proofs::Opcodes::load_part_short))]
pub fn load_part(shift: u8) -> Option<ShortOpcode>
    ensures { option_map opcode_of result ≡ load_part shift }
{
    short_where(row_of_part(LOAD_PARTS, shift))
}

/// The opcode of a load of a half of 32 bits. None where there is none.
#[tactic(auto, using(crate::proofs::Opcodes::load_half_short))]
pub fn load_half(shift: u8) -> Option<ShortOpcode>
    ensures { option_map opcode_of result ≡ load_half shift }
{
    short_where(row_of_part(LOAD_HALVES, shift))
}

/// The opcode that puts a part of 16 bits into a register. None where there is none.
#[tactic(auto, using(crate::proofs::Opcodes::insert_part_short))]
pub fn insert_part(shift: u8) -> Option<ShortOpcode>
    ensures { option_map opcode_of result ≡ insert_part shift }
{
    short_where(row_of_part(INSERT_PARTS, shift))
}

/// The opcode that puts a half of 32 bits into a register. None where there is none.
#[tactic(auto, using(crate::proofs::Opcodes::insert_half_short))]
pub fn insert_half(shift: u8) -> Option<ShortOpcode>
    ensures { option_map opcode_of result ≡ insert_half shift }
{
    short_where(row_of_part(INSERT_HALVES, shift))
}

/// The opcode of an extension.
#[tactic(auto, using(crate::proofs::Opcodes::extend_general))]
pub fn extend_opcode(signed: bool, from: u8, to: u8) -> Option<u16>
    ensures value { result ≡ extend_two signed from to }
    ensures general { takes_general result ≡ true }
{
    row_of_extension(signed, from, to)
}

/// The opcode of the address of an element whose index has a sign, by the element's size in powers of two. None where
/// it has none.
#[tactic(auto, using(crate::proofs::Opcodes::indexed_general))]
pub fn indexed_opcode(size: u8) -> Option<u16>
    ensures value { result ≡ indexed_opcode size }
    ensures general { takes_general result ≡ true }
{
    row_of_index(size)
}

/// The opcode of the address of an element whose index has no sign, by the element's size in powers of two. None
/// where it has none.
#[tactic(auto, using(crate::proofs::Opcodes::logical_indexed_general))]
pub fn logical_indexed_opcode(size: u8) -> Option<u16>
    ensures value { result ≡ logical_indexed_opcode size }
    ensures general { takes_general result ≡ true }
{
    row_of_logical_index(size)
}

// EXTRACT ACCESS; its second field is the access register's number.
#[tactic(auto, using(crate::proofs::Encoding::with_access))]
fn extract_access(valid: bool, rd: Reg, ar: u8) -> Result<Code, EmitError>
    requires { implies valid (is_general rd) ≡ true }
    ensures { result ≡ code_where valid (two_operands opcodes.EAR (number_of rd) (four_bits ar)) }
{
    two_operands(valid, opcodes::EAR, rd, gpr(ar % 16))
}

/// The load of an access register. There is always a row; `BadRegister` comes where the register is not general, or
/// there is no such access register.
#[tactic(auto, using(crate::proofs::Encoding::first_general))]
pub fn load_access_row(rd: &Writable<Reg>, ar: u8) -> Option<Result<Code, EmitError>>
    ensures { result
        ≡ single_code
        (single_with (is_general rd.now && is_access ar)
        (Some (two_operands opcodes.EAR (number_of rd.now) (four_bits ar)))) }
{
    let output = rd.to_reg();
    Some(extract_access(general(&output) && is_access(ar), output, ar))
}

/// The code that puts an access register into a register that is read too; `BadRegister` where the input isn't the
/// output, or one is not general.
#[tactic(auto, using(crate::proofs::Encoding::reused_tested_general))]
pub fn insert_access_row(rd: &Writable<Reg>, ri: &Reg, ar: u8) -> Option<Result<Code, EmitError>>
    ensures { result
        ≡ single_code
        (single_with (reuses rd.now ri.now && is_access ar)
        (Some (two_operands opcodes.EAR (number_of rd.now) (four_bits ar)))) }
{
    let output = rd.to_reg();
    Some(extract_access(is_reused(&output, ri) && is_access(ar), output, ar))
}

/// A move under a condition, into a register that is read too. None where there is no row; `BadRegister` comes where
/// a register is not general, or an input that has to be the output isn't it.
#[tactic(auto, using(crate::proofs::Encoding::reused_pair_general))]
pub fn conditional_row(
    opcode: u16,
    rd: &Writable<Reg>,
    ri: &Reg,
    rm: &Reg,
    cond: Cond,
) -> Option<Result<Code, EmitError>>
    ensures { result
        ≡ single_code
        (single_with (reuses rd.now ri.now && is_general rm.now)
        (Some (rrf_cde opcode (number_of rd.now) (number_of rm.now) (four_bits cond) 0))) }
{
    let output = rd.to_reg();
    Some(masked_code(
        is_reused(&output, ri) && general(rm),
        opcode,
        output,
        *rm,
        cond.bits(),
    ))
}

/// A load of an immediate under a condition, into a register that is read too. None where there is no row;
/// `BadRegister` comes where a register is not general, or an input that has to be the output isn't it.
#[tactic(auto, using(crate::proofs::Encoding::reused_general))]
fn conditional_immediate_row(
    opcode: u16,
    rd: &Writable<Reg>,
    ri: &Reg,
    imm: &i16,
    cond: Cond,
) -> Option<Result<Code, EmitError>>
    ensures { result
        ≡ single_code
        (single_with (reuses rd.now ri.now)
        (Some (rie_g opcode (number_of rd.now) (low_halfword imm.now) (four_bits cond)))) }
{
    let output = rd.to_reg();
    Some(conditional_halfword(
        is_reused(&output, ri),
        opcode,
        output,
        bits_of_halfword(*imm),
        cond.bits(),
    ))
}

/// A move of an immediate into a word under a condition. `BadRegister` comes where the input that has to be the output
/// isn't it.
pub fn conditional_word(
    rd: &Writable<Reg>,
    cond: Cond,
    ri: &Reg,
    imm: &i16,
) -> Option<Result<Code, EmitError>>
    ensures { (i : _) → i ≡ Inst.CMov32SImm16 rd.now cond ri.now imm.now
        → result ≡ single_code (single_instruction i) }
{
    conditional_immediate_row(opcodes::LOCHI, rd, ri, imm, cond)
}

/// A move of an immediate into a doubleword under a condition. `BadRegister` comes where the input that has to be the
/// output isn't it.
pub fn conditional_doubleword(
    rd: &Writable<Reg>,
    cond: Cond,
    ri: &Reg,
    imm: &i16,
) -> Option<Result<Code, EmitError>>
    ensures { (i : _) → i ≡ Inst.CMov64SImm16 rd.now cond ri.now imm.now
        → result ≡ single_code (single_instruction i) }
{
    conditional_immediate_row(opcodes::LOCGHI, rd, ri, imm, cond)
}

/// An immediate becomes a word. `BadRegister` comes where the register is not general.
pub fn set_word(rd: &Writable<Reg>, imm: u32) -> Option<Result<Code, EmitError>>
    ensures { (i : _) → i ≡ Inst.Mov32Imm rd.now imm
        → result ≡ single_code (single_instruction i) }
{
    encode_ril_into(always(opcodes::IILF), rd, bits_of_unsigned(imm))
}

/// A signed immediate of 16 bits becomes a word. `BadRegister` comes where the register is not general.
pub fn set_short_word(rd: &Writable<Reg>, imm: &i16) -> Option<Result<Code, EmitError>>
    ensures { (i : _) → i ≡ Inst.Mov32SImm16 rd.now imm.now
        → result ≡ single_code (single_instruction i) }
{
    encode_signed_ri_into(always(opcodes::LHI), rd, imm)
}

/// A signed immediate of 16 bits becomes a doubleword. `BadRegister` comes where the register is not general.
pub fn set_short_doubleword(rd: &Writable<Reg>, imm: &i16) -> Option<Result<Code, EmitError>>
    ensures { (i : _) → i ≡ Inst.Mov64SImm16 rd.now imm.now
        → result ≡ single_code (single_instruction i) }
{
    encode_signed_ri_into(always(opcodes::LGHI), rd, imm)
}

/// A signed immediate of 32 bits becomes a doubleword. `BadRegister` comes where the register is not general.
pub fn set_doubleword(rd: &Writable<Reg>, imm: &i32) -> Option<Result<Code, EmitError>>
    ensures { (i : _) → i ≡ Inst.Mov64SImm32 rd.now imm.now
        → result ≡ single_code (single_instruction i) }
{
    encode_signed_ril_into(always(opcodes::LGFI), rd, imm)
}

/// An indexed address, where there is a row. None where there is no row; `BadRegister` comes where a register is not
/// general, or an input that has to be the output isn't it.
#[tactic(auto, using(crate::proofs::Encoding::itself))]
pub fn indexed_row(
    opcode: Option<u16>,
    rd: &Writable<Reg>,
    base: &Reg,
    index: &Reg,
    displacement: SImm20,
) -> Option<Result<Code, EmitError>>
    requires { takes_general opcode ≡ true }
    ensures { result
        ≡ single_code
        (single_with (is_general rd.now && is_general base.now && is_general index.now)
        (indexed_row opcode (number_of rd.now) (number_of base.now) (number_of index.now)
        (low_displacement displacement))) }
{
    let output = rd.to_reg();
    match opcode {
        Some(opcode) => Some(indexed_code(
            three_general(&output, base, index),
            opcode,
            output,
            *base,
            *index,
            displacement,
        )),
        None => None,
    }
}

/// BRANCH ON CONDITION that doesn't branch: to no address, or under a mask of zeros. There is always a row and never
/// an error.
pub fn branch_nowhere(mask: u8, target: u8) -> Option<Result<Code, EmitError>>
    requires mask { mask < 16 }
    requires target { target < 16 }
    ensures { result ≡ single_code (single_with true (Some (rr opcodes.BCR mask target))) }
{
    Some(two_operands(true, opcodes::BCR, gpr(mask), gpr(target)))
}
