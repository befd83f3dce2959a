//! Lines of instructions on integers, taken only as they are printed.
ghost use Rattle.std.specs.Prelude.{IfSome};
ghost use Rattle.s390x_job_lines.specs.Instructions.{inst_line};
ghost use Rattle.s390x_job_exact.specs.Exact.{AreFields};

use crate::cursor::ExactCursor;
use crate::rows::{take_fields, take_rows};
use s390x_inst::Inst;
use s390x_job_lines::{IntegerName, LineName};

/// Takes the fields of an operation on two registers with an output of its own.
#[tactic(auto, using(crate::proofs::Lines::four))]
#[inline(never)]
pub fn alu_three(cursor: &mut ExactCursor) -> Option<Inst>
    ensures { IfSome result
        (λ x. AreFields (LineName.Integer IntegerName.AluRRR) (inst_line x) cursor.old) }
{
    take_fields!(AluRRR, cursor, {}, alu_op: alu, rd: written_reg, rn: reg, rm: reg)
}

/// Takes the fields of an operation on a register and a number with an output of its own.
#[tactic(auto, using(crate::proofs::Lines::four))]
#[inline(never)]
fn alu_number(cursor: &mut ExactCursor) -> Option<Inst>
    ensures { IfSome result
        (λ x. AreFields (LineName.Integer IntegerName.AluRRSImm16) (inst_line x) cursor.old) }
{
    take_fields!(AluRRSImm16, cursor, {}, alu_op: alu, rd: written_reg, rn: reg, imm: i16)
}

/// Takes the fields of an operation whose output is its first input, with a register or memory.
#[tactic(auto, using(crate::proofs::Lines::four))]
#[inline(never)]
fn alu_two(name: IntegerName, cursor: &mut ExactCursor) -> Option<Inst>
    ensures { IfSome result (λ x. AreFields (LineName.Integer name) (inst_line x) cursor.old) }
{
    let alu_op = cursor.alu()?;
    let rd = cursor.written_reg()?;
    let ri = cursor.reg()?;
    take_rows!((IntegerName, name, cursor, { alu_op, rd, ri })
        AluRR { rm: reg }
        AluRX { mem: memory }
    )
}

/// Takes the fields of an operation whose output is its first input, with a number.
#[tactic(auto, using(crate::proofs::Lines::four))]
#[inline(never)]
fn alu_immediate(name: IntegerName, cursor: &mut ExactCursor) -> Option<Inst>
    ensures { IfSome result (λ x. AreFields (LineName.Integer name) (inst_line x) cursor.old) }
{
    let alu_op = cursor.alu()?;
    let rd = cursor.written_reg()?;
    let ri = cursor.reg()?;
    take_rows!((IntegerName, name, cursor, { alu_op, rd, ri })
        AluRSImm16 { imm: i16 }
        AluRSImm32 { imm: i32 }
        AluRUImm32 { imm: u32 }
        AluRUImm16Shifted { imm: shifted16 }
        AluRUImm32Shifted { imm: shifted32 }
    )
}

/// Takes the fields of an instruction of this name, where they are a comparison, a register and one more field.
#[tactic(auto, using(crate::proofs::Lines::three))]
#[inline(never)]
fn compare(name: IntegerName, cursor: &mut ExactCursor) -> Option<Inst>
    ensures { IfSome result (λ x. AreFields (LineName.Integer name) (inst_line x) cursor.old) }
{
    let op = cursor.cmp()?;
    let rn = cursor.reg()?;
    take_rows!((IntegerName, name, cursor, { op, rn })
        CmpRR { rm: reg }
        CmpRX { mem: memory }
        CmpRSImm16 { imm: i16 }
        CmpRSImm32 { imm: i32 }
        CmpRUImm32 { imm: u32 }
    )
}

/// Takes the fields of an instruction of this name, where they are a register and one more field.
#[tactic(auto, using(crate::proofs::Lines::two))]
#[inline(never)]
fn move_register(name: IntegerName, cursor: &mut ExactCursor) -> Option<Inst>
    ensures { IfSome result (λ x. AreFields (LineName.Integer name) (inst_line x) cursor.old) }
{
    let rd = cursor.written_reg()?;
    take_rows!((IntegerName, name, cursor, { rd })
        Mov64 { rm: reg }
        Mov32 { rm: reg }
        Mov32Imm { imm: u32 }
        Mov32SImm16 { imm: i16 }
        Mov64SImm16 { imm: i16 }
        Mov64SImm32 { imm: i32 }
        Mov64UImm16Shifted { imm: shifted16 }
        Mov64UImm32Shifted { imm: shifted32 }
    )
}

/// Takes the fields of a shift.
#[tactic(auto, using(crate::proofs::Lines::five))]
#[inline(never)]
fn shift(cursor: &mut ExactCursor) -> Option<Inst>
    ensures { IfSome result
        (λ x. AreFields (LineName.Integer IntegerName.ShiftRR) (inst_line x) cursor.old) }
{
    take_fields!(ShiftRR, cursor, {}, shift_op: shift_op, rd: written_reg, rn: reg, shift_imm: u8, shift_reg: reg)
}

/// Takes the fields of an operation on one register.
#[tactic(auto, using(crate::proofs::Lines::three))]
#[inline(never)]
fn unary(cursor: &mut ExactCursor) -> Option<Inst>
    ensures { IfSome result
        (λ x. AreFields (LineName.Integer IntegerName.UnaryRR) (inst_line x) cursor.old) }
{
    take_fields!(UnaryRR, cursor, {}, op: unary, rd: written_reg, rn: reg)
}

/// Takes the fields of a conditional move.
#[tactic(auto, using(crate::proofs::Lines::four))]
#[inline(never)]
fn conditional_move(name: IntegerName, cursor: &mut ExactCursor) -> Option<Inst>
    ensures { IfSome result (λ x. AreFields (LineName.Integer name) (inst_line x) cursor.old) }
{
    let rd = cursor.written_reg()?;
    let cond = cursor.cond()?;
    let ri = cursor.reg()?;
    take_rows!((IntegerName, name, cursor, { rd, cond, ri })
        CMov32 { rm: reg }
        CMov64 { rm: reg }
        CMov32SImm16 { imm: i16 }
        CMov64SImm16 { imm: i16 }
    )
}

/// Takes the fields of an extension.
#[tactic(auto, using(crate::proofs::Lines::five))]
#[inline(never)]
fn extend(cursor: &mut ExactCursor) -> Option<Inst>
    ensures { IfSome result
        (λ x. AreFields (LineName.Integer IntegerName.Extend) (inst_line x) cursor.old) }
{
    take_fields!(Extend, cursor, {}, rd: written_reg, rn: reg, signed: truth, from_bits: u8, to_bits: u8)
}

/// Takes the fields of an instruction of this name, where it is a less frequent one.
#[inline(always)]
fn other_integer(name: IntegerName, cursor: &mut ExactCursor) -> Option<Inst>
    ensures { IfSome result (λ x. AreFields (LineName.Integer name) (inst_line x) cursor.old) }
{
    match name {
        IntegerName::Extend => extend(cursor),
        IntegerName::CMov32 | IntegerName::CMov64 => conditional_move(name, cursor),
        IntegerName::CMov32SImm16 | IntegerName::CMov64SImm16 => conditional_move(name, cursor),
        _ => move_register(name, cursor),
    }
}

/// Takes the fields of an instruction of this name, where it is a frequent one.
#[inline(always)]
pub fn integer(name: IntegerName, cursor: &mut ExactCursor) -> Option<Inst>
    ensures { IfSome result (λ x. AreFields (LineName.Integer name) (inst_line x) cursor.old) }
{
    match name {
        IntegerName::AluRRR => alu_three(cursor),
        IntegerName::AluRRSImm16 => alu_number(cursor),
        IntegerName::AluRR | IntegerName::AluRX => alu_two(name, cursor),
        IntegerName::AluRSImm16 => alu_immediate(name, cursor),
        IntegerName::AluRSImm32 | IntegerName::AluRUImm32 => alu_immediate(name, cursor),
        IntegerName::AluRUImm16Shifted => alu_immediate(name, cursor),
        IntegerName::AluRUImm32Shifted => alu_immediate(name, cursor),
        IntegerName::CmpRR | IntegerName::CmpRX | IntegerName::CmpRSImm16 => compare(name, cursor),
        IntegerName::CmpRSImm32 | IntegerName::CmpRUImm32 => compare(name, cursor),
        IntegerName::ShiftRR => shift(cursor),
        IntegerName::UnaryRR => unary(cursor),
        _ => other_integer(name, cursor),
    }
}
