//! Lines of loads and stores, taken only as they are printed.
ghost use Rattle.std.specs.Prelude.{IfSome};
ghost use Rattle.s390x_job_lines.specs.Instructions.{inst_line};
ghost use Rattle.s390x_job_exact.specs.Exact.{AreFields};

use crate::cursor::ExactCursor;
use crate::rows::{take_fields, take_rows};
use s390x_inst::{Direction, Inst, LoadOp, StoreOp, WholeAccess, WholeLayout};
use s390x_job_lines::{LineName, MemoryName};

/// Takes the fields of an address in a register.
#[tactic(auto, using(crate::proofs::Lines::two))]
#[inline(never)]
fn address(cursor: &mut ExactCursor) -> Option<Inst>
    ensures { IfSome result
        (λ x. AreFields (LineName.Memory MemoryName.LoadAddr) (inst_line x) cursor.old) }
{
    take_fields!(LoadAddr, cursor, {}, rd: written_reg, mem: memory)
}

/// Takes the fields of a store of a number.
#[tactic(auto, using(crate::proofs::Lines::two))]
#[inline(never)]
fn store_number(name: MemoryName, cursor: &mut ExactCursor) -> Option<Inst>
    ensures { IfSome result (λ x. AreFields (LineName.Memory name) (inst_line x) cursor.old) }
{
    take_rows!((MemoryName, name, cursor, {})
        StoreImm8 { imm: u8, mem: memory }
        StoreImm16 { imm: i16, mem: memory }
        StoreImm32SExt16 { imm: i16, mem: memory }
        StoreImm64SExt16 { imm: i16, mem: memory }
    )
}

/// Takes the fields of an instruction of this name, where it is a frequent one.
#[inline(always)]
pub fn memory(name: MemoryName, cursor: &mut ExactCursor) -> Option<Inst>
    ensures { IfSome result (λ x. AreFields (LineName.Memory name) (inst_line x) cursor.old) }
{
    match name {
        MemoryName::StoreImm8 | MemoryName::StoreImm16 => store_number(name, cursor),
        MemoryName::StoreImm32SExt16 => store_number(name, cursor),
        MemoryName::StoreImm64SExt16 => store_number(name, cursor),
        MemoryName::LoadAddr => address(cursor),
        _ => None,
    }
}

/// Takes the fields of a load.
#[inline(never)]
pub fn load(op: LoadOp, cursor: &mut ExactCursor) -> Option<Inst>
    ensures { IfSome result (λ x. AreFields (LineName.Load op) (inst_line x) cursor.old) }
{
    let rd = cursor.written_reg()?;
    let mem = cursor.memory()?;
    cursor.end()?;
    Some(op.instruction(rd, mem))
}

/// Takes the fields of a store.
#[inline(never)]
pub fn store(op: StoreOp, cursor: &mut ExactCursor) -> Option<Inst>
    ensures { IfSome result (λ x. AreFields (LineName.Store op) (inst_line x) cursor.old) }
{
    let rd = cursor.reg()?;
    let mem = cursor.memory()?;
    cursor.end()?;
    Some(op.instruction(rd, mem))
}

/// Takes the fields of a load or a store of a whole vector register.
#[inline(never)]
pub fn whole_register(
    direction: Direction,
    layout: WholeLayout,
    cursor: &mut ExactCursor,
) -> Option<Inst>
    ensures { IfSome result
        (λ x. AreFields (LineName.Whole direction layout) (inst_line x) cursor.old) }
{
    let rd = cursor.reg()?;
    let mem = cursor.memory()?;
    cursor.end()?;
    let access = WholeAccess {
        direction,
        layout,
        rd,
        mem,
    };
    Some(Inst::Vector(access.instruction()))
}
