//! Reading the fields of memory instructions.
ghost use Rattle.std.specs.Prelude.{◌≡◌};
ghost use Rattle.s390x_job_lines.specs.Line.{line_with};
ghost use Rattle.s390x_job_lines.specs.Instructions.{inst_line};

use crate::inst_name::MemoryName;
use crate::name::LineName;
use crate::rows::{read_field, read_group, read_rows};
use s390x_inst::{Inst, LoadOp, StoreOp, inst_table};
use s390x_job_fields::Cursor;

/// The instruction of this name, whose fields come next.
pub fn memory(name: MemoryName, c: &mut Cursor) -> Inst
    ensures { inst_line result ≡ line_with (LineName.Memory name) c.old }
{
    inst_table!(read_rows, MemoryName, name, c)
}

/// The load, whose fields come next.
#[tactic(auto, using(crate::proofs::AccessLines::is_load_line))]
pub fn load(op: LoadOp, c: &mut Cursor) -> Inst
    ensures { inst_line result ≡ line_with (LineName.Load op) c.old }
{
    let rd = c.written_reg();
    let mem = c.memory();
    op.instruction(rd, mem)
}

/// The store, whose fields come next.
#[tactic(auto, using(crate::proofs::AccessLines::is_store_line))]
pub fn store(op: StoreOp, c: &mut Cursor) -> Inst
    ensures { inst_line result ≡ line_with (LineName.Store op) c.old }
{
    let rd = c.reg();
    let mem = c.memory();
    op.instruction(rd, mem)
}
