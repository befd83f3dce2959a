//! Reading the fields of vector and float instructions.
ghost use Rattle.std.specs.Prelude.{◌≡◌};
ghost use Rattle.s390x_job_lines.specs.Line.{line_with};
ghost use Rattle.s390x_job_lines.specs.Instructions.{vector_line};

use crate::inst_name::VectorName;
use crate::name::LineName;
use crate::rows::{read_field, read_group, read_rows};
use s390x_inst::{Direction, VecInst, WholeAccess, WholeLayout, vector_table};
use s390x_job_fields::Cursor;

/// The instruction of this name, whose fields come next.
pub fn vector(name: VectorName, c: &mut Cursor) -> VecInst
    ensures { vector_line result ≡ line_with (LineName.Vector name) c.old }
{
    vector_table!(read_rows, VectorName, name, c)
}

/// The load or the store of a whole vector register, whose fields come next.
#[tactic(auto, using(crate::proofs::AccessLines::is_whole_line))]
pub fn whole_register(direction: Direction, layout: WholeLayout, c: &mut Cursor) -> VecInst
    ensures { vector_line result ≡ line_with (LineName.Whole direction layout) c.old }
{
    let rd = c.reg();
    let mem = c.memory();
    let access = WholeAccess {
        direction,
        layout,
        rd,
        mem,
    };
    access.instruction()
}
