//! Reading the fields of integer instructions.
ghost use Rattle.std.specs.Prelude.{◌≡◌};
ghost use Rattle.s390x_job_lines.specs.Line.{line_with};
ghost use Rattle.s390x_job_lines.specs.Instructions.{inst_line};

use crate::inst_name::IntegerName;
use crate::name::LineName;
use crate::rows::{read_field, read_group, read_rows};
use s390x_inst::{Inst, inst_table};
use s390x_job_fields::Cursor;

/// The instruction of this name, whose fields come next.
pub fn integer(name: IntegerName, c: &mut Cursor) -> Inst
    ensures { inst_line result ≡ line_with (LineName.Integer name) c.old }
{
    inst_table!(read_rows, IntegerName, name, c)
}
