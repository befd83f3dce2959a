//! Printing the lines of vector and float instructions.
ghost use Rattle.std.specs.Prelude.{◌≡◌, ◌++◌, OnOk, string_bytes};
ghost use Rattle.s390x_inst.specs.Wholes.{as_whole};
ghost use Rattle.s390x_job_lines.specs.Line.{line_text};
ghost use Rattle.s390x_job_lines.specs.Instructions.{vector_line, whole_line};

use crate::inst_name::VectorName;
use crate::name::LineName;
use crate::name::LineName::Vector;
use crate::put_line::{line0, line2, line3, line4, line5, line6};
use crate::rows::{put_fields, put_vector_rows};
use s390x_inst::{VecInst, vector_table};
use std::alloc::{AllocError, Global};

// Appends the line of a load or a store of a whole vector register.
fn put_whole(alloc: Global, out: &mut String, v: &VecInst) -> Result<(), AllocError>
    ensures { OnOk result
        (string_bytes out.new ≡ string_bytes out.old ++ line_text (whole_line (as_whole v.now))) }
{
    match v.as_whole() {
        Some(whole) => {
            let name = LineName::Whole(whole.direction, whole.layout);
            line2(alloc, out, name, &whole.rd, &whole.mem)
        }
        None => line0(out, LineName::EndLine),
    }
}

/// Appends the line of an instruction on vector or float registers, without the line feed.
pub fn put_vector(alloc: Global, out: &mut String, v: &VecInst) -> Result<(), AllocError>
    ensures { OnOk result
        (string_bytes out.new ≡ string_bytes out.old ++ line_text (vector_line v.now)) }
{
    vector_table!(put_vector_rows, alloc, out, v, put_whole(alloc, out, v))
}
