//! The sum of an address: a base and an index.
ghost use Rattle.std.specs.Prelude.{◌≡◌, ◌++◌, OnOk, string_bytes};
ghost use Rattle.s390x_text_rows.specs.Storage.{sum_text};

use crate::operand::is_zero;
use crate::piece::put;
use crate::register_names::put_reg;
use s390x_base::Reg;
use s390x_job_fields::number::put_char;
use std::alloc::AllocError;

/// Appends a base and an index behind a displacement.
#[inline(always)]
pub fn put_sum(out: &mut String, base: &Reg, index: &Reg) -> Result<(), AllocError>
    ensures { OnOk result
        (string_bytes out.new ≡ string_bytes out.old ++ sum_text base.now index.now) }
{
    if is_zero(base) {
        if is_zero(index) {
            return Ok(());
        }
        put_char(out, '(')?;
        put_reg(out, index)?;
        return put(out, ",)");
    }
    put_char(out, '(')?;
    if is_zero(index) {
        put_reg(out, base)?;
        return put_char(out, ')');
    }
    put_reg(out, index)?;
    put_char(out, ',')?;
    put_reg(out, base)?;
    put_char(out, ')')
}
