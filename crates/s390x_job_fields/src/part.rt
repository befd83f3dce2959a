//! The parts of a line: what each prints.
ghost use Rattle.std.specs.Prelude.{◌≡◌, ◌++◌, OnOk, string_bytes};
ghost use Rattle.s390x_job_fields.specs.Fields.{Field, spell};

use std::alloc::{AllocError, Global};

/// A part of a line, as one field.
pub trait Part {
    ghost field: { Self → Field };

    /// Appends the field, with the space before it.
    fn put(&self, alloc: Global, out: &mut String) -> Result<(), AllocError>
        ensures { OnOk result
            (string_bytes out.new ≡ string_bytes out.old ++ spell (field self.now)) };
}
