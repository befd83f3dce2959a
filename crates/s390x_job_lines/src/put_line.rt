//! How a line is put together.
ghost use Rattle.std.specs.Prelude.{◌≡◌, ◌++◌, ◌∷◌, [], OnOk, string_bytes};
ghost use Rattle.s390x_job_lines.specs.Line.{line_text};

use crate::name::LineName;
use s390x_job_fields::Part;
use s390x_job_fields::number::put;
use s390x_job_fields::word::Word;
use std::alloc::{AllocError, Global};

/// Appends a line of a name alone.
pub fn line0(out: &mut String, name: LineName) -> Result<(), AllocError>
    ensures { OnOk result
        (string_bytes out.new
        ≡ string_bytes out.old ++ line_text (record { name = name; fields = [] })) }
{
    put(out, name.text())
}

/// Appends a line of a name and 1 field.
pub fn line1<A: Part>(
    alloc: Global,
    out: &mut String,
    name: LineName,
    a: &A,
) -> Result<(), AllocError>
    ensures { OnOk result
        (string_bytes out.new
        ≡ string_bytes out.old
        ++ line_text (record { name = name; fields = A.field a.now ∷ [] })) }
{
    line0(out, name)?;
    a.put(alloc, out)
}

/// Appends a line of a name and 2 fields.
pub fn line2<A: Part, B: Part>(
    alloc: Global,
    out: &mut String,
    name: LineName,
    a: &A,
    b: &B,
) -> Result<(), AllocError>
    ensures { OnOk result
        (string_bytes out.new
        ≡ string_bytes out.old
        ++ line_text (record { name = name; fields = A.field a.now ∷ B.field b.now ∷ [] })) }
{
    line1(alloc, out, name, a)?;
    b.put(alloc, out)
}

/// Appends a line of a name and 3 fields.
pub fn line3<A: Part, B: Part, C: Part>(
    alloc: Global,
    out: &mut String,
    name: LineName,
    a: &A,
    b: &B,
    c: &C,
) -> Result<(), AllocError>
    ensures { OnOk result
        (string_bytes out.new
        ≡ string_bytes out.old
        ++ line_text
        (record {
          name = name;
          fields = A.field a.now ∷ B.field b.now ∷ C.field c.now ∷ [];
        })) }
{
    line2(alloc, out, name, a, b)?;
    c.put(alloc, out)
}

/// Appends a line of a name and 4 fields.
pub fn line4<A: Part, B: Part, C: Part, D: Part>(
    alloc: Global,
    out: &mut String,
    name: LineName,
    parts: (&A, &B, &C, &D),
) -> Result<(), AllocError>
    ensures { OnOk result
        (string_bytes out.new
        ≡ string_bytes out.old
        ++ line_text
        (record {
          name = name;
          fields = A.field parts.entry.0.now ∷ B.field parts.entry.1.now
              ∷ C.field parts.entry.2.now ∷ D.field parts.entry.3.now ∷ [];
        })) }
{
    line3(alloc, out, name, parts.0, parts.1, parts.2)?;
    parts.3.put(alloc, out)
}

/// Appends a line of a name and 5 fields.
pub fn line5<A: Part, B: Part, C: Part, D: Part, E: Part>(
    alloc: Global,
    out: &mut String,
    name: LineName,
    parts: (&A, &B, &C, &D, &E),
) -> Result<(), AllocError>
    ensures { OnOk result
        (string_bytes out.new
        ≡ string_bytes out.old
        ++ line_text
        (record {
          name = name;
          fields = A.field parts.entry.0.now ∷ B.field parts.entry.1.now
              ∷ C.field parts.entry.2.now ∷ D.field parts.entry.3.now
              ∷ E.field parts.entry.4.now ∷ [];
        })) }
{
    line4(alloc, out, name, (parts.0, parts.1, parts.2, parts.3))?;
    parts.4.put(alloc, out)
}

/// Appends a line of a name and 6 fields.
pub fn line6<A: Part, B: Part, C: Part, D: Part, E: Part, F: Part>(
    alloc: Global,
    out: &mut String,
    name: LineName,
    parts: (&A, &B, &C, &D, &E, &F),
) -> Result<(), AllocError>
    ensures { OnOk result
        (string_bytes out.new
        ≡ string_bytes out.old
        ++ line_text
        (record {
          name = name;
          fields = A.field parts.entry.0.now ∷ B.field parts.entry.1.now
              ∷ C.field parts.entry.2.now ∷ D.field parts.entry.3.now
              ∷ E.field parts.entry.4.now ∷ F.field parts.entry.5.now ∷ [];
        })) }
{
    line5(
        alloc,
        out,
        name,
        (parts.0, parts.1, parts.2, parts.3, parts.4),
    )?;
    parts.5.put(alloc, out)
}

/// Appends a line of a name and 7 fields.
pub fn line7<A: Part, B: Part, C: Part, D: Part, E: Part, F: Part, G: Part>(
    alloc: Global,
    out: &mut String,
    name: LineName,
    parts: (&A, &B, &C, &D, &E, &F, &G),
) -> Result<(), AllocError>
    ensures { OnOk result
        (string_bytes out.new
        ≡ string_bytes out.old
        ++ line_text
        (record {
          name = name;
          fields = A.field parts.entry.0.now ∷ B.field parts.entry.1.now
              ∷ C.field parts.entry.2.now ∷ D.field parts.entry.3.now
              ∷ E.field parts.entry.4.now ∷ F.field parts.entry.5.now
              ∷ G.field parts.entry.6.now ∷ [];
        })) }
{
    line6(
        alloc,
        out,
        name,
        (parts.0, parts.1, parts.2, parts.3, parts.4, parts.5),
    )?;
    parts.6.put(alloc, out)
}
