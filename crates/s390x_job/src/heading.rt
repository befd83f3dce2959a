//! The lines before the blocks that stand only where they say something: `flags` and `frame`.
ghost use Rattle.std.specs.Prelude.{◌≡◌, ◌++◌, ◌∷◌, [], OnOk, IfOk, string_bytes, codes};
ghost use Rattle.std.specs.Str.{bytes_eq};
ghost use Rattle.s390x_job_fields.specs.Numbers.{W8, W16, W32};
ghost use Rattle.s390x_job_fields.specs.Fields.{FNatural, FOption};
ghost use Rattle.s390x_job_lines.specs.Line.{fields_text};
ghost use Rattle.s390x_job.specs.Items.{flags_line, frame_line};

use s390x_inst::{CallConv, FrameLayout, IsaFlags};
use s390x_job_fields::Part;
use std::alloc::{AllocError, Global};

/// Appends the sizes of a frame.
fn put_sizes(alloc: Global, out: &mut String, layout: &FrameLayout) -> Result<(), AllocError>
    ensures { let l = layout.now in
        OnOk result
        (string_bytes out.new
        ≡ string_bytes out.old
        ++ fields_text
        (FNatural W32 l.incoming_args_size ∷ FNatural W32 l.tail_args_size
        ∷ FNatural W32 l.clobber_size ∷ FNatural W32 l.fixed_frame_storage_size
        ∷ FNatural W32 l.stackslots_size ∷ FNatural W32 l.outgoing_args_size ∷ [])) }
{
    layout.incoming_args_size.put(alloc, out)?;
    layout.tail_args_size.put(alloc, out)?;
    layout.clobber_size.put(alloc, out)?;
    layout.fixed_frame_storage_size.put(alloc, out)?;
    layout.stackslots_size.put(alloc, out)?;
    layout.outgoing_args_size.put(alloc, out)
}

/// Appends the registers that a frame saves.
fn put_saved(alloc: Global, out: &mut String, layout: &FrameLayout) -> Result<(), AllocError>
    ensures { let l = layout.now in
        OnOk result
        (string_bytes out.new
        ≡ string_bytes out.old
        ++ fields_text (FOption W8 l.first_saved_gpr ∷ FNatural W16 l.saved_fprs ∷ [])) }
{
    layout.first_saved_gpr.put(alloc, out)?;
    layout.saved_fprs.put(alloc, out)
}

/// Appends the fields of a line `frame`.
pub fn put_frame(
    alloc: Global,
    out: &mut String,
    conv: CallConv,
    layout: &FrameLayout,
) -> Result<(), AllocError>
    ensures { OnOk result
        (string_bytes out.new
        ≡ string_bytes out.old ++ fields_text (frame_line conv layout.now).fields) }
{
    conv.put(alloc, out)?;
    put_sizes(alloc, out, layout)?;
    put_saved(alloc, out, layout)
}

/// Whether no facility is set.
pub fn is_plain_flags(alloc: Global, flags: IsaFlags) -> Result<bool, AllocError>
    ensures { IfOk result (λ b. b ≡ bytes_eq (fields_text (flags_line flags).fields) []) }
{
    let mut text = String::new(alloc);
    flags.put(alloc, &mut text)?;
    Ok(text.as_bytes() == b"".as_slice())
}

/// Whether the frame is the one that is taken without a line `frame`.
pub fn is_plain_frame(
    alloc: Global,
    conv: CallConv,
    layout: &FrameLayout,
) -> Result<bool, AllocError>
    ensures { IfOk result
        (λ b. b
        ≡ bytes_eq (fields_text (frame_line conv layout.now).fields)
        (codes " SystemV 0 0 0 0 0 0 - 0")) }
{
    let mut text = String::new(alloc);
    put_frame(alloc, &mut text, conv, layout)?;
    Ok(text.as_bytes() == b" SystemV 0 0 0 0 0 0 - 0".as_slice())
}
