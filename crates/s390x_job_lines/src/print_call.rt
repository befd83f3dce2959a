//! Printing the lines of calls.
ghost use Rattle.std.specs.Prelude.{◌≡◌, ◌++◌, ◌∷◌, [], OnOk, string_bytes};
ghost use Rattle.s390x_job_fields.specs.Numbers.{W32};
ghost use Rattle.s390x_job_fields.specs.Calls.{try_part};
ghost use Rattle.s390x_job_fields.specs.Fields.{FNatural, FConvention, FTry, FBool, FOption};
ghost use Rattle.s390x_job_lines.specs.Line.{line_text, fields_text};
ghost use Rattle.s390x_job_lines.specs.Instructions.{inst_line};

use crate::inst_name::ControlName;
use crate::name::LineName::Control;
use crate::put_line::{line3, line5};
use s390x_base::{Reg, Writable};
use s390x_inst::{CallInfo, CallInstDest, Inst, ReturnCallInfo};
use s390x_job_fields::Part;
use std::alloc::{AllocError, Global};

/// Appends the line of a call.
pub fn put_call(
    alloc: Global,
    out: &mut String,
    link: &Writable<Reg>,
    info: &CallInfo,
) -> Result<(), AllocError>
    ensures { OnOk result
        (string_bytes out.new
        ≡ string_bytes out.old ++ line_text (inst_line (Inst.Call link.now info.now))) }
{
    line5(
        alloc,
        out,
        Control(ControlName::Call),
        (link, &info.dest, &info.uses, &info.defs, &info.clobbers),
    )?;
    put_conventions(alloc, out, info)
}

/// Appends the fields of a call from the popped size on.
fn put_conventions(alloc: Global, out: &mut String, info: &CallInfo) -> Result<(), AllocError>
    ensures { OnOk result
        (string_bytes out.new
        ≡ string_bytes out.old
        ++ fields_text
        (FNatural W32 info.now.callee_pop_size ∷ FConvention info.now.caller_conv
        ∷ FConvention info.now.callee_conv ∷ FTry (try_part info.now.try_call_info)
        ∷ FBool info.now.patchable ∷ FOption W32 info.now.stack_map ∷ [])) }
{
    info.callee_pop_size.put(alloc, out)?;
    info.caller_conv.put(alloc, out)?;
    info.callee_conv.put(alloc, out)?;
    info.try_call_info.put(alloc, out)?;
    info.patchable.put(alloc, out)?;
    info.stack_map.put(alloc, out)
}

/// Appends the line of a tail call.
pub fn put_return_call(
    alloc: Global,
    out: &mut String,
    info: &ReturnCallInfo<CallInstDest>,
) -> Result<(), AllocError>
    ensures { OnOk result
        (string_bytes out.new
        ≡ string_bytes out.old ++ line_text (inst_line (Inst.ReturnCall info.now))) }
{
    line3(
        alloc,
        out,
        Control(ControlName::ReturnCall),
        &info.dest,
        &info.uses,
        &info.callee_pop_size,
    )
}
