//! Reading the fields of control instructions.
ghost use Rattle.std.specs.Prelude.{◌≡◌, IfOk};
ghost use Rattle.s390x_job_lines.specs.Line.{line_with};
ghost use Rattle.s390x_job_lines.specs.Instructions.{inst_line};

use crate::inst_name::ControlName;
use crate::name::LineName;
use crate::rows::{read_control_rows, read_field};
use s390x_inst::{CallInfo, Inst, ReturnCallInfo, inst_table};
use s390x_job_fields::Cursor;
use std::alloc::{AllocError, Global};

fn call(alloc: Global, c: &mut Cursor) -> Result<Inst, AllocError>
    ensures { IfOk result (λ i. inst_line i ≡ line_with (LineName.Control ControlName.Call) c.old) }
{
    let link = c.written_reg();
    let dest = c.target();
    let uses = c.uses(alloc)?;
    let defs = c.defs(alloc)?;
    let clobbers = c.set(alloc)?;
    let callee_pop_size = c.u32();
    let caller_conv = c.convention();
    let callee_conv = c.convention();
    let try_call_info = c.handlers(alloc)?;
    let patchable = c.truth();
    let stack_map = c.option32();
    Ok(Inst::Call {
        link,
        info: CallInfo {
            dest,
            uses,
            defs,
            clobbers,
            callee_pop_size,
            caller_conv,
            callee_conv,
            try_call_info,
            patchable,
            stack_map,
        },
    })
}

fn return_call(alloc: Global, c: &mut Cursor) -> Result<Inst, AllocError>
    ensures { IfOk result
        (λ i. inst_line i ≡ line_with (LineName.Control ControlName.ReturnCall) c.old) }
{
    let dest = c.target();
    let uses = c.uses(alloc)?;
    let callee_pop_size = c.u32();
    Ok(Inst::ReturnCall {
        info: ReturnCallInfo {
            dest,
            uses,
            callee_pop_size,
        },
    })
}

/// The instruction of this name, whose fields come next.
#[rattlefmt::skip]
pub fn control(alloc: Global, name: ControlName, c: &mut Cursor) -> Result<Inst, AllocError>
    ensures { IfOk result (λ i. inst_line i ≡ line_with (LineName.Control name) c.old) }
{
    inst_table!(read_control_rows, name, c, {
        ControlName::Fence => Ok(Inst::Fence),
        ControlName::Nop0 => Ok(Inst::Nop0),
        ControlName::Nop2 => Ok(Inst::Nop2),
        ControlName::Debugtrap => Ok(Inst::Debugtrap),
        ControlName::IndirectBr => Ok(Inst::IndirectBr { rn: c.reg(), targets: c.labels(alloc)? }),
        ControlName::JTSequence => Ok(Inst::JTSequence { ridx: c.reg(), default: c.label(), default_cond: c.cond(), targets: c.labels(alloc)? }),
        ControlName::Call => call(alloc, c),
        ControlName::ReturnCall => return_call(alloc, c),
        ControlName::Args => Ok(Inst::Args { args: c.args(alloc)? }),
        ControlName::Rets => Ok(Inst::Rets { rets: c.rets(alloc)? }),
        ControlName::SequencePoint => Ok(Inst::SequencePoint),
    })
}
