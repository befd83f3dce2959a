//! Copies of instructions: what stands in a vector is copied into a vector of its own.
ghost use Rattle.std.specs.Prelude.{◌≡◌, IfOk};
ghost use Rattle.s390x_inst.specs.Portions.{portions, first_portion, members_portions, handler_terms_of, tail_call_portion};

use crate::calls::{CallInfo, CallInstDest, ReturnCallInfo, TryCallInfo};
use crate::inst::Inst;
use crate::inst_table;
use s390x_base::{NoMemory, Reg, Writable};
use std::alloc::{AllocError, Global};

// Where a call with handlers goes on.
fn copy_handlers(
    alloc: Global,
    info: &Option<TryCallInfo>,
) -> Result<Option<TryCallInfo>, AllocError>
    ensures { IfOk result (λ copied. handler_terms_of copied ≡ handler_terms_of info.now) }
{
    match info {
        Some(info) => Ok(Some(TryCallInfo {
            continuation: info.continuation,
            exception_handlers: Vec::from_slice(alloc, &info.exception_handlers)?,
        })),
        None => Ok(None),
    }
}

// A call.
fn copy_call(alloc: Global, link: Writable<Reg>, info: &CallInfo) -> Result<Inst, AllocError>
    ensures { IfOk result
        (λ copied. first_portion copied ≡ first_portion (Inst.Call link info.now)) }
{
    let uses = Vec::from_slice(alloc, &info.uses)?;
    let defs = Vec::from_slice(alloc, &info.defs)?;
    let try_call_info = copy_handlers(alloc, &info.try_call_info)?;
    Ok(Inst::Call {
        link,
        info: CallInfo {
            dest: info.dest,
            uses,
            defs,
            clobbers: info.clobbers,
            callee_pop_size: info.callee_pop_size,
            caller_conv: info.caller_conv,
            callee_conv: info.callee_conv,
            try_call_info,
            patchable: info.patchable,
            stack_map: info.stack_map,
        },
    })
}

// A tail call.
fn copy_tail_call(
    alloc: Global,
    info: &ReturnCallInfo<CallInstDest>,
) -> Result<ReturnCallInfo<CallInstDest>, AllocError>
    ensures { IfOk result (λ copied. tail_call_portion copied ≡ tail_call_portion info.now) }
{
    Ok(ReturnCallInfo {
        dest: info.dest,
        uses: Vec::from_slice(alloc, &info.uses)?,
        callee_pop_size: info.callee_pop_size,
    })
}

// Copies what is borrowed: of the variants in the table, each field by itself.
macro_rules! copied {
    (($inst:expr, { $($rest:tt)* }) $($group:ident { $($name:ident { $($field:ident : $kind:ident),* })* })*) => {
        match $inst {
            $($(Inst::$name { $($field),* } => Ok(Inst::$name { $($field: *$field),* }),)*)*
            $($rest)*
        }
    };
}

// An instruction; of a `Loop`, its head without members.
fn copy_head(alloc: Global, inst: &Inst) -> Result<Inst, AllocError>
    ensures { IfOk result (λ copied. first_portion copied ≡ first_portion inst.now) }
{
    inst_table!(copied, inst, {
        Inst::Fence => Ok(Inst::Fence),
        Inst::Nop0 => Ok(Inst::Nop0),
        Inst::Nop2 => Ok(Inst::Nop2),
        Inst::Debugtrap => Ok(Inst::Debugtrap),
        Inst::SequencePoint => Ok(Inst::SequencePoint),
        Inst::Vector(vector) => Ok(Inst::Vector(*vector)),
        Inst::IndirectBr { rn, targets } => Ok(Inst::IndirectBr {
            rn: *rn,
            targets: Vec::from_slice(alloc, targets)?,
        }),
        Inst::JTSequence {
            ridx,
            default,
            default_cond,
            targets,
        } => Ok(Inst::JTSequence {
            ridx: *ridx,
            default: *default,
            default_cond: *default_cond,
            targets: Vec::from_slice(alloc, targets)?,
        }),
        Inst::Loop { cond, .. } => Ok(Inst::Loop {
            cond: *cond,
            body: Vec::new(alloc),
        }),
        Inst::Call { link, info } => copy_call(alloc, *link, info),
        Inst::ReturnCall { info } => Ok(Inst::ReturnCall {
            info: copy_tail_call(alloc, info)?,
        }),
        Inst::Args { args } => Ok(Inst::Args {
            args: Vec::from_slice(alloc, args)?,
        }),
        Inst::Rets { rets } => Ok(Inst::Rets {
            rets: Vec::from_slice(alloc, rets)?,
        }),
    })
}

// The members of a loop.
#[cycle(copies)]
fn copy_members(alloc: Global, insts: &[Inst]) -> Result<Vec<Inst>, AllocError>
    ensures { IfOk result (λ body. members_portions body.items ≡ members_portions insts.now) }
{
    let mut body = Vec::new(alloc);
    for inst in insts {
        body.push(copy_inst(alloc, inst)?)?;
    }
    Ok(body)
}

// An instruction with all its members.
#[cycle(copies)]
fn copy_inst(alloc: Global, inst: &Inst) -> Result<Inst, AllocError>
    ensures { IfOk result (λ copied. portions copied ≡ portions inst.now) }
{
    match inst {
        Inst::Loop { cond, body } => Ok(Inst::Loop {
            cond: *cond,
            body: copy_members(alloc, body)?,
        }),
        _ => copy_head(alloc, inst),
    }
}

impl Inst {
    /// An equal instruction, whose vectors have room of their own. `NoMemory` where there is none for these.
    pub fn copy(&self, alloc: Global) -> Result<Inst, NoMemory>
        ensures { IfOk result (λ copied. portions copied ≡ portions self.now) }
    {
        match copy_inst(alloc, self) {
            Ok(copied) => Ok(copied),
            Err(_) => Err(NoMemory),
        }
    }
}

impl ReturnCallInfo<CallInstDest> {
    /// Equal knowledge of a tail call. `NoMemory` where there is no memory for its arguments.
    pub fn copy(&self, alloc: Global) -> Result<ReturnCallInfo<CallInstDest>, NoMemory>
        ensures { IfOk result (λ copied. tail_call_portion copied ≡ tail_call_portion self.now) }
    {
        match copy_tail_call(alloc, self) {
            Ok(copied) => Ok(copied),
            Err(_) => Err(NoMemory),
        }
    }
}
