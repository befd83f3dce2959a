//! The instructions of which a register allocator asks here.

use s390x_base::{Cond, MachLabel, PRegSet, TrapCode, gpr, writable_gpr};
use s390x_case_runner::LineError;
use s390x_inst::{CallConv, CallInfo, CallInstDest, Inst, ReturnCallInfo, TryCallInfo};
use s390x_operands::MachInst;
use std::alloc::Global;

/// The instruction of a name: its variant's, or what tells it from another call.
pub fn instruction(alloc: Global, name: &str) -> Result<Inst, LineError> {
    match name {
        "Args" => Ok(Inst::Args {
            args: Vec::new(alloc),
        }),
        "Rets" => Ok(Inst::Rets {
            rets: Vec::new(alloc),
        }),
        "Call" => Ok(call(alloc, CallConv::SystemV, None)),
        "Call of Tail" => Ok(call(alloc, CallConv::Tail, None)),
        "Call with a continuation" => {
            let continuation = TryCallInfo {
                continuation: MachLabel(1),
                exception_handlers: Vec::new(alloc),
            };
            Ok(call(alloc, CallConv::SystemV, Some(continuation)))
        }
        "ReturnCall" => Ok(Inst::ReturnCall {
            info: ReturnCallInfo {
                dest: CallInstDest::Indirect { reg: gpr(3) },
                uses: Vec::new(alloc),
                callee_pop_size: 0,
            },
        }),
        _ => without_lists(name),
    }
}

// The instruction of a name, of those without lists.
fn without_lists(name: &str) -> Result<Inst, LineError> {
    match name {
        "Nop2" => Ok(Inst::Nop2),
        "Ret" => Ok(Inst::Ret { link: gpr(14) }),
        "TrapIf" => Ok(Inst::TrapIf {
            cond: Cond::from_mask(8),
            trap_code: TrapCode::INTEGER_OVERFLOW,
        }),
        "Jump" => Ok(<Inst as MachInst>::gen_jump(MachLabel(7))),
        "DummyUse" => Ok(<Inst as MachInst>::gen_dummy_use(gpr(2))),
        _ => Err(LineError::Unreadable),
    }
}

// A call from a function of the convention `SystemV` to the address in `%r3`.
fn call(alloc: Global, callee_conv: CallConv, try_call_info: Option<TryCallInfo>) -> Inst {
    Inst::Call {
        link: writable_gpr(14),
        info: CallInfo {
            dest: CallInstDest::Indirect { reg: gpr(3) },
            uses: Vec::new(alloc),
            defs: Vec::new(alloc),
            clobbers: PRegSet::empty(),
            callee_pop_size: 0,
            caller_conv: CallConv::SystemV,
            callee_conv,
            try_call_info,
            patchable: false,
            stack_map: None,
        },
    }
}
