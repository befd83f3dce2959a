//! Builds a function in code, emits it, links it at 4096, and prints its image in hex and its tables, as a program does that stands on these crates.
#![tactic(auto)]

mod linked;
mod tables;

use crate::linked::{Failure, emit_and_link};
use crate::tables::text_of;
use s390x_base::{Cond, TrapCode, gpr, writable_gpr};
use s390x_image::SymbolTable;
use s390x_inst::{ALUOp, AllocatedFunction, Block, EmitInfo, EmitState, Inst, IsaFlags};
use std::alloc::{AllocError, Global};
use std::process::ExitCode;

fn main(rt: HostRuntime) -> ExitCode {
    match sum_in_text(rt.alloc()) {
        Ok(text) => match print!(rt; "{text}") {
            Ok(()) => ExitCode::SUCCESS,
            Err(_) => ExitCode::FAILURE,
        },
        Err(_) => ExitCode::FAILURE,
    }
}

// The image of the sum at 4096, and its tables.
fn sum_in_text(alloc: Global) -> Result<String, Failure> {
    let function = sum(alloc).map_err(|_| Failure::NoMemory)?;
    let symbols = SymbolTable::new(alloc);
    let info = EmitInfo::new(IsaFlags::default());
    let linked = emit_and_link(
        alloc,
        &function,
        &info,
        EmitState::default(),
        4096,
        &symbols,
    )?;
    text_of(alloc, &linked).map_err(|_| Failure::NoMemory)
}

// A function of one block: `%r2` becomes `%r3` plus `%r4`, a sum that overflows traps, and it returns.
fn sum(alloc: Global) -> Result<AllocatedFunction, AllocError> {
    let insts = vec![in alloc;
        Inst::Mov64 {
            rd: writable_gpr(2),
            rm: gpr(3),
        },
        Inst::AluRRR {
            alu_op: ALUOp::Add64,
            rd: writable_gpr(2),
            rn: gpr(2),
            rm: gpr(4),
        },
        Inst::TrapIf {
            cond: Cond::from_mask(1),
            trap_code: TrapCode::INTEGER_OVERFLOW,
        },
        Inst::Ret { link: gpr(14) },
    ]?;
    Ok(AllocatedFunction {
        blocks: vec![in alloc; Block { insts }]?,
        constants: Vec::new(alloc),
    })
}
