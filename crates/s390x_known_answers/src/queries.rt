//! What a register allocator asks of an instruction, and what it makes.

use crate::instructions::instruction;
use crate::uses;
use crate::words::{CLASSES, TYPES, named, number, text_of};
use s390x_case_runner::LineError;
use s390x_inst::Inst;
use s390x_operands::{CallType, MachInst, MachTerminator};
use std::alloc::Global;

/// What a call with its words answers.
pub fn answer(alloc: Global, call: &str, words: &str) -> Result<String, LineError> {
    match call {
        "is_included_in_clobbers" => {
            let inst = instruction(alloc, words)?;
            text_of(alloc, inst.is_included_in_clobbers())
        }
        "is_term" => {
            let inst = instruction(alloc, words)?;
            Ok(String::from_str(alloc, terminator_name(&inst))?)
        }
        "call_type" => {
            let inst = instruction(alloc, words)?;
            Ok(String::from_str(alloc, name_of_call(&inst))?)
        }
        "gen_nop" => nop_name(alloc, words),
        "rc_for_type" => {
            let ty = named(alloc, &TYPES, words)?;
            text_of(alloc, <Inst as MachInst>::rc_for_type(ty))
        }
        "canonical_type_for_rc" => {
            let class = named(alloc, &CLASSES, words)?;
            text_of(alloc, <Inst as MachInst>::canonical_type_for_rc(class))
        }
        "constants" => constants(alloc),
        _ => uses::answer(alloc, call, words),
    }
}

// How an instruction ends a block, for a caller that knows the trait alone.
fn terminator_name<I: MachInst>(inst: &I) -> &'static str {
    match inst.is_term() {
        MachTerminator::None => "None",
        MachTerminator::Ret => "Ret",
        MachTerminator::RetCall => "RetCall",
        MachTerminator::Branch => "Branch",
    }
}

// How an instruction calls.
fn name_of_call(inst: &Inst) -> &'static str {
    match inst.call_type() {
        CallType::None => "None",
        CallType::Regular => "Regular",
        CallType::TailCall => "TailCall",
    }
}

// The instruction that does nothing, for a wanted size.
fn nop_name(alloc: Global, word: &str) -> Result<String, LineError> {
    let size = number(word)? as usize;
    if size == 1 {
        return Err(LineError::Unreadable);
    }
    let inst = <Inst as MachInst>::gen_nop(size);
    let name = match &inst {
        Inst::Nop0 => "Nop0",
        Inst::Nop2 => "Nop2",
        _ => "other",
    };
    Ok(String::from_str(alloc, name)?)
}

// What is the same of all instructions: the bytes of those that do nothing and of a trap, the greatest size, what an
// instruction adds to an island, and where a function must and had better begin.
fn constants(alloc: Global) -> Result<String, LineError> {
    let Ok(units) = <Inst as MachInst>::gen_nop_units(alloc) else {
        return Err(LineError::NoMemory);
    };
    let trap = <Inst as MachInst>::TRAP_OPCODE;
    let size = <Inst as MachInst>::worst_case_size();
    let island = <Inst as MachInst>::worst_case_island_growth();
    let alignment = <Inst as MachInst>::function_alignment();
    let (least, best) = (alignment.minimum, alignment.preferred);
    Ok(format!(in alloc; "{units:?} {trap:?} {size} {island} {least} {best}")?)
}
