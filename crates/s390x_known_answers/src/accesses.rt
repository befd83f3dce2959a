//! Loads and stores by type: of `%r2`, at an operand with a base and a displacement.

use crate::moves;
use crate::words::{TYPES, named, text_of};
use s390x_base::{MachMemFlags, Reg, gpr, writable_gpr};
use s390x_case_runner::LineError;
use s390x_inst::{Inst, MemArg, VecInst};
use std::alloc::Global;

/// What a call with its words answers.
pub fn answer(alloc: Global, call: &str, words: &str) -> Result<String, LineError> {
    match call {
        "gen_load" => load_made(alloc, words),
        "gen_store" => store_made(alloc, words),
        _ => moves::answer(alloc, call, words),
    }
}

// The operand in memory.
fn address() -> MemArg {
    MemArg::reg_plus_off(gpr(7), 40, MachMemFlags::trusted())
}

// The load of a type.
fn load_made(alloc: Global, name: &str) -> Result<String, LineError> {
    let ty = named(alloc, &TYPES, name)?;
    match &Inst::gen_load(writable_gpr(2), address(), ty) {
        Some(inst) => access_text(alloc, inst),
        None => Ok(String::from_str(alloc, "None")?),
    }
}

// The store of a type.
fn store_made(alloc: Global, name: &str) -> Result<String, LineError> {
    let ty = named(alloc, &TYPES, name)?;
    match &Inst::gen_store(address(), gpr(2), ty) {
        Some(inst) => access_text(alloc, inst),
        None => Ok(String::from_str(alloc, "None")?),
    }
}

// A load's or a store's variant.
fn access_text(alloc: Global, inst: &Inst) -> Result<String, LineError> {
    if let Some(load) = inst.as_load() {
        return if_expected(alloc, load.rd.to_reg(), &load.mem, text_of(alloc, load.op)?);
    }
    if let Some(store) = inst.as_store() {
        return if_expected(alloc, store.rd, &store.mem, text_of(alloc, store.op)?);
    }
    match inst {
        Inst::Vector(vector) => vector_access_text(alloc, vector),
        _ => Ok(String::from_str(alloc, "other")?),
    }
}

// The direction and the layout of a whole register's load or store, or the variant of one of lane 0, with the lane's size.
fn vector_access_text(alloc: Global, inst: &VecInst) -> Result<String, LineError> {
    if let Some(whole) = inst.as_whole() {
        let text = text_of(alloc, (whole.direction, whole.layout))?;
        return if_expected(alloc, whole.rd, &whole.mem, text);
    }
    match inst {
        VecInst::VecLoadLaneUndef {
            size,
            rd,
            mem,
            lane_imm: 0,
        } => {
            let text = format!(in alloc; "VecLoadLaneUndef {size}")?;
            if_expected(alloc, rd.to_reg(), mem, text)
        }
        VecInst::VecStoreLane {
            size,
            rd,
            mem,
            lane_imm: 0,
        } => {
            let text = format!(in alloc; "VecStoreLane {size}")?;
            if_expected(alloc, *rd, mem, text)
        }
        _ => Ok(String::from_str(alloc, "other")?),
    }
}

// A text, where the register and the operand are the expected ones.
fn if_expected(alloc: Global, reg: Reg, mem: &MemArg, text: String) -> Result<String, LineError> {
    if reg == gpr(2) && *mem == address() {
        Ok(text)
    } else {
        Ok(String::from_str(alloc, "others")?)
    }
}
