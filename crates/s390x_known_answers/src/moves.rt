//! Moves by size or type, and class: `%r3` to `%r2`, or `%v3` to `%v18`.

use crate::queries;
use crate::words::{TYPES, first_word, named};
use s390x_base::{Reg, gpr, vr, writable_gpr, writable_vr};
use s390x_case_runner::LineError;
use s390x_inst::{Inst, VecInst};
use s390x_operands::MachInst;
use std::alloc::Global;

/// What a call with its words answers.
pub fn answer(alloc: Global, call: &str, words: &str) -> Result<String, LineError> {
    match call {
        "mov" => move_by_bits(alloc, words),
        "gen_move" => move_by_type(alloc, words),
        _ => queries::answer(alloc, call, words),
    }
}

// The move of so many bits between registers of a class.
fn move_by_bits(alloc: Global, words: &str) -> Result<String, LineError> {
    match words {
        "32 Int" => general_text(alloc, &Inst::mov32(writable_gpr(2), gpr(3))),
        "64 Int" => general_text(alloc, &Inst::mov64(writable_gpr(2), gpr(3))),
        "32 Float" => vector_text(alloc, &Inst::mov32(writable_vr(18), vr(3))),
        "64 Float" => vector_text(alloc, &Inst::mov64(writable_vr(18), vr(3))),
        "128 Float" => vector_text(alloc, &Inst::mov128(writable_vr(18), vr(3))),
        _ => Err(LineError::Unreadable),
    }
}

// The move of a type between registers of a class.
fn move_by_type(alloc: Global, words: &str) -> Result<String, LineError> {
    let (name, class) = first_word(words)?;
    let ty = named(alloc, &TYPES, name)?;
    match class {
        "Int" if ty.bits() <= 64 => {
            let inst = <Inst as MachInst>::gen_move(writable_gpr(2), gpr(3), ty);
            general_text(alloc, &inst)
        }
        "Float" => {
            let inst = <Inst as MachInst>::gen_move(writable_vr(18), vr(3), ty);
            vector_text(alloc, &inst)
        }
        _ => Err(LineError::Unreadable),
    }
}

// The variant of a move from `%r3` to `%r2`.
fn general_text(alloc: Global, inst: &Inst) -> Result<String, LineError> {
    let name = if is_move_of(inst, gpr(2), gpr(3)) {
        move_name(inst)
    } else {
        "others"
    };
    Ok(String::from_str(alloc, name)?)
}

// The variant of a move from `%v3` to `%v18`.
fn vector_text(alloc: Global, inst: &Inst) -> Result<String, LineError> {
    let name = if is_move_of(inst, vr(18), vr(3)) {
        move_name(inst)
    } else {
        "others"
    };
    Ok(String::from_str(alloc, name)?)
}

// Whether it moves the one register to the other.
fn is_move_of(inst: &Inst, to: Reg, from: Reg) -> bool {
    match inst.is_move() {
        Some((rd, rm)) => rd.to_reg() == to && rm == from,
        None => false,
    }
}

// The variant of a move.
fn move_name(inst: &Inst) -> &'static str {
    match inst {
        Inst::Mov32 { .. } => "Mov32",
        Inst::Mov64 { .. } => "Mov64",
        Inst::Vector(VecInst::FpuMove32 { .. }) => "FpuMove32",
        Inst::Vector(VecInst::FpuMove64 { .. }) => "FpuMove64",
        Inst::Vector(VecInst::VecMov { .. }) => "VecMov",
        _ => "other",
    }
}
