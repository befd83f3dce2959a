//! The texts of integer instructions with an operand in memory.
ghost use Rattle.std.specs.Prelude.{◌≡◌, ◌∷◌, [], None, Some, string_bytes};
ghost use Rattle.std.specs.Option.{option_map};
ghost use Rattle.s390x_job_fields.specs.Atoms.{reg_text};
ghost use Rattle.s390x_text_rows.specs.Texts.{Prints, PrintsWhere};
ghost use Rattle.s390x_text_rows.specs.Operands.{reused_text};
ghost use Rattle.s390x_text_rows.specs.Mnemonics.{alu_short_name, alu_long_name, cmp_short_name, cmp_long_name, cmp_relative_name};
ghost use Rattle.s390x_text_rows.specs.Storage.{rx, address_rows, access_where, load_operand, load_text, store_operand, store_text, immediate_store_text, storage_operator_text};

use crate::arithmetic::reused_operand;
use crate::error::TextError;
use crate::operand::Reused;
use crate::register_access::put_access;
use crate::storage::{Place, address_rows, rows_access, rs_access_then, rs_access3, rx_access};
use s390x_base::{Reg, Writable};
use s390x_inst::{ALUOp, CmpOp, EmitState, Inst, MemArg, inst_table};
use s390x_rows::opcodes;
use s390x_typed_steps::{RegisterRows, rows_of_alu, rows_of_cmp, rows_of_load, rows_of_store};
use std::alloc::Global;

// The operand of a load, where it stands.
macro_rules! of_load {
    (($inst:expr) operators $operators:tt moves $moves:tt loads { $($load:ident $fields:tt)* } $($rest:tt)*) => {
        match $inst {
            $(Inst::$load { mem, .. } => Some(mem),)*
            _ => None,
        }
    };
}

// The operand of a store, where it stands.
macro_rules! of_store {
    (($inst:expr) operators $operators:tt moves $moves:tt loads $loads:tt stores { $($store:ident $fields:tt)* } $($rest:tt)*) => {
        match $inst {
            $(Inst::$store { mem, .. } => Some(mem),)*
            _ => None,
        }
    };
}

// The operand of a load, where it stands; None for another instruction.
fn load_operand(inst: &Inst) -> Option<&MemArg>
    ensures { option_map (λ m. m.now) result ≡ load_operand inst.now }
{
    inst_table!(of_load, inst)
}

// The operand of a store of a register, where it stands; None for another instruction.
fn store_operand(inst: &Inst) -> Option<&MemArg>
    ensures { option_map (λ m. m.now) result ≡ store_operand inst.now }
{
    inst_table!(of_store, inst)
}

/// Appends the text of a load, on a machine that has rows relative to the instruction or lacks them; None for another instruction.
pub fn put_load(
    alloc: Global,
    out: &mut String,
    has_relative: bool,
    state: &EmitState,
    inst: &Inst,
) -> Option<Result<(), TextError>>
    ensures { PrintsWhere result (string_bytes out.old) (string_bytes out.new)
        (load_text has_relative state.now inst.now) }
{
    match inst.as_load() {
        Some(load) => match load_operand(inst) {
            Some(mem) => {
                let place = Place {
                    alloc,
                    has_relative,
                    state,
                    mem,
                };
                let rd = load.rd.to_reg();
                Some(put_access(out, place, rows_of_load(load.op), &rd))
            }
            None => None,
        },
        None => None,
    }
}

// Appends the text of a store of an immediate; None for another instruction.
#[inline(never)]
#[rattlefmt::skip]
fn put_immediate_store(
    alloc: Global,
    out: &mut String,
    has_relative: bool,
    state: &EmitState,
    inst: &Inst,
) -> Option<Result<(), TextError>>
    ensures { PrintsWhere result (string_bytes out.old) (string_bytes out.new)
        (immediate_store_text has_relative state.now inst.now) }
{
    match inst {
        Inst::StoreImm8 { imm, mem } => Some(rs_access_then(out, Place { alloc, has_relative, state, mem }, Some(opcodes::MVI), Some(opcodes::MVIY), imm)),
        Inst::StoreImm16 { imm, mem } => Some(rs_access_then(out, Place { alloc, has_relative, state, mem }, Some(opcodes::MVHHI), None, imm)),
        Inst::StoreImm32SExt16 { imm, mem } => Some(rs_access_then(out, Place { alloc, has_relative, state, mem }, Some(opcodes::MVHI), None, imm)),
        Inst::StoreImm64SExt16 { imm, mem } => Some(rs_access_then(out, Place { alloc, has_relative, state, mem }, Some(opcodes::MVGHI), None, imm)),
        _ => None,
    }
}

/// Appends the text of a store, likewise; None for another instruction.
pub fn put_store(
    alloc: Global,
    out: &mut String,
    has_relative: bool,
    state: &EmitState,
    inst: &Inst,
) -> Option<Result<(), TextError>>
    ensures { PrintsWhere result (string_bytes out.old) (string_bytes out.new)
        (store_text has_relative state.now inst.now) }
{
    match inst.as_store() {
        Some(store) => match store_operand(inst) {
            Some(mem) => {
                let place = Place {
                    alloc,
                    has_relative,
                    state,
                    mem,
                };
                Some(put_access(out, place, rows_of_store(store.op), &store.rd))
            }
            None => None,
        },
        None => put_immediate_store(alloc, out, has_relative, state, inst),
    }
}

// Appends the text of an operator with an operand in memory.
#[tactic(auto, unfolding(crate::specs::Mnemonics::alu_short_name, crate::specs::Mnemonics::alu_long_name))]
fn put_operator(out: &mut String, place: Place, op: ALUOp, a: &Reused) -> Result<(), TextError>
    ensures { Prints result (string_bytes out.old) (string_bytes out.new)
        (access_where place.entry.has_relative (rx (alu_short_name op) (alu_long_name op) None)
        place.entry.state.now (reused_text a.now.rd a.now.ri ∷ []) place.entry.mem.now []) }
{
    let alu = rows_of_alu(op);
    let rows = RegisterRows {
        rx: alu.rx,
        rxy: alu.rxy,
        ril: None,
    };
    rx_access(out, place, rows, a)
}

// Appends the text of a comparison with an operand in memory.
#[tactic(auto, unfolding(crate::specs::Mnemonics::cmp_short_name, crate::specs::Mnemonics::cmp_long_name, crate::specs::Mnemonics::cmp_relative_name))]
fn put_comparison(out: &mut String, place: Place, op: CmpOp, rn: &Reg) -> Result<(), TextError>
    ensures { Prints result (string_bytes out.old) (string_bytes out.new)
        (access_where place.entry.has_relative
        (rx (cmp_short_name op) (cmp_long_name op) (Some (cmp_relative_name op)))
        place.entry.state.now (reg_text rn.now ∷ []) place.entry.mem.now []) }
{
    let cmp = rows_of_cmp(op);
    let rows = RegisterRows {
        rx: cmp.rx,
        rxy: cmp.rxy,
        ril: Some(cmp.ril),
    };
    rx_access(out, place, rows, rn)
}

/// Appends the text of a load of an address.
#[inline(never)]
pub fn put_address(
    alloc: Global,
    out: &mut String,
    has_relative: bool,
    state: &EmitState,
    rd: &Writable<Reg>,
    mem: &MemArg,
) -> Result<(), TextError>
    ensures { Prints result (string_bytes out.old) (string_bytes out.new)
        (access_where has_relative address_rows state.now (reg_text rd.now ∷ []) mem.now []) }
{
    let place = Place {
        alloc,
        has_relative,
        state,
        mem,
    };
    rows_access(out, place, &address_rows(), rd)
}

/// Appends the text of an operator with an operand in memory, of a multiple, of an address or of a locked access; None for another
/// instruction.
#[inline(never)]
#[rattlefmt::skip]
#[tactic(auto, unfolding(crate::specs::Mnemonics::atomic_name))]
pub fn put_storage_operator(
    alloc: Global,
    out: &mut String,
    has_relative: bool,
    state: &EmitState,
    inst: &Inst,
) -> Option<Result<(), TextError>>
    ensures { PrintsWhere result (string_bytes out.old) (string_bytes out.new)
        (storage_operator_text has_relative state.now inst.now) }
{
    match inst {
        Inst::AluRX { alu_op, rd, ri, mem } => Some(put_operator(out, Place { alloc, has_relative, state, mem }, *alu_op, &reused_operand(rd, ri))),
        Inst::CmpRX { op, rn, mem } => Some(put_comparison(out, Place { alloc, has_relative, state, mem }, *op, rn)),
        Inst::LoadMultiple64 { rt, rt2, mem } => Some(rs_access3(out, Place { alloc, has_relative, state, mem }, None, Some(opcodes::LMG), rt, rt2)),
        Inst::StoreMultiple64 { rt, rt2, mem } => Some(rs_access3(out, Place { alloc, has_relative, state, mem }, None, Some(opcodes::STMG), rt, rt2)),
        Inst::LoadAddr { rd, mem } => Some(put_address(alloc, out, has_relative, state, rd, mem)),
        Inst::AtomicRmw { alu_op, rd, rn, mem } => Some(rs_access3(out, Place { alloc, has_relative, state, mem }, None, rows_of_alu(*alu_op).atomic, rd, rn)),
        Inst::AtomicCas32 { rd, ri, rn, mem } => Some(rs_access3(out, Place { alloc, has_relative, state, mem }, Some(opcodes::CS), Some(opcodes::CSY), &reused_operand(rd, ri), rn)),
        Inst::AtomicCas64 { rd, ri, rn, mem } => Some(rs_access3(out, Place { alloc, has_relative, state, mem }, None, Some(opcodes::CSG), &reused_operand(rd, ri), rn)),
        _ => None,
    }
}
