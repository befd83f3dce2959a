//! Instructions with a memory operand: their machine rows.
ghost use Rattle.std.specs.Prelude.{◌≡◌, ◌&&◌, if◌then◌else◌, true, None, Some, IfSome};
ghost use Rattle.std.specs.Option.{option_map};
ghost use Rattle.s390x_address.specs.Rows.{memory_instruction_of, storage_form_of, relative_encodes, rows_encode, may_encode, rows_take_general, has_12_bits};
ghost use Rattle.s390x_inst.specs.Loads.{as_load, by_load};
ghost use Rattle.s390x_inst.specs.Stores.{as_store, by_store};
ghost use Rattle.s390x_rows.specs.declared.opcodes.TheConstants as opcodes;
ghost use Rattle.s390x_typed_steps.specs.General.{low_byte, low_halfword};
ghost use Rattle.s390x_typed_steps.specs.Memory.{load, load_memory, store, store_memory, store_immediate, SiForm, SilForm, is_range, multiple, load_and_operate, compare_and_swap, memory};
ghost use Rattle.s390x_typed_steps.specs.Storage.{alu_rx, alu_rxy, cmp_rx, cmp_rxy, cmp_ril, atomic_rsy};

use crate::registers::{is_reused, two_general};
use s390x_address::{MemoryInst, StorageRows, general, holds_scratch, is_numbered, number};
use s390x_base::{Reg, Writable};
use s390x_emit_vec::vector_memory_rows;
use s390x_inst::{ALUOp, CmpOp, Inst, Load, MemArg, Store};
use s390x_rows::opcodes;
use s390x_typed_steps::{low_byte, rows_of_alu, rows_of_cmp, rows_of_load, rows_of_store};

// An access by one register.
#[inline(always)]
#[tactic(auto, using(crate::proofs::Storing::register_encodes))]
fn access(
    stores: bool,
    register: Reg,
    rx: Option<u8>,
    rxy: Option<u16>,
    ril: Option<u16>,
    operand: &MemArg,
) -> MemoryInst
    requires { (rows_take_general rx && rows_take_general rxy && has_12_bits ril) ≡ true }
    ensures row { Some (memory_instruction_of result) ≡ if stores
        then store register rx rxy ril operand.now else load register rx rxy ril operand.now }
    ensures encodes { may_encode result ≡ true }
{
    MemoryInst {
        rows: StorageRows::OneRegister {
            register,
            rx,
            rxy,
            ril,
        },
        operand: *operand,
        accesses: true,
        operands_valid: general(&register),
        reads_scratch: stores && is_numbered(1, &register),
    }
}

/// The machine rows and the operand of a load into a register, which is written alone.
#[inline(always)]
pub fn memory_of_load(load: &Load) -> MemoryInst
    ensures row { Some (memory_instruction_of result) ≡ load_memory load.now }
    ensures encodes { may_encode result ≡ true }
{
    let rows = rows_of_load(load.op);
    access(
        false,
        load.rd.to_reg(),
        rows.rx,
        rows.rxy,
        rows.ril,
        &load.mem,
    )
}

/// The machine rows and the operand of a store of a register.
#[inline(always)]
pub fn memory_of_store(store: &Store) -> MemoryInst
    ensures row { Some (memory_instruction_of result) ≡ store_memory store.now }
    ensures encodes { may_encode result ≡ true }
{
    let rows = rows_of_store(store.op);
    access(true, store.rd, rows.rx, rows.rxy, rows.ril, &store.mem)
}

// The address of the operand.
#[tactic(auto, using(crate::proofs::Storing::register_encodes))]
fn load_address(rd: &Writable<Reg>, operand: &MemArg) -> Option<MemoryInst>
    ensures row { option_map memory_instruction_of result
        ≡ memory (Inst.LoadAddr rd.now operand.now) }
    ensures encodes { IfSome result (λ x. may_encode x ≡ true) }
{
    let register = rd.to_reg();
    Some(MemoryInst {
        rows: StorageRows::OneRegister {
            register,
            rx: Some(opcodes::LA as u8),
            rxy: Some(opcodes::LAY),
            ril: Some(opcodes::LARL),
        },
        operand: *operand,
        accesses: false,
        operands_valid: general(&register),
        reads_scratch: false,
    })
}

// A store of an immediate.
fn store_immediate(rows: StorageRows, operand: &MemArg) -> Option<MemoryInst>
    requires { (relative_encodes rows && rows_encode rows) ≡ true }
    ensures row { option_map memory_instruction_of result
        ≡ store_immediate (storage_form_of rows) operand.now }
    ensures encodes { IfSome result (λ x. may_encode x ≡ true) }
{
    Some(MemoryInst {
        rows,
        operand: *operand,
        accesses: true,
        operands_valid: true,
        reads_scratch: false,
    })
}

fn store_halfword(imm: i16, sil: u16, operand: &MemArg) -> Option<MemoryInst>
    ensures row { option_map memory_instruction_of result
        ≡ store_immediate (SilForm (low_halfword imm) sil) operand.now }
    ensures encodes { IfSome result (λ x. may_encode x ≡ true) }
{
    store_immediate(StorageRows::Halfword { imm, sil }, operand)
}

// A store of a byte.
fn store_byte(imm: u8, operand: &MemArg) -> Option<MemoryInst>
    ensures row { option_map memory_instruction_of result
        ≡ store_immediate (SiForm (low_byte imm) opcodes.MVI opcodes.MVIY) operand.now }
    ensures encodes { IfSome result (λ x. may_encode x ≡ true) }
{
    store_immediate(
        StorageRows::Byte {
            imm: low_byte(imm),
            si: opcodes::MVI as u8,
            siy: opcodes::MVIY,
        },
        operand,
    )
}

// The opcodes of an operator's rows with an operand in memory.
#[tactic(auto, using(crate::proofs::Opcodes::alu_rx_general))]
fn alu_rx(op: ALUOp) -> Option<u8>
    ensures value { result ≡ alu_rx op }
    ensures general { rows_take_general result ≡ true }
{
    rows_of_alu(op).rx
}

#[tactic(auto, using(crate::proofs::Opcodes::alu_rxy_general))]
fn alu_rxy(op: ALUOp) -> Option<u16>
    ensures value { result ≡ alu_rxy op }
    ensures general { rows_take_general result ≡ true }
{
    rows_of_alu(op).rxy
}

#[tactic(auto, using(crate::proofs::Opcodes::cmp_rx_general))]
fn cmp_rx(op: CmpOp) -> Option<u8>
    ensures value { result ≡ cmp_rx op }
    ensures general { rows_take_general result ≡ true }
{
    rows_of_cmp(op).rx
}

#[tactic(auto, using(crate::proofs::Opcodes::cmp_rxy_general))]
fn cmp_rxy(op: CmpOp) -> Option<u16>
    ensures value { result ≡ cmp_rxy op }
    ensures general { rows_take_general result ≡ true }
{
    rows_of_cmp(op).rxy
}

#[tactic(auto, using(crate::proofs::Opcodes::cmp_ril_short))]
fn cmp_ril(op: CmpOp) -> u16
    ensures value { result ≡ cmp_ril op }
    ensures short { has_12_bits (Some result) ≡ true }
{
    rows_of_cmp(op).ril
}

fn atomic_rsy(op: ALUOp) -> Option<u16>
    ensures { result ≡ atomic_rsy op }
{
    rows_of_alu(op).atomic
}

// An operator on a register and an operand in memory, where it has a row.
#[tactic(auto, using(crate::proofs::Storing::reused_encodes))]
fn operate(op: ALUOp, rd: &Writable<Reg>, ri: &Reg, operand: &MemArg) -> Option<MemoryInst>
    ensures row { option_map memory_instruction_of result
        ≡ memory (Inst.AluRX op rd.now ri.now operand.now) }
    ensures encodes { IfSome result (λ x. may_encode x ≡ true) }
{
    let rx = alu_rx(op);
    let rxy = alu_rxy(op);
    if rx.is_none() && rxy.is_none() {
        return None;
    }
    let register = rd.to_reg();
    Some(MemoryInst {
        rows: StorageRows::OneRegister {
            register,
            rx,
            rxy,
            ril: None,
        },
        operand: *operand,
        accesses: true,
        operands_valid: is_reused(&register, ri),
        reads_scratch: is_numbered(1, ri),
    })
}

// A comparison of a register with an operand in memory.
#[tactic(auto, using(crate::proofs::Storing::register_encodes))]
fn compare(op: CmpOp, rn: &Reg, operand: &MemArg) -> Option<MemoryInst>
    ensures row { option_map memory_instruction_of result
        ≡ memory (Inst.CmpRX op rn.now operand.now) }
    ensures encodes { IfSome result (λ x. may_encode x ≡ true) }
{
    Some(MemoryInst {
        rows: StorageRows::OneRegister {
            register: *rn,
            rx: cmp_rx(op),
            rxy: cmp_rxy(op),
            ril: Some(cmp_ril(op)),
        },
        operand: *operand,
        accesses: true,
        operands_valid: general(rn),
        reads_scratch: is_numbered(1, rn),
    })
}

// Whether the registers are real Int ones in order.
fn is_range(first: &Reg, last: &Reg) -> bool
    ensures { result ≡ is_range first.now last.now }
{
    two_general(first, last) && number(first) <= number(last)
}

// Registers that are loaded or stored one after another.
#[tactic(auto, using(crate::proofs::Storing::range_encodes))]
fn multiple(
    rt: Reg,
    rt2: Reg,
    rsy: u16,
    reads_scratch: bool,
    operand: &MemArg,
) -> Option<MemoryInst>
    ensures row { option_map memory_instruction_of result
        ≡ multiple rt rt2 rsy reads_scratch operand.now }
    ensures encodes { IfSome result (λ x. may_encode x ≡ true) }
{
    Some(MemoryInst {
        rows: StorageRows::TwoRegisters {
            first: rt,
            second: rt2,
            rs: None,
            rsy: Some(rsy),
        },
        operand: *operand,
        accesses: true,
        operands_valid: is_range(&rt, &rt2),
        reads_scratch,
    })
}

fn load_multiple(rt: &Writable<Reg>, rt2: &Writable<Reg>, operand: &MemArg) -> Option<MemoryInst>
    ensures row { option_map memory_instruction_of result
        ≡ memory (Inst.LoadMultiple64 rt.now rt2.now operand.now) }
    ensures encodes { IfSome result (λ x. may_encode x ≡ true) }
{
    multiple(rt.to_reg(), rt2.to_reg(), opcodes::LMG, false, operand)
}

fn store_multiple(rt: &Reg, rt2: &Reg, operand: &MemArg) -> Option<MemoryInst>
    ensures row { option_map memory_instruction_of result
        ≡ memory (Inst.StoreMultiple64 rt.now rt2.now operand.now) }
    ensures encodes { IfSome result (λ x. may_encode x ≡ true) }
{
    multiple(*rt, *rt2, opcodes::STMG, holds_scratch(rt, rt2), operand)
}

// An operand in memory that is changed in one access, where the operator has a row.
#[tactic(auto, using(crate::proofs::Storing::two_encode))]
fn load_and_operate(op: ALUOp, rd: &Writable<Reg>, rn: &Reg, operand: &MemArg) -> Option<MemoryInst>
    ensures row { option_map memory_instruction_of result
        ≡ load_and_operate (atomic_rsy op) rd.now rn.now operand.now }
    ensures encodes { IfSome result (λ x. may_encode x ≡ true) }
{
    let first = rd.to_reg();
    match atomic_rsy(op) {
        Some(opcode) => Some(MemoryInst {
            rows: StorageRows::TwoRegisters {
                first,
                second: *rn,
                rs: None,
                rsy: Some(opcode),
            },
            operand: *operand,
            accesses: true,
            operands_valid: two_general(&first, rn),
            reads_scratch: is_numbered(1, rn),
        }),
        None => None,
    }
}

// A comparison, and where it is equal a store, in one access.
#[tactic(auto, using(crate::proofs::Storing::swap_encodes))]
fn compare_and_swap(
    rs: Option<u8>,
    rsy: u16,
    rd: &Writable<Reg>,
    ri: &Reg,
    rn: &Reg,
    operand: &MemArg,
) -> Option<MemoryInst>
    ensures row { option_map memory_instruction_of result
        ≡ compare_and_swap rs rsy rd.now ri.now rn.now operand.now }
    ensures encodes { IfSome result (λ x. may_encode x ≡ true) }
{
    let first = rd.to_reg();
    Some(MemoryInst {
        rows: StorageRows::TwoRegisters {
            first,
            second: *rn,
            rs,
            rsy: Some(rsy),
        },
        operand: *operand,
        accesses: true,
        operands_valid: is_reused(&first, ri) && general(rn),
        reads_scratch: is_numbered(1, ri) || is_numbered(1, rn),
    })
}

// A load or a store of one register.
fn find_transfer(inst: &Inst) -> Option<MemoryInst>
    ensures row { option_map memory_instruction_of result
        ≡ by_load load_memory (by_store store_memory None (as_store inst.now)) (as_load inst.now) }
    ensures encodes { IfSome result (λ x. may_encode x ≡ true) }
{
    match inst.as_load() {
        Some(found) => Some(memory_of_load(&found)),
        None => match inst.as_store() {
            Some(found) => Some(memory_of_store(&found)),
            None => None,
        },
    }
}

/// The machine rows and the operand of an instruction with a memory operand, where it is one.
#[inline(always)]
pub fn memory_rows(inst: &Inst) -> Option<MemoryInst>
    ensures row { option_map memory_instruction_of result ≡ memory inst.now }
    ensures encodes { IfSome result (λ x. may_encode x ≡ true) }
{
    match inst {
        Inst::Vector(inst) => vector_memory_rows(inst),
        _ => find_rows(inst),
    }
}

// The rows of any instruction, in one match.
#[rattlefmt::skip]
fn find_rows(inst: &Inst) -> Option<MemoryInst>
    ensures row { option_map memory_instruction_of result ≡ memory inst.now }
    ensures encodes { IfSome result (λ x. may_encode x ≡ true) }
{
    match inst {
        Inst::Vector(inst) => vector_memory_rows(inst),
        Inst::LoadAddr { rd, mem } => load_address(rd, mem),
        Inst::StoreImm8 { imm, mem } => store_byte(*imm, mem),
        Inst::StoreImm16 { imm, mem } => store_halfword(*imm, opcodes::MVHHI, mem),
        Inst::StoreImm32SExt16 { imm, mem } => store_halfword(*imm, opcodes::MVHI, mem),
        Inst::StoreImm64SExt16 { imm, mem } => store_halfword(*imm, opcodes::MVGHI, mem),
        Inst::AluRX { alu_op, rd, ri, mem } => operate(*alu_op, rd, ri, mem),
        Inst::CmpRX { op, rn, mem } => compare(*op, rn, mem),
        Inst::LoadMultiple64 { rt, rt2, mem } => load_multiple(rt, rt2, mem),
        Inst::StoreMultiple64 { rt, rt2, mem } => store_multiple(rt, rt2, mem),
        Inst::AtomicRmw { alu_op, rd, rn, mem } => load_and_operate(*alu_op, rd, rn, mem),
        Inst::AtomicCas32 { rd, ri, rn, mem } => compare_and_swap(Some(opcodes::CS as u8), opcodes::CSY, rd, ri, rn, mem),
        Inst::AtomicCas64 { rd, ri, rn, mem } => compare_and_swap(None, opcodes::CSG, rd, ri, rn, mem),
        _ => find_transfer(inst),
    }
}
