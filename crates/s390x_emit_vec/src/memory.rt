//! Loads and stores of vector registers: their machine rows.
ghost use Rattle.std.specs.Prelude.{◌≡◌, ◌<◌, ◌≤◌, ◌&&◌, ◌||◌, not, true, IfSome};
ghost use Rattle.std.specs.Option.{option_map};
ghost use Rattle.s390x_base.specs.Regs.{number_of};
ghost use Rattle.s390x_enc.specs.Operands.{is_first_float};
ghost use Rattle.s390x_address.specs.Rows.{memory_instruction_of, storage_form_of, relative_encodes, rows_encode, may_encode};
ghost use Rattle.s390x_inst.specs.Wholes.{by_direction};
ghost use Rattle.s390x_typed_steps.specs.Memory.{VrxForm, FloatForm, access_vector, access_elements, access_lane, reversed_code, is_left_lane, load_left, store_left, load_lane_opcode, store_lane_opcode, load_reversed_opcode, store_reversed_opcode, lane_memory, part_memory, whole_memory, vector_memory};
ghost use Rattle.s390x_typed_steps.specs.VectorInstruction.{is_vector, reuses_vector};
ghost use Rattle.s390x_emit_vec.specs.Memory.{lane_opcode};

use crate::codes::{number, reuses};
use crate::lanes::{element_code, is_lane};
use s390x_address::{MemoryInst, StorageRows, vector};
use s390x_base::Reg;
use s390x_inst::{Direction, MemArg, VecInst, WholeAccess, rows};
use s390x_rows::opcodes;
use s390x_typed_steps::{WholeRows, rows_of_layout};

/// What is done with one element, and whether its bytes are reversed.
#[derive(Clone, Copy)]
pub enum LaneAccess {
    Load,
    LoadReversed,
    Store,
    StoreReversed,
}

/// An element of a vector register: how many bits it has, and its number from the left.
#[derive(Clone, Copy)]
pub struct Element {
    pub size: u32,
    pub lane: u8,
}

fn load_opcode(code: u8) -> u16
    ensures { result ≡ load_lane_opcode code }
{
    match code {
        0 => opcodes::VLEB,
        1 => opcodes::VLEH,
        2 => opcodes::VLEF,
        _ => opcodes::VLEG,
    }
}

fn load_reversed_opcode(code: u8) -> u16
    ensures { result ≡ load_reversed_opcode code }
{
    match code {
        1 => opcodes::VLEBRH,
        2 => opcodes::VLEBRF,
        _ => opcodes::VLEBRG,
    }
}

fn store_opcode(code: u8) -> u16
    ensures { result ≡ store_lane_opcode code }
{
    match code {
        0 => opcodes::VSTEB,
        1 => opcodes::VSTEH,
        2 => opcodes::VSTEF,
        _ => opcodes::VSTEG,
    }
}

fn store_reversed_opcode(code: u8) -> u16
    ensures { result ≡ store_reversed_opcode code }
{
    match code {
        1 => opcodes::VSTEBRH,
        2 => opcodes::VSTEBRF,
        _ => opcodes::VSTEBRG,
    }
}

fn lane_opcode(access: LaneAccess, code: u8) -> u16
    ensures { result ≡ lane_opcode access code }
{
    match access {
        LaneAccess::Load => load_opcode(code),
        LaneAccess::LoadReversed => load_reversed_opcode(code),
        LaneAccess::Store => store_opcode(code),
        LaneAccess::StoreReversed => store_reversed_opcode(code),
    }
}

// The code of elements of several bytes.
fn reversed_code(size: u32) -> Option<u8>
    ensures code { result ≡ reversed_code size }
    ensures few { IfSome result (λ c. c < 4) }
    ensures size { IfSome result (λ _. 8 ≤ size) }
{
    if size == 8 { None } else { element_code(size) }
}

// An access by a row, where its register may stand there.
#[inline(always)]
fn access_by_rows(valid: bool, rows: StorageRows, operand: &MemArg) -> Option<MemoryInst>
    requires { (relative_encodes rows && (not valid || rows_encode rows)) ≡ true }
    ensures row { option_map memory_instruction_of result
        ≡ access_vector valid (storage_form_of rows) operand.now }
    ensures encodes { IfSome result (λ x. may_encode x ≡ true) }
{
    Some(MemoryInst {
        rows,
        operand: *operand,
        accesses: true,
        operands_valid: valid,
        reads_scratch: false,
    })
}

#[inline(always)]
#[tactic(auto, using(crate::proofs::Accessing::masked_encodes))]
fn masked_access(
    valid: bool,
    register: Reg,
    opcode: u16,
    mask: u8,
    operand: &MemArg,
) -> Option<MemoryInst>
    requires valid { valid ≡ true → is_vector register ≡ true }
    requires mask { mask < 16 }
    ensures row { option_map memory_instruction_of result
        ≡ access_vector valid (VrxForm (number_of register) opcode mask) operand.now }
    ensures encodes { IfSome result (λ x. may_encode x ≡ true) }
{
    access_by_rows(
        valid,
        StorageRows::Vector {
            register,
            vrx: opcode,
            mask,
        },
        operand,
    )
}

// A register and its elements, by the code of their size.
#[inline(always)]
fn elements(opcode: u16, register: Reg, code: Option<u8>, operand: &MemArg) -> Option<MemoryInst>
    requires { IfSome code (λ c. c < 16) }
    ensures row { option_map memory_instruction_of result
        ≡ access_elements opcode register code operand.now }
    ensures encodes { IfSome result (λ x. may_encode x ≡ true) }
{
    match code {
        Some(code) => {
            let valid = vector(&register);
            masked_access(valid, register, opcode, code, operand)
        }
        None => None,
    }
}

// One element, where there is such a one.
#[tactic(auto, using(crate::proofs::Accessing::few_lanes))]
fn one_lane(
    access: LaneAccess,
    valid: bool,
    register: Reg,
    code: Option<u8>,
    element: Element,
    operand: &MemArg,
) -> Option<MemoryInst>
    requires valid { valid ≡ true → is_vector register ≡ true }
    requires size { IfSome code (λ _. 8 ≤ element.size) }
    ensures row { option_map memory_instruction_of result
        ≡ access_lane valid (lane_opcode access) (number_of register) code element.size
        element.lane operand.now }
    ensures encodes { IfSome result (λ x. may_encode x ≡ true) }
{
    match code {
        Some(code) => {
            if is_lane(element.size, element.lane) {
                let opcode = lane_opcode(access, code);
                masked_access(valid, register, opcode, element.lane, operand)
            } else {
                None
            }
        }
        None => None,
    }
}

// One element of a register that is also an input.
#[tactic(auto, using(crate::proofs::Encoding::reused_real))]
fn reused_lane(
    access: LaneAccess,
    register: Reg,
    input: Reg,
    code: Option<u8>,
    element: Element,
    operand: &MemArg,
) -> Option<MemoryInst>
    requires { IfSome code (λ _. 8 ≤ element.size) }
    ensures row { option_map memory_instruction_of result
        ≡ access_lane (reuses_vector register input) (lane_opcode access) (number_of register) code
        element.size element.lane operand.now }
    ensures encodes { IfSome result (λ x. may_encode x ≡ true) }
{
    let valid = reuses(&register, &input);
    one_lane(access, valid, register, code, element, operand)
}

// One element of a register.
fn lane_of(
    access: LaneAccess,
    register: Reg,
    code: Option<u8>,
    element: Element,
    operand: &MemArg,
) -> Option<MemoryInst>
    requires { IfSome code (λ _. 8 ≤ element.size) }
    ensures row { option_map memory_instruction_of result
        ≡ access_lane (is_vector register) (lane_opcode access) (number_of register) code
        element.size element.lane operand.now }
    ensures encodes { IfSome result (λ x. may_encode x ≡ true) }
{
    let valid = vector(&register);
    one_lane(access, valid, register, code, element, operand)
}

// The leftmost word or doubleword of a register that is a float register too.
fn is_left_lane(size: u32, lane: u8, register: &Reg) -> bool
    ensures { result ≡ is_left_lane size lane (number_of register.now) }
{
    (size == 32 || size == 64) && lane == 0 && number(register) < 16
}

#[tactic(auto, using(crate::proofs::Accessing::floats_encode))]
fn float(register: Reg, rx: u8, rxy: u16, operand: &MemArg) -> Option<MemoryInst>
    requires floats { (is_first_float rx && is_first_float rxy) ≡ true }
    requires low { number_of register < 16 }
    ensures row { option_map memory_instruction_of result
        ≡ access_vector (is_vector register) (FloatForm (number_of register) rx rxy) operand.now }
    ensures encodes { IfSome result (λ x. may_encode x ≡ true) }
{
    let valid = vector(&register);
    access_by_rows(valid, StorageRows::Float { register, rx, rxy }, operand)
}

fn load_left(size: u32, register: Reg, operand: &MemArg) -> Option<MemoryInst>
    requires { number_of register < 16 }
    ensures row { option_map memory_instruction_of result
        ≡ access_vector (is_vector register) (load_left size (number_of register)) operand.now }
    ensures encodes { IfSome result (λ x. may_encode x ≡ true) }
{
    if size == 32 {
        float(register, opcodes::LE as u8, opcodes::LEY, operand)
    } else {
        float(register, opcodes::LD as u8, opcodes::LDY, operand)
    }
}

fn store_left(size: u32, register: Reg, operand: &MemArg) -> Option<MemoryInst>
    requires { number_of register < 16 }
    ensures row { option_map memory_instruction_of result
        ≡ access_vector (is_vector register) (store_left size (number_of register)) operand.now }
    ensures encodes { IfSome result (λ x. may_encode x ≡ true) }
{
    if size == 32 {
        float(register, opcodes::STE as u8, opcodes::STEY, operand)
    } else {
        float(register, opcodes::STD as u8, opcodes::STDY, operand)
    }
}

// One element, where the others may become any.
#[tactic(auto, using(crate::proofs::Accessing::left_low))]
fn load_alone(size: u32, register: Reg, lane: u8, operand: &MemArg) -> Option<MemoryInst>
    ensures row { option_map memory_instruction_of result
        ≡ vector_memory (VecInst.VecLoadLaneUndef size register operand.now lane) }
    ensures encodes { IfSome result (λ x. may_encode x ≡ true) }
{
    if is_left_lane(size, lane, &register) {
        load_left(size, register, operand)
    } else {
        let code = element_code(size);
        let element = Element { size, lane };
        lane_of(LaneAccess::Load, register, code, element, operand)
    }
}

#[tactic(auto, using(crate::proofs::Accessing::left_low))]
fn store_lane(size: u32, register: Reg, lane: u8, operand: &MemArg) -> Option<MemoryInst>
    ensures row { option_map memory_instruction_of result
        ≡ vector_memory (VecInst.VecStoreLane size register operand.now lane) }
    ensures encodes { IfSome result (λ x. may_encode x ≡ true) }
{
    if is_left_lane(size, lane, &register) {
        store_left(size, register, operand)
    } else {
        let code = element_code(size);
        let element = Element { size, lane };
        lane_of(LaneAccess::Store, register, code, element, operand)
    }
}

// Accesses of one element.
fn lane_memory(inst: &VecInst) -> Option<MemoryInst>
    ensures row { option_map memory_instruction_of result ≡ lane_memory inst.now }
    ensures encodes { IfSome result (λ x. may_encode x ≡ true) }
{
    rows! { inst,
        VecInst {
            VecLoadLane { size, rd, ri, mem, lane_imm } =>
                reused_lane(LaneAccess::Load, rd.to_reg(), *ri, element_code(*size), Element { size: *size, lane: *lane_imm }, mem),
            VecLoadLaneRev { size, rd, ri, mem, lane_imm } =>
                reused_lane(LaneAccess::LoadReversed, rd.to_reg(), *ri, reversed_code(*size), Element { size: *size, lane: *lane_imm }, mem),
            VecLoadLaneUndef { size, rd, mem, lane_imm } => load_alone(*size, rd.to_reg(), *lane_imm, mem),
            VecLoadLaneRevUndef { size, rd, mem, lane_imm } =>
                lane_of(LaneAccess::LoadReversed, rd.to_reg(), reversed_code(*size), Element { size: *size, lane: *lane_imm }, mem),
            VecStoreLane { size, rd, mem, lane_imm } => store_lane(*size, *rd, *lane_imm, mem),
            VecStoreLaneRev { size, rd, mem, lane_imm } =>
                lane_of(LaneAccess::StoreReversed, *rd, reversed_code(*size), Element { size: *size, lane: *lane_imm }, mem),
        }
        _ => None,
    }
}

// The opcode of a load or a store.
#[inline(always)]
fn opcode_of(rows: WholeRows, direction: Direction) -> u16
    ensures { result ≡ by_direction direction rows.load_opcode rows.store_opcode }
{
    match direction {
        Direction::Load => rows.load_opcode,
        Direction::Store => rows.store_opcode,
    }
}

// A load or a store of a whole register.
#[inline(always)]
#[tactic(auto, using(crate::proofs::Accessing::few_masks))]
fn whole_memory(whole: &WholeAccess) -> Option<MemoryInst>
    ensures row { option_map memory_instruction_of result ≡ whole_memory whole.now }
    ensures encodes { IfSome result (λ x. may_encode x ≡ true) }
{
    let rows = rows_of_layout(whole.layout);
    let opcode = opcode_of(rows, whole.direction);
    elements(opcode, whole.rd, Some(rows.mask), &whole.mem)
}

// A load or a store of elements, of one of a register or of one that goes to all.
fn part_memory(inst: &VecInst) -> Option<MemoryInst>
    ensures row { option_map memory_instruction_of result ≡ part_memory inst.now }
    ensures encodes { IfSome result (λ x. may_encode x ≡ true) }
{
    match inst {
        VecInst::VecLoadReplicate { size, rd, mem } => {
            elements(opcodes::VLREP, rd.to_reg(), element_code(*size), mem)
        }
        VecInst::VecLoadReplicateRev { size, rd, mem } => {
            elements(opcodes::VLBRREP, rd.to_reg(), reversed_code(*size), mem)
        }
        _ => lane_memory(inst),
    }
}

/// The machine rows and the operand of a load or a store of a vector register; None for another instruction, and where there is no such element.
#[inline(always)]
pub fn vector_memory_rows(inst: &VecInst) -> Option<MemoryInst>
    ensures row { option_map memory_instruction_of result ≡ vector_memory inst.now }
    ensures encodes { IfSome result (λ x. may_encode x ≡ true) }
{
    match inst.as_whole() {
        Some(whole) => whole_memory(&whole),
        None => part_memory(inst),
    }
}
