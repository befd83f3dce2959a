//! The emitters of operands, by the formats of the rows.
#![tactic(auto, using(s390x_buffer::proofs::Extending::extends_on, s390x_buffer::proofs::Extending::extends_same))]

ghost use Rattle.std.specs.Prelude.{◌≡◌, ◌<◌, ◌⊎◌, ◌&&◌, true, None, Some, MatchResult, IfSome, IfErr, IsTrue, nat_lt};
ghost use Rattle.s390x_enc.specs.Operands.{is_first_float};
ghost use Rattle.s390x_typed_steps.specs.VectorInstruction.{is_vector};
ghost use Rattle.s390x_base.specs.declared.error.EmitError.TheVariants.{NoMemory};
ghost use Rattle.s390x_buffer.specs.Extends.{Extends};
ghost use Rattle.s390x_typed_steps.specs.Operands.{is_numbered};
ghost use Rattle.s390x_base.specs.Regs.{number_of};
ghost use Rattle.s390x_typed_steps.specs.Memory.{holds_scratch};
ghost use Rattle.s390x_typed_steps.specs.Parts.{memory_parts};
ghost use Rattle.s390x_address.specs.Appended.{with_parts};
ghost use Rattle.s390x_address.specs.Emitters.{access_cause, loads_register, reads_register, reads_registers, is_multiple, pair_valid, relative_opcode, one_register, two_registers, byte_immediate, halfword_immediate, vector_register, float_register};
ghost use Rattle.s390x_address.specs.Rows.{memory_instruction_of, in_state, may_encode, rows_take_general, has_12_bits};

use crate::addressing_modes::is_numbered;
use crate::memory::{MemoryInst, general, vector};
use crate::rows::StorageRows;
use s390x_base::{EmitError, Reg};
use s390x_buffer::MachBuffer;
use s390x_inst::{EmitInfo, EmitState, MemArg};
use s390x_rows::opcodes;
use std::alloc::Global;

/// Code ends below this length.
pub const LIMIT: u64 = 2147483648;

// Emits the instruction, where no cause refuses it and it fits in the buffer.
fn emit_checked(
    found: &MemoryInst,
    sink: &mut MachBuffer,
    state: &EmitState,
) -> Result<(), EmitError>
    requires { may_encode found.now ≡ true }
    ensures answer { MatchResult result
        (λ _. (access_cause sink.old (in_state state.now (memory_instruction_of found.now)) ≡ None)
        × (sink.new
        ≡ with_parts sink.old
        (memory_parts (in_state state.now (memory_instruction_of found.now)))))
        (λ e. (e ≡ NoMemory)
        ⊎ (access_cause sink.old (in_state state.now (memory_instruction_of found.now))
        ≡ Some e)) }
    ensures kept { Extends sink.old sink.new }
{
    if sink.is_poisoned() {
        return Err(EmitError::Failed);
    }
    if let Some(error) = found.cause(sink, state) {
        return Err(error);
    }
    if u64::from(sink.cur_offset()) + found.size(state) >= LIMIT {
        return Err(EmitError::LabelOutOfRange);
    }
    found.emit(sink, state)
}

// Emits it, and poisons the buffer where that is refused.
fn emit_marking(
    found: &MemoryInst,
    sink: &mut MachBuffer,
    state: &EmitState,
) -> Result<(), EmitError>
    requires { may_encode found.now ≡ true }
    ensures answer { MatchResult result
        (λ _. (access_cause sink.old (in_state state.now (memory_instruction_of found.now)) ≡ None)
        × (sink.new
        ≡ with_parts sink.old
        (memory_parts (in_state state.now (memory_instruction_of found.now)))))
        (λ e. (e ≡ NoMemory)
        ⊎ (access_cause sink.old (in_state state.now (memory_instruction_of found.now))
        ≡ Some e)) }
    ensures poisoned { IfErr result (λ _. IsTrue sink.new.is_poisoned) }
    ensures kept { Extends sink.old sink.new }
{
    match emit_checked(found, sink, state) {
        Ok(()) => Ok(()),
        Err(error) => {
            sink.poison();
            Err(error)
        }
    }
}

// An opcode of two digits.
fn short_opcode(opcode: Option<u16>) -> Option<u8>
    requires { IfSome opcode (λ o. o < 256) }
    ensures { result ≡ opcode }
{
    match opcode {
        Some(opcode) => Some(opcode as u8),
        None => None,
    }
}

// Whether a row writes its register without reading it.
fn loads_register(opcode: u16) -> bool
    ensures { result ≡ loads_register opcode }
{
    opcode == opcodes::LG
        || opcode == opcodes::LRVG
        || opcode == opcodes::LGF
        || opcode == opcodes::LGH
        || opcode == opcodes::LLGF
        || opcode == opcodes::LRV
        || opcode == opcodes::LRVH
        || opcode == opcodes::LY
        || opcode == opcodes::LAY
        || opcode == opcodes::LB
        || opcode == opcodes::LGB
        || opcode == opcodes::LHY
        || opcode == opcodes::LLGC
        || opcode == opcodes::LLGH
        || opcode == opcodes::LLC
        || opcode == opcodes::LLH
}

// Whether the rows read their register.
fn reads_register(opcode_rxy: Option<u16>) -> bool
    ensures { result ≡ reads_register opcode_rxy }
{
    match opcode_rxy {
        Some(opcode) => !loads_register(opcode),
        None => true,
    }
}

/// The number of a register.
pub fn number(r: &Reg) -> u32
    ensures { result ≡ number_of r.now }
{
    match r {
        Reg::Real(preg) => u32::from(preg.hw_enc()),
        Reg::Virtual { num, .. } => *num,
    }
}

/// Whether `%r1` is one of the registers from the first to the last.
pub fn holds_scratch(first: &Reg, last: &Reg) -> bool
    ensures { result ≡ holds_scratch first.now last.now }
{
    number(first) <= 1 && 1 <= number(last)
}

fn is_scratch(r: &Reg) -> bool
    ensures { result ≡ is_numbered 1 r.now }
{
    is_numbered(1, r)
}

// Whether the rows read `%r1` as one of their two registers.
fn reads_registers(opcode_rsy: Option<u16>, rd: &Reg, rn: &Reg) -> bool
    ensures { result ≡ reads_registers opcode_rsy rd.now rn.now }
{
    match opcode_rsy {
        Some(opcode) => {
            if opcode == opcodes::LMG {
                false
            } else if opcode == opcodes::STMG {
                holds_scratch(rd, rn)
            } else if opcode == opcodes::CSY || opcode == opcodes::CSG {
                is_scratch(rd) || is_scratch(rn)
            } else {
                is_scratch(rn)
            }
        }
        None => is_scratch(rd) || is_scratch(rn),
    }
}

// Whether the rows are those of a multiple load or a multiple store.
fn is_multiple(opcode_rsy: Option<u16>) -> bool
    ensures { result ≡ is_multiple opcode_rsy }
{
    match opcode_rsy {
        Some(opcode) => opcode == opcodes::LMG || opcode == opcodes::STMG,
        None => false,
    }
}

// Whether two registers may stand in the rows.
fn is_valid_pair(opcode_rsy: Option<u16>, rd: &Reg, rn: &Reg) -> bool
    ensures { result ≡ pair_valid opcode_rsy rd.now rn.now }
{
    general(rd) && general(rn) && (!is_multiple(opcode_rsy) || number(rd) <= number(rn))
}

// The row relative to the instruction; none where it accesses memory on a machine that lacks such rows.
fn relative_opcode(info: &EmitInfo, accesses: bool, opcode: Option<u16>) -> Option<u16>
    requires { has_12_bits opcode ≡ true }
    ensures value { result ≡ relative_opcode info.now accesses opcode }
    ensures short { has_12_bits result ≡ true }
{
    if accesses && info.isa_flags.no_relative_memory {
        None
    } else {
        opcode
    }
}

/// Emits a row of format RX, RXY or RIL-B with a register and an operand, behind the helpers of the operand; where `add_trap` is true, the row
/// accesses memory, and the flags' trap is recorded at it. The row of format RIL-B takes a label, a constant or a symbol, whose distance the
/// buffer's end or, for a symbol, linking fills in; where it accesses memory, it is used only on a machine that has such rows by `emit_info`.
///
/// It answers want of memory, or exactly the first cause: the buffer is poisoned (`Failed`), no form for the operand (`BadOperator`), a register that can't
/// be encoded (`BadRegister`), `%r1` read behind a helper (`ScratchConflict`), an offset, or that of a symbol plus 2, past 32 bits
/// (`OffsetOutOfRange`), a label that names no block or a constant that isn't declared (`UnboundLabel`), a label in a relative access of more than
/// two bytes or a constant that is aligned below its relative access (`BadAlignment`), the length (`LabelOutOfRange`). A refused call poisons the
/// buffer and leaves what stood in it; the state stays as it was (cranelift-codegen, `emit.rs`).
#[tactic(auto, using(crate::proofs::Encoding::register_encodes))]
pub fn mem_emit(
    _alloc: Global,
    rd: Reg,
    mem: &MemArg,
    opcode_rx: Option<u16>,
    opcode_rxy: Option<u16>,
    opcode_ril: Option<u16>,
    add_trap: bool,
    sink: &mut MachBuffer,
    emit_info: &EmitInfo,
    state: &mut EmitState,
) -> Result<(), EmitError>
    requires short { IfSome opcode_rx (λ o. o < 256) }
    requires integer { (rows_take_general opcode_rx && rows_take_general opcode_rxy) ≡ true }
    requires relative { has_12_bits opcode_ril ≡ true }
    ensures answer { let access = in_state state.old
        (one_register rd opcode_rx opcode_rxy (relative_opcode emit_info.now add_trap opcode_ril)
        add_trap mem.now) in
        MatchResult result
        (λ _. (access_cause sink.old access ≡ None)
        × (sink.new ≡ with_parts sink.old (memory_parts access)))
        (λ e. (e ≡ NoMemory) ⊎ (access_cause sink.old access ≡ Some e)) }
    ensures poisoned { IfErr result (λ _. IsTrue sink.new.is_poisoned) }
    ensures kept { Extends sink.old sink.new }
    ensures state { state.new ≡ state.old }
{
    let found = MemoryInst {
        rows: StorageRows::OneRegister {
            register: rd,
            rx: short_opcode(opcode_rx),
            rxy: opcode_rxy,
            ril: relative_opcode(emit_info, add_trap, opcode_ril),
        },
        operand: *mem,
        accesses: add_trap,
        operands_valid: general(&rd),
        reads_scratch: reads_register(opcode_rxy) && is_scratch(&rd),
    };
    emit_marking(&found, sink, state)
}

/// Emits a row of format RS or RSY with two registers and an operand, as `mem_emit` does; there is no index and no relative form. A multiple load or
/// store (`0xeb04`, `0xeb24`) whose first register is above its last is refused by `BadRegister`, as `Inst::emit` does.
#[tactic(auto, using(crate::proofs::Encoding::two_encode))]
pub fn mem_rs_emit(
    _alloc: Global,
    rd: Reg,
    rn: Reg,
    mem: &MemArg,
    opcode_rs: Option<u16>,
    opcode_rsy: Option<u16>,
    add_trap: bool,
    sink: &mut MachBuffer,
    _emit_info: &EmitInfo,
    state: &mut EmitState,
) -> Result<(), EmitError>
    requires { IfSome opcode_rs (λ o. o < 256) }
    ensures answer { let access = in_state state.old
        (two_registers rd rn opcode_rs opcode_rsy add_trap mem.now) in
        MatchResult result
        (λ _. (access_cause sink.old access ≡ None)
        × (sink.new ≡ with_parts sink.old (memory_parts access)))
        (λ e. (e ≡ NoMemory) ⊎ (access_cause sink.old access ≡ Some e)) }
    ensures poisoned { IfErr result (λ _. IsTrue sink.new.is_poisoned) }
    ensures kept { Extends sink.old sink.new }
    ensures state { state.new ≡ state.old }
{
    let found = MemoryInst {
        rows: StorageRows::TwoRegisters {
            first: rd,
            second: rn,
            rs: short_opcode(opcode_rs),
            rsy: opcode_rsy,
        },
        operand: *mem,
        accesses: add_trap,
        operands_valid: is_valid_pair(opcode_rsy, &rd, &rn),
        reads_scratch: reads_registers(opcode_rsy, &rd, &rn),
    };
    emit_marking(&found, sink, state)
}

/// Emits a row of format SI or SIY with an immediate of 8 bits and an operand, as `mem_emit` does; there is no index
/// and no relative form. Errors come as there.
pub fn mem_imm8_emit(
    _alloc: Global,
    imm: u8,
    mem: &MemArg,
    opcode_si: u16,
    opcode_siy: u16,
    add_trap: bool,
    sink: &mut MachBuffer,
    _emit_info: &EmitInfo,
    state: &mut EmitState,
) -> Result<(), EmitError>
    requires { opcode_si < 256 }
    ensures answer { let access = in_state state.old
        (byte_immediate imm opcode_si opcode_siy add_trap mem.now) in
        MatchResult result
        (λ _. (access_cause sink.old access ≡ None)
        × (sink.new ≡ with_parts sink.old (memory_parts access)))
        (λ e. (e ≡ NoMemory) ⊎ (access_cause sink.old access ≡ Some e)) }
    ensures poisoned { IfErr result (λ _. IsTrue sink.new.is_poisoned) }
    ensures kept { Extends sink.old sink.new }
    ensures state { state.new ≡ state.old }
{
    let found = MemoryInst {
        rows: StorageRows::Byte {
            imm,
            si: opcode_si as u8,
            siy: opcode_siy,
        },
        operand: *mem,
        accesses: add_trap,
        operands_valid: true,
        reads_scratch: false,
    };
    emit_marking(&found, sink, state)
}

/// Emits a row of format SIL with an immediate of 16 bits and an operand, as `mem_emit` does; there are 12 bits of
/// displacement alone, no index and no relative form. Errors come as there.
pub fn mem_imm16_emit(
    _alloc: Global,
    imm: i16,
    mem: &MemArg,
    opcode_sil: u16,
    add_trap: bool,
    sink: &mut MachBuffer,
    _emit_info: &EmitInfo,
    state: &mut EmitState,
) -> Result<(), EmitError>
    ensures answer { let access = in_state state.old
        (halfword_immediate imm opcode_sil add_trap mem.now) in
        MatchResult result
        (λ _. (access_cause sink.old access ≡ None)
        × (sink.new ≡ with_parts sink.old (memory_parts access)))
        (λ e. (e ≡ NoMemory) ⊎ (access_cause sink.old access ≡ Some e)) }
    ensures poisoned { IfErr result (λ _. IsTrue sink.new.is_poisoned) }
    ensures kept { Extends sink.old sink.new }
    ensures state { state.new ≡ state.old }
{
    let found = MemoryInst {
        rows: StorageRows::Halfword {
            imm,
            sil: opcode_sil,
        },
        operand: *mem,
        accesses: add_trap,
        operands_valid: true,
        reads_scratch: false,
    };
    emit_marking(&found, sink, state)
}

/// Emits a row of format VRX with a vector register, an operand and a mask, as `mem_emit` does; there are 12 bits of
/// displacement alone, with an index, and no relative form. Errors come as there.
#[tactic(auto, using(crate::proofs::Encoding::vector_encodes))]
pub fn mem_vrx_emit(
    _alloc: Global,
    rd: Reg,
    mem: &MemArg,
    opcode: u16,
    m3: u8,
    add_trap: bool,
    sink: &mut MachBuffer,
    _emit_info: &EmitInfo,
    state: &mut EmitState,
) -> Result<(), EmitError>
    requires { m3 < 16 }
    ensures answer { let access = in_state state.old
        (vector_register rd opcode m3 add_trap mem.now) in
        MatchResult result
        (λ _. (access_cause sink.old access ≡ None)
        × (sink.new ≡ with_parts sink.old (memory_parts access)))
        (λ e. (e ≡ NoMemory) ⊎ (access_cause sink.old access ≡ Some e)) }
    ensures poisoned { IfErr result (λ _. IsTrue sink.new.is_poisoned) }
    ensures kept { Extends sink.old sink.new }
    ensures state { state.new ≡ state.old }
{
    let found = MemoryInst {
        rows: StorageRows::Vector {
            register: rd,
            vrx: opcode,
            mask: m3,
        },
        operand: *mem,
        accesses: add_trap,
        operands_valid: vector(&rd),
        reads_scratch: false,
    };
    emit_marking(&found, sink, state)
}

// Whether the register is a real float one.
fn float(r: &Reg) -> bool
    ensures { result ≡ is_vector r.now && nat_lt (number_of r.now) 16 }
{
    vector(r) && number(r) < 16
}

/// Emits a row of format RX or RXY with a float register and an operand, as `mem_emit` does; there is no relative
/// form. Errors come as there.
#[tactic(auto, using(crate::proofs::Encoding::float_register_encodes))]
pub fn mem_float_emit(
    _alloc: Global,
    rd: Reg,
    mem: &MemArg,
    opcode_rx: u8,
    opcode_rxy: u16,
    add_trap: bool,
    sink: &mut MachBuffer,
    _emit_info: &EmitInfo,
    state: &mut EmitState,
) -> Result<(), EmitError>
    requires { (is_first_float opcode_rx && is_first_float opcode_rxy) ≡ true }
    ensures answer { let access = in_state state.old
        (float_register rd opcode_rx opcode_rxy add_trap mem.now) in
        MatchResult result
        (λ _. (access_cause sink.old access ≡ None)
        × (sink.new ≡ with_parts sink.old (memory_parts access)))
        (λ e. (e ≡ NoMemory) ⊎ (access_cause sink.old access ≡ Some e)) }
    ensures poisoned { IfErr result (λ _. IsTrue sink.new.is_poisoned) }
    ensures kept { Extends sink.old sink.new }
    ensures state { state.new ≡ state.old }
{
    let found = MemoryInst {
        rows: StorageRows::Float {
            register: rd,
            rx: opcode_rx,
            rxy: opcode_rxy,
        },
        operand: *mem,
        accesses: add_trap,
        operands_valid: float(&rd),
        reads_scratch: false,
    };
    emit_marking(&found, sink, state)
}
