//! The texts of loads and stores of vector and float registers.
ghost use Rattle.std.specs.Prelude.{◌≡◌, ◌++◌, ◌∷◌, [], OnOk, None, Some, string_bytes};
ghost use Rattle.std.specs.Option.{option_map};
ghost use Rattle.s390x_format.specs.Stems.{stem_of};
ghost use Rattle.s390x_inst.specs.declared.whole.WholeLayout.TheVariants.{Straight};
ghost use Rattle.s390x_text_rows.specs.VectorMnemonics.{mnemonic_text, whole_name};
ghost use Rattle.s390x_job_fields.specs.Atoms.{reg_text};
ghost use Rattle.s390x_text_rows.specs.Storage.{rx, access, offset_text};
ghost use Rattle.s390x_text_rows.specs.Texts.{Prints, PrintsWhere, fixed_text, instruction_text};
ghost use Rattle.s390x_text_rows.specs.Vector.{replicated_name, reversed_replicated_name, load_lane_text, store_lane_text, vec_whole_text, vec_part_text, vector_text};

use crate::error::TextError;
use crate::near_offset::{BaseOffset, near_offset, put_place};
use crate::operand::Float;
use crate::register_names::put_vector_behind;
use crate::regs::is_float;
use crate::storage::{Place, lettered_access, other_lettered, rx_access, vrx_access};
use crate::vector::{
    lane_row, put_vec_binary, put_vec_lane, put_vec_move, put_vec_operator, reversed_row,
};
use crate::vector_mnemonics::{Letters, Mnemonic, whole_name};
use s390x_base::Reg;
use s390x_inst::{Direction, EmitState, MemArg, VecInst, WholeLayout};
use s390x_rows::opcodes;
use s390x_typed_steps::RegisterRows;
use std::alloc::{AllocError, Global};

// The stem with the letter of a lane's width in bits: 8, 16, 32 or 64; None for another width.
fn replicated_name(opcode: u16, size: u32) -> Option<Mnemonic>
    ensures { option_map mnemonic_text result ≡ replicated_name (stem_of opcode) size }
{
    let letters = match size {
        8 => Letters::B,
        16 => Letters::H,
        32 => Letters::F,
        64 => Letters::G,
        _ => return None,
    };
    Some(Mnemonic { opcode, letters })
}

// The stem with the letter of a lane's width in bits from 16 on, where bytes are reversed.
fn reversed_replicated_name(opcode: u16, size: u32) -> Option<Mnemonic>
    ensures { option_map mnemonic_text result ≡ reversed_replicated_name (stem_of opcode) size }
{
    let letters = match size {
        16 => Letters::H,
        32 => Letters::F,
        64 => Letters::G,
        _ => return None,
    };
    Some(Mnemonic { opcode, letters })
}

// A load of lane 0 into a float register, or of a lane.
fn put_load_lane(
    out: &mut String,
    place: Place,
    size: u32,
    rd: Reg,
    lane: u8,
) -> Result<(), TextError>
    ensures { Prints result (string_bytes out.old) (string_bytes out.new)
        (load_lane_text place.entry.state.now size rd place.entry.mem.now lane) }
{
    let floats = is_float(&rd);
    if floats && lane == 0 && size == 32 {
        let rows = RegisterRows {
            rx: Some(opcodes::LE as u8),
            rxy: Some(opcodes::LEY),
            ril: None,
        };
        return rx_access(out, place, rows, &Float(rd));
    }
    if floats && lane == 0 && size == 64 {
        let rows = RegisterRows {
            rx: Some(opcodes::LD as u8),
            rxy: Some(opcodes::LDY),
            ril: None,
        };
        return rx_access(out, place, rows, &Float(rd));
    }
    let row = lane_row(
        opcodes::VLEB,
        opcodes::VLEH,
        opcodes::VLEF,
        opcodes::VLEG,
        size,
        lane,
    );
    vrx_access(out, place, row, &rd, &lane)
}

// A store of lane 0 of a float register, or of a lane.
fn put_store_lane(
    out: &mut String,
    place: Place,
    size: u32,
    rd: Reg,
    lane: u8,
) -> Result<(), TextError>
    ensures { Prints result (string_bytes out.old) (string_bytes out.new)
        (store_lane_text place.entry.state.now size rd place.entry.mem.now lane) }
{
    let floats = is_float(&rd);
    if floats && lane == 0 && size == 32 {
        let rows = RegisterRows {
            rx: Some(opcodes::STE as u8),
            rxy: Some(opcodes::STEY),
            ril: None,
        };
        return rx_access(out, place, rows, &Float(rd));
    }
    if floats && lane == 0 && size == 64 {
        let rows = RegisterRows {
            rx: Some(opcodes::STD as u8),
            rxy: Some(opcodes::STDY),
            ril: None,
        };
        return rx_access(out, place, rows, &Float(rd));
    }
    let row = lane_row(
        opcodes::VSTEB,
        opcodes::VSTEH,
        opcodes::VSTEF,
        opcodes::VSTEG,
        size,
        lane,
    );
    vrx_access(out, place, row, &rd, &lane)
}

// The mnemonic of a load or a store of a whole register as it stands in memory, and a register behind a space.
#[inline(always)]
fn put_straight_name(out: &mut String, direction: Direction, r: &Reg) -> Result<(), AllocError>
    ensures { OnOk result
        (string_bytes out.new
        ≡ string_bytes out.old
        ++ instruction_text (whole_name direction Straight) (reg_text r.now ∷ [])) }
{
    match direction {
        Direction::Load => put_vector_behind(out, "vl ", "vl %v", r),
        Direction::Store => put_vector_behind(out, "vst ", "vst %v", r),
    }
}

// Such a load or a store at an offset that its displacement holds.
#[inline(always)]
fn put_near_straight(
    out: &mut String,
    direction: Direction,
    r: &Reg,
    at: BaseOffset,
) -> Result<(), TextError>
    ensures { Prints result (string_bytes out.old) (string_bytes out.new)
        (fixed_text
        (instruction_text (whole_name direction Straight)
        (reg_text r.now ∷ offset_text at.off at.base ∷ []))) }
{
    match put_straight_name(out, direction, r) {
        Ok(()) => put_place(out, &at),
        Err(error) => Err(TextError::from(error)),
    }
}

// Appends the text of such a load or store.
#[inline(never)]
fn put_straight(
    alloc: Global,
    out: &mut String,
    state: &EmitState,
    direction: Direction,
    rd: Reg,
    mem: &MemArg,
) -> Result<(), TextError>
    ensures { Prints result (string_bytes out.old) (string_bytes out.new)
        (access (rx (Some (whole_name direction Straight)) None None) state.now
        (reg_text rd ∷ []) mem.now []) }
{
    let name = whole_name(direction, WholeLayout::Straight);
    match near_offset(Some(name.opcode), None, mem) {
        Some(near) => put_near_straight(out, direction, &rd, near.at),
        None => {
            let place = Place {
                alloc,
                has_relative: true,
                state,
                mem,
            };
            other_lettered(out, place, name, &rd)
        }
    }
}

/// Appends the text of a load or a store of a whole register; None for another instruction.
pub fn put_vec_whole(
    alloc: Global,
    out: &mut String,
    state: &EmitState,
    inst: &VecInst,
) -> Option<Result<(), TextError>>
    ensures { PrintsWhere result (string_bytes out.old) (string_bytes out.new)
        (vec_whole_text state.now inst.now) }
{
    match inst.as_whole() {
        Some(whole) => {
            let place = Place {
                alloc,
                has_relative: true,
                state,
                mem: &whole.mem,
            };
            let name = whole_name(whole.direction, whole.layout);
            Some(lettered_access(out, place, Some(name), &whole.rd))
        }
        None => None,
    }
}

/// Appends the text of a load or a store of lanes; None for another instruction.
#[rattlefmt::skip]
pub fn put_vec_part(
    alloc: Global,
    out: &mut String,
    state: &EmitState,
    inst: &VecInst,
) -> Option<Result<(), TextError>>
    ensures { PrintsWhere result (string_bytes out.old) (string_bytes out.new)
        (vec_part_text state.now inst.now) }
{
    match inst {
        VecInst::VecLoadReplicate { size, rd, mem } => Some(lettered_access(out, Place { alloc, has_relative: true, state, mem }, replicated_name(opcodes::VLREP, *size), rd)),
        VecInst::VecLoadReplicateRev { size, rd, mem } => Some(lettered_access(out, Place { alloc, has_relative: true, state, mem }, reversed_replicated_name(opcodes::VLBRREP, *size), rd)),
        VecInst::VecLoadLane { size, rd, mem, lane_imm, .. } => Some(vrx_access(out, Place { alloc, has_relative: true, state, mem }, lane_row(opcodes::VLEB, opcodes::VLEH, opcodes::VLEF, opcodes::VLEG, *size, *lane_imm), rd, lane_imm)),
        VecInst::VecLoadLaneRev { size, rd, mem, lane_imm, .. } => Some(vrx_access(out, Place { alloc, has_relative: true, state, mem }, reversed_row(opcodes::VLEBRH, opcodes::VLEBRF, opcodes::VLEBRG, *size, *lane_imm), rd, lane_imm)),
        VecInst::VecLoadLaneUndef { size, rd, mem, lane_imm } => Some(put_load_lane(out, Place { alloc, has_relative: true, state, mem }, *size, rd.to_reg(), *lane_imm)),
        VecInst::VecLoadLaneRevUndef { size, rd, mem, lane_imm } => Some(vrx_access(out, Place { alloc, has_relative: true, state, mem }, reversed_row(opcodes::VLEBRH, opcodes::VLEBRF, opcodes::VLEBRG, *size, *lane_imm), rd, lane_imm)),
        VecInst::VecStoreLane { size, rd, mem, lane_imm } => Some(put_store_lane(out, Place { alloc, has_relative: true, state, mem }, *size, *rd, *lane_imm)),
        VecInst::VecStoreLaneRev { size, rd, mem, lane_imm } => Some(vrx_access(out, Place { alloc, has_relative: true, state, mem }, reversed_row(opcodes::VSTEBRH, opcodes::VSTEBRF, opcodes::VSTEBRG, *size, *lane_imm), rd, lane_imm)),
        _ => None,
    }
}

// Appends the text of an instruction on vector or float registers, by one group after the other.
#[inline(never)]
fn put_any(
    alloc: Global,
    out: &mut String,
    state: &EmitState,
    inst: &VecInst,
) -> Result<(), TextError>
    ensures { Prints result (string_bytes out.old) (string_bytes out.new)
        (vector_text state.now inst.now) }
{
    if let Some(answer) = put_vec_operator(out, inst) {
        return answer;
    }
    if let Some(answer) = put_vec_move(out, inst) {
        return answer;
    }
    if let Some(answer) = put_vec_lane(out, inst) {
        return answer;
    }
    if let Some(answer) = put_vec_whole(alloc, out, state, inst) {
        return answer;
    }
    match put_vec_part(alloc, out, state, inst) {
        Some(answer) => answer,
        None => Err(TextError::NoRow),
    }
}

/// Appends the text of an instruction on vector or float registers.
#[inline(never)]
pub fn put_vector(
    alloc: Global,
    out: &mut String,
    state: &EmitState,
    inst: &VecInst,
) -> Result<(), TextError>
    ensures { Prints result (string_bytes out.old) (string_bytes out.new)
        (vector_text state.now inst.now) }
{
    match inst {
        VecInst::VecLoad { rd, mem } => put_straight(
            alloc,
            out,
            state,
            Direction::Load,
            rd.to_reg(),
            mem,
        ),
        VecInst::VecStore { rd, mem } => put_straight(
            alloc,
            out,
            state,
            Direction::Store,
            *rd,
            mem,
        ),
        VecInst::VecRRR { op, rd, rn, rm } => put_vec_binary(out, *op, rd, rn, rm),
        _ => put_any(alloc, out, state, inst),
    }
}
