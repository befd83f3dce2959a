//! Emitting a vector instruction that is several machine instructions: elements in reverse order, a comparison of 128 bits, or a move under a condition.
#![tactic(auto, using(s390x_buffer::proofs::Extending::extends_on, s390x_buffer::proofs::Extending::extends_same))]

ghost use Rattle.std.specs.Prelude.{◌≡◌, ℕ, ◌<◌, ◌&&◌, [], ◌∷◌, Bool, None, Some, cond, true, OnOk};
ghost use Rattle.s390x_base.specs.Regs.{number_of};
ghost use Rattle.s390x_base.specs.declared.error.EmitError.TheVariants.{BadRegister};
ghost use Rattle.s390x_buffer.specs.Extends.{Extends};
ghost use Rattle.s390x_buffer.specs.State.{put_cause};
ghost use Rattle.s390x_rows.specs.declared.opcodes.TheConstants as opcodes;
ghost use Rattle.s390x_typed_steps.specs.MachineInstruction.{MachineInstruction, bytes_of, size_of, ri_c, vrr_a, vrr_b};
ghost use Rattle.s390x_typed_steps.specs.Parts.{Row, row_parts, parts_size};
ghost use Rattle.s390x_typed_steps.specs.SingleCode.{code_where};
ghost use Rattle.s390x_typed_steps.specs.VectorComposite.{comparing_rows, composite_cause, composite_rows, exchanges_doublewords, exchanges_halves, reversing_rows, rows_cause, rows_or_none};
ghost use Rattle.s390x_typed_steps.specs.VectorInstruction.{is_vector};
ghost use Rattle.s390x_emit_int.specs.Fragments.{apply_all};
ghost use Rattle.s390x_emit_int.specs.Emission.{part_fragments};
ghost use Rattle.s390x_emit_int.specs.Room.{OnlyOutOfMemory};

use crate::conditional::{emit_move, move_cause, move_size, skip_six};
use s390x_base::{Code, EmitError, Reg, zero_reg};
use s390x_buffer::MachBuffer;
use s390x_emit_vec::{compared_vectors, real_vector, shifted_vector, three_vectors, two_vectors};
use s390x_inst::VecInst;
use s390x_rows::opcodes;
use s390x_typed_steps::VectorOpcode;

// Registers that may not stand there.
fn unless_valid(valid: bool) -> Option<EmitError>
    ensures { result ≡ cond valid None (Some BadRegister) }
{
    if valid {
        None
    } else {
        Some(EmitError::BadRegister)
    }
}

fn reversal_cause(count: u64, rd: &Reg, rn: &Reg) -> Option<EmitError>
    ensures { (d n : ℕ)
        → result ≡ rows_cause (reversing_rows count d n) (is_vector rd.now && is_vector rn.now) }
{
    let valid = real_vector(rd) && real_vector(rn);
    match count {
        2 | 4 | 8 | 16 => unless_valid(valid),
        _ => Some(EmitError::BadOperator),
    }
}

fn comparison_cause(tmp: &Reg, rn: &Reg, rm: &Reg) -> Option<EmitError>
    ensures { result
        ≡ cond (is_vector tmp.now && is_vector rn.now && is_vector rm.now) None (Some BadRegister) }
{
    let valid = real_vector(tmp) && real_vector(rn) && real_vector(rm);
    unless_valid(valid)
}

/// Why a vector instruction of several machine instructions is refused; another one has no row.
pub fn composite_cause(inst: &VecInst) -> Option<EmitError>
    ensures { result ≡ composite_cause inst.now }
{
    match inst {
        VecInst::VecEltRev { lane_count, rd, rn } => reversal_cause(*lane_count, &rd.to_reg(), rn),
        VecInst::VecInt128SCmpHi { tmp, rn, rm } | VecInst::VecInt128UCmpHi { tmp, rn, rm } => {
            comparison_cause(&tmp.to_reg(), rn, rm)
        }
        _ => move_cause(inst),
    }
}

#[tactic(auto, unfolding(s390x_format::specs::Formats::length_of))]
fn reversal_size(count: u64) -> u64
    ensures value { (d n : ℕ)
        → result ≡ parts_size (row_parts (rows_or_none (reversing_rows count d n))) }
    ensures few { result < 32 }
{
    match count {
        2 => 6,
        4 => 12,
        8 => 18,
        16 => 24,
        _ => 0,
    }
}

/// How many bytes it has; another instruction has none.
#[tactic(auto, unfolding(s390x_format::specs::Formats::length_of))]
pub fn composite_size(inst: &VecInst) -> u64
    ensures value { result ≡ parts_size (row_parts (composite_rows inst.now)) }
    ensures few { result < 32 }
{
    match inst {
        VecInst::VecEltRev { lane_count, .. } => reversal_size(*lane_count),
        VecInst::VecInt128SCmpHi { .. } | VecInst::VecInt128UCmpHi { .. } => 16,
        _ => move_size(inst),
    }
}

// A machine instruction.
fn put_row(sink: &mut MachBuffer, code: &Code) -> Result<(), EmitError>
    ensures answer { (m : MachineInstruction) → code.now ≡ bytes_of m
        → OnOk result (sink.new ≡ apply_all sink.old (part_fragments (Row m ∷ []))) }
    ensures only_memory { (m : MachineInstruction) → code.now ≡ bytes_of m
        → put_cause sink.old (size_of m) ≡ None → OnlyOutOfMemory result }
    ensures kept { Extends sink.old sink.new }
{
    sink.put_code(code)
}

// A machine instruction, where its registers may stand there.
fn put_found(sink: &mut MachBuffer, found: Result<Code, EmitError>) -> Result<(), EmitError>
    ensures answer { (valid : Bool) (m : MachineInstruction) → found ≡ code_where valid m
        → OnOk result (sink.new ≡ apply_all sink.old (part_fragments (Row m ∷ []))) }
    ensures only_memory { (valid : Bool) (m : MachineInstruction) → found ≡ code_where valid m
        → put_cause sink.old (size_of m) ≡ None → valid ≡ true → OnlyOutOfMemory result }
    ensures kept { Extends sink.old sink.new }
{
    match found {
        Ok(code) => put_row(sink, &code),
        Err(error) => Err(error),
    }
}

// The doublewords change places.
fn exchange_doublewords(sink: &mut MachBuffer, rd: &Reg, rn: &Reg) -> Result<(), EmitError>
    ensures answer { OnOk result
        (sink.new
        ≡ apply_all sink.old
        (part_fragments
        (Row (exchanges_doublewords (number_of rd.now) (number_of rn.now)) ∷ []))) }
    ensures only_memory { put_cause sink.old 6 ≡ None
        → (is_vector rd.now && is_vector rn.now) ≡ true → OnlyOutOfMemory result }
    ensures kept { Extends sink.old sink.new }
{
    let row = VectorOpcode {
        opcode: opcodes::VPDI,
        code: 4,
    };
    let found = three_vectors(row, *rd, *rn, *rn);
    put_found(sink, found)
}

// The halves of each element change places, by a rotation; a code stands for the elements' size.
fn exchange_halves(sink: &mut MachBuffer, rd: &Reg, code: u8, half: u32) -> Result<(), EmitError>
    requires code { code < 16 }
    requires half { half < 4096 }
    ensures answer { OnOk result
        (sink.new
        ≡ apply_all sink.old
        (part_fragments (Row (exchanges_halves (number_of rd.now) code half) ∷ []))) }
    ensures only_memory { put_cause sink.old 6 ≡ None → is_vector rd.now ≡ true
        → OnlyOutOfMemory result }
    ensures kept { Extends sink.old sink.new }
{
    let row = VectorOpcode {
        opcode: opcodes::VERLL,
        code,
    };
    let found = shifted_vector(row, *rd, *rd, zero_reg(), half);
    put_found(sink, found)
}

fn reverse_words(sink: &mut MachBuffer, rd: &Reg, rn: &Reg) -> Result<(), EmitError>
    ensures answer { let d = number_of rd.now in
        OnOk result
        (sink.new
        ≡ apply_all sink.old
        (part_fragments
        (Row (exchanges_doublewords d (number_of rn.now)) ∷ Row (exchanges_halves d 3 32)
        ∷ []))) }
    ensures only_memory { put_cause sink.old 12 ≡ None
        → (is_vector rd.now && is_vector rn.now) ≡ true → OnlyOutOfMemory result }
    ensures kept { Extends sink.old sink.new }
{
    exchange_doublewords(sink, rd, rn)?;
    exchange_halves(sink, rd, 3, 32)
}

fn reverse_halfwords(sink: &mut MachBuffer, rd: &Reg, rn: &Reg) -> Result<(), EmitError>
    ensures answer { let d = number_of rd.now in
        OnOk result
        (sink.new
        ≡ apply_all sink.old
        (part_fragments
        (Row (exchanges_doublewords d (number_of rn.now)) ∷ Row (exchanges_halves d 3 32)
        ∷ Row (exchanges_halves d 2 16) ∷ []))) }
    ensures only_memory { put_cause sink.old 18 ≡ None
        → (is_vector rd.now && is_vector rn.now) ≡ true → OnlyOutOfMemory result }
    ensures kept { Extends sink.old sink.new }
{
    reverse_words(sink, rd, rn)?;
    exchange_halves(sink, rd, 2, 16)
}

fn reverse_bytes(sink: &mut MachBuffer, rd: &Reg, rn: &Reg) -> Result<(), EmitError>
    ensures answer { let d = number_of rd.now in
        OnOk result
        (sink.new
        ≡ apply_all sink.old
        (part_fragments
        (Row (exchanges_doublewords d (number_of rn.now)) ∷ Row (exchanges_halves d 3 32)
        ∷ Row (exchanges_halves d 2 16) ∷ Row (exchanges_halves d 1 8) ∷ []))) }
    ensures only_memory { put_cause sink.old 24 ≡ None
        → (is_vector rd.now && is_vector rn.now) ≡ true → OnlyOutOfMemory result }
    ensures kept { Extends sink.old sink.new }
{
    reverse_halfwords(sink, rd, rn)?;
    exchange_halves(sink, rd, 1, 8)
}

// So many elements in reverse order.
fn emit_reversal(sink: &mut MachBuffer, count: u64, rd: &Reg, rn: &Reg) -> Result<(), EmitError>
    ensures answer { OnOk result
        (sink.new
        ≡ apply_all sink.old
        (part_fragments
        (row_parts
        (rows_or_none (reversing_rows count (number_of rd.now) (number_of rn.now)))))) }
    ensures only_memory { let rows = reversing_rows count (number_of rd.now) (number_of rn.now) in
        put_cause sink.old (parts_size (row_parts (rows_or_none rows))) ≡ None
        → rows_cause rows (is_vector rd.now && is_vector rn.now) ≡ None → OnlyOutOfMemory result }
    ensures kept { Extends sink.old sink.new }
{
    match count {
        2 => exchange_doublewords(sink, rd, rn),
        4 => reverse_words(sink, rd, rn),
        8 => reverse_halfwords(sink, rd, rn),
        16 => reverse_bytes(sink, rd, rn),
        _ => Err(EmitError::BadOperator),
    }
}

// A comparison of the left doublewords.
fn compare_left(sink: &mut MachBuffer, opcode: u16, rn: &Reg, rm: &Reg) -> Result<(), EmitError>
    ensures answer { OnOk result
        (sink.new
        ≡ apply_all sink.old
        (part_fragments
        (Row (vrr_a opcode (number_of rn.now) (number_of rm.now) 3) ∷ []))) }
    ensures only_memory { put_cause sink.old 6 ≡ None
        → (is_vector rn.now && is_vector rm.now) ≡ true → OnlyOutOfMemory result }
    ensures kept { Extends sink.old sink.new }
{
    let row = VectorOpcode { opcode, code: 3 };
    let found = two_vectors(row, *rn, *rm);
    put_found(sink, found)
}

// A comparison of all doublewords, which sets the condition code.
fn compare_right(sink: &mut MachBuffer, tmp: &Reg, rn: &Reg, rm: &Reg) -> Result<(), EmitError>
    ensures answer { OnOk result
        (sink.new
        ≡ apply_all sink.old
        (part_fragments
        (Row (vrr_b opcodes.VCHL (number_of tmp.now) (number_of rn.now) (number_of rm.now) 3 1)
        ∷ []))) }
    ensures only_memory { put_cause sink.old 6 ≡ None
        → (is_vector tmp.now && is_vector rn.now && is_vector rm.now) ≡ true
        → OnlyOutOfMemory result }
    ensures kept { Extends sink.old sink.new }
{
    let row = VectorOpcode {
        opcode: opcodes::VCHL,
        code: 3,
    };
    let found = compared_vectors(row, *tmp, *rn, *rm, 1);
    put_found(sink, found)
}

// The left doublewords, and a branch over the rest where they differ.
fn compare_first(sink: &mut MachBuffer, opcode: u16, rn: &Reg, rm: &Reg) -> Result<(), EmitError>
    ensures answer { OnOk result
        (sink.new
        ≡ apply_all sink.old
        (part_fragments
        (Row (vrr_a opcode (number_of rn.now) (number_of rm.now) 3) ∷ Row (ri_c opcodes.BRC 7 5)
        ∷ []))) }
    ensures only_memory { put_cause sink.old 10 ≡ None
        → (is_vector rn.now && is_vector rm.now) ≡ true → OnlyOutOfMemory result }
    ensures kept { Extends sink.old sink.new }
{
    compare_left(sink, opcode, rn, rm)?;
    skip_six(sink, 7)
}

// A comparison of 128 bits, by the opcode for the left doublewords.
fn emit_comparison(
    sink: &mut MachBuffer,
    opcode: u16,
    tmp: &Reg,
    rn: &Reg,
    rm: &Reg,
) -> Result<(), EmitError>
    ensures answer { OnOk result
        (sink.new
        ≡ apply_all sink.old
        (part_fragments
        (row_parts
        (comparing_rows opcode (number_of tmp.now) (number_of rn.now)
        (number_of rm.now))))) }
    ensures only_memory { put_cause sink.old 16 ≡ None
        → (is_vector tmp.now && is_vector rn.now && is_vector rm.now) ≡ true
        → OnlyOutOfMemory result }
    ensures kept { Extends sink.old sink.new }
{
    compare_first(sink, opcode, rm, rn)?;
    compare_right(sink, tmp, rn, rm)
}

/// Emits a vector instruction of several machine instructions. An error comes where a register or an element's size
/// doesn't fit (`composite_cause`); where the buffer is poisoned (`Failed`); where its code gets too long for an
/// offset (`LabelOutOfRange`); or for want of memory (`NoMemory`).
pub fn emit_composite(sink: &mut MachBuffer, inst: &VecInst) -> Result<(), EmitError>
    ensures answer { OnOk result
        (sink.new ≡ apply_all sink.old (part_fragments (row_parts (composite_rows inst.now)))) }
    ensures only_memory { put_cause sink.old (parts_size (row_parts (composite_rows inst.now)))
        ≡ None → composite_cause inst.now ≡ None → OnlyOutOfMemory result }
    ensures kept { Extends sink.old sink.new }
{
    match inst {
        VecInst::VecEltRev { lane_count, rd, rn } => {
            emit_reversal(sink, *lane_count, &rd.to_reg(), rn)
        }
        VecInst::VecInt128SCmpHi { tmp, rn, rm } => {
            emit_comparison(sink, opcodes::VEC, &tmp.to_reg(), rn, rm)
        }
        VecInst::VecInt128UCmpHi { tmp, rn, rm } => {
            emit_comparison(sink, opcodes::VECL, &tmp.to_reg(), rn, rm)
        }
        _ => emit_move(sink, inst),
    }
}
