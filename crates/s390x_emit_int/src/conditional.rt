//! Emitting a move under a condition: a branch over it under the other codes, and the move.
#![tactic(auto, using(s390x_buffer::proofs::Extending::extends_on, s390x_buffer::proofs::Extending::extends_same))]

ghost use Rattle.std.specs.Prelude.{◌≡◌, ℕ, ◌<◌, ◌+◌, ◌&&◌, [], ◌∷◌, Bool, None, Some, true, cond, nat_lt, OnOk};
ghost use Rattle.s390x_base.specs.Regs.{number_of};
ghost use Rattle.s390x_buffer.specs.Extends.{Extends};
ghost use Rattle.s390x_buffer.specs.State.{put_cause};
ghost use Rattle.s390x_rows.specs.declared.opcodes.TheConstants as opcodes;
ghost use Rattle.s390x_typed_steps.specs.MachineInstruction.{MachineInstruction, bytes_of, size_of, ri_c};
ghost use Rattle.s390x_typed_steps.specs.Parts.{Row, row_parts, parts_size};
ghost use Rattle.s390x_typed_steps.specs.SingleCode.{code_where};
ghost use Rattle.s390x_typed_steps.specs.VectorComposite.{cause_under, move_under, rows_under};
ghost use Rattle.s390x_emit_int.specs.Fragments.{apply_all};
ghost use Rattle.s390x_emit_int.specs.Emission.{part_fragments};
ghost use Rattle.s390x_emit_int.specs.Room.{OnlyOutOfMemory};
ghost use Rattle.s390x_emit_int.specs.Skips.{is_short_move};

use crate::causes::found_cause;
use s390x_address::number;
use s390x_base::{Code, EmitError, Reg, Writable};
use s390x_buffer::MachBuffer;
use s390x_emit_vec::find_move_under;
use s390x_enc::enc_ri_c;
use s390x_inst::VecInst;
use s390x_rows::opcodes;

/// Why a move under a condition is refused; another instruction has no row.
pub fn move_cause(inst: &VecInst) -> Option<EmitError>
    ensures { result ≡ cause_under (move_under inst.now) }
{
    match find_move_under(inst) {
        Some(found) => found_cause(found.code),
        None => Some(EmitError::BadOperator),
    }
}

// Whether both are float registers too, where they are vector ones.
fn both_low(rd: &Writable<Reg>, rm: &Reg) -> bool
    ensures { result ≡ nat_lt (number_of rd.now) 16 && nat_lt (number_of rm.now) 16 }
{
    let rd = rd.to_reg();
    number(&rd) < 16 && number(rm) < 16
}

// Whether the move has two bytes; else it has six.
fn is_short(inst: &VecInst) -> bool
    ensures { result ≡ is_short_move inst.now }
{
    match inst {
        VecInst::FpuCMov32 { rd, rm, .. } => both_low(rd, rm),
        VecInst::FpuCMov64 { rd, rm, .. } => both_low(rd, rm),
        _ => false,
    }
}

/// How many bytes it has; another instruction has none.
pub fn move_size(inst: &VecInst) -> u64
    ensures value { result ≡ parts_size (row_parts (rows_under (move_under inst.now))) }
    ensures few { result < 16 }
{
    let short = is_short(inst);
    match find_move_under(inst) {
        Some(_) => under_size(short),
        None => 0,
    }
}

fn under_size(short: bool) -> u64
    ensures value { result ≡ 4 + (cond short 2 6) }
    ensures few { result < 16 }
{
    if short { 6 } else { 10 }
}

// BRANCH RELATIVE ON CONDITION over two bytes under a mask.
fn skip_two(sink: &mut MachBuffer, mask: u8) -> Result<(), EmitError>
    requires { mask < 16 }
    ensures answer { OnOk result
        (sink.new ≡ apply_all sink.old (part_fragments (Row (ri_c opcodes.BRC mask 3) ∷ []))) }
    ensures only_memory { put_cause sink.old 4 ≡ None → OnlyOutOfMemory result }
    ensures kept { Extends sink.old sink.new }
{
    let code = enc_ri_c(opcodes::BRC, mask, 6)?;
    sink.put_code(&code)
}

/// A branch over the six bytes that follow, where the mask doesn't hold. An error comes where the buffer has no room
/// or is poisoned, or for want of memory.
pub fn skip_six(sink: &mut MachBuffer, mask: u8) -> Result<(), EmitError>
    requires { mask < 16 }
    ensures answer { OnOk result
        (sink.new ≡ apply_all sink.old (part_fragments (Row (ri_c opcodes.BRC mask 5) ∷ []))) }
    ensures only_memory { put_cause sink.old 4 ≡ None → OnlyOutOfMemory result }
    ensures kept { Extends sink.old sink.new }
{
    let code = enc_ri_c(opcodes::BRC, mask, 10)?;
    sink.put_code(&code)
}

fn put_skip(sink: &mut MachBuffer, mask: u8, short: bool) -> Result<(), EmitError>
    requires { mask < 16 }
    ensures answer { OnOk result
        (sink.new
        ≡ apply_all sink.old (part_fragments (Row (ri_c opcodes.BRC mask (cond short 3 5)) ∷ []))) }
    ensures only_memory { put_cause sink.old 4 ≡ None → OnlyOutOfMemory result }
    ensures kept { Extends sink.old sink.new }
{
    if short {
        skip_two(sink, mask)
    } else {
        skip_six(sink, mask)
    }
}

// The branch and the move.
fn put_under(sink: &mut MachBuffer, mask: u8, short: bool, code: &Code) -> Result<(), EmitError>
    requires { mask < 16 }
    ensures answer { (m : MachineInstruction) → code.now ≡ bytes_of m
        → OnOk result
        (sink.new
        ≡ apply_all sink.old
        (part_fragments (Row (ri_c opcodes.BRC mask (cond short 3 5)) ∷ Row m ∷ []))) }
    ensures only_memory { (m : MachineInstruction) → code.now ≡ bytes_of m
        → put_cause sink.old (4 + size_of m) ≡ None → OnlyOutOfMemory result }
    ensures kept { Extends sink.old sink.new }
{
    put_skip(sink, mask, short)?;
    sink.put_code(code)
}

// Emits a move under a condition, where its registers may stand there.
fn emit_under(
    sink: &mut MachBuffer,
    mask: u8,
    short: bool,
    found: Result<Code, EmitError>,
) -> Result<(), EmitError>
    requires { mask < 16 }
    ensures answer { (valid : Bool) (m : MachineInstruction) → found ≡ code_where valid m
        → OnOk result
        (sink.new
        ≡ apply_all sink.old
        (part_fragments (Row (ri_c opcodes.BRC mask (cond short 3 5)) ∷ Row m ∷ []))) }
    ensures only_memory { (valid : Bool) (m : MachineInstruction) → found ≡ code_where valid m
        → put_cause sink.old (4 + size_of m) ≡ None → valid ≡ true → OnlyOutOfMemory result }
    ensures kept { Extends sink.old sink.new }
{
    match found {
        Ok(code) => put_under(sink, mask, short, &code),
        Err(error) => Err(error),
    }
}

/// Emits a move under a condition. An error comes where a register doesn't fit (`BadRegister`); where the buffer is
/// poisoned (`Failed`); where its code gets too long for an offset (`LabelOutOfRange`); or for want of memory
/// (`NoMemory`).
pub fn emit_move(sink: &mut MachBuffer, inst: &VecInst) -> Result<(), EmitError>
    ensures answer { OnOk result
        (sink.new
        ≡ apply_all sink.old (part_fragments (row_parts (rows_under (move_under inst.now))))) }
    ensures only_memory { put_cause sink.old
        (parts_size (row_parts (rows_under (move_under inst.now)))) ≡ None
        → cause_under (move_under inst.now) ≡ None → OnlyOutOfMemory result }
    ensures kept { Extends sink.old sink.new }
{
    let short = is_short(inst);
    match find_move_under(inst) {
        Some(found) => emit_under(sink, 15 - found.mask, short, found.code),
        None => Err(EmitError::BadOperator),
    }
}
