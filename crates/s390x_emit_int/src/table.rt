//! Emitting a jump by a table.
#![tactic(auto, using(s390x_buffer::proofs::Extending::extends_on, s390x_buffer::proofs::Extending::extends_same))]

ghost use Rattle.std.specs.Prelude.{◌≡◌, ℕ, ◌+◌, ◌*◌, ◌<◌, [], ◌∷◌, None, true, length, OnOk};
ghost use Rattle.s390x_base.specs.Regs.{number_of};
ghost use Rattle.s390x_buffer.specs.Extends.{Extends};
ghost use Rattle.s390x_buffer.specs.State.{put_cause};
ghost use Rattle.s390x_rows.specs.declared.opcodes.TheConstants as opcodes;
ghost use Rattle.s390x_typed_steps.specs.MachineInstruction.{rxy};
ghost use Rattle.s390x_typed_steps.specs.Parts.{Row, table_words};
ghost use Rattle.s390x_typed_steps.specs.Causes.{labels_cause, table_cause, numbers_cause};
ghost use Rattle.s390x_typed_steps.specs.General.{is_general};
ghost use Rattle.s390x_typed_steps.specs.Ranges.{IsConditionMask};
ghost use Rattle.s390x_emit_int.specs.Fragments.{apply, apply_all};
ghost use Rattle.s390x_emit_int.specs.Emission.{table_word, table_rows, table_fragments, part_fragments};
ghost use Rattle.s390x_emit_int.specs.Room.{HasRoom, FitsWithoutCause, OnlyOutOfMemory};

use crate::instruction::{emit_address, emit_branch_register, put_branch};
use s390x_base::{Cond, EmitError, MachLabel, Reg, gpr};
use s390x_buffer::{LabelUse, MachBuffer};
use s390x_enc::enc_rxy;
use s390x_rows::opcodes;

// A word of a table, so far its distance from the table's beginning; the buffer's end adds the distance to the label.
fn put_word(sink: &mut MachBuffer, before: u32, label: MachLabel) -> Result<(), EmitError>
    ensures answer { OnOk result (sink.new ≡ apply sink.old (table_word before label.0)) }
    ensures only_memory { FitsWithoutCause sink.old label.0 4 None → OnlyOutOfMemory result }
    ensures kept { Extends sink.old sink.new }
{
    let offset = sink.cur_offset();
    sink.use_label_at_offset(offset, label, LabelUse::PCRel32)?;
    sink.put4(before)
}

// The words of a table that begins here.
fn put_words(sink: &mut MachBuffer, targets: &[MachLabel]) -> Result<(), EmitError>
    ensures answer { OnOk result
        (sink.new ≡ apply_all sink.old (part_fragments (table_words 0 targets.now))) }
    ensures only_memory { (after : ℕ)
        → FitsWithoutCause sink.old after (4 * length targets.now)
        (labels_cause sink.old.block_count targets.now) → OnlyOutOfMemory result }
    ensures kept { Extends sink.old sink.new }
{
    let table = sink.cur_offset();
    for target in targets {
        let before = sink.cur_offset() - table;
        put_word(sink, before, *target)?;
    }
    Ok(())
}

// ADD (64 from 32 bits) of the word at an index behind `%r1` to `%r1`.
fn put_word_sum(sink: &mut MachBuffer, index: Reg) -> Result<(), EmitError>
    ensures answer { OnOk result
        (sink.new
        ≡ apply_all sink.old
        (part_fragments (Row (rxy opcodes.AGF 1 1 (number_of index) 0) ∷ []))) }
    ensures only_memory { put_cause sink.old 6 ≡ None → is_general index ≡ true
        → OnlyOutOfMemory result }
    ensures kept { Extends sink.old sink.new }
{
    let code = enc_rxy(opcodes::AGF, gpr(1), gpr(1), index, 0)?;
    sink.put_code(&code)
}

// The machine instructions before a table of this label.
fn put_table_rows(
    sink: &mut MachBuffer,
    table: MachLabel,
    index: Reg,
    mask: u8,
    other: MachLabel,
) -> Result<(), EmitError>
    requires { mask < 16 }
    ensures answer { OnOk result
        (sink.new ≡ apply_all sink.old (table_rows table.0 (number_of index) mask other.0)) }
    ensures only_memory { FitsWithoutCause sink.old other.0 20 None
        → table.0 < length sink.old.labels → is_general index ≡ true → OnlyOutOfMemory result }
    ensures kept { Extends sink.old sink.new }
{
    put_branch(sink, mask, other)?;
    emit_address(sink, gpr(1), table)?;
    put_word_sum(sink, index)?;
    emit_branch_register(sink, gpr(1))
}

/// A jump to the other label under the condition, else to the target at the index, in bytes, of the table behind it.
/// An error comes where a register or a label may not stand there; where the buffer is poisoned (`Failed`); where its
/// code gets too long for an offset (`LabelOutOfRange`); or for want of memory (`NoMemory`).
pub fn emit_table(
    sink: &mut MachBuffer,
    index: Reg,
    cond: Cond,
    other: MachLabel,
    targets: &[MachLabel],
) -> Result<(), EmitError>
    requires { HasRoom sink.old }
    ensures answer { OnOk result
        (sink.new
        ≡ apply_all sink.old
        (table_fragments (length sink.old.labels) (number_of index) cond other.0
        targets.now)) }
    ensures only_memory { (after : ℕ)
        → FitsWithoutCause sink.old after (20 + 4 * length targets.now)
        (table_cause sink.old.block_count index other targets.now)
        → numbers_cause (length sink.old.labels) 1 ≡ None → OnlyOutOfMemory result }
    ensures range { IsConditionMask cond }
    ensures kept { Extends sink.old sink.new }
{
    let mask = cond.bits();
    let table = sink.get_label()?;
    put_table_rows(sink, table, index, mask, other)?;
    sink.bind_label(table)?;
    put_words(sink, targets)
}
