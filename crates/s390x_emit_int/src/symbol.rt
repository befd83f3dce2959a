//! Emitting the load of a symbol's address.
#![tactic(auto, using(s390x_buffer::proofs::Extending::extends_on, s390x_buffer::proofs::Extending::extends_same))]

ghost use Rattle.std.specs.Prelude.{◌≡◌, [], ◌∷◌, None, true, OnOk};
ghost use Rattle.std.specs.Int.{w64, to_be_bytes};
ghost use Rattle.s390x_base.specs.Regs.{number_of};
ghost use Rattle.s390x_base.specs.declared.ir.Reloc.TheVariants.{Abs8};
ghost use Rattle.s390x_buffer.specs.Extends.{Extends};
ghost use Rattle.s390x_buffer.specs.State.{put_cause};
ghost use Rattle.s390x_rows.specs.declared.opcodes.TheConstants as opcodes;
ghost use Rattle.s390x_typed_steps.specs.MachineInstruction.{ri_b, rxy};
ghost use Rattle.s390x_typed_steps.specs.Parts.{Row, name_in, offset_in, symbol_parts};
ghost use Rattle.s390x_typed_steps.specs.General.{is_general};
ghost use Rattle.s390x_emit_int.specs.Fragments.{PutReloc, apply, apply_all};
ghost use Rattle.s390x_emit_int.specs.Emission.{part_fragments};
ghost use Rattle.s390x_emit_int.specs.Room.{OnlyOutOfMemory};

use s390x_base::{EmitError, ExternalName, Reg, Reloc, gpr};
use s390x_buffer::MachBuffer;
use s390x_enc::{enc_ri_b, enc_rxy};
use s390x_inst::SymbolReloc;
use s390x_rows::opcodes;

// BRANCH RELATIVE AND SAVE over the doubleword behind it, whose address goes into `%r1`.
fn put_branch_over(sink: &mut MachBuffer) -> Result<(), EmitError>
    ensures answer { OnOk result
        (sink.new ≡ apply_all sink.old (part_fragments (Row (ri_b opcodes.BRAS 1 6) ∷ []))) }
    ensures only_memory { put_cause sink.old 4 ≡ None → OnlyOutOfMemory result }
    ensures kept { Extends sink.old sink.new }
{
    let code = enc_ri_b(opcodes::BRAS, gpr(1), 12)?;
    sink.put_code(&code)
}

// A doubleword of zeros, which linking fills with a symbol's address plus an offset.
fn put_symbol(sink: &mut MachBuffer, name: ExternalName, offset: i64) -> Result<(), EmitError>
    ensures answer { OnOk result
        (sink.new ≡ apply sink.old (PutReloc (to_be_bytes w64 0) 0 Abs8 name offset)) }
    ensures only_memory { put_cause sink.old 8 ≡ None → OnlyOutOfMemory result }
    ensures kept { Extends sink.old sink.new }
{
    sink.add_reloc(Reloc::Abs8, name, offset)?;
    sink.put8(0)
}

// The doubleword that a relocation fills.
fn put_reloc(sink: &mut MachBuffer, symbol_reloc: &SymbolReloc) -> Result<(), EmitError>
    ensures answer { OnOk result
        (sink.new
        ≡ apply sink.old
        (PutReloc (to_be_bytes w64 0) 0 Abs8 (name_in symbol_reloc.now)
        (offset_in symbol_reloc.now))) }
    ensures only_memory { put_cause sink.old 8 ≡ None → OnlyOutOfMemory result }
    ensures kept { Extends sink.old sink.new }
{
    match symbol_reloc {
        SymbolReloc::Absolute { name, offset } => put_symbol(sink, *name, *offset),
    }
}

// LOAD (64) of the doubleword at the address in `%r1`.
fn put_load(sink: &mut MachBuffer, rd: Reg) -> Result<(), EmitError>
    ensures answer { OnOk result
        (sink.new
        ≡ apply_all sink.old (part_fragments (Row (rxy opcodes.LG (number_of rd) 1 0 0) ∷ []))) }
    ensures only_memory { put_cause sink.old 6 ≡ None → is_general rd ≡ true
        → OnlyOutOfMemory result }
    ensures kept { Extends sink.old sink.new }
{
    let code = enc_rxy(opcodes::LG, rd, gpr(1), gpr(0), 0)?;
    sink.put_code(&code)
}

/// A symbol's address plus an offset into a register: a load of the doubleword in the code that linking fills. An
/// error comes where a register or a label may not stand there; where the buffer is poisoned (`Failed`); where its
/// code gets too long for an offset (`LabelOutOfRange`); or for want of memory (`NoMemory`).
pub fn emit_symbol_load(
    sink: &mut MachBuffer,
    rd: Reg,
    symbol_reloc: &SymbolReloc,
) -> Result<(), EmitError>
    ensures answer { OnOk result
        (sink.new
        ≡ apply_all sink.old (part_fragments (symbol_parts (number_of rd) symbol_reloc.now))) }
    ensures only_memory { put_cause sink.old 18 ≡ None → is_general rd ≡ true
        → OnlyOutOfMemory result }
    ensures kept { Extends sink.old sink.new }
{
    put_branch_over(sink)?;
    put_reloc(sink, symbol_reloc)?;
    put_load(sink, rd)
}
