//! The notes of a finished code's tables.
ghost use Rattle.std.specs.Prelude.{◌≡◌, ◌∷◌, [], ◌++◌, OnOk, map};
ghost use Rattle.s390x_binary_tool.specs.Notes.{constant_notes, plain_note, reloc_note, trap_note};

use crate::notes::{put_note, put_placed};
use s390x_base::CodeOffset;
use s390x_buffer::{RelocEntry, TrapEntry};
use s390x_disassembler::Note;
use s390x_job_fields::atoms;
use s390x_tool::reloc_kind_name;
use std::alloc::{AllocError, Global};

/// Appends a note for each constant, at its start: its number and its address. An error comes for want of memory alone.
#[tactic(auto, using(crate::proofs::Pushing::went, crate::proofs::Pushing::constants_left))]
pub fn put_constants(
    alloc: Global,
    notes: &mut Vec<Note>,
    base: u64,
    starts: &[CodeOffset],
) -> Result<(), AllocError>
    ensures { OnOk result
        (map plain_note notes.new.items
        ≡ map plain_note notes.old.items ++ constant_notes base 0 starts.now) }
{
    for (number, start) in starts.iter().enumerate() {
        put_placed(alloc, notes, "const", base, number, *start)?;
    }
    Ok(())
}

/// Appends a note for each relocation, at its field: its kind, name and addend. An error comes for want of memory alone.
#[tactic(auto, using(crate::proofs::Pushing::went, crate::proofs::Pushing::mapped))]
pub fn put_relocs(
    alloc: Global,
    notes: &mut Vec<Note>,
    base: u64,
    relocs: &[RelocEntry],
) -> Result<(), AllocError>
    ensures { OnOk result
        (map plain_note notes.new.items
        ≡ map plain_note notes.old.items ++ map (reloc_note base) relocs.now) }
{
    for reloc in relocs {
        put_reloc(alloc, notes, base, reloc)?;
    }
    Ok(())
}

// Appends the note of a relocation.
fn put_reloc(
    alloc: Global,
    notes: &mut Vec<Note>,
    base: u64,
    reloc: &RelocEntry,
) -> Result<(), AllocError>
    ensures { OnOk result
        (map plain_note notes.new.items
        ≡ map plain_note notes.old.items ++ reloc_note base reloc.now ∷ []) }
{
    let address = base.wrapping_add(reloc.offset as u64);
    let kind = reloc_kind_name(reloc.kind);
    let name = reloc.name.0;
    let addend = reloc.addend;
    let text = format!(in alloc; "      {address:x}: {kind} u{name} {addend}")?;
    put_note(notes, reloc.offset, text)
}

/// Appends a note for each trap, at its place: its code. An error comes for want of memory alone.
pub fn put_traps(
    alloc: Global,
    notes: &mut Vec<Note>,
    base: u64,
    traps: &[TrapEntry],
) -> Result<(), AllocError>
    ensures { OnOk result
        (map plain_note notes.new.items
        ≡ map plain_note notes.old.items ++ map (trap_note base) traps.now) }
{
    for trap in traps {
        put_trap(alloc, notes, base, trap)?;
    }
    Ok(())
}

// Appends the note of a trap.
fn put_trap(
    alloc: Global,
    notes: &mut Vec<Note>,
    base: u64,
    trap: &TrapEntry,
) -> Result<(), AllocError>
    ensures { OnOk result
        (map plain_note notes.new.items
        ≡ map plain_note notes.old.items ++ trap_note base trap.now ∷ []) }
{
    let address = base.wrapping_add(trap.offset as u64);
    let mut text = format!(in alloc; "      {address:x}: trap ")?;
    atoms::put_trap(&mut text, trap.code)?;
    put_note(notes, trap.offset, text)
}
