//! Notes that are appended to others.
ghost use Rattle.std.specs.Prelude.{◌≡◌, ◌∷◌, [], ◌++◌, OnOk, map, string_bytes};
ghost use Rattle.s390x_binary_tool.specs.Notes.{placed_note, placed_text, plain_note};

use s390x_base::CodeOffset;
use s390x_disassembler::Note;
use std::alloc::{AllocError, Global};

/// Appends `NAME NUMBER at ADDRESS` as a note at the offset of this address. An error comes for want of memory alone.
pub fn put_placed(
    alloc: Global,
    notes: &mut Vec<Note>,
    name: &str,
    base: u64,
    number: usize,
    offset: CodeOffset,
) -> Result<(), AllocError>
    ensures { OnOk result
        (map plain_note notes.new.items
        ≡ map plain_note notes.old.items ++ placed_note name.now base number offset ∷ []) }
{
    let address = base.wrapping_add(offset as u64);
    let text = format!(in alloc; "{name} {number} at {address:x}")?;
    put_note(notes, offset, text)
}

/// Appends a note. An error comes for want of memory alone.
#[tactic(auto, using(crate::proofs::Pushing::pushed))]
pub fn put_note(notes: &mut Vec<Note>, offset: CodeOffset, text: String) -> Result<(), AllocError>
    ensures { OnOk result
        (map plain_note notes.new.items
        ≡ map plain_note notes.old.items ++ (offset, string_bytes text) ∷ []) }
{
    notes.push(Note {
        offset: offset as usize,
        text,
    })?;
    Ok(())
}
