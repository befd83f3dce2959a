//! The listing of a function's code.
ghost use Rattle.std.specs.Prelude.{◌≡◌, ◌≤◌, ◌++◌, None, IfOk, OnOk, length, map, string_bytes};
ghost use Rattle.s390x_listing.specs.Texts.{texts_listing};
ghost use Rattle.s390x_binary_tool.specs.Notes.{entry_notes, notes_of, plain_note};
ghost use Rattle.s390x_binary_tool.specs.CodeListing.{IsCodeListing, code_length};

use crate::block_notes::block_notes;
use crate::entry_notes::{put_constants, put_relocs, put_traps};
use s390x_buffer::MachBufferFinalized;
use s390x_disassembler::{Note, disassemble_with_notes};
use s390x_image::Image;
use s390x_inst::{Block, EmitInfo, EmitState};
use std::alloc::{AllocError, Global};

/// The listing of an image of a function's code: the lines of its disassembly, with a line for each block, at its start, with its
/// number and its address, the text of each instruction before its own machine instructions, and the relocations and the traps at their places. The constants behind
/// the code are data, each behind a line with its number and its address.
///
/// Condition: the instructions have texts. An error comes for want of memory alone.
pub fn listed_code(
    alloc: Global,
    info: &EmitInfo,
    state: EmitState,
    blocks: &[Block],
    code: &MachBufferFinalized,
    image: &Image,
) -> Result<String, AllocError>
    requires { (texts_listing info.now.isa_flags state blocks.now).cause ≡ None }
    ensures { IfOk result
        (λ text. IsCodeListing info.now.isa_flags state blocks.now code.now image.now.base
        image.now.bytes.items (string_bytes text)) }
{
    let notes = all_notes(alloc, info, state, blocks, code, image.base)?;
    let length = code_length(code, &image.bytes);
    disassemble_with_notes(alloc, image.base, &image.bytes, length, notes)
}

// How many bytes stand before the first constant; all, where there is none.
fn code_length(code: &MachBufferFinalized, bytes: &[u8]) -> usize
    ensures length { result ≡ code_length code.now bytes.now }
    ensures within { result ≤ length bytes.now }
{
    match code.constant_starts.first() {
        Some(start) => (*start as usize).min(bytes.len()),
        None => bytes.len(),
    }
}

// All notes: of the blocks, the constants, the relocations and the traps.
fn all_notes(
    alloc: Global,
    info: &EmitInfo,
    state: EmitState,
    blocks: &[Block],
    code: &MachBufferFinalized,
    base: u64,
) -> Result<Vec<Note>, AllocError>
    requires { (texts_listing info.now.isa_flags state blocks.now).cause ≡ None }
    ensures { IfOk result
        (λ notes. map plain_note notes.items
        ≡ notes_of info.now.isa_flags state base blocks.now code.now) }
{
    let mut notes = block_notes(alloc, info, state, base, blocks, code)?;
    put_entries(alloc, &mut notes, base, code)?;
    Ok(notes)
}

// Appends the notes of the constants, the relocations and the traps.
fn put_entries(
    alloc: Global,
    notes: &mut Vec<Note>,
    base: u64,
    code: &MachBufferFinalized,
) -> Result<(), AllocError>
    ensures { OnOk result
        (map plain_note notes.new.items
        ≡ map plain_note notes.old.items ++ entry_notes base code.now) }
{
    put_constants(alloc, notes, base, &code.constant_starts)?;
    put_relocs(alloc, notes, base, &code.relocs)?;
    put_traps(alloc, notes, base, &code.traps)
}
