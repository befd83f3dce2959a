//! The notes of blocks and of their instructions.
ghost use Rattle.std.specs.Prelude.{◌≡◌, ◌∷◌, [], ◌++◌, None, IfOk, OnOk, get_or, map, string_bytes};
ghost use Rattle.s390x_listing.specs.Texts.{inst_texts, texts_listing};
ghost use Rattle.s390x_text.specs.Instructions.{after, inst_text};
ghost use Rattle.s390x_binary_tool.specs.Notes.{block_notes, inst_line, inst_notes, plain_note, starts_behind};

use crate::inst_steps::behind_inst;
use crate::notes::{put_note, put_placed};
use s390x_base::CodeOffset;
use s390x_buffer::MachBufferFinalized;
use s390x_disassembler::Note;
use s390x_inst::{Block, EmitInfo, EmitState, Inst};
use s390x_text::{TextError, pretty_print_inst};
use std::alloc::{AllocError, Global};

/// For each block a note with its number and its address, at its start, and one for each of its instructions, at the first of its steps: its text, in the state of
/// emission behind those before it.
///
/// Condition: the instructions have texts. An error comes for want of memory alone.
pub fn block_notes(
    alloc: Global,
    info: &EmitInfo,
    state: EmitState,
    base: u64,
    blocks: &[Block],
    code: &MachBufferFinalized,
) -> Result<Vec<Note>, AllocError>
    requires { (texts_listing info.now.isa_flags state blocks.now).cause ≡ None }
    ensures { IfOk result
        (λ notes. map plain_note notes.items
        ≡ block_notes info.now.isa_flags state base code.now.block_starts.items
        code.now.starts.items 0 blocks.now) }
{
    let mut notes = Vec::new(alloc);
    let mut left = code.starts.as_slice();
    for (number, block) in blocks.iter().enumerate() {
        let offset = start_of(&code.block_starts, number);
        put_placed(alloc, &mut notes, "block", base, number, offset)?;
        left = put_insts(alloc, &mut notes, info, state, &block.insts, left)?;
    }
    Ok(notes)
}

// The start with this number.
fn start_of(starts: &[CodeOffset], number: usize) -> CodeOffset
    ensures { result ≡ get_or starts.now number 0 }
{
    match starts.get(number) {
        Some(start) => *start,
        None => 0,
    }
}

// Appends the notes of instructions, with whose steps these starts begin, and answers those behind them.
fn put_insts<'a>(
    alloc: Global,
    notes: &mut Vec<Note>,
    info: &EmitInfo,
    start: EmitState,
    insts: &[Inst],
    starts: &'a [CodeOffset],
) -> Result<&'a [CodeOffset], AllocError>
    requires { (inst_texts info.now.isa_flags start insts.now).cause ≡ None }
    ensures notes { IfOk result
        (λ _. map plain_note notes.new.items
        ≡ map plain_note notes.old.items
        ++ inst_notes info.now.isa_flags start starts.now insts.now) }
    ensures left { IfOk result (λ left. left.now ≡ starts_behind start starts.now insts.now) }
{
    let mut state = start;
    let mut left = starts;
    for inst in insts {
        let offset = start_of(left, 0);
        left = behind_inst(alloc, &state, inst, left)?;
        put_inst(alloc, notes, info, &mut state, offset, inst)?;
    }
    Ok(left)
}

// Appends the note of an instruction, which has a text, and goes to the state behind it.
fn put_inst(
    alloc: Global,
    notes: &mut Vec<Note>,
    info: &EmitInfo,
    state: &mut EmitState,
    offset: CodeOffset,
    inst: &Inst,
) -> Result<(), AllocError>
    requires { (inst_text info.now.isa_flags 0 state.old inst.now).cause ≡ None }
    ensures notes { OnOk result
        (map plain_note notes.new.items
        ≡ map plain_note notes.old.items
        ++ (offset, inst_line info.now.isa_flags state.old inst.now) ∷ []) }
    ensures after { OnOk result (state.new ≡ after state.old inst.now) }
{
    let text = line_of(alloc, info, state, inst)?;
    put_note(notes, offset, text)
}

// The line of an instruction, which has a text, without a line feed; and the state behind it.
fn line_of(
    alloc: Global,
    info: &EmitInfo,
    state: &mut EmitState,
    inst: &Inst,
) -> Result<String, AllocError>
    requires { (inst_text info.now.isa_flags 0 state.old inst.now).cause ≡ None }
    ensures text { IfOk result
        (λ text. string_bytes text ≡ inst_line info.now.isa_flags state.old inst.now) }
    ensures after { IfOk result (λ _. state.new ≡ after state.old inst.now) }
{
    match pretty_print_inst(alloc, inst, info, state) {
        Ok(text) => format!(in alloc; "  {text}"),
        Err(error) => {
            prove!(matches!(&error, TextError::NoMemory));
            Err(AllocError)
        }
    }
}
