//! The disassembly of some code with data behind it, and notes between its lines.
ghost use Rattle.std.specs.Prelude.{◌≡◌, ◌+◌, ◌<◌, ◌≤◌, ◌++◌, length, IfOk, OnOk, string_bytes};
ghost use Rattle.s390x_disassembler.specs.Noted.{AreInOrder, AreLines, CoversData, IsDataLine, IsNoted, due_text, indented_text, note_text, noted_text, notes_left, notes_text};

use crate::line::Line;
use crate::listing::{lines_of, put_line};
use std::alloc::{AllocError, Global};

/// A text for people that belongs to a place of some code.
#[derive(Drop)]
pub struct Note {
    /// How many bytes stand before the place.
    pub offset: usize,
    /// A line or several, without a line feed at the end.
    pub text: String,
}

/// The disassembly of the first `split` bytes, which are code that begins at the address `base`, with the bytes behind them as lines of data, and with notes. Each line
/// of `disassemble` stands behind four blanks, and so does the data, eight bytes a line, as `.short` or `.byte`. A note is a line of its own before the first line that
/// begins at its place or behind it, or in the end where there is none; notes of one place stand as they are given. An error comes for want of memory alone.
pub fn disassemble_with_notes(
    alloc: Global,
    base: u64,
    code: &[u8],
    split: usize,
    mut notes: Vec<Note>,
) -> Result<String, AllocError>
    requires { split ≤ length code.now }
    ensures { IfOk result (λ text. IsNoted base code.now split notes.items (string_bytes text)) }
{
    sort(&mut notes)?;
    let lines = all_lines(alloc, code, split)?;
    with_notes(alloc, base, code, &lines, &notes)
}

// Puts notes in order.
fn sort(notes: &mut Vec<Note>) -> Result<(), AllocError>
    ensures { OnOk result (AreInOrder notes.old.items notes.new.items) }
{
    notes.sort_by_key(|note| note.offset)?;
    Ok(())
}

// The lines of the code, and of the data behind it.
fn all_lines(alloc: Global, code: &[u8], split: usize) -> Result<Vec<Line>, AllocError>
    requires { split ≤ length code.now }
    ensures { IfOk result (λ lines. AreLines code.now split lines.items) }
{
    let mut lines = lines_of(alloc, &code[..split])?;
    let data = data_lines(alloc, code, split)?;
    lines.extend_from_slice(&data)?;
    Ok(lines)
}

// The lines with their notes.
fn with_notes(
    alloc: Global,
    base: u64,
    code: &[u8],
    lines: &[Line],
    notes: &[Note],
) -> Result<String, AllocError>
    ensures { IfOk result
        (λ text. string_bytes text ≡ noted_text base code.now notes.now lines.now) }
{
    let mut out = String::new(alloc);
    put_lines(alloc, &mut out, base, code, lines, notes)?;
    Ok(out)
}

// The lines of the data from an offset on.
#[tactic(auto, using(crate::proofs::Data::one_more))]
fn data_lines(alloc: Global, code: &[u8], start: usize) -> Result<Vec<Line>, AllocError>
    requires { start ≤ length code.now }
    ensures { IfOk result (λ lines. CoversData code.now start (length code.now) lines.items) }
{
    let mut lines = Vec::new(alloc);
    let mut offset = start;
    while offset < code.len() {
        let line = data_line(code, offset);
        offset += line.length;
        lines.push(line)?;
    }
    Ok(lines)
}

// A line of data.
fn data_line(code: &[u8], offset: usize) -> Line
    requires { offset < length code.now }
    ensures line { IsDataLine code.now result }
    ensures place { result.offset ≡ offset }
    ensures goes_on { offset < offset + result.length }
    ensures inside { offset + result.length ≤ length code.now }
{
    Line {
        offset,
        length: (code.len() - offset).min(8),
        found: None,
    }
}

// Appends the lines with their notes.
fn put_lines(
    alloc: Global,
    out: &mut String,
    base: u64,
    code: &[u8],
    lines: &[Line],
    notes: &[Note],
) -> Result<(), AllocError>
    ensures { OnOk result
        (string_bytes out.new
        ≡ string_bytes out.old ++ noted_text base code.now notes.now lines.now) }
{
    let mut left = notes;
    for line in lines {
        left = put_due(out, line.offset, left)?;
        put_indented(alloc, out, base, code, line)?;
    }
    put_notes(out, left)
}

// A line behind blanks.
fn put_indented(
    alloc: Global,
    out: &mut String,
    base: u64,
    code: &[u8],
    line: &Line,
) -> Result<(), AllocError>
    ensures { OnOk result
        (string_bytes out.new ≡ string_bytes out.old ++ indented_text base code.now line.now) }
{
    out.push_str("    ")?;
    put_line(alloc, out, base, code, line)
}

// The notes before the first one that stands behind the offset; what is left is answered.
fn put_due<'a>(out: &mut String, offset: usize, notes: &'a [Note]) -> Result<&'a [Note], AllocError>
    ensures left { IfOk result (λ left. left.now ≡ notes_left offset notes.now) }
    ensures text { IfOk result
        (λ _. string_bytes out.new ≡ string_bytes out.old ++ due_text offset notes.now) }
{
    let mut left = notes;
    while let [note, rest @ ..] = left
        && note.offset <= offset
    {
        put_note(out, note)?;
        left = rest;
    }
    Ok(left)
}

// All notes.
fn put_notes(out: &mut String, notes: &[Note]) -> Result<(), AllocError>
    ensures { OnOk result (string_bytes out.new ≡ string_bytes out.old ++ notes_text notes.now) }
{
    for note in notes {
        put_note(out, note)?;
    }
    Ok(())
}

// A note, and a line feed.
fn put_note(out: &mut String, note: &Note) -> Result<(), AllocError>
    ensures { OnOk result (string_bytes out.new ≡ string_bytes out.old ++ note_text note.now) }
{
    out.push_str(note.text.as_str())?;
    out.push_str("\n")
}
