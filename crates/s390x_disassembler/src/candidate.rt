//! The bytes that a line without address and bytes is read as.
ghost use Rattle.std.specs.Prelude.{◌≡◌, ◌<◌, ◌≤◌, ◌%◌, ℕ, length, map, slice_index, IfOk};
ghost use Rattle.s390x_format.specs.Reading.{be_bytes, encode};
ghost use Rattle.s390x_disassembler.specs.Text.{plain_row};
ghost use Rattle.s390x_disassembler.specs.Names.{is_ending, may_name, place_in, row_named};
ghost use Rattle.s390x_disassembler.specs.Start.{least_of, start_value, told_value};
ghost use Rattle.s390x_disassembler.specs.Bare.{IsBareRead, IsGroupRead, IsInstructionRead, IsRowRead, IsSpelledRead};

use crate::forms::operands;
use crate::reading::put_operands;
use crate::scan::{begins, head, hex_bytes, text_behind, word};
use crate::spelling::letter_table;
use arrayvec::ArrayVec;
use s390x_format::{
    Allowed, FormatKind, MACHINE_ROWS, MachineRow, SPELLINGS, Spelling, Suffix, layout, length,
    pack,
};
use std::alloc::{AllocError, Global};

/// The bytes that the first line of a text is read as, at an address: those of which it is written without its address and its
/// bytes, if there are any; else any bytes.
pub fn candidate(alloc: Global, address: u64, text: &[u8]) -> Result<Vec<u8>, AllocError>
    ensures { IfOk result (λ bytes. IsBareRead address text.now bytes.items) }
{
    let mnemonic = word(text);
    let rest = text_behind(text, mnemonic.len());
    if mnemonic == b".short".as_slice() {
        groups(alloc, 2, rest)
    } else if mnemonic == b".byte".as_slice() {
        groups(alloc, 1, rest)
    } else {
        let bytes = named_bytes(address, &SPELLINGS, &MACHINE_ROWS, mnemonic, rest);
        vector_of_bytes(alloc, &bytes)
    }
}

/// The bytes that the first line of a text is read as where it is an instruction's, without memory: those of which it is written
/// without its address and its bytes, if there are any; else any bytes.
pub fn instruction_bytes(address: u64, text: &[u8]) -> ArrayVec<u8, 6>
    ensures { IsInstructionRead address text.now result.items }
{
    let mnemonic = word(text);
    let rest = text_behind(text, mnemonic.len());
    named_bytes(address, &SPELLINGS, &MACHINE_ROWS, mnemonic, rest)
}

// The bytes as a vector.
fn vector_of_bytes(alloc: Global, bytes: &[u8]) -> Result<Vec<u8>, AllocError>
    ensures { IfOk result (λ v. v.items ≡ bytes.now) }
{
    let mut items = Vec::new(alloc);
    items.extend_from_slice(bytes)?;
    Ok(items)
}

// The bytes of a mnemonic and operands.
fn named_bytes(
    address: u64,
    spellings: &[Spelling],
    rows: &[MachineRow],
    mnemonic: &[u8],
    text: &[u8],
) -> ArrayVec<u8, 6>
    ensures { IsRowRead address (map (λ row. plain_row row) spellings.now) rows.now mnemonic.now
        text.now result.items }
{
    let at = find(spellings, mnemonic);
    if at < spellings.len() && at < rows.len() {
        row_bytes(address, rows[at], spellings[at], mnemonic, text)
    } else {
        ArrayVec::new()
    }
}

// The place of the first row of which a mnemonic may be; the table's length where there is none.
#[tactic(auto, using(crate::proofs::Tables::row_step, crate::proofs::Tables::row_here, crate::proofs::Tables::row_none))]
fn find(spellings: &[Spelling], mnemonic: &[u8]) -> usize
    ensures { result ≡ row_named (map (λ row. plain_row row) spellings.now) mnemonic.now }
{
    for at in 0..spellings.len() {
        if may_name(spellings[at], mnemonic) {
            return at;
        }
    }
    spellings.len()
}

// Whether a mnemonic may be a row's.
#[tactic(auto, unfolding(crate::specs::Names::may_name, crate::specs::Names::is_ending))]
fn may_name(spelling: Spelling, mnemonic: &[u8]) -> bool
    ensures { result ≡ may_name (plain_row spelling.entry) mnemonic.now }
{
    let (stem, suffix, _) = spelling;
    let stem = stem.as_bytes();
    let letters = text_behind(mnemonic, stem.len());
    mnemonic.starts_with(stem) && is_ending(suffix, letters)
}

// Whether a text is empty, or letters that a suffix has.
#[tactic(auto, unfolding(crate::specs::Names::is_ending))]
fn is_ending(suffix: Suffix, letters: &[u8]) -> bool
    ensures { result ≡ is_ending suffix letters.now }
{
    let table = letter_table(suffix);
    letters.is_empty() || place(table, letters) < table.len()
}

// The place of the first name that is this one; how many there are where none is.
#[tactic(auto, using(crate::proofs::Tables::name_step, crate::proofs::Tables::name_here, crate::proofs::Tables::name_none))]
fn place(table: &[&str], letters: &[u8]) -> usize
    ensures { result ≡ place_in (map (λ name. name.now) table.now) letters.now }
{
    for i in 0..table.len() {
        if table[i].as_bytes() == letters {
            return i;
        }
    }
    table.len()
}

// The bytes of a row with the operands of a text.
fn row_bytes(
    address: u64,
    row: MachineRow,
    spelling: Spelling,
    mnemonic: &[u8],
    text: &[u8],
) -> ArrayVec<u8, 6>
    ensures { IsSpelledRead address row (plain_row spelling.entry) mnemonic.now text.now
        result.items }
{
    let (stem, suffix, form) = spelling;
    let letters = text_behind(mnemonic, stem.as_bytes().len());
    let mut slots = start(row, suffix, place(letter_table(suffix), letters));
    put_operands(&mut slots, address, row.format, operands(form), text);
    bytes_of(row.format, &slots)
}

// The values that a row tells, and letters at a place of its suffix's table.
fn start(row: MachineRow, suffix: Suffix, place: usize) -> [u32; 10]
    ensures ten { length result ≡ 10 }
    ensures values { (k : ℕ) → k < 10
        → slice_index result k ≡ start_value row suffix (place % 256) k }
{
    let place = (place % 256) as u32;
    let mut slots = [0u32; 10];
    slots[0] = u32::from(row.opcode);
    slots[5] = u32::from(least_mask(row.allowed));
    put_letters(&mut slots, suffix, place);
    slots
}

// What letters at a place tell.
fn put_letters(slots: &mut [u32; 10], suffix: Suffix, place: u32)
    ensures ten { length slots.new ≡ 10 }
    ensures values { (k : ℕ) → k < 10
        → slice_index slots.new k ≡ told_value suffix place k (slice_index slots.old k) }
{
    match suffix {
        Suffix::Plain => (),
        Suffix::ThirdSize => slots[7] = place,
        Suffix::SizeAndCode => {
            slots[5] = place % 8;
            slots[6] = place / 8;
        }
        Suffix::Return => slots[1] = place,
        _ => slots[5] = place,
    }
}

// The least first mask that a row allows.
fn least_mask(allowed: Allowed) -> u8
    ensures { result ≡ least_of allowed }
{
    match allowed {
        Allowed::FirstMask { low, .. } => low,
        _ => 0,
    }
}

// The bytes of the values in a format's slots.
#[tactic(auto, using(s390x_format::proofs::FormatFacts::layout_ok, s390x_format::proofs::FormatFacts::length_small))]
fn bytes_of(format: FormatKind, slots: &[u32; 10]) -> ArrayVec<u8, 6>
    ensures { result.items ≡ encode format slots.now }
{
    number_bytes(pack(layout(format), slots), length(format))
}

// A number's bytes, the most significant first.
#[tactic(auto, using(crate::proofs::Tables::be_step, crate::proofs::Tables::be_done))]
fn number_bytes(number: u64, count: usize) -> ArrayVec<u8, 6>
    requires { count ≤ 6 }
    ensures { result.items ≡ be_bytes count number }
{
    let mut bytes: ArrayVec<u8, 6> = ArrayVec::new();
    for i in 0..count {
        bytes.push(((number >> (8 * (count - 1 - i))) % 256) as u8);
    }
    bytes
}

// The bytes of numbers in hexadecimal digits, so many of each.
fn groups(alloc: Global, size: usize, text: &[u8]) -> Result<Vec<u8>, AllocError>
    requires some { 0 < size }
    requires few { size ≤ 2 }
    ensures { IfOk result (λ bytes. IsGroupRead size text.now bytes.items) }
{
    let mut bytes = Vec::new(alloc);
    let mut separator = b' ';
    let mut rest = text;
    while begins(rest, separator) {
        let digits = text_behind(rest, 3);
        let group = hex_bytes(alloc, head(digits, 2 * size))?;
        bytes.extend_from_slice(&group)?;
        rest = text_behind(digits, 2 * size);
        separator = b',';
    }
    Ok(bytes)
}
