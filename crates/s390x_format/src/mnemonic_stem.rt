//! What the mnemonics of a machine row begin with, by its opcode.
ghost use Rattle.std.specs.Prelude.{◌≡◌, [], length, get_or};
ghost use Rattle.s390x_format.specs.Stems.{IsOnlyAt, first_digits, indexed_place, last_digits, place_for, stem_of, stems_passed};

use crate::first_bytes::FIRST_BYTES;
use crate::index::row_place;
use crate::row::MachineRow;
use crate::row_offsets::ROW_OFFSETS;
use crate::spelling::Spelling;
use crate::table::{MACHINE_ROWS, SPELLINGS};

// The first byte of an opcode of two, three or four digits.
fn first_digits(opcode: u16) -> u8
    ensures { result ≡ first_digits opcode }
{
    if opcode < 256 {
        opcode as u8
    } else if opcode < 4096 {
        (opcode / 16) as u8
    } else {
        (opcode / 256) as u8
    }
}

// The rest of it.
fn last_digits(opcode: u16) -> u8
    ensures { result ≡ last_digits opcode }
{
    if opcode < 256 {
        0
    } else if opcode < 4096 {
        (opcode % 16) as u8
    } else {
        (opcode % 256) as u8
    }
}

// Where the row with the opcode stands, if there is one.
fn indexed_place(opcode: u16) -> usize
    ensures { result ≡ indexed_place opcode }
{
    row_place(
        &FIRST_BYTES,
        &ROW_OFFSETS,
        first_digits(opcode),
        last_digits(opcode),
    )
}

// The stem of the row with the opcode, which stands at this place or nowhere.
#[tactic(auto, using(crate::proofs::StemPlaces::stem_there, crate::proofs::StemPlaces::no_stem_past, crate::proofs::StemPlaces::no_stem_other))]
fn stem_at(rows: &[MachineRow], spellings: &[Spelling], at: usize, opcode: u16) -> &'static str
    requires beside { length spellings.now ≡ length rows.now }
    requires only { IsOnlyAt rows.now opcode at }
    ensures { result.now ≡ get_or (stems_passed spellings.now) (place_for rows.now opcode) [] }
{
    if at < rows.len() {
        let row = &rows[at];
        if row.opcode == opcode {
            spellings[at].0
        } else {
            ""
        }
    } else {
        ""
    }
}

/// What the mnemonics of the row with this opcode begin with. Empty where no row has it.
pub fn stem(opcode: u16) -> &'static str
    ensures { result.now ≡ stem_of opcode }
{
    stem_at(&MACHINE_ROWS, &SPELLINGS, indexed_place(opcode), opcode)
}
