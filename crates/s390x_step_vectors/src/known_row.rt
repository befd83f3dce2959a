//! An instruction whose row is known.

use s390x_format::{Facility, Located, MACHINE_ROWS, facility_needed, locate, stem};

/// An instruction, the facility that it needs, and what its row's mnemonics begin with.
#[derive(Drop)]
pub struct KnownRow<'a> {
    pub code: Vec<u8>,
    pub facility: Facility,
    pub stem: &'a [u8],
}

/// Whether the instruction has a row, of which this is told.
pub fn has_row_as_told(known: &KnownRow) -> bool {
    match locate(&known.code) {
        Some(located) => needs_as_told(known, &located) && is_written_as_told(known, &located),
        None => false,
    }
}

// Whether the instruction's row needs the facility.
fn needs_as_told(known: &KnownRow, located: &Located) -> bool {
    match MACHINE_ROWS.get(located.at) {
        Some(row) => facility_needed(row.facility, &located.decoded.fields) == known.facility,
        None => false,
    }
}

// Whether the mnemonics of the instruction's row begin so.
fn is_written_as_told(known: &KnownRow, located: &Located) -> bool {
    stem(located.decoded.row.opcode).as_bytes() == known.stem
}
