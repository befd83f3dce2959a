//! The decoder.
ghost use Rattle.std.specs.Prelude.{◌≡◌, ℕ, ◌+◌, ◌-◌, ◌*◌, ◌^◌, ◌≤◌, ◌<◌, length, slice_index, IfSome};
ghost use Rattle.s390x_format.specs.Fetch.{IsFetch, IsLocated, decoded_in, machine_rows};
ghost use Rattle.s390x_format.specs.Rows.{rows_with};
ghost use Rattle.s390x_format.specs.Reading.{IsPlacedReading, IsReading, reading_in};
ghost use Rattle.s390x_format.specs.declared.decoder.Decoded.{Decoded};
ghost use Rattle.s390x_format.specs.declared.reading.Reading.{Reading};

use crate::fields::{Fields, view};
use crate::first_bytes::FIRST_BYTES;
use crate::reading::{PlacedReading, read, read_counted};
use crate::row::Row;
use crate::row_offsets::ROW_OFFSETS;
use crate::steps::Steps;
use crate::table::MACHINE_ROWS;
use std::sync::ledger::Ledger;

/// An instruction: its row, and its operands.
#[derive(Clone, Copy)]
pub struct Decoded {
    pub row: Row,
    pub fields: Fields,
}

/// An instruction, and where its row stands in the table of machine rows.
#[derive(Clone, Copy)]
pub struct Located {
    pub at: usize,
    pub decoded: Decoded,
}

/// The instruction with which the bytes begin. `None` exactly where there are too few bytes or no
/// machine row has these.
#[tactic(auto, using(crate::proofs::Locating::fetched_alone))]
pub fn decode(bytes: &[u8]) -> Option<Decoded>
    ensures sound { IfSome result (λ d. IsFetch bytes.now d) }
    ensures complete { (d : Decoded) → IsFetch bytes.now d → result ≡ Some d }
{
    decoded_in(locate(bytes))
}

/// What `decode` answers, with the place of the row in the table of machine rows.
pub fn locate(bytes: &[u8]) -> Option<Located>
    ensures sound { IfSome result (λ l. IsLocated bytes.now l) }
    ensures complete { (d : Decoded) → IsFetch bytes.now d → decoded_in result ≡ Some d }
{
    located_row(
        bytes,
        &read(&MACHINE_ROWS, &FIRST_BYTES, &ROW_OFFSETS, bytes),
    )
}

/// What `decode` answers. A step is one comparison of the rest of an opcode with that of a row.
/// Where n machine rows have the first byte, it takes s steps with 2^s at most 2n + 1; with no
/// bytes it takes none.
#[tactic(auto, using(crate::proofs::Locating::fetched_alone))]
pub fn decode_counted<L: Ledger>(bytes: &[u8], steps: &mut Steps<L>) -> Option<Decoded>
    ensures sound { IfSome result (λ d. IsFetch bytes.now d) }
    ensures complete { (d : Decoded) → IsFetch bytes.now d → result ≡ Some d }
    ensures steps { steps.old ≤ steps.new }
    ensures few_steps { 2 ^ (steps.new - steps.old)
        ≤ 2 * rows_with (slice_index bytes.now 0) machine_rows + 1 }
    ensures no_bytes { length bytes.now ≡ 0 → steps.new ≡ steps.old }
{
    decoded_in(locate_counted(bytes, steps))
}

/// The instruction without the place of its row.
fn decoded_in(located: Option<Located>) -> Option<Decoded>
    ensures { result ≡ decoded_in located }
{
    match located {
        Some(located) => Some(located.decoded),
        None => None,
    }
}

/// What `locate` answers, in the steps of `decode_counted`.
fn locate_counted<L: Ledger>(bytes: &[u8], steps: &mut Steps<L>) -> Option<Located>
    ensures sound { IfSome result (λ l. IsLocated bytes.now l) }
    ensures complete { (d : Decoded) → IsFetch bytes.now d → decoded_in result ≡ Some d }
    ensures steps { steps.old ≤ steps.new }
    ensures few_steps { 2 ^ (steps.new - steps.old)
        ≤ 2 * rows_with (slice_index bytes.now 0) machine_rows + 1 }
    ensures no_bytes { length bytes.now ≡ 0 → steps.new ≡ steps.old }
{
    located_row(
        bytes,
        &read_counted(&MACHINE_ROWS, &FIRST_BYTES, bytes, steps),
    )
}

/// A reading of the bytes as an instruction.
fn located_row(bytes: &[u8], placed: &Option<PlacedReading>) -> Option<Located>
    requires sound { IfSome placed.now (λ p. IsPlacedReading machine_rows bytes.now p) }
    requires complete { (r : Reading) → IsReading machine_rows bytes.now r
        → reading_in placed.now ≡ Some r }
    ensures sound { IfSome result (λ l. IsLocated bytes.now l) }
    ensures complete { (d : Decoded) → IsFetch bytes.now d → decoded_in result ≡ Some d }
{
    match placed {
        Some(placed) => Some(Located {
            at: placed.at,
            decoded: Decoded {
                row: placed.reading.row,
                fields: view(&placed.reading),
            },
        }),
        None => None,
    }
}
