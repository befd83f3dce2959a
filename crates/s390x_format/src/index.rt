//! The search for a row by its first byte, and then by the rest of its opcode, at once or by halving.
ghost use Rattle.std.specs.Prelude.{◌≡◌, ℕ, ◌+◌, ◌-◌, ◌*◌, ◌^◌, ◌<◌, ◌≤◌, true, length, get_or, MatchOption};
ghost use Rattle.s390x_format.specs.Index.{is_index, has_room, place_in, LacksRow};
ghost use Rattle.s390x_format.specs.Rows.{rises, rows_with};
ghost use Rattle.s390x_format.specs.Reading.{HasOpcode};

use crate::row::MachineRow;
use crate::steps::Steps;
use std::sync::ledger::Ledger;

/// Where an opcode goes on after the first byte.
#[derive(Clone, Copy)]
pub enum RestPlace {
    /// It has eight bits.
    Nowhere,
    /// In the right half of byte 1.
    LowHalf,
    /// In byte 1.
    SecondByte,
    /// In byte 5.
    LastByte,
}

/// The rows with one first byte: those from `start` up to `end`. Where each of them stands among these is told by the list of offsets, from `offsets` on.
#[derive(Clone, Copy)]
pub struct FirstByte {
    pub rest: RestPlace,
    pub start: usize,
    pub end: usize,
    pub offsets: usize,
}

/// Where a row with the first byte and the rest of the opcode stands, if there is one.
pub fn row_place(firsts: &[FirstByte; 256], offsets: &[u8], first: u8, rest: u8) -> usize
    requires { has_room firsts.now offsets.now ≡ true }
    ensures { result ≡ place_in firsts.now offsets.now first rest }
{
    let span = &firsts[first as usize];
    span.start + offsets[span.offsets + rest as usize] as usize
}

/// Where the row with the first byte and the opcode stands. Each comparison is a step.
pub fn search<L: Ledger>(
    rows: &[MachineRow],
    firsts: &[FirstByte; 256],
    first: u8,
    opcode: u16,
    steps: &mut Steps<L>,
) -> Option<usize>
    requires index { is_index rows.now firsts.now ≡ true }
    requires rising { rises 0 rows.now ≡ true }
    requires few { length rows.now < 2 ^ 16 }
    ensures row { MatchOption result (LacksRow rows.now first opcode)
        (λ i. HasOpcode rows.now opcode i) }
    ensures steps { steps.old ≤ steps.new }
    ensures few_steps { 2 ^ (steps.new - steps.old) ≤ 2 * rows_with first rows.now + 1 }
{
    let span = firsts[first as usize];
    let mut low = span.start;
    let mut high = span.end;
    while low < high {
        let mid = low + (high - low) / 2;
        let row = &rows[mid];
        steps.tick();
        if row.opcode == opcode {
            return Some(mid);
        }
        if row.opcode < opcode {
            low = mid + 1;
        } else {
            high = mid;
        }
    }
    None
}
