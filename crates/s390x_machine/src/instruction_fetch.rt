//! Fetching an instruction.
ghost use Rattle.std.specs.Prelude.{◌≡◌, ℕ, Bool, ◌%◌, ◌^◌, ◌<◌, MatchOption};
ghost use Rattle.s390x_format.specs.Rows.{fetch_length_of};
ghost use Rattle.s390x_machine.specs.Fetch.{Fetches, IsReached, StandsInTable, fetched_in};
ghost use Rattle.s390x_machine.specs.State.{AreBytes, memory_of};

use crate::memory::Memory;
use s390x_format::{Decoded, Located, fetch_length, locate};

/// What stands at a place.
#[derive(Clone, Copy)]
pub enum Fetched {
    /// The place is odd.
    Misplaced,
    /// A byte of the instruction isn't accessible.
    Missing,
    /// No machine row has these bytes.
    Unknown,
    /// An instruction.
    Found(Decoded),
}

/// What stands at a place, with the place of an instruction's row in the table of machine rows.
#[derive(Clone, Copy)]
pub enum FetchedRow {
    /// The place is odd.
    Misplaced,
    /// A byte of the instruction isn't accessible.
    Missing,
    /// No machine row has these bytes.
    Unknown,
    /// An instruction.
    Found(Located),
}

/// What stands at a place. The first byte tells how many the instruction has.
pub fn fetch<M: Memory>(memory: &M, place: u64) -> Fetched
    ensures { Fetches (memory_of (M.held memory.now) (M.byte memory.now)) place result }
{
    fetched_in(&fetch_row(memory, place))
}

/// What was fetched without the place of its row.
fn fetched_in(fetched: &FetchedRow) -> Fetched
    ensures { result ≡ fetched_in fetched.now }
{
    match fetched {
        FetchedRow::Misplaced => Fetched::Misplaced,
        FetchedRow::Missing => Fetched::Missing,
        FetchedRow::Unknown => Fetched::Unknown,
        FetchedRow::Found(located) => Fetched::Found(located.decoded),
    }
}

/// What stands at a place whose bytes these six begin with. The first one tells how many the instruction has.
fn row_in(bytes: &[u8; 6]) -> FetchedRow
    ensures fetches { (held : ℕ → Bool) (byte : ℕ → ℕ) (place : ℕ)
        → place % 2 ≡ 0
        → place < 2 ^ 64
        → AreBytes held byte place (fetch_length_of (byte place)) bytes.now
        → Fetches (memory_of held byte) place (fetched_in result) }
    ensures row { StandsInTable result }
{
    let n = fetch_length(bytes[0]);
    match locate(&bytes[..n]) {
        Some(located) => FetchedRow::Found(located),
        None => FetchedRow::Unknown,
    }
}

/// The bytes at a place, as many as the first one tells; `None` exactly where one of these isn't accessible.
#[cold]
#[inline(never)]
fn shorter_bytes<M: Memory>(memory: &M, place: u64) -> Option<[u8; 6]>
    ensures { MatchOption result
        (IsReached (memory_of (M.held memory.now) (M.byte memory.now)) place → ⊥)
        (λ bytes. AreBytes (M.held memory.now) (M.byte memory.now) place
        (fetch_length_of (M.byte memory.now place)) bytes) }
{
    match memory.byte_at(place) {
        Some(first) => memory.leading_bytes(place, fetch_length(first) as u64),
        None => None,
    }
}

/// The bytes at a place, at least as many as the first one tells; `None` exactly where one of these isn't accessible. No instruction has more than six.
pub fn reached_bytes<M: Memory>(memory: &M, place: u64) -> Option<[u8; 6]>
    ensures { MatchOption result
        (IsReached (memory_of (M.held memory.now) (M.byte memory.now)) place → ⊥)
        (λ bytes. AreBytes (M.held memory.now) (M.byte memory.now) place
        (fetch_length_of (M.byte memory.now place)) bytes) }
{
    match memory.leading_bytes(place, 6) {
        Some(bytes) => Some(bytes),
        None => shorter_bytes(memory, place),
    }
}

/// What `fetch` answers, with the place of the row in the table of machine rows.
pub fn fetch_row<M: Memory>(memory: &M, place: u64) -> FetchedRow
    ensures fetches { Fetches (memory_of (M.held memory.now) (M.byte memory.now)) place
        (fetched_in result) }
    ensures row { StandsInTable result }
{
    if place % 2 == 1 {
        return FetchedRow::Misplaced;
    }
    match reached_bytes(memory, place) {
        Some(bytes) => row_in(&bytes),
        None => FetchedRow::Missing,
    }
}
