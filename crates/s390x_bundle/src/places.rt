//! Where the members of an image start.
ghost use Rattle.std.specs.Prelude.{◌≡◌, ◌+◌, ◌<◌, Some, None, IfErr, IfOk, MatchResult, length};
ghost use Rattle.std.specs.List.{All};
ghost use Rattle.s390x_bundle.specs.Places.{HasNoPlaces, TellsOneOf, first_misplaced, place_cause, start_behind, starts_behind};

use std::alloc::Global;

/// What a member takes of an image, in bytes.
#[derive(Clone, Copy)]
pub struct Extent {
    /// Its code and constants.
    pub size: u32,
    /// Of which its start is a multiple.
    pub alignment: u32,
}

/// Why a member has no place.
#[derive(Clone, Copy, PartialEq, Debug)]
pub enum PlaceCause {
    /// Its code and constants have no bytes.
    EmptyMember,
    /// Its end would reach 2^31.
    TooLong,
    /// The base plus its start is 2^64 or above.
    AddressTooHigh,
}

/// Why members have no places.
#[derive(Clone, Copy, PartialEq, Debug)]
pub enum PlaceError {
    /// The first member that has none, by its number from 0, and why.
    Misplaced(usize, PlaceCause),
    /// No memory.
    NoMemory,
}

// Where a member starts behind the end of the one before it.
fn start_of(end: Option<u32>, alignment: u32) -> u64
    requires { 0 < alignment }
    ensures value { result ≡ start_behind end alignment }
    ensures near { result < 8589934592 }
{
    match end {
        Some(end) => {
            let alignment = u64::from(alignment);
            (u64::from(end) + 2 + (alignment - 1)) / alignment * alignment
        }
        None => 0,
    }
}

// A member's start, where it can stand there.
fn checked_start(base: u64, start: u64, size: u32) -> Result<u32, PlaceCause>
    requires { start < 8589934592 }
    ensures answer { MatchResult result (λ s. (place_cause base start size ≡ None) × (s ≡ start))
        (λ cause. place_cause base start size ≡ Some cause) }
    ensures short { IfOk result (λ s. s + size < 2147483648) }
{
    if size == 0 {
        return Err(PlaceCause::EmptyMember);
    }
    if start + u64::from(size) >= 2147483648 {
        return Err(PlaceCause::TooLong);
    }
    if u128::from(base) + u128::from(start) >= 1 << 64 {
        return Err(PlaceCause::AddressTooHigh);
    }
    Ok(start as u32)
}

/// Where members start in an image at a base: the first one at 0, each later one at the least multiple of its alignment that is at least 2 behind the end of
/// the one before.
///
/// Refused by the first member that has no place: because it is empty, or else because its end would reach 2^31, or else because its address would be 2^64
/// or above.
pub fn starts_of(alloc: Global, base: u64, members: &[Extent]) -> Result<Vec<u32>, PlaceError>
    requires { All (λ x. 0 < x.alignment) members.now }
    ensures answer { MatchResult result
        (λ starts. (first_misplaced base None 0 members.now ≡ None)
        × (starts.items ≡ starts_behind None members.now))
        (λ e. HasNoPlaces (first_misplaced base None 0 members.now) e) }
    ensures within { IfErr result (TellsOneOf (length members.now)) }
{
    let mut starts = Vec::new(alloc);
    let mut end = None;
    for (number, member) in members.iter().enumerate() {
        let start = start_of(end, member.alignment);
        match checked_start(base, start, member.size) {
            Ok(start) => {
                if starts.push(start).is_err() {
                    return Err(PlaceError::NoMemory);
                }
                end = Some(start + member.size);
            }
            Err(cause) => return Err(PlaceError::Misplaced(number, cause)),
        }
    }
    Ok(starts)
}
