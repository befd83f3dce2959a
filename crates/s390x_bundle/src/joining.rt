//! The finished code of members in one image.
ghost use Rattle.std.specs.Prelude.{◌≡◌, ◌<◌, IfErr, IfOk, MatchResult, length, map};
ghost use Rattle.std.specs.List.{All};
ghost use Rattle.s390x_buffer.specs.declared.entries.MachBufferFinalized.{MachBufferFinalized as Finished};
ghost use Rattle.s390x_bundle.specs.Joined.{HasNoBundle, IsBundleOf, IsFinished, TellsMember, extent_of};

use crate::linking::link_members;
use crate::member::Member;
use crate::places::{Extent, PlaceCause, PlaceError, starts_of};
use s390x_buffer::MachBufferFinalized;
use s390x_image::{Image, LinkError};
use std::alloc::{AllocError, Global};

/// Several functions in one image.
#[derive(Drop)]
pub struct Bundle {
    pub image: Image,
    /// Where each member starts, in bytes from the image's base.
    pub starts: Vec<u32>,
}

/// Why finished code is not put into one image.
#[derive(Clone, Copy, PartialEq, Debug)]
pub enum JoinError {
    /// The first member that has no place, by its number from 0, and why.
    Misplaced(usize, PlaceCause),
    /// The first member that can't be linked at its start, and why.
    Unlinked(usize, LinkError),
    /// No memory.
    NoMemory,
}

// What each member takes of the image.
fn extents_of(alloc: Global, codes: &[MachBufferFinalized]) -> Result<Vec<Extent>, AllocError>
    requires { All (λ (f : Finished). length f.bytes.items < 2147483648) codes.now }
    ensures { IfOk result (λ extents. extents.items ≡ map extent_of codes.now) }
{
    let mut extents = Vec::new(alloc);
    for code in codes {
        extents.push(Extent {
            size: code.bytes.len() as u32,
            alignment: code.alignment,
        })?;
    }
    Ok(extents)
}

/// The finished code of members in one image at a base: one member behind the other, each linked at its start with the symbols of its lines and all members.
///
/// Refused by the first member that has no place, or else by the first one that can't be linked, with its first cause.
#[tactic(auto, using(crate::proofs::Starting::start_count, crate::proofs::Starting::starts_fit, crate::proofs::Starting::parts_rise))]
pub fn join_members(
    alloc: Global,
    base: u64,
    members: &[Member],
    codes: &[MachBufferFinalized],
) -> Result<Bundle, JoinError>
    requires counts { length codes.now ≡ length members.now }
    requires finished { All IsFinished codes.now }
    ensures answer { MatchResult result (IsBundleOf base members.now codes.now)
        (HasNoBundle base members.now codes.now) }
    ensures within { IfErr result (TellsMember (length members.now)) }
{
    let Ok(extents) = extents_of(alloc, codes) else {
        return Err(JoinError::NoMemory);
    };
    let starts = match starts_of(alloc, base, &extents) {
        Ok(starts) => starts,
        Err(PlaceError::Misplaced(member, cause)) => return Err(JoinError::Misplaced(
            member, cause,
        )),
        Err(PlaceError::NoMemory) => return Err(JoinError::NoMemory),
    };
    match link_members(alloc, base, members, &starts, codes) {
        Ok(bytes) => Ok(Bundle {
            image: Image { base, bytes },
            starts,
        }),
        Err(refusal) => match refusal.error {
            LinkError::NoMemory => Err(JoinError::NoMemory),
            error => Err(JoinError::Unlinked(refusal.member, error)),
        },
    }
}
