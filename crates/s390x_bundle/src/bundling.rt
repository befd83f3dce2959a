//! Functions in one image, where they call each other by name.
ghost use Rattle.std.specs.Prelude.{IfErr, IfOk, MatchResult, None};
ghost use Rattle.s390x_bundle.specs.Bundled.{HasNoImage, IsImageOfMembers};
ghost use Rattle.s390x_bundle.specs.Emitted.{AreEmitted, HasNoCode, IsEmitted, emit_cause, first_refused, refused_or};

use crate::error::{BundleError, named_error};
use crate::joining::{Bundle, join_members};
use crate::member::Member;
use crate::names::duplicate_name;
use s390x_base::EmitError;
use s390x_buffer::MachBufferFinalized;
use s390x_emit_int::emit_function;
use std::alloc::Global;

// The finished code of a member.
fn emit_member(alloc: Global, member: &Member) -> Result<MachBufferFinalized, BundleError>
    ensures { MatchResult result (IsEmitted member.now)
        (HasNoCode (refused_or member.now.name (emit_cause member.now) None)) }
{
    match emit_function(alloc, &member.function, &member.info, member.state) {
        Ok(code) => Ok(code),
        Err(EmitError::NoMemory) => Err(BundleError::NoMemory),
        Err(error) => Err(BundleError::Emit {
            name: member.name,
            error,
        }),
    }
}

// The finished code of each member.
fn emit_members(alloc: Global, members: &[Member]) -> Result<Vec<MachBufferFinalized>, BundleError>
    ensures { MatchResult result (λ codes. AreEmitted members.now codes.items)
        (HasNoCode (first_refused members.now)) }
{
    let mut codes = Vec::new(alloc);
    for member in members {
        let code = emit_member(alloc, member)?;
        if codes.push(code).is_err() {
            return Err(BundleError::NoMemory);
        }
    }
    Ok(codes)
}

/// The members in one image at a base: the first one at 0, each later one at the least multiple of its alignment that is at least 2 behind the end of the one
/// before, with zeros between. Each one is emitted, and linked at its start with the symbols of its own lines and all members' names at their addresses.
///
/// A machine that fetches the image, from the start of any block or from the return place of any call of any member, in every state in which it lies in memory,
/// and under every list of others' writes outside it, does only what the members' functions and their calls of each other allow.
///
/// Refused by the first cause, in this order: a name that comes twice (`DuplicateName`), the emission of each member (`Emit`), the place of each member
/// (`EmptyMember`, or else `TooLong`, or else `AddressTooHigh`), the linking of each member (`Link`); or for want of memory.
pub fn bundle(alloc: Global, members: &[Member], base: u64) -> Result<Bundle, BundleError>
    ensures image { IfOk result (IsImageOfMembers base members.now) }
    ensures refused { IfErr result (HasNoImage base members.now) }
{
    match duplicate_name(alloc, members) {
        Ok(None) => {}
        Ok(Some(name)) => return Err(BundleError::DuplicateName { name }),
        Err(_) => return Err(BundleError::NoMemory),
    }
    let codes = emit_members(alloc, members)?;
    match join_members(alloc, base, members, &codes) {
        Ok(bundle) => Ok(bundle),
        Err(error) => Err(named_error(members, error)),
    }
}
